//! The list of points that the finder hands out.

ghost use Rattle.std.specs.Prelude.{◌≡◌};

use std::marker::Model;

/// Points in rising order: contracts see a list of numbers.
#[derive(Debug, Drop)]
pub struct Points {
    points: Vec<u64>,
}

impl Model for Points {
    ghost use Rattle.std.specs.Prelude.{ℕ, List};

    ghost Value = { List ℕ };

    ghost view = { λ p. p.points.items };
}

impl Points {
    /// The points, in rising order.
    pub fn as_slice(&self) -> &[u64]
        ensures { result.now ≡ self.now }
    {
        self.points.as_slice()
    }
}

impl From<Vec<u64>> for Points {
    ghost from_gives = { λ v points. points ≡ v.items };

    fn from(points: Vec<u64>) -> Self {
        Points { points }
    }
}

impl From<Points> for Vec<u64> {
    ghost from_gives = { λ points v. v.items ≡ points };

    fn from(points: Points) -> Self {
        points.points
    }
}
