//! Why a window is not replayed.

ghost use Rattle.std.specs.Prelude.{◌≡◌};

use std::alloc::{AllocError, AllocFailed};
use tm_points::Lost;
use tm_system::Diverged;

/// Why a window was not replayed from a point.
#[derive(Clone, Copy, Debug, PartialEq, Eq)]
pub enum ReplayFault {
    /// Something is lost that the replay needs: exactly where [`tm_points::accepts`] says so.
    Lost(Lost),
    /// The window is not what any run of the image leaves: this is the first thing that the replay did
    /// not find as the window has it.
    Diverged(Diverged),
    /// There was too little memory for the replay.
    Memory,
}

impl From<Lost> for ReplayFault {
    ghost use Rattle.std.specs.Prelude.{◌≡◌};
    ghost use Rattle.tm_replay.specs.declared.fault.ReplayFault.TheVariants.{Lost};

    ghost from_gives = { λ lost fault. fault ≡ Lost lost };

    fn from(lost: Lost) -> Self {
        ReplayFault::Lost(lost)
    }
}

impl From<Diverged> for ReplayFault {
    ghost use Rattle.std.specs.Prelude.{◌≡◌};
    ghost use Rattle.tm_replay.specs.declared.fault.ReplayFault.TheVariants.{Diverged};

    ghost from_gives = { λ diverged fault. fault ≡ Diverged diverged };

    fn from(diverged: Diverged) -> Self {
        ReplayFault::Diverged(diverged)
    }
}

impl From<AllocError> for ReplayFault {
    ghost use Rattle.std.specs.Prelude.{◌≡◌};
    ghost use Rattle.tm_replay.specs.declared.fault.ReplayFault.TheVariants.{Memory};

    ghost from_gives = { λ _ fault. fault ≡ Memory };

    fn from(_error: AllocError) -> Self {
        ReplayFault::Memory
    }
}

impl<T: Drop> From<AllocFailed<T>> for ReplayFault {
    ghost use Rattle.std.specs.Prelude.{◌≡◌};
    ghost use Rattle.tm_replay.specs.declared.fault.ReplayFault.TheVariants.{Memory};

    ghost from_gives = { λ _ fault. fault ≡ Memory };

    fn from(_failed: AllocFailed<T>) -> Self {
        ReplayFault::Memory
    }
}
