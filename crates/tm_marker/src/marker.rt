//! Markers and their order.

ghost use Rattle.std.specs.Prelude.{◌≡◌};
ghost use Rattle.tm_marker.specs.Order.{marker_eq, marker_lt};

/// How many backward transfers an epoch has at most: the one that would make the count this large
/// begins a new epoch instead.
pub const EPOCH_LENGTH: u32 = 1_048_576;

/// An instant of a task: its epoch, the backward transfers taken since the epoch began, and the
/// program counter, as an address in bytes. Markers are ordered by epoch, then count, then pc
/// (a program counter and a software counter name an instant: Mellor-Crummey and LeBlanc, 1989).
#[derive(Clone, Copy, Debug, PartialEq, Eq, PartialOrd, Ord, Hash)]
pub struct Marker {
    pub epoch: u64,
    pub count: u32,
    pub pc: u32,
}

impl Marker {
    /// The marker that stands for nobody.
    pub const ZERO: Marker = Marker {
        epoch: 0,
        count: 0,
        pc: 0,
    };

    /// Whether the two markers name one instant.
    pub fn is_at(self, other: Marker) -> bool
        ensures equal { result ≡ marker_eq self other }
    {
        self == other
    }

    /// Whether this marker names an earlier instant than the other.
    pub fn is_before(self, other: Marker) -> bool
        ensures order { result ≡ marker_lt self other }
    {
        self < other
    }
}
