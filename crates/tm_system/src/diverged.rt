//! Where a window is seen to be that of no run of an image.

use tm_marker::{Marker, OutputEntry};
use tm_task::Cause;

/// Why a task that is replayed from a window does not do what the window says that it did.
#[derive(Clone, Copy, Debug, PartialEq, Eq)]
pub enum Why {
    /// It went past the wanted marker.
    Passed,
    /// It does not stand where it is resumed, or, where it isn't the running task at the end, where
    /// it stands at the end.
    Moved,
    /// It faulted before it came to the wanted marker.
    Faulted(Cause),
    /// The control entry says that it faulted, and its instruction there does not.
    NoFault,
    /// It calls, and the window has no more data entries of it; it made `total` in the run.
    NoEntry {
        total: u64,
    },
    /// It calls a service, and its next data entry is of another one.
    OtherService {
        logged: u8,
        called: u8,
    },
    /// It stands where it stands at the end, and its data entries from number `used` on were not
    /// asked for; it made `total` in the run.
    Left {
        used: u64,
        total: u64,
    },
    /// An output that it made is not the one that the window has in that place.
    OtherOutput {
        logged: OutputEntry,
        made: OutputEntry,
    },
}

/// The first thing that a replay did not find as the window has it. Tasks are replayed in rising
/// number, each by its own control entries in rising order; the outputs are compared after that,
/// the oldest first.
#[derive(Clone, Copy, Debug, PartialEq, Eq)]
pub struct Diverged {
    /// The point, before the task has come to where it stands there; else the number of the control
    /// entry, counted from 1; and one more than all control entries at the end. Of an output, of the
    /// control entry or the end that it is printed under.
    pub seq: u64,
    pub task: u8,
    /// Where the task stands.
    pub reached: Marker,
    /// Where the window has it stand.
    pub wanted: Marker,
    pub why: Why,
}
