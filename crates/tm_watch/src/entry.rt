//! What is published: a slice, with the list that it goes on.

ghost use Rattle.std.specs.Prelude.{◌<◌, ◌≤◌};

use crate::history::Front;
use tm_marker::Slice;

/// A slice, and the list that it is the last slice of.
#[derive(Drop)]
pub(crate) struct Entry {
    pub(crate) slice: Slice,
    pub(crate) front: Front,
    ghost short: { slice.length ≤ 1048576 },
    ghost lines: { slice.mask < 65536 },
}
