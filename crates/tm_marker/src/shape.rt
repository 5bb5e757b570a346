//! How large the buffers of a recorder are.

ghost use Rattle.std.specs.Prelude.{◌≡◌, IfOk};

use crate::Items;
use std::alloc::{AllocError, Global};

/// How many tasks an image has at most.
pub const MOST_TASKS: u32 = 16;

/// How many words a task's text and its data have at most.
pub const MOST_WORDS: u32 = 16_384;

/// How many items a ring keeps at most.
pub const MOST_ITEMS: u32 = 65_536;

/// How many checkpoints are kept for each task at most.
pub const MOST_CHECKPOINTS: u32 = 64;

/// How many items the rings keep: of control entries, of data entries for each task, of outputs, and of
/// checkpoints for each task.
#[derive(Clone, Copy, Debug, PartialEq, Eq)]
pub struct Caps {
    /// 1 to [`MOST_ITEMS`].
    pub control: u32,
    /// 1 to [`MOST_ITEMS`].
    pub logs: u32,
    /// 1 to [`MOST_ITEMS`].
    pub outputs: u32,
    /// 1 to [`MOST_CHECKPOINTS`].
    pub checks: u32,
}

impl Caps {
    /// What an image has that names no capacity.
    pub const DEFAULT: Caps = Caps {
        control: 256,
        logs: 256,
        outputs: 256,
        checks: 4,
    };
}

/// What an image says of the buffers of its runs: its digest (SHA-256 of the file's bytes), the
/// capacities, and how many data words each task has.
#[derive(Debug, Drop)]
pub struct Shape {
    pub image: [u8; 32],
    pub caps: Caps,
    pub words: Items<u32>,
}

impl Shape {
    /// A copy of the shape.
    pub fn copied(&self, alloc: Global) -> Result<Shape, AllocError>
        ensures { IfOk result (λ copy. copy ≡ self.now) }
    {
        Ok(Shape {
            image: self.image,
            caps: self.caps,
            words: Items::from(Vec::from_slice(alloc, self.words.as_slice())?),
        })
    }
}
