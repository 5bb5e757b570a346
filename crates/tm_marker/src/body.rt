//! All that a task's instructions can change.

ghost use Rattle.std.specs.Prelude.{◌≡◌, ◌<◌, length, replicate, slice_set, IfOk};

use crate::Items;
use std::alloc::{AllocError, Global};

/// How many registers a body keeps: x1 to x31. The register x0 always reads 0.
pub const REGISTERS: usize = 31;

/// The address of a task's first data word.
pub const DATA_START: u32 = 0x1000_0000;

/// A task's program counter, its registers x1 to x31, and its data words from [`DATA_START`] on.
#[derive(Debug, Drop)]
pub struct Body {
    pub pc: u32,
    pub regs: [u32; 31],
    pub words: Items<u32>,
}

impl Body {
    /// A body of so many data words in which all is 0.
    pub fn new(alloc: Global, words: u32) -> Result<Self, AllocError>
        ensures zero { IfOk result (λ body. body ≡ record { pc = 0; regs = replicate 31 0; words = replicate words 0 }) }
    {
        Ok(Body {
            pc: 0,
            regs: [0; REGISTERS],
            words: Items::from(vec![in alloc; 0; words as usize]?),
        })
    }

    /// Puts a value into the data word at an index below their number.
    pub fn set_word(&mut self, index: u32, value: u32)
        requires { index < length self.old.words }
        ensures { self.new ≡ record self.old { words = slice_set self.old.words index value } }
    {
        self.words.set(index as usize, value);
    }

    /// Becomes a copy of a body of as many data words, without taking memory.
    pub fn copy_from(&mut self, other: &Body)
        requires { length self.old.words ≡ length other.now.words }
        ensures { self.new ≡ other.now }
    {
        self.pc = other.pc;
        self.regs = other.regs;
        self.words.copy_from_slice(other.words.as_slice());
    }
}
