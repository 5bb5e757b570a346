//! A text whose words are decoded once, when they are added.

ghost use Rattle.std.specs.Prelude.{◌≡◌, ◌++◌, ◌<◌, [], length, map, slice_index, OnOk, OnErr};
ghost use Rattle.tm_rv.specs.Instr.{instr_of};
ghost use Rattle.tm_rv.specs.Code.{kept, HasRegisters, IsNeverNone, Text};

use crate::{Instr, Op, Set, decode};
use std::alloc::{AllocError, Global};
use std::marker::Model;

/// What stands for no instruction: an EBREAK with an immediate, which no word is decoded to.
const NONE: Instr = Instr {
    op: Op::Ebreak,
    rd: 0,
    rs1: 0,
    rs2: 0,
    imm: 1,
};

/// The words of a text, the set of instructions that it may have, and beside each word the instruction that
/// it is, so that a word which is executed often is decoded once. Contracts see a code as its words and its set.
#[derive(Debug, Drop)]
pub struct Code {
    words: Vec<u32>,
    instrs: Vec<Instr>,
    set: Set,
}

impl Model for Code {
    ghost use Rattle.std.specs.Prelude.{◌≡◌, map};
    ghost use Rattle.tm_rv.specs.Instr.{instr_of};
    ghost use Rattle.tm_rv.specs.Code.{kept, Text};

    ghost Value = { Text };

    ghost view = { λ code. record { words = code.words.items; set = code.set } };

    ghost invariant = { λ code. code.instrs.items ≡ map (λ word. kept (instr_of word code.set)) code.words.items };
}

impl Code {
    /// A text without words.
    pub fn new(alloc: Global, set: Set) -> Self
        ensures { result ≡ record { words = []; set = set } }
    {
        Code {
            words: Vec::new(alloc),
            instrs: Vec::new(alloc),
            set,
        }
    }

    /// Adds words at the end. On want of memory the text is as before.
    pub fn extend(&mut self, words: &[u32]) -> Result<(), AllocError>
        ensures ok { OnOk result (self.new ≡ record self.old { words = self.old.words ++ words.now }) }
        ensures err { OnErr result (self.new ≡ self.old) }
    {
        let before = self.instrs.len();
        add_decoded(&mut self.instrs, words, self.set)?;
        if let Err(error) = self.words.extend_from_slice(words) {
            self.instrs.truncate(before);
            return Err(error);
        }
        Ok(())
    }

    /// The words.
    #[inline]
    pub fn words(&self) -> &[u32]
        ensures { result.now ≡ self.now.words }
    {
        self.words.as_slice()
    }

    /// The set of instructions.
    pub fn set(&self) -> Set
        ensures { result ≡ self.now.set }
    {
        self.set
    }

    /// The words and their instructions, for a loop over many of them.
    #[inline]
    pub fn slices(&self) -> CodeSlices<'_>
        ensures { result ≡ self.now }
    {
        CodeSlices {
            words: self.words.as_slice(),
            instrs: self.instrs.as_slice(),
            set: self.set,
        }
    }
}

/// The words of a [`Code`] and their instructions as slices, which a loop keeps at hand: what it writes
/// elsewhere can't move them.
#[derive(Debug, Drop)]
pub struct CodeSlices<'a> {
    words: &'a [u32],
    instrs: &'a [Instr],
    set: Set,
}

impl<'a> Model for CodeSlices<'a> {
    ghost use Rattle.std.specs.Prelude.{◌≡◌, map};
    ghost use Rattle.tm_rv.specs.Instr.{instr_of};
    ghost use Rattle.tm_rv.specs.Code.{kept, Text};

    ghost Value = { Text };

    ghost view = { λ slices. record { words = slices.words.now; set = slices.set } };

    ghost invariant = { λ slices. slices.instrs.now ≡ map (λ word. kept (instr_of word slices.set)) slices.words.now };
}

impl<'a> CodeSlices<'a> {
    /// The words.
    #[inline]
    pub fn words(&self) -> &'a [u32]
        ensures { result.now ≡ self.now.words }
    {
        self.words
    }

    /// The instruction that the word at an index is. Where it is none: an EBREAK whose immediate is
    /// 1, which no word is decoded to.
    #[inline]
    pub fn at(&self, index: usize) -> &'a Instr
        requires { index < length self.now.words }
        ensures kept { result.now ≡ kept (instr_of (slice_index self.now.words index) self.now.set) }
        ensures registers { HasRegisters result.now }
        ensures told { IsNeverNone (instr_of (slice_index self.now.words index) self.now.set) }
    {
        let instrs = self.instrs;
        &instrs[index]
    }
}

/// Adds what the words are decoded to. On want of memory the list is as before.
fn add_decoded(instrs: &mut Vec<Instr>, words: &[u32], set: Set) -> Result<(), AllocError>
    ensures ok { OnOk result (instrs.new.items ≡ instrs.old.items ++ map (λ word. kept (instr_of word set)) words.now) }
    ensures err { OnErr result (instrs.new.items ≡ instrs.old.items) }
{
    let before = instrs.len();
    for word in words {
        if let Err(error) = instrs.push(decode_or_none(*word, set)) {
            instrs.truncate(before);
            return Err(error.into());
        }
    }
    Ok(())
}

/// The instruction that a word is, or what stands for none.
fn decode_or_none(word: u32, set: Set) -> Instr
    ensures { result ≡ kept (instr_of word set) }
{
    decode(word, set).unwrap_or(NONE)
}
