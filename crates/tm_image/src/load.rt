//! What one task is loaded from.

ghost use Rattle.std.specs.Prelude.{◌≡◌, ◌<◌, ◌≤◌, ◌^◌, [], length, replicate, Option, Some, IfOk};
ghost use Rattle.tm_marker.specs.declared.shape.TheConstants.{MOST_WORDS};
ghost use Rattle.tm_lines.specs.Steps.{Answers};
ghost use Rattle.tm_image.specs.Load.{Load, has_no_text, is_outside, more_text, with_text, new_data, with_data};

use crate::said::{DataLine, TextLine};
use std::alloc::{AllocError, Global};
use std::marker::Model;
use tm_lines::Reason;
use tm_marker::{Items, MOST_WORDS};
use tm_rv::{Code, Set};

/// What a task is loaded from: its entry, in bytes, its text, and its data words at boot, each of at most
/// [`MOST_WORDS`] words.
#[derive(Debug, Drop)]
pub struct Loaded {
    entry: u32,
    text: Code,
    words: Vec<u32>,
}

impl Model for Loaded {
    ghost use Rattle.std.specs.Prelude.{◌≤◌, ◌<◌, ◌^◌, length};
    ghost use Rattle.tm_marker.specs.declared.shape.TheConstants.{MOST_WORDS};
    ghost use Rattle.tm_image.specs.Load.{Load};

    ghost Value = { Load };

    ghost view = { λ l. record { entry = l.entry; text = l.text.words; set = l.text.set; words = l.words.items } };

    ghost invariant = { λ l. (length l.text.words ≤ MOST_WORDS) × (length l.words.items < 2 ^ 32) };
}

impl Loaded {
    /// A task of this entry, text and data words. It takes no memory.
    pub fn of(entry: u32, text: Code, words: Vec<u32>) -> Self
        requires short { length text.words ≤ MOST_WORDS }
        requires few { length words.items ≤ MOST_WORDS }
        ensures { result ≡ record { entry = entry; text = text.words; set = text.set; words = words.items } }
    {
        Loaded { entry, text, words }
    }

    /// A copy.
    pub(crate) fn copy(&self, alloc: Global) -> Result<Self, AllocError>
        ensures { IfOk result (λ copy. copy ≡ self.now) }
    {
        let mut text = Code::new(alloc, self.text.set());
        text.extend(self.text.words())?;
        Ok(Loaded {
            entry: self.entry,
            text,
            words: Vec::from_slice(alloc, self.words.as_slice())?,
        })
    }

    /// A task without text, whose data words are 0.
    pub(crate) fn new(alloc: Global, entry: u32, set: Set, words: u32) -> Result<Self, AllocError>
        ensures { IfOk result (λ load. load ≡ record { entry = entry; text = []; set = set; words = replicate words 0 }) }
    {
        let words = vec![in alloc; 0; words as usize]?;
        Ok(Loaded {
            entry,
            text: Code::new(alloc, set),
            words,
        })
    }

    pub(crate) fn entry(&self) -> u32
        ensures { result ≡ self.now.entry }
    {
        self.entry
    }

    pub(crate) fn text(&self) -> &Code
        ensures { result.now ≡ record { words = self.now.text; set = self.now.set } }
    {
        &self.text
    }

    pub(crate) fn words(&self) -> &[u32]
        ensures value { result.now ≡ self.now.words }
        ensures few { length self.now.words < 2 ^ 32 }
    {
        self.words.as_slice()
    }

    /// Whether the task has no text.
    pub(crate) fn has_no_text(&self) -> bool
        ensures { result ≡ has_no_text self.now }
    {
        self.text.words().is_empty()
    }

    /// Whether the entry is no address in the text.
    pub(crate) fn is_outside(&self) -> bool
        ensures { result ≡ is_outside self.now }
    {
        self.entry as usize >= 4 * self.text.words().len()
    }

    fn add_text(&mut self, words: &[u32]) -> Result<(), Reason>
        ensures { Answers (λ _. self.new) result (more_text words.now (Some self.old)) }
    {
        if self.text.words().len() + words.len() > MOST_WORDS as usize {
            return Err(Reason::Limit);
        }
        self.text.extend(words)?;
        Ok(())
    }

    fn set_data(&mut self, offset: u32, words: &[u32]) -> Result<(), Reason>
        ensures { Answers (λ _. self.new) result (new_data offset words.now (Some self.old)) }
    {
        let offset = offset as usize;
        if offset + words.len() > self.words.len() {
            return Err(Reason::Range);
        }
        self.words[offset..offset + words.len()].copy_from_slice(words);
        Ok(())
    }
}

/// Gives the task that a line `text` names more words of text.
pub(crate) fn add_text(loads: &mut [Loaded], line: &TextLine) -> Result<(), Reason>
    ensures { Answers (λ _. loads.new) result (with_text loads.old line.now) }
{
    let number = line.number as usize;
    if number >= loads.len() {
        return Err(Reason::Range);
    }
    let load = &mut loads[number];
    load.add_text(line.words.as_slice())
}

/// Sets data words of the task that a line `data` names.
pub(crate) fn set_data(loads: &mut [Loaded], line: &DataLine) -> Result<(), Reason>
    ensures { Answers (λ _. loads.new) result (with_data loads.old line.now) }
{
    let number = line.number as usize;
    if number >= loads.len() {
        return Err(Reason::Range);
    }
    let load = &mut loads[number];
    load.set_data(line.offset, line.words.as_slice())
}
