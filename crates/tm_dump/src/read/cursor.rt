//! The bytes of a dump that are not yet read, and the numbers that stand there.

ghost use Rattle.std.specs.Prelude.{◌≡◌, ◌+◌, ◌≤◌, ◌^◌, length, Ok, if◌then◌else◌, Err};
ghost use Rattle.tm_dump.specs.declared.fault.DumpFault.TheVariants.{Field};
ghost use Rattle.tm_dump.specs.Cursor.{byte_in, word_in, long_in, words_in, Gives};

use crate::DumpFault;
use crate::widths::{DIGEST_BYTES, LONG_BYTES, MAGIC_BYTES, WORD_BYTES};
use byteorder::{ByteOrder, LittleEndian};
use std::marker::Model;

/// The bytes up to the closing digest that are not yet read, and the place of the first of them.
#[derive(Drop)]
pub(crate) struct Cursor<'a> {
    place: u64,
    left: &'a [u8],
}

impl<'a> Model for Cursor<'a> {
    ghost use Rattle.std.specs.Prelude.{◌+◌, ◌≤◌, ◌^◌, length};
    ghost use Rattle.tm_dump.specs.Cursor.{Cursor};

    ghost Value = { Cursor };

    ghost view = { λ c. record { place = c.place; left = c.left.now } };

    ghost invariant = { λ c. c.place + length c.left.now ≤ 2 ^ 63 + 37 };
}

impl<'a> Cursor<'a> {
    /// The bytes from a place on.
    pub(crate) fn new(place: u64, left: &'a [u8]) -> Self
        requires { place ≤ MAGIC_BYTES + DIGEST_BYTES }
        ensures { result ≡ record { place = place; left = left.now } }
    {
        Cursor { place, left }
    }

    /// The place of the next byte.
    pub(crate) fn place(&self) -> u64
        ensures { result ≡ self.now.place }
    {
        self.place
    }

    /// How many bytes are left.
    pub(crate) fn left(&self) -> usize
        ensures { result ≡ length self.now.left }
    {
        self.left.len()
    }

    /// A number of one byte.
    pub(crate) fn byte(&mut self) -> Result<u8, DumpFault>
        ensures { Gives (λ byte. (byte, self.new)) result (byte_in self.old) }
    {
        let Some((bytes, rest)) = self.left.split_first_chunk::<1>() else {
            return Err(DumpFault::Field { place: self.place });
        };
        self.left = rest;
        self.place += 1;
        Ok(bytes[0])
    }

    /// A number below 2^32.
    #[tactic(auto, unfolding(crate::specs::Cursor::word_at))]
    pub(crate) fn word(&mut self) -> Result<u32, DumpFault>
        ensures { Gives (λ word. (word, self.new)) result (word_in self.old) }
    {
        let Some((bytes, rest)) = self.left.split_first_chunk::<4>() else {
            return Err(DumpFault::Field { place: self.place });
        };
        self.left = rest;
        self.place += WORD_BYTES;
        Ok(LittleEndian::read_u32(bytes))
    }

    /// A number below 2^64.
    #[tactic(auto, unfolding(crate::specs::Cursor::long_at))]
    pub(crate) fn long(&mut self) -> Result<u64, DumpFault>
        ensures { Gives (λ long. (long, self.new)) result (long_in self.old) }
    {
        let Some((bytes, rest)) = self.left.split_first_chunk::<8>() else {
            return Err(DumpFault::Field { place: self.place });
        };
        self.left = rest;
        self.place += LONG_BYTES;
        Ok(LittleEndian::read_u64(bytes))
    }

    /// As many words as there are in `words`.
    pub(crate) fn words(&mut self, words: &mut [u32]) -> Result<(), DumpFault>
        ensures { Gives (λ _. (words.new, self.new)) result (words_in (length words.old) self.old) }
    {
        for index in 0..words.len() {
            words[index] = self.word()?;
        }
        Ok(())
    }
}

/// What was read of the field at a place, where it keeps the field's rule.
pub(crate) fn ruled<T>(place: u64, value: T, keeps: bool) -> Result<T, DumpFault>
where
    T: Copy,
    ensures { result ≡ (if keeps then Ok value else Err (Field place)) }
{
    if keeps {
        Ok(value)
    } else {
        Err(DumpFault::Field { place })
    }
}
