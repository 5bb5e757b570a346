//! Bytes and numbers at the end of a vector that has room for them.

ghost use Rattle.std.specs.Prelude.{[], ◌∷◌, length};
ghost use Rattle.tm_dump.specs.Fields.{word_bytes, long_bytes};
ghost use Rattle.tm_dump.specs.Room.{HasRoom, Gains};

use crate::widths::{LONG_BYTES, WORD_BYTES};
use byteorder::{ByteOrder, LittleEndian};

pub(crate) fn put(bytes: &[u8], into: &mut Vec<u8>)
    requires room { HasRoom into.old (length bytes.now) }
    ensures { Gains into.old into.new bytes.now }
{
    match into.extend_from_slice(bytes) {
        Ok(()) => (),
        Err(_) => unreachable!(),
    }
}

pub(crate) fn put_byte(byte: u8, into: &mut Vec<u8>)
    requires room { HasRoom into.old 1 }
    ensures { Gains into.old into.new (byte ∷ []) }
{
    put(&[byte], into);
}

#[tactic(auto, unfolding(crate::specs::Fields::word_bytes))]
pub(crate) fn put_word(word: u32, into: &mut Vec<u8>)
    requires room { HasRoom into.old WORD_BYTES }
    ensures { Gains into.old into.new (word_bytes word) }
{
    let mut bytes = [0; 4];
    LittleEndian::write_u32(&mut bytes, word);
    put(&bytes, into);
}

#[tactic(auto, unfolding(crate::specs::Fields::long_bytes))]
pub(crate) fn put_long(long: u64, into: &mut Vec<u8>)
    requires room { HasRoom into.old LONG_BYTES }
    ensures { Gains into.old into.new (long_bytes long) }
{
    let mut bytes = [0; 8];
    LittleEndian::write_u64(&mut bytes, long);
    put(&bytes, into);
}
