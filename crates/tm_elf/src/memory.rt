//! What the loads of an executable put into a task's memory.

ghost use Rattle.std.specs.Prelude.{◌≡◌, ◌+◌, ◌*◌, ◌≤◌, ◌<◌, ◌^◌, length, IfOk};
ghost use Rattle.tm_marker.specs.declared.shape.TheConstants.{MOST_WORDS};
ghost use Rattle.tm_elf.specs.declared.header.TheConstants.{TEXT_START};
ghost use Rattle.tm_elf.specs.Loads.{words_up_to, byte_at, loaded_word, loaded_words};

use crate::header::{ProgramHeader, TEXT_START, covering, greatest_reach};
use byteorder::{ByteOrder, LittleEndian};
use std::alloc::{AllocError, Global};
use tm_marker::{DATA_START, MOST_WORDS};
use tm_rv::{Code, Set};

/// How many words of the window from an address on reach up to the greatest end of a load in it.
pub(crate) fn words_up_to(start: u32, loads: &[ProgramHeader]) -> u32
    ensures value { result ≡ words_up_to start loads.now }
    ensures few { result ≤ MOST_WORDS }
{
    greatest_reach(start, loads).div_ceil(4)
}

/// The byte at an address: that of the load that covers it, or 0.
fn byte_at(bytes: &[u8], loads: &[ProgramHeader], address: u32) -> u8
    ensures { result ≡ byte_at bytes.now loads.now address }
{
    match covering(address, loads) {
        Some(load) => load.byte(bytes, address),
        None => 0,
    }
}

/// The word at an address.
fn word_at(bytes: &[u8], loads: &[ProgramHeader], address: u32) -> u32
    requires { address + 3 < 2 ^ 32 }
    ensures { result ≡ loaded_word bytes.now loads.now address }
{
    LittleEndian::read_u32(&[
        byte_at(bytes, loads, address),
        byte_at(bytes, loads, address + 1),
        byte_at(bytes, loads, address + 2),
        byte_at(bytes, loads, address + 3),
    ])
}

/// So many data words.
#[tactic(auto, using(crate::proofs::Steps::words_more))]
pub(crate) fn data(
    alloc: Global,
    bytes: &[u8],
    loads: &[ProgramHeader],
    count: u32,
) -> Result<Vec<u32>, AllocError>
    requires { count ≤ MOST_WORDS }
    ensures { IfOk result (λ words. words.items ≡ loaded_words bytes.now loads.now DATA_START count) }
{
    let mut words = Vec::with_capacity(alloc, count as usize)?;
    for index in 0..count {
        words.push(word_at(bytes, loads, DATA_START + 4 * index))?;
    }
    Ok(words)
}

/// So many words of text, with this set of instructions.
#[tactic(auto, using(crate::proofs::Steps::words_more))]
pub(crate) fn text(
    alloc: Global,
    bytes: &[u8],
    loads: &[ProgramHeader],
    count: u32,
    set: Set,
) -> Result<Code, AllocError>
    requires { count ≤ MOST_WORDS }
    ensures { IfOk result (λ text. text ≡ record { words = loaded_words bytes.now loads.now TEXT_START count; set = set }) }
{
    let mut text = Code::new(alloc, set);
    for index in 0..count {
        text.extend(&[word_at(bytes, loads, TEXT_START + 4 * index)])?;
    }
    Ok(text)
}
