//! Reading an executable.

ghost use Rattle.std.specs.Prelude.{◌≡◌, ◌≤◌, ◌<◌, length, IfOk};
ghost use Rattle.tm_marker.specs.declared.shape.TheConstants.{MOST_WORDS};
ghost use Rattle.tm_image.specs.Image.{IsLoad};
ghost use Rattle.tm_elf.specs.Faults.{Gives};
ghost use Rattle.tm_elf.specs.Elf.{first, unless, HasHeaders, text_faults, memory_of, elf_of};

use crate::ElfFault;
use crate::fields::{entry, test_header};
use crate::header::{ProgramHeader, TEXT_START, has_within};
use crate::loads::read_loads;
use crate::memory::{data, text, words_up_to};
use std::alloc::{AllocError, Global};
use tm_image::Loaded;
use tm_marker::{DATA_START, MOST_WORDS};
use tm_rv::Set;

/// Tests that there is a text, and that the entry is the address of a word of it.
fn test_text(bytes: &[u8], loads: &[ProgramHeader]) -> Result<(), ElfFault>
    requires { HasHeaders bytes.now }
    ensures { result ≡ unless (first (text_faults bytes.now loads.now)) tt }
{
    if !has_within(TEXT_START, loads) {
        return Err(ElfFault::NoText);
    }
    let value = entry(bytes);
    if value % 4 != 0 || value >= 4 * words_up_to(TEXT_START, loads) {
        return Err(ElfFault::Entry { value });
    }
    Ok(())
}

/// The text and the data that the loads make.
#[tactic(auto, using(crate::proofs::Sound::length_words))]
fn loaded(
    alloc: Global,
    bytes: &[u8],
    loads: &[ProgramHeader],
    least: u32,
    set: Set,
) -> Result<Loaded, AllocError>
    requires headers { HasHeaders bytes.now }
    requires few { least ≤ MOST_WORDS }
    ensures { IfOk result (λ loaded. loaded ≡ memory_of bytes.now loads.now least set) }
{
    let text = text(alloc, bytes, loads, words_up_to(TEXT_START, loads), set)?;
    let words = least.max(words_up_to(DATA_START, loads));
    let words = data(alloc, bytes, loads, words)?;
    Ok(Loaded::of(entry(bytes), text, words))
}

/// Reads a statically linked ELF32 executable for RISC-V into what a task is loaded from: its text is
/// what lies from address 0 on, and its data what lies from [`DATA_START`] on. Both reach up to the end of
/// the last load there, and the data has `least` words, 1 to 16,384, or more. What no load covers is 0.
/// The text may have the instructions of `set`.
///
/// # Errors
///
/// The first that is wrong, in the order of [`ElfFault`]; `Memory` where there is too little memory for the
/// text and the data.
#[tactic(auto, unfolding(crate::specs::Elf::elf_of))]
pub fn read_elf(alloc: Global, bytes: &[u8], least: u32, set: Set) -> Result<Loaded, ElfFault>
    requires some { 0 < least }
    requires few { least ≤ MOST_WORDS }
    ensures read { Gives (λ loaded. loaded) result (elf_of bytes.now least set) }
    ensures sound { IfOk result IsLoad }
    ensures set { IfOk result (λ loaded. loaded.set ≡ set) }
{
    test_header(bytes)?;
    let loads = read_loads(bytes)?;
    test_text(bytes, loads.as_slice())?;
    Ok(loaded(alloc, bytes, loads.as_slice(), least, set)?)
}
