//! The fields of an executable's header.

ghost use Rattle.std.specs.Prelude.{◌≡◌, ◌+◌, ◌≤◌, length, OnOk};
ghost use Rattle.tm_elf.specs.Fields.{half_at, word_at, entry_of, header_count, header_place};
ghost use Rattle.tm_elf.specs.Elf.{first, unless, short_of, wrong_place, wrong_field, header_faults, HasHeaders};

use crate::ElfFault;
use byteorder::{ByteOrder, LittleEndian};

/// The bytes of the header.
const HEADER_BYTES: u64 = 52;

/// The bytes of a program header.
const PROGRAM_HEADER_BYTES: u64 = 32;

/// What every executable begins with.
const MAGIC: [u8; 4] = [0x7f, 0x45, 0x4c, 0x46];

#[tactic(auto, unfolding(crate::specs::Fields::half_at))]
fn half(bytes: &[u8], place: usize) -> u16
    requires { place + 2 ≤ length bytes.now }
    ensures { result ≡ half_at bytes.now place }
{
    LittleEndian::read_u16(&bytes[place..])
}

#[tactic(auto, unfolding(crate::specs::Fields::word_at))]
pub(crate) fn word(bytes: &[u8], place: usize) -> u32
    requires { place + 4 ≤ length bytes.now }
    ensures { result ≡ word_at bytes.now place }
{
    LittleEndian::read_u32(&bytes[place..])
}

/// The address of the first instruction.
pub(crate) fn entry(bytes: &[u8]) -> u32
    requires { 52 ≤ length bytes.now }
    ensures { result ≡ entry_of bytes.now }
{
    word(bytes, 24)
}

/// How many program headers there are.
pub(crate) fn header_count(bytes: &[u8]) -> u16
    requires { 52 ≤ length bytes.now }
    ensures { result ≡ header_count bytes.now }
{
    half(bytes, 44)
}

/// The place of the program header of this number.
pub(crate) fn header_place(bytes: &[u8], number: u16) -> u64
    requires { 52 ≤ length bytes.now }
    ensures { result ≡ header_place bytes.now number }
{
    u64::from(word(bytes, 28)) + PROGRAM_HEADER_BYTES * u64::from(number)
}

/// Tests that the file has so many bytes.
fn test_length(needed: u64, bytes: &[u8]) -> Result<(), ElfFault>
    ensures { result ≡ unless (short_of needed bytes.now) tt }
{
    let length = bytes.len() as u64;
    if length < needed {
        Err(ElfFault::Short { needed, length })
    } else {
        Ok(())
    }
}

/// The place of the first field that is wrong.
fn wrong_place(fields: &[(u8, bool)]) -> Option<u8>
    ensures { result ≡ wrong_place fields.now }
{
    let wrong = fields.iter().find(|(_, right)| !right);
    wrong.map(|(place, _)| *place)
}

/// Tests the fields that say what kind of file it is.
fn test_fields(bytes: &[u8]) -> Result<(), ElfFault>
    requires { 52 ≤ length bytes.now }
    ensures { result ≡ unless (wrong_field bytes.now) tt }
{
    let headers = header_count(bytes);
    let fields = [
        (0, bytes[..4] == MAGIC[..]),
        (4, bytes[4] == 1),
        (5, bytes[5] == 1),
        (6, bytes[6] == 1),
        (16, half(bytes, 16) == 2),
        (18, half(bytes, 18) == 243),
        (20, word(bytes, 20) == 1),
        (42, half(bytes, 42) == 32),
        (44, (1..=64).contains(&headers)),
    ];
    match wrong_place(&fields) {
        Some(place) => Err(ElfFault::Field { place }),
        None => Ok(()),
    }
}

/// Tests the header, and that it and the program headers are whole.
pub(crate) fn test_header(bytes: &[u8]) -> Result<(), ElfFault>
    ensures fault { result ≡ unless (first (header_faults bytes.now)) tt }
    ensures headers { OnOk result (HasHeaders bytes.now) }
{
    test_length(HEADER_BYTES, bytes)?;
    test_fields(bytes)?;
    test_length(header_place(bytes, header_count(bytes)), bytes)
}
