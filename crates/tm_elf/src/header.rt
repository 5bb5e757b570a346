//! The program headers of an executable.

ghost use Rattle.std.specs.Prelude.{◌≡◌, ◌+◌, ◌*◌, ◌≤◌, find, length};
ghost use Rattle.std.specs.List.{list_any};
ghost use Rattle.tm_marker.specs.declared.shape.TheConstants.{MOST_WORDS};
ghost use Rattle.tm_elf.specs.Fields.{header_at};
ghost use Rattle.tm_elf.specs.Loads.{is_load, end_of, is_past_file, has_more_in_file, is_within, covers, overlaps, reach, greatest_reach, load_byte};

use crate::fields::word;
use tm_marker::MOST_WORDS;

/// The address of a task's first instruction word.
pub const TEXT_START: u32 = 0;

/// How many bytes a window of a task's memory has.
const WINDOW_BYTES: u64 = 4 * MOST_WORDS as u64;

/// A program header, without its fields that nothing here depends on.
#[derive(Clone, Copy, Debug, Default, PartialEq, Eq)]
pub(crate) struct ProgramHeader {
    pub kind: u32,
    offset: u32,
    address: u32,
    file_size: u32,
    memory_size: u32,
}

impl ProgramHeader {
    /// The program header at a place.
    pub(crate) fn at(bytes: &[u8], place: usize) -> Self
        requires { place + 32 ≤ length bytes.now }
        ensures { result ≡ header_at bytes.now place }
    {
        ProgramHeader {
            kind: word(bytes, place),
            offset: word(bytes, place + 4),
            address: word(bytes, place + 8),
            file_size: word(bytes, place + 16),
            memory_size: word(bytes, place + 20),
        }
    }

    /// Whether it is one of something to load.
    pub(crate) fn is_load(&self) -> bool
        ensures { result ≡ is_load self.now }
    {
        self.kind == 1 && self.memory_size != 0
    }

    /// The address behind the last byte.
    fn end(&self) -> u64
        ensures { result ≡ end_of self.now }
    {
        u64::from(self.address) + u64::from(self.memory_size)
    }

    /// Whether the file, which has these bytes, ends before the load's bytes in it.
    pub(crate) fn is_past_file(&self, bytes: &[u8]) -> bool
        ensures { result ≡ is_past_file bytes.now self.now }
    {
        self.file_size != 0
            && (bytes.len() as u64) < u64::from(self.offset) + u64::from(self.file_size)
    }

    /// Whether there are more bytes in the file than in memory.
    pub(crate) fn has_more_in_file(&self) -> bool
        ensures { result ≡ has_more_in_file self.now }
    {
        self.memory_size < self.file_size
    }

    /// Whether all bytes are in the window from an address on.
    pub(crate) fn is_within(&self, start: u32) -> bool
        ensures { result ≡ is_within start self.now }
    {
        start <= self.address && self.end() <= u64::from(start) + WINDOW_BYTES
    }

    /// Whether the byte at an address is one of the load.
    pub(crate) fn covers(&self, address: u32) -> bool
        ensures { result ≡ covers address self.now }
    {
        self.address <= address && u64::from(address) < self.end()
    }

    /// Whether some byte is one of both.
    pub(crate) fn overlaps(&self, other: &ProgramHeader) -> bool
        ensures { result ≡ overlaps self.now other.now }
    {
        u64::from(self.address) < other.end() && u64::from(other.address) < self.end()
    }

    /// How many bytes of the window from an address on reach up to the load's end, and 0 where it is in
    /// another window.
    pub(crate) fn reach(&self, start: u32) -> u32
        ensures value { result ≡ reach start self.now }
        ensures few { result ≤ 4 * MOST_WORDS }
    {
        if self.is_within(start) {
            (self.end() - u64::from(start)) as u32
        } else {
            0
        }
    }

    /// The byte at an address that the load covers: the file's bytes come first, and then zeros.
    pub(crate) fn byte(&self, bytes: &[u8], address: u32) -> u8
        requires { self.now.address ≤ address }
        ensures { result ≡ load_byte bytes.now address self.now }
    {
        let index = address - self.address;
        if index < self.file_size {
            let place = self.offset as usize + index as usize;
            bytes.get(place).copied().unwrap_or(0)
        } else {
            0
        }
    }
}

/// Whether some load is within the window from an address on.
pub(crate) fn has_within(start: u32, loads: &[ProgramHeader]) -> bool
    ensures { result ≡ list_any (is_within start) loads.now }
{
    loads.iter().any(|load| load.is_within(start))
}

/// Whether a load overlaps some other.
pub(crate) fn overlaps_any(load: &ProgramHeader, others: &[ProgramHeader]) -> bool
    ensures { result ≡ list_any (overlaps load.now) others.now }
{
    others.iter().any(|other| load.overlaps(other))
}

/// The load that covers the byte at an address.
pub(crate) fn covering(address: u32, loads: &[ProgramHeader]) -> Option<ProgramHeader>
    ensures { result ≡ find (covers address) loads.now }
{
    loads.iter().find(|load| load.covers(address)).copied()
}

/// How many bytes of the window from an address on reach up to the greatest end of a load in it.
pub(crate) fn greatest_reach(start: u32, loads: &[ProgramHeader]) -> u32
    ensures value { result ≡ greatest_reach start loads.now }
    ensures few { result ≤ 4 * MOST_WORDS }
{
    let reaches = loads.iter().map(|load| load.reach(start));
    reaches.max().unwrap_or(0)
}
