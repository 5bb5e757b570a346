//! Why an executable was not read.

ghost use Rattle.std.specs.Prelude.{◌≡◌};
ghost use Rattle.tm_elf.specs.Faults.{why_number};

use std::alloc::{AllocError, AllocFailed};
use thiserror::Error;

/// Why a load is refused. The cases are tested in this order.
#[derive(Clone, Copy, Debug, PartialEq, Eq)]
pub enum Why {
    /// Some of its bytes in the file are past the file's end.
    PastFile,
    /// It has more bytes in the file than in memory.
    MoreInFile,
    /// It is not wholly in the text's window, nor in that of the data.
    Outside,
    /// A load before it has a byte at the same address.
    Overlap,
}

impl Why {
    /// The number that stands for the reason: 1 to 4, in the order of the cases.
    pub fn number(self) -> u8
        ensures { result ≡ why_number self }
    {
        match self {
            Why::PastFile => 1,
            Why::MoreInFile => 2,
            Why::Outside => 3,
            Why::Overlap => 4,
        }
    }
}

/// Why bytes were not read as an executable for a task. The cases but the last are tested in this order,
/// except that the header itself has to be whole before a `Field` of it is tested; `Memory` tells nothing
/// of the bytes.
#[derive(Clone, Copy, Debug, PartialEq, Eq, Error)]
pub enum ElfFault {
    /// The file, of this length in bytes, ends before the header's 52 bytes, or before the end of the
    /// program headers.
    #[error("the file has {length} bytes, and {needed} are needed")]
    Short { needed: u64, length: u64 },
    /// The field of the header at this place is not that of a 32-bit little-endian RISC-V executable with
    /// 1 to 64 program headers.
    #[error("the field at byte {place} is wrong")]
    Field { place: u8 },
    /// The load with this number among the program headers is refused.
    #[error("segment {index} is refused: {why:?}")]
    Segment { index: u16, why: Why },
    /// No load is in the text's window.
    #[error("there is no text")]
    NoText,
    /// The entry is no multiple of 4, or not inside the text.
    #[error("the entry {value:08x} is no instruction of the text")]
    Entry { value: u32 },
    /// There was too little memory for the text and the data.
    #[error("out of memory")]
    Memory,
}

impl From<AllocError> for ElfFault {
    ghost use Rattle.std.specs.Prelude.{◌≡◌};
    ghost use Rattle.tm_elf.specs.declared.fault.ElfFault.TheVariants.{Memory};

    ghost from_gives = { λ _ fault. fault ≡ Memory };

    fn from(_error: AllocError) -> Self {
        ElfFault::Memory
    }
}

impl<T: Drop> From<AllocFailed<T>> for ElfFault {
    ghost use Rattle.std.specs.Prelude.{◌≡◌};
    ghost use Rattle.tm_elf.specs.declared.fault.ElfFault.TheVariants.{Memory};

    ghost from_gives = { λ _ fault. fault ≡ Memory };

    fn from(_failed: AllocFailed<T>) -> Self {
        ElfFault::Memory
    }
}
