//! Why a dump was not read.

ghost use Rattle.std.specs.Prelude.{◌≡◌};

use std::alloc::{AllocError, AllocFailed};
use thiserror::Error;

/// Why bytes were not read as a dump of the image. The cases but the last are tested in this order;
/// `Memory` tells nothing of the bytes.
#[derive(Clone, Copy, Debug, PartialEq, Eq, Error)]
pub enum DumpFault {
    /// There are too few bytes, or they do not begin with the magic number.
    #[error("not a dump")]
    Magic,
    /// The version is another.
    #[error("a dump of version {0}")]
    Version(u8),
    /// The closing digest is not that of the bytes before it.
    #[error("the closing digest is not that of the bytes before it")]
    Digest { found: [u8; 32], computed: [u8; 32] },
    /// The dump is of another image.
    #[error("a dump of another image")]
    OtherImage { found: [u8; 32], wanted: [u8; 32] },
    /// The first field that breaks its rule, or does not fit before the closing digest, begins at this
    /// place.
    #[error("the field at byte {place} is wrong")]
    Field { place: u64 },
    /// Bytes stand between the last field and the closing digest, from this place on.
    #[error("more bytes than a dump has, from byte {place} on")]
    Extra { place: u64 },
    /// There was too little memory for the window.
    #[error("out of memory")]
    Memory,
}

impl From<AllocError> for DumpFault {
    ghost use Rattle.std.specs.Prelude.{◌≡◌};
    ghost use Rattle.tm_dump.specs.declared.fault.DumpFault.TheVariants.{Memory};

    ghost from_gives = { λ _ fault. fault ≡ Memory };

    fn from(_error: AllocError) -> Self {
        DumpFault::Memory
    }
}

impl<T: Drop> From<AllocFailed<T>> for DumpFault {
    ghost use Rattle.std.specs.Prelude.{◌≡◌};
    ghost use Rattle.tm_dump.specs.declared.fault.DumpFault.TheVariants.{Memory};

    ghost from_gives = { λ _ fault. fault ≡ Memory };

    fn from(_failed: AllocFailed<T>) -> Self {
        DumpFault::Memory
    }
}
