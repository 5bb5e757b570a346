//! Why no summary was made.

ghost use Rattle.std.specs.Prelude.{◌≡◌};

use std::alloc::AllocError;
use tm_image::{ImageFault, Reason};

/// Why no summary was made.
#[derive(Clone, Copy, Debug, PartialEq, Eq)]
pub enum MakeFault {
    /// The text of the image is refused.
    Image(ImageFault),
    /// There was too little memory for the run, its dump, or its replay.
    Memory,
}

impl From<ImageFault> for MakeFault {
    ghost use Rattle.std.specs.Prelude.{◌≡◌};
    ghost use Rattle.tm_make.specs.Making.{make_fault};

    ghost from_gives = { λ image fault. fault ≡ make_fault image image.reason };

    fn from(fault: ImageFault) -> Self {
        match fault.reason {
            Reason::Memory => MakeFault::Memory,
            _ => MakeFault::Image(fault),
        }
    }
}

impl From<AllocError> for MakeFault {
    ghost use Rattle.std.specs.Prelude.{◌≡◌};
    ghost use Rattle.tm_make.specs.declared.fault.MakeFault.TheVariants.{Memory};

    ghost from_gives = { λ _ fault. fault ≡ Memory };

    fn from(_error: AllocError) -> Self {
        MakeFault::Memory
    }
}
