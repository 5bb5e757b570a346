//! Why a text file was not read.

ghost use Rattle.std.specs.Prelude.{◌≡◌};

use std::alloc::{AllocError, AllocFailed};

/// Why a text file gave no value. A line is tested for `Form`, `Number`, `Range`, `Repeated` and
/// `Limit` in this order.
#[derive(Clone, Copy, Debug, PartialEq, Eq)]
pub enum Reason {
    /// The keyword, a fixed word, the number of tokens, or a byte that no line may have.
    Form,
    /// The spelling of a number or of a word.
    Number,
    /// A number outside its range, or a task or place that there is not.
    Range,
    /// Something that was given before.
    Repeated,
    /// The file ends and something is still wanted: the line is the number of lines plus 1.
    Missing,
    /// More than there may be.
    Limit,
    /// There was too little memory for the value, or for the tokens of the line.
    Memory,
}

/// The first line that was refused, counted from 1, and why.
#[derive(Clone, Copy, Debug, PartialEq, Eq)]
pub struct Fault {
    pub line: u32,
    pub reason: Reason,
}

impl Fault {
    /// The fault of a line.
    pub fn on_line(line: u32, reason: Reason) -> Self
        ensures { result ≡ record { line = line; reason = reason } }
    {
        Fault { line, reason }
    }
}

impl From<AllocError> for Fault {
    ghost use Rattle.std.specs.Prelude.{◌≡◌};
    ghost use Rattle.tm_lines.specs.declared.fault.Reason.TheVariants.{Memory};

    ghost from_gives = { λ _ fault. fault.reason ≡ Memory };

    /// Too little memory for what the file as a whole needs: the fault is that of its first line.
    fn from(_error: AllocError) -> Self {
        Fault {
            line: 1,
            reason: Reason::Memory,
        }
    }
}

impl From<AllocError> for Reason {
    ghost use Rattle.std.specs.Prelude.{◌≡◌};
    ghost use Rattle.tm_lines.specs.declared.fault.Reason.TheVariants.{Memory};

    ghost from_gives = { λ _ reason. reason ≡ Memory };

    fn from(_error: AllocError) -> Self {
        Reason::Memory
    }
}

impl<T: Drop> From<AllocFailed<T>> for Reason {
    ghost use Rattle.std.specs.Prelude.{◌≡◌};
    ghost use Rattle.tm_lines.specs.declared.fault.Reason.TheVariants.{Memory};

    ghost from_gives = { λ _ reason. reason ≡ Memory };

    fn from(_failed: AllocFailed<T>) -> Self {
        Reason::Memory
    }
}
