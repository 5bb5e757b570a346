//! What one instruction of a task came to.

ghost use Rattle.std.specs.Prelude.{◌≡◌};
ghost use Rattle.tm_task.specs.Cause.{cause_number};

/// Why an instruction can't be executed. Where several hold, the cause is the first in the order
/// Fetch, Illegal, Break, Target, Unaligned, Range, TextWrite.
#[derive(Clone, Copy, Debug, PartialEq, Eq, Hash)]
pub enum Cause {
    /// The program counter is past the text.
    Fetch = 1,
    /// The word is no instruction.
    Illegal = 2,
    /// A jump or a taken branch goes to an address that is no multiple of 4.
    Target = 3,
    /// The address of a halfword is odd, or that of a word no multiple of 4.
    Unaligned = 4,
    /// The address is neither in the text nor in the data.
    Range = 5,
    /// A store goes to the text.
    TextWrite = 6,
    /// The instruction is EBREAK.
    Break = 7,
}

impl Cause {
    /// The number of the cause, 1 to 7.
    pub fn number(self) -> u8
        ensures { result ≡ cause_number self }
    {
        self as u8
    }
}

/// What a step of a task did.
#[derive(Clone, Copy, Debug, PartialEq, Eq, Hash)]
pub enum Stepped {
    /// The instruction was executed.
    Ran,
    /// The instruction was executed, and began a new epoch.
    Forced,
    /// The instruction calls the service of this number; the task is as before.
    Call(u8),
    /// The instruction can't be executed; the task is as before.
    Fault(Cause),
}
