//! What the rings keep, and what a script is made of.

use crate::Marker;

/// How many instructions follow the arrival of a slice at most.
pub const LONGEST_SLICE: u32 = 1_048_576;

/// How many interrupt lines there are.
pub const LINES: usize = 16;

/// How many input ports there are, and how many output ports.
pub const PORTS: usize = 4;

/// Why control went from one task to the next.
#[derive(Clone, Copy, Debug, PartialEq, Eq, Hash)]
pub enum Kind {
    /// A task of greater priority took the processor.
    Preempted,
    /// The task waits for an event.
    Waits,
    /// The task terminated, or chained a task.
    Ends,
    /// The task's instruction could not be executed.
    Fault,
    /// The task shut the system down.
    Shutdown,
    /// Nobody ran before.
    Idle,
}

/// One control entry: who ran, why that ended, and who runs next, each with its marker right
/// after the cause. [`crate::NOBODY`] with the zero marker stands for nobody.
#[derive(Clone, Copy, Debug, PartialEq, Eq)]
pub struct Switch {
    pub from: u8,
    pub kind: Kind,
    pub from_at: Marker,
    pub to: u8,
    pub to_at: Marker,
}

/// What a service call answered: the number of the service ([`crate::Service::number`], or one that no
/// service has), its status, and four words.
#[derive(Clone, Copy, Debug, PartialEq, Eq)]
pub struct DataEntry {
    pub service: u8,
    pub status: u32,
    pub words: [u32; 4],
}

/// A value that a task wrote to an output port, of which there are [`PORTS`].
#[derive(Clone, Copy, Debug, PartialEq, Eq)]
pub struct OutputEntry {
    pub task: u8,
    pub port: u8,
    pub value: u32,
}

/// One slice of a script: the lines that arrive first, as bits of a mask, with the input ports'
/// words, and how many instructions follow at most; at most [`LONGEST_SLICE`].
#[derive(Clone, Copy, Debug, PartialEq, Eq)]
pub struct Slice {
    pub length: u32,
    pub mask: u32,
    pub ports: [u32; 4],
}
