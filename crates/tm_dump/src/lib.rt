//! The dump: a window as bytes, with one spelling for each window.
//!
//! [`write_dump`] appends the dump of a window. Numbers have their lowest byte first, the lists stand one
//! after the other with their totals, and the digest of all bytes before it closes the dump.
//! [`read_dump`] gives the window back where the bytes are the dump of a window of the image that a run
//! could have left, and else the first [`DumpFault`].
#![tactic(auto)]

mod body;
mod checkpoints;
mod fault;
mod fields;
mod laws;
mod length;
mod numbers;
mod read;
mod rings;
pub mod widths;
mod write;

pub use fault::DumpFault;
pub use laws::{dumps_are_bounded, dumps_are_read, reads_are_dumps, widths_are};
pub use read::read_dump;
pub use write::write_dump;
