//! Tasks from executables.
#![tactic(auto)]

mod fault;
mod fields;
mod header;
mod laws;
mod loads;
mod memory;
mod read;

pub use fault::{ElfFault, Why};
pub use laws::loads_are_apart;
pub use read::read_elf;
