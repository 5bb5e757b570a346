//! A recorder driven by the interrupt words beside device threads.
//!
//! [`drive`] lets the devices of a plant raise lines and set ports, each in a thread of its own, while
//! the kernel's part takes the lines slice by slice and gives the slices to a recorder and to a
//! [`Tape`]. Its two parts stand alone too: [`take_slice`] takes one slice, and [`play_all`] is the devices' part.
#![tactic(auto)]

mod devices;
mod driving;
mod kernel;
mod tape;

pub use devices::play_all;
pub use driving::drive;
pub use kernel::take_slice;
pub use tape::Tape;

#[cfg(test)]
mod tests;
