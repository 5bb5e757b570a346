//! A large run that a number makes on the image [`CELL`]: recorded, dumped, read again and replayed.
//!
//! [`make`] does all of it in memory and tells a summary of the run: how many control entries it has, from
//! which points it can be replayed, and how long its text from the least of them is.
#![tactic(auto)]

mod cell;
mod fault;
mod generator;
mod making;
mod recorded;
mod replayed;
mod summary;

pub use cell::CELL;
pub use fault::MakeFault;
pub use generator::SLICES;
pub use making::make;
