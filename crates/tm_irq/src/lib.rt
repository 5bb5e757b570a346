//! The interrupt words: how devices raise lines and set ports beside the kernel, which takes them.
//!
//! A [`Bench`] has one [`KernelSeat`] and a [`DeviceSeat`] for each device, which a program hands to
//! its threads. The seats share five words, which change in single steps and never make a thread
//! wait. [`DeviceSeat::raise`] sets the bit of a line and [`KernelSeat::take`] takes all bits that
//! are set; [`DeviceSeat::set`] writes a port and [`KernelSeat::latch`] reads all four.
//! [`Bench::close`] brings the seats together and counts what became of every raise.
#![tactic(auto)]

mod audit;
mod bench;
mod device_seat;
mod kernel_seat;
mod laws;
mod rule;
mod tally;
mod views;

pub use audit::Audit;
pub use bench::Bench;
pub use device_seat::{DeviceSeat, Raised};
pub use kernel_seat::KernelSeat;
pub use laws::lines_balance;

#[cfg(test)]
mod tests;
