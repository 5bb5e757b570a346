//! The whole machine: every task of an image and the kernel, and what a run of it is.
//!
//! [`Machine`] is the state of a run at a moment. [`Machine::boot`] makes it of an image;
//! [`Machine::arrive`] does the arrival of a slice, and [`Machine::turn`] one instruction of the
//! running task. Each tells by [`Told`] what its moment adds to the lists that the run leaves.
//! [`Machine::slice`] is the way through a slice, for any [`Listener`] that hears what is told.
#![tactic(auto)]

mod diverged;
mod laws;
mod listening;
mod machine;
mod runs;
mod slicing;

pub use diverged::{Diverged, Why};
pub use laws::{examples, lists_gain_what_is_told, replay_examples, turns_add_up, walks_go_on};
pub use listening::Listener;
pub use machine::{Machine, Told};
pub use runs::scripts_are_runs;
