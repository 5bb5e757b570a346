//! The recorder: a machine of an image and the window of its run, slice by slice.
//!
//! [`Recorder::slice`] does one slice of a script; it cannot be refused and takes no memory. A recorder
//! always stands for a script of as many slices as [`Recorder::slices`] tells: its machine is where the
//! run of that script has led, and its window holds the last items of the lists that the run left.
#![tactic(auto)]

mod closing;
mod laws;
mod noting;
mod recorder;
mod recording;

pub use laws::{recorders_are_consistent, windows_are_of_runs};
pub use recorder::Recorder;
