//! What a window tells of the run that left it. Each function here does nothing: its clauses are the laws.
//!
//! [`finder_is_right`] says from which points a run can be replayed out of its window, and
//! [`replays_are_faithful`] that a replay from there tells what the run did.
#![tactic(auto)]

mod fidelity;
mod finding;
mod making;

pub use fidelity::{replays_are_faithful, replays_end_live};
pub use finding::{finder_is_right, markers_are_of_points};
pub use making::outputs_agree;
