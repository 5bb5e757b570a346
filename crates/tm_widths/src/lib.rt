//! The dump of every run is read back, since each number of a run has the width that a dump gives it, and it
//! is short. Each function here does nothing: its clauses are the laws.
#![tactic(auto)]

mod legible;

pub use legible::{dumps_of_runs_are_read, dumps_of_runs_are_short, dumps_tell_runs, images_fit};
