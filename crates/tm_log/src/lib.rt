//! The window: the bounded buffers of a recorder, and how the run stands at its last moment.
//!
//! [`Window`] takes all its memory when it is made. The recorder writes into it by one call for each
//! list that a run leaves, and each call says which list gains what; all else stays.
#![tactic(auto)]

mod tasks;
mod window;

pub use tm_check::{CheckRef, Checks};
pub use tm_marker::{Caps, NOBODY, Shape, Tail};
pub use tm_ring::Ring;
pub use window::Window;
