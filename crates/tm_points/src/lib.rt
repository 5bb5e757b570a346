//! The finder: from which points of its run a window can be replayed.
//!
//! Point 0 is boot, and point P is the moment right after the P-th control entry. [`accepts`] tells
//! whether all that a replay from a point needs is still kept, or what is [`Lost`]; [`points`] lists the
//! points that it accepts.
#![tactic(auto)]

mod accepted;
mod epochs;
mod finder;
mod laws;
mod list;

pub use accepted::points;
pub use finder::{Lost, accepts, marker_at};
pub use laws::{accepted_points_are_replayable, markers_stand_in_entries, the_least_task_is_told};
pub use list::Points;
