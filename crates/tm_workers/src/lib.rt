//! A replay by several workers, whose answer is that of one.
//!
//! [`replay_with`] cuts the list of tasks in halves and the workers with it, and replays one half beside the
//! other, until a worker is alone with some tasks, which it replays one after another. The tracks are put
//! together in the order of the tasks, and the outputs are held against those of the window only then, so no
//! answer tells how many workers there were.
#![tactic(auto)]

mod share;
mod tracks;
mod workers;

pub use workers::replay_with;
