//! The replayer: what the tasks of an image did, from a window of their run alone.
//!
//! Each task is replayed by itself. It starts from its checkpoint, its calls are answered by its kept
//! data entries, and the control entries say where it left the processor and where it went on.
//! [`replay_task`] replays one task and [`replay`] all of them, whose outputs it then holds against those
//! of the window; [`tm_text::write_replay`] writes what a [`tm_text::Replay`] tells.
#![tactic(auto)]

mod fault;
mod outputs;
mod task;
mod tracer;
mod walker;
mod whole;

pub use fault::ReplayFault;
pub use outputs::other_output;
pub use task::{replay_accepted, replay_task};
pub use whole::{replay, replay_of};
