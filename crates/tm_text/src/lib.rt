//! Values to printed bytes: the start of a text, each control entry, and the end.
//!
//! [`Seen`], [`Stop`] and [`Track`] are what is known of a task, [`changes`] finds the data words
//! that are printed with it, and [`write_start`], [`write_stop`] and [`write_end`] each append one
//! block of lines to a text. [`write_replay`] appends the whole text of a [`Replay`] by the same lines.
//! Where memory is wanting the text is as before the call.
#![tactic(auto)]

mod differences;
mod lines;
mod replay;
mod seen;
mod values;
mod words;
mod write;

pub use differences::changes;
pub use replay::{TASKS, stop_of, write_replay};
pub use seen::{Replay, Seen, Stop, Track};
pub use write::{write_end, write_start, write_stop};
