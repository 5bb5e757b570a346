//! The plain values that the recorder's layers hand to one another: markers, the entries of the
//! rings, slices of a script, a task's body, and the tail of a run.
//!
//! [`Marker`] names an instant of a task. [`Switch`], [`DataEntry`] and [`OutputEntry`] are the
//! items of the rings. [`Body`] is all that a task's instructions can change. [`Shape`] says how large
//! the rings are. [`Items`] is the one kind of list in public types.
#![tactic(auto)]

mod body;
mod entries;
mod items;
pub mod laws;
mod marker;
mod service;
mod shape;
mod tail;

pub use body::{Body, DATA_START, REGISTERS};
pub use entries::{DataEntry, Kind, LINES, LONGEST_SLICE, OutputEntry, PORTS, Slice, Switch};
pub use items::Items;
pub use marker::{EPOCH_LENGTH, Marker};
pub use service::Service;
pub use shape::{Caps, MOST_CHECKPOINTS, MOST_ITEMS, MOST_TASKS, MOST_WORDS, Shape};
pub use tail::{FAULTED, GOES_ON, NOBODY, READY, RUNNING, SHUT_DOWN, SUSPENDED, Tail, WAITING};
