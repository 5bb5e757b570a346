//! The last moment of a run.

use crate::{Items, Marker};

/// The number that stands for no task.
pub const NOBODY: u8 = 255;

/// The run goes on.
pub const GOES_ON: u8 = 0;

/// The run has ended by a fault.
pub const FAULTED: u8 = 1;

/// The run has ended by a shutdown.
pub const SHUT_DOWN: u8 = 2;

/// The number of the state of a task that does not run until it is activated.
pub const SUSPENDED: u8 = 0;

/// The number of the state of a task that could run.
pub const READY: u8 = 1;

/// The number of the state of the running task.
pub const RUNNING: u8 = 2;

/// The number of the state of a task that waits for an event.
pub const WAITING: u8 = 3;

/// How a run stands at its last moment: the running task or [`NOBODY`]; `ended` is [`GOES_ON`],
/// [`FAULTED`] or [`SHUT_DOWN`]; and for each task its marker and its state, [`SUSPENDED`], [`READY`],
/// [`RUNNING`] or [`WAITING`].
#[derive(Debug, Drop)]
pub struct Tail {
    pub running: u8,
    pub ended: u8,
    pub at: Items<Marker>,
    pub state: Items<u8>,
}
