//! What a kernel is made of: its tasks, resources, alarms, boxes and lines.

use tm_marker::{Items, LINES};

/// How many resources there are at most.
pub const MOST_RESOURCES: u32 = 16;

/// How many alarms there are at most.
pub const MOST_ALARMS: u32 = 16;

/// How many boxes there are at most.
pub const MOST_BOXES: u32 = 16;

/// How many messages a box has room for at most.
pub const MOST_MESSAGES: u32 = 64;

/// What a line or an alarm does when it comes.
#[derive(Clone, Copy, Debug, PartialEq, Eq)]
pub enum Action {
    Nothing,
    /// The counter of the alarms goes up by one.
    Tick,
    /// The task is activated, as by ActivateTask.
    Activate(u8),
    /// The events of the mask are set for the task, as by SetEvent.
    Event(u8, u32),
}

/// One task: basic or extended, its static priority from 1 to 255, and whether it is ready at boot.
#[derive(Clone, Copy, Debug, PartialEq, Eq)]
pub struct TaskSpec {
    pub extended: bool,
    pub priority: u8,
    pub auto: bool,
}

/// The tasks; for each resource the mask of its declared users; for each alarm its action; for each
/// box its capacity in messages; and the action of each line.
#[derive(Debug, Drop)]
pub struct KernelSpec {
    pub tasks: Items<TaskSpec>,
    pub users: Items<u16>,
    pub alarms: Items<Action>,
    pub boxes: Items<u8>,
    pub lines: [Action; LINES],
}
