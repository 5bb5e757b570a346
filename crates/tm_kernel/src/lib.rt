//! The kernel: fixed priorities, full preemption, and services after OSEK/VDX Operating System 2.2.3.
//!
//! [`Kernel`] is the scheduler's whole state. [`KernelSpec`] says which tasks there are and what
//! each interrupt line does. [`Kernel::call`] performs one service call, [`Kernel::arrive`] the
//! actions of one interrupt; [`Kernel::pick`] then names the task to run, and [`Kernel::run`] runs it.
#![tactic(auto)]

mod kernel;
pub mod laws;
mod mailbox;
pub mod nesting;
mod spec;

pub use kernel::{Answer, Kernel, Need, TaskState};
pub use spec::{
    Action, KernelSpec, MOST_ALARMS, MOST_BOXES, MOST_MESSAGES, MOST_RESOURCES, TaskSpec,
};
pub use tm_marker::{LINES, Service};
pub use tm_services::{
    E_OK, E_OS_ACCESS, E_OS_ID, E_OS_LIMIT, E_OS_NOFUNC, E_OS_RESOURCE, E_OS_STATE, E_OS_VALUE,
};
