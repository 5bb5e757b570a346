//! One task of the machine: a program counter, registers and data words that RV32I and RV32M
//! instructions change, and calls that an answer resumes.
//!
//! [`Task`] is a task. [`Task::step`] executes one instruction of its text and tells by [`Stepped`]
//! what it did; after a call, [`Task::answer`] gives the task what the service answered. A
//! [`Cause`] is why an instruction can't be executed.
#![tactic(auto)]

mod answer;
mod division;
mod execute;
mod laws;
mod memory;
mod multiplication;
mod outcome;
mod perform;
mod registers;
mod run;
mod task;

pub use laws::{instructions_are_orderly, places_rise, places_stay};
pub use memory::DATA_START;
pub use outcome::{Cause, Stepped};
pub use task::Task;
