//! Priority ceilings and alarms, after OSEK/VDX Operating System 2.2.3.
//!
//! [`Ceilings`] keeps which resources each task holds, and the priorities that follow. [`Alarms`]
//! keeps the alarms of one counter. Neither takes memory, and a refused call changes nothing.
#![tactic(auto)]

mod alarms;
mod ceilings;
mod held;
pub mod laws;
mod status;
mod waiting;

pub use alarms::{Alarms, Left};
pub use ceilings::Ceilings;
pub use status::{
    E_OK, E_OS_ACCESS, E_OS_ID, E_OS_LIMIT, E_OS_NOFUNC, E_OS_RESOURCE, E_OS_STATE, E_OS_VALUE,
};
