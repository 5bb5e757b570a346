//! A run that is published slice by slice, beside devices and observers.
//!
//! In [`observe`] the devices of a plant raise lines and set ports, and each [`Looker`] looks at what a watch has
//! published, each in a thread of its own, while the kernel's part takes the lines slice by slice and gives the slices
//! to the watch and to a tape. [`versions_of`] tells what the observers end with, their [`Versions`].
#![tactic(auto)]

mod looker;
mod observing;
mod publishing;
mod versions;

pub use looker::{Looker, lookers_of};
pub use observing::{Pace, observe};
pub use versions::{Versions, versions_of};
