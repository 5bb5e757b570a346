//! Text files read into values: what a machine is made of, and the slices that it is to run.
//!
//! [`read_image`] reads an [`Image`], and [`read_plan`] a [`Plan`]; a [`Fault`] says which line of a
//! text was refused first, and why. How lines, tokens and numbers are spelled is said in [`tm_lines`].
//! A task of an image can be loaded from something else that is [`Loaded`].
//!
//! ```text
//! tmi 1                                     tmplan 1
//! # a background loop and one more task     slice 5 0
//! task 0 basic 1 auto 0 1                   slice 2 0x2
//! text 0 0000006f                           slice 9 6 1 2 3 0xffffffff
//! task 1 basic 2 off 0 1
//! text 1 00200893 00000073
//! line 1 activate 1
//! line 2 tick
//! ```
#![tactic(auto)]

mod draft;
mod examples;
mod image;
mod laws;
mod load;
mod plan;
mod rings;
mod said;

pub use examples::{image_examples, image_limits, plan_examples, plan_limits};
pub use image::{Image, ImageFault, read_image};
pub use laws::{faults_are_never_memory, image_faults_are_first, plan_faults_are_first};
pub use load::Loaded;
pub use plan::{Plan, PlanFault, read_plan};
pub use tm_lines::{Fault, Reason};
