//! The text of a plant read into a value, and the one spelling of a tape.
//!
//! A plant says what the devices beside a run do: [`read_plant`] reads a [`Plant`], which has for each device a
//! list of [`Act`]s. [`plan_text`] writes slices as the text of a plan, each in one spelling, and `read_plan` of
//! [`tm_image`] reads the same slices from it.
//!
//! ```text
//! tmplant 1                 tmplan 1
//! device 0                  slice 4 0x0001 0x00000000 0x00000000 0x00000000 0x00000000
//! raise 0 0 1000            slice 4 0x0002 0x00000007 0x00000000 0x00000000 0x00000000
//! set 0 0 7
//! device 1
//! hold 1 0 50
//! ```
#![tactic(auto)]

mod examples;
mod laws;
mod plant;
mod said;
mod tape;

pub use examples::{limits_are, plant_examples, plant_limits, plays_examples, tape_examples};
pub use laws::{plant_faults_are_first, plants_are_never_memory, tapes_are_read};
pub use plant::{
    Act, MOST_ACTS, MOST_DEVICES, MOST_RAISES, MOST_TURNS, Plant, PlantFault, read_plant,
};
pub use tape::plan_text;
