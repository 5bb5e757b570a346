//! Laws of the definitions, each the contract of a function that does nothing.

ghost use Rattle.tm_task.specs.Follows.{InstructionsAreOrderly};
ghost use Rattle.tm_task.specs.PlaceLaws.{PlacesRise, PlacesStay};

/// An instruction calls from inside the text, or leads on: further on in the text, or by a backward
/// transfer, and to as many registers and data words.
#[tactic(auto, using(crate::proofs::Following::exec_follows))]
pub fn instructions_are_orderly()
    ensures { InstructionsAreOrderly }
{}

/// The marker of each next place of a task is greater than the one before.
#[tactic(auto, using(crate::proofs::Rising::places_rise_lem))]
pub fn places_rise()
    ensures { PlacesRise }
{}

/// Each next place of a task is one of a task: its program counter is a multiple of 4, its count
/// is below the end, and it has as many registers and data words.
pub fn places_stay()
    ensures { PlacesStay }
{}
