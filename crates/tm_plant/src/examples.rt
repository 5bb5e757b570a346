//! Small whole files, and what the definitions make of them: theorems that guard the definitions.

ghost use Rattle.std.specs.Prelude.{◌≡◌, [], ◌∷◌, ◌++◌, codes};
ghost use Rattle.tm_lines.specs.declared.fault.Reason.{Reason};
ghost use Rattle.tm_plant.specs.declared.plant.Act.TheVariants.{Raise, Set, Hold};
ghost use Rattle.tm_plant.specs.Plant.{acts_of, new_set, plant_of};
ghost use Rattle.tm_plant.specs.Plays.{raised_by, stored_by};
ghost use Rattle.tm_plant.specs.Tape.{tape_text};
ghost use Rattle.tm_plant.specs.Examples.{eight_devices, two_devices, with_acts};

use crate::{MOST_ACTS, MOST_DEVICES, MOST_RAISES, MOST_TURNS};

/// The most that a plant may have, as figures.
pub fn limits_are()
    ensures devices { MOST_DEVICES ≡ 8 }
    ensures acts { MOST_ACTS ≡ 65536 }
    ensures raises { MOST_RAISES ≡ 1048576 }
    ensures turns { MOST_TURNS ≡ 65536 }
{}

/// What some plants say, and why some texts are none.
#[tactic(auto, unfolding(crate::specs::Plant::plant_of, tm_lines::specs::Numbers::number_in))]
pub fn plant_examples()
    ensures acts { plant_of (codes "tmplant 1\ndevice 0\nraise 0 0 1000\nset 0 3 7\n# a note\ndevice 1\nhold 1 15 0x10000\nraise 0 2 1\n")
        ≡ Ok ((Raise 0 1000 ∷ Set 3 7 ∷ Raise 2 1 ∷ []) ∷ (Hold 15 65536 ∷ []) ∷ []) }
    ensures none { plant_of (codes "tmplant 1") ≡ Ok [] }
    ensures idle { plant_of (codes "tmplant 1\ndevice 0\n") ≡ Ok ([] ∷ []) }
    ensures empty { plant_of [] ≡ Err (record { line = 1; reason = Reason.Missing }) }
    ensures a_plan { plant_of (codes "tmplan 1\n") ≡ Err (record { line = 1; reason = Reason.Form }) }
    ensures no_keyword { plant_of (codes "tmplant 1\nwait 0 0 1\n") ≡ Err (record { line = 2; reason = Reason.Form }) }
    ensures two_numbers { plant_of (codes "tmplant 1\nraise 0 1\n") ≡ Err (record { line = 2; reason = Reason.Form }) }
    ensures number_first { plant_of (codes "tmplant 1\nraise 0 16 x\n") ≡ Err (record { line = 2; reason = Reason.Number }) }
    ensures number_skipped { plant_of (codes "tmplant 1\ndevice 1\n") ≡ Err (record { line = 2; reason = Reason.Range }) }
    ensures no_such_device { plant_of (codes "tmplant 1\nset 0 0 0\n") ≡ Err (record { line = 2; reason = Reason.Range }) }
    ensures no_times { plant_of (codes "tmplant 1\ndevice 0\nraise 0 1 0\n") ≡ Err (record { line = 3; reason = Reason.Range }) }
    ensures repeated { plant_of (codes "tmplant 1\ndevice 0\ndevice 0\n") ≡ Err (record { line = 3; reason = Reason.Repeated }) }
{}

/// The last line of a plant that is within its limits, and the first that is not.
#[tactic(auto, unfolding(crate::specs::Plant::plant_of, tm_lines::specs::Numbers::number_in))]
pub fn plant_limits()
    ensures devices { plant_of eight_devices ≡ Ok ([] ∷ [] ∷ [] ∷ [] ∷ [] ∷ [] ∷ [] ∷ [] ∷ []) }
    ensures more_devices { plant_of (eight_devices ++ codes "device 8\n") ≡ Err (record { line = 10; reason = Reason.Limit }) }
    ensures times { plant_of (codes "tmplant 1\ndevice 0\nraise 0 15 1048576\n") ≡ Ok ((Raise 15 1048576 ∷ []) ∷ []) }
    ensures more_times { plant_of (codes "tmplant 1\ndevice 0\nraise 0 1 1048576\nraise 0 1 1\n") ≡ Err (record { line = 4; reason = Reason.Limit }) }
    ensures greater_line { plant_of (codes "tmplant 1\ndevice 0\nraise 0 16 1\n") ≡ Err (record { line = 3; reason = Reason.Range }) }
    ensures greater_port { plant_of (codes "tmplant 1\ndevice 0\nset 0 4 1\n") ≡ Err (record { line = 3; reason = Reason.Range }) }
    ensures line_held { plant_of (codes "tmplant 1\ndevice 0\nhold 0 16 1\n") ≡ Err (record { line = 3; reason = Reason.Range }) }
    ensures more_turns { plant_of (codes "tmplant 1\ndevice 0\nhold 0 1 65537\n") ≡ Err (record { line = 3; reason = Reason.Range }) }
    ensures more_acts { new_set (with_acts 65536) (record { device = 0; port = 0; value = 0 }) ≡ Err Reason.Limit }
{}

/// What two devices come to.
pub fn plays_examples()
    ensures raised { raised_by (acts_of two_devices 0) ≡ 2 ∷ 2 ∷ 2 ∷ 0 ∷ [] }
    ensures stored { stored_by (acts_of two_devices 0) ≡ (3, 7) ∷ [] }
    ensures other { raised_by (acts_of two_devices 1) ≡ [] }
    ensures nobody { raised_by (acts_of two_devices 2) ≡ [] }
{}

/// A tape is spelled as here.
pub fn tape_examples()
    ensures none { tape_text [] ≡ codes "tmplan 1\n" }
    ensures one { tape_text (record { length = 1048576; mask = 0x1f; ports = 0 ∷ 0xdeadbeef ∷ 1 ∷ 4294967295 ∷ [] } ∷ [])
        ≡ codes "tmplan 1\nslice 1048576 0x001f 0x00000000 0xdeadbeef 0x00000001 0xffffffff\n" }
{}
