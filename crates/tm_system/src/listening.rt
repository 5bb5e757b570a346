//! One who listens to a machine hears what is told of each moment that adds to a list of the run.

ghost use Rattle.std.specs.Prelude.{◌≡◌, ℕ, ◌∷◌, OnOk};
ghost use Rattle.tm_image.specs.Image.{ImageView};
ghost use Rattle.tm_system.specs.declared.machine.Told.{Told};
ghost use Rattle.tm_system.specs.History.{Moment, History};
ghost use Rattle.tm_system.specs.Machine.{MachineView, told_going_on};
ghost use Rattle.tm_system.specs.Quiet.{AddsNothing};
ghost use Rattle.tm_system.specs.Hearing.{IsNews, CanHear};

use crate::machine::{Machine, Told};

/// One who listens to a machine.
pub trait Listener {
    /// Why one who listens hears no more.
    type Refusal;

    // What it has after what is told of a moment, by the machine after the moment and the task that ran
    // before it.
    ghost hears: { MachineView → ℕ → Told → Self → Self };

    // The histories that it stands for.
    ghost stands: { ImageView → History → Self → Type 0 };

    /// Hears what is told of a moment. `machine` is as the moment leaves it, and `task` ran before it.
    fn hear(&mut self, machine: &Machine, task: u8, told: &Told) -> Result<(), Self::Refusal>
        requires { CanHear stands machine.now task told.now self.old }
        ensures heard { OnOk result (self.new ≡ hears machine.now task told.now self.old) }
        ensures stands { (image : ImageView) (h : History) (m : Moment) → IsNews image h m machine.now task told.now →
            stands image h self.old → OnOk result (stands image (m ∷ h) self.new) };

    // What adds to no list is not heard, and changes nothing.
    ghost unheard: { (machine : MachineView) (task : ℕ) (listener : Self) → hears machine task told_going_on listener ≡ listener };

    ghost rests: { (image : ImageView) (h g : History) (listener : Self) → AddsNothing image h g → stands image h listener → stands image g listener };
}
