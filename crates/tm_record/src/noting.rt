//! What a moment told, written into the window.

ghost use Rattle.std.specs.Prelude.{◌≡◌, ◌<◌, ◌^◌, length, IfSome};
ghost use Rattle.tm_log.specs.Window.{log_of, checks_of};
ghost use Rattle.tm_system.specs.Moving.{task_in};
ghost use Rattle.tm_record.specs.Recording.{tail_of, noted, entry_noted, check_noted, output_noted, switch_noted, HasRoom, Concerns};

use crate::closing::close;
use std::convert::Infallible;
use std::marker::Model;
use tm_log::Window;
use tm_marker::{DataEntry, OutputEntry, Switch};
use tm_system::{Listener, Machine, Told};

/// A window that notes what it hears. It never refuses.
#[derive(Drop)]
pub(crate) struct Notes {
    pub(crate) window: Window,
}

impl Model for Notes {
    ghost use Rattle.tm_log.specs.Window.{WindowView};

    ghost Value = { WindowView };

    ghost view = { λ n. n.window };
}

impl Notes {
    /// Makes the tail that of the machine as it stands.
    pub(crate) fn close(&mut self, machine: &Machine)
        requires { length self.old.shape.words ≡ length machine.now.tasks }
        ensures { self.new ≡ record self.old { tail = tail_of machine.now } }
    {
        close(machine, &mut self.window);
    }
}

impl Listener for Notes {
    ghost use Rattle.std.specs.Prelude.{refl};
    ghost use Rattle.tm_record.specs.Recording.{noted, IsNoted};
    ghost use Rattle.tm_record.specs.Resting.{quiet_noted};

    type Refusal = Infallible;

    ghost hears = { noted };

    ghost stands = { IsNoted };

    fn hear(&mut self, machine: &Machine, task: u8, told: &Told) -> Result<(), Infallible> {
        // A window keeps what its type says.
        let _tasks = self.window.tasks();
        note(machine, &mut self.window, task, told);
        Ok(())
    }

    ghost unheard = { λ machine task w. refl };

    ghost rests = { quiet_noted };
}

/// Writes what a moment told. `task` is the one whose turn it was. The data entry comes before the
/// checkpoint of the same moment, which counts it, and the control entry after.
pub(crate) fn note(machine: &Machine, window: &mut Window, task: u8, told: &Told)
    requires room { HasRoom machine.now window.old }
    requires concerns { Concerns (length machine.now.tasks) task told.now }
    ensures { window.new ≡ noted machine.now task told.now window.old }
{
    note_entry(window, task, told.entry);
    note_checkpoint(machine, window, told.checkpoint);
    note_output(window, told.output);
    note_switch(window, told.switch);
}

fn note_entry(window: &mut Window, task: u8, entry: Option<DataEntry>)
    requires there { IfSome entry (λ e. task < length window.old.shape.words) }
    requires room { IfSome entry (λ e. (log_of window.old task).total < 2 ^ 53) }
    ensures { window.new ≡ entry_noted task entry window.old }
{
    if let Some(entry) = entry {
        window.push_entry(task, entry);
    }
}

/// Writes a checkpoint of the task as it is now, where one is taken.
pub(crate) fn note_checkpoint(machine: &Machine, window: &mut Window, checkpoint: Option<u8>)
    requires there { IfSome checkpoint (λ task. task < length window.old.shape.words) }
    requires task { IfSome checkpoint (λ task. task < length machine.now.tasks) }
    requires room { IfSome checkpoint (λ task. (checks_of window.old task).total < 2 ^ 53) }
    requires size { IfSome checkpoint (λ task. length (task_in machine.now task).standing.body.words ≡ (checks_of window.old task).words) }
    ensures { window.new ≡ check_noted machine.now checkpoint window.old }
{
    if let Some(task) = checkpoint {
        let data_no = window.log(task).total();
        let control_no = window.control().total();
        window.push_check(task, machine.task(task).body(), data_no, control_no);
    }
}

fn note_output(window: &mut Window, entry: Option<OutputEntry>)
    requires { window.old.outputs.total < 2 ^ 53 }
    ensures { window.new ≡ output_noted entry window.old }
{
    if let Some(entry) = entry {
        window.push_output(entry);
    }
}

fn note_switch(window: &mut Window, entry: Option<Switch>)
    requires { window.old.control.total < 2 ^ 53 }
    ensures { window.new ≡ switch_noted entry window.old }
{
    if let Some(entry) = entry {
        window.push_control(entry);
    }
}
