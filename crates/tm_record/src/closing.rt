//! The last moment of a slice, written into the window's tail.

ghost use Rattle.std.specs.Prelude.{◌≡◌, length};
ghost use Rattle.tm_record.specs.Recording.{tail_of};

use tm_log::Window;
use tm_system::Machine;

/// Makes the tail that of the machine as it stands.
pub(crate) fn close(machine: &Machine, window: &mut Window)
    requires { length window.old.shape.words ≡ length machine.now.tasks }
    ensures { window.new ≡ record window.old { tail = tail_of machine.now } }
{
    // A window has one marker and one state for each task of its shape.
    let _tasks = window.tasks();
    window.set_running(machine.running(), machine.ended());
    for task in 0..machine.tasks() {
        window.set_task(task, machine.task(task).marker(), machine.state(task));
    }
}
