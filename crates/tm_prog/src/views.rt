//! How a task of the machine is seen when it is printed.

ghost use Rattle.std.specs.Prelude.{◌≡◌, ◌<◌, ◌≤◌, length, IfOk};
ghost use Rattle.tm_spelling.specs.Story.{nonzero};
ghost use Rattle.tm_text.specs.Views.{view_of};
ghost use Rattle.tm_prog.specs.Teller.{view_in, start_in};

use std::alloc::{AllocError, Global};
use tm_marker::Items;
use tm_system::Machine;
use tm_text::{Seen, changes};

/// The data words that are not 0, with their addresses.
fn nonzero(alloc: Global, words: &[u32]) -> Result<Items<(u32, u32)>, AllocError>
    requires { length words.now ≤ 16384 }
    ensures { IfOk result (λ changed. changed ≡ nonzero words.now) }
{
    let zeros = vec![in alloc; 0u32; words.len()]?;
    changes(alloc, &zeros, words)
}

/// A task of the machine, with the data words that changed since others were printed.
pub(crate) fn seen(
    alloc: Global,
    machine: &Machine,
    task: u8,
    before: &[u32],
) -> Result<Seen, AllocError>
    requires { task < length machine.now.tasks }
    ensures view { IfOk result (λ seen. view_of seen ≡ view_in machine.now task before.now) }
    ensures number { IfOk result (λ seen. seen.task ≡ task) }
{
    let body = machine.task(task).body();
    Ok(Seen {
        task,
        at: machine.task(task).marker(),
        regs: body.regs,
        changed: changes(alloc, before, body.words.as_slice())?,
    })
}

/// A task of the machine, with the data words that are not 0.
pub(crate) fn seen_at_start(alloc: Global, machine: &Machine, task: u8) -> Result<Seen, AllocError>
    requires { task < length machine.now.tasks }
    ensures { IfOk result (λ seen. view_of seen ≡ start_in machine.now task) }
{
    let body = machine.task(task).body();
    Ok(Seen {
        task,
        at: machine.task(task).marker(),
        regs: body.regs,
        changed: nonzero(alloc, body.words.as_slice())?,
    })
}
