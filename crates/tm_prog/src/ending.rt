//! How a run stands at its end, as it is printed.

ghost use Rattle.std.specs.Prelude.{◌≡◌, ◌<◌, ◌≤◌, length, IfOk};
ghost use Rattle.tm_text.specs.Views.{view_of};
ghost use Rattle.tm_prog.specs.Teller.{view_in, printed_by, EndsAs, TracksFirst};

use crate::views::seen;
use std::alloc::{AllocError, Global};
use tm_marker::{Items, OutputEntry, Tail};
use tm_system::Machine;
use tm_text::Track;

/// The last moment of the machine.
pub(crate) fn tail(alloc: Global, machine: &Machine) -> Result<Tail, AllocError>
    requires { length machine.now.tasks ≤ 16 }
    ensures { IfOk result (EndsAs machine.now) }
{
    let mut at = Vec::new(alloc);
    let mut state = Vec::new(alloc);
    for task in 0..machine.tasks() {
        at.push(machine.task(task).marker())?;
        state.push(machine.state(task))?;
    }
    Ok(Tail {
        running: machine.running(),
        ended: machine.ended(),
        at: Items::from(at),
        state: Items::from(state),
    })
}

/// Each task at the end, with the data words that changed since they were printed; the outputs that
/// wait go with every task, and are printed with the running one.
pub(crate) fn tracks(
    alloc: Global,
    machine: &Machine,
    printed: &[Items<u32>],
    pending: &[OutputEntry],
) -> Result<Vec<Track>, AllocError>
    requires few { length machine.now.tasks ≤ 16 }
    requires tasks { length printed.now ≡ length machine.now.tasks }
    ensures { IfOk result (λ tracks. TracksFirst machine.now printed.now pending.now (length machine.now.tasks) tracks.items) }
{
    let mut all = Vec::new(alloc);
    for task in 0..machine.tasks() {
        let words = words_at(printed, task);
        all.push(track(alloc, machine, task, words, pending)?)?;
    }
    Ok(all)
}

/// A task's data words as they were printed last.
fn words_at(printed: &[Items<u32>], task: u8) -> &[u32]
    requires { task < length printed.now }
    ensures { result.now ≡ printed_by printed.now task }
{
    printed[usize::from(task)].as_slice()
}

/// One task at the end. Nothing of it is printed but the end.
fn track(
    alloc: Global,
    machine: &Machine,
    task: u8,
    before: &[u32],
    pending: &[OutputEntry],
) -> Result<Track, AllocError>
    requires { task < length machine.now.tasks }
    ensures last { IfOk result (λ track. view_of track.last ≡ view_in machine.now task before.now) }
    ensures number { IfOk result (λ track. track.last.task ≡ task) }
    ensures outputs { IfOk result (λ track. track.outputs ≡ pending.now) }
{
    Ok(Track {
        start: seen(alloc, machine, task, before)?,
        stops: Items::new(alloc),
        last: seen(alloc, machine, task, before)?,
        outputs: Items::from(Vec::from_slice(alloc, pending)?),
    })
}
