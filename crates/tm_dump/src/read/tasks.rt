//! The data entries and the checkpoints of a dump's tasks.

ghost use Rattle.std.specs.Prelude.{◌≡◌, ◌≤◌, length, map, IfOk, All};
ghost use Rattle.tm_marker.specs.Shape.{IsShape, IsCaps, IsWordCount};
ghost use Rattle.tm_dump.specs.Cursor.{Gives};
ghost use Rattle.tm_dump.specs.Reading.{task_in, tasks_in};
ghost use Rattle.tm_dump.specs.Made.{AreOf};

use super::checkpoints::read_checks;
use super::cursor::Cursor;
use super::rings::read_ring;
use crate::DumpFault;
use std::alloc::Global;
use tm_check::Checks;
use tm_marker::{Caps, DataEntry, Shape, Switch};
use tm_ring::Ring;

/// What is kept of a task.
#[derive(Drop)]
struct Task {
    log: Ring<DataEntry>,
    checks: Checks,
}

/// The data entries and the checkpoints of a task, where there are so many.
fn read_task(
    alloc: Global,
    caps: Caps,
    tasks: u8,
    task: u8,
    size: u32,
    control: &Ring<Switch>,
    at: &mut Cursor<'_>,
) -> Result<Task, DumpFault>
    requires caps { IsCaps caps }
    requires size { IsWordCount size }
    ensures read { Gives (λ task. ((task.log, task.checks), at.new)) result (task_in caps control.now tasks task size at.old) }
    ensures log_cap { IfOk result (λ task. task.log.cap ≡ caps.logs) }
    ensures check_cap { IfOk result (λ task. task.checks.cap ≡ caps.checks) }
    ensures words { IfOk result (λ task. task.checks.words ≡ size) }
{
    let log: Ring<DataEntry> = read_ring(alloc, tasks, caps.logs, at)?;
    let entries = log.total();
    let checks = read_checks(alloc, caps.checks, size, control, task, entries, at)?;
    Ok(Task { log, checks })
}

/// What is kept of each task.
#[derive(Drop)]
pub(crate) struct Tasks {
    pub(crate) logs: Vec<Ring<DataEntry>>,
    pub(crate) checks: Vec<Checks>,
}

/// The data entries and the checkpoints of all tasks.
pub(crate) fn read_tasks(
    alloc: Global,
    shape: &Shape,
    control: &Ring<Switch>,
    at: &mut Cursor<'_>,
) -> Result<Tasks, DumpFault>
    requires { IsShape shape.now }
    ensures read { Gives (λ tasks. ((tasks.logs.items, tasks.checks.items), at.new)) result
        (tasks_in shape.now.caps control.now (length shape.now.words) 0 shape.now.words at.old) }
    ensures made { IfOk result (λ tasks. AreOf shape.now.caps shape.now.words tasks.logs.items tasks.checks.items) }
{
    let tasks = shape.words.len() as u8;
    let mut logs = Vec::new(alloc);
    let mut checks = Vec::new(alloc);
    for task in 0..tasks {
        let size = shape.words.at(usize::from(task));
        let read = read_task(alloc, shape.caps, tasks, task, size, control, at)?;
        logs.push(read.log)?;
        checks.push(read.checks)?;
    }
    Ok(Tasks { logs, checks })
}
