//! Lists with one item for each task.

ghost use Rattle.std.specs.Prelude.{◌≡◌, ℕ, ◌≤◌, ◌<◌, ◌+◌, ◌*◌, ◌^◌, [], length, replicate, map, sum_by, take, IfOk, All};
ghost use Rattle.tm_marker.specs.Shape.{IsCaps, IsRingCap, IsCheckCap, IsWordCount};
ghost use Rattle.tm_ring.specs.Kept.{Kept, kept};
ghost use Rattle.tm_check.specs.Checkpoint.{KeptChecks, kept_checks};
ghost use Rattle.tm_log.specs.Window.{still_tail, task_bound};
ghost use Rattle.tm_log.specs.Caps.{HaveOneCap, KeepOneCap};

use std::alloc::{AllocError, Global};
use tm_check::Checks;
use tm_marker::{Caps, DataEntry, GOES_ON, Items, Marker, NOBODY, SUSPENDED, Tail};
use tm_ring::Ring;

/// So many empty rings of data entries.
pub(crate) fn empty_logs(
    alloc: Global,
    tasks: usize,
    cap: u32,
) -> Result<Vec<Ring<DataEntry>>, AllocError>
    requires { IsRingCap cap }
    ensures { IfOk result (λ logs. logs.items ≡ replicate tasks (kept [] 0 cap)) }
{
    let mut logs = Vec::new(alloc);
    for _ in 0..tasks {
        logs.push(Ring::new(alloc, cap)?)?;
    }
    Ok(logs)
}

/// No checkpoint of any of the tasks with these numbers of data words.
pub(crate) fn empty_checks(
    alloc: Global,
    words: &[u32],
    cap: u32,
) -> Result<Vec<Checks>, AllocError>
    requires cap { IsCheckCap cap }
    requires words { All IsWordCount words.now }
    ensures { IfOk result (λ checks. checks.items ≡ map (λ size. kept_checks [] 0 cap size) words.now) }
{
    let mut checks = Vec::new(alloc);
    for &size in words {
        checks.push(Checks::new(alloc, cap, size)?)?;
    }
    Ok(checks)
}

/// A tail of so many tasks, all suspended, in which nobody runs and the run goes on.
pub(crate) fn new_tail(alloc: Global, tasks: usize) -> Result<Tail, AllocError>
    ensures { IfOk result (λ tail. tail ≡ still_tail tasks) }
{
    Ok(Tail {
        running: NOBODY,
        ended: GOES_ON,
        at: Items::from(vec![in alloc; Marker::ZERO; tasks]?),
        state: Items::from(vec![in alloc; SUSPENDED; tasks]?),
    })
}

/// Takes the data entries of every task.
pub(crate) fn copy_logs(from: &[Ring<DataEntry>], into: &mut [Ring<DataEntry>])
    requires tasks { length into.old ≡ length from.now }
    requires caps { HaveOneCap from.now into.old }
    ensures { into.new ≡ from.now }
{
    for task in 0..from.len() {
        let ring = &mut into[task];
        ring.copy_from(&from[task]);
    }
}

/// Takes the checkpoints of every task.
pub(crate) fn copy_checks(from: &[Checks], into: &mut [Checks])
    requires words { map (λ checks. checks.words) into.old ≡ map (λ checks. checks.words) from.now }
    requires caps { KeepOneCap from.now into.old }
    ensures { into.new ≡ from.now }
{
    for task in 0..from.len() {
        let checks = &mut into[task];
        checks.copy_from(&from[task]);
    }
}

/// Takes the markers and states of as many tasks.
pub(crate) fn copy_tail(from: &Tail, into: &mut Tail)
    requires at { length into.old.at ≡ length from.now.at }
    requires state { length into.old.state ≡ length from.now.state }
    ensures { into.new ≡ from.now }
{
    into.running = from.running;
    into.ended = from.ended;
    into.at.copy_from_slice(from.at.as_slice());
    into.state.copy_from_slice(from.state.as_slice());
}

/// The bytes of a dump that tell one task's full buffers.
fn bound_of(caps: Caps, words: u32) -> u64
    requires caps { IsCaps caps }
    requires words { IsWordCount words }
    ensures bound { result ≡ task_bound caps words }
    ensures few { result ≤ 5595152 }
{
    let check = 144 + 4 * u64::from(words);
    16 + 21 * u64::from(caps.logs) + check * u64::from(caps.checks)
}

/// The bytes of a dump that tell every task's full buffers.
pub(crate) fn bound_of_all(caps: Caps, words: &[u32]) -> u64
    requires caps { IsCaps caps }
    requires words { All IsWordCount words.now }
    requires tasks { length words.now ≤ 16 }
    ensures bound { result ≡ sum_by (task_bound caps) words.now }
    ensures few { result ≤ 89522432 }
{
    let mut bytes = 0;
    for &size in words {
        bytes += bound_of(caps, size);
    }
    bytes
}
