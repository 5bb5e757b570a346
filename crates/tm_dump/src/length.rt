//! How many bytes a dump has.

ghost use Rattle.std.specs.Prelude.{◌≡◌, ◌+◌, ◌*◌, ◌≤◌, sum_by};
ghost use Rattle.std.specs.List.{zip};
ghost use Rattle.tm_log.specs.Window.{dump_bound, task_bound};
ghost use Rattle.tm_dump.specs.Room.{task_room, tasks_room, dump_room};

use crate::widths::{
    CHECKPOINT_BYTES, DIGEST_BYTES, ENDS_BYTES, ENTRY_BYTES, HEAD_BYTES, LONG_BYTES, OUTPUT_BYTES,
    STAND_BYTES, SWITCH_BYTES, WORD_BYTES,
};
use tm_check::Checks;
use tm_log::Window;
use tm_marker::DataEntry;
use tm_ring::Ring;

/// The bytes of a task's data entries and checkpoints.
fn task_length(log: &Ring<DataEntry>, checks: &Checks) -> u64
    requires log { log.now.cap ≤ 65536 }
    requires checks { checks.now.cap ≤ 64 }
    requires words { checks.now.words ≤ 16384 }
    ensures room { result ≡ task_room (log.now, checks.now) }
    ensures few { result ≤ 5595152 }
    ensures bound { result ≤ 2 * LONG_BYTES + ENTRY_BYTES * log.now.cap + (CHECKPOINT_BYTES + WORD_BYTES * checks.now.words) * checks.now.cap }
{
    let check = CHECKPOINT_BYTES + WORD_BYTES * u64::from(checks.data_words());
    2 * LONG_BYTES + ENTRY_BYTES * u64::from(log.len()) + check * u64::from(checks.len())
}

/// The bytes of every task's data entries and checkpoints.
fn tasks_length(window: &Window) -> u64
    ensures room { result ≡ tasks_room window.now }
    ensures few { result ≤ 89522432 }
    ensures bound { result ≤ sum_by (task_bound window.now.shape.caps) window.now.shape.words }
{
    let mut length = 0;
    for task in 0..window.tasks() {
        length += task_length(window.log(task), window.checks(task));
    }
    length
}

/// The bytes of the window's dump.
pub(crate) fn dump_length(window: &Window) -> u64
    ensures room { result ≡ dump_room window.now }
    ensures bound { result ≤ dump_bound window.now.shape }
{
    HEAD_BYTES
        + (LONG_BYTES + SWITCH_BYTES * u64::from(window.control().len()))
        + (LONG_BYTES + OUTPUT_BYTES * u64::from(window.outputs().len()))
        + tasks_length(window)
        + (ENDS_BYTES + STAND_BYTES * u64::from(window.tasks()))
        + DIGEST_BYTES
}
