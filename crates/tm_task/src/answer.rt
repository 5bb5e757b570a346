//! What boot and the answer of a call leave in a body.

ghost use Rattle.std.specs.Prelude.{◌≡◌, ◌+◌, ◌*◌, ◌≤◌, length};
ghost use Rattle.tm_task.specs.Standing.{boot_registers, begins_epoch, is_end, reply};

use crate::DATA_START;
use crate::registers::put;
use tm_marker::{Body, DataEntry, Service};

/// The registers of a task at boot: x2 is the end of its data words, the others are 0.
pub(crate) fn boot_registers(words: usize) -> [u32; 31]
    requires { words ≤ 16384 }
    ensures { result ≡ boot_registers words }
{
    let mut regs = [0; 31];
    regs[1] = DATA_START + 4 * words as u32;
    regs
}

/// Whether the answer ends the caller's run, so that it starts anew.
fn is_end(entry: &DataEntry) -> bool
    ensures { result ≡ is_end entry.now }
{
    (entry.service == Service::TerminateTask.number()
        || entry.service == Service::ChainTask.number())
        && entry.status == 0
}

/// Whether the answer begins an epoch.
pub(crate) fn begins_epoch(entry: &DataEntry) -> bool
    ensures { result ≡ begins_epoch entry.now }
{
    (entry.service == Service::TerminateTask.number()
        || entry.service == Service::ChainTask.number()
        || entry.service == Service::WaitEvent.number())
        && entry.status == 0
}

/// Answers the call at which a body stands; `start` is where its text is entered.
pub(crate) fn reply(body: &mut Body, start: u32, entry: &DataEntry)
    requires { length body.old.words ≤ 16384 }
    ensures { body.new ≡ reply start body.old entry.now }
{
    if is_end(entry) {
        let regs = boot_registers(body.words.len());
        body.pc = start;
        body.regs = regs;
        return;
    }
    put(body, 10, entry.status);
    put(body, 11, entry.words[0]);
    put(body, 12, entry.words[1]);
    put(body, 13, entry.words[2]);
    put(body, 14, entry.words[3]);
    body.pc = body.pc.wrapping_add(4);
}
