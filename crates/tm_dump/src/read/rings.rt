//! The rings of a dump: how many items there were, and the last ones.

ghost use Rattle.std.specs.Prelude.{◌≡◌, ◌+◌, ◌<◌, ◌≤◌, ◌^◌, [], None, OnOk, IfOk};
ghost use Rattle.tm_log.specs.WellFormed.{runs_last, ended_last};
ghost use Rattle.tm_dump.specs.Cursor.{Gives};
ghost use Rattle.tm_dump.specs.Reading.{total_in, entries_in, ring_in};

use super::cursor::{Cursor, ruled};
use super::entries::{Entry, ended_by};
use crate::DumpFault;
use crate::rings::kept;
use std::alloc::Global;
use tm_marker::{NOBODY, Switch};
use tm_ring::Ring;

/// Every total is below this.
pub(crate) const TOTALS: u64 = 1 << 53;

fn total_of(at: &mut Cursor<'_>) -> Result<u64, DumpFault>
    ensures read { Gives (λ total. (total, at.new)) result (total_in at.old) }
    ensures below { IfOk result (λ total. total < 2 ^ 53) }
{
    let place = at.place();
    let total = at.long()?;
    ruled(place, total, total < TOTALS)
}

/// Puts so many entries into a ring that keeps none.
fn fill<T: Entry>(
    tasks: u8,
    number: u64,
    ring: &mut Ring<T>,
    at: &mut Cursor<'_>,
) -> Result<(), DumpFault>
    requires empty { ring.old.items ≡ [] }
    requires fit { number ≤ ring.old.cap }
    requires counted { ring.old.total + number < 2 ^ 53 }
    ensures read { Gives (λ _. (ring.new.items, at.new)) result (entries_in (T.entry_in tasks) None number at.old) }
    ensures total { OnOk result (ring.new.total ≡ ring.old.total + number) }
    ensures cap { ring.new.cap ≡ ring.old.cap }
{
    let mut before = None;
    for _ in 0..number {
        let entry = T::read(tasks, before, at)?;
        ring.push(entry);
        before = Some(entry);
    }
    Ok(())
}

/// A ring of this capacity.
pub(crate) fn read_ring<T: Entry>(
    alloc: Global,
    tasks: u8,
    cap: u32,
    at: &mut Cursor<'_>,
) -> Result<Ring<T>, DumpFault>
    requires some { 0 < cap }
    requires few { cap ≤ 65536 }
    ensures read { Gives (λ ring. (ring, at.new)) result (ring_in (T.entry_in tasks) cap at.old) }
    ensures cap { IfOk result (λ ring. ring.cap ≡ cap) }
{
    let total = total_of(at)?;
    let number = total.min(u64::from(cap));
    let mut ring = Ring::starting(alloc, cap, total - number)?;
    fill(tasks, number, &mut ring, at)?;
    Ok(ring)
}

/// Who runs after the last control entry, and how the run stands then.
pub(crate) fn after_last(control: &Ring<Switch>) -> (u8, u8)
    ensures running { result.0 ≡ runs_last control.now.items }
    ensures ended { result.1 ≡ ended_last control.now.items }
{
    if control.is_empty() {
        return (NOBODY, 0);
    }
    let last = kept(control, control.len() - 1);
    (last.to, ended_by(last.kind))
}
