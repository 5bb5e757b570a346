//! The checkpoints of a dump.

ghost use Rattle.std.specs.Prelude.{◌≡◌, ◌+◌, ◌<◌, ◌≤◌, ◌^◌, [], length, OnOk, IfOk};
ghost use Rattle.std.specs.List.{list_all};
ghost use Rattle.tm_marker.specs.Shape.{IsCheckCap, IsWordCount};
ghost use Rattle.tm_check.specs.Checkpoint.{checkpoint};
ghost use Rattle.tm_dump.specs.Cursor.{words_in, Gives};
ghost use Rattle.tm_dump.specs.Reading.{aligned_in, at_most_in, checkpoint_in, checkpoints_in, is_below_on, is_reached, check_total_in, checks_in};

use super::cursor::{Cursor, ruled};
use super::rings::TOTALS;
use crate::DumpFault;
use crate::rings::kept;
use std::alloc::Global;
use tm_check::Checks;
use tm_marker::{Body, Items, Marker, REGISTERS, Switch};
use tm_ring::Ring;

/// A checkpoint.
#[derive(Drop)]
struct Checkpoint {
    body: Body,
    data_no: u64,
    control_no: u64,
}

fn aligned(at: &mut Cursor<'_>) -> Result<u32, DumpFault>
    ensures { Gives (λ pc. (pc, at.new)) result (aligned_in at.old) }
{
    let place = at.place();
    let pc = at.word()?;
    ruled(place, pc, pc % 4 == 0)
}

fn at_most(most: u64, at: &mut Cursor<'_>) -> Result<u64, DumpFault>
    ensures { Gives (λ number. (number, at.new)) result (at_most_in most at.old) }
{
    let place = at.place();
    let number = at.long()?;
    ruled(place, number, number <= most)
}

/// So many data words.
fn data_words(alloc: Global, size: u32, at: &mut Cursor<'_>) -> Result<Items<u32>, DumpFault>
    ensures read { Gives (λ words. (words, at.new)) result (words_in size at.old) }
    ensures size { IfOk result (λ words. length words ≡ size) }
{
    let mut words = vec![in alloc; 0; size as usize]?;
    at.words(words.as_mut_slice())?;
    Ok(Items::from(words))
}

/// A checkpoint of a body of so many data words, made after so many data entries and control entries at
/// most.
fn read_checkpoint(
    alloc: Global,
    size: u32,
    entries: u64,
    switches: u64,
    at: &mut Cursor<'_>,
) -> Result<Checkpoint, DumpFault>
    ensures read { Gives (λ c. (checkpoint c.body c.data_no c.control_no, at.new)) result (checkpoint_in size entries switches at.old) }
    ensures size { IfOk result (λ c. length c.body.words ≡ size) }
{
    let pc = aligned(at)?;
    let mut regs = [0; REGISTERS];
    at.words(&mut regs)?;
    let data_no = at_most(entries, at)?;
    let control_no = at_most(switches, at)?;
    let words = data_words(alloc, size, at)?;
    Ok(Checkpoint {
        body: Body { pc, regs, words },
        data_no,
        control_no,
    })
}

/// Puts so many checkpoints of bodies of this size where none is kept.
fn fill(
    alloc: Global,
    number: u64,
    size: u32,
    entries: u64,
    switches: u64,
    checks: &mut Checks,
    at: &mut Cursor<'_>,
) -> Result<(), DumpFault>
    requires empty { checks.old.items ≡ [] }
    requires fit { number ≤ checks.old.cap }
    requires size { checks.old.words ≡ size }
    requires counted { checks.old.total + number < 2 ^ 53 }
    ensures read { Gives (λ _. (checks.new.items, at.new)) result (checkpoints_in size entries switches number at.old) }
    ensures total { OnOk result (checks.new.total ≡ checks.old.total + number) }
    ensures cap { checks.new.cap ≡ checks.old.cap }
    ensures words { checks.new.words ≡ checks.old.words }
{
    for _ in 0..number {
        let c = read_checkpoint(alloc, size, entries, switches, at)?;
        checks.push(&c.body, c.data_no, c.control_no);
    }
    Ok(())
}

/// Whether the task, where it stands on a side of a control entry, has not come to this epoch.
fn is_below_on(task: u8, total: u64, who: u8, at: Marker) -> bool
    ensures { result ≡ is_below_on task total who at }
{
    who != task || at.epoch < total
}

fn is_reached(task: u8, total: u64, entry: Switch) -> bool
    ensures { result ≡ is_reached task total entry }
{
    is_below_on(task, total, entry.from, entry.from_at)
        && is_below_on(task, total, entry.to, entry.to_at)
}

/// Whether so many checkpoints of the task are enough for every control entry.
fn are_reached(task: u8, total: u64, control: &Ring<Switch>) -> bool
    ensures { result ≡ list_all (is_reached task total) control.now.items }
{
    for index in 0..control.len() {
        if !is_reached(task, total, kept(control, index)) {
            return false;
        }
    }
    true
}

/// How many checkpoints of the task there were.
fn check_total(task: u8, control: &Ring<Switch>, at: &mut Cursor<'_>) -> Result<u64, DumpFault>
    ensures read { Gives (λ total. (total, at.new)) result (check_total_in control.now.items task at.old) }
    ensures below { IfOk result (λ total. total < 2 ^ 53) }
{
    let place = at.place();
    let total = at.long()?;
    let keeps = 0 < total && total < TOTALS && are_reached(task, total, control);
    ruled(place, total, keeps)
}

/// The checkpoints of a task of so many data words and data entries.
pub(crate) fn read_checks(
    alloc: Global,
    cap: u32,
    size: u32,
    control: &Ring<Switch>,
    task: u8,
    entries: u64,
    at: &mut Cursor<'_>,
) -> Result<Checks, DumpFault>
    requires cap { IsCheckCap cap }
    requires words { IsWordCount size }
    ensures read { Gives (λ checks. (checks, at.new)) result (checks_in cap size control.now task entries at.old) }
    ensures cap { IfOk result (λ checks. checks.cap ≡ cap) }
    ensures words { IfOk result (λ checks. checks.words ≡ size) }
{
    let total = check_total(task, control, at)?;
    let number = total.min(u64::from(cap));
    let mut checks = Checks::starting(alloc, cap, size, total - number)?;
    fill(
        alloc,
        number,
        size,
        entries,
        control.total(),
        &mut checks,
        at,
    )?;
    Ok(checks)
}
