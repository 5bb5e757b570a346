//! The last moment of a dump.

ghost use Rattle.std.specs.Prelude.{◌≡◌, ◌≤◌, length, map, IfOk};
ghost use Rattle.tm_dump.specs.Cursor.{Gives};
ghost use Rattle.tm_dump.specs.Reading.{exactly_in, epoch_in, is_state, state_in, stand_in, stands_in, tail_in};

use super::cursor::{Cursor, ruled};
use super::entries::instant;
use super::rings::after_last;
use crate::DumpFault;
use std::alloc::Global;
use tm_check::Checks;
use tm_marker::{Items, Marker, Switch, Tail};
use tm_ring::Ring;

/// This number, in one byte.
pub(crate) fn exactly(wanted: u8, at: &mut Cursor<'_>) -> Result<u8, DumpFault>
    ensures read { Gives (λ number. (number, at.new)) result (exactly_in wanted at.old) }
    ensures value { IfOk result (λ number. number ≡ wanted) }
{
    let place = at.place();
    let number = at.byte()?;
    ruled(place, number, number == wanted)
}

/// The epoch of the last of so many checkpoints.
fn last_epoch(total: u64, at: &mut Cursor<'_>) -> Result<u64, DumpFault>
    ensures { Gives (λ epoch. (epoch, at.new)) result (epoch_in total at.old) }
{
    let place = at.place();
    let epoch = at.long()?;
    ruled(place, epoch, epoch == total.saturating_sub(1))
}

/// A state is 2 exactly for the running task.
fn is_state(running: u8, task: u8, number: u8) -> bool
    ensures { result ≡ is_state running task number }
{
    number <= 3
        && if running == task {
            number == 2
        } else {
            number != 2
        }
}

fn state_of(running: u8, task: u8, at: &mut Cursor<'_>) -> Result<u8, DumpFault>
    ensures { Gives (λ state. (state, at.new)) result (state_in running task at.old) }
{
    let place = at.place();
    let state = at.byte()?;
    ruled(place, state, is_state(running, task, state))
}

/// The marker and the state of a task with so many checkpoints.
fn stand(running: u8, task: u8, total: u64, at: &mut Cursor<'_>) -> Result<(Marker, u8), DumpFault>
    ensures { Gives (λ stand. (stand, at.new)) result (stand_in running task total at.old) }
{
    let epoch = last_epoch(total, at)?;
    let marker = instant(false, epoch, at)?;
    let state = state_of(running, task, at)?;
    Ok((marker, state))
}

/// Where each task stands.
#[derive(Drop)]
struct Stands {
    at: Items<Marker>,
    state: Items<u8>,
}

/// The markers and the states of all tasks.
fn read_stands(
    alloc: Global,
    running: u8,
    checks: &[Checks],
    at: &mut Cursor<'_>,
) -> Result<Stands, DumpFault>
    requires few { length checks.now ≤ 16 }
    ensures read { Gives (λ stands. ((stands.at, stands.state), at.new)) result (stands_in running 0 checks.now at.old) }
    ensures markers { IfOk result (λ stands. length stands.at ≡ length checks.now) }
    ensures states { IfOk result (λ stands. length stands.state ≡ length checks.now) }
{
    let mut markers = Items::new(alloc);
    let mut states = Items::new(alloc);
    for task in 0..checks.len() {
        let (marker, state) = stand(running, task as u8, checks[task].total(), at)?;
        markers.push(marker)?;
        states.push(state)?;
    }
    Ok(Stands {
        at: markers,
        state: states,
    })
}

/// How the run stands after the last control entry.
pub(crate) fn read_tail(
    alloc: Global,
    control: &Ring<Switch>,
    checks: &[Checks],
    at: &mut Cursor<'_>,
) -> Result<Tail, DumpFault>
    requires few { length checks.now ≤ 16 }
    ensures read { Gives (λ tail. (tail, at.new)) result (tail_in control.now.items checks.now at.old) }
    ensures markers { IfOk result (λ tail. length tail.at ≡ length checks.now) }
    ensures states { IfOk result (λ tail. length tail.state ≡ length checks.now) }
{
    let (runs, ends) = after_last(control);
    let running = exactly(runs, at)?;
    let ended = exactly(ends, at)?;
    let stands = read_stands(alloc, running, checks, at)?;
    Ok(Tail {
        running,
        ended,
        at: stands.at,
        state: stands.state,
    })
}
