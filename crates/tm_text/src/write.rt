//! The blocks of a printed text: its start, each control entry, its end.

ghost use Rattle.std.specs.Prelude.{◌≡◌, ◌↔◌, ◌++◌, ◌≤◌, length, map, flat_map, option_copied, All, IsNone, OnOk, OnErr};
ghost use Rattle.tm_marker.specs.declared.tail.TheConstants.{NOBODY};
ghost use Rattle.tm_spelling.specs.Story.{
  start_view_text,
  start_text,
  leave_text,
  block_text,
  last_text,
  end_text,
};
ghost use Rattle.tm_text.specs.Prefix.{Keeps};
ghost use Rattle.tm_text.specs.Views.{view_of, leave_of, block_of, last_of, lasts_of};

use crate::lines::{
    put_at_line, put_cause_line, put_end_line, put_start_line, put_state_line, put_switch_line,
    put_task_line,
};
use crate::values::{put_out_lines, put_values};
use crate::{Seen, Stop, Track};
use std::alloc::AllocError;
use tm_marker::{Switch, Tail};

/// Appends the block of the start: the point `from` that the text begins from, who runs there or
/// [`tm_marker::NOBODY`], and each task as it stands there. On want of memory the text is as
/// before.
pub fn write_start(
    from: u64,
    running: u8,
    seen: &[Seen],
    into: &mut Vec<u8>,
) -> Result<(), AllocError>
    ensures ok { OnOk result (into.new.items ≡ into.old.items ++
        start_text from running (map view_of seen.now)) }
    ensures err { OnErr result (into.new.items ≡ into.old.items) }
{
    let length = into.len();
    let written = put_start(from, running, seen, into);
    if written.is_err() {
        into.truncate(length);
    }
    written
}

/// Appends the block of a control entry, which is number `seq` from 1, and how the task that it
/// comes from left: no stop is given where it comes from nobody. On want of memory the text is as
/// before.
pub fn write_stop(
    seq: u64,
    switch: &Switch,
    stop: Option<&Stop>,
    into: &mut Vec<u8>,
) -> Result<(), AllocError>
    requires { IsNone stop ↔ (switch.now.from ≡ NOBODY) }
    ensures ok { OnOk result (into.new.items ≡ into.old.items ++
        block_text (block_of seq switch.now (option_copied stop.entry))) }
    ensures err { OnErr result (into.new.items ≡ into.old.items) }
{
    let length = into.len();
    let written = put_block(seq, switch, stop, into);
    if written.is_err() {
        into.truncate(length);
    }
    written
}

/// Appends the block of the end: who runs there, how the run stands, and each task with its
/// state, in the order of the tracks. The outputs of the running task alone are printed. On want of
/// memory the text is as before.
pub fn write_end(tail: &Tail, tracks: &[Track], into: &mut Vec<u8>) -> Result<(), AllocError>
    requires markers { length tail.now.at ≡ length tracks.now }
    requires states { length tail.now.state ≡ length tracks.now }
    requires ending { tail.now.ended ≤ 2 }
    requires named { All (λ state. state ≤ 3) tail.now.state }
    ensures ok { OnOk result (into.new.items ≡ into.old.items ++
        end_text tail.now.running tail.now.ended
        (lasts_of tail.now.running tracks.now tail.now.state)) }
    ensures err { OnErr result (into.new.items ≡ into.old.items) }
{
    let length = into.len();
    let written = put_end(tail, tracks, into);
    if written.is_err() {
        into.truncate(length);
    }
    written
}

fn put_start(from: u64, running: u8, seen: &[Seen], into: &mut Vec<u8>) -> Result<(), AllocError>
    ensures ok { OnOk result (into.new.items ≡ into.old.items ++
        start_text from running (map view_of seen.now)) }
    ensures keeps { Keeps into.old.items into.new.items }
{
    put_start_line(from, running, into)?;
    put_start_views(seen, into)
}

fn put_start_views(seen: &[Seen], into: &mut Vec<u8>) -> Result<(), AllocError>
    ensures ok { OnOk result (into.new.items ≡ into.old.items ++
        flat_map start_view_text (map view_of seen.now)) }
    ensures keeps { Keeps into.old.items into.new.items }
{
    for task in seen {
        put_start_view(task, into)?;
    }
    Ok(())
}

pub fn put_start_view(seen: &Seen, into: &mut Vec<u8>) -> Result<(), AllocError>
    ensures ok { OnOk result (into.new.items ≡ into.old.items ++
        start_view_text (view_of seen.now)) }
    ensures keeps { Keeps into.old.items into.new.items }
{
    put_task_line(seen.task, seen.at, into)?;
    put_values(seen, into)
}

pub fn put_block(
    seq: u64,
    switch: &Switch,
    stop: Option<&Stop>,
    into: &mut Vec<u8>,
) -> Result<(), AllocError>
    ensures ok { OnOk result (into.new.items ≡ into.old.items ++
        block_text (block_of seq switch.now (option_copied stop.entry))) }
    ensures keeps { Keeps into.old.items into.new.items }
{
    put_switch_line(seq, switch, into)?;
    match stop {
        Some(stop) => put_leave(stop, into),
        None => Ok(()),
    }
}

fn put_leave(stop: &Stop, into: &mut Vec<u8>) -> Result<(), AllocError>
    ensures ok { OnOk result (into.new.items ≡ into.old.items ++
        leave_text (Some (leave_of stop.now))) }
    ensures keeps { Keeps into.old.items into.new.items }
{
    put_at_line(stop.seen.at, into)?;
    if stop.cause != 0 {
        put_cause_line(stop.cause, into)?;
    }
    put_values(&stop.seen, into)?;
    put_out_lines(stop.outputs.as_slice(), into)
}

pub fn put_end(tail: &Tail, tracks: &[Track], into: &mut Vec<u8>) -> Result<(), AllocError>
    requires { length tail.now.state ≡ length tracks.now }
    ensures ok { OnOk result (into.new.items ≡ into.old.items ++
        end_text tail.now.running tail.now.ended
        (lasts_of tail.now.running tracks.now tail.now.state)) }
    ensures keeps { Keeps into.old.items into.new.items }
{
    put_end_line(tail.running, tail.ended, into)?;
    put_lasts(tail.running, tracks, tail.state.as_slice(), into)
}

fn put_lasts(
    running: u8,
    tracks: &[Track],
    states: &[u8],
    into: &mut Vec<u8>,
) -> Result<(), AllocError>
    requires { length states.now ≡ length tracks.now }
    ensures ok { OnOk result (into.new.items ≡ into.old.items ++
        flat_map last_text (lasts_of running tracks.now states.now)) }
    ensures keeps { Keeps into.old.items into.new.items }
{
    for (index, track) in tracks.iter().enumerate() {
        put_last(running, track, states[index], into)?;
    }
    Ok(())
}

fn put_last(running: u8, track: &Track, state: u8, into: &mut Vec<u8>) -> Result<(), AllocError>
    ensures ok { OnOk result (into.new.items ≡ into.old.items ++
        last_text (last_of running track.now state)) }
    ensures keeps { Keeps into.old.items into.new.items }
{
    let last = &track.last;
    put_state_line(last.task, state, last.at, into)?;
    put_values(last, into)?;
    if last.task == running {
        put_out_lines(track.outputs.as_slice(), into)?;
    }
    Ok(())
}
