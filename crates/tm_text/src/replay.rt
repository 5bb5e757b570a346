//! The whole text of a replay.

ghost use Rattle.std.specs.Prelude.{◌≡◌, ◌++◌, ◌+◌, ◌==◌, ◌≤◌, length, find, map, flat_map, option_map, option_copied, All, OnOk, OnErr};
ghost use Rattle.tm_log.specs.Points.{entries_from};
ghost use Rattle.tm_ring.specs.Kept.{first_of};
ghost use Rattle.tm_spelling.specs.Story.{start_view_text, block_text, spelled};
ghost use Rattle.tm_spelling.specs.Tracks.{blocks_by, leave_by};
ghost use Rattle.tm_text.specs.Prefix.{Keeps};
ghost use Rattle.tm_text.specs.Views.{view_of, leave_of, track_view, replay_story};
ghost use Rattle.tm_text.specs.Written.{AreWritten};

use crate::lines::put_start_line;
use crate::write::{put_block, put_end, put_start_view};
use crate::{Replay, Stop, Track};
use std::alloc::AllocError;
use tm_log::Window;
use tm_marker::Switch;
use tm_ring::Ring;

/// How many tasks a window has at most.
pub const TASKS: usize = 16;

/// Appends the text of a replay of a window: its start, each control entry after the point, and its
/// end. A stop stands with the control entry of its number; an entry whose task has no stop of that
/// number is printed alone. On want of memory the text is as before.
pub fn write_replay(replay: &Replay, window: &Window, into: &mut Vec<u8>) -> Result<(), AllocError>
    requires kept { first_of window.now.control ≤ replay.now.from }
    requires tasks { length replay.now.tracks ≡ length window.now.shape.words }
    requires ending { window.now.tail.ended ≤ 2 }
    requires named { All (λ state. state ≤ 3) window.now.tail.state }
    ensures ok { OnOk result (into.new.items ≡ into.old.items ++ spelled (replay_story replay.now window.now)) }
    ensures err { OnErr result (into.new.items ≡ into.old.items) }
{
    let length = into.len();
    let written = put_replay(replay, window, into);
    if written.is_err() {
        into.truncate(length);
    }
    written
}

fn put_replay(replay: &Replay, window: &Window, into: &mut Vec<u8>) -> Result<(), AllocError>
    requires kept { first_of window.now.control ≤ replay.now.from }
    requires tasks { length replay.now.tracks ≡ length window.now.shape.words }
    ensures ok { OnOk result (into.new.items ≡ into.old.items ++ spelled (replay_story replay.now window.now)) }
    ensures keeps { Keeps into.old.items into.new.items }
{
    window.attest();
    let tracks = replay.tracks.as_slice();
    put_start_line(replay.from, replay.running, into)?;
    put_starts(tracks, into)?;
    put_blocks(replay.from, tracks, window.control(), into)?;
    put_end(window.tail(), tracks, into)?;
    Ok(())
}

/// How each task stands at the start.
fn put_starts(tracks: &[Track], into: &mut Vec<u8>) -> Result<(), AllocError>
    ensures ok { OnOk result (into.new.items ≡ into.old.items ++
        flat_map start_view_text (map (λ track. view_of track.start) tracks.now)) }
    ensures keeps { Keeps into.old.items into.new.items }
{
    for track in tracks {
        put_start_view(&track.start, into)?;
    }
    Ok(())
}

/// The control entries from a number on, each with the stop of the task that it comes from.
fn put_blocks(
    from: u64,
    tracks: &[Track],
    control: &Ring<Switch>,
    into: &mut Vec<u8>,
) -> Result<(), AllocError>
    requires kept { first_of control.now ≤ from }
    requires few { length tracks.now ≤ 16 }
    ensures ok { OnOk result (into.new.items ≡ into.old.items ++
        flat_map block_text (blocks_by (map track_view tracks.now) (from + 1) (entries_from control.now from))) }
    ensures keeps { Keeps into.old.items into.new.items }
{
    let mut places = [0; TASKS];
    for number in from..control.total() {
        let Some(entry) = control.get(number) else {
            unreachable!();
        };
        let stop = stop_of(tracks, &mut places, number + 1, entry);
        put_block(number + 1, entry, stop, into)?;
    }
    Ok(())
}

/// The stop of a number of the task that a control entry comes from, where it has one. Of each task as
/// many stops as its place are of lesser numbers, so that the wanted one is mostly at that place; where
/// it isn't, all are looked through. The places begin at 0, and the numbers rise from call to call.
pub fn stop_of<'a>(
    tracks: &'a [Track],
    places: &mut [usize; TASKS],
    seq: u64,
    entry: &Switch,
) -> Option<&'a Stop>
    requires few { length tracks.now ≤ 16 }
    requires written { AreWritten tracks.now places.old seq }
    ensures stop { option_map leave_of (option_copied result) ≡ leave_by (map track_view tracks.now) seq entry.now }
    ensures written { AreWritten tracks.now places.new (seq + 1) }
{
    let from = usize::from(entry.from);
    if from >= tracks.len() {
        return None;
    }
    let stops = tracks[from].stops.as_slice();
    let place = places[from];
    if place < stops.len() {
        let stop = &stops[place];
        if stop.seq == seq {
            places[from] = place + 1;
            return Some(stop);
        }
    }
    find_stop(stops, seq)
}

/// The first stop of a number.
fn find_stop(stops: &[Stop], seq: u64) -> Option<&Stop>
    ensures { option_copied result ≡ find (λ stop. stop.seq == seq) stops.now }
{
    stops.iter().find(|stop| stop.seq == seq)
}
