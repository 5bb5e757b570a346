//! The outputs of a replay, held to those that the window has.

ghost use Rattle.std.specs.Prelude.{◌≡◌, ◌+◌, ◌*◌, ◌^◌, ◌<◌, ◌≤◌, length, map, option_copied};
ghost use Rattle.tm_log.specs.Points.{entries_from};
ghost use Rattle.tm_ring.specs.Kept.{first_of};
ghost use Rattle.tm_spelling.specs.Tracks.{blocks_by};
ghost use Rattle.tm_system.specs.Replaying.{shown_with, shown_under, shown_in, output_eq, other_output};
ghost use Rattle.tm_text.specs.Views.{view_of, track_view, replay_story};
ghost use Rattle.tm_replay.specs.Comparing.{logged_at, others_from, shown_ends};

use tm_log::Window;
use tm_marker::{OutputEntry, Switch};
use tm_ring::Ring;
use tm_system::{Diverged, Why};
use tm_text::{Replay, Seen, TASKS, Track, stop_of};

/// The oldest output of a replay that is not the one that the window has in its place, among the last
/// ones, as many as there are of both; none where they agree. It takes no memory.
pub fn other_output(replay: &Replay, window: &Window) -> Option<Diverged>
    requires kept { first_of window.now.control ≤ replay.now.from }
    requires tasks { length replay.now.tracks ≡ length window.now.shape.words }
    ensures { result ≡ other_output (shown_in (window.now.control.total + 1) (replay_story replay.now window.now)) window.now.outputs.items }
{
    let _tasks = window.tasks();
    let tracks = replay.tracks.as_slice();
    let control = window.control();
    let logged = window.outputs();
    let _logged = logged.total();
    let running = window.tail().running;
    let end = control.total() + 1;
    let last = made_last(end, tracks, running);
    let left = made_under(replay.from, tracks, control) + last;
    if let Some(other) = other_under(replay.from, tracks, control, logged, left) {
        return Some(other);
    }
    other_last(end, tracks, running, logged, last)
}

/// How many outputs are shown under the control entries from a number on. 128 bits hold it, however many
/// each stop has.
fn made_under(from: u64, tracks: &[Track], control: &Ring<Switch>) -> u128
    requires kept { first_of control.now ≤ from }
    requires few { length tracks.now ≤ 16 }
    ensures made { result ≡ length (shown_under (blocks_by (map track_view tracks.now) (from + 1) (entries_from control.now from))) }
    ensures few { result ≤ 2 ^ 53 * 2 ^ 64 }
{
    let mut places = [0; TASKS];
    let mut made = 0;
    for number in from..control.total() {
        let Some(entry) = control.get(number) else {
            unreachable!();
        };
        if let Some(stop) = stop_of(tracks, &mut places, number + 1, entry) {
            made += stop.outputs.len() as u128;
        }
    }
    made
}

/// How many are shown at the end.
fn made_last(seq: u64, tracks: &[Track], running: u8) -> u128
    requires few { length tracks.now ≤ 16 }
    ensures made { result ≡ length (shown_ends seq running tracks.now) }
    ensures few { result ≤ 16 * 2 ^ 64 }
{
    let mut made = 0;
    for track in tracks {
        if track.last.task == running {
            made += track.outputs.len() as u128;
        }
    }
    made
}

/// The oldest difference under the control entries from a number on, of which the first output is `left`
/// from the end.
fn other_under(
    from: u64,
    tracks: &[Track],
    control: &Ring<Switch>,
    logged: &Ring<OutputEntry>,
    mut left: u128,
) -> Option<Diverged>
    requires kept { first_of control.now ≤ from }
    requires few { length tracks.now ≤ 16 }
    requires made { length (shown_under (blocks_by (map track_view tracks.now) (from + 1) (entries_from control.now from))) ≤ left }
    ensures { result ≡ others_from logged.now left (shown_under (blocks_by (map track_view tracks.now) (from + 1) (entries_from control.now from))) }
{
    let mut places = [0; TASKS];
    for number in from..control.total() {
        let Some(entry) = control.get(number) else {
            unreachable!();
        };
        if let Some(stop) = stop_of(tracks, &mut places, number + 1, entry) {
            let outputs = stop.outputs.as_slice();
            if let Some(other) = other_with(number + 1, &stop.seen, outputs, logged, left) {
                return Some(other);
            }
            left -= outputs.len() as u128;
        }
    }
    None
}

/// The oldest difference at the end, of which the first output is `left` from the end.
fn other_last(
    seq: u64,
    tracks: &[Track],
    running: u8,
    logged: &Ring<OutputEntry>,
    mut left: u128,
) -> Option<Diverged>
    requires { length (shown_ends seq running tracks.now) ≤ left }
    ensures { result ≡ others_from logged.now left (shown_ends seq running tracks.now) }
{
    for track in tracks {
        if track.last.task == running {
            let outputs = track.outputs.as_slice();
            if let Some(other) = other_with(seq, &track.last, outputs, logged, left) {
                return Some(other);
            }
            left -= outputs.len() as u128;
        }
    }
    None
}

/// The oldest difference of outputs that are shown with a task, of which the first is `left` from the end.
fn other_with(
    seq: u64,
    seen: &Seen,
    outputs: &[OutputEntry],
    logged: &Ring<OutputEntry>,
    left: u128,
) -> Option<Diverged>
    requires { length outputs.now ≤ left }
    ensures { result ≡ others_from logged.now left (shown_with seq (view_of seen.now) outputs.now) }
{
    for (index, made) in outputs.iter().enumerate() {
        if let Some(kept) = logged_at(logged, left - index as u128) {
            if !output_eq(kept, made) {
                return Some(Diverged {
                    seq,
                    task: seen.task,
                    reached: seen.at,
                    wanted: seen.at,
                    why: Why::OtherOutput {
                        logged: *kept,
                        made: *made,
                    },
                });
            }
        }
    }
    None
}

/// The logged output in the place of the one that is `left` from the end, where it is kept.
fn logged_at(logged: &Ring<OutputEntry>, left: u128) -> Option<&OutputEntry>
    ensures { option_copied result ≡ logged_at logged.now left }
{
    let total = logged.total();
    if left > total as u128 {
        return None;
    }
    logged.get(total - left as u64)
}

/// Whether two outputs are of one task, at one port and with one value.
fn output_eq(a: &OutputEntry, b: &OutputEntry) -> bool
    ensures { result ≡ output_eq a.now b.now }
{
    a.task == b.task && a.port == b.port && a.value == b.value
}
