//! All of a dump before its closing digest.

ghost use Rattle.std.specs.Prelude.{◌≡◌, ◌+◌, ◌*◌, ◌≤◌, length, vec_len};
ghost use Rattle.std.specs.List.{flat_map, zip};
ghost use Rattle.tm_marker.specs.Shape.{IsShape};
ghost use Rattle.tm_dump.specs.Dump.{head_bytes, task_bytes, stand_bytes, tail_bytes, body_bytes};
ghost use Rattle.tm_dump.specs.Room.{HasRoom, Gains, task_room, tasks_room, dump_room};

use crate::checkpoints::put_checks;
use crate::fields::put_marker;
use crate::numbers::{put, put_byte};
use crate::rings::{put_control, put_log, put_outputs};
use crate::widths::{DIGEST_BYTES, ENDS_BYTES, HEAD_BYTES, STAND_BYTES};
use tm_check::Checks;
use tm_log::Window;
use tm_marker::{DataEntry, Marker, Shape, Tail};
use tm_ring::Ring;

/// The magic number and the version.
pub(crate) const MAGIC: [u8; 5] = [0x54, 0x4d, 0x44, 0x50, 1];

#[tactic(auto, using(crate::proofs::Lengths::lengths), unfolding(crate::specs::Dump::head_bytes))]
fn put_head(shape: &Shape, into: &mut Vec<u8>)
    requires shape { IsShape shape.now }
    requires room { HasRoom into.old HEAD_BYTES }
    ensures gains { Gains into.old into.new (head_bytes shape.now) }
    ensures len { vec_len into.new ≡ vec_len into.old + HEAD_BYTES }
{
    put(&MAGIC, into);
    put(&shape.image, into);
    put_byte(shape.words.len() as u8, into);
}

#[tactic(auto, using(crate::proofs::Lengths::lengths), unfolding(crate::specs::Dump::task_bytes))]
fn put_task(log: &Ring<DataEntry>, checks: &Checks, into: &mut Vec<u8>)
    requires room { HasRoom into.old (task_room (log.now, checks.now)) }
    ensures gains { Gains into.old into.new (task_bytes (log.now, checks.now)) }
    ensures len { vec_len into.new ≤ vec_len into.old + task_room (log.now, checks.now) }
{
    put_log(log, into);
    put_checks(checks, into);
}

/// Each task's data entries and checkpoints.
fn put_tasks(window: &Window, into: &mut Vec<u8>)
    requires room { HasRoom into.old (tasks_room window.now) }
    ensures gains { Gains into.old into.new (flat_map task_bytes (zip window.now.logs window.now.checks)) }
    ensures len { vec_len into.new ≤ vec_len into.old + tasks_room window.now }
{
    for task in 0..window.tasks() {
        put_task(window.log(task), window.checks(task), into);
    }
}

#[tactic(auto, using(crate::proofs::Lengths::lengths), unfolding(crate::specs::Dump::stand_bytes))]
fn put_stand(at: Marker, state: u8, into: &mut Vec<u8>)
    requires room { HasRoom into.old STAND_BYTES }
    ensures gains { Gains into.old into.new (stand_bytes (at, state)) }
    ensures len { vec_len into.new ≡ vec_len into.old + STAND_BYTES }
{
    put_marker(at, into);
    put_byte(state, into);
}

/// Each task's marker and state.
fn put_stands(tail: &Tail, into: &mut Vec<u8>)
    requires tasks { length tail.now.at ≡ length tail.now.state }
    requires room { HasRoom into.old (STAND_BYTES * length tail.now.at) }
    ensures gains { Gains into.old into.new (flat_map stand_bytes (zip tail.now.at tail.now.state)) }
    ensures len { vec_len into.new ≡ vec_len into.old + STAND_BYTES * length tail.now.at }
{
    for task in 0..tail.at.len() {
        put_stand(tail.at.at(task), tail.state.at(task), into);
    }
}

/// How the run stands at its last moment.
#[tactic(auto, using(crate::proofs::Lengths::lengths), unfolding(crate::specs::Dump::tail_bytes))]
fn put_tail(tail: &Tail, into: &mut Vec<u8>)
    requires tasks { length tail.now.at ≡ length tail.now.state }
    requires room { HasRoom into.old (ENDS_BYTES + STAND_BYTES * length tail.now.at) }
    ensures gains { Gains into.old into.new (tail_bytes tail.now) }
    ensures len { vec_len into.new ≡ vec_len into.old + (ENDS_BYTES + STAND_BYTES * length tail.now.at) }
{
    put(&[tail.running, tail.ended], into);
    put_stands(tail, into);
}

/// All of the window's dump before the closing digest.
#[tactic(auto, using(crate::proofs::Lengths::lengths), unfolding(crate::specs::Dump::body_bytes))]
pub(crate) fn put_body(window: &Window, into: &mut Vec<u8>)
    requires room { HasRoom into.old (dump_room window.now) }
    ensures gains { Gains into.old into.new (body_bytes window.now) }
    ensures len { vec_len into.new + DIGEST_BYTES ≤ vec_len into.old + dump_room window.now }
{
    put_head(window.shape(), into);
    put_control(window.control(), into);
    put_outputs(window.outputs(), into);
    put_tasks(window, into);
    put_tail(window.tail(), into);
}
