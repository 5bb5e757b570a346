//! The checkpoints of a task.

ghost use Rattle.std.specs.Prelude.{◌≡◌, ◌+◌, ◌*◌, ◌<◌, ◌≤◌, length, slice_get, Some, option_map, vec_len, vec_capacity};
ghost use Rattle.std.specs.List.{flat_map};
ghost use Rattle.tm_check.specs.Checkpoint.{Checkpoint, check_of, IsCheckKept, IsChecks};
ghost use Rattle.tm_check.specs.Ref.{ref_of};
ghost use Rattle.tm_dump.specs.Fields.{word_bytes, core_words, checkpoint_bytes};
ghost use Rattle.tm_dump.specs.Dump.{checks_bytes};
ghost use Rattle.tm_dump.specs.Room.{HasRoom, Gains};

use crate::numbers::{put_long, put_word};
use crate::widths::{CHECKPOINT_BYTES, CORE_BYTES, LONG_BYTES, WORD_BYTES};
use tm_check::{CheckRef, Checks};

/// How many places of a body are its pc and its registers.
const CORE: u32 = 32;

/// The pc and the registers of a kept checkpoint.
fn put_core(checks: &Checks, at: &CheckRef, into: &mut Vec<u8>)
    requires kept { IsCheckKept checks.now at.now.epoch }
    requires room { HasRoom into.old CORE_BYTES }
    ensures gains { (c : Checkpoint) → check_of checks.now at.now.epoch ≡ Some c →
        Gains into.old into.new (flat_map word_bytes (core_words c.body)) }
    ensures len { vec_len into.new ≡ vec_len into.old + CORE_BYTES }
    ensures capacity { vec_capacity into.old ≤ vec_capacity into.new }
{
    for place in 0..CORE {
        put_word(checks.read(at, place), into);
    }
}

/// The data words of a kept checkpoint.
fn put_data(checks: &Checks, at: &CheckRef, into: &mut Vec<u8>)
    requires kept { IsCheckKept checks.now at.now.epoch }
    requires sound { IsChecks checks.now }
    requires room { HasRoom into.old (WORD_BYTES * checks.now.words) }
    ensures gains { (c : Checkpoint) → check_of checks.now at.now.epoch ≡ Some c →
        length c.body.words ≡ checks.now.words →
        Gains into.old into.new (flat_map word_bytes c.body.words) }
    ensures len { vec_len into.new ≡ vec_len into.old + WORD_BYTES * checks.now.words }
    ensures capacity { vec_capacity into.old ≤ vec_capacity into.new }
{
    for index in 0..checks.data_words() {
        put_word(checks.read(at, CORE + index), into);
    }
}

/// A kept checkpoint.
#[tactic(auto, using(crate::proofs::Lengths::lengths), unfolding(crate::specs::Fields::checkpoint_bytes))]
fn put_kept(checks: &Checks, at: &CheckRef, into: &mut Vec<u8>)
    requires kept { IsCheckKept checks.now at.now.epoch }
    requires numbers { option_map (ref_of at.now.epoch) (check_of checks.now at.now.epoch) ≡ Some at.now }
    requires sound { IsChecks checks.now }
    requires room { HasRoom into.old (CHECKPOINT_BYTES + WORD_BYTES * checks.now.words) }
    ensures gains { (c : Checkpoint) → check_of checks.now at.now.epoch ≡ Some c →
        length c.body.words ≡ checks.now.words →
        Gains into.old into.new (checkpoint_bytes c) }
    ensures len { vec_len into.new ≡ vec_len into.old + (CHECKPOINT_BYTES + WORD_BYTES * checks.now.words) }
    ensures capacity { vec_capacity into.old ≤ vec_capacity into.new }
{
    put_core(checks, at, into);
    put_long(at.data_no, into);
    put_long(at.control_no, into);
    put_data(checks, at, into);
}

/// The checkpoint at an index, where the oldest kept one has index 0.
fn put_checkpoint(checks: &Checks, index: u32, into: &mut Vec<u8>)
    requires there { index < length checks.now.items }
    requires sound { IsChecks checks.now }
    requires room { HasRoom into.old (CHECKPOINT_BYTES + WORD_BYTES * checks.now.words) }
    ensures gains { (c : Checkpoint) → slice_get checks.now.items index ≡ Some c →
        Gains into.old into.new (checkpoint_bytes c) }
    ensures len { vec_len into.new ≡ vec_len into.old + (CHECKPOINT_BYTES + WORD_BYTES * checks.now.words) }
    ensures capacity { vec_capacity into.old ≤ vec_capacity into.new }
{
    let first = checks.total() - u64::from(checks.len());
    match checks.with_epoch(first + u64::from(index)) {
        Some(at) => put_kept(checks, &at, into),
        None => unreachable!(),
    }
}

/// The kept checkpoints, oldest first.
fn put_checkpoints(checks: &Checks, into: &mut Vec<u8>)
    requires sound { IsChecks checks.now }
    requires room { HasRoom into.old ((CHECKPOINT_BYTES + WORD_BYTES * checks.now.words) * length checks.now.items) }
    ensures gains { Gains into.old into.new (flat_map checkpoint_bytes checks.now.items) }
    ensures len { vec_len into.new ≡ vec_len into.old + (CHECKPOINT_BYTES + WORD_BYTES * checks.now.words) * length checks.now.items }
{
    for index in 0..checks.len() {
        put_checkpoint(checks, index, into);
    }
}

/// How many checkpoints there were, and the kept ones, oldest first.
#[tactic(auto, using(crate::proofs::Lengths::lengths), unfolding(crate::specs::Dump::checks_bytes))]
pub(crate) fn put_checks(checks: &Checks, into: &mut Vec<u8>)
    requires room { HasRoom into.old (LONG_BYTES + (CHECKPOINT_BYTES + WORD_BYTES * checks.now.words) * length checks.now.items) }
    ensures gains { Gains into.old into.new (checks_bytes checks.now) }
    ensures len { vec_len into.new ≡ vec_len into.old + (LONG_BYTES + (CHECKPOINT_BYTES + WORD_BYTES * checks.now.words) * length checks.now.items) }
{
    put_long(checks.total(), into);
    put_checkpoints(checks, into);
}
