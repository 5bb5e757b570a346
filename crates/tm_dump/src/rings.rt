//! The rings of a window: how many items there were, and the kept ones, oldest first.

ghost use Rattle.std.specs.Prelude.{◌≡◌, ◌+◌, ◌*◌, ◌<◌, ◌≤◌, length, slice_get, Some, vec_len};
ghost use Rattle.std.specs.List.{flat_map};
ghost use Rattle.tm_dump.specs.Fields.{switch_bytes, output_bytes, entry_bytes};
ghost use Rattle.tm_dump.specs.Dump.{control_bytes, outputs_bytes, log_bytes};
ghost use Rattle.tm_dump.specs.Room.{HasRoom, Gains};

use crate::fields::{put_entry, put_output, put_switch};
use crate::numbers::put_long;
use crate::widths::{ENTRY_BYTES, LONG_BYTES, OUTPUT_BYTES, SWITCH_BYTES};
use tm_marker::{DataEntry, OutputEntry, Switch};
use tm_ring::Ring;

/// The item at an index, where the oldest kept one has index 0.
pub(crate) fn kept<T: Copy>(ring: &Ring<T>, index: u32) -> T
    requires { index < length ring.now.items }
    ensures { slice_get ring.now.items index ≡ Some result }
{
    let first = ring.total() - u64::from(ring.len());
    match ring.get(first + u64::from(index)) {
        Some(item) => *item,
        None => unreachable!(),
    }
}

fn put_switches(ring: &Ring<Switch>, into: &mut Vec<u8>)
    requires room { HasRoom into.old (SWITCH_BYTES * length ring.now.items) }
    ensures gains { Gains into.old into.new (flat_map switch_bytes ring.now.items) }
    ensures len { vec_len into.new ≤ vec_len into.old + SWITCH_BYTES * length ring.now.items }
{
    for index in 0..ring.len() {
        put_switch(kept(ring, index), into);
    }
}

fn put_output_entries(ring: &Ring<OutputEntry>, into: &mut Vec<u8>)
    requires room { HasRoom into.old (OUTPUT_BYTES * length ring.now.items) }
    ensures gains { Gains into.old into.new (flat_map output_bytes ring.now.items) }
    ensures len { vec_len into.new ≤ vec_len into.old + OUTPUT_BYTES * length ring.now.items }
{
    for index in 0..ring.len() {
        put_output(kept(ring, index), into);
    }
}

fn put_data_entries(ring: &Ring<DataEntry>, into: &mut Vec<u8>)
    requires room { HasRoom into.old (ENTRY_BYTES * length ring.now.items) }
    ensures gains { Gains into.old into.new (flat_map entry_bytes ring.now.items) }
    ensures len { vec_len into.new ≤ vec_len into.old + ENTRY_BYTES * length ring.now.items }
{
    for index in 0..ring.len() {
        put_entry(kept(ring, index), into);
    }
}

/// The control entries.
#[tactic(auto, using(crate::proofs::Lengths::lengths), unfolding(crate::specs::Dump::control_bytes))]
pub(crate) fn put_control(ring: &Ring<Switch>, into: &mut Vec<u8>)
    requires room { HasRoom into.old (LONG_BYTES + SWITCH_BYTES * length ring.now.items) }
    ensures gains { Gains into.old into.new (control_bytes ring.now) }
    ensures len { vec_len into.new ≤ vec_len into.old + (LONG_BYTES + SWITCH_BYTES * length ring.now.items) }
{
    put_long(ring.total(), into);
    put_switches(ring, into);
}

/// The outputs.
#[tactic(auto, using(crate::proofs::Lengths::lengths), unfolding(crate::specs::Dump::outputs_bytes))]
pub(crate) fn put_outputs(ring: &Ring<OutputEntry>, into: &mut Vec<u8>)
    requires room { HasRoom into.old (LONG_BYTES + OUTPUT_BYTES * length ring.now.items) }
    ensures gains { Gains into.old into.new (outputs_bytes ring.now) }
    ensures len { vec_len into.new ≤ vec_len into.old + (LONG_BYTES + OUTPUT_BYTES * length ring.now.items) }
{
    put_long(ring.total(), into);
    put_output_entries(ring, into);
}

/// The data entries of a task.
#[tactic(auto, using(crate::proofs::Lengths::lengths), unfolding(crate::specs::Dump::log_bytes))]
pub(crate) fn put_log(ring: &Ring<DataEntry>, into: &mut Vec<u8>)
    requires room { HasRoom into.old (LONG_BYTES + ENTRY_BYTES * length ring.now.items) }
    ensures gains { Gains into.old into.new (log_bytes ring.now) }
    ensures len { vec_len into.new ≤ vec_len into.old + (LONG_BYTES + ENTRY_BYTES * length ring.now.items) }
{
    put_long(ring.total(), into);
    put_data_entries(ring, into);
}
