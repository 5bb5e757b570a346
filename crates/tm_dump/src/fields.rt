//! One value of a dump at a time.

ghost use Rattle.std.specs.Prelude.{◌≡◌, ◌*◌, length};
ghost use Rattle.std.specs.List.{flat_map};
ghost use Rattle.tm_dump.specs.Fields.{word_bytes, marker_bytes, kind_number, switch_bytes, output_bytes, entry_bytes};
ghost use Rattle.tm_dump.specs.Room.{HasRoom, Gains};

use crate::numbers::{put, put_byte, put_long, put_word};
use crate::widths::{ENTRY_BYTES, MARKER_BYTES, OUTPUT_BYTES, SWITCH_BYTES};
use tm_marker::{DataEntry, Kind, Marker, OutputEntry, Switch};

#[tactic(auto, using(crate::proofs::Lengths::lengths), unfolding(crate::specs::Fields::marker_bytes))]
pub(crate) fn put_marker(at: Marker, into: &mut Vec<u8>)
    requires room { HasRoom into.old MARKER_BYTES }
    ensures { Gains into.old into.new (marker_bytes at) }
{
    put_long(at.epoch, into);
    put_word(at.count, into);
    put_word(at.pc, into);
}

fn number_of(kind: Kind) -> u8
    ensures { result ≡ kind_number kind }
{
    match kind {
        Kind::Preempted => 0,
        Kind::Waits => 1,
        Kind::Ends => 2,
        Kind::Fault => 3,
        Kind::Shutdown => 4,
        Kind::Idle => 5,
    }
}

#[tactic(auto, using(crate::proofs::Lengths::lengths), unfolding(crate::specs::Fields::switch_bytes))]
pub(crate) fn put_switch(entry: Switch, into: &mut Vec<u8>)
    requires room { HasRoom into.old SWITCH_BYTES }
    ensures { Gains into.old into.new (switch_bytes entry) }
{
    put(&[entry.from, number_of(entry.kind)], into);
    put_marker(entry.from_at, into);
    put_byte(entry.to, into);
    put_marker(entry.to_at, into);
}

#[tactic(auto, using(crate::proofs::Lengths::lengths), unfolding(crate::specs::Fields::output_bytes))]
pub(crate) fn put_output(entry: OutputEntry, into: &mut Vec<u8>)
    requires room { HasRoom into.old OUTPUT_BYTES }
    ensures { Gains into.old into.new (output_bytes entry) }
{
    put(&[entry.task, entry.port], into);
    put_word(entry.value, into);
}

/// Words in their order.
fn put_words(words: &[u32], into: &mut Vec<u8>)
    requires room { HasRoom into.old (length (flat_map word_bytes words.now)) }
    ensures { Gains into.old into.new (flat_map word_bytes words.now) }
{
    for &word in words {
        put_word(word, into);
    }
}

#[tactic(auto, using(crate::proofs::Lengths::lengths), unfolding(crate::specs::Fields::entry_bytes))]
pub(crate) fn put_entry(entry: DataEntry, into: &mut Vec<u8>)
    requires room { HasRoom into.old ENTRY_BYTES }
    ensures { Gains into.old into.new (entry_bytes entry) }
{
    put_byte(entry.service, into);
    put_word(entry.status, into);
    put_words(&entry.words, into);
}
