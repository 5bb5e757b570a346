//! The one spelling of a tape.

ghost use Rattle.std.specs.Prelude.{◌≡◌, ◌+◌, ◌*◌, ◌≤◌, ◌<◌, ◌-◌, ◌^◌, ◌++◌, length, min, decimal, flat_map, All, IsOk, OnOk, OnErr, vec_len, vec_capacity};
ghost use Rattle.tm_spelling.specs.Lines.{digit, hex8};
ghost use Rattle.tm_image.specs.Plan.{IsSlice};
ghost use Rattle.tm_plant.specs.Room.{HasRoom, Gains};
ghost use Rattle.tm_plant.specs.Tape.{hex4, port_text, slice_line, tape_text};

use itoa::Buffer;
use std::alloc::AllocError;
use tm_marker::Slice;

/// How many bytes the header of a tape has.
const HEADER_BYTES: usize = 9;

/// How many bytes the line of a slice has at most.
const LINE_BYTES: usize = 65;

/// Appends the text of the plan of these slices in its one spelling: `tmplan 1`, and for each slice `slice`, its
/// length in decimal, its mask as `0x` and four digits and each of its ports as `0x` and eight digits, lower case,
/// each line ended by LF. It succeeds where `into` has room for 9 plus 65 times the number of slices more bytes.
/// On want of memory `into` is as before.
#[tactic(auto, unfolding(crate::specs::Tape::tape_text))]
pub fn plan_text(slices: &[Slice], into: &mut Vec<u8>) -> Result<(), AllocError>
    requires { All IsSlice slices.now }
    ensures ok { OnOk result (into.new.items ≡ into.old.items ++ tape_text slices.now) }
    ensures err { OnErr result (into.new.items ≡ into.old.items) }
    ensures room { HasRoom into.old (9 + 65 * length slices.now) → IsOk result }
{
    into.reserve(room_for(slices.len()))?;
    put(b"tmplan 1\n", into);
    put_slices(slices, into);
    Ok(())
}

/// How many bytes the text of so many slices has at most, or more than there can be.
fn room_for(slices: usize) -> usize
    ensures { result ≡ min (9 + 65 * slices) (2 ^ 64 - 1) }
{
    slices
        .saturating_mul(LINE_BYTES)
        .saturating_add(HEADER_BYTES)
}

fn put_slices(slices: &[Slice], into: &mut Vec<u8>)
    requires sound { All IsSlice slices.now }
    requires room { HasRoom into.old (65 * length slices.now) }
    ensures { into.new.items ≡ into.old.items ++ flat_map slice_line slices.now }
{
    for slice in slices {
        put_slice(slice, into);
    }
}

/// The line of a slice.
#[tactic(auto, unfolding(crate::specs::Tape::slice_line))]
fn put_slice(slice: &Slice, into: &mut Vec<u8>)
    requires sound { IsSlice slice.now }
    requires room { HasRoom into.old 65 }
    ensures items { into.new.items ≡ into.old.items ++ slice_line slice.now }
    ensures len { vec_len into.new ≤ vec_len into.old + 65 }
    ensures capacity { vec_capacity into.old ≤ vec_capacity into.new }
{
    put(b"slice ", into);
    put_length(slice.length, into);
    put(b" 0x", into);
    put_hex4(slice.mask, into);
    put_ports(&slice.ports, into);
    put(b"\n", into);
}

/// A length in decimal, of at most seven digits.
#[tactic(auto, using(crate::proofs::Spelled::short_length))]
fn put_length(number: u32, into: &mut Vec<u8>)
    requires short { number ≤ 1048576 }
    requires room { HasRoom into.old 7 }
    ensures gains { Gains into.old into.new (decimal number) }
    ensures short { length (decimal number) ≤ 7 }
{
    let mut buffer = Buffer::new();
    put(buffer.format(number).as_bytes(), into);
}

/// The port words.
fn put_ports(ports: &[u32], into: &mut Vec<u8>)
    requires room { HasRoom into.old (11 * length ports.now) }
    ensures items { into.new.items ≡ into.old.items ++ flat_map port_text ports.now }
    ensures len { vec_len into.new ≡ vec_len into.old + 11 * length ports.now }
    ensures capacity { vec_capacity into.old ≤ vec_capacity into.new }
{
    for &word in ports {
        put_port(word, into);
    }
}

fn digit_of(number: u32) -> u8
    requires { number < 16 }
    ensures { result ≡ digit number }
{
    if number < 10 {
        b'0' + number as u8
    } else {
        b'a' - 10 + number as u8
    }
}

/// The lowest 16 bits of a number in four digits.
#[tactic(auto, unfolding(crate::specs::Tape::hex4))]
fn put_hex4(number: u32, into: &mut Vec<u8>)
    requires { HasRoom into.old 4 }
    ensures gains { Gains into.old into.new (hex4 number) }
    ensures long { length (hex4 number) ≡ 4 }
{
    let digits = [
        digit_of(number / 0x1000 % 16),
        digit_of(number / 0x100 % 16),
        digit_of(number / 0x10 % 16),
        digit_of(number % 16),
    ];
    put(&digits, into);
}

#[tactic(auto, unfolding(tm_spelling::specs::Lines::hex8))]
fn put_hex8(number: u32, into: &mut Vec<u8>)
    requires { HasRoom into.old 8 }
    ensures { Gains into.old into.new (hex8 number) }
{
    let digits = [
        digit_of(number / 0x1000_0000 % 16),
        digit_of(number / 0x100_0000 % 16),
        digit_of(number / 0x10_0000 % 16),
        digit_of(number / 0x1_0000 % 16),
        digit_of(number / 0x1000 % 16),
        digit_of(number / 0x100 % 16),
        digit_of(number / 0x10 % 16),
        digit_of(number % 16),
    ];
    put(&digits, into);
}

/// A port word.
#[tactic(auto, unfolding(tm_spelling::specs::Lines::hex8))]
fn put_port(word: u32, into: &mut Vec<u8>)
    requires { HasRoom into.old 11 }
    ensures gains { Gains into.old into.new (port_text word) }
    ensures long { length (port_text word) ≡ 11 }
{
    put(b" 0x", into);
    put_hex8(word, into);
}

fn put(bytes: &[u8], into: &mut Vec<u8>)
    requires room { HasRoom into.old (length bytes.now) }
    ensures { Gains into.old into.new bytes.now }
{
    match into.extend_from_slice(bytes) {
        Ok(()) => (),
        Err(_) => unreachable!(),
    }
}
