//! The words of which the printed lines are made.

ghost use Rattle.std.specs.Prelude.{◌≡◌, ◌++◌, ◌<◌, decimal, OnOk};
ghost use Rattle.tm_spelling.specs.Lines.{digit, hex8, who, marker_text, kind_name, state_name, ending_name};
ghost use Rattle.tm_text.specs.Prefix.{Keeps};

use itoa::Buffer;
use std::alloc::AllocError;
use tm_marker::{FAULTED, GOES_ON, Kind, Marker, NOBODY, READY, RUNNING, SUSPENDED};

pub fn put(text: &[u8], into: &mut Vec<u8>) -> Result<(), AllocError>
    ensures ok { OnOk result (into.new.items ≡ into.old.items ++ text.now) }
    ensures keeps { Keeps into.old.items into.new.items }
{
    into.extend_from_slice(text)
}

pub fn put_decimal(number: u64, into: &mut Vec<u8>) -> Result<(), AllocError>
    ensures ok { OnOk result (into.new.items ≡ into.old.items ++ decimal number) }
    ensures keeps { Keeps into.old.items into.new.items }
{
    let mut buffer = Buffer::new();
    put(buffer.format(number).as_bytes(), into)
}

fn digit_of(number: u32) -> u8
    requires { number < 16 }
    ensures { result ≡ digit number }
{
    if number < 10 {
        b'0' + number as u8
    } else {
        b'a' - 10 + number as u8
    }
}

#[tactic(auto, unfolding(tm_spelling::specs::Lines::hex8))]
pub fn put_hex8(number: u32, into: &mut Vec<u8>) -> Result<(), AllocError>
    ensures ok { OnOk result (into.new.items ≡ into.old.items ++ hex8 number) }
    ensures keeps { Keeps into.old.items into.new.items }
{
    let digits = [
        digit_of(number / 0x1000_0000 % 16),
        digit_of(number / 0x100_0000 % 16),
        digit_of(number / 0x10_0000 % 16),
        digit_of(number / 0x1_0000 % 16),
        digit_of(number / 0x1000 % 16),
        digit_of(number / 0x100 % 16),
        digit_of(number / 0x10 % 16),
        digit_of(number % 16),
    ];
    put(&digits, into)
}

pub fn put_who(task: u8, into: &mut Vec<u8>) -> Result<(), AllocError>
    ensures ok { OnOk result (into.new.items ≡ into.old.items ++ who task) }
    ensures keeps { Keeps into.old.items into.new.items }
{
    if task == NOBODY {
        put(b"-", into)
    } else {
        put_decimal(u64::from(task), into)
    }
}

pub fn put_marker(at: Marker, into: &mut Vec<u8>) -> Result<(), AllocError>
    ensures ok { OnOk result (into.new.items ≡ into.old.items ++ marker_text at) }
    ensures keeps { Keeps into.old.items into.new.items }
{
    put_decimal(at.epoch, into)?;
    put(b".", into)?;
    put_decimal(u64::from(at.count), into)?;
    put(b".", into)?;
    put_hex8(at.pc, into)
}

pub fn kind_name(kind: Kind) -> &'static [u8]
    ensures { result.now ≡ kind_name kind }
{
    match kind {
        Kind::Preempted => b"preempted",
        Kind::Waits => b"waits",
        Kind::Ends => b"ends",
        Kind::Fault => b"fault",
        Kind::Shutdown => b"shutdown",
        Kind::Idle => b"idle",
    }
}

pub fn state_name(state: u8) -> &'static [u8]
    ensures { result.now ≡ state_name state }
{
    match state {
        SUSPENDED => b"suspended",
        READY => b"ready",
        RUNNING => b"running",
        _ => b"waiting",
    }
}

pub fn ending_name(ended: u8) -> &'static [u8]
    ensures { result.now ≡ ending_name ended }
{
    match ended {
        GOES_ON => b"on",
        FAULTED => b"fault",
        _ => b"shutdown",
    }
}
