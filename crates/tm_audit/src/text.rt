//! The lines of an audit, written where there is room for them.

ghost use Rattle.std.specs.Prelude.{◌≡◌, ◌+◌, ◌<◌, ◌≤◌, ◌++◌, length, decimal, IsOk, OnOk, OnErr, vec_len, vec_capacity};
ghost use Rattle.tm_audit.specs.Room.{HasRoom, Gains};
ghost use Rattle.tm_audit.specs.Text.{line_text, audit_line, lines_text, audit_text};

use itoa::Buffer;
use std::alloc::AllocError;
use tm_irq::Audit;

/// How many bytes the text of an audit has at most.
pub const AUDIT_ROOM: usize = 2048;

/// Appends the text of an audit of so many slices: `slices N`, and for each line that was raised, rising,
/// `line L raised A joined B taken C pending D`, all in decimal, each line ended by LF. It succeeds where `into`
/// has room for [`AUDIT_ROOM`] more bytes. On want of memory `into` is as before.
#[tactic(auto, unfolding(crate::specs::Text::audit_text))]
pub fn write_audit(slices: u32, audit: &Audit, into: &mut Vec<u8>) -> Result<(), AllocError>
    ensures ok { OnOk result (into.new.items ≡ into.old.items ++ audit_text slices audit.now) }
    ensures err { OnErr result (into.new.items ≡ into.old.items) }
    ensures room { HasRoom into.old 2048 → IsOk result }
{
    into.reserve(AUDIT_ROOM)?;
    put(b"slices ", into);
    put_count(u64::from(slices), into);
    put(b"\n", into);
    put_lines(audit, into);
    Ok(())
}

/// The lines that were raised.
#[tactic(auto, using(crate::proofs::Rest::all_left, crate::proofs::Rest::line_written, crate::proofs::Rest::none_left))]
fn put_lines(audit: &Audit, into: &mut Vec<u8>)
    requires { HasRoom into.old 1920 }
    ensures { into.new.items ≡ into.old.items ++ lines_text audit.now }
{
    for line in 0..16 {
        put_raised(line, audit, into);
    }
}

/// The line where it was raised, and nothing where it was not.
fn put_raised(line: usize, audit: &Audit, into: &mut Vec<u8>)
    requires there { line < 16 }
    requires room { HasRoom into.old 120 }
    ensures items { into.new.items ≡ into.old.items ++ audit_line audit.now line }
    ensures len { vec_len into.new ≤ vec_len into.old + 120 }
    ensures capacity { vec_capacity into.old ≤ vec_capacity into.new }
{
    if audit.raised[line] > 0 {
        put_line(line, audit, into);
    }
}

/// What became of the raises of a line, in at most 120 bytes.
#[tactic(auto, unfolding(crate::specs::Text::line_text))]
fn put_line(line: usize, audit: &Audit, into: &mut Vec<u8>)
    requires there { line < 16 }
    requires room { HasRoom into.old 120 }
    ensures items { into.new.items ≡ into.old.items ++ line_text audit.now line }
    ensures len { vec_len into.new ≤ vec_len into.old + 120 }
    ensures capacity { vec_capacity into.old ≤ vec_capacity into.new }
{
    put(b"line ", into);
    put_number(line, into);
    put(b" raised ", into);
    put_count(audit.raised[line], into);
    put(b" joined ", into);
    put_count(audit.joined[line], into);
    put(b" taken ", into);
    put_count(audit.taken[line], into);
    put(b" pending ", into);
    put_count(audit.pending[line], into);
    put(b"\n", into);
}

/// The number of a line, in at most two digits.
#[tactic(auto, using(crate::proofs::Lengths::short_number))]
fn put_number(line: usize, into: &mut Vec<u8>)
    requires there { line < 16 }
    requires room { HasRoom into.old 2 }
    ensures gains { Gains into.old into.new (decimal line) }
    ensures short { length (decimal line) ≤ 2 }
{
    let mut buffer = Buffer::new();
    put(buffer.format(line).as_bytes(), into);
}

/// A count, in at most twenty digits.
#[tactic(auto, using(crate::proofs::Lengths::short_count))]
fn put_count(count: u64, into: &mut Vec<u8>)
    requires room { HasRoom into.old 20 }
    ensures gains { Gains into.old into.new (decimal count) }
    ensures short { length (decimal count) ≤ 20 }
{
    let mut buffer = Buffer::new();
    put(buffer.format(count).as_bytes(), into);
}

fn put(bytes: &[u8], into: &mut Vec<u8>)
    requires room { HasRoom into.old (length bytes.now) }
    ensures { Gains into.old into.new bytes.now }
{
    match into.extend_from_slice(bytes) {
        Ok(()) => (),
        Err(_) => unreachable!(),
    }
}
