//! The printed lines, one function each.

ghost use Rattle.std.specs.Prelude.{◌≡◌, ◌++◌, OnOk};
ghost use Rattle.tm_spelling.specs.Lines.{start_line, task_line, state_line, data_line, out_line, switch_line, at_line, cause_line, end_line};
ghost use Rattle.tm_text.specs.Prefix.{Keeps};

use crate::words::{
    ending_name, kind_name, put, put_decimal, put_hex8, put_marker, put_who, state_name,
};
use std::alloc::AllocError;
use tm_marker::{Marker, OutputEntry, Switch};

#[tactic(auto, unfolding(tm_spelling::specs::Lines::start_line))]
pub fn put_start_line(from: u64, running: u8, into: &mut Vec<u8>) -> Result<(), AllocError>
    ensures ok { OnOk result (into.new.items ≡ into.old.items ++ start_line from running) }
    ensures keeps { Keeps into.old.items into.new.items }
{
    put(b"start ", into)?;
    put_decimal(from, into)?;
    put(b" ", into)?;
    put_who(running, into)?;
    put(b"\n", into)
}

#[tactic(auto, unfolding(tm_spelling::specs::Lines::task_line))]
pub fn put_task_line(task: u8, at: Marker, into: &mut Vec<u8>) -> Result<(), AllocError>
    ensures ok { OnOk result (into.new.items ≡ into.old.items ++ task_line task at) }
    ensures keeps { Keeps into.old.items into.new.items }
{
    put(b"task ", into)?;
    put_decimal(u64::from(task), into)?;
    put(b" ", into)?;
    put_marker(at, into)?;
    put(b"\n", into)
}

#[tactic(auto, unfolding(tm_spelling::specs::Lines::state_line))]
pub fn put_state_line(task: u8, state: u8, at: Marker, into: &mut Vec<u8>) -> Result<(), AllocError>
    ensures ok { OnOk result (into.new.items ≡ into.old.items ++ state_line task state at) }
    ensures keeps { Keeps into.old.items into.new.items }
{
    put(b"task ", into)?;
    put_decimal(u64::from(task), into)?;
    put(b" ", into)?;
    put(state_name(state), into)?;
    put(b" ", into)?;
    put_marker(at, into)?;
    put(b"\n", into)
}

#[tactic(auto, unfolding(tm_spelling::specs::Lines::data_line))]
pub fn put_data_line(address: u32, value: u32, into: &mut Vec<u8>) -> Result<(), AllocError>
    ensures ok { OnOk result (into.new.items ≡ into.old.items ++ data_line (address, value)) }
    ensures keeps { Keeps into.old.items into.new.items }
{
    put(b"data ", into)?;
    put_hex8(address, into)?;
    put(b" ", into)?;
    put_hex8(value, into)?;
    put(b"\n", into)
}

#[tactic(auto, unfolding(tm_spelling::specs::Lines::out_line))]
pub fn put_out_line(output: OutputEntry, into: &mut Vec<u8>) -> Result<(), AllocError>
    ensures ok { OnOk result (into.new.items ≡ into.old.items ++ out_line output) }
    ensures keeps { Keeps into.old.items into.new.items }
{
    put(b"out ", into)?;
    put_decimal(u64::from(output.port), into)?;
    put(b" ", into)?;
    put_hex8(output.value, into)?;
    put(b"\n", into)
}

#[tactic(auto, unfolding(tm_spelling::specs::Lines::switch_line))]
pub fn put_switch_line(seq: u64, switch: &Switch, into: &mut Vec<u8>) -> Result<(), AllocError>
    ensures ok { OnOk result (into.new.items ≡ into.old.items ++ switch_line seq switch.now) }
    ensures keeps { Keeps into.old.items into.new.items }
{
    put(b"switch ", into)?;
    put_decimal(seq, into)?;
    put(b" ", into)?;
    put_who(switch.from, into)?;
    put(b" ", into)?;
    put(kind_name(switch.kind), into)?;
    put(b" ", into)?;
    put_who(switch.to, into)?;
    put(b"\n", into)
}

#[tactic(auto, unfolding(tm_spelling::specs::Lines::at_line))]
pub fn put_at_line(at: Marker, into: &mut Vec<u8>) -> Result<(), AllocError>
    ensures ok { OnOk result (into.new.items ≡ into.old.items ++ at_line at) }
    ensures keeps { Keeps into.old.items into.new.items }
{
    put(b"at ", into)?;
    put_marker(at, into)?;
    put(b"\n", into)
}

#[tactic(auto, unfolding(tm_spelling::specs::Lines::cause_line))]
pub fn put_cause_line(cause: u8, into: &mut Vec<u8>) -> Result<(), AllocError>
    ensures ok { OnOk result (into.new.items ≡ into.old.items ++ cause_line cause) }
    ensures keeps { Keeps into.old.items into.new.items }
{
    put(b"cause ", into)?;
    put_decimal(u64::from(cause), into)?;
    put(b"\n", into)
}

#[tactic(auto, unfolding(tm_spelling::specs::Lines::end_line))]
pub fn put_end_line(running: u8, ended: u8, into: &mut Vec<u8>) -> Result<(), AllocError>
    ensures ok { OnOk result (into.new.items ≡ into.old.items ++ end_line running ended) }
    ensures keeps { Keeps into.old.items into.new.items }
{
    put(b"end ", into)?;
    put_who(running, into)?;
    put(b" ", into)?;
    put(ending_name(ended), into)?;
    put(b"\n", into)
}
