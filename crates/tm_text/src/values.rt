//! The lines of a task's registers, of its data words and of its outputs.

ghost use Rattle.std.specs.Prelude.{◌≡◌, ◌++◌, codes, decimal, flat_map, OnOk};
ghost use Rattle.tm_spelling.specs.Lines.{hex8, registers_from, regs_line, data_line, out_line};
ghost use Rattle.tm_spelling.specs.Story.{values_text};
ghost use Rattle.tm_text.specs.Prefix.{Keeps};
ghost use Rattle.tm_text.specs.Views.{view_of};

use crate::Seen;
use crate::lines::{put_data_line, put_out_line};
use crate::words::{put, put_decimal, put_hex8};
use std::alloc::AllocError;
use tm_marker::OutputEntry;

fn put_register(number: u64, value: u32, into: &mut Vec<u8>) -> Result<(), AllocError>
    ensures ok { OnOk result (into.new.items ≡ into.old.items ++
        (codes " x" ++ decimal number ++ codes "=" ++ hex8 value)) }
    ensures keeps { Keeps into.old.items into.new.items }
{
    put(b" x", into)?;
    put_decimal(number, into)?;
    put(b"=", into)?;
    put_hex8(value, into)
}

fn put_registers(regs: &[u32], into: &mut Vec<u8>) -> Result<(), AllocError>
    ensures ok { OnOk result (into.new.items ≡ into.old.items ++ registers_from 1 regs.now) }
    ensures keeps { Keeps into.old.items into.new.items }
{
    let mut number = 0;
    for &value in regs {
        number += 1;
        if value != 0 {
            put_register(number, value, into)?;
        }
    }
    Ok(())
}

#[tactic(auto, unfolding(tm_spelling::specs::Lines::regs_line))]
fn put_regs_line(regs: &[u32; 31], into: &mut Vec<u8>) -> Result<(), AllocError>
    ensures ok { OnOk result (into.new.items ≡ into.old.items ++ regs_line regs.now) }
    ensures keeps { Keeps into.old.items into.new.items }
{
    put(b"regs", into)?;
    put_registers(regs, into)?;
    put(b"\n", into)
}

fn put_data_lines(changed: &[(u32, u32)], into: &mut Vec<u8>) -> Result<(), AllocError>
    ensures ok { OnOk result (into.new.items ≡ into.old.items ++ flat_map data_line changed.now) }
    ensures keeps { Keeps into.old.items into.new.items }
{
    for &(address, value) in changed {
        put_data_line(address, value, into)?;
    }
    Ok(())
}

pub fn put_out_lines(outputs: &[OutputEntry], into: &mut Vec<u8>) -> Result<(), AllocError>
    ensures ok { OnOk result (into.new.items ≡ into.old.items ++ flat_map out_line outputs.now) }
    ensures keeps { Keeps into.old.items into.new.items }
{
    for &output in outputs {
        put_out_line(output, into)?;
    }
    Ok(())
}

pub fn put_values(seen: &Seen, into: &mut Vec<u8>) -> Result<(), AllocError>
    ensures ok { OnOk result (into.new.items ≡ into.old.items ++ values_text (view_of seen.now)) }
    ensures keeps { Keeps into.old.items into.new.items }
{
    put_regs_line(&seen.regs, into)?;
    put_data_lines(seen.changed.as_slice(), into)
}
