//! The instruction at a program counter, executed in place.

ghost use Rattle.tm_task.specs.Exec.{exec};
ghost use Rattle.tm_task.specs.Parts.{body_at};
ghost use Rattle.tm_task.specs.Does.{Does};

use crate::Cause;
use crate::perform::perform;
use crate::registers::Registers;
use tm_marker::Items;
use tm_rv::{Code, CodeSlices};

/// What an instruction did to a body.
#[derive(Clone, Copy)]
pub(crate) enum Executed {
    /// The body went on to this program counter; `back` tells of a transfer to a target at or below
    /// the instruction's own address.
    Went { pc: u32, back: bool },
    /// It calls the service of this number; the body is as before.
    Called(u8),
    /// It can't be executed; the body is as before.
    Faulted(Cause),
}

/// Executes the instruction at a program counter.
#[tactic(auto, unfolding(crate::specs::Exec::exec))]
#[inline(always)]
pub(crate) fn execute(
    code: &CodeSlices<'_>,
    pc: u32,
    regs: &mut Registers,
    words: &mut [u32],
) -> Executed
    ensures { Does (exec code.now (body_at pc regs.old words.old)) (body_at pc regs.old words.old) (body_at pc regs.new words.new) result }
{
    let text = code.words();
    let index = (pc / 4) as usize;
    if index >= text.len() {
        return Executed::Faulted(Cause::Fetch);
    }
    perform(code.at(index), text, pc, regs, words)
}

/// One instruction to be executed, but for the data words.
#[derive(Drop)]
pub(crate) struct One<'a> {
    pub code: &'a Code,
    pub pc: u32,
    pub regs: Registers,
}

/// Executes one instruction, and gives back the registers.
pub(crate) fn execute_one(items: Items<u32>, one: One<'_>) -> (Items<u32>, (Executed, Registers))
    ensures { Does (exec one.entry.code.now (body_at one.entry.pc one.entry.regs items)) (body_at one.entry.pc one.entry.regs items) (body_at one.entry.pc result.1.1 result.0) result.1.0 }
{
    let One { code, pc, mut regs } = one;
    let mut words = Vec::from(items);
    let executed = execute(&code.slices(), pc, &mut regs, words.as_mut_slice());
    (Items::from(words), (executed, regs))
}
