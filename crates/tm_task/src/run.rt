//! Many instructions, one after another.

ghost use Rattle.std.specs.Prelude.{◌≡◌, ℕ, ◌+◌, ◌%◌, ◌^◌, ◌<◌, ◌≤◌, length};
ghost use Rattle.tm_task.specs.Parts.{body_at};
ghost use Rattle.tm_task.specs.Standing.{task_view};
ghost use Rattle.tm_task.specs.RunsOn.{RunsOn, HasStopped};
ghost use Rattle.tm_task.specs.Turns.{Turns};

use crate::execute::{Executed, execute};
use crate::registers::Registers;
use tm_marker::{EPOCH_LENGTH, Items};
use tm_rv::{Code, CodeSlices};

/// A run before it begins, but for the data words: it may be of `most` instructions.
#[derive(Drop)]
pub(crate) struct Start<'a> {
    pub code: &'a Code,
    pub pc: u32,
    pub count: u32,
    pub regs: Registers,
    pub most: u32,
}

/// A run that has ended, but for the data words: it was of `done` instructions.
#[derive(Drop)]
pub(crate) struct End {
    pub pc: u32,
    pub count: u32,
    pub regs: Registers,
    pub done: u32,
}

/// What a turn of a run did.
enum Turned {
    /// The instruction was executed, and the run may go on.
    On,
    /// The instruction was executed, and the next backward transfer begins an epoch.
    Last,
    /// The instruction calls or can't be executed: nothing was done.
    Stopped,
}

/// Executes the instruction at a program counter, unless it calls or faults. Only a backward transfer
/// changes the count, so that it is looked at only there.
#[inline(always)]
#[tactic(auto, using(crate::proofs::Following::goes_on))]
fn turn(
    code: &CodeSlices<'_>,
    pc: &mut u32,
    count: &mut u32,
    regs: &mut Registers,
    words: &mut [u32],
) -> Turned
    requires few { length code.now.words ≤ 16384 }
    requires aligned { pc.old % 4 ≡ 0 }
    requires small { pc.old < 2 ^ 32 }
    requires room { count.old + 1 < EPOCH_LENGTH }
    ensures turned { (entry epoch : ℕ) →
        Turns code.now result
        (task_view entry (body_at pc.old regs.old words.old) epoch count.old)
        (task_view entry (body_at pc.new regs.new words.new) epoch count.new) }
    ensures aligned { pc.new % 4 ≡ 0 }
    ensures small { pc.new < 2 ^ 32 }
    ensures registers { length regs.new ≡ length regs.old }
    ensures words { length words.new ≡ length words.old }
{
    match execute(code, *pc, regs, words) {
        Executed::Went { pc: next, back } => {
            *pc = next;
            if !back {
                return Turned::On;
            }
            *count += 1;
            if *count == EPOCH_LENGTH - 1 {
                Turned::Last
            } else {
                Turned::On
            }
        }
        Executed::Called(_) | Executed::Faulted(_) => Turned::Stopped,
    }
}

/// Executes up to `most` instructions from a program counter on, and tells how many.
#[inline(always)]
fn turns(
    code: &CodeSlices<'_>,
    pc: &mut u32,
    count: &mut u32,
    regs: &mut Registers,
    words: &mut [u32],
    most: u32,
) -> u32
    requires few { length code.now.words ≤ 16384 }
    requires aligned { pc.old % 4 ≡ 0 }
    requires small { pc.old < 2 ^ 32 }
    requires room { count.old + 1 < EPOCH_LENGTH }
    ensures within { result ≤ most }
    ensures ran { (entry epoch : ℕ) →
        RunsOn code.now result
        (task_view entry (body_at pc.old regs.old words.old) epoch count.old)
        (task_view entry (body_at pc.new regs.new words.new) epoch count.new) }
    ensures stopped { result < most → (entry epoch : ℕ) →
        HasStopped code.now (task_view entry (body_at pc.new regs.new words.new) epoch count.new) }
    ensures aligned { pc.new % 4 ≡ 0 }
    ensures small { pc.new < 2 ^ 32 }
    ensures count { count.new < EPOCH_LENGTH }
    ensures registers { length regs.new ≡ length regs.old }
    ensures words { length words.new ≡ length words.old }
{
    for done in 0..most {
        match turn(code, pc, count, regs, words) {
            Turned::On => {}
            Turned::Last => return done + 1,
            Turned::Stopped => return done,
        }
    }
    most
}

/// Executes up to `most` instructions. What each of them reads, the words of the text, its
/// instructions and the data words, is taken out once before.
pub(crate) fn run(items: Items<u32>, start: Start<'_>) -> (Items<u32>, End)
    requires few { length start.code.now.words ≤ 16384 }
    requires aligned { start.pc % 4 ≡ 0 }
    requires small { start.pc < 2 ^ 32 }
    requires room { start.count + 1 < EPOCH_LENGTH }
    ensures within { result.1.done ≤ start.entry.most }
    ensures ran { (entry epoch : ℕ) →
        RunsOn start.entry.code.now result.1.done
        (task_view entry (body_at start.entry.pc start.entry.regs items) epoch start.entry.count)
        (task_view entry (body_at result.1.pc result.1.regs result.0) epoch result.1.count) }
    ensures stopped { result.1.done < start.entry.most → (entry epoch : ℕ) →
        HasStopped start.entry.code.now (task_view entry (body_at result.1.pc result.1.regs result.0) epoch result.1.count) }
    ensures aligned { result.1.pc % 4 ≡ 0 }
    ensures small { result.1.pc < 2 ^ 32 }
    ensures count { result.1.count < EPOCH_LENGTH }
    ensures registers { length result.1.regs ≡ length start.entry.regs }
    ensures words { length result.0 ≡ length items }
{
    let Start {
        code,
        mut pc,
        mut count,
        mut regs,
        most,
    } = start;
    let mut words = Vec::from(items);
    let done = turns(
        &code.slices(),
        &mut pc,
        &mut count,
        &mut regs,
        words.as_mut_slice(),
        most,
    );
    let end = End {
        pc,
        count,
        regs,
        done,
    };
    (Items::from(words), end)
}
