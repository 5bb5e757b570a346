//! A task: where its text is entered, and where it stands.

ghost use Rattle.std.specs.Prelude.{◌≡◌, ◌+◌, ◌%◌, ◌^◌, ◌<◌, ◌≤◌, IfOk, length};
ghost use Rattle.tm_task.specs.Standing.{booted_task, answered, args_of, marker_of, IsTask};
ghost use Rattle.tm_task.specs.Stepped.{Did, Raises};
ghost use Rattle.tm_task.specs.RunsOn.{RunsOn, HasStopped};
ghost use Rattle.tm_marker.specs.Order.{IsBefore};

use crate::Stepped;
use crate::answer::{begins_epoch, boot_registers, reply};
use crate::execute::{Executed, One, execute_one};
use crate::registers::{Registers, read};
use crate::run::{Start, run};
use core::mem;
use std::alloc::{AllocError, Global};
use std::marker::Model;
use tm_marker::{Body, DataEntry, EPOCH_LENGTH, Items, Marker};
use tm_rv::Code;

/// One task. Its text is handed to each step, and is at address 0; its data starts at
/// [`crate::DATA_START`]. A task's marker rises with each instruction that it executes.
#[derive(Debug, Drop)]
pub struct Task {
    entry: u32,
    body: Body,
    epoch: u64,
    count: u32,
}

impl Model for Task {
    ghost use Rattle.tm_task.specs.Standing.{TaskView, task_view, IsTask};

    ghost Value = { TaskView };

    ghost view = { λ t. task_view t.entry t.body t.epoch t.count };

    ghost invariant = { λ t. IsTask (task_view t.entry t.body t.epoch t.count) };
}

impl Task {
    /// A task at boot that enters its text at the address `entry`, and has these 1 to 16,384 data
    /// words.
    pub fn new(alloc: Global, entry: u32, words: &[u32]) -> Result<Task, AllocError>
        requires aligned { entry % 4 ≡ 0 }
        requires within { entry < 65536 }
        requires some { 0 < length words.now }
        requires few { length words.now ≤ 16384 }
        ensures boot { IfOk result (λ task. task ≡ booted_task entry words.now) }
        ensures task { IfOk result (λ task. IsTask task) }
    {
        let count = words.len();
        let words = Vec::from_slice(alloc, words)?;
        Ok(Task {
            entry,
            body: Body {
                pc: entry,
                regs: boot_registers(count),
                words: Items::from(words),
            },
            epoch: 0,
            count: 0,
        })
    }

    /// Executes one instruction of the text, which has 1 to 16,384 words. After a call or a fault
    /// the task is as before. The call takes no memory.
    #[tactic(auto, using(crate::proofs::Following::goes_on, crate::proofs::Following::calls_inside))]
    pub fn step(&mut self, code: &Code) -> Stepped
        requires some { 0 < length code.now.words }
        requires few { length code.now.words ≤ 16384 }
        requires epoch { self.old.standing.epoch < 2 ^ 53 }
        ensures did { Did code.now self.old result self.new }
        ensures raised { Raises result self.old.standing self.new.standing }
        ensures epoch { self.new.standing.epoch ≤ self.old.standing.epoch + 1 }
        ensures words { length self.new.standing.body.words ≡ length self.old.standing.body.words }
        ensures task { IsTask self.new }
    {
        let one = One {
            code,
            pc: self.body.pc,
            regs: Registers::of(&self.body.regs),
        };
        let (executed, regs) = mem::replace_with(&mut self.body.words, one, execute_one);
        match executed {
            Executed::Went { pc, back } => {
                self.body.pc = pc;
                regs.put_into(&mut self.body.regs);
                if !back {
                    return Stepped::Ran;
                }
                if self.count + 1 == EPOCH_LENGTH {
                    self.epoch += 1;
                    self.count = 0;
                    Stepped::Forced
                } else {
                    self.count += 1;
                    Stepped::Ran
                }
            }
            Executed::Called(service) => Stepped::Call(service),
            Executed::Faulted(cause) => Stepped::Fault(cause),
        }
    }

    /// Executes up to `most` instructions of the text, which has 1 to 16,384 words, and tells how
    /// many: it stops before one that calls or faults, and where the next backward transfer would
    /// begin an epoch, so that [`Task::step`] does those. The call takes no memory.
    pub fn advance(&mut self, code: &Code, most: u32) -> u32
        requires some { 0 < length code.now.words }
        requires few { length code.now.words ≤ 16384 }
        requires epoch { self.old.standing.epoch < 2 ^ 53 }
        ensures within { result ≤ most }
        ensures ran { RunsOn code.now result self.old self.new }
        ensures stopped { result < most → HasStopped code.now self.new }
        ensures epoch { self.new.standing.epoch ≡ self.old.standing.epoch }
        ensures words { length self.new.standing.body.words ≡ length self.old.standing.body.words }
        ensures task { IsTask self.new }
    {
        if self.count == EPOCH_LENGTH - 1 {
            return 0;
        }
        let start = Start {
            code,
            pc: self.body.pc,
            count: self.count,
            regs: Registers::of(&self.body.regs),
            most,
        };
        let end = mem::replace_with(&mut self.body.words, start, run);
        self.body.pc = end.pc;
        end.regs.put_into(&mut self.body.regs);
        self.count = end.count;
        end.done
    }

    /// What a call hands to its service: the registers a0 to a5.
    pub fn args(&self) -> [u32; 6]
        ensures { result ≡ args_of self.now.standing.body }
    {
        let body = &self.body;
        [
            read(body, 10),
            read(body, 11),
            read(body, 12),
            read(body, 13),
            read(body, 14),
            read(body, 15),
        ]
    }

    /// The instant at which the task stands.
    #[inline]
    pub fn marker(&self) -> Marker
        ensures { result ≡ marker_of self.now.standing }
    {
        Marker {
            epoch: self.epoch,
            count: self.count,
            pc: self.body.pc,
        }
    }

    /// The program counter, the registers and the data words.
    pub fn body(&self) -> &Body
        ensures value { result.now ≡ self.now.standing.body }
        ensures task { IsTask self.now }
    {
        &self.body
    }

    /// Resumes the task, which stands at a call, with what the service answered. An answer of
    /// success to TerminateTask or ChainTask starts the task anew, with its data as it is.
    pub fn answer(&mut self, entry: &DataEntry)
        requires inside { self.old.standing.body.pc < 65536 }
        requires epoch { self.old.standing.epoch < 2 ^ 53 }
        ensures answered { self.new
            ≡ record self.old { standing = answered self.old.entry self.old.standing entry.now } }
        ensures raised { IsBefore (marker_of self.old.standing) (marker_of self.new.standing) }
        ensures task { IsTask self.new }
    {
        reply(&mut self.body, self.entry, entry);
        if begins_epoch(entry) {
            self.epoch += 1;
            self.count = 0;
        }
    }

    /// Puts the task where a body of as many data words stands, at the start of an epoch.
    pub fn load(&mut self, body: &Body, epoch: u64)
        requires words { length body.now.words ≡ length self.old.standing.body.words }
        requires pc { body.now.pc % 4 ≡ 0 }
        ensures loaded { self.new
            ≡ record self.old { standing = record { body = body.now; epoch = epoch; count = 0 } } }
        ensures task { IsTask self.new }
    {
        copy_body(&mut self.body, body);
        self.epoch = epoch;
        self.count = 0;
    }

    /// Makes the task another of as many data words.
    pub fn copy_from(&mut self, other: &Task)
        requires { length other.now.standing.body.words ≡ length self.old.standing.body.words }
        ensures copied { self.new ≡ other.now }
        ensures task { IsTask self.new }
    {
        self.entry = other.entry;
        copy_body(&mut self.body, &other.body);
        self.epoch = other.epoch;
        self.count = other.count;
    }
}

/// Puts a body in the place of another that has as many data words.
fn copy_body(to: &mut Body, from: &Body)
    requires { length to.old.words ≡ length from.now.words }
    ensures copied { to.new ≡ from.now }
    ensures registers { length to.new.regs ≡ 31 }
    ensures pc { to.new.pc < 2 ^ 32 }
{
    let Body { pc, regs, words } = from;
    to.pc = *pc;
    to.regs.copy_from_slice(regs);
    to.words.copy_from_slice(words.as_slice());
}
