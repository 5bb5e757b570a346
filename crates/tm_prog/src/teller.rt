//! The text of a run, written as the run goes.

ghost use Rattle.std.specs.Prelude.{◌≡◌, ◌+◌, ◌<◌, ◌≤◌, ◌^◌, [], ◌++◌, length, map, slice_get, IfOk, OnOk, IfSome, Some, None, option_map, is_some, flat_map};
ghost use Rattle.std.specs.Option.{option_copied};
ghost use Rattle.tm_kernel.specs.State.{nobody};
ghost use Rattle.tm_spelling.specs.Story.{end_text};
ghost use Rattle.tm_text.specs.Views.{view_of, leave_of, lasts_of};
ghost use Rattle.tm_system.specs.Telling.{below};
ghost use Rattle.tm_system.specs.Parts.{IsTaskOrNobody};
ghost use Rattle.tm_prog.specs.Teller.{start_in, words_in, leave_in, last_in, printed_after, with_switch, waiting, with_switch_in, TellsStart};

use crate::ending::{tail, tracks};
use crate::views::{seen, seen_at_start};
use std::alloc::{AllocError, Global};
use std::marker::Model;
use std::mem;
use tm_marker::{Items, NOBODY, OutputEntry, Switch};
use tm_system::{Listener, Machine, Told};
use tm_text::{Seen, Stop, write_end, write_start, write_stop};

/// The text so far, and what the next block of it needs: how many control entries were told, each
/// task's data words as they were printed last, and the running task's outputs since the last entry.
#[derive(Drop)]
pub(crate) struct Teller {
    alloc: Global,
    text: Vec<u8>,
    entries: u64,
    printed: Vec<Items<u32>>,
    pending: Vec<OutputEntry>,
}

impl Model for Teller {
    ghost use Rattle.tm_prog.specs.Teller.{TellerView};

    ghost Value = { TellerView };

    ghost view = { λ t. record { text = t.text.items; entries = t.entries; printed = t.printed.items; pending = t.pending.items } };
}

impl Teller {
    /// Tells the start: every task as the machine stands.
    pub(crate) fn start(alloc: Global, machine: &Machine) -> Result<Teller, AllocError>
        requires { length machine.now.tasks ≤ 16 }
        ensures { IfOk result (TellsStart machine.now) }
    {
        let mut text = Vec::new(alloc);
        write_start(0, NOBODY, &starts(alloc, machine)?, &mut text)?;
        Ok(Teller {
            alloc,
            text,
            entries: 0,
            printed: all_words(alloc, machine)?,
            pending: Vec::new(alloc),
        })
    }

    /// Tells what a moment added: its output waits for the next control entry, and a control entry is
    /// told at once.
    #[inline(always)]
    fn note(&mut self, machine: &Machine, told: &Told) -> Result<(), AllocError>
        requires from { IfSome told.now.switch (λ switch. IsTaskOrNobody (length machine.now.tasks) switch.from) }
        requires tasks { length self.old.printed ≡ length machine.now.tasks }
        requires entries { self.old.entries < 2 ^ 53 }
        ensures { OnOk result (self.new ≡ with_switch_in machine.now told.now.switch told.now.fault (waiting self.old told.now.output)) }
    {
        if let Some(output) = told.output {
            self.pending.push(output)?;
        }
        match &told.switch {
            Some(switch) => self.tell(machine, switch, told.fault),
            None => Ok(()),
        }
    }

    /// Tells the end, and gives the whole text.
    pub(crate) fn end(self, machine: &Machine) -> Result<Vec<u8>, AllocError>
        requires few { length machine.now.tasks ≤ 16 }
        requires tasks { length self.printed ≡ length machine.now.tasks }
        ensures { IfOk result (λ text. text.items ≡ self.text ++ end_text machine.now.kernel.running machine.now.kernel.ended (below (length machine.now.tasks) (last_in machine.now self.printed self.pending))) }
    {
        let tail = tail(self.alloc, machine)?;
        let tracks = tracks(self.alloc, machine, &self.printed, &self.pending)?;
        let mut text = self.text;
        write_end(&tail, &tracks, &mut text)?;
        Ok(text)
    }

    /// Tells a control entry.
    #[inline(never)]
    fn tell(&mut self, machine: &Machine, switch: &Switch, cause: u8) -> Result<(), AllocError>
        requires from { IsTaskOrNobody (length machine.now.tasks) switch.now.from }
        requires tasks { length self.old.printed ≡ length machine.now.tasks }
        requires entries { self.old.entries < 2 ^ 53 }
        ensures { OnOk result (self.new ≡ with_switch machine.now switch.now cause self.old) }
    {
        let stop = self.stop(machine, switch.from, cause)?;
        let seq = self.entries + 1;
        write_stop(seq, switch, stop.as_ref(), &mut self.text)?;
        self.entries = seq;
        self.print_words(machine, switch.from)
    }

    /// How the task that a control entry comes from left, where it comes from one. Its outputs wait
    /// no longer.
    fn stop(&mut self, machine: &Machine, from: u8, cause: u8) -> Result<Option<Stop>, AllocError>
        requires from { IsTaskOrNobody (length machine.now.tasks) from }
        requires tasks { length self.old.printed ≡ length machine.now.tasks }
        requires entries { self.old.entries < 2 ^ 53 }
        ensures stop { IfOk result (λ stop. option_map leave_of stop ≡ leave_in machine.now self.old from cause) }
        ensures rest { OnOk result (self.new ≡ record self.old { pending = [] }) }
    {
        let outputs = mem::replace(&mut self.pending, Vec::new(self.alloc));
        if from == NOBODY {
            return Ok(None);
        }
        let words = &self.printed[usize::from(from)];
        Ok(Some(Stop {
            seq: self.entries + 1,
            cause,
            seen: seen(self.alloc, machine, from, words.as_slice())?,
            outputs: Items::from(outputs),
        }))
    }

    /// Keeps the data words of the task that a control entry comes from, which are printed now.
    fn print_words(&mut self, machine: &Machine, from: u8) -> Result<(), AllocError>
        requires from { IsTaskOrNobody (length machine.now.tasks) from }
        requires tasks { length self.old.printed ≡ length machine.now.tasks }
        ensures { OnOk result (self.new ≡ record self.old { printed = printed_after machine.now self.old from }) }
    {
        if from != NOBODY {
            self.printed[usize::from(from)] = words_of(self.alloc, machine, from)?;
        }
        Ok(())
    }
}

impl Listener for Teller {
    ghost use Rattle.tm_prog.specs.Teller.{after_telling, HasTold};
    ghost use Rattle.tm_prog.specs.Resting.{nothing_told, still_told};

    type Refusal = AllocError;

    ghost hears = { after_telling };

    ghost stands = { HasTold };

    #[inline(always)]
    fn hear(&mut self, machine: &Machine, _task: u8, told: &Told) -> Result<(), AllocError> {
        self.note(machine, told)
    }

    ghost unheard = { nothing_told };

    ghost rests = { still_told };
}

/// A copy of a task's data words.
fn words_of(alloc: Global, machine: &Machine, task: u8) -> Result<Items<u32>, AllocError>
    requires { task < length machine.now.tasks }
    ensures { IfOk result (λ words. words ≡ words_in machine.now task) }
{
    let words = Vec::from_slice(alloc, machine.task(task).body().words.as_slice())?;
    Ok(Items::from(words))
}

/// Every task's data words.
fn all_words(alloc: Global, machine: &Machine) -> Result<Vec<Items<u32>>, AllocError>
    requires { length machine.now.tasks ≤ 16 }
    ensures { IfOk result (λ words. words.items ≡ below (length machine.now.tasks) (words_in machine.now)) }
{
    let mut all = Vec::new(alloc);
    for task in 0..machine.tasks() {
        all.push(words_of(alloc, machine, task)?)?;
    }
    Ok(all)
}

/// Every task as the start prints it.
fn starts(alloc: Global, machine: &Machine) -> Result<Vec<Seen>, AllocError>
    requires { length machine.now.tasks ≤ 16 }
    ensures { IfOk result (λ seen. map view_of seen.items ≡ below (length machine.now.tasks) (start_in machine.now)) }
{
    let mut all = Vec::new(alloc);
    for task in 0..machine.tasks() {
        all.push(seen_at_start(alloc, machine, task)?)?;
    }
    Ok(all)
}
