//! A task that goes on by itself, its calls answered by the data entries that were kept of it.

ghost use Rattle.std.specs.Prelude.{◌≡◌, ◌++◌, ◌<◌, ◌^◌, length, option_to_list, OnOk};
ghost use Rattle.tm_marker.specs.declared.body.Body.{Body};
ghost use Rattle.tm_task.specs.Exec.{Calls, exec};
ghost use Rattle.tm_task.specs.Place.{output_of};
ghost use Rattle.tm_task.specs.Standing.{args_of, marker_of};
ghost use Rattle.tm_system.specs.Alone.{walk_to};
ghost use Rattle.tm_replay.specs.declared.fault.ReplayFault.{ReplayFault};
ghost use Rattle.tm_replay.specs.Walking.{alone_of, place_of, IsSound, WentOn, Walked, Reached, Stood, DidFault, diverged_at, IsSafe, RunsTo};

use crate::ReplayFault;
use std::alloc::AllocError;
use tm_marker::{DataEntry, Items, Marker, OutputEntry};
use tm_ring::Ring;
use tm_rv::Code;
use tm_system::{Diverged, Why};
use tm_task::{Stepped, Task};

/// The service WriteOutput, and how many ports there are.
const WRITE_OUTPUT: u8 = 19;

const PORTS: u32 = 4;

/// A task of this number that goes on by itself in its text. Its data entries are those of the ring
/// from number `first` on, of which the first `used` were its answers so far; it made these outputs.
#[derive(Drop)]
pub struct Walker<'a> {
    pub number: u8,
    pub text: &'a Code,
    pub log: &'a Ring<DataEntry>,
    pub first: u64,
    pub task: Task,
    pub used: u64,
    pub made: Items<OutputEntry>,
}

impl Walker<'_> {
    /// Goes on to the first place that is not before a marker, or tells why it sticks before it.
    pub fn walk_to(&mut self, wanted: Marker) -> Result<Option<Why>, AllocError>
        requires sound { IsSound self.old }
        requires epoch { wanted.epoch < 2 ^ 53 }
        ensures sound { OnOk result (IsSound self.new) }
        ensures same { OnOk result (alone_of self.new ≡ alone_of self.old) }
        ensures words { OnOk result (length self.new.task.standing.body.words ≡ length self.old.task.standing.body.words) }
        ensures walked { Walked (walk_to (alone_of self.old) wanted (place_of self.old)) result self.new }
    {
        self.run_on(wanted);
        'walk: while self.task.marker().is_before(wanted) {
            match self.step()? {
                Some(why) => return Ok(Some(why)),
                None => self.run_on(wanted),
            }
        }
        Ok(None)
    }

    /// Goes on to a marker, which a demand of this number wants.
    pub fn reach(&mut self, seq: u64, wanted: Marker) -> Result<(), ReplayFault>
        requires sound { IsSound self.old }
        requires epoch { wanted.epoch < 2 ^ 53 }
        ensures sound { OnOk result (IsSound self.new) }
        ensures same { OnOk result (alone_of self.new ≡ alone_of self.old) }
        ensures words { OnOk result (length self.new.task.standing.body.words ≡ length self.old.task.standing.body.words) }
        ensures reached { Reached (alone_of self.old) seq wanted (place_of self.old) result self.new }
    {
        if let Some(why) = self.walk_to(wanted)? {
            return Err(self.diverged(seq, wanted, why));
        }
        if !self.task.marker().is_at(wanted) {
            return Err(self.diverged(seq, wanted, Why::Passed));
        }
        Ok(())
    }

    /// Tells whether the task stands at a marker, as a demand of this number wants.
    pub fn stand(&self, seq: u64, wanted: Marker) -> Result<(), ReplayFault>
        ensures { Stood (alone_of self.now) seq wanted (place_of self.now) result }
    {
        if !self.task.marker().is_at(wanted) {
            return Err(self.diverged(seq, wanted, Why::Moved));
        }
        Ok(())
    }

    /// The number of the cause for which the task's instruction faults, as a demand of this number
    /// wants it to.
    pub fn fault(&mut self, seq: u64, wanted: Marker) -> Result<u8, ReplayFault>
        requires sound { IsSound self.old }
        requires epoch { self.old.task.standing.epoch < 2 ^ 53 }
        ensures sound { OnOk result (IsSound self.new) }
        ensures same { OnOk result (alone_of self.new ≡ alone_of self.old) }
        ensures words { OnOk result (length self.new.task.standing.body.words ≡ length self.old.task.standing.body.words) }
        ensures place { OnOk result (place_of self.new ≡ place_of self.old) }
        ensures faulted { DidFault (alone_of self.old) seq wanted (place_of self.old) result }
    {
        let diverged = self.diverged(seq, wanted, Why::NoFault);
        match self.task.step(self.text) {
            Stepped::Fault(cause) => Ok(cause.number()),
            Stepped::Ran => Err(diverged),
            Stepped::Forced => Err(diverged),
            Stepped::Call(_) => Err(diverged),
        }
    }

    /// That the task does not meet a demand of this number, where it stands.
    pub fn diverged(&self, seq: u64, wanted: Marker, why: Why) -> ReplayFault
        ensures { result ≡ ReplayFault.Diverged (diverged_at (alone_of self.now) seq wanted self.now.task.standing why) }
    {
        ReplayFault::Diverged(Diverged {
            seq,
            task: self.number,
            reached: self.task.marker(),
            wanted,
            why,
        })
    }

    /// Goes on by instructions of the text alone, no more than surely don't take the task past a marker.
    fn run_on(&mut self, wanted: Marker)
        requires sound { IsSound self.old }
        requires epoch { wanted.epoch < 2 ^ 53 }
        ensures ran { RunsTo self.old wanted self.new }
        ensures sound { IsSound self.new }
    {
        let most = surely_before(self.task.marker(), wanted);
        if most == 0 {
            return;
        }
        self.task.advance(self.text, most);
    }

    /// Goes on by one instruction, or tells why there is no next place.
    fn step(&mut self) -> Result<Option<Why>, AllocError>
        requires sound { IsSound self.old }
        requires epoch { self.old.task.standing.epoch < 2 ^ 53 }
        ensures sound { OnOk result (IsSound self.new) }
        ensures same { OnOk result (alone_of self.new ≡ alone_of self.old) }
        ensures words { OnOk result (length self.new.task.standing.body.words ≡ length self.old.task.standing.body.words) }
        ensures went { WentOn self.old result self.new }
    {
        match self.task.step(self.text) {
            Stepped::Ran => Ok(None),
            Stepped::Forced => Ok(None),
            Stepped::Call(service) => self.answer(service),
            Stepped::Fault(cause) => Ok(Some(Why::Faulted(cause))),
        }
    }

    /// Has the call of a service, at which the task stands, answered by the next data entry.
    fn answer(&mut self, service: u8) -> Result<Option<Why>, AllocError>
        requires sound { IsSound self.old }
        requires epoch { self.old.task.standing.epoch < 2 ^ 53 }
        requires inside { self.old.task.standing.body.pc < 65536 }
        requires calls { exec self.old.text.now self.old.task.standing.body ≡ Calls service }
        ensures sound { OnOk result (IsSound self.new) }
        ensures same { OnOk result (alone_of self.new ≡ alone_of self.old) }
        ensures words { OnOk result (length self.new.task.standing.body.words ≡ length self.old.task.standing.body.words) }
        ensures went { WentOn self.old result self.new }
    {
        let total = self.log.total();
        let Some(entry) = self.log.get(self.first + self.used) else {
            return Ok(Some(Why::NoEntry { total }));
        };
        if entry.service != service {
            return Ok(Some(Why::OtherService {
                logged: entry.service,
                called: service,
            }));
        }
        add(
            output_of(self.number, self.task.args(), entry),
            &mut self.made,
        )?;
        self.task.answer(entry);
        self.used += 1;
        Ok(None)
    }
}

/// How many instructions surely don't take a task past a marker: each raises the count by one at most, and
/// only a new epoch sets it back.
fn surely_before(at: Marker, wanted: Marker) -> u32
    ensures { IsSafe at wanted result }
{
    if at.epoch < wanted.epoch {
        return u32::MAX;
    }
    if at.epoch == wanted.epoch && at.count < wanted.count {
        return wanted.count - at.count;
    }
    0
}

/// The output that a call with these arguments makes, where it is answered so.
fn output_of(task: u8, args: [u32; 6], entry: &DataEntry) -> Option<OutputEntry>
    ensures { (body : Body) → args ≡ args_of body → option_to_list result ≡ output_of task body entry.now }
{
    let (port, value) = (args[0], args[1]);
    if entry.service != WRITE_OUTPUT || entry.status != 0 || port >= PORTS {
        return None;
    }
    Some(OutputEntry {
        task,
        port: port as u8,
        value,
    })
}

/// Adds an output, where there is one.
fn add(output: Option<OutputEntry>, made: &mut Items<OutputEntry>) -> Result<(), AllocError>
    ensures { OnOk result (made.new ≡ made.old ++ option_to_list output) }
{
    match output {
        Some(output) => made.push(output),
        None => Ok(()),
    }
}
