//! A task that meets, one after another, the demands of the control entries on it, and is seen at each
//! stop.

ghost use Rattle.std.specs.Prelude.{◌≡◌, ◌+◌, ◌<◌, ◌≤◌, ◌^◌, true, false, OnOk, IfOk};
ghost use Rattle.tm_log.specs.Points.{entries_from};
ghost use Rattle.tm_ring.specs.Kept.{first_of};
ghost use Rattle.tm_text.specs.Views.{view_of};
ghost use Rattle.tm_system.specs.Tracing.{On, begun, seen, stopped, meet, meets};
ghost use Rattle.tm_system.specs.Wanted.{Leaves, left_wanted, resumed_wanted, wanted_by, last_wanted};
ghost use Rattle.tm_replay.specs.Walking.{alone_of, place_of, IsSound};
ghost use Rattle.tm_replay.specs.Meeting.{tracing_of, IsTracer, Met, LeavesBefore, Closed};

use crate::ReplayFault;
use crate::walker::Walker;
use std::alloc::{AllocError, Global};
use std::mem;
use tm_marker::{Items, Kind, Marker, Switch};
use tm_ring::Ring;
use tm_system::Why;
use tm_task::Task;
use tm_text::{Seen, Stop, Track, changes};

/// A task in its replay: how it stands and what it made since its last stop, how it stood at the start,
/// its data words as they were printed last, and its stops so far.
#[derive(Drop)]
pub struct Tracer<'a> {
    pub walker: Walker<'a>,
    pub start: Seen,
    pub printed: Items<u32>,
    pub stops: Items<Stop>,
}

impl<'a> Tracer<'a> {
    /// The text of a task begins where it stands, with the data words that are not 0.
    pub fn begin(alloc: Global, walker: Walker<'a>) -> Result<Tracer<'a>, AllocError>
        requires { IsSound walker }
        ensures begun { IfOk result (λ t. tracing_of t ≡ begun walker.entry.number (place_of walker.entry)) }
        ensures same { IfOk result (λ t. alone_of t.walker ≡ alone_of walker.entry) }
        ensures tracer { IfOk result IsTracer }
    {
        let mut walker = walker;
        let count = walker.task.body().words.len();
        let mut printed = Items::from(vec![in alloc; 0; count]?);
        let start = look_at(alloc, walker.number, &walker.task, printed.as_slice())?;
        printed.copy_from_slice(walker.task.body().words.as_slice());
        walker.made = Items::new(alloc);
        Ok(Tracer {
            walker,
            start,
            printed,
            stops: Items::new(alloc),
        })
    }
}

impl Tracer<'_> {
    /// Meets the demands of all control entries from a number on, up to the last.
    pub fn meet_entries(
        &mut self,
        alloc: Global,
        control: &Ring<Switch>,
        from: u64,
    ) -> Result<(), ReplayFault>
        requires tracer { IsTracer self.old }
        requires kept { first_of control.now ≤ from }
        requires epochs { LeavesBefore self.old.walker.number control.now (2 ^ 53) }
        ensures tracer { OnOk result (IsTracer self.new) }
        ensures same { OnOk result (alone_of self.new.walker ≡ alone_of self.old.walker) }
        ensures met { Met (meets (alone_of self.old.walker)
            (wanted_by self.old.walker.number (from + 1) (entries_from control.now from)) (On (tracing_of self.old))) result self.new }
    {
        for number in from..control.total() {
            let Some(entry) = control.get(number) else {
                unreachable!();
            };
            self.meet_left(alloc, number + 1, entry)?;
            self.meet_resumed(number + 1, entry)?;
        }
        Ok(())
    }

    /// Meets the demand of the end: the running task goes on to its last marker, another stands at it.
    pub fn meet_last(&mut self, seq: u64, running: u8, last: Marker) -> Result<(), ReplayFault>
        requires tracer { IsTracer self.old }
        requires epoch { last.epoch < 2 ^ 53 }
        ensures tracer { OnOk result (IsTracer self.new) }
        ensures same { OnOk result (alone_of self.new.walker ≡ alone_of self.old.walker) }
        ensures met { Met (meet (alone_of self.old.walker)
            (last_wanted self.old.walker.number seq running last) (On (tracing_of self.old))) result self.new }
    {
        if running == self.walker.number {
            return self.walker.reach(seq, last);
        }
        self.walker.stand(seq, last)
    }

    /// What the text tells of the task, which has used all its data entries; `seq` and `wanted` are those
    /// of the end.
    pub fn close(self, alloc: Global, seq: u64, wanted: Marker) -> Result<Track, ReplayFault>
        requires { IsTracer self }
        ensures { Closed self.entry seq wanted result }
    {
        let walker = &self.walker;
        let total = walker.log.total();
        let used = walker.first + walker.used;
        if used < total {
            return Err(walker.diverged(seq, wanted, Why::Left { used, total }));
        }
        let last = look_at(alloc, walker.number, &walker.task, self.printed.as_slice())?;
        let Tracer {
            walker,
            start,
            printed: _,
            stops,
        } = self;
        Ok(Track {
            start,
            stops,
            last,
            outputs: walker.made,
        })
    }

    /// Meets the demand of a control entry on the task that it comes from.
    fn meet_left(&mut self, alloc: Global, seq: u64, entry: &Switch) -> Result<(), ReplayFault>
        requires tracer { IsTracer self.old }
        requires epoch { entry.now.from ≡ self.old.walker.number → entry.now.from_at.epoch < 2 ^ 53 }
        ensures tracer { OnOk result (IsTracer self.new) }
        ensures same { OnOk result (alone_of self.new.walker ≡ alone_of self.old.walker) }
        ensures met { Met (meets (alone_of self.old.walker)
            (left_wanted self.old.walker.number seq entry.now) (On (tracing_of self.old))) result self.new }
    {
        if entry.from != self.walker.number {
            return Ok(());
        }
        match entry.kind {
            Kind::Fault => self.leave_by_fault(alloc, seq, entry.from_at),
            _ => self.leave(alloc, seq, entry.from_at),
        }
    }

    /// Meets the demand of a control entry on the task that it goes to.
    fn meet_resumed(&self, seq: u64, entry: &Switch) -> Result<(), ReplayFault>
        ensures { Met (meets (alone_of self.now.walker)
            (resumed_wanted self.now.walker.number seq entry.now) (On (tracing_of self.now))) result self.now }
    {
        if entry.to != self.walker.number {
            return Ok(());
        }
        self.walker.stand(seq, entry.to_at)
    }

    /// Goes on to a marker and leaves the processor there, by no fault.
    fn leave(&mut self, alloc: Global, seq: u64, wanted: Marker) -> Result<(), ReplayFault>
        requires tracer { IsTracer self.old }
        requires epoch { wanted.epoch < 2 ^ 53 }
        ensures tracer { OnOk result (IsTracer self.new) }
        ensures same { OnOk result (alone_of self.new.walker ≡ alone_of self.old.walker) }
        ensures met { Met (meet (alone_of self.old.walker) (record { seq = seq; at = wanted; way = Leaves false }) (On (tracing_of self.old)))
            result self.new }
    {
        self.walker.reach(seq, wanted)?;
        self.stop(alloc, seq, 0)?;
        Ok(())
    }

    /// Goes on to a marker and leaves the processor there, by a fault.
    fn leave_by_fault(&mut self, alloc: Global, seq: u64, wanted: Marker) -> Result<(), ReplayFault>
        requires tracer { IsTracer self.old }
        requires epoch { wanted.epoch < 2 ^ 53 }
        ensures tracer { OnOk result (IsTracer self.new) }
        ensures same { OnOk result (alone_of self.new.walker ≡ alone_of self.old.walker) }
        ensures met { Met (meet (alone_of self.old.walker) (record { seq = seq; at = wanted; way = Leaves true }) (On (tracing_of self.old)))
            result self.new }
    {
        self.walker.reach(seq, wanted)?;
        let cause = self.walker.fault(seq, wanted)?;
        self.stop(alloc, seq, cause)?;
        Ok(())
    }

    /// Keeps how the task stands when it leaves the processor, with the outputs that it made since it
    /// left before.
    fn stop(&mut self, alloc: Global, seq: u64, cause: u8) -> Result<(), AllocError>
        requires { IsTracer self.old }
        ensures tracer { OnOk result (IsTracer self.new) }
        ensures same { OnOk result (alone_of self.new.walker ≡ alone_of self.old.walker) }
        ensures stopped { OnOk result (tracing_of self.new
            ≡ stopped self.old.walker.number seq (tracing_of self.old) (place_of self.old.walker) cause) }
    {
        let walker = &mut self.walker;
        let seen = look_at(alloc, walker.number, &walker.task, self.printed.as_slice())?;
        let outputs = mem::replace(&mut walker.made, Items::new(alloc));
        self.printed
            .copy_from_slice(walker.task.body().words.as_slice());
        self.stops.push(Stop {
            seq,
            cause,
            seen,
            outputs,
        })
    }
}

/// How a task stands, with the data words that are not as they were printed before.
fn look_at(alloc: Global, number: u8, task: &Task, before: &[u32]) -> Result<Seen, AllocError>
    ensures { IfOk result (λ s. view_of s ≡ seen number task.now.standing before.now) }
{
    let body = task.body();
    Ok(Seen {
        task: number,
        at: task.marker(),
        regs: body.regs,
        changed: changes(alloc, before, body.words.as_slice())?,
    })
}
