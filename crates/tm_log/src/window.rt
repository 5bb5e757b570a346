//! The window and its calls.

ghost use Rattle.std.specs.Prelude.{◌≡◌, ◌≢◌, ℕ, ◌<◌, ◌^◌, List, [], ◌∷◌, ◌++◌, length, slice_get, Some, IfOk};
ghost use Rattle.tm_marker.specs.Shape.{IsShape};
ghost use Rattle.tm_ring.specs.Kept.{Holds};
ghost use Rattle.tm_check.specs.Checkpoint.{Checkpoint, checkpoint, HoldsChecks};
ghost use Rattle.tm_log.specs.Window.{window_from, empty_window, log_of, checks_of, with_control, with_output, with_entry, with_check, with_running, with_task, dump_bound, IsWindow};

use crate::tasks::{
    bound_of_all, copy_checks, copy_logs, copy_tail, empty_checks, empty_logs, new_tail,
};
use std::alloc::{AllocError, Global};
use std::marker::Model;
use tm_check::Checks;
use tm_marker::{Body, DataEntry, Marker, OutputEntry, Shape, Switch, Tail};
use tm_ring::Ring;

/// The last items of the lists that a run leaves, up to the capacities of its image: the control
/// entries, the outputs, each task's data entries and checkpoints; and the run's last moment.
#[derive(Drop)]
pub struct Window {
    shape: Shape,
    control: Ring<Switch>,
    outputs: Ring<OutputEntry>,
    logs: Vec<Ring<DataEntry>>,
    checks: Vec<Checks>,
    tail: Tail,
}

impl Model for Window {
    ghost use Rattle.tm_log.specs.Window.{WindowView, IsWindow};

    ghost Value = { WindowView };

    ghost view = { λ w. record { shape = w.shape; control = w.control; outputs = w.outputs; logs = w.logs.items; checks = w.checks.items; tail = w.tail } };

    ghost invariant = { λ w. IsWindow (record { shape = w.shape; control = w.control; outputs = w.outputs; logs = w.logs.items; checks = w.checks.items; tail = w.tail }) };
}

impl Window {
    /// Empty rings, no checkpoints, and a tail in which nobody runs and every marker and state is 0.
    pub fn new(alloc: Global, shape: &Shape) -> Result<Self, AllocError>
        requires { IsShape shape.now }
        ensures { IfOk result (λ window. window ≡ empty_window shape.now) }
    {
        let tasks = shape.words.len();
        Ok(Window {
            control: Ring::new(alloc, shape.caps.control)?,
            outputs: Ring::new(alloc, shape.caps.outputs)?,
            logs: empty_logs(alloc, tasks, shape.caps.logs)?,
            checks: empty_checks(alloc, shape.words.as_slice(), shape.caps.checks)?,
            tail: new_tail(alloc, tasks)?,
            shape: shape.copied(alloc)?,
        })
    }

    /// The window of these parts.
    pub fn from_parts(
        shape: Shape,
        control: Ring<Switch>,
        outputs: Ring<OutputEntry>,
        logs: Vec<Ring<DataEntry>>,
        checks: Vec<Checks>,
        tail: Tail,
    ) -> Self
        requires { IsWindow (window_from shape control outputs logs.items checks.items tail) }
        ensures { result ≡ window_from shape control outputs logs.items checks.items tail }
    {
        Window {
            shape,
            control,
            outputs,
            logs,
            checks,
            tail,
        }
    }

    /// Takes all that a window of the same shape holds.
    pub fn copy_from(&mut self, other: &Window)
        requires { self.old.shape ≡ other.now.shape }
        ensures { self.new ≡ other.now }
    {
        self.control.copy_from(&other.control);
        self.outputs.copy_from(&other.outputs);
        copy_logs(other.logs.as_slice(), self.logs.as_mut_slice());
        copy_checks(other.checks.as_slice(), self.checks.as_mut_slice());
        copy_tail(&other.tail, &mut self.tail);
    }

    /// The length of a dump of a window of this shape in which every ring is full.
    pub fn dump_bound(&self) -> u64
        ensures { result ≡ dump_bound self.now.shape }
    {
        let caps = self.shape.caps;
        let tasks = self.shape.words.len() as u64;
        38 + (8 + 35 * u64::from(caps.control))
            + (8 + 6 * u64::from(caps.outputs))
            + (2 + 17 * tasks)
            + bound_of_all(caps, self.shape.words.as_slice())
            + 32
    }
}

impl Window {
    /// The image's digest, the capacities, and each task's number of data words.
    pub fn shape(&self) -> &Shape
        ensures shape { result.now ≡ self.now.shape }
        ensures window { IsWindow self.now }
    {
        &self.shape
    }

    /// The digest of the image.
    pub fn image(&self) -> &[u8; 32]
        ensures { result.now ≡ self.now.shape.image }
    {
        &self.shape.image
    }

    /// What every window keeps. It does nothing: a proof takes it from here.
    pub fn attest(&self)
        ensures { IsWindow self.now }
    {
        let _value = &self.shape;
    }

    /// The number of tasks, 1 to 16.
    pub fn tasks(&self) -> u8
        ensures tasks { result ≡ length self.now.shape.words }
        ensures window { IsWindow self.now }
    {
        self.shape.words.len() as u8
    }

    /// The control entries.
    pub fn control(&self) -> &Ring<Switch>
        ensures { result.now ≡ self.now.control }
    {
        &self.control
    }

    /// The outputs.
    pub fn outputs(&self) -> &Ring<OutputEntry>
        ensures { result.now ≡ self.now.outputs }
    {
        &self.outputs
    }

    /// The data entries of a task.
    pub fn log(&self, task: u8) -> &Ring<DataEntry>
        requires { task < length self.now.shape.words }
        ensures there { slice_get self.now.logs task ≡ Some result.now }
        ensures log { result.now ≡ log_of self.now task }
    {
        &self.logs[usize::from(task)]
    }

    /// The checkpoints of a task.
    pub fn checks(&self, task: u8) -> &Checks
        requires { task < length self.now.shape.words }
        ensures there { slice_get self.now.checks task ≡ Some result.now }
        ensures checks { result.now ≡ checks_of self.now task }
    {
        &self.checks[usize::from(task)]
    }

    /// How the run stands at its last moment.
    pub fn tail(&self) -> &Tail
        ensures { result.now ≡ self.now.tail }
    {
        &self.tail
    }
}

impl Window {
    /// Adds a control entry.
    pub fn push_control(&mut self, entry: Switch)
        requires { self.old.control.total < 2 ^ 53 }
        ensures with { self.new ≡ with_control self.old entry }
        ensures holds { (all : List Switch) → Holds self.old.control all → Holds self.new.control (all ++ entry ∷ []) }
    {
        self.control.push(entry);
    }

    /// Adds an output.
    pub fn push_output(&mut self, entry: OutputEntry)
        requires { self.old.outputs.total < 2 ^ 53 }
        ensures with { self.new ≡ with_output self.old entry }
        ensures holds { (all : List OutputEntry) → Holds self.old.outputs all → Holds self.new.outputs (all ++ entry ∷ []) }
    {
        self.outputs.push(entry);
    }

    /// Adds a data entry of a task.
    pub fn push_entry(&mut self, task: u8, entry: DataEntry)
        requires task { task < length self.old.shape.words }
        requires total { (log_of self.old task).total < 2 ^ 53 }
        ensures with { self.new ≡ with_entry self.old task entry }
        ensures holds { (all : List DataEntry) → Holds (log_of self.old task) all → Holds (log_of self.new task) (all ++ entry ∷ []) }
        ensures others { (other : ℕ) → other ≢ task → log_of self.new other ≡ log_of self.old other }
    {
        let ring = &mut self.logs[usize::from(task)];
        ring.push(entry);
    }

    /// Adds a checkpoint of a task.
    pub fn push_check(&mut self, task: u8, body: &Body, data_no: u64, control_no: u64)
        requires task { task < length self.old.shape.words }
        requires body { length body.now.words ≡ (checks_of self.old task).words }
        requires total { (checks_of self.old task).total < 2 ^ 53 }
        ensures with { self.new ≡ with_check self.old task (checkpoint body.now data_no control_no) }
        ensures holds { (all : List Checkpoint) → HoldsChecks (checks_of self.old task) all →
            HoldsChecks (checks_of self.new task) (all ++ checkpoint body.now data_no control_no ∷ []) }
        ensures others { (other : ℕ) → other ≢ task → checks_of self.new other ≡ checks_of self.old other }
    {
        let checks = &mut self.checks[usize::from(task)];
        checks.push(body, data_no, control_no);
    }

    /// Tells who runs at the last moment, and whether the run has ended.
    pub fn set_running(&mut self, running: u8, ended: u8)
        ensures { self.new ≡ with_running self.old running ended }
    {
        self.tail.running = running;
        self.tail.ended = ended;
    }

    /// Tells a task's marker and state at the last moment.
    pub fn set_task(&mut self, task: u8, at: Marker, state: u8)
        requires { task < length self.old.shape.words }
        ensures { self.new ≡ with_task self.old task at state }
    {
        self.tail.at.set(usize::from(task), at);
        self.tail.state.set(usize::from(task), state);
    }
}
