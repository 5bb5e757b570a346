//! The scheduler's state, and the calls that only read it or make it.

ghost use Rattle.std.specs.Prelude.{◌≡◌, ◌<◌, ◌≤◌, length, slice_get, Some, IfOk, option_map, map};
ghost use Rattle.tm_kernel.specs.Spec.{IsKernelSpec};
ghost use Rattle.tm_kernel.specs.State.{IsKernel, booted, boot_state, state_number, padded};

mod alarms;
mod call;
mod claim;
mod events;
mod messages;
mod ports;
mod reply;
mod resources;
mod schedule;
mod tasks;

use crate::mailbox::Mailboxes;
use crate::{KernelSpec, TaskSpec};
use std::alloc::{AllocError, Global};
use std::marker::Model;
use tm_marker::{DataEntry, GOES_ON, Items, Kind, NOBODY, OutputEntry, PORTS};
use tm_services::{Alarms, Ceilings};

/// The states of a task (OSEK/VDX OS 2.2.3, 4.2).
#[derive(Clone, Copy, Debug, PartialEq, Eq)]
pub enum TaskState {
    Suspended,
    Ready,
    Running,
    Waiting,
}

/// Whether the caller of a service goes on, or why it leaves the processor.
#[derive(Clone, Copy, Debug, PartialEq, Eq)]
pub enum Need {
    Goes,
    Leaves(Kind),
}

/// What a service call answers: the data entry for the task, the output where one is made, and what
/// becomes of the caller.
#[derive(Clone, Copy, Debug, PartialEq, Eq)]
pub struct Answer {
    pub entry: DataEntry,
    pub output: Option<OutputEntry>,
    pub need: Need,
}

/// The scheduler's whole state. Only [`Kernel::new`] takes memory.
#[derive(Debug, Drop)]
pub struct Kernel {
    spec: KernelSpec,
    states: Items<TaskState>,
    events: Items<u32>,
    awaited: Items<u32>,
    ceilings: Ceilings,
    alarms: Alarms,
    boxes: Mailboxes,
    ports: [u32; PORTS],
    running: u8,
    ended: u8,
}

impl Model for Kernel {
    ghost use Rattle.std.specs.Prelude.{◌≡◌};
    ghost use Rattle.tm_kernel.specs.State.{KernelState, IsKernel};

    ghost Value = { KernelState };

    ghost view = { λ k. record {
      spec = k.spec;
      states = k.states;
      events = k.events;
      awaited = k.awaited;
      ceilings = k.ceilings;
      alarms = k.alarms;
      boxes = k.boxes.messages;
      ports = k.ports;
      running = k.running;
      ended = k.ended;
    } };

    ghost invariant = { λ k. IsKernel (record {
      spec = k.spec;
      states = k.states;
      events = k.events;
      awaited = k.awaited;
      ceilings = k.ceilings;
      alarms = k.alarms;
      boxes = k.boxes.messages;
      ports = k.ports;
      running = k.running;
      ended = k.ended;
    }) × (k.boxes.capacities ≡ k.spec.boxes) };
}

impl Kernel {
    /// A kernel at boot: autostart tasks are ready, the others suspended, and nobody runs.
    pub fn new(alloc: Global, spec: &KernelSpec) -> Result<Self, AllocError>
        requires { IsKernelSpec spec.now }
        ensures boot { IfOk result (λ kernel. kernel ≡ booted spec.now) }
        ensures sound { IfOk result (λ kernel. IsKernel kernel) }
    {
        let tasks = spec.tasks.as_slice();
        Ok(Kernel {
            states: Items::from(boot_states(alloc, tasks)?),
            events: Items::from(vec![in alloc; 0; tasks.len()]?),
            awaited: Items::from(vec![in alloc; 0; tasks.len()]?),
            ceilings: Ceilings::new(
                padded_priorities(tasks),
                padded_users(spec.users.as_slice()),
                spec.users.len() as u8,
            ),
            alarms: Alarms::new(spec.alarms.len() as u8),
            boxes: Mailboxes::new(alloc, spec.boxes.as_slice())?,
            spec: copied(alloc, spec)?,
            ports: [0; PORTS],
            running: NOBODY,
            ended: GOES_ON,
        })
    }

    /// The running task, or [`NOBODY`].
    pub fn running(&self) -> u8
        ensures task { result ≡ self.now.running }
        ensures sound { IsKernel self.now }
    {
        self.running
    }

    /// Whether the run goes on ([`GOES_ON`]) or has ended, by [`tm_marker::FAULTED`] or
    /// [`tm_marker::SHUT_DOWN`].
    pub fn ended(&self) -> u8
        ensures { result ≡ self.now.ended }
    {
        self.ended
    }

    /// How many tasks there are.
    pub fn tasks(&self) -> usize
        ensures number { result ≡ length self.now.spec.tasks }
        ensures states { result ≡ length self.now.states }
        ensures sound { IsKernel self.now }
    {
        self.states.len()
    }

    /// The number of a task's state: [`tm_marker::SUSPENDED`], [`tm_marker::READY`],
    /// [`tm_marker::RUNNING`] or [`tm_marker::WAITING`].
    pub fn state(&self, task: u8) -> u8
        requires { task < length self.now.states }
        ensures { option_map state_number (slice_get self.now.states task) ≡ Some result }
    {
        self.states.at(usize::from(task)) as u8
    }

    /// Becomes a copy of a kernel of the same specification, without taking memory.
    pub fn copy_from(&mut self, other: &Kernel)
        requires { self.old.spec ≡ other.now.spec }
        ensures copied { self.new ≡ other.now }
        ensures sound { IsKernel self.new }
    {
        self.states.copy_from_slice(other.states.as_slice());
        self.events.copy_from_slice(other.events.as_slice());
        self.awaited.copy_from_slice(other.awaited.as_slice());
        self.ceilings.copy_from(&other.ceilings);
        self.alarms.copy_from(&other.alarms);
        self.boxes.copy_from(&other.boxes);
        self.ports = other.ports;
        self.running = other.running;
        self.ended = other.ended;
    }
}

fn boot_states(alloc: Global, tasks: &[TaskSpec]) -> Result<Vec<TaskState>, AllocError>
    ensures { IfOk result (λ states. states.items ≡ map (λ t. boot_state t.auto) tasks.now) }
{
    tasks
        .iter()
        .map(|task| boot_state(task.auto))
        .collect(alloc)
}

fn boot_state(auto: bool) -> TaskState
    ensures { result ≡ boot_state auto }
{
    if auto {
        TaskState::Ready
    } else {
        TaskState::Suspended
    }
}

/// The static priorities, with 0 for each task that there is not.
fn padded_priorities(tasks: &[TaskSpec]) -> [u8; 16]
    requires { length tasks.now ≤ 16 }
    ensures { result ≡ padded (map (λ t. t.priority) tasks.now) }
{
    let mut priorities = [0; 16];
    for (task, spec) in tasks.iter().enumerate() {
        priorities[task] = spec.priority;
    }
    priorities
}

/// The masks of users, with 0 for each resource that there is not.
fn padded_users(masks: &[u16]) -> [u16; 16]
    requires { length masks.now ≤ 16 }
    ensures { result ≡ padded masks.now }
{
    let mut users = [0; 16];
    users[..masks.len()].copy_from_slice(masks);
    users
}

fn copied(alloc: Global, spec: &KernelSpec) -> Result<KernelSpec, AllocError>
    ensures { IfOk result (λ copy. copy ≡ spec.now) }
{
    Ok(KernelSpec {
        tasks: Items::from(Vec::from_slice(alloc, spec.tasks.as_slice())?),
        users: Items::from(Vec::from_slice(alloc, spec.users.as_slice())?),
        alarms: Items::from(Vec::from_slice(alloc, spec.alarms.as_slice())?),
        boxes: Items::from(Vec::from_slice(alloc, spec.boxes.as_slice())?),
        lines: spec.lines,
    })
}
