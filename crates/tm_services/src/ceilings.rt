//! Resources under the priority ceiling protocol (OSEK/VDX OS 2.2.3, 8.5).

ghost use Rattle.std.specs.Prelude.{◌≡◌, ◌≢◌, ℕ, ◌<◌, ◌≤◌, max, fold, map, slice_index, All};
ghost use Rattle.tm_services.specs.Ceilings.{IsCeilings, nothing_held, get_status, got, release_status, released, current, holds, ceiling, is_user, user_priorities};
ghost use Rattle.tm_services.specs.Held.{AllBelow};

use crate::held::Held;
use crate::{E_OK, E_OS_ACCESS, E_OS_ID, E_OS_NOFUNC};
use std::marker::Model;

/// Which resources each of 16 tasks holds, and the priorities that follow.
#[derive(Debug, Drop)]
pub struct Ceilings {
    static_priority: [u8; 16],
    users: [u16; 16],
    resources: u8,
    held: [Held; 16],
    ceilings: [u8; 16],
    taken: u16,
    priority: [u8; 16],
}

impl Model for Ceilings {
    ghost use Rattle.tm_services.specs.Ceilings.{CeilingsView, IsCeilings};
    ghost use Rattle.tm_services.specs.Held.{view_of, IsSummary};

    ghost Value = { CeilingsView };

    ghost view = { λ c. view_of c.static_priority c.users c.resources c.held };

    ghost invariant = { λ c. IsCeilings (view_of c.static_priority c.users c.resources c.held)
        × IsSummary (view_of c.static_priority c.users c.resources c.held) c.ceilings c.taken c.priority };
}

impl Ceilings {
    /// Nobody holds a resource. `users` has for each resource the mask of its declared users: bit 0
    /// is task 0.
    pub fn new(static_priority: [u8; 16], users: [u16; 16], resources: u8) -> Self
        requires { resources ≤ 16 }
        ensures empty { result ≡ nothing_held static_priority users resources }
        ensures sound { IsCeilings result }
    {
        Ceilings {
            static_priority,
            users,
            resources,
            held: [Held::NOTHING; 16],
            ceilings: ceilings_of(&static_priority, &users),
            taken: 0,
            priority: static_priority,
        }
    }

    /// GetResource. Where the status is [`E_OK`], the resource is the task's last got. It is
    /// [`E_OS_ID`] where there is no such resource, and [`E_OS_ACCESS`] where the task is not
    /// declared for it or somebody holds it, the task itself included.
    pub fn get(&mut self, task: u8, res: u32) -> u32
        requires { task < 16 }
        ensures status { result ≡ get_status self.old task res }
        ensures got { self.new ≡ got self.old task res }
        ensures refused { result ≢ E_OK → self.new ≡ self.old }
        ensures sound { IsCeilings self.new }
    {
        let status = self.get_status(task, res);
        if status == E_OK {
            self.take(task, res as u8);
        }
        status
    }

    /// ReleaseResource. Where the status is [`E_OK`], the resource is given back. It is [`E_OS_ID`]
    /// where there is no such resource, and [`E_OS_NOFUNC`] where it is not the task's last got.
    pub fn release(&mut self, task: u8, res: u32) -> u32
        requires { task < 16 }
        ensures status { result ≡ release_status self.old task res }
        ensures released { self.new ≡ released self.old task res }
        ensures refused { result ≢ E_OK → self.new ≡ self.old }
        ensures sound { IsCeilings self.new }
    {
        let status = self.release_status(task, res);
        if status == E_OK {
            self.give_back(task, res as u8);
        }
        status
    }

    /// The greatest of the task's static priority and the ceilings of the resources that it holds.
    pub fn current(&self, task: u8) -> u8
        requires { task < 16 }
        ensures current { result ≡ current self.now task }
        ensures sound { IsCeilings self.now }
    {
        self.priority[usize::from(task)]
    }

    /// Whether the task holds a resource.
    pub fn holds(&self, task: u8) -> bool
        requires { task < 16 }
        ensures holds { result ≡ holds self.now task }
        ensures sound { IsCeilings self.now }
    {
        !self.held[usize::from(task)].is_empty()
    }

    /// Takes over the value of another.
    pub fn copy_from(&mut self, other: &Self)
        ensures { self.new ≡ other.now }
    {
        self.static_priority = other.static_priority;
        self.users = other.users;
        self.resources = other.resources;
        self.held = other.held;
        self.ceilings = other.ceilings;
        self.taken = other.taken;
        self.priority = other.priority;
    }

    fn get_status(&self, task: u8, res: u32) -> u32
        requires { task < 16 }
        ensures status { result ≡ get_status self.now task res }
        ensures sound { IsCeilings self.now }
    {
        if res >= u32::from(self.resources) {
            E_OS_ID
        } else if !has_bit(self.users[res as usize], task) || has_bit(self.taken, res as u8) {
            E_OS_ACCESS
        } else {
            E_OK
        }
    }

    fn release_status(&self, task: u8, res: u32) -> u32
        requires { task < 16 }
        ensures status { result ≡ release_status self.now task res }
        ensures sound { IsCeilings self.now }
    {
        if res >= u32::from(self.resources) {
            E_OS_ID
        } else if !self.held[usize::from(task)].ends_with(res as u8) {
            E_OS_NOFUNC
        } else {
            E_OK
        }
    }

    /// The task gets a resource that it may get.
    fn take(&mut self, task: u8, res: u8)
        requires task { task < 16 }
        requires free { get_status self.old task res ≡ E_OK }
        ensures got { self.new ≡ got self.old task res }
        ensures sound { IsCeilings self.new }
    {
        let index = usize::from(task);
        let mut held = self.held[index];
        held.push(res);
        self.held[index] = held;
        self.taken |= 1 << res;
        let ceiling = self.ceilings[usize::from(res)];
        self.priority[index] = self.priority[index].max(ceiling);
    }

    /// The task gives back the resource that it got last.
    fn give_back(&mut self, task: u8, res: u8)
        requires task { task < 16 }
        requires last { release_status self.old task res ≡ E_OK }
        ensures released { self.new ≡ released self.old task res }
        ensures sound { IsCeilings self.new }
    {
        let index = usize::from(task);
        let mut held = self.held[index];
        held.pop();
        self.held[index] = held;
        self.taken &= !(1 << res);
        let priority = self.static_priority[index];
        self.priority[index] = raised(priority, held.as_slice(), &self.ceilings);
    }
}

/// Whether a mask has the bit of this number.
fn has_bit(mask: u16, bit: u8) -> bool
    requires { bit < 16 }
    ensures { result ≡ is_user mask bit }
{
    (mask >> bit) & 1 == 1
}

/// The ceiling of each resource.
fn ceilings_of(priorities: &[u8; 16], users: &[u16; 16]) -> [u8; 16]
    ensures ceilings { (res : ℕ) → res < 16 → slice_index result res ≡ ceiling (nothing_held priorities.now users.now 0) res }

    // What the types say.
    ensures priorities { AllBelow 256 priorities.now 16 }
    ensures users { AllBelow 65536 users.now 16 }
{
    let mut ceilings = [0; 16];
    for (res, mask) in users.iter().enumerate() {
        ceilings[res] = ceiling_of(priorities, *mask);
    }
    ceilings
}

/// The greatest priority of the tasks that a mask names.
fn ceiling_of(priorities: &[u8; 16], mask: u16) -> u8
    ensures { result ≡ fold max 0 (user_priorities mask 0 priorities.now) }
{
    let mut ceiling: u8 = 0;
    for (task, priority) in priorities.iter().enumerate() {
        if has_bit(mask, task as u8) {
            ceiling = ceiling.max(*priority);
        }
    }
    ceiling
}

/// A priority raised to the ceilings of some resources.
fn raised(priority: u8, resources: &[u8], ceilings: &[u8; 16]) -> u8
    requires { All (λ res. res < 16) resources.now }
    ensures { result ≡ fold max priority (map (slice_index ceilings.now) resources.now) }
{
    let mut greatest = priority;
    for res in resources {
        greatest = greatest.max(ceilings[usize::from(*res)]);
    }
    greatest
}
