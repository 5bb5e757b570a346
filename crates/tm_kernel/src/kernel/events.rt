//! The services on events.

ghost use Rattle.std.specs.Prelude.{◌≡◌, ◌<◌, length, slice_get};
ghost use Rattle.tm_kernel.specs.State.{IsRunning, is_extended, events_of};
ghost use Rattle.tm_kernel.specs.Service.{IsAnswer, set_event, clear_event, get_event, wait_event, events_set, event_status, with_events, without_events, own_event_status, wait_status, waiting};

use super::reply::{goes_on, leaves, tells};
use super::{Answer, Kernel, TaskState};
use crate::{E_OK, E_OS_ACCESS, E_OS_ID, E_OS_RESOURCE, E_OS_STATE, E_OS_VALUE};
use tm_marker::{Kind, NOBODY, Service};

impl Kernel {
    pub(super) fn set_event(&mut self, task: u32, mask: u32) -> Answer
        ensures { IsAnswer (set_event self.old task mask) self.new result }
    {
        let status = self.set_events(task, mask);
        goes_on(Service::SetEvent, status)
    }

    pub(super) fn clear_event(&mut self, caller: u8, mask: u32) -> Answer
        requires { IsRunning self.old caller }
        ensures { IsAnswer (clear_event self.old caller mask) self.new result }
    {
        let status = self.own_event_status(caller);
        if status != E_OK {
            return goes_on(Service::ClearEvent, status);
        }
        self.clear_events(caller, mask);
        goes_on(Service::ClearEvent, E_OK)
    }

    pub(super) fn get_event(&mut self, task: u32) -> Answer
        ensures { IsAnswer (get_event self.old task) self.new result }
    {
        let status = self.event_status(task);
        if status != E_OK {
            return goes_on(Service::GetEvent, status);
        }
        tells(Service::GetEvent, self.events_of(task))
    }

    pub(super) fn wait_event(&mut self, caller: u8, mask: u32) -> Answer
        requires { IsRunning self.old caller }
        ensures { IsAnswer (wait_event self.old caller mask) self.new result }
    {
        let status = self.wait_status(caller, mask);
        if status != E_OK {
            return goes_on(Service::WaitEvent, status);
        }
        if self.events_of(u32::from(caller)) & mask != 0 {
            return goes_on(Service::WaitEvent, E_OK);
        }
        self.wait(caller, mask);
        leaves(Service::WaitEvent, Kind::Waits)
    }

    /// Sets events of a task, and makes it ready where it waits for one that is set then; the status
    /// says whether that may be done.
    pub(super) fn set_events(&mut self, task: u32, mask: u32) -> u32
        ensures kernel { self.new ≡ events_set self.old task mask }
        ensures status { result ≡ event_status self.old task }
    {
        let status = self.event_status(task);
        if status == E_OK {
            self.add_events(task as usize, mask);
        }
        status
    }

    fn add_events(&mut self, task: usize, mask: u32)
        requires { task < length self.old.states }
        ensures added { self.new ≡ with_events self.old task mask }
    {
        let events = self.events.at(task) | mask;
        self.events.set(task, events);
        let waits = self.states.at(task) == TaskState::Waiting;
        if waits && events & self.awaited.at(task) != 0 {
            self.states.set(task, TaskState::Ready);
        }
    }

    fn clear_events(&mut self, caller: u8, mask: u32)
        requires { IsRunning self.old caller }
        ensures cleared { self.new ≡ without_events self.old caller mask }
    {
        let task = usize::from(caller);
        let events = self.events.at(task) & !mask;
        self.events.set(task, events);
    }

    /// The running task waits for the events of a mask, and nobody runs.
    fn wait(&mut self, caller: u8, mask: u32)
        requires { IsRunning self.old caller }
        ensures waits { self.new ≡ waiting self.old caller mask }
    {
        let task = usize::from(caller);
        self.states.set(task, TaskState::Waiting);
        self.awaited.set(task, mask);
        self.running = NOBODY;
    }

    fn event_status(&self, task: u32) -> u32
        ensures { result ≡ event_status self.now task }
    {
        match self.state_of(task) {
            None => E_OS_ID,
            Some(_) if !self.is_extended(task) => E_OS_ACCESS,
            Some(TaskState::Suspended) => E_OS_STATE,
            Some(TaskState::Ready | TaskState::Running | TaskState::Waiting) => E_OK,
        }
    }

    fn own_event_status(&self, caller: u8) -> u32
        ensures { result ≡ own_event_status self.now caller }
    {
        if self.is_extended(u32::from(caller)) {
            E_OK
        } else {
            E_OS_ACCESS
        }
    }

    fn wait_status(&self, caller: u8, mask: u32) -> u32
        requires { IsRunning self.now caller }
        ensures { result ≡ wait_status self.now caller mask }
    {
        if !self.is_extended(u32::from(caller)) {
            E_OS_ACCESS
        } else if self.holds(caller) {
            E_OS_RESOURCE
        } else if mask == 0 {
            E_OS_VALUE
        } else {
            E_OK
        }
    }

    fn is_extended(&self, task: u32) -> bool
        ensures { result ≡ is_extended self.now task }
    {
        match self.spec.tasks.as_slice().get(task as usize) {
            Some(task) => task.extended,
            None => false,
        }
    }

    fn events_of(&self, task: u32) -> u32
        ensures { result ≡ events_of self.now task }
    {
        match self.events.as_slice().get(task as usize) {
            Some(events) => *events,
            None => 0,
        }
    }
}
