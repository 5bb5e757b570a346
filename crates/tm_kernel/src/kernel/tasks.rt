//! The services on tasks, and the one that ends the run.

ghost use Rattle.std.specs.Prelude.{◌≡◌, slice_get};
ghost use Rattle.tm_kernel.specs.State.{IsRunning};
ghost use Rattle.tm_kernel.specs.Service.{IsAnswer, activate_task, terminate_task, chain_task, get_task_id, get_task_state, shutdown_os, activated, suspended, holding_status, chaining, activation};

use super::reply::{goes_on, leaves, tells};
use super::{Answer, Kernel, TaskState};
use crate::{E_OK, E_OS_ID, E_OS_LIMIT, E_OS_RESOURCE};
use tm_marker::{Kind, NOBODY, Service};

impl Kernel {
    pub(super) fn activate_task(&mut self, task: u32) -> Answer
        ensures { IsAnswer (activate_task self.old task) self.new result }
    {
        let status = self.activate(task);
        goes_on(Service::ActivateTask, status)
    }

    pub(super) fn terminate_task(&mut self, caller: u8) -> Answer
        requires { IsRunning self.old caller }
        ensures { IsAnswer (terminate_task self.old caller) self.new result }
    {
        let status = self.holding_status(caller);
        if status != E_OK {
            return goes_on(Service::TerminateTask, status);
        }
        self.suspend(caller);
        leaves(Service::TerminateTask, Kind::Ends)
    }

    pub(super) fn chain_task(&mut self, caller: u8, task: u32) -> Answer
        requires { IsRunning self.old caller }
        ensures { IsAnswer (chain_task self.old caller task) self.new result }
    {
        let status = self.chaining(caller, task);
        if status != E_OK {
            return goes_on(Service::ChainTask, status);
        }
        self.suspend(caller);
        let _activated = self.activate(task);
        leaves(Service::ChainTask, Kind::Ends)
    }

    pub(super) fn get_task_id(&mut self, caller: u8) -> Answer
        ensures { IsAnswer (get_task_id self.old caller) self.new result }
    {
        tells(Service::GetTaskId, u32::from(caller))
    }

    pub(super) fn get_task_state(&mut self, task: u32) -> Answer
        ensures { IsAnswer (get_task_state self.old (slice_get self.old.states task)) self.new result }
    {
        match self.state_of(task) {
            None => goes_on(Service::GetTaskState, E_OS_ID),
            Some(state) => tells(Service::GetTaskState, state as u32),
        }
    }

    pub(super) fn shutdown_os(&mut self, caller: u8) -> Answer
        requires { IsRunning self.old caller }
        ensures { IsAnswer (shutdown_os self.old) self.new result }
    {
        prove!(caller == self.running);
        self.stop(false);
        leaves(Service::ShutdownOs, Kind::Shutdown)
    }

    /// A suspended task becomes ready, with no event set; the status says whether there is one.
    pub(super) fn activate(&mut self, task: u32) -> u32
        ensures kernel { self.new ≡ activated self.old task }
        ensures status { result ≡ activation (slice_get self.old.states task) }
    {
        let status = activation(self.state_of(task));
        if status == E_OK {
            self.states.set(task as usize, TaskState::Ready);
            self.events.set(task as usize, 0);
        }
        status
    }

    /// The running task ends: it is suspended, and nobody runs.
    fn suspend(&mut self, caller: u8)
        requires { IsRunning self.old caller }
        ensures suspended { self.new ≡ suspended self.old caller }
    {
        self.states.set(usize::from(caller), TaskState::Suspended);
        self.running = NOBODY;
    }

    fn holding_status(&self, caller: u8) -> u32
        requires { IsRunning self.now caller }
        ensures { result ≡ holding_status self.now caller }
    {
        if self.holds(caller) {
            E_OS_RESOURCE
        } else {
            E_OK
        }
    }

    fn chaining(&self, caller: u8, task: u32) -> u32
        requires { IsRunning self.now caller }
        ensures { result ≡ chaining self.now caller task }
    {
        let status = activation(self.state_of(task));
        if status == E_OS_ID {
            E_OS_ID
        } else if self.holds(caller) {
            E_OS_RESOURCE
        } else if task == u32::from(caller) {
            E_OK
        } else {
            status
        }
    }

    pub(super) fn state_of(&self, task: u32) -> Option<TaskState>
        ensures { result ≡ slice_get self.now.states task }
    {
        self.states.as_slice().get(task as usize).copied()
    }
}

fn activation(state: Option<TaskState>) -> u32
    ensures { result ≡ activation state }
{
    match state {
        None => E_OS_ID,
        Some(TaskState::Suspended) => E_OK,
        Some(TaskState::Ready | TaskState::Running | TaskState::Waiting) => E_OS_LIMIT,
    }
}
