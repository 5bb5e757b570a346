//! The services on alarms, and the tick of their counter.

ghost use Rattle.std.specs.Prelude.{◌≡◌, ◌++◌, ◌-◌, fold, length, replicate, false};
ghost use Rattle.tm_services.specs.Alarms.{due as due_alarms};
ghost use Rattle.tm_kernel.specs.Service.{IsAnswer, get_alarm, set_rel_alarm, set_abs_alarm, cancel_alarm};
ghost use Rattle.tm_kernel.specs.Schedule.{acted, due_actions, tick};

use super::reply::{goes_on, tells};
use super::{Answer, Kernel};
use crate::{Action, E_OK};
use tm_marker::Service;

impl Kernel {
    pub(super) fn get_alarm(&mut self, alarm: u32) -> Answer
        ensures { IsAnswer (get_alarm self.old alarm) self.new result }
    {
        let left = self.alarms.left(alarm);
        if left.status != E_OK {
            return goes_on(Service::GetAlarm, left.status);
        }
        tells(Service::GetAlarm, left.ticks)
    }

    pub(super) fn set_rel_alarm(&mut self, alarm: u32, increment: u32, cycle: u32) -> Answer
        ensures { IsAnswer (set_rel_alarm self.old alarm increment cycle) self.new result }
    {
        let status = self.alarms.set_rel(alarm, increment, cycle);
        goes_on(Service::SetRelAlarm, status)
    }

    pub(super) fn set_abs_alarm(&mut self, alarm: u32, start: u32, cycle: u32) -> Answer
        ensures { IsAnswer (set_abs_alarm self.old alarm start cycle) self.new result }
    {
        let status = self.alarms.set_abs(alarm, start, cycle);
        goes_on(Service::SetAbsAlarm, status)
    }

    pub(super) fn cancel_alarm(&mut self, alarm: u32) -> Answer
        ensures { IsAnswer (cancel_alarm self.old alarm) self.new result }
    {
        let status = self.alarms.cancel(alarm);
        goes_on(Service::CancelAlarm, status)
    }

    /// All alarms count down by one, then the actions of those that are due are performed.
    pub(super) fn tick(&mut self)
        ensures ticked { self.new ≡ tick self.old }
    {
        let mut due = [false; 16];
        self.alarms.tick(&mut due);
        self.act_where(&due);
    }

    /// Performs the actions of the alarms that are due, in rising alarm.
    fn act_where(&mut self, due: &[bool; 16])
        ensures acted { self.new ≡ fold acted self.old (due_actions due.now self.old.spec.alarms) }
    {
        for alarm in 0..self.spec.alarms.len() {
            if due[alarm] {
                let action = self.spec.alarms.at(alarm);
                self.act(action);
            }
        }
    }

    /// What an alarm does: it activates a task or sets its events. A refused action has no effect.
    pub(super) fn act(&mut self, action: Action)
        ensures acted { self.new ≡ acted self.old action }
    {
        match action {
            Action::Activate(task) => {
                let _refused = self.activate(u32::from(task));
            }
            Action::Event(task, mask) => {
                let _refused = self.set_events(u32::from(task), mask);
            }
            Action::Nothing | Action::Tick => {}
        }
    }
}
