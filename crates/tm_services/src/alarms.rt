//! Alarms on one counter (OSEK/VDX OS 2.2.3, 9).

ghost use Rattle.std.specs.Prelude.{◌≡◌, ◌≢◌, ◌-◌, ◌<◌, ◌≤◌, ◌^◌, ◌++◌, replicate, length, false, slice_get, slice_set, Some};
ghost use Rattle.tm_services.specs.Alarms.{IsAlarms, IsAlarm, Off, Armed, setting, using, ticks_until, all_off, set_rel_status, set_rel, set_abs_status, set_abs, cancel_status, cancelled, left_status, left_ticks, ticked, due as due_alarms};

use crate::waiting::{Entry, Waiting, ticks_left};
use crate::{E_OK, E_OS_ID, E_OS_NOFUNC, E_OS_STATE, E_OS_VALUE};
use std::marker::Model;

/// The answer of [`Alarms::left`].
#[derive(Clone, Copy, Debug, PartialEq, Eq)]
pub struct Left {
    pub status: u32,
    /// 0 where the status is not [`E_OK`].
    pub ticks: u32,
}

/// The alarms of one counter, which goes from 0 to 2^31 - 1 and round.
#[derive(Debug, Drop)]
pub struct Alarms {
    number: u8,
    counter: u32,
    waiting: Waiting,
}

impl Model for Alarms {
    ghost use Rattle.tm_services.specs.Alarms.{AlarmsView};
    ghost use Rattle.tm_services.specs.Waiting.{view_of, Keeps};

    ghost Value = { AlarmsView };

    ghost view = { λ a. view_of a.counter a.waiting a.number };

    ghost invariant = { λ a. Keeps a.counter a.waiting a.number };
}

/// A turn of the counter.
const TURN: u32 = 1 << 31;

impl Alarms {
    /// The counter at 0 and a number of alarms, none in use.
    pub fn new(alarms: u8) -> Self
        requires { alarms ≤ 16 }
        ensures off { result ≡ all_off alarms }
        ensures sound { IsAlarms result }
    {
        Alarms {
            number: alarms,
            counter: 0,
            waiting: Waiting::new(),
        }
    }

    /// SetRelAlarm: the alarm is due after `increment` ticks, and then after each `cycle` ticks
    /// where `cycle` is not 0. The status is [`E_OS_ID`] where there is no such alarm,
    /// [`E_OS_STATE`] where it is in use, and [`E_OS_VALUE`] where `increment` is 0 or above
    /// 2^31 - 1, or `cycle` is above 2^31 - 1.
    pub fn set_rel(&mut self, alarm: u32, increment: u32, cycle: u32) -> u32
        ensures status { result ≡ set_rel_status self.old alarm increment cycle }
        ensures set { self.new ≡ set_rel self.old alarm increment cycle }
        ensures refused { result ≢ E_OK → self.new ≡ self.old }
        ensures sound { IsAlarms self.new }
    {
        let good = increment > 0 && increment < TURN && cycle < TURN;
        let status = self.setting_status(alarm, good);
        if status == E_OK {
            self.arm(alarm as u8, increment, cycle);
        }
        status
    }

    /// SetAbsAlarm: the alarm is due when the counter becomes `start`, and then after each `cycle`
    /// ticks where `cycle` is not 0. Where the counter is `start` already, that is a whole turn of
    /// 2^31 ticks. The status is as that of [`Alarms::set_rel`], for `start` 0 to 2^31 - 1.
    pub fn set_abs(&mut self, alarm: u32, start: u32, cycle: u32) -> u32
        ensures status { result ≡ set_abs_status self.old alarm start cycle }
        ensures set { self.new ≡ set_abs self.old alarm start cycle }
        ensures refused { result ≢ E_OK → self.new ≡ self.old }
        ensures sound { IsAlarms self.new }
    {
        let good = start < TURN && cycle < TURN;
        let status = self.setting_status(alarm, good);
        if status == E_OK {
            self.arm(alarm as u8, ticks_until(self.counter, start), cycle);
        }
        status
    }

    /// CancelAlarm: the alarm is off. The status is [`E_OS_ID`] where there is no such alarm, and
    /// [`E_OS_NOFUNC`] where it is not in use.
    pub fn cancel(&mut self, alarm: u32) -> u32
        ensures status { result ≡ cancel_status self.old alarm }
        ensures cancelled { self.new ≡ cancelled self.old alarm }
        ensures refused { result ≢ E_OK → self.new ≡ self.old }
        ensures sound { IsAlarms self.new }
    {
        let status = self.using_status(alarm);
        if status == E_OK {
            self.waiting.remove(alarm as u8);
        }
        status
    }

    /// GetAlarm: the ticks left of an alarm in use. The statuses are those of [`Alarms::cancel`].
    pub fn left(&self, alarm: u32) -> Left
        ensures status { result.status ≡ left_status self.now alarm }
        ensures ticks { result.ticks ≡ left_ticks self.now alarm }
        ensures sound { IsAlarms self.now }
    {
        let ticks = ticks_left(self.waiting.as_slice(), alarm);
        Left {
            status: self.using_status(alarm),
            ticks: ticks.unwrap_or(0),
        }
    }

    /// One tick of the counter. `due` is true exactly for the alarms that are due at this tick.
    pub fn tick(&mut self, due: &mut [bool; 16])
        ensures ticked { self.new ≡ ticked self.old }
        ensures due { due.new ≡ due_alarms self.old ++ replicate (16 - length self.old.alarms) false }
        ensures sound { IsAlarms self.new }
    {
        self.counter = (self.counter + 1) % TURN;
        self.waiting.pass();
        *due = [false; 16];
        while let Some(entry) = self.waiting.take_due() {
            due[usize::from(entry.alarm)] = true;
            if entry.cycle > 0 {
                self.waiting.insert(Entry {
                    wait: entry.cycle,
                    ..entry
                });
            }
        }
    }

    /// Takes over the value of another.
    pub fn copy_from(&mut self, other: &Self)
        ensures { self.new ≡ other.now }
    {
        self.number = other.number;
        self.counter = other.counter;
        self.waiting.copy_from(&other.waiting);
    }

    /// The status of a call that sets an alarm to values that are good or not.
    fn setting_status(&self, alarm: u32, good: bool) -> u32
        ensures status { result ≡ setting (slice_get self.now.alarms alarm) good }
        ensures sound { IsAlarms self.now }
    {
        if alarm >= u32::from(self.number) {
            E_OS_ID
        } else if ticks_left(self.waiting.as_slice(), alarm).is_some() {
            E_OS_STATE
        } else if good {
            E_OK
        } else {
            E_OS_VALUE
        }
    }

    /// The status of a call on an alarm in use.
    fn using_status(&self, alarm: u32) -> u32
        ensures status { result ≡ using (slice_get self.now.alarms alarm) }
        ensures sound { IsAlarms self.now }
    {
        if alarm >= u32::from(self.number) {
            E_OS_ID
        } else if ticks_left(self.waiting.as_slice(), alarm).is_some() {
            E_OK
        } else {
            E_OS_NOFUNC
        }
    }

    /// Puts an alarm that is off into use.
    fn arm(&mut self, alarm: u8, left: u32, cycle: u32)
        requires off { slice_get self.old.alarms alarm ≡ Some Off }
        requires left { IsAlarm (Armed left cycle) }
        ensures armed { self.new ≡ record self.old { alarms = slice_set self.old.alarms alarm (Armed left cycle) } }
        ensures sound { IsAlarms self.new }
    {
        self.waiting.insert(Entry {
            alarm,
            wait: left,
            cycle,
        });
    }
}

/// The ticks from one value of the counter to the next time that it has another.
fn ticks_until(counter: u32, start: u32) -> u32
    requires counter { counter < 2 ^ 31 }
    requires start { start < 2 ^ 31 }
    ensures until { result ≡ ticks_until counter start }
    ensures positive { 0 < result }
    ensures turn { result ≤ 2 ^ 31 }
{
    let ticks = (start + TURN - counter) % TURN;
    if ticks == 0 { TURN } else { ticks }
}
