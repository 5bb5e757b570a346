//! A plant: what each of the devices beside a run does.

ghost use Rattle.std.specs.Prelude.{◌≡◌, ◌+◌, ◌<◌, ◌≤◌, ◌-◌, ◌^◌, [], length, nat_lt, All, IfOk, OnOk, OnErr};
ghost use Rattle.tm_lines.specs.Steps.{Answers, Gives};
ghost use Rattle.tm_plant.specs.Plant.{IsAct, IsPlant, acts_in, raises_of, raises_in, acts_of, with_act, is_no_device, is_full, new_device, new_raise, new_set, new_hold, plant_of};

use crate::said::{
    HoldLine, Keyword, RaiseLine, SetLine, device_said, hold_said, keyword_said, raise_said,
    set_said,
};
use std::alloc::{AllocError, Global};
use std::marker::Model;
use tm_lines::{Fault, Format, Reason, below_header, take_lines};
use tm_marker::{Items, LINES, PORTS};

/// Why a plant was not read.
pub type PlantFault = Fault;

/// How many devices a plant has at most.
pub const MOST_DEVICES: u32 = 8;

/// How many acts the devices of a plant have at most, all together.
pub const MOST_ACTS: u32 = 65_536;

/// How often the devices of a plant raise lines at most, all together.
pub const MOST_RAISES: u32 = 1_048_576;

/// How many turns a device waits for a line at most.
pub const MOST_TURNS: u32 = 65_536;

/// The keyword, the device and two numbers.
const ACT_TOKENS: usize = 4;

/// What a device does at a time.
#[derive(Clone, Copy, Debug, PartialEq, Eq)]
pub enum Act {
    /// Raises a line, below 16, at least once: so often, one raise after another.
    Raise { line: u8, times: u32 },
    /// Stores a value to a port, below 4.
    Set { port: u8, value: u32 },
    /// Looks at a line, below 16, until it is clear, and goes on after so many turns, at most
    /// [`MOST_TURNS`].
    Hold { line: u8, turns: u32 },
}

/// The devices, numbered from 0, each with what it does, in order. There are at most [`MOST_DEVICES`] with at
/// most [`MOST_ACTS`] acts and [`MOST_RAISES`] raises all together.
#[derive(Debug, Drop)]
pub struct Plant {
    devices: Vec<Items<Act>>,
    acts: u32,
    raises: u32,
}

impl Model for Plant {
    ghost use Rattle.std.specs.Prelude.{◌≡◌, List};
    ghost use Rattle.tm_plant.specs.declared.plant.Act.{Act};
    ghost use Rattle.tm_plant.specs.Plant.{IsPlant, acts_in, raises_in};

    ghost Value = { List (List Act) };

    ghost view = { λ plant. plant.devices.items };

    ghost invariant = { λ plant.
        IsPlant plant.devices.items
        × (plant.acts ≡ acts_in plant.devices.items)
        × (plant.raises ≡ raises_in plant.devices.items) };
}

impl Plant {
    /// The number of devices, at most 8.
    pub fn devices(&self) -> usize
        ensures value { result ≡ length self.now }
        ensures few { result ≤ 8 }
    {
        self.devices.len()
    }

    /// What a device does, in order: nothing, where there is no such device.
    pub fn acts(&self, device: usize) -> &[Act]
        ensures value { result.now ≡ acts_of self.now device }
        ensures sound { All IsAct result.now }
    {
        match self.devices.get(device) {
            Some(acts) => acts.as_slice(),
            None => &[],
        }
    }

    /// What every plant keeps. It does nothing: a proof takes it from here.
    pub fn attest(&self)
        ensures { IsPlant self.now }
    {
        let _value = &self.devices;
    }

    /// No devices.
    fn new(alloc: Global) -> Self
        ensures { result ≡ [] }
    {
        Plant {
            devices: Vec::new(alloc),
            acts: 0,
            raises: 0,
        }
    }

    /// Whether there is no device of this number.
    fn is_no_device(&self, device: u32) -> bool
        ensures { result ≡ is_no_device self.now device }
    {
        device as usize >= self.devices.len()
    }

    /// Whether there is no room for one more act.
    fn is_full(&self) -> bool
        ensures value { result ≡ is_full self.now }
        ensures few { raises_in self.now ≤ MOST_RAISES }
    {
        self.acts >= MOST_ACTS
    }

    /// Whether so many raises are more than there may be yet.
    fn is_storm(&self, times: u32) -> bool
        ensures { result ≡ nat_lt MOST_RAISES (raises_in self.now + times) }
    {
        times > MOST_RAISES - self.raises
    }

    fn add_device(&mut self, alloc: Global, device: u32) -> Result<(), Reason>
        ensures { Answers (λ _. self.new) result (new_device self.old device) }
    {
        let number = device as usize;
        if number > self.devices.len() {
            return Err(Reason::Range);
        }
        if number < self.devices.len() {
            return Err(Reason::Repeated);
        }
        if device == MOST_DEVICES {
            return Err(Reason::Limit);
        }
        self.devices.push(Items::new(alloc))?;
        Ok(())
    }

    /// Gives a device that there is one more act, for which there is room.
    fn add_act(&mut self, device: u32, act: Act) -> Result<(), Reason>
        requires there { device < length self.old }
        requires act { IsAct act }
        requires few_acts { acts_in self.old < MOST_ACTS }
        requires few_raises { raises_in self.old + raises_of act ≤ MOST_RAISES }
        ensures { Answers (λ _. self.new) result (Ok (with_act self.old device act)) }
    {
        push_act(&mut self.devices, device as usize, act)?;
        self.acts += 1;
        self.raises += raises_of(act);
        Ok(())
    }

    fn add_raise(&mut self, line: &RaiseLine) -> Result<(), Reason>
        ensures { Answers (λ _. self.new) result (new_raise self.old line.now) }
    {
        if self.is_no_device(line.device) || line.line >= LINES as u32 || line.times == 0 {
            return Err(Reason::Range);
        }
        if self.is_full() || self.is_storm(line.times) {
            return Err(Reason::Limit);
        }
        let act = Act::Raise {
            line: line.line as u8,
            times: line.times,
        };
        self.add_act(line.device, act)
    }

    fn add_set(&mut self, line: &SetLine) -> Result<(), Reason>
        ensures { Answers (λ _. self.new) result (new_set self.old line.now) }
    {
        if self.is_no_device(line.device) || line.port >= PORTS as u32 {
            return Err(Reason::Range);
        }
        if self.is_full() {
            return Err(Reason::Limit);
        }
        let act = Act::Set {
            port: line.port as u8,
            value: line.value,
        };
        self.add_act(line.device, act)
    }

    fn add_hold(&mut self, line: &HoldLine) -> Result<(), Reason>
        ensures { Answers (λ _. self.new) result (new_hold self.old line.now) }
    {
        if self.is_no_device(line.device) || line.line >= LINES as u32 || line.turns > MOST_TURNS {
            return Err(Reason::Range);
        }
        if self.is_full() {
            return Err(Reason::Limit);
        }
        let act = Act::Hold {
            line: line.line as u8,
            turns: line.turns,
        };
        self.add_act(line.device, act)
    }
}

impl Format for Plant {
    ghost use Rattle.tm_plant.specs.Plant.{plant_line};

    ghost next = { plant_line };

    #[tactic(auto, using(crate::proofs::Long::long_plant_line))]
    fn most_tokens() -> Option<usize> {
        Some(ACT_TOKENS)
    }

    fn take(&mut self, alloc: Global, tokens: &[&[u8]]) -> Result<(), Reason> {
        let [keyword, words @ ..] = tokens else {
            return Err(Reason::Form);
        };
        match keyword_said(keyword)? {
            Keyword::Device => self.add_device(alloc, device_said(words)?),
            Keyword::Raise => self.add_raise(&raise_said(words)?),
            Keyword::Set => self.add_set(&set_said(words)?),
            Keyword::Hold => self.add_hold(&hold_said(words)?),
        }
    }
}

/// How many raises an act is.
fn raises_of(act: Act) -> u32
    ensures { result ≡ raises_of act }
{
    match act {
        Act::Raise { times, .. } => times,
        Act::Set { .. } | Act::Hold { .. } => 0,
    }
}

/// Gives a device one more act.
fn push_act(devices: &mut [Items<Act>], device: usize, act: Act) -> Result<(), AllocError>
    requires { device < length devices.old }
    ensures ok { OnOk result (devices.new ≡ with_act devices.old device act) }
    ensures err { OnErr result (devices.new ≡ devices.old) }
{
    devices[device].push(act)
}

/// Reads a plant: below the header `tmplant 1`, lines of these forms, a device before what it does.
///
/// - `device D` declares a device; they are numbered from 0 in their order, and there are at most 8.
/// - `raise D LINE TIMES`: the device raises a line below 16 so often, at least once.
/// - `set D PORT VALUE`: it stores a value to a port below 4.
/// - `hold D LINE TURNS`: it looks at a line below 16 until it is clear, for at most 65,536 turns.
///
/// There are at most 65,536 lines `raise`, `set` and `hold`, and all TIMES together are at most 1,048,576.
///
/// # Errors
///
/// The first line that is refused, and why; `Missing` where no line is the header; `Memory` where there is too
/// little memory for the plant or for the tokens of a line.
#[tactic(auto, unfolding(crate::specs::Plant::plant_of))]
pub fn read_plant(alloc: Global, bytes: &[u8]) -> Result<Plant, PlantFault>
    requires { length bytes.now < 2 ^ 32 - 1 }
    ensures read { Gives (λ plant. plant) result (plant_of bytes.now) }
    ensures sound { IfOk result IsPlant }
{
    let (first, body) = below_header(alloc, b"tmplant", b"1", bytes)?;
    let mut plant = Plant::new(alloc);
    take_lines(alloc, &mut plant, first, body)?;
    Ok(plant)
}
