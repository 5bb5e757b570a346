//! The devices' part of a drive.

ghost use Rattle.std.specs.Prelude.{◌≡◌, ℕ, ◌<◌, ◌≤◌, [], ◌∷◌, length, replicate, slice_index_or, All};
ghost use Rattle.std.specs.Thread.{IsSync};
ghost use Rattle.tm_irq.specs.Lists.{DeviceLists};
ghost use Rattle.tm_plant.specs.Plant.{IsAct, acts_of};
ghost use Rattle.tm_plant.specs.Plays.{lines_of, values_of, raised_by, stored_by};
ghost use Rattle.tm_live.specs.Devices.{Played, AllPlayed};

use std::thread::{Threads, for_each_mut};
use tm_io::Gate;
use tm_irq::DeviceSeat;
use tm_plant::{Act, Plant};

/// How many devices a bench has at most.
const MOST_DEVICES: usize = 8;

/// Each device of a plant does what the plant gives it, in a thread of its own, and tells the gate its number
/// before each raise, store and look. The devices that the plant does not name do nothing. It takes no memory.
pub fn play_all<R: Threads + Sync, G: Gate>(
    rt: &R,
    devices: &mut [DeviceSeat],
    plant: &Plant,
    gate: &G,
)
    requires { length devices.old ≤ 8 }
    ensures { AllPlayed plant.now devices.old devices.new }
{
    for_each_mut(
        rt,
        devices,
        MOST_DEVICES,
        &|number, device|
            requires { number < 8 }
            ensures { Played (raised_by (acts_of plant.entry.now number)) (stored_by (acts_of plant.entry.now number)) device.entry.now device.exit.now }
        { play(device, number as u8, plant.acts(number), gate) },
    );
}

/// A device does what its acts say, in order, and tells the gate before each raise, store and look.
fn play<G: Gate>(device: &mut DeviceSeat, number: u8, acts: &[Act], gate: &G)
    requires { All IsAct acts.now }
    ensures { Played (raised_by acts.now) (stored_by acts.now) device.old device.new }
{
    for act in acts {
        act_on(device, number, *act, gate);
    }
}

/// One act.
fn act_on<G: Gate>(device: &mut DeviceSeat, number: u8, act: Act, gate: &G)
    requires { IsAct act }
    ensures { Played (lines_of act) (values_of act) device.old device.new }
{
    match act {
        Act::Raise { line, times } => raise(device, number, line, times, gate),
        Act::Set { port, value } => {
            gate.at(number);
            device.set(port, value);
        }
        Act::Hold { line, turns } => hold(device, number, line, turns, gate),
    }
}

/// Raises a line so often.
fn raise<G: Gate>(device: &mut DeviceSeat, number: u8, line: u8, times: u32, gate: &G)
    requires { line < 16 }
    ensures { Played (replicate times line) [] device.old device.new }
{
    for _ in 0..times {
        gate.at(number);
        device.raise(line);
    }
}

/// Looks at a line until it is clear, and goes on after so many turns.
fn hold<G: Gate>(device: &mut DeviceSeat, number: u8, line: u8, turns: u32, gate: &G)
    requires { line < 16 }
    ensures { Played [] [] device.old device.new }
{
    for _ in 0..turns {
        gate.at(number);
        if (device.glance() >> line) & 1 == 0 {
            return;
        }
    }
}
