//! A run that is published, beside the devices and the observers.

ghost use Rattle.std.specs.Prelude.{◌≡◌, ℕ, ◌+◌, ◌-◌, ◌<◌, ◌≤◌, ◌^◌, ◌++◌, length, vec_len, IsSome, OnOk};
ghost use Rattle.std.specs.Thread.{IsSync};
ghost use mathlib.Core.List.{IsPrefix};
ghost use Rattle.tm_irq.specs.Bench.{bench_lists};
ghost use Rattle.tm_plant.specs.Plant.{acts_of};
ghost use Rattle.tm_plant.specs.Plays.{raised_by, stored_by};
ghost use Rattle.tm_live.specs.Growth.{GrewBy};
ghost use Rattle.tm_live.specs.Devices.{AllPlayed, GrewByRaises, GrewByStores};
ghost use Rattle.tm_live.specs.Drive.{deeds_at, tape_since};
ghost use Rattle.tm_observe.specs.Lookers.{AllLooked};
ghost use Rattle.tm_observe.specs.Published.{PublishedSlices, WentOn, OnlyGrew};

use crate::looker::{Looker, look_all};
use crate::publishing::publish_slices;
use std::alloc::AllocError;
use std::sync::Wait;
use std::thread::{Threads, join_mut};
use tm_io::Gate;
use tm_irq::{Bench, DeviceSeat, KernelSeat};
use tm_live::{Tape, play_all};
use tm_plant::Plant;
use tm_watch::Watch;

/// How many slices of which length a run has, and how often each observer looks beside it.
#[derive(Clone, Copy, Debug, PartialEq, Eq)]
pub struct Pace {
    pub slices: u32,
    /// In instructions, at most 1,048,576.
    pub len: u32,
    pub looks: u32,
}

/// Takes slices and publishes each, while each device of the plant does its acts and each of at most four observers
/// makes its looks, each in a thread of its own. Slice by slice the kernel's part takes the lines that pend and
/// latches the ports, and gives the slice to the watch and to the tape, also where the run has ended.
///
/// The gate is told how many slices are published before each take, the device's number before each raise, store and
/// look of a device, and 16 and the observer's number before each look of an observer and after its last.
///
/// # Errors
///
/// There is too little memory to publish a slice: no slice is published after it, and the tape has those that were.
/// Devices and observers do all that they are to do.
pub fn observe<R: Threads + Wait + Sync, G: Gate>(
    rt: &R,
    bench: &mut Bench,
    watch: &mut Watch,
    lookers: &mut [Looker],
    plant: &Plant,
    pace: &Pace,
    tape: &mut Tape,
    gate: &G,
) -> Result<(), AllocError>
    requires open { IsSome bench.old.kernel }
    requires few { length (bench_lists bench.old).takes < 2 ^ 46 }
    requires devices { length plant.now ≤ vec_len bench.old.devices }
    requires short { pace.now.len ≤ 1048576 }
    requires room { pace.now.slices ≤ tape.old.room }
    requires allowed { length watch.old.list + pace.now.slices < 2 ^ 32 }
    requires lookers { length lookers.old ≤ 4 }
    ensures open { IsSome bench.new.kernel }
    ensures seats { vec_len bench.new.devices ≡ vec_len bench.old.devices }
    ensures closed { bench.new.closed ≡ bench.old.closed }
    ensures takes { OnOk result (GrewBy pace.now.slices (bench_lists bench.old).takes (bench_lists bench.new).takes) }
    ensures latches { OnOk result (GrewBy pace.now.slices (bench_lists bench.old).latches (bench_lists bench.new).latches) }
    ensures raises { (device : ℕ) → device < vec_len bench.old.devices → GrewByRaises (raised_by (acts_of plant.now device)) (deeds_at (bench_lists bench.old) device).raises (deeds_at (bench_lists bench.new) device).raises }
    ensures stores { (device : ℕ) → device < vec_len bench.old.devices → GrewByStores (stored_by (acts_of plant.now device)) (deeds_at (bench_lists bench.old) device).stores (deeds_at (bench_lists bench.new) device).stores }
    ensures grew { OnlyGrew pace.now.slices (bench_lists bench.old) (bench_lists bench.new) }
    ensures tape { OnOk result (tape.new.slices ≡ tape.old.slices ++ tape_since (bench_lists bench.old) (bench_lists bench.new) pace.now.len) }
    ensures room { OnOk result (tape.new.room ≡ tape.old.room - pace.now.slices) }
    ensures published { OnOk result (watch.new ≡ record watch.old { list = watch.old.list ++ tape_since (bench_lists bench.old) (bench_lists bench.new) pace.now.len }) }
    ensures same { watch.new ≡ record watch.old { list = watch.new.list } }
    ensures lookers { AllLooked pace.now.looks lookers.old lookers.new }
{
    let Some(mut kernel) = bench.kernel.take() else {
        unreachable!()
    };
    let outcome = run_beside(
        rt,
        &mut kernel,
        bench.devices.as_mut_slice(),
        watch,
        lookers,
        plant,
        pace,
        tape,
        gate,
    );
    bench.kernel = Some(kernel);
    outcome
}

/// The kernel's part in one thread, and the devices and the observers in others.
fn run_beside<R: Threads + Wait + Sync, G: Gate>(
    rt: &R,
    kernel: &mut KernelSeat,
    devices: &mut [DeviceSeat],
    watch: &mut Watch,
    lookers: &mut [Looker],
    plant: &Plant,
    pace: &Pace,
    tape: &mut Tape,
    gate: &G,
) -> Result<(), AllocError>
    requires few { length kernel.old.takes < 2 ^ 46 }
    requires devices { length devices.old ≤ 8 }
    requires short { pace.now.len ≤ 1048576 }
    requires room { pace.now.slices ≤ tape.old.room }
    requires allowed { length watch.old.list + pace.now.slices < 2 ^ 32 }
    requires lookers { length lookers.old ≤ 4 }
    ensures all { OnOk result (PublishedSlices pace.now.slices pace.now.len kernel.old kernel.new tape.old tape.new watch.old watch.new) }
    ensures some { WentOn pace.now.slices kernel.old kernel.new watch.old watch.new }
    ensures devices { AllPlayed plant.now devices.old devices.new }
    ensures lookers { AllLooked pace.now.looks lookers.old lookers.new }
{
    let (outcome, ()) = join_mut(
        rt,
        &mut || -> Result<(), AllocError>
            requires { (length kernel.now.takes < 2 ^ 46) × (pace.now.len ≤ 1048576) × (pace.now.slices ≤ tape.now.room) × (length watch.now.list + pace.now.slices < 2 ^ 32) }
            ensures all { OnOk result (PublishedSlices pace.entry.now.slices pace.entry.now.len kernel.entry.now kernel.exit.now tape.entry.now tape.exit.now watch.entry.now watch.exit.now) }
            ensures some { WentOn pace.entry.now.slices kernel.entry.now kernel.exit.now watch.entry.now watch.exit.now }
        { publish_slices(rt, kernel, watch, pace, tape, gate) },
        &mut ||
            requires { IsSync R.row × (length devices.now ≤ 8) × (length lookers.now ≤ 4) }
            ensures devices { AllPlayed plant.entry.now devices.entry.now devices.exit.now }
            ensures lookers { AllLooked pace.entry.now.looks lookers.entry.now lookers.exit.now }
        { play_and_look(rt, devices, lookers, plant, pace.looks, gate) },
    );
    outcome
}

/// The devices in some threads and the observers in others.
fn play_and_look<R: Threads + Wait + Sync, G: Gate>(
    rt: &R,
    devices: &mut [DeviceSeat],
    lookers: &mut [Looker],
    plant: &Plant,
    looks: u32,
    gate: &G,
)
    requires devices { length devices.old ≤ 8 }
    requires lookers { length lookers.old ≤ 4 }
    ensures devices { AllPlayed plant.now devices.old devices.new }
    ensures lookers { AllLooked looks lookers.old lookers.new }
{
    join_mut(
        rt,
        &mut ||
            requires { IsSync R.row × (length devices.now ≤ 8) }
            ensures { AllPlayed plant.entry.now devices.entry.now devices.exit.now }
        { play_all(rt, devices, plant, gate) },
        &mut ||
            requires { IsSync R.row × (length lookers.now ≤ 4) }
            ensures { AllLooked looks lookers.entry.now lookers.exit.now }
        { look_all(rt, lookers, looks, gate) },
    );
}
