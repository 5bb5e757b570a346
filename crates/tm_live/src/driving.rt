//! A drive: the kernel's part beside the devices.

ghost use Rattle.std.specs.Prelude.{◌≡◌, ℕ, ◌+◌, ◌-◌, ◌<◌, ◌≤◌, ◌^◌, ◌++◌, length, vec_len, IsSome};
ghost use Rattle.std.specs.Thread.{IsSync};
ghost use Rattle.tm_irq.specs.Bench.{bench_lists};
ghost use Rattle.tm_plant.specs.Plant.{acts_of};
ghost use Rattle.tm_plant.specs.Plays.{raised_by, stored_by};
ghost use Rattle.tm_live.specs.Growth.{GrewBy};
ghost use Rattle.tm_live.specs.Kernel.{TookSlices, GoesOnBy};
ghost use Rattle.tm_live.specs.Devices.{AllPlayed, GrewByRaises, GrewByStores};
ghost use Rattle.tm_live.specs.Drive.{deeds_at, tape_since};

use crate::devices::play_all;
use crate::kernel::take_slices;
use crate::tape::Tape;
use std::thread::{Threads, join_mut};
use tm_io::Gate;
use tm_irq::{Bench, DeviceSeat, KernelSeat};
use tm_plant::Plant;
use tm_record::Recorder;

/// Takes so many slices of length `len`, at most 1,048,576, while each device of the plant does its acts in
/// a thread of its own. Slice by slice the kernel's part takes the lines that pend and latches the ports,
/// and gives the slice to the tape and to the recorder, also where the recorder's run has ended.
///
/// The gate is told how many slices the recorder has before each take, and the device's number before each
/// raise, store and look. Nothing here takes memory or can be refused.
pub fn drive<R: Threads + Sync, G: Gate>(
    rt: &R,
    bench: &mut Bench,
    recorder: &mut Recorder,
    plant: &Plant,
    slices: u32,
    len: u32,
    tape: &mut Tape,
    gate: &G,
)
    requires open { IsSome bench.old.kernel }
    requires few { length (bench_lists bench.old).takes < 2 ^ 46 }
    requires devices { length plant.now ≤ vec_len bench.old.devices }
    requires short { len ≤ 1048576 }
    requires room { slices ≤ tape.old.room }
    requires allowed { recorder.old.slices + slices < 2 ^ 32 }
    ensures open { IsSome bench.new.kernel }
    ensures seats { vec_len bench.new.devices ≡ vec_len bench.old.devices }
    ensures closed { bench.new.closed ≡ bench.old.closed }
    ensures takes { GrewBy slices (bench_lists bench.old).takes (bench_lists bench.new).takes }
    ensures latches { GrewBy slices (bench_lists bench.old).latches (bench_lists bench.new).latches }
    ensures raises { (device : ℕ) → device < vec_len bench.old.devices → GrewByRaises (raised_by (acts_of plant.now device)) (deeds_at (bench_lists bench.old) device).raises (deeds_at (bench_lists bench.new) device).raises }
    ensures stores { (device : ℕ) → device < vec_len bench.old.devices → GrewByStores (stored_by (acts_of plant.now device)) (deeds_at (bench_lists bench.old) device).stores (deeds_at (bench_lists bench.new) device).stores }
    ensures tape { tape.new.slices ≡ tape.old.slices ++ tape_since (bench_lists bench.old) (bench_lists bench.new) len }
    ensures room { tape.new.room ≡ tape.old.room - slices }
    ensures stands { GoesOnBy (tape_since (bench_lists bench.old) (bench_lists bench.new) len) recorder.old recorder.new }
    ensures slices { recorder.new.slices ≡ recorder.old.slices + slices }
{
    let Some(mut kernel) = bench.kernel.take() else {
        unreachable!()
    };
    run_beside(
        rt,
        &mut kernel,
        bench.devices.as_mut_slice(),
        recorder,
        plant,
        slices,
        len,
        tape,
        gate,
    );
    bench.kernel = Some(kernel);
}

/// The kernel's part in one thread and the devices in others.
fn run_beside<R: Threads + Sync, G: Gate>(
    rt: &R,
    kernel: &mut KernelSeat,
    devices: &mut [DeviceSeat],
    recorder: &mut Recorder,
    plant: &Plant,
    slices: u32,
    len: u32,
    tape: &mut Tape,
    gate: &G,
)
    requires few { length kernel.old.takes < 2 ^ 46 }
    requires devices { length devices.old ≤ 8 }
    requires short { len ≤ 1048576 }
    requires room { slices ≤ tape.old.room }
    requires allowed { recorder.old.slices + slices < 2 ^ 32 }
    ensures kernel { TookSlices slices len kernel.old kernel.new tape.old tape.new recorder.old recorder.new }
    ensures devices { AllPlayed plant.now devices.old devices.new }
{
    join_mut(
        rt,
        &mut ||
            requires { (length kernel.now.takes < 2 ^ 46) × (len ≤ 1048576) × (slices ≤ tape.now.room) × (recorder.now.slices + slices < 2 ^ 32) }
            ensures { TookSlices slices len kernel.entry.now kernel.exit.now tape.entry.now tape.exit.now recorder.entry.now recorder.exit.now }
        { take_slices(kernel, recorder, slices, len, tape, gate) },
        &mut ||
            requires { IsSync R.row × (length devices.now ≤ 8) }
            ensures { AllPlayed plant.entry.now devices.entry.now devices.exit.now }
        { play_all(rt, devices, plant, gate) },
    );
}
