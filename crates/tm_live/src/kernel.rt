//! The kernel's part of a drive.

ghost use Rattle.std.specs.Prelude.{◌≡◌, ◌+◌, ◌-◌, ◌<◌, ◌≤◌, ◌^◌, [], ◌∷◌, length};
ghost use Rattle.tm_image.specs.Plan.{IsSlice};
ghost use Rattle.tm_live.specs.Tape.{taped};
ghost use Rattle.tm_live.specs.Kernel.{TookSlices, GoesOnBy, with_slice};

use crate::tape::Tape;
use tm_io::Gate;
use tm_irq::KernelSeat;
use tm_marker::Slice;
use tm_record::Recorder;

/// Takes slices of one length, as many as are asked for, and gives each to the tape and to the
/// recorder. Before each take the gate is told how many slices the recorder has.
pub(crate) fn take_slices<G: Gate>(
    kernel: &mut KernelSeat,
    recorder: &mut Recorder,
    slices: u32,
    len: u32,
    tape: &mut Tape,
    gate: &G,
)
    requires few { length kernel.old.takes < 2 ^ 46 }
    requires allowed { recorder.old.slices + slices < 2 ^ 32 }
    requires short { len ≤ 1048576 }
    requires room { slices ≤ tape.old.room }
    ensures { TookSlices slices len kernel.old kernel.new tape.old tape.new recorder.old recorder.new }
{
    for _ in 0..slices {
        gate.slice(recorder.slices());
        let slice = take_slice(kernel, len);
        give(slice, tape, recorder);
    }
}

/// A slice of so many instructions, at most 1,048,576, with the lines of one take and the port words of the latch
/// after it. It takes no memory.
pub fn take_slice(kernel: &mut KernelSeat, len: u32) -> Slice
    requires few { length kernel.old.takes < 2 ^ 47 }
    requires short { len ≤ 1048576 }
    ensures length { result.length ≡ len }
    ensures sound { IsSlice result }
    ensures kernel { kernel.new ≡ with_slice kernel.old result }
{
    let mask = kernel.take();
    let ports = kernel.latch();
    Slice {
        length: len,
        mask,
        ports,
    }
}

/// The slice goes onto the tape and into the recorder.
fn give(slice: Slice, tape: &mut Tape, recorder: &mut Recorder)
    requires sound { IsSlice slice }
    requires room { 0 < tape.old.room }
    requires allowed { recorder.old.slices < 2 ^ 32 - 1 }
    ensures tape { tape.new ≡ taped tape.old slice }
    ensures stands { GoesOnBy (slice ∷ []) recorder.old recorder.new }
    ensures slices { recorder.new.slices ≡ recorder.old.slices + 1 }
{
    tape.push(slice);
    recorder.slice(&slice);
}
