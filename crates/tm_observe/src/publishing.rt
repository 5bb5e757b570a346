//! The kernel's part of a run that is published.

ghost use Rattle.std.specs.Prelude.{◌≡◌, ℕ, ◌+◌, ◌<◌, ◌≤◌, ◌^◌, length, OnOk};
ghost use Rattle.tm_observe.specs.Published.{PublishedSlices, WentOn};

use crate::observing::Pace;
use std::alloc::AllocError;
use std::sync::Wait;
use tm_io::Gate;
use tm_irq::KernelSeat;
use tm_live::{Tape, take_slice};
use tm_watch::Watch;

/// Takes slices of one length, as many as are asked for, publishes each, and puts it on the tape. Before each take the
/// gate is told how many slices are published.
///
/// # Errors
///
/// There is too little memory for a publishing. That slice is neither published nor on the tape, and none comes after.
pub(crate) fn publish_slices<R: Wait, G: Gate>(
    rt: &R,
    kernel: &mut KernelSeat,
    watch: &mut Watch,
    pace: &Pace,
    tape: &mut Tape,
    gate: &G,
) -> Result<(), AllocError>
    requires few { length kernel.old.takes < 2 ^ 46 }
    requires allowed { length watch.old.list + pace.now.slices < 2 ^ 32 }
    requires short { pace.now.len ≤ 1048576 }
    requires room { pace.now.slices ≤ tape.old.room }
    ensures all { OnOk result (PublishedSlices pace.now.slices pace.now.len kernel.old kernel.new tape.old tape.new watch.old watch.new) }
    ensures some { WentOn pace.now.slices kernel.old kernel.new watch.old watch.new }
{
    for _ in 0..pace.slices {
        gate.slice(watch.slices());
        let slice = take_slice(kernel, pace.len);
        watch.publish(rt, &slice)?;
        tape.push(slice);
    }
    Ok(())
}
