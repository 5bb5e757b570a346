//! What no clause says: that the kernel's part and the devices run beside each other, slice by slice.

use crate::{Tape, drive};
use std::alloc::Global;
use std::process::Abort;
use std::sync::atomic::{AtomicU64, Ordering};
use std::test::Fail;
use std::thread;
use std::thread::Threads;
use tm_image::read_image;
use tm_io::{Gate, Open};
use tm_irq::Bench;
use tm_marker::Slice;
use tm_plant::{Plant, read_plant};
use tm_record::Recorder;

/// A task that terminates at once.
const ENDS: &[u8] = b"tmi 1\ntask 0 basic 1 auto 0 1\ntext 0 00200893 00000073\n";

/// A task that jumps to itself, and one of greater priority that a line starts and that terminates.
const PREEMPTED: &[u8] =
    b"tmi 1\ntask 0 basic 1 auto 0 1\ntext 0 0000006f\ntask 1 basic 2 off 0 1\ntext 1 00200893 00000073\nline 1 activate 1\n";

/// A slice of which each port is 0.
fn quiet(length: u32, mask: u32) -> Slice {
    Slice {
        length,
        mask,
        ports: [0; 4],
    }
}

fn recorder(rt: &impl Abort, alloc: Global, image: &[u8]) -> Result<Recorder, Fail> {
    assert!(rt; image.len() < 1 << 20);
    let image = read_image(alloc, image).expect(rt, "the image is read");
    let recorder = Recorder::open(alloc, image)?;
    Ok(recorder)
}

fn plant(rt: &impl Abort, alloc: Global, plant: &[u8]) -> Plant {
    assert!(rt; plant.len() < 1 << 20);
    read_plant(alloc, plant).expect(rt, "the plant is read")
}

/// The tape of a drive by eight devices.
fn driven<R: Threads + Abort + Sync, G: Gate>(
    rt: &R,
    alloc: Global,
    recorder: &mut Recorder,
    plant: &Plant,
    slices: u32,
    len: u32,
    gate: &G,
) -> Result<Tape, Fail> {
    assert!(rt; recorder.slices() < 1 << 20 && slices < 1 << 20 && len < 1 << 20);
    assert!(rt; plant.devices() <= 8);
    let mut bench = Bench::new(alloc, 8)?;
    let mut tape = Tape::new(alloc, slices)?;
    drive(
        rt, &mut bench, recorder, plant, slices, len, &mut tape, gate,
    );
    Ok(tape)
}

#[test]
fn without_devices_each_slice_is_quiet(rt: HostRuntime) -> Result<(), Fail> {
    let mut recorder = recorder(&rt, rt.alloc(), ENDS)?;
    let plant = plant(&rt, rt.alloc(), b"tmplant 1\n");
    let tape = driven(&rt, rt.alloc(), &mut recorder, &plant, 2, 2, &Open)?;
    assert!(rt; tape.slices() == [quiet(2, 0); 2].as_slice());
    assert_eq!(rt; (tape.room(), recorder.slices()), (0, 2));
    Ok(())
}

/// A gate at which the first act waits for the second slice, and the second slice for the second act.
#[derive(Drop)]
struct Meet {
    acts: AtomicU64,
    slices: AtomicU64,
    failures: AtomicU64,
}

impl Meet {
    fn new() -> Self {
        Meet {
            acts: AtomicU64::new(0),
            slices: AtomicU64::new(0),
            failures: AtomicU64::new(0),
        }
    }

    /// Waits until so many were counted, or fails after many turns.
    fn wait(&self, count: &AtomicU64, wanted: u64) {
        for _ in 0..100_000_000u32 {
            if count.load(Ordering::SeqCst) >= wanted {
                return;
            }
            thread::yield_now();
        }
        self.failures.fetch_add(1, Ordering::SeqCst);
    }
}

impl Gate for Meet {
    fn at(&self, place: u8) {
        if place != 0 {
            self.failures.fetch_add(1, Ordering::SeqCst);
        }
        if self.acts.fetch_add(1, Ordering::SeqCst) == 0 {
            self.wait(&self.slices, 2);
        }
    }

    fn slice(&self, done: u64) {
        if self.slices.fetch_add(1, Ordering::SeqCst) != done {
            self.failures.fetch_add(1, Ordering::SeqCst);
        }
        if done == 1 {
            self.wait(&self.acts, 2);
        }
    }
}

#[test]
fn a_raise_after_the_first_take_is_in_the_second(rt: HostRuntime) -> Result<(), Fail> {
    let gate = Meet::new();
    let mut recorder = recorder(&rt, rt.alloc(), PREEMPTED)?;
    let plant = plant(&rt, rt.alloc(), b"tmplant 1\ndevice 0\nraise 0 1 2\n");
    let tape = driven(&rt, rt.alloc(), &mut recorder, &plant, 2, 4, &gate)?;
    assert!(rt; tape.slices() == [quiet(4, 0), quiet(4, 2)].as_slice());
    assert_eq!(rt; (tape.room(), recorder.slices()), (0, 2));
    assert_eq!(rt; gate.slices.load(Ordering::SeqCst), 2);
    assert_eq!(rt; gate.failures.load(Ordering::SeqCst), 0);
    Ok(())
}
