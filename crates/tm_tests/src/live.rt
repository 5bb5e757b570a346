//! Runs beside devices: what `live` puts and prints, and that its slices go on beside the devices.

use crate::calls::{call, call_past, shelf};
use std::sync::atomic::{AtomicU64, Ordering};
use std::test::Fail;
use std::thread;
use tm_io::{Gate, MemSink};
use tm_prog::Status;

/// A task that terminates at once.
const ENDS: &[u8] = b"tmi 1\ntask 0 basic 1 auto 0 1\ntext 0 00200893 00000073\n";

/// A task that jumps to itself, and one of greater priority that a line starts and that terminates.
const PREEMPTED: &[u8] =
    b"tmi 1\ntask 0 basic 1 auto 0 1\ntext 0 0000006f\ntask 1 basic 2 off 0 1\ntext 1 00200893 00000073\nline 1 activate 1\n";

/// Two slices without devices.
const QUIET_TAPE: &[u8] = b"tmplan 1\n\
    slice 2 0x0000 0x00000000 0x00000000 0x00000000 0x00000000\n\
    slice 2 0x0000 0x00000000 0x00000000 0x00000000 0x00000000\n";

/// Two slices, the second of which has line 1.
const TAPE: &[u8] = b"tmplan 1\n\
    slice 4 0x0000 0x00000000 0x00000000 0x00000000 0x00000000\n\
    slice 4 0x0002 0x00000000 0x00000000 0x00000000 0x00000000\n";

#[test]
fn without_devices_the_run_is_that_of_quiet_slices(rt: HostRuntime) -> Result<(), Fail> {
    let alloc = rt.alloc();
    let mut shelf = shelf(alloc, ENDS, b"tmplant 1\n", &[])?;
    for (name, most) in [("d", 508), ("t", 200), ("e", 508)] {
        shelf.room(name, most)?;
    }
    let mut sink = MemSink::new(alloc, 64, &[])?;
    sink.room(9)?;
    assert_eq!(rt;
        call(
            &rt,
            alloc,
            &[
                "live", "i", "p", "d", "--slices", "2", "--len", "2", "--tape", "t"
            ],
            &mut shelf,
            &mut sink,
        )?,
        Status::Ok
    );
    assert_eq!(rt; sink.bytes(), b"slices 2\n".as_slice());
    assert_eq!(rt; shelf.content("t"), Some(QUIET_TAPE));
    let record = ["record", "i", "t", "e"];
    assert_eq!(rt;
        call(&rt, alloc, &record, &mut shelf, &mut sink)?,
        Status::Ok
    );
    assert_eq!(rt; shelf.content("d").map(|dump| dump.len()), Some(508));
    assert!(rt; shelf.content("d") == shelf.content("e"));
    Ok(())
}

#[test]
fn a_replay_from_boot_is_the_trace_of_the_tape(rt: HostRuntime) -> Result<(), Fail> {
    let alloc = rt.alloc();
    let plant = b"tmplant 1\ndevice 0\nraise 0 1 3\n";
    let mut shelf = shelf(alloc, PREEMPTED, plant, &[])?;
    shelf.room("d", 4096)?;
    shelf.room("t", 4096)?;
    let mut audit = MemSink::new(alloc, 64, &[])?;
    audit.room(2048)?;
    let mut traced = MemSink::new(alloc, 64, &[])?;
    traced.room(4096)?;
    let mut replayed = MemSink::new(alloc, 64, &[])?;
    replayed.room(4096)?;
    let live = ["live", "i", "p", "d", "--slices=10", "--len=4", "--tape=t"];
    assert_eq!(rt;
        call(&rt, alloc, &live, &mut shelf, &mut audit)?,
        Status::Ok
    );
    let trace = ["trace", "i", "t"];
    assert_eq!(rt;
        call(&rt, alloc, &trace, &mut shelf, &mut traced)?,
        Status::Ok
    );
    let replay = ["replay", "i", "d", "--from", "0"];
    assert_eq!(rt;
        call(&rt, alloc, &replay, &mut shelf, &mut replayed)?,
        Status::Ok
    );
    assert!(rt;
        audit
            .bytes()
            .starts_with(b"slices 10\nline 1 raised 3 joined ")
    );
    assert!(rt; !traced.bytes().is_empty());
    assert!(rt; replayed.bytes() == traced.bytes());
    Ok(())
}

/// A gate at which the first act waits for the second slice, and the second slice for the second act.
#[derive(Drop)]
struct Meet {
    acts: AtomicU64,
    slices: AtomicU64,
    failures: AtomicU64,
}

impl Meet {
    fn new() -> Self {
        Meet {
            acts: AtomicU64::new(0),
            slices: AtomicU64::new(0),
            failures: AtomicU64::new(0),
        }
    }

    /// Waits until so many were counted, or fails after many turns.
    fn wait(&self, count: &AtomicU64, wanted: u64) {
        for _ in 0..100_000_000u32 {
            if count.load(Ordering::SeqCst) >= wanted {
                return;
            }
            thread::yield_now();
        }
        self.failures.fetch_add(1, Ordering::SeqCst);
    }
}

impl Gate for Meet {
    fn at(&self, place: u8) {
        if place != 0 {
            self.failures.fetch_add(1, Ordering::SeqCst);
        }
        if self.acts.fetch_add(1, Ordering::SeqCst) == 0 {
            self.wait(&self.slices, 2);
        }
    }

    fn slice(&self, done: u64) {
        if self.slices.fetch_add(1, Ordering::SeqCst) != done {
            self.failures.fetch_add(1, Ordering::SeqCst);
        }
        if done == 1 {
            self.wait(&self.acts, 2);
        }
    }
}

#[test]
fn a_raise_after_the_first_take_is_in_the_second(rt: HostRuntime) -> Result<(), Fail> {
    let alloc = rt.alloc();
    let gate = Meet::new();
    let plant = b"tmplant 1\ndevice 0\nraise 0 1 2\n";
    let mut shelf = shelf(alloc, PREEMPTED, plant, &[])?;
    shelf.room("d", 4096)?;
    shelf.room("t", 200)?;
    let mut sink = MemSink::new(alloc, 64, &[])?;
    sink.room(2048)?;
    let live = ["live", "i", "p", "d", "--slices=2", "--len=4", "--tape=t"];
    assert_eq!(rt;
        call_past(&rt, alloc, &live, &mut shelf, &mut sink, &gate)?,
        Status::Ok
    );
    assert_eq!(rt; shelf.content("t"), Some(TAPE));
    assert_eq!(rt; gate.slices.load(Ordering::SeqCst), 2);
    assert_eq!(rt; gate.failures.load(Ordering::SeqCst), 0);
    Ok(())
}
