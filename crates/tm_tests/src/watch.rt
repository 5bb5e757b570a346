//! Runs that observers look at: what `watch` puts and prints, and that its slices and its looks go on beside each
//! other.

use crate::calls::{call, shelf, watch_past};
use std::sync::atomic::{AtomicU64, Ordering};
use std::test::Fail;
use std::thread;
use tm_io::{Gate, MemSink, Open};
use tm_prog::Status;

/// A task that terminates at once.
const ENDS: &[u8] = b"tmi 1\ntask 0 basic 1 auto 0 1\ntext 0 00200893 00000073\n";

/// A task that jumps to itself, and one of greater priority that a line starts and that terminates.
const PREEMPTED: &[u8] =
    b"tmi 1\ntask 0 basic 1 auto 0 1\ntext 0 0000006f\ntask 1 basic 2 off 0 1\ntext 1 00200893 00000073\nline 1 activate 1\n";

/// A plant without devices.
const QUIET: &[u8] = b"tmplant 1\n";

const TWO_OBSERVERS: [&str; 8] = [
    "watch",
    "i",
    "p",
    "w",
    "--slices=2",
    "--len=2",
    "--observers=2",
    "--looks=3",
];

#[test]
fn each_observer_has_a_beginning_and_the_end_is_the_whole(rt: HostRuntime) -> Result<(), Fail> {
    let alloc = rt.alloc();
    let mut shelf = shelf(alloc, ENDS, QUIET, &[])?;
    for name in ["w.0", "w.1", "w.end", "d"] {
        shelf.room(name, 508)?;
    }
    shelf.add("t", b"tmplan 1\nslice 2 0\nslice 2 0\n")?;
    let mut sink = MemSink::new(alloc, 64, &[])?;
    sink.room(9)?;
    assert_eq!(rt;
        watch_past(&rt, alloc, &TWO_OBSERVERS, &mut shelf, &mut sink, &Open)?,
        Status::Ok
    );
    assert_eq!(rt; sink.bytes(), b"slices 2\n".as_slice());
    let record = ["record", "i", "t", "d"];
    assert_eq!(rt;
        call(&rt, alloc, &record, &mut shelf, &mut sink)?,
        Status::Ok
    );
    let whole = shelf.content("d").unwrap_or_default();
    assert_eq!(rt; whole.len(), 508);
    assert!(rt; shelf.content("w.end") == Some(whole));
    for name in ["w.0", "w.1"] {
        let seen = shelf.content(name).unwrap_or_default();
        assert!(rt; seen == whole || seen.len() == 269);
    }
    Ok(())
}

#[test]
fn a_put_that_fails_leaves_those_before_it_and_none_after_it(rt: HostRuntime) -> Result<(), Fail> {
    let alloc = rt.alloc();
    let before = b"as it was".as_slice();
    let names = [(3, "w.0"), (4, "w.1"), (5, "w.end")];
    for failing in [3, 4, 5] {
        let mut shelf = shelf(alloc, ENDS, QUIET, &[failing])?;
        for (_, name) in names {
            shelf.add(name, before)?;
            shelf.room(name, 508)?;
        }
        let mut sink = MemSink::new(alloc, 64, &[])?;
        assert_eq!(rt;
            watch_past(&rt, alloc, &TWO_OBSERVERS, &mut shelf, &mut sink, &Open)?,
            Status::WriteFault
        );
        assert!(rt; sink.bytes().is_empty());
        for (put, name) in names {
            if put < failing {
                let length = shelf.content(name).unwrap_or_default().len();
                assert!(rt; length == 269 || length == 508);
            }
            if put > failing {
                assert_eq!(rt; shelf.content(name), Some(before));
            }
        }
    }
    Ok(())
}

#[test]
fn what_is_read_is_refused_before_anything_is_put(rt: HostRuntime) -> Result<(), Fail> {
    let alloc = rt.alloc();
    let cases: [(&[u8], &[u8], &[u64], u8); 5] = [
        (b"tmi 3\n", QUIET, &[], 4),
        (ENDS, b"tmplant 2\n", &[], 5),
        (ENDS, b"tmplan 1\n", &[], 5),
        (ENDS, QUIET, &[1], 3),
        (ENDS, QUIET, &[2], 3),
    ];
    for (image, plant, fail, code) in cases {
        let mut shelf = shelf(alloc, image, plant, fail)?;
        let mut sink = MemSink::new(alloc, 64, &[])?;
        let status = watch_past(&rt, alloc, &TWO_OBSERVERS, &mut shelf, &mut sink, &Open)?;
        assert_eq!(rt; status.code(), code);
        assert!(rt; shelf.content("w.0").is_none() && shelf.content("w.end").is_none());
        assert!(rt; sink.bytes().is_empty());
    }
    let mut shelf = shelf(alloc, ENDS, QUIET, &[])?;
    let mut sink = MemSink::new(alloc, 64, &[])?;
    let mut asked = TWO_OBSERVERS;
    asked[6] = "--observers=5";
    let status = watch_past(&rt, alloc, &asked, &mut shelf, &mut sink, &Open)?;
    assert_eq!(rt; status, Status::Words);
    Ok(())
}

/// A gate at which the first look waits for the second slice, and the second slice for the end of the first look.
#[derive(Drop)]
struct Meet {
    looks: AtomicU64,
    slices: AtomicU64,
    failures: AtomicU64,
}

impl Meet {
    fn new() -> Self {
        Meet {
            looks: AtomicU64::new(0),
            slices: AtomicU64::new(0),
            failures: AtomicU64::new(0),
        }
    }

    /// Waits until so many were counted, or fails after many turns.
    fn wait(&self, count: &AtomicU64, wanted: u64) {
        for _ in 0..100_000_000u32 {
            if count.load(Ordering::SeqCst) >= wanted {
                return;
            }
            thread::yield_now();
        }
        self.failures.fetch_add(1, Ordering::SeqCst);
    }
}

impl Gate for Meet {
    fn at(&self, place: u8) {
        if place != 16 {
            self.failures.fetch_add(1, Ordering::SeqCst);
        }
        if self.looks.fetch_add(1, Ordering::SeqCst) == 0 {
            self.wait(&self.slices, 2);
        }
    }

    fn slice(&self, done: u64) {
        if self.slices.fetch_add(1, Ordering::SeqCst) != done {
            self.failures.fetch_add(1, Ordering::SeqCst);
        }
        if done == 1 {
            self.wait(&self.looks, 2);
        }
    }
}

#[test]
fn a_look_between_two_slices_is_of_the_first(rt: HostRuntime) -> Result<(), Fail> {
    let alloc = rt.alloc();
    let gate = Meet::new();
    let mut shelf = shelf(alloc, PREEMPTED, QUIET, &[])?;
    for name in ["w.0", "w.end", "d", "e"] {
        shelf.room(name, 4096)?;
    }
    shelf.add("once", b"tmplan 1\nslice 5 0\n")?;
    shelf.add("twice", b"tmplan 1\nslice 5 0\nslice 5 0\n")?;
    let mut sink = MemSink::new(alloc, 64, &[])?;
    sink.room(64)?;
    let watch = [
        "watch",
        "i",
        "p",
        "w",
        "--slices=2",
        "--len=5",
        "--observers=1",
        "--looks=1",
    ];
    assert_eq!(rt;
        watch_past(&rt, alloc, &watch, &mut shelf, &mut sink, &gate)?,
        Status::Ok
    );
    assert_eq!(rt; gate.failures.load(Ordering::SeqCst), 0);
    for record in [["record", "i", "once", "d"], ["record", "i", "twice", "e"]] {
        assert_eq!(rt;
            call(&rt, alloc, &record, &mut shelf, &mut sink)?,
            Status::Ok
        );
    }
    assert!(rt; shelf.content("w.0").is_some());
    assert!(rt; shelf.content("w.0") == shelf.content("d"));
    assert!(rt; shelf.content("w.end") == shelf.content("e"));
    assert!(rt; shelf.content("d") != shelf.content("e"));
    Ok(())
}
