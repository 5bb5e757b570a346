//! Replays by several workers: that they are at work beside each other, and that they print what one prints.

use crate::calls::{call, call_past, shelf};
use std::alloc::Global;
use std::process::Abort;
use std::sync::atomic::{AtomicU64, Ordering};
use std::test::Fail;
use std::thread::Threads;
use std::{str, thread};
use tm_io::{Gate, MemShelf, MemSink, Open};
use tm_make::CELL;
use tm_prog::Status;

/// Room for any text or dump here, in bytes.
const ROOM: usize = 1 << 24;

/// How many slices the large plan has.
const SLICES: u32 = 20_000;

/// A task that jumps to itself, and one of greater priority that a line starts and that terminates.
const PREEMPTED: &[u8] =
    b"tmi 1\ntask 0 basic 1 auto 0 1\ntext 0 0000006f\ntask 1 basic 2 off 0 1\ntext 1 00200893 00000073\nline 1 activate 1\n";

/// What a call prints that ends well.
fn printed<R: Threads + Abort + Sync, G: Gate>(
    rt: &R,
    alloc: Global,
    shelf: &mut MemShelf,
    all: &[&str],
    gate: &G,
) -> Result<Vec<u8>, Fail> {
    let mut sink = MemSink::new(alloc, ROOM, &[])?;
    sink.room(ROOM)?;
    let status = call_past(rt, alloc, all, shelf, &mut sink, gate)?;
    assert_eq!(rt; status, Status::Ok);
    Ok(Vec::from_slice(alloc, sink.bytes())?)
}

/// A gate at which the worker of each of two tasks waits for that of the other.
#[derive(Drop)]
struct Meet {
    first: AtomicU64,
    second: AtomicU64,
    failures: AtomicU64,
}

impl Meet {
    fn new() -> Self {
        Meet {
            first: AtomicU64::new(0),
            second: AtomicU64::new(0),
            failures: AtomicU64::new(0),
        }
    }

    /// Counts one worker, and waits until another was counted, or fails after many turns.
    fn come(&self, own: &AtomicU64, other: &AtomicU64) {
        own.fetch_add(1, Ordering::SeqCst);
        for _ in 0..100_000_000u32 {
            if other.load(Ordering::SeqCst) != 0 {
                return;
            }
            thread::yield_now();
        }
        self.fail();
    }

    fn fail(&self) {
        self.failures.fetch_add(1, Ordering::SeqCst);
    }
}

impl Gate for Meet {
    fn at(&self, place: u8) {
        match place {
            0 => self.come(&self.first, &self.second),
            1 => self.come(&self.second, &self.first),
            _ => self.fail(),
        }
    }

    fn slice(&self, _done: u64) {
        self.fail();
    }
}

#[test]
fn two_workers_wait_for_each_other(rt: HostRuntime) -> Result<(), Fail> {
    let alloc = rt.alloc();
    let mut shelf = shelf(alloc, PREEMPTED, b"tmplan 1\nslice 5 0\nslice 2 0x2\n", &[])?;
    shelf.room("d", ROOM)?;
    let trace = printed(&rt, alloc, &mut shelf, &["trace", "i", "p"], &Open)?;
    printed(&rt, alloc, &mut shelf, &["record", "i", "p", "d"], &Open)?;
    let gate = Meet::new();
    let words = ["replay", "i", "d", "--from", "0", "--workers", "2"];
    let replay = printed(&rt, alloc, &mut shelf, &words, &gate)?;
    assert_eq!(rt; gate.first.load(Ordering::SeqCst), 1);
    assert_eq!(rt; gate.second.load(Ordering::SeqCst), 1);
    assert_eq!(rt; gate.failures.load(Ordering::SeqCst), 0);
    assert!(rt; replay == trace);
    Ok(())
}

/// A plan of many slices, each with its number on the first port.
fn large_plan(alloc: Global) -> Result<String, Fail> {
    let mut plan = String::from_str(alloc, "tmplan 1\n")?;
    for number in 0..SLICES {
        plan.push_str(&format!(in alloc; "slice 500 0x1 {number} 0 0 0\n")?)?;
    }
    Ok(plan)
}

/// The number in the first line of a text.
fn first_number(rt: &impl Abort, text: &[u8]) -> u64 {
    let text = str::from_utf8(text).expect(rt, "a text");
    let (line, _) = text.split_once('\n').expect(rt, "a line");
    line.parse::<u64>().expect(rt, "a number")
}

/// The text from some bytes on.
fn text_from<'a>(text: &'a [u8], bytes: &[u8]) -> Option<&'a [u8]> {
    for start in 0..text.len() {
        if text[start..].starts_with(bytes) {
            return Some(&text[start..]);
        }
    }
    None
}

#[test]
fn one_and_eight_workers_print_the_end_of_a_large_run(rt: HostRuntime) -> Result<(), Fail> {
    let alloc = rt.alloc();
    let plan = large_plan(alloc)?;
    let mut shelf = shelf(alloc, CELL.as_bytes(), plan.as_bytes(), &[])?;
    shelf.room("d", ROOM)?;
    let trace = printed(&rt, alloc, &mut shelf, &["trace", "i", "p"], &Open)?;
    printed(&rt, alloc, &mut shelf, &["record", "i", "p", "d"], &Open)?;
    let points = printed(&rt, alloc, &mut shelf, &["points", "i", "d"], &Open)?;
    let least = first_number(&rt, points.as_slice());
    assert!(rt; least < 1 << 20);
    let from = format!(in alloc; "--from={least}")?;
    let line = format!(in alloc; "switch {} ", least + 1)?;
    let one = ["replay", "i", "d", from.as_str(), "--workers=1"];
    let one = printed(&rt, alloc, &mut shelf, &one, &Open)?;
    let eight = ["replay", "i", "d", from.as_str(), "--workers=8"];
    let eight = printed(&rt, alloc, &mut shelf, &eight, &Open)?;
    assert!(rt; one == eight);
    let end = text_from(one.as_slice(), line.as_bytes()).expect(&rt, "the line");
    assert!(rt; trace.as_slice().ends_with(end));
    let mut sink = MemSink::new(alloc, 4096, &[3])?;
    sink.room(ROOM)?;
    let status = call(&rt, alloc, &["trace", "i", "p"], &mut shelf, &mut sink)?;
    assert_eq!(rt; (status, sink.bytes().len()), (Status::WriteFault, 8192));
    assert!(rt; trace.as_slice().starts_with(sink.bytes()));
    Ok(())
}
