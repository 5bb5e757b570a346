//! A call of `tm` over an image and a plan in memory.

use std::alloc::{AllocError, Global};
use std::sync::Wait;
use std::thread::Threads;
use tm_io::{Gate, MemShelf, MemSink, Open};
use tm_irq::Bench;
use tm_prog::{Status, tm, watch};

/// The words of a call.
fn words(alloc: Global, words: &[&str]) -> Result<Vec<String>, AllocError> {
    let mut all = Vec::new(alloc);
    for word in words {
        all.push(String::from_str(alloc, word)?)?;
    }
    Ok(all)
}

/// A shelf with the image as `i` and the plan as `p`, whose calls with these numbers fail.
pub fn shelf(
    alloc: Global,
    image: &[u8],
    plan: &[u8],
    fail: &[u64],
) -> Result<MemShelf, AllocError> {
    let mut shelf = MemShelf::new(alloc, fail)?;
    shelf.add("i", image)?;
    shelf.add("p", plan)?;
    Ok(shelf)
}

/// A call with these words, at a new bench of eight devices.
pub fn call(
    rt: &(impl Threads + Sync),
    alloc: Global,
    asked: &[&str],
    shelf: &mut MemShelf,
    sink: &mut MemSink,
) -> Result<Status, AllocError> {
    call_past(rt, alloc, asked, shelf, sink, &Open)
}

/// The same, with threads that wait at a gate.
pub fn call_past<G: Gate>(
    rt: &(impl Threads + Sync),
    alloc: Global,
    asked: &[&str],
    shelf: &mut MemShelf,
    sink: &mut MemSink,
    gate: &G,
) -> Result<Status, AllocError> {
    let words = words(alloc, asked)?;
    let mut bench = Bench::new(alloc, 8)?;
    Ok(tm(rt, alloc, &words, shelf, sink, &mut bench, gate))
}

/// `trace i p` on the shelf, into the sink.
pub fn trace(
    rt: &(impl Threads + Sync),
    alloc: Global,
    shelf: &mut MemShelf,
    sink: &mut MemSink,
) -> Result<Status, AllocError> {
    call(rt, alloc, &["trace", "i", "p"], shelf, sink)
}

/// A call that is asked to watch, at a new bench of eight devices, with threads that wait at a gate.
pub fn watch_past<R: Threads + Wait + Sync, G: Gate>(
    rt: &R,
    alloc: Global,
    asked: &[&str],
    shelf: &mut MemShelf,
    sink: &mut MemSink,
    gate: &G,
) -> Result<Status, AllocError> {
    let words = words(alloc, asked)?;
    let mut bench = Bench::new(alloc, 8)?;
    Ok(watch(rt, alloc, &words, shelf, sink, &mut bench, gate))
}
