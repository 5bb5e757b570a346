//! Calls of `tm` over the run of a task that terminates at once.

use std::alloc::{AllocError, Global};
use std::process::Abort;
use std::test::Fail;
use std::thread::Threads;
use tm_io::{MemShelf, MemSink, Open};
use tm_irq::Bench;
use tm_prog::{Status, tm};

pub const IMAGE: &[u8] = b"tmi 1\ntask 0 basic 1 auto 0 1\ntext 0 00200893 00000073\n";

const PLAN: &[u8] = b"tmplan 1\nslice 2 0\n";

/// The text of the run has this many bytes.
pub const TEXT: usize = 172;

/// The dump of the run has this many bytes.
pub const DUMP: usize = 508;

/// A call with these words, at a new bench of eight devices, and the bench after it.
pub fn call_at_bench(
    rt: &(impl Threads + Sync),
    alloc: Global,
    asked: &[&str],
    shelf: &mut MemShelf,
    sink: &mut MemSink,
) -> Result<(Status, Bench), AllocError> {
    let mut words = Vec::new(alloc);
    for word in asked {
        words.push(String::from_str(alloc, word)?)?;
    }
    let mut bench = Bench::new(alloc, 8)?;
    let status = tm(rt, alloc, &words, shelf, sink, &mut bench, &Open);
    Ok((status, bench))
}

/// A call with these words.
pub fn call(
    rt: &(impl Threads + Sync),
    alloc: Global,
    asked: &[&str],
    shelf: &mut MemShelf,
    sink: &mut MemSink,
) -> Result<Status, AllocError> {
    let (status, _bench) = call_at_bench(rt, alloc, asked, shelf, sink)?;
    Ok(status)
}

/// A shelf with the image as `i` and the plan as `p`.
fn shelf(alloc: Global) -> Result<MemShelf, AllocError> {
    let mut shelf = MemShelf::new(alloc, &[])?;
    shelf.add("i", IMAGE)?;
    shelf.add("p", PLAN)?;
    Ok(shelf)
}

/// The text of the run, by a call of `trace`.
pub fn traced<R: Threads + Abort + Sync>(rt: &R, alloc: Global) -> Result<Vec<u8>, Fail> {
    let mut shelf = shelf(alloc)?;
    let mut sink = MemSink::new(alloc, 64, &[])?;
    sink.room(TEXT)?;
    let status = call(rt, alloc, &["trace", "i", "p"], &mut shelf, &mut sink)?;
    assert_eq!(rt; status, Status::Ok);
    assert_eq!(rt; sink.bytes().len(), TEXT);
    Ok(Vec::from_slice(alloc, sink.bytes())?)
}

/// The dump of the run, by a call of `record`.
pub fn recorded<R: Threads + Abort + Sync>(rt: &R, alloc: Global) -> Result<Vec<u8>, Fail> {
    let mut shelf = shelf(alloc)?;
    shelf.room("d", DUMP)?;
    let mut sink = MemSink::new(alloc, 64, &[])?;
    let record = ["record", "i", "p", "d"];
    let status = call(rt, alloc, &record, &mut shelf, &mut sink)?;
    assert_eq!(rt; status, Status::Ok);
    let dump = shelf.content("d").unwrap_or_default();
    assert_eq!(rt; dump.len(), DUMP);
    Ok(Vec::from_slice(alloc, dump)?)
}

/// A replay from boot, with these bytes as the dump.
pub fn replay(
    rt: &(impl Threads + Sync),
    alloc: Global,
    dump: &[u8],
    sink: &mut MemSink,
) -> Result<Status, AllocError> {
    let mut shelf = shelf(alloc)?;
    shelf.add("d", dump)?;
    let replay = ["replay", "i", "d", "--from", "0"];
    call(rt, alloc, &replay, &mut shelf, sink)
}

/// What a replay from boot answers that prints nothing.
pub fn answer<R: Threads + Abort + Sync>(
    rt: &R,
    alloc: Global,
    dump: &[u8],
) -> Result<Status, Fail> {
    let mut sink = MemSink::new(alloc, 64, &[])?;
    sink.room(TEXT)?;
    let status = replay(rt, alloc, dump, &mut sink)?;
    assert!(rt; sink.bytes().is_empty());
    Ok(status)
}
