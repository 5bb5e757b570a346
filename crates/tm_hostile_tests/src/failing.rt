//! Puts and writes that fail: what they leave.

use crate::calls::{DUMP, IMAGE, TEXT, call, call_at_bench, recorded, replay, traced};
use std::alloc::Global;
use std::process::Abort;
use std::test::Fail;
use std::thread::Threads;
use tm_io::{MemShelf, MemSink};
use tm_prog::Status;

const BEFORE: &[u8] = b"as it was";

/// The shelf after a run beside no devices whose dump is to be `d` and whose tape `t`, and of which the shelf's
/// call of this number fails.
fn live<R: Threads + Abort + Sync>(rt: &R, alloc: Global, failing: u64) -> Result<MemShelf, Fail> {
    let mut shelf = MemShelf::new(alloc, &[failing])?;
    shelf.add("i", IMAGE)?;
    shelf.add("p", b"tmplant 1\n")?;
    for (name, most) in [("d", DUMP), ("t", 200)] {
        shelf.add(name, BEFORE)?;
        shelf.room(name, most)?;
    }
    let mut sink = MemSink::new(alloc, 64, &[])?;
    sink.room(9)?;
    let live = ["live", "i", "p", "d", "--slices=2", "--len=2", "--tape=t"];
    let (status, bench) = call_at_bench(rt, alloc, &live, &mut shelf, &mut sink)?;
    assert_eq!(rt; status, Status::WriteFault);
    assert!(rt; sink.bytes().is_empty());
    assert_eq!(rt; shelf.content("t"), Some(BEFORE));
    assert!(rt; bench.kernel.is_none() && bench.closed.is_some());
    Ok(shelf)
}

#[test]
fn without_its_dump_a_live_run_puts_no_tape(rt: HostRuntime) -> Result<(), Fail> {
    let shelf = live(&rt, rt.alloc(), 3)?;
    assert_eq!(rt; shelf.content("d"), Some(BEFORE));
    Ok(())
}

#[test]
fn without_its_tape_a_live_run_has_put_its_dump(rt: HostRuntime) -> Result<(), Fail> {
    let alloc = rt.alloc();
    let mut shelf = live(&rt, alloc, 4)?;
    shelf.add("twice", b"tmplan 1\nslice 2 0\nslice 2 0\n")?;
    shelf.room("e", DUMP)?;
    let mut sink = MemSink::new(alloc, 64, &[])?;
    let record = ["record", "i", "twice", "e"];
    let status = call(&rt, alloc, &record, &mut shelf, &mut sink)?;
    assert_eq!(rt; status, Status::Ok);
    let whole = shelf.content("e").unwrap_or_default();
    assert_eq!(rt; whole.len(), DUMP);
    assert!(rt; shelf.content("d") == Some(whole));
    Ok(())
}

#[test]
fn a_replay_whose_write_fails_leaves_a_beginning(rt: HostRuntime) -> Result<(), Fail> {
    let alloc = rt.alloc();
    let dump = recorded(&rt, alloc)?;
    let text = traced(&rt, alloc)?;
    for (failing, length) in [(1, 0), (3, 128)] {
        let mut sink = MemSink::new(alloc, 64, &[failing])?;
        sink.room(TEXT)?;
        let status = replay(&rt, alloc, &dump, &mut sink)?;
        assert_eq!(rt; status, Status::WriteFault);
        assert_eq!(rt; sink.bytes().len(), length);
        assert!(rt; text.as_slice().starts_with(sink.bytes()));
    }
    Ok(())
}
