//! Dumps that are well formed and of no run of the image: where a replay finds that out, and those in which it
//! finds nothing.

use crate::calls::{TEXT, answer, call, recorded, replay, traced};
use crate::dumps::{changed, closed, put_in};
use std::test::Fail;
use tm_io::{MemShelf, MemSink};
use tm_marker::{Marker, OutputEntry};
use tm_prog::Status;
use tm_system::{Diverged, Why};
use tm_task::Cause;

/// Where the task stands after its first call.
const ENDED: Marker = Marker {
    epoch: 1,
    count: 0,
    pc: 0,
};

/// Before its first call the task stands at this pc.
fn begun(pc: u32) -> Marker {
    Marker {
        epoch: 0,
        count: 0,
        pc,
    }
}

/// The task is to stand where it stands after its first call.
fn diverged(seq: u64, reached: Marker, why: Why) -> Status {
    Status::Diverged(Diverged {
        seq,
        task: 0,
        reached,
        wanted: ENDED,
        why,
    })
}

#[test]
fn a_task_that_does_other_things_has_diverged(rt: HostRuntime) -> Result<(), Fail> {
    let alloc = rt.alloc();
    let dump = recorded(&rt, alloc)?;
    let other = Why::OtherService {
        logged: 1,
        called: 2,
    };
    for (place, pc, why) in [
        (132, 4, other),
        (133, 8, Why::Faulted(Cause::Fetch)),
        (289, 4, Why::NoEntry { total: 1 }),
    ] {
        let bytes = changed(&rt, alloc, &dump, &[(place, 1)])?;
        let bytes = closed(alloc, &bytes)?;
        let status = answer(&rt, alloc, &bytes)?;
        assert_eq!(rt; status, diverged(2, begun(pc), why), "{place}");
    }
    Ok(())
}

#[test]
fn a_task_that_does_not_fault_has_diverged(rt: HostRuntime) -> Result<(), Fail> {
    let alloc = rt.alloc();
    let dump = recorded(&rt, alloc)?;
    let bytes = changed(&rt, alloc, &dump, &[(82, 3), (458, 1)])?;
    let bytes = closed(alloc, &bytes)?;
    let status = answer(&rt, alloc, &bytes)?;
    assert_eq!(rt; status, diverged(2, ENDED, Why::NoFault));
    Ok(())
}

#[test]
fn an_answer_that_is_not_asked_for_is_left(rt: HostRuntime) -> Result<(), Fail> {
    let alloc = rt.alloc();
    let dump = recorded(&rt, alloc)?;
    let bytes = changed(&rt, alloc, &dump, &[(124, 2)])?;
    let bytes = put_in(&rt, alloc, &bytes, 153, &[0; 21])?;
    let bytes = closed(alloc, &bytes)?;
    let status = answer(&rt, alloc, &bytes)?;
    let left = Why::Left { used: 1, total: 2 };
    assert_eq!(rt; status, diverged(3, ENDED, left));
    Ok(())
}

#[test]
fn a_number_that_no_replay_reads_changes_nothing(rt: HostRuntime) -> Result<(), Fail> {
    let alloc = rt.alloc();
    let dump = recorded(&rt, alloc)?;
    let text = traced(&rt, alloc)?;
    let bytes = changed(&rt, alloc, &dump, &[(297, 1)])?;
    let bytes = closed(alloc, &bytes)?;
    let mut sink = MemSink::new(alloc, 64, &[])?;
    sink.room(TEXT)?;
    assert_eq!(rt; replay(&rt, alloc, &bytes, &mut sink)?, Status::Ok);
    assert!(rt; sink.bytes() == text.as_slice());
    Ok(())
}

/// Two tasks that each make an output: the second writes 9 to port 0, and then the first 7 to port 1.
const OUTPUTS: &[u8] = b"tmi 1\n\
    task 0 basic 1 auto 0 1\ntext 0 00100513 00700593 01300893 00000073 0000006f\n\
    task 1 basic 2 off 0 1\ntext 1 00900593 01300893 00000073 00200893 00000073\nline 1 activate 1\n";

#[test]
fn an_output_that_the_task_does_not_make_has_diverged(rt: HostRuntime) -> Result<(), Fail> {
    let alloc = rt.alloc();
    let mut shelf = MemShelf::new(alloc, &[])?;
    shelf.add("i", OUTPUTS)?;
    shelf.add("p", b"tmplan 1\nslice 5 0x2\nslice 4 0\n")?;
    shelf.room("d", 1024)?;
    let mut sink = MemSink::new(alloc, 64, &[])?;
    let record = ["record", "i", "p", "d"];
    let status = call(&rt, alloc, &record, &mut shelf, &mut sink)?;
    assert_eq!(rt; status, Status::Ok);
    let dump = shelf.content("d").unwrap_or_default();
    let bytes = changed(&rt, alloc, dump, &[(132, 8)])?;
    shelf.add("e", &closed(alloc, &bytes)?)?;
    let replay = ["replay", "i", "e", "--from", "0"];
    let status = call(&rt, alloc, &replay, &mut shelf, &mut sink)?;
    let output = |value| OutputEntry {
        task: 0,
        port: 1,
        value,
    };
    let other = Status::Diverged(Diverged {
        seq: 3,
        task: 0,
        reached: begun(16),
        wanted: begun(16),
        why: Why::OtherOutput {
            logged: output(8),
            made: output(7),
        },
    });
    assert_eq!(rt; status, other);
    assert!(rt; sink.bytes().is_empty());
    Ok(())
}
