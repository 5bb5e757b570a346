//! Refusals, and calls that are made to fail.

use crate::calls::{call, shelf, trace};
use std::test::Fail;
use tm_image::{ImageFault, PlanFault, Reason};
use tm_io::{MemShelf, MemSink};
use tm_prog::Status;

const IMAGE: &[u8] = b"tmi 1\ntask 0 basic 1 auto 0 1\ntext 0 00200893 00000073\n";

const PLAN: &[u8] = b"tmplan 1\nslice 2 0\n";

/// The text of the plan on the image has this many bytes.
const LENGTH: usize = 172;

#[test]
fn words_of_no_form_are_refused(rt: HostRuntime) -> Result<(), Fail> {
    let alloc = rt.alloc();
    let cases: [&[&str]; 24] = [
        &[],
        &["trace"],
        &["trace", "a"],
        &["trace", "a", "b", "c"],
        &["trace", "-", "b"],
        &["trace", "a", "--"],
        &["trace", "", "b"],
        &["record", "a", "b"],
        &["record", "a", "b", "c", "d"],
        &["record", "a", "b", "-"],
        &["record", "a", "b", ""],
        &["points", "a"],
        &["points", "a", "b", "c"],
        &["points", "a", "b", "--from", "1"],
        &["replay", "a", "b"],
        &["replay", "a", "b", "--from"],
        &["replay", "a", "b", "--from", "1", "--from", "1"],
        &["replay", "a", "b", "--from=1", "c"],
        &["replay", "a", "b", "--from", "-1"],
        &["replay", "a", "b", "--from="],
        &["replay", "a", "b", "--from=18446744073709551616"],
        &["replay", "a", "b", "--from=000000000000000000001"],
        &["replay", "a", "--from=1", "-b"],
        &["--help"],
    ];
    for case in cases {
        let mut shelf = shelf(alloc, IMAGE, PLAN, &[])?;
        let mut sink = MemSink::new(alloc, 64, &[])?;
        let status = call(&rt, alloc, case, &mut shelf, &mut sink)?;
        assert_eq!(rt; status, Status::Words, "{case:?}");
        assert!(rt; sink.bytes().is_empty());
    }
    Ok(())
}

/// The status of an image's text that is refused.
fn image(line: u32, reason: Reason) -> Status {
    Status::Image(ImageFault { line, reason })
}

/// The status of a plan's text that is refused.
fn plan(line: u32, reason: Reason) -> Status {
    Status::Plan(PlanFault { line, reason })
}

#[test]
fn texts_are_refused_by_line_and_reason(rt: HostRuntime) -> Result<(), Fail> {
    let alloc = rt.alloc();
    let cases: [(&[u8], &[u8], Status); 9] = [
        (b"", PLAN, image(1, Reason::Missing)),
        (b"tmi 3\n", PLAN, image(1, Reason::Form)),
        (
            b"tmi 1\ntask 0 basic 0 auto 0 1\n",
            PLAN,
            image(2, Reason::Range),
        ),
        (
            b"tmi 1\ntask 0 basic 1 auto 0 1\ntask 1 basic 1 auto 0 1\n",
            PLAN,
            image(3, Reason::Repeated),
        ),
        (
            b"tmi 1\ntask 0 basic 0x auto 0 1\n",
            PLAN,
            image(2, Reason::Number),
        ),
        (
            IMAGE,
            b"tmplan 1\nslice 1048577 0\n",
            plan(2, Reason::Range),
        ),
        (IMAGE, IMAGE, plan(1, Reason::Form)),
        (PLAN, IMAGE, image(1, Reason::Form)),
        (IMAGE, b"\n\n", plan(3, Reason::Missing)),
    ];
    for (image, plan, wanted) in cases {
        let mut shelf = shelf(alloc, image, plan, &[])?;
        let mut sink = MemSink::new(alloc, 64, &[])?;
        assert_eq!(rt; trace(&rt, alloc, &mut shelf, &mut sink)?, wanted);
        assert!(rt; sink.bytes().is_empty());
    }
    Ok(())
}

#[test]
fn a_file_past_its_limit_is_too_long(rt: HostRuntime) -> Result<(), Fail> {
    let alloc = rt.alloc();
    let long = vec![in alloc; b'\n'; 8 * 1024 * 1024 + 1]?;
    let mut sink = MemSink::new(alloc, 64, &[])?;
    let mut past = shelf(alloc, &long, PLAN, &[])?;
    assert_eq!(rt;
        trace(&rt, alloc, &mut past, &mut sink)?,
        Status::TooLong(1)
    );
    let full = vec![in alloc; b'\n'; 8 * 1024 * 1024]?;
    let mut within = shelf(alloc, &full, PLAN, &[])?;
    let missing = image(8 * 1024 * 1024 + 1, Reason::Missing);
    assert_eq!(rt; trace(&rt, alloc, &mut within, &mut sink)?, missing);
    assert!(rt; sink.bytes().is_empty());
    Ok(())
}

#[test]
fn files_that_are_not_there_are_read_faults(rt: HostRuntime) -> Result<(), Fail> {
    let alloc = rt.alloc();
    let mut shelf = MemShelf::new(alloc, &[])?;
    let mut sink = MemSink::new(alloc, 64, &[])?;
    assert_eq!(rt;
        trace(&rt, alloc, &mut shelf, &mut sink)?,
        Status::ReadFault
    );
    shelf.add("i", IMAGE)?;
    assert_eq!(rt;
        trace(&rt, alloc, &mut shelf, &mut sink)?,
        Status::ReadFault
    );
    shelf.add("p", PLAN)?;
    sink.room(LENGTH)?;
    assert_eq!(rt; trace(&rt, alloc, &mut shelf, &mut sink)?, Status::Ok);
    assert_eq!(rt; sink.bytes().len(), LENGTH);
    Ok(())
}

#[test]
fn a_call_that_fails_is_told_and_leaves_a_beginning(rt: HostRuntime) -> Result<(), Fail> {
    let alloc = rt.alloc();
    let cases: [(&[u64], &[u64], usize, Status, usize); 6] = [
        (&[1], &[], 64, Status::ReadFault, 0),
        (&[2], &[], 64, Status::ReadFault, 0),
        (&[], &[1], 64, Status::WriteFault, 0),
        (&[], &[3], 64, Status::WriteFault, 128),
        (&[], &[3], LENGTH, Status::Ok, LENGTH),
        (&[3], &[4], 64, Status::Ok, LENGTH),
    ];
    for (gets, writes, most, wanted, length) in cases {
        let mut shelf = shelf(alloc, IMAGE, PLAN, gets)?;
        let mut sink = MemSink::new(alloc, most, writes)?;
        sink.room(LENGTH)?;
        assert_eq!(rt; trace(&rt, alloc, &mut shelf, &mut sink)?, wanted);
        assert_eq!(rt; sink.bytes().len(), length);
    }
    Ok(())
}

#[test]
fn a_put_that_fails_is_told_and_leaves_the_other_names(rt: HostRuntime) -> Result<(), Fail> {
    let alloc = rt.alloc();
    let cases: [(&[u64], usize, Status); 5] = [
        (&[1], 508, Status::ReadFault),
        (&[2], 508, Status::ReadFault),
        (&[3], 508, Status::WriteFault),
        (&[], 507, Status::WriteFault),
        (&[4], 508, Status::Ok),
    ];
    for (calls, room, wanted) in cases {
        let mut shelf = shelf(alloc, IMAGE, PLAN, calls)?;
        shelf.room("d", room)?;
        let mut sink = MemSink::new(alloc, 64, &[])?;
        assert_eq!(rt;
            call(
                &rt,
                alloc,
                &["record", "i", "p", "d"],
                &mut shelf,
                &mut sink
            )?,
            wanted
        );
        assert_eq!(rt; shelf.content("i"), Some(IMAGE));
        assert_eq!(rt; shelf.content("p"), Some(PLAN));
        assert!(rt; sink.bytes().is_empty());
    }
    Ok(())
}

#[test]
fn a_dump_may_take_the_place_of_a_file_that_was_read(rt: HostRuntime) -> Result<(), Fail> {
    let alloc = rt.alloc();
    let mut shelf = shelf(alloc, IMAGE, PLAN, &[])?;
    shelf.room("i", 508)?;
    let mut sink = MemSink::new(alloc, 64, &[])?;
    assert_eq!(rt;
        call(
            &rt,
            alloc,
            &["record", "i", "p", "i"],
            &mut shelf,
            &mut sink
        )?,
        Status::Ok
    );
    assert_eq!(rt; shelf.content("i").map(|bytes| bytes.len()), Some(508));
    Ok(())
}

#[test]
fn a_sink_without_room_is_a_write_fault(rt: HostRuntime) -> Result<(), Fail> {
    let alloc = rt.alloc();
    let mut shelf = shelf(alloc, IMAGE, PLAN, &[])?;
    let mut sink = MemSink::new(alloc, 64, &[])?;
    sink.room(LENGTH - 1)?;
    assert_eq!(rt;
        trace(&rt, alloc, &mut shelf, &mut sink)?,
        Status::WriteFault
    );
    assert!(rt; sink.bytes().is_empty());
    Ok(())
}
