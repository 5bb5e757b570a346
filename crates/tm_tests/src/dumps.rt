//! The dump of the smallest run, and its points; and a run of version 2, recorded and replayed.

use crate::calls::{call, shelf};
use crate::texts::MULTIPLIED;
use std::test::Fail;
use tm_io::MemSink;
use tm_prog::Status;

const IMAGE: &[u8] = b"tmi 1\ntask 0 basic 1 auto 0 1\ntext 0 00200893 00000073\n";

const PLAN: &[u8] = b"tmplan 1\nslice 2 0\n";

#[test]
fn the_dump_of_a_run_is_put_and_its_points_are_listed(rt: HostRuntime) -> Result<(), Fail> {
    let alloc = rt.alloc();
    let mut shelf = shelf(alloc, IMAGE, PLAN, &[])?;
    shelf.room("d", 508)?;
    let mut sink = MemSink::new(alloc, 64, &[])?;
    sink.room(6)?;
    assert_eq!(rt;
        call(
            &rt,
            alloc,
            &["record", "i", "p", "d"],
            &mut shelf,
            &mut sink
        )?,
        Status::Ok
    );
    assert_eq!(rt; sink.bytes(), b"".as_slice());
    assert_eq!(rt; shelf.content("p"), Some(PLAN));
    let dump = shelf.content("d").expect(&rt, "the dump");
    assert_eq!(rt; dump.len(), 508);
    assert_eq!(rt; &dump[..5], b"TMDP\x01".as_slice());
    // The first entry is from nobody, idle; the second from task 0, which ends.
    assert_eq!(rt; &dump[46..48], [0xff, 5].as_slice());
    assert_eq!(rt; &dump[81..83], [0, 2].as_slice());
    assert_eq!(rt;
        call(&rt, alloc, &["points", "i", "d"], &mut shelf, &mut sink)?,
        Status::Ok
    );
    assert_eq!(rt; sink.bytes(), b"0\n1\n2\n".as_slice());
    Ok(())
}

#[test]
fn a_run_of_version_2_is_recorded_and_replayed(rt: HostRuntime) -> Result<(), Fail> {
    let alloc = rt.alloc();
    let (image, plan) = (MULTIPLIED.image.as_bytes(), MULTIPLIED.plan.as_bytes());
    let mut shelf = shelf(alloc, image, plan, &[])?;
    shelf.room("d", 1 << 12)?;
    let mut sink = MemSink::new(alloc, 4096, &[])?;
    sink.room(1 << 12)?;
    assert_eq!(rt;
        call(
            &rt,
            alloc,
            &["record", "i", "p", "d"],
            &mut shelf,
            &mut sink
        )?,
        Status::Ok
    );
    assert_eq!(rt;
        call(
            &rt,
            alloc,
            &["replay", "i", "d", "--from", "0"],
            &mut shelf,
            &mut sink
        )?,
        Status::Ok
    );
    assert_eq!(rt; sink.bytes(), MULTIPLIED.text.as_bytes());
    Ok(())
}
