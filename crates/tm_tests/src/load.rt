//! Tasks that are loaded from executables: what `load` puts, and what it refuses.

use crate::calls::{call, shelf, trace};
use std::test::Fail;
use tm_elf::{ElfFault, Why};
use tm_io::MemSink;
use tm_prog::Status;

/// A task that terminates at once, with one data word.
const IMAGE: &[u8] = b"tmi 1\ntask 0 basic 1 auto 0 1\ntext 0 00200893 00000073\n";

/// The same, written with all that an image has.
const WRITTEN: &[u8] = b"tmi 1\ntask 0 basic 1 auto 0 1\ntext 0 00200893 00000073\n\
    ring control 256\nring data 256\nring outputs 256\nring checks 4\n";

/// A task whose text is one jump to itself.
const OTHER: &[u8] = b"tmi 1\ntask 0 basic 1 auto 0 1\ntext 0 0000006f\n";

const PLAN: &[u8] = b"tmplan 1\nslice 2 0\n";

/// An executable of two instructions at address 0, which are those of the image: 52 bytes of header, 32 of its
/// one program header, and 8 of text.
const EXECUTABLE: &[u8] = b"\x7fELF\x01\x01\x01\0\0\0\0\0\0\0\0\0\
    \x02\0\xf3\0\x01\0\0\0\0\0\0\0\x34\0\0\0\0\0\0\0\0\0\0\0\x34\0\x20\0\x01\0\0\0\0\0\0\0\
    \x01\0\0\0\x54\0\0\0\0\0\0\0\0\0\0\0\x08\0\0\0\x08\0\0\0\0\0\0\0\0\0\0\0\
    \x93\x08\x20\0\x73\0\0\0";

/// The same with its load at address 10000.
const ELSEWHERE: &[u8] = b"\x7fELF\x01\x01\x01\0\0\0\0\0\0\0\0\0\
    \x02\0\xf3\0\x01\0\0\0\0\0\0\0\x34\0\0\0\0\0\0\0\0\0\0\0\x34\0\x20\0\x01\0\0\0\0\0\0\0\
    \x01\0\0\0\x54\0\0\0\0\0\x01\0\0\0\0\0\x08\0\0\0\x08\0\0\0\0\0\0\0\0\0\0\0\
    \x93\x08\x20\0\x73\0\0\0";

/// The executable without its last byte.
const CUT: &[u8] = b"\x7fELF\x01\x01\x01\0\0\0\0\0\0\0\0\0\
    \x02\0\xf3\0\x01\0\0\0\0\0\0\0\x34\0\0\0\0\0\0\0\0\0\0\0\x34\0\x20\0\x01\0\0\0\0\0\0\0\
    \x01\0\0\0\x54\0\0\0\0\0\0\0\0\0\0\0\x08\0\0\0\x08\0\0\0\0\0\0\0\0\0\0\0\
    \x93\x08\x20\0\x73\0\0";

#[test]
fn a_task_is_loaded_from_an_executable(rt: HostRuntime) -> Result<(), Fail> {
    let alloc = rt.alloc();
    for (image, new) in [(IMAGE, "n"), (OTHER, "n"), (OTHER, "i"), (OTHER, "e")] {
        let mut shelf = shelf(alloc, image, PLAN, &[])?;
        shelf.add("e", EXECUTABLE)?;
        shelf.room(new, 256)?;
        let mut sink = MemSink::new(alloc, 64, &[])?;
        let load = ["load", "i", "0", "e", new];
        assert_eq!(rt; call(&rt, alloc, &load, &mut shelf, &mut sink)?, Status::Ok);
        assert_eq!(rt; shelf.content(new), Some(WRITTEN));
        assert!(rt; sink.bytes().is_empty());
    }
    Ok(())
}

#[test]
fn a_loaded_image_runs_as_one_that_was_written(rt: HostRuntime) -> Result<(), Fail> {
    let alloc = rt.alloc();
    let mut written = MemSink::new(alloc, 256, &[])?;
    written.room(256)?;
    let mut shelf_of_written = shelf(alloc, IMAGE, PLAN, &[])?;
    assert_eq!(rt;
        trace(&rt, alloc, &mut shelf_of_written, &mut written)?,
        Status::Ok
    );
    let mut shelf = shelf(alloc, OTHER, PLAN, &[])?;
    shelf.add("e", EXECUTABLE)?;
    shelf.room("i", 256)?;
    let mut loaded = MemSink::new(alloc, 256, &[])?;
    loaded.room(256)?;
    call(
        &rt,
        alloc,
        &["load", "i", "0", "e", "i"],
        &mut shelf,
        &mut loaded,
    )?;
    assert_eq!(rt; trace(&rt, alloc, &mut shelf, &mut loaded)?, Status::Ok);
    assert!(rt; !loaded.bytes().is_empty());
    assert!(rt; loaded.bytes() == written.bytes());
    Ok(())
}

#[test]
fn executables_and_tasks_are_refused(rt: HostRuntime) -> Result<(), Fail> {
    let alloc = rt.alloc();
    let segment = |why| Status::Elf(ElfFault::Segment { index: 0, why });
    let short = Status::Elf(ElfFault::Short {
        needed: 52,
        length: 4,
    });
    let cases: [(&str, &[u8], Status); 5] = [
        ("0", ELSEWHERE, segment(Why::Outside)),
        ("0", CUT, segment(Why::PastFile)),
        ("0", b"\x7fELF", short),
        ("1", EXECUTABLE, Status::NoTask(1)),
        ("15", b"", Status::NoTask(15)),
    ];
    for (task, executable, refusal) in cases {
        let mut shelf = shelf(alloc, IMAGE, PLAN, &[])?;
        shelf.add("e", executable)?;
        shelf.add("n", b"as it was")?;
        let mut sink = MemSink::new(alloc, 64, &[])?;
        let load = ["load", "i", task, "e", "n"];
        let status = call(&rt, alloc, &load, &mut shelf, &mut sink)?;
        assert_eq!(rt; status, refusal, "{load:?}");
        assert_eq!(rt; shelf.content("n"), Some(b"as it was".as_slice()));
    }
    Ok(())
}
