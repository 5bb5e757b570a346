//! The line and the number of each status.

use std::test::Fail;
use tm_elf::{ElfFault, Why};
use tm_image::{ImageFault, PlanFault, Reason};
use tm_prog::Status;

const REFUSED: ImageFault = ImageFault {
    line: 4_294_967_295,
    reason: Reason::Repeated,
};

#[test]
fn each_status_but_ok_has_its_line(rt: HostRuntime) -> Result<(), Fail> {
    let mut lines = Vec::new(rt.alloc());
    for status in [
        Status::Ok,
        Status::Words,
        Status::ReadFault,
        Status::Image(REFUSED),
        Status::Plan(PlanFault {
            line: 2,
            reason: Reason::Form,
        }),
        Status::WriteFault,
        Status::TooLong(2),
        Status::Memory,
        Status::Elf(ElfFault::Short {
            needed: 52,
            length: 51,
        }),
        Status::Elf(ElfFault::Field { place: 18 }),
        Status::Elf(ElfFault::Segment {
            index: 63,
            why: Why::Overlap,
        }),
        Status::Elf(ElfFault::NoText),
        Status::Elf(ElfFault::Entry { value: 65_538 }),
        Status::NoTask(15),
    ] {
        status.line(&mut lines)?;
    }
    assert_eq!(rt;
        lines.as_slice(),
        b"tm: words\ntm: read fault\ntm: image line 4294967295 repeated\ntm: plan line 2 form\ntm: write fault\ntm: too long 2\ntm: memory\ntm: elf short 52 51\ntm: elf field 18\ntm: elf segment 63 4\ntm: elf no text\ntm: elf entry 65538\ntm: no task 15\n".as_slice()
    );
    Ok(())
}

#[test]
fn each_status_has_its_number(rt: HostRuntime) {
    assert_eq!(rt; Status::Ok.code(), 0);
    assert_eq!(rt; Status::Words.code(), 2);
    assert_eq!(rt; Status::ReadFault.code(), 3);
    assert_eq!(rt; Status::Image(REFUSED).code(), 4);
    assert_eq!(rt; Status::Plan(REFUSED).code(), 5);
    assert_eq!(rt; Status::WriteFault.code(), 9);
    assert_eq!(rt; Status::TooLong(1).code(), 10);
    assert_eq!(rt; Status::Memory.code(), 11);
    assert_eq!(rt; Status::Elf(ElfFault::NoText).code(), 13);
    assert_eq!(rt; Status::NoTask(0).code(), 14);
}
