//! Every way in which an executable is refused, and which fault is told first.

ghost use Rattle.std.specs.Prelude.{◌<◌, ◌≤◌};

use super::{Header, TERMINATES, file};
use std::alloc::Global;
use std::process::Abort;
use std::test::Fail;
use tm_elf::{ElfFault, Why, read_elf};
use tm_rv::Set;

fn assert_refused(rt: &impl Abort, alloc: Global, bytes: &[u8], wanted: ElfFault) {
    match read_elf(alloc, bytes, 1, Set::Base) {
        Ok(_) => panic!(rt; "{wanted}"),
        Err(fault) => assert_eq!(rt; fault, wanted),
    }
}

/// Of an executable with these program headers and 8 bytes behind them, this load is refused.
fn assert_segment(
    rt: &impl Abort,
    alloc: Global,
    headers: &[Header],
    index: u16,
    why: Why,
) -> Result<(), Fail> {
    let bytes = file(alloc, 0, headers, &[0; 8])?;
    assert_refused(
        rt,
        alloc,
        bytes.as_slice(),
        ElfFault::Segment { index, why },
    );
    Ok(())
}

/// With this entry, an executable with these program headers is read, or its entry is refused.
fn assert_entry(
    rt: &impl Abort,
    alloc: Global,
    headers: &[Header],
    value: u32,
    right: bool,
) -> Result<(), Fail> {
    let bytes = file(alloc, value, headers, &[0; 8])?;
    match read_elf(alloc, bytes.as_slice(), 1, Set::Base) {
        Ok(_) => assert!(rt; right),
        Err(fault) => assert!(rt; !right && fault == ElfFault::Entry { value }),
    }
    Ok(())
}

#[test]
fn the_fields_are_tested_in_their_order(rt: HostRuntime) {
    let alloc = rt.alloc();
    for (at, byte, place) in [
        (0, 0x7e, 0),
        (3, 0x47, 0),
        (4, 2, 4),
        (5, 2, 5),
        (6, 0, 6),
        (16, 3, 16),
        (17, 1, 16),
        (18, 242, 18),
        (19, 1, 18),
        (20, 2, 20),
        (23, 1, 20),
        (42, 40, 42),
        (43, 1, 42),
        (44, 0, 44),
        (44, 65, 44),
        (45, 1, 44),
    ] {
        let mut bytes = TERMINATES;
        assert!(rt; at < bytes.len());
        bytes[44] = 65;
        bytes[at] = byte;
        assert_refused(&rt, alloc, &bytes, ElfFault::Field { place });
    }
}

#[test]
fn short_files_are_refused(rt: HostRuntime) {
    let alloc = rt.alloc();
    for length in [0, 4, 51, 52, 83] {
        let needed = if length < 52 { 52 } else { 84 };
        let fault = ElfFault::Short {
            needed,
            length: length as u64,
        };
        assert_refused(&rt, alloc, &TERMINATES[..length], fault);
    }
    let mut bytes = TERMINATES;
    bytes[28..32].copy_from_slice(&[0xff; 4]);
    let fault = ElfFault::Short {
        needed: 0x1_0000_001f,
        length: 92,
    };
    assert_refused(&rt, alloc, &bytes, fault);
    // A file may be short only where its fields are right.
    bytes[4] = 2;
    assert_refused(&rt, alloc, &bytes[..83], ElfFault::Field { place: 4 });
    let short = ElfFault::Short {
        needed: 52,
        length: 51,
    };
    assert_refused(&rt, alloc, &bytes[..51], short);
}

#[test]
fn the_worked_faults_are_told(rt: HostRuntime) {
    let alloc = rt.alloc();
    let past = ElfFault::Segment {
        index: 0,
        why: Why::PastFile,
    };
    assert_refused(&rt, alloc, &TERMINATES[..91], past);
    let outside = ElfFault::Segment {
        index: 0,
        why: Why::Outside,
    };
    let mut bytes = TERMINATES;
    bytes[62] = 1;
    assert_refused(&rt, alloc, &bytes, outside);
    assert_eq!(rt; Why::PastFile.number(), 1);
    assert_eq!(rt; Why::Outside.number(), 3);
}

#[test]
fn loads_are_refused(rt: HostRuntime) -> Result<(), Fail> {
    let alloc = rt.alloc();
    let text = [1, 116, 0, 8, 8];
    let data = 0x1000_0000;
    for (second, why) in [
        ([1, 117, 100, 8, 8], Why::PastFile),
        ([1, u32::MAX, 100, u32::MAX, 8], Why::PastFile),
        ([1, 116, 100, 8, 7], Why::MoreInFile),
        ([1, 116, 0xffff, 0, 2], Why::Outside),
        ([1, 116, 0, 0, u32::MAX], Why::Outside),
        ([1, 116, data - 1, 0, 1], Why::Outside),
        ([1, 116, data - 1, 0, 2], Why::Outside),
        ([1, 116, data + 0xffff, 0, 2], Why::Outside),
        ([1, 116, u32::MAX, 0, 1], Why::Outside),
        ([1, 116, u32::MAX, 0, 2], Why::Outside),
        ([1, 116, 7, 0, 1], Why::Overlap),
        ([1, 116, 0, 0, 1], Why::Overlap),
        ([1, 116, 0, 8, 8], Why::Overlap),
        ([1, 116, 0, 0, 65_536], Why::Overlap),
    ] {
        assert_segment(&rt, alloc, &[text, second], 1, why)?;
    }
    Ok(())
}

#[test]
fn the_first_load_and_its_first_reason_are_told(rt: HostRuntime) -> Result<(), Fail> {
    let alloc = rt.alloc();
    let text = [1, 212, 0, 8, 8];
    let other = [4, 0, 0, 0, 8];
    // Each is wrong in more than one way.
    let past = [1, 0, 0x2000_0000, 1000, 8];
    let more = [1, 0, 0x2000_0000, 9, 8];
    let outside = [1, 0, 0xfff8, 8, 9];
    let inside = [1, 0, 4, 0, 1];
    assert_segment(
        &rt,
        alloc,
        &[text, past, more, outside, text],
        1,
        Why::PastFile,
    )?;
    assert_segment(
        &rt,
        alloc,
        &[text, more, past, outside, text],
        1,
        Why::MoreInFile,
    )?;
    assert_segment(
        &rt,
        alloc,
        &[text, other, outside, past, text],
        2,
        Why::Outside,
    )?;
    // The later of two loads is the one that overlaps.
    let behind = [1, 0, 8, 0, 8];
    assert_segment(
        &rt,
        alloc,
        &[behind, text, other, inside, past],
        3,
        Why::Overlap,
    )?;
    Ok(())
}

#[test]
fn an_executable_without_text_is_refused(rt: HostRuntime) -> Result<(), Fail> {
    let alloc = rt.alloc();
    let none = file(alloc, 0, &[[1, 0, 0x1000_0000, 8, 8], [1, 0, 0, 0, 0]], &[])?;
    assert_refused(&rt, alloc, none.as_slice(), ElfFault::NoText);
    let odd = file(alloc, 1, &[[2, 0, 0, 8, 8]], &[])?;
    assert_refused(&rt, alloc, odd.as_slice(), ElfFault::NoText);
    Ok(())
}

#[test]
fn entries_are_inside_the_text(rt: HostRuntime) -> Result<(), Fail> {
    let alloc = rt.alloc();
    let headers = [[1, 116, 4, 2, 5], [1, 116, 0x1000_0000, 8, 8]];
    for (value, right) in [
        (0, true),
        (8, true),
        (1, false),
        (2, false),
        (10, false),
        (12, false),
        (0x1000_0000, false),
        (u32::MAX - 3, false),
    ] {
        assert_entry(&rt, alloc, &headers, value, right)?;
    }
    let whole = [[1, 0, 0xffff, 0, 1]];
    assert_entry(&rt, alloc, &whole, 0xfffc, true)?;
    assert_entry(&rt, alloc, &whole, 0x1_0000, false)?;
    Ok(())
}
