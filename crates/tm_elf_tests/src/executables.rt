//! Executables that are read. Each is made here, header by header, or was made by other means, and so was
//! what it must give.

ghost use Rattle.std.specs.Prelude.{◌^◌, ◌<◌, ◌≤◌, length};

mod refusals;

use std::alloc::Global;
use std::process::Abort;
use std::test::Fail;
use tm_elf::read_elf;
use tm_image::{Image, read_image};
use tm_rv::Set;

/// One task, which is replaced by what is read.
const BASE_IMAGE: &[u8] = b"tmi 1\ntask 0 basic 1 auto 0 1\ntext 0 0000006f\n";

/// The same with multiplication.
const MUL_IMAGE: &[u8] = b"tmi 2\ntask 0 basic 1 auto 0 1\ntext 0 0000006f\n";

/// A program header: its type, its offset in the file, its address, and its bytes in the file and in memory.
type Header = [u32; 5];

/// The header of an executable for a 32-bit RISC-V processor, up to the entry.
const KIND: [u8; 24] = [
    0x7f, 0x45, 0x4c, 0x46, 1, 1, 1, 0, 0, 0, 0, 0, 0, 0, 0, 0, 2, 0, 243, 0, 1, 0, 0, 0,
];

/// The header behind the entry, up to the number of program headers: those begin at 52.
const PLACES: [u8; 16] = [52, 0, 0, 0, 0, 0, 0, 0, 0, 0, 0, 0, 52, 0, 32, 0];

/// A task that terminates itself: one load of two words at address 0.
const TERMINATES: [u8; 92] = [
    0x7f, 0x45, 0x4c, 0x46, 0x01, 0x01, 0x01, 0x00, 0x00, 0x00, 0x00, 0x00, 0x00, 0x00, 0x00, 0x00,
    0x02, 0x00, 0xf3, 0x00, 0x01, 0x00, 0x00, 0x00, 0x00, 0x00, 0x00, 0x00, 0x34, 0x00, 0x00, 0x00,
    0x00, 0x00, 0x00, 0x00, 0x00, 0x00, 0x00, 0x00, 0x34, 0x00, 0x20, 0x00, 0x01, 0x00, 0x00, 0x00,
    0x00, 0x00, 0x00, 0x00, 0x01, 0x00, 0x00, 0x00, 0x54, 0x00, 0x00, 0x00, 0x00, 0x00, 0x00, 0x00,
    0x00, 0x00, 0x00, 0x00, 0x08, 0x00, 0x00, 0x00, 0x08, 0x00, 0x00, 0x00, 0x00, 0x00, 0x00, 0x00,
    0x00, 0x00, 0x00, 0x00, 0x93, 0x08, 0x20, 0x00, 0x73, 0x00, 0x00, 0x00,
];

/// An executable with a hole before its text, zeros behind it, and data that begin inside a word.
const WITH_HOLES: [u8; 132] = [
    0x7f, 0x45, 0x4c, 0x46, 0x01, 0x01, 0x01, 0x00, 0x00, 0x00, 0x00, 0x00, 0x00, 0x00, 0x00, 0x00,
    0x02, 0x00, 0xf3, 0x00, 0x01, 0x00, 0x00, 0x00, 0x08, 0x00, 0x00, 0x00, 0x34, 0x00, 0x00, 0x00,
    0x00, 0x00, 0x00, 0x00, 0x00, 0x00, 0x00, 0x00, 0x34, 0x00, 0x20, 0x00, 0x02, 0x00, 0x00, 0x00,
    0x00, 0x00, 0x00, 0x00, 0x01, 0x00, 0x00, 0x00, 0x74, 0x00, 0x00, 0x00, 0x04, 0x00, 0x00, 0x00,
    0x0b, 0x5c, 0x26, 0xdc, 0x0d, 0x00, 0x00, 0x00, 0x0e, 0x00, 0x00, 0x00, 0x02, 0x00, 0x00, 0x00,
    0x04, 0x00, 0x00, 0x00, 0x01, 0x00, 0x00, 0x00, 0x81, 0x00, 0x00, 0x00, 0x01, 0x00, 0x00, 0x10,
    0x00, 0x4b, 0x8f, 0x1b, 0x03, 0x00, 0x00, 0x00, 0x03, 0x00, 0x00, 0x00, 0x04, 0x00, 0x00, 0x00,
    0x04, 0x00, 0x00, 0x00, 0x51, 0x56, 0xcd, 0x8e, 0xf8, 0x10, 0x2c, 0xce, 0xf9, 0xc8, 0x16, 0xea,
    0xb8, 0x5d, 0xa7, 0x4a,
];

/// An executable whose first program header is not one of a load.
const WITH_ANOTHER_HEADER: [u8; 130] = [
    0x7f, 0x45, 0x4c, 0x46, 0x01, 0x01, 0x01, 0x00, 0x00, 0x00, 0x00, 0x00, 0x00, 0x00, 0x00, 0x00,
    0x02, 0x00, 0xf3, 0x00, 0x01, 0x00, 0x00, 0x00, 0x00, 0x00, 0x00, 0x00, 0x34, 0x00, 0x00, 0x00,
    0x00, 0x00, 0x00, 0x00, 0x00, 0x00, 0x00, 0x00, 0x34, 0x00, 0x20, 0x00, 0x02, 0x00, 0x00, 0x00,
    0x00, 0x00, 0x00, 0x00, 0x02, 0x00, 0x00, 0x00, 0x74, 0x00, 0x00, 0x00, 0x00, 0x00, 0x00, 0x00,
    0x86, 0x0b, 0xa4, 0x1b, 0x0d, 0x00, 0x00, 0x00, 0x0d, 0x00, 0x00, 0x00, 0x00, 0x00, 0x00, 0x00,
    0x04, 0x00, 0x00, 0x00, 0x01, 0x00, 0x00, 0x00, 0x81, 0x00, 0x00, 0x00, 0x04, 0x00, 0x00, 0x00,
    0x72, 0x0d, 0xe2, 0x6a, 0x01, 0x00, 0x00, 0x00, 0x02, 0x00, 0x00, 0x00, 0x01, 0x00, 0x00, 0x00,
    0x04, 0x00, 0x00, 0x00, 0x35, 0x05, 0x1e, 0xbd, 0x7d, 0xbc, 0x11, 0x5d, 0xde, 0x2e, 0x98, 0x97,
    0xbe, 0x72,
];

/// An executable of this entry, with these program headers, and these bytes behind them.
fn file(alloc: Global, entry: u32, headers: &[Header], rest: &[u8]) -> Result<Vec<u8>, Fail> {
    let mut bytes = Vec::from_slice(alloc, &KIND)?;
    bytes.extend_from_slice(&entry.to_le_bytes())?;
    bytes.extend_from_slice(&PLACES)?;
    bytes.extend_from_slice(&u16::try_from(headers.len())?.to_le_bytes())?;
    bytes.extend_from_slice(&[0; 6])?;
    for [kind, offset, address, in_file, in_memory] in headers {
        for field in [*kind, *offset, *address, 7, *in_file, *in_memory, 5, 4] {
            bytes.extend_from_slice(&field.to_le_bytes())?;
        }
    }
    bytes.extend_from_slice(rest)?;
    Ok(bytes)
}

/// The text of an image of this set.
fn text_with(set: Set) -> &'static [u8]
    ensures { length result.now < 2 ^ 8 }
{
    match set {
        Set::Base => BASE_IMAGE,
        Set::Mul => MUL_IMAGE,
    }
}

/// An image of this set whose one task is what the bytes give.
fn image_of(rt: &impl Abort, alloc: Global, set: Set, bytes: &[u8], least: u32) -> Image
    requires some { 0 < least }
    requires few { least ≤ 16384 }
    ensures { 0 < length result.loads }
{
    let mut image = read_image(alloc, text_with(set)).expect(rt, "the image is read");
    let _tasks = image.tasks();
    assert_eq!(rt; image.set(), set);
    match read_elf(alloc, bytes, least, set) {
        Ok(loaded) => image.replace(0, loaded),
        Err(fault) => panic!(rt; "{fault}"),
    }
    image
}

/// The bytes give a task of this entry, text and data, where it is to have so many data words at least.
fn assert_gives(
    rt: &impl Abort,
    alloc: Global,
    bytes: &[u8],
    least: u32,
    wanted: (u32, &[u32], &[u32]),
)
    requires some { 0 < least }
    requires few { least ≤ 16384 }
{
    let (entry, text, words) = wanted;
    let image = image_of(rt, alloc, Set::Base, bytes, least);
    assert_eq!(rt; image.entry(0), entry);
    assert!(rt; image.text(0).words() == text);
    assert!(rt; image.words(0) == words);
}

#[test]
fn executables_from_outside_are_read(rt: HostRuntime) {
    let alloc = rt.alloc();
    let text = [0x0020_0893, 0x0000_0073];
    assert_gives(&rt, alloc, &TERMINATES, 1, (0, &text, &[0]));
    assert_gives(&rt, alloc, &TERMINATES, 3, (0, &text, &[0, 0, 0]));
    let text = [0, 0x8ecd_5651, 0xce2c_10f8, 0xea16_c8f9, 0xb8];
    assert_gives(&rt, alloc, &WITH_HOLES, 1, (8, &text, &[0x4aa7_5d00]));
    assert_gives(
        &rt,
        alloc,
        &WITH_ANOTHER_HEADER,
        2,
        (0, &[0, 0x72], &[0, 0]),
    );
}

#[test]
fn a_text_has_the_set_that_is_told(rt: HostRuntime) {
    let alloc = rt.alloc();
    for set in [Set::Base, Set::Mul] {
        let image = image_of(&rt, alloc, set, &TERMINATES, 1);
        assert_eq!(rt; image.text(0).set(), set);
    }
}

#[test]
fn loads_touch_and_leave_holes(rt: HostRuntime) -> Result<(), Fail> {
    let alloc = rt.alloc();
    let rest = [1, 2, 3, 4, 5, 6, 7, 8, 9];
    // The second load ends where the first begins, and the data begin behind a hole.
    let touching = [
        [1, 148, 6, 2, 2],
        [1, 150, 0, 6, 6],
        [1, 156, 0x1000_0007, 1, 3],
    ];
    let bytes = file(alloc, 4, &touching, &rest)?;
    assert_gives(
        &rt,
        alloc,
        bytes.as_slice(),
        1,
        (4, &[0x0605_0403, 0x0201_0807], &[0, 0x0900_0000, 0]),
    );
    // Bytes of the file may be loaded twice, and a load may have none there, wherever it says that they are.
    let shared = [
        [1, 148, 3, 2, 2],
        [1, 148, 9, 1, 4],
        [1, u32::MAX, 0x1000_0000, 0, 17],
    ];
    let bytes = file(alloc, 12, &shared, &rest)?;
    assert_gives(
        &rt,
        alloc,
        bytes.as_slice(),
        2,
        (12, &[0x0100_0000, 2, 0x0100, 0], &[0, 0, 0, 0, 0]),
    );
    Ok(())
}

#[test]
fn what_is_no_load_is_ignored(rt: HostRuntime) -> Result<(), Fail> {
    let alloc = rt.alloc();
    let headers = [
        [0, u32::MAX, u32::MAX, u32::MAX, u32::MAX],
        [1, u32::MAX, u32::MAX, u32::MAX, 0],
        [1, 180, 0, 4, 4],
        [0x6474_e551, 0, 0, 4, 4],
    ];
    let bytes = file(alloc, 0, &headers, &[0x6f, 0, 0, 0])?;
    assert_gives(&rt, alloc, bytes.as_slice(), 1, (0, &[0x6f], &[0]));
    Ok(())
}

#[test]
fn the_windows_are_filled(rt: HostRuntime) -> Result<(), Fail> {
    let alloc = rt.alloc();
    let headers = [[1, 116, 0xffff, 1, 1], [1, 117, 0x1000_ffff, 1, 1]];
    let bytes = file(alloc, 0xfffc, &headers, &[0xaa, 0xbb])?;
    let image = image_of(&rt, alloc, Set::Base, bytes.as_slice(), 16_384);
    let text = image.text(0).words();
    let words = image.words(0);
    assert_eq!(rt; text.len(), 16_384);
    assert_eq!(rt; words.len(), 16_384);
    assert_eq!(rt; text[16_383], 0xaa00_0000);
    assert_eq!(rt; words[16_383], 0xbb00_0000);
    let whole = [[1, 0, 0, 0, 65_536], [1, 0, 0x1000_0000, 0, 65_536]];
    let bytes = file(alloc, 0, &whole, &[])?;
    let image = image_of(&rt, alloc, Set::Base, bytes.as_slice(), 1);
    assert_eq!(rt; image.text(0).words().len(), 16_384);
    assert_eq!(rt; image.words(0).len(), 16_384);
    Ok(())
}

#[test]
fn sixty_four_loads_are_read(rt: HostRuntime) -> Result<(), Fail> {
    let alloc = rt.alloc();
    let mut headers = [[0; 5]; 64];
    for number in 0..64 {
        headers[number] = [1, 2100 + number as u32, 63 - number as u32, 1, 1];
    }
    let mut rest = [0; 64];
    for place in 0..64 {
        rest[place] = place as u8;
    }
    let bytes = file(alloc, 60, &headers, &rest)?;
    let image = image_of(&rt, alloc, Set::Base, bytes.as_slice(), 1);
    let text = image.text(0).words();
    assert_eq!(rt; text.len(), 16);
    assert_eq!(rt; text[0], 0x3c3d_3e3f);
    assert_eq!(rt; text[15], 0x0001_0203);
    Ok(())
}
