//! Dumps that are read, and every way in which one is refused. The places are those of the layout: the
//! dump has 508 bytes, of which the last 32 are its closing digest.

ghost use Rattle.std.specs.Prelude.{◌≡◌};
ghost use Rattle.tm_image.specs.Image.{shape_of};

use super::{ENDED, ENDS, STARTS, at_boot, push_check, push_control, push_entry, set_task};
use sha2::{Digest, Sha256};
use std::alloc::Global;
use std::process::Abort;
use std::test::Fail;
use tm_dump::{DumpFault, read_dump, write_dump};
use tm_image::{Image, read_image};
use tm_log::Window;
use tm_marker::{DataEntry, Marker};

/// One task of one data word that terminates at its first call.
const TERMINATES: &[u8] = b"tmi 1\ntask 0 basic 1 auto 0 1\ntext 0 00200893 00000073\n";

/// The same image with another priority.
const OTHER: &[u8] = b"tmi 1\ntask 0 basic 2 auto 0 1\ntext 0 00200893 00000073\n";

fn image_of(rt: &impl Abort, alloc: Global, text: &[u8]) -> Image {
    assert!(rt; text.len() < 1 << 20);
    read_image(alloc, text).expect(rt, "the image is read")
}

/// The dump of what the task leaves before the first slice.
fn booted(rt: &impl Abort, alloc: Global, image: &Image) -> Result<Vec<u8>, Fail> {
    let mut window = Window::new(alloc, image.shape())?;
    push_check(rt, &mut window, 0, &at_boot(alloc)?, 0, 0);
    set_task(rt, &mut window, 0, Marker::ZERO, 1);
    let mut dump = Vec::new(alloc);
    write_dump(&window, &mut dump)?;
    Ok(dump)
}

/// The dump of what the task leaves that terminates itself.
fn terminated(rt: &impl Abort, alloc: Global) -> Result<Vec<u8>, Fail> {
    let image = image_of(rt, alloc, TERMINATES);
    let answer = DataEntry {
        service: 2,
        status: 0,
        words: [0; 4],
    };
    let mut window = Window::new(alloc, image.shape())?;
    push_check(rt, &mut window, 0, &at_boot(alloc)?, 0, 0);
    push_control(rt, &mut window, STARTS);
    push_entry(rt, &mut window, 0, answer);
    push_check(rt, &mut window, 0, &at_boot(alloc)?, 1, 1);
    push_control(rt, &mut window, ENDS);
    set_task(rt, &mut window, 0, ENDED, 0);
    let mut dump = Vec::new(alloc);
    write_dump(&window, &mut dump)?;
    Ok(dump)
}

/// Why these bytes are no dump of the image.
fn refusal(alloc: Global, bytes: &[u8], image: &Image) -> Option<DumpFault> {
    match read_dump(alloc, bytes, image) {
        Ok(_) => None,
        Err(fault) => Some(fault),
    }
}

fn assert_refused(rt: &impl Abort, alloc: Global, bytes: &[u8], image: &Image, wanted: DumpFault) {
    assert!(rt; refusal(alloc, bytes, image) == Some(wanted));
}

/// The closing digest is wrong.
fn assert_digest(rt: &impl Abort, alloc: Global, bytes: &[u8], image: &Image) {
    let found = refusal(alloc, bytes, image);
    assert!(rt; matches!(&found, Some(DumpFault::Digest { .. })));
}

/// With the byte at a place changed and a fresh digest, this field is refused.
fn assert_field(
    rt: &impl Abort,
    alloc: Global,
    dump: &[u8],
    image: &Image,
    change: (usize, u8, u64),
) -> Result<(), Fail> {
    let (place, byte, field) = change;
    let bytes = sealed(rt, alloc, dump, 476, place, byte)?;
    assert_refused(
        rt,
        alloc,
        bytes.as_slice(),
        image,
        DumpFault::Field { place: field },
    );
    Ok(())
}

/// Of a dump cut to this length, with a fresh digest, this field is refused.
fn assert_cut(
    rt: &impl Abort,
    alloc: Global,
    dump: &[u8],
    image: &Image,
    cut: (usize, u64),
) -> Result<(), Fail> {
    let (len, field) = cut;
    let bytes = sealed(rt, alloc, dump, len, 0, 0x54)?;
    assert_refused(
        rt,
        alloc,
        bytes.as_slice(),
        image,
        DumpFault::Field { place: field },
    );
    Ok(())
}

/// The first `len` bytes of a dump, the byte at a place changed, closed by their digest.
fn sealed(
    rt: &impl Abort,
    alloc: Global,
    dump: &[u8],
    len: usize,
    place: usize,
    byte: u8,
) -> Result<Vec<u8>, Fail> {
    assert!(rt; len <= dump.len() && place < len);
    let mut bytes = Vec::from_slice(alloc, &dump[..len])?;
    bytes[place] = byte;
    let digest = Sha256::digest(bytes.as_slice());
    bytes.extend_from_slice(&digest)?;
    Ok(bytes)
}

/// Reads a dump and writes what was read.
fn written_again(rt: &impl Abort, alloc: Global, dump: &[u8]) -> Result<Vec<u8>, Fail> {
    let image = image_of(rt, alloc, TERMINATES);
    let window = read_dump(alloc, dump, &image).expect(rt, "the dump is read");
    let mut again = Vec::new(alloc);
    write_dump(&window, &mut again)?;
    Ok(again)
}

#[test]
fn what_was_written_is_read(rt: HostRuntime) -> Result<(), Fail> {
    let image = image_of(&rt, rt.alloc(), TERMINATES);
    let first = booted(&rt, rt.alloc(), &image)?;
    assert_eq!(rt; first.len(), 269);
    let again = written_again(&rt, rt.alloc(), first.as_slice())?;
    assert!(rt; again.as_slice() == first.as_slice());
    let last = terminated(&rt, rt.alloc())?;
    assert_eq!(rt; last.len(), 508);
    let again = written_again(&rt, rt.alloc(), last.as_slice())?;
    assert!(rt; again.as_slice() == last.as_slice());
    Ok(())
}

/// The first `len` bytes of a dump.
fn cut_to(rt: &impl Abort, alloc: Global, dump: &[u8], len: usize) -> Result<Vec<u8>, Fail> {
    assert!(rt; len <= dump.len());
    Ok(Vec::from_slice(alloc, &dump[..len])?)
}

#[test]
fn bytes_that_are_no_dump(rt: HostRuntime) -> Result<(), Fail> {
    let image = image_of(&rt, rt.alloc(), TERMINATES);
    let mut dump = terminated(&rt, rt.alloc())?;
    assert_refused(&rt, rt.alloc(), &[], &image, DumpFault::Magic);
    let short = cut_to(&rt, rt.alloc(), dump.as_slice(), 36)?;
    assert_refused(&rt, rt.alloc(), short.as_slice(), &image, DumpFault::Magic);
    let cut = cut_to(&rt, rt.alloc(), dump.as_slice(), 507)?;
    assert_digest(&rt, rt.alloc(), cut.as_slice(), &image);
    dump.push(0)?;
    assert_digest(&rt, rt.alloc(), dump.as_slice(), &image);
    Ok(())
}

#[test]
fn a_dump_of_another_image(rt: HostRuntime) -> Result<(), Fail> {
    let other = image_of(&rt, rt.alloc(), OTHER);
    let dump = terminated(&rt, rt.alloc())?;
    let wanted = DumpFault::OtherImage {
        found: Sha256::digest(TERMINATES),
        wanted: Sha256::digest(OTHER),
    };
    assert_refused(&rt, rt.alloc(), dump.as_slice(), &other, wanted);
    Ok(())
}

#[test]
fn the_order_of_the_refusals(rt: HostRuntime) -> Result<(), Fail> {
    let image = image_of(&rt, rt.alloc(), OTHER);
    let dump = terminated(&rt, rt.alloc())?;
    let mut bytes = Vec::from_slice(rt.alloc(), dump.as_slice())?;
    assert!(rt; bytes.len() == 508);
    bytes[4] = 2;
    assert_refused(
        &rt,
        rt.alloc(),
        bytes.as_slice(),
        &image,
        DumpFault::Version(2),
    );
    bytes[0] = 0;
    assert_refused(&rt, rt.alloc(), bytes.as_slice(), &image, DumpFault::Magic);
    assert_cut(&rt, rt.alloc(), dump.as_slice(), &image, (36, 5))?;
    Ok(())
}

#[test]
fn a_field_that_breaks_its_rule(rt: HostRuntime) -> Result<(), Fail> {
    let image = image_of(&rt, rt.alloc(), TERMINATES);
    let dump = terminated(&rt, rt.alloc())?;
    for change in [
        (37, 2, 37),
        (44, 0x20, 38),
        (46, 1, 46),
        (46, 0, 47),
        (47, 6, 47),
        (47, 0, 47),
        (48, 1, 48),
        (56, 1, 56),
        (60, 4, 60),
        (64, 255, 64),
        (75, 0x10, 73),
        (77, 2, 77),
        (81, 255, 81),
        (82, 5, 82),
        (99, 1, 99),
        (100, 1, 100),
        (122, 0x20, 116),
        (116, 1, 124),
        (130, 0x20, 124),
        (133, 9, 133),
        (153, 0, 153),
        (153, 1, 153),
        (161, 2, 161),
        (289, 2, 289),
        (297, 3, 297),
        (457, 0, 457),
        (458, 1, 458),
        (459, 0, 459),
        (469, 0x10, 467),
        (471, 1, 471),
        (475, 2, 475),
        (475, 4, 475),
    ] {
        assert_field(&rt, rt.alloc(), dump.as_slice(), &image, change)?;
    }
    Ok(())
}

#[test]
fn a_field_that_does_not_fit(rt: HostRuntime) -> Result<(), Fail> {
    let image = image_of(&rt, rt.alloc(), TERMINATES);
    let dump = terminated(&rt, rt.alloc())?;
    for cut in [(475, 475), (470, 467), (100, 100), (99, 99), (37, 37)] {
        assert_cut(&rt, rt.alloc(), dump.as_slice(), &image, cut)?;
    }
    Ok(())
}

#[test]
fn bytes_that_no_field_has(rt: HostRuntime) -> Result<(), Fail> {
    let image = image_of(&rt, rt.alloc(), TERMINATES);
    let dump = terminated(&rt, rt.alloc())?;
    let bytes = sealed(&rt, rt.alloc(), dump.as_slice(), 477, 476, 0)?;
    let wanted = DumpFault::Extra { place: 476 };
    assert_refused(&rt, rt.alloc(), bytes.as_slice(), &image, wanted);
    Ok(())
}
