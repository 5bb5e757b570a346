//! Images that are read, and their texts, which are read again.

mod six_tasks;

use six_tasks::{SIX_TASKS, TEXT_OF_SIX_TASKS};
use std::alloc::{AllocError, Global};
use std::process::Abort;
use std::test::Fail;
use tm_image::{Fault, Image, Loaded, Reason, read_image};
use tm_image_text::image_text;
use tm_rv::{Code, Set};

/// A task of two words of text, and its text.
const ONE_TASK: (&str, &str) = (
    "tmi 1\ntask 0 basic 1 auto 0 1\ntext 0 00200893\ntext 0 00000073\n",
    "tmi 1\ntask 0 basic 1 auto 0 1\ntext 0 00200893 00000073\nring control 256\nring data 256\nring outputs 256\nring checks 4\n",
);

/// A task that multiplies, as its text.
const ONE_PRODUCT: &str =
    "tmi 2\ntask 0 basic 1 auto 0 1\ntext 0 02208133 00000073\nring control 256\nring data 256\nring outputs 256\nring checks 4\n";

/// The words of a text in either case, data lines that overlap and end in zeros, users that fall, lines and rings
/// in no order, notes, and CR before LF; and its text.
const LOOSE: (&str, &str) = (
    "# a note\r\ntmi 1\r\ntask 0 extended 0xfF off 0x4 05\r\ntext 0 DEADBEEF\r\nring checks 0x40\r\nring control 1\r\ntext 0 0000006F\r\ntask 1 basic 9 auto 0 16384\r\ndata 0 1 00000007 00000008\r\ndata 0 2 00000000 ABCDEF01 00000000\r\n\ttext 1   00000073 \r\nresource 0 1 0\r\nresource 1 1\r\nalarm 0 event 1 0xFFFFFFFF\r\nline 15 event 0 010\r\nbox 0 64\r\nline 3 tick\r\nline 0 activate 0\r",
    "tmi 1\ntask 0 extended 255 off 4 5\ntext 0 deadbeef 0000006f\ndata 0 0 00000000 00000007 00000000 abcdef01\ntask 1 basic 9 auto 0 16384\ntext 1 00000073\nresource 0 0 1\nresource 1 1\nalarm 0 event 1 4294967295\nbox 0 64\nline 0 activate 0\nline 3 tick\nline 15 event 0 10\nring control 1\nring data 256\nring outputs 256\nring checks 64\n",
);

fn image(alloc: Global, text: &[u8]) -> Result<Image, Fault> {
    if text.len() >= u32::MAX as usize {
        return Err(Fault {
            line: 0,
            reason: Reason::Memory,
        });
    }
    read_image(alloc, text)
}

/// The text of an image, behind other bytes.
fn text_of(alloc: Global, image: &Image, front: &str) -> Result<Vec<u8>, AllocError> {
    let mut text = Vec::from_slice(alloc, front.as_bytes())?;
    image_text(image, &mut text)?;
    Ok(text)
}

#[test]
fn each_image_has_one_text(rt: HostRuntime) -> Result<(), Fail> {
    let alloc = rt.alloc();
    let cases = [
        ONE_TASK,
        (ONE_TASK.1, ONE_TASK.1),
        LOOSE,
        (LOOSE.1, LOOSE.1),
        (SIX_TASKS, TEXT_OF_SIX_TASKS),
        (TEXT_OF_SIX_TASKS, TEXT_OF_SIX_TASKS),
    ];
    for (told, wanted) in cases {
        let read = image(alloc, told.as_bytes()).expect(&rt, "an image");
        let text = text_of(alloc, &read, "")?;
        assert_eq!(rt; text.as_slice(), wanted.as_bytes(), "{told}");
    }
    Ok(())
}

#[test]
fn a_text_keeps_its_set(rt: HostRuntime) -> Result<(), Fail> {
    let alloc = rt.alloc();
    let read = image(alloc, ONE_PRODUCT.as_bytes()).expect(&rt, "an image");
    assert_eq!(rt; read.set(), Set::Mul);
    let text = text_of(alloc, &read, "")?;
    assert_eq!(rt; text.as_slice(), ONE_PRODUCT.as_bytes());
    Ok(())
}

#[test]
fn a_text_stands_behind_what_was_there(rt: HostRuntime) -> Result<(), Fail> {
    let alloc = rt.alloc();
    let read = image(alloc, ONE_TASK.0.as_bytes()).expect(&rt, "an image");
    let text = text_of(alloc, &read, "before\n")?;
    let mut wanted = Vec::from_slice(alloc, b"before\n")?;
    wanted.extend_from_slice(ONE_TASK.1.as_bytes())?;
    assert_eq!(rt; text.as_slice(), wanted.as_slice());
    Ok(())
}

#[test]
fn a_replaced_task_stands_in_the_text(rt: HostRuntime) -> Result<(), Fail> {
    let alloc = rt.alloc();
    let mut read = image(alloc, LOOSE.0.as_bytes()).expect(&rt, "an image");
    let mut code = Code::new(alloc, read.set());
    code.extend(&[0x13, 0x73])?;
    let words = vec![in alloc; 0xa, 0, 0xb, 0]?;
    assert!(rt; read.tasks() > 1);
    read.replace(1, Loaded::of(4, code, words));
    let text = text_of(alloc, &read, "")?;
    let again = image(alloc, text.as_slice()).expect(&rt, "its text");
    assert!(rt; again.tasks() > 1);
    assert_eq!(rt; again.entry(1), 4);
    assert_eq!(rt; again.text(1).words(), [0x13, 0x73].as_slice());
    assert_eq!(rt; again.words(1), [0xa, 0, 0xb, 0].as_slice());
    assert_eq!(rt; again.text(0).words(), [0xdead_beef, 0x6f].as_slice());
    Ok(())
}
