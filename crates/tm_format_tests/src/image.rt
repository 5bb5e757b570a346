//! Images and plans that are read, and the first lines of others that are refused.

mod cell;

use cell::CELL;
use std::alloc::{AllocError, Global};
use std::process::Abort;
use std::test::Fail;
use tm_image::{Fault, Image, Plan, Reason, read_image, read_plan};
use tm_kernel::{Action, TaskSpec};
use tm_marker::{Caps, Slice};
use tm_rv::Set;

/// The first three lines of an image: a task of one word of text and of data.
const ONE_TASK: &str = "tmi 1\ntask 0 basic 1 auto 0 1\ntext 0 0000006f\n";

fn image(alloc: Global, text: &str) -> Result<Image, Fault> {
    let bytes = text.as_bytes();
    if bytes.len() >= u32::MAX as usize {
        return Err(Fault {
            line: 0,
            reason: Reason::Memory,
        });
    }
    read_image(alloc, bytes)
}

fn plan(alloc: Global, text: &str) -> Result<Plan, Fault> {
    let bytes = text.as_bytes();
    if bytes.len() >= u32::MAX as usize {
        return Err(Fault {
            line: 0,
            reason: Reason::Memory,
        });
    }
    read_plan(alloc, bytes)
}

/// The text, and more below it.
fn with(alloc: Global, text: &str, more: &str) -> Result<String, AllocError> {
    let mut all = String::from_str(alloc, text)?;
    all.push_str(more)?;
    Ok(all)
}

/// The text with CR before each LF.
fn with_returns(alloc: Global, text: &str) -> Result<String, AllocError> {
    let mut all = String::new(alloc);
    for line in text.lines() {
        all.push_str(line)?;
        all.push_str("\r\n")?;
    }
    Ok(all)
}

#[test]
fn each_line_of_an_image_has_its_reasons(rt: HostRuntime) -> Result<(), Fail> {
    let alloc = rt.alloc();
    let cases: [(&str, u32, Reason); 76] = [
        ("frame 0", 4, Reason::Form),
        ("task 1 basic 2 auto 0", 4, Reason::Form),
        ("task 1 plain 2 auto 0 1", 4, Reason::Form),
        ("task 1 basic 2 on 0 1", 4, Reason::Form),
        ("task 1 basic 0x auto 0 1", 4, Reason::Number),
        ("task 2 basic 2 auto 0 1", 4, Reason::Range),
        ("task 1 basic 0 auto 0 1", 4, Reason::Range),
        ("task 1 basic 256 auto 0 1", 4, Reason::Range),
        ("task 1 basic 2 auto 2 1", 4, Reason::Range),
        ("task 1 basic 2 auto 0 0", 4, Reason::Range),
        ("task 1 basic 2 auto 0 16385", 4, Reason::Range),
        ("task 0 basic 2 auto 0 1", 4, Reason::Repeated),
        ("task 1 basic 1 auto 0 1", 4, Reason::Repeated),
        ("task 1 plain x auto 0 1", 4, Reason::Form),
        ("task 1 basic 0 auto x 1", 4, Reason::Number),
        ("task 0 basic 0 auto 0 1", 4, Reason::Range),
        ("text 0", 4, Reason::Form),
        ("text 0 0000001", 4, Reason::Number),
        ("text 0 0x000001", 4, Reason::Number),
        ("text 1 00000001", 4, Reason::Range),
        ("text 1 0000001", 4, Reason::Number),
        ("data 0 0", 4, Reason::Form),
        ("data 0 0 000000001", 4, Reason::Number),
        ("data 1 0 00000001", 4, Reason::Range),
        ("data 0 1 00000001", 4, Reason::Range),
        ("data 0 0 00000001 00000002", 4, Reason::Range),
        ("data 0 4294967295 00000001", 4, Reason::Range),
        ("data 0 4294967296 00000001", 4, Reason::Number),
        ("data 1 0 x", 4, Reason::Number),
        ("resource 0", 4, Reason::Form),
        ("resource 0 x", 4, Reason::Number),
        ("resource 1 0", 4, Reason::Range),
        ("resource 0 1", 4, Reason::Range),
        ("resource 0 0 0", 4, Reason::Repeated),
        ("resource 0 0\nresource 0 0", 5, Reason::Repeated),
        ("resource 0 0 0 1", 4, Reason::Range),
        ("alarm 0", 4, Reason::Form),
        ("alarm 0 tick", 4, Reason::Form),
        ("alarm 0 activate", 4, Reason::Form),
        ("alarm 0 activate 0 0", 4, Reason::Form),
        ("alarm 0 event 0", 4, Reason::Form),
        ("alarm 0 event 0 -1", 4, Reason::Number),
        ("alarm 1 activate 0", 4, Reason::Range),
        ("alarm 0 event 1 1", 4, Reason::Range),
        (
            "alarm 0 activate 0\nalarm 0 activate 0",
            5,
            Reason::Repeated,
        ),
        ("alarm x wake 0", 4, Reason::Form),
        ("alarm 0 activate 0\nalarm 0 activate 1", 5, Reason::Range),
        ("box 0", 4, Reason::Form),
        ("box 0 0x000000001", 4, Reason::Number),
        ("box 1 1", 4, Reason::Range),
        ("box 0 0", 4, Reason::Range),
        ("box 0 65", 4, Reason::Range),
        ("box 0 1\nbox 0 1", 5, Reason::Repeated),
        ("box 0 1\nbox 0 65", 5, Reason::Range),
        ("line 3", 4, Reason::Form),
        ("line 3 tick 0", 4, Reason::Form),
        ("line 0X3 tick", 4, Reason::Number),
        ("line 16 tick", 4, Reason::Range),
        ("line 3 activate 1", 4, Reason::Range),
        ("line 3 tick\nline 3 tick", 5, Reason::Repeated),
        ("line 3 tick\nline 3 event 1 1", 5, Reason::Range),
        ("ring data", 4, Reason::Form),
        ("ring logs 1", 4, Reason::Form),
        ("ring data +1", 4, Reason::Number),
        ("ring data 0", 4, Reason::Range),
        ("ring data 65537", 4, Reason::Range),
        ("ring checks 65", 4, Reason::Range),
        ("ring data 1\nring data 1", 5, Reason::Repeated),
        ("ring data 1\nring data 0", 5, Reason::Range),
        ("tmi 1", 4, Reason::Form),
        ("# a note that is no ASCII: é", 4, Reason::Form),
        ("box 0\r 1", 4, Reason::Form),
        ("box 0 1\0", 4, Reason::Form),
        ("task 1 basic 2 auto 0 1", 5, Reason::Missing),
        ("task 1 basic 2 auto 4 1\ntext 1 00000001", 6, Reason::Range),
        (
            "task 1 basic 2 auto 4 1\ntext 1 00000001\ntask 2 basic 3 auto 0 1",
            7,
            Reason::Missing,
        ),
    ];
    for (text, line, reason) in cases {
        let all = with(alloc, ONE_TASK, text)?;
        let fault = image(alloc, all.as_str()).err();
        assert_eq!(rt; fault, Some(Fault { line, reason }), "{text}");
    }
    Ok(())
}

#[test]
fn each_text_that_is_no_image_has_its_reason(rt: HostRuntime) {
    let cases: [(&str, u32, Reason); 11] = [
        ("", 1, Reason::Missing),
        ("\n# a note\n \t", 4, Reason::Missing),
        ("tmi 01\n", 1, Reason::Form),
        ("tmi 02\n", 1, Reason::Form),
        ("tmi 0\n", 1, Reason::Form),
        ("\ntmi 3\n", 2, Reason::Form),
        ("\ntmi 2\n", 3, Reason::Missing),
        ("task 0 basic 1 auto 0 1\n", 1, Reason::Form),
        ("tmi 1\n", 2, Reason::Missing),
        ("tmi 1", 2, Reason::Missing),
        ("tmi 1\n\r", 3, Reason::Missing),
    ];
    for (text, line, reason) in cases {
        let fault = image(rt.alloc(), text).err();
        assert_eq!(rt; fault, Some(Fault { line, reason }), "{text}");
    }
}

#[test]
fn the_version_tells_the_set_of_instructions(rt: HostRuntime) -> Result<(), Fail> {
    let alloc = rt.alloc();
    let lines = "task 0 basic 1 auto 0 1\ntext 0 02b50633\n";
    for (header, set) in [("tmi 1\n", Set::Base), ("# a note\n\ttmi  2\r\n", Set::Mul)] {
        let text = with(alloc, header, lines)?;
        let read = image(alloc, text.as_str()).expect(&rt, "an image");
        assert_eq!(rt; read.set(), set);
        assert_eq!(rt; read.text(0).set(), set);
        assert_eq!(rt; read.text(0).words(), [0x02b5_0633].as_slice());
    }
    Ok(())
}

/// Adds the line of a keyword that has this number, which may stand in an image of one task.
fn push_numbered(
    alloc: Global,
    text: &mut String,
    keyword: &str,
    number: u8,
) -> Result<(), AllocError> {
    let priority = u16::from(number) + 1;
    let line = match keyword {
        "task" => format!(in alloc; "task {number} basic {priority} auto 0 1\n")?,
        "alarm" => format!(in alloc; "alarm {number} activate 0\n")?,
        "box" => format!(in alloc; "box {number} 64\n")?,
        _ => format!(in alloc; "resource {number} 0\n")?,
    };
    text.push_str(line.as_str())
}

#[test]
fn the_seventeenth_is_refused(rt: HostRuntime) -> Result<(), Fail> {
    let alloc = rt.alloc();
    let cases = [
        ("task", "task 16 basic 17 auto 0 1", Reason::Limit),
        ("task", "task 16 basic 1 auto 0 1", Reason::Repeated),
        ("resource", "resource 16 0", Reason::Limit),
        ("resource", "resource 16 0 0", Reason::Repeated),
        ("alarm", "alarm 16 activate 0", Reason::Limit),
        ("alarm", "alarm 16 activate 16", Reason::Range),
        ("box", "box 16 1", Reason::Limit),
        ("box", "box 17 1", Reason::Range),
    ];
    for (keyword, last, reason) in cases {
        let is_task = keyword == "task";
        let mut all = String::from_str(alloc, if is_task { "tmi 1\n" } else { ONE_TASK })?;
        for number in 0..16 {
            push_numbered(alloc, &mut all, keyword, number)?;
        }
        all.push_str(last)?;
        let line = if is_task { 18 } else { 20 };
        let fault = image(alloc, all.as_str()).err();
        assert_eq!(rt; fault, Some(Fault { line, reason }), "{last}");
    }
    Ok(())
}

#[test]
fn a_text_has_at_most_16384_words(rt: HostRuntime) -> Result<(), Fail> {
    let alloc = rt.alloc();
    let mut all = with(alloc, ONE_TASK, "text 0")?;
    for _ in 0..16_383 {
        all.push_str(" 0000006f")?;
    }
    let read = image(alloc, all.as_str()).expect(&rt, "16,384 words");
    assert_eq!(rt; read.text(0).words().len(), 16_384);
    all.push_str("\ntext 0 0000006f")?;
    let fault = image(alloc, all.as_str()).err();
    assert_eq!(rt;
        fault,
        Some(Fault {
            line: 5,
            reason: Reason::Limit
        })
    );
    Ok(())
}

#[test]
fn data_lines_set_words(rt: HostRuntime) -> Result<(), Fail> {
    let alloc = rt.alloc();
    let all =
        "tmi 1\ntask 0 extended 255 off 4 4\ntext 0 00000013\ntext 0 0000006F\ndata 0 1 00000007 00000008\ndata 0 0x2 fFfFfFfF\n";
    let read = image(alloc, all).expect(&rt, "an image");
    assert_eq!(rt; read.entry(0), 4);
    assert_eq!(rt; read.text(0).words(), [0x13, 0x6f].as_slice());
    assert_eq!(rt; read.words(0), [0, 7, 0xffff_ffff, 0].as_slice());
    let task = TaskSpec {
        extended: true,
        priority: 255,
        auto: false,
    };
    assert_eq!(rt; read.spec().tasks.as_slice(), [task].as_slice());
    assert_eq!(rt; read.shape().caps, Caps::DEFAULT);
    assert_eq!(rt; read.shape().words.as_slice(), [4].as_slice());
    Ok(())
}

/// SHA-256 of the text `CELL`, as other programs tell it.
const CELL_DIGEST: [u8; 32] = [
    0x24, 0x29, 0x49, 0x00, 0xd3, 0xf7, 0x0e, 0x71, 0xae, 0x70, 0x0d, 0xed, 0x42, 0x81, 0xd1, 0xc4,
    0xb0, 0x57, 0xe7, 0x7c, 0x3b, 0xbe, 0x6e, 0x6f, 0x2b, 0x68, 0x54, 0x2f, 0x44, 0x03, 0xb9, 0x22,
];

/// Compares what `CELL` says.
fn assert_is_cell(rt: &impl Abort, read: &Image) {
    let caps = Caps {
        control: 512,
        logs: 1024,
        outputs: 256,
        checks: 16,
    };
    assert_eq!(rt; read.shape().caps, caps);
    assert_eq!(rt; read.shape().words.as_slice(), [4, 4, 4, 4, 4].as_slice());
    let spec = read.spec();
    assert_eq!(rt;
        spec.users.as_slice(),
        [0b1100, 0b0110, 0b1_1000].as_slice()
    );
    let alarms = [
        Action::Event(1, 1),
        Action::Event(2, 1),
        Action::Activate(3),
        Action::Activate(4),
    ];
    assert_eq!(rt; spec.alarms.as_slice(), alarms.as_slice());
    assert_eq!(rt; spec.boxes.as_slice(), [8, 4].as_slice());
    assert_eq!(rt; spec.lines[0], Action::Tick);
    assert_eq!(rt; spec.lines[1], Action::Event(1, 1));
    assert_eq!(rt; spec.lines[2], Action::Activate(3));
    assert_eq!(rt; spec.lines[3], Action::Nothing);
    assert_eq!(rt; read.tasks(), 5);
    assert_eq!(rt;
        read.text(0).words(),
        [
            0x1000_02b7,
            0x0002_a303,
            0x0013_0313,
            0x0062_a023,
            0xff5f_f06f
        ]
        .as_slice()
    );
    assert_eq!(rt; read.text(1).words().len(), 12);
    assert_eq!(rt; read.text(2).words().len(), 23);
    assert_eq!(rt; read.text(3).words().len(), 8);
    assert_eq!(rt; read.text(4).words().len(), 36);
}

#[test]
fn the_cell_is_read(rt: HostRuntime) -> Result<(), Fail> {
    let alloc = rt.alloc();
    let read = image(alloc, CELL).expect(&rt, "the cell");
    assert_eq!(rt; read.shape().image, CELL_DIGEST);
    assert_is_cell(&rt, &read);
    let returns = with_returns(alloc, CELL)?;
    let read = image(alloc, returns.as_str()).expect(&rt, "the cell with CR");
    assert_is_cell(&rt, &read);
    let open = image(alloc, CELL.trim_end()).expect(&rt, "the cell without the last LF");
    assert_is_cell(&rt, &open);
    Ok(())
}

#[test]
fn plans_are_read(rt: HostRuntime) {
    let alloc = rt.alloc();
    let texts = [
        "tmplan 1\nslice 5 0\nslice 1048576 0xFFFF 1 0x2 3 4294967295\n",
        "# a note\r\n\ttmplan   1\r\n\r\nslice\t5 0 \r\nslice 0x100000 65535 0x1 002 3 0xffffffff\r",
    ];
    let slices = [
        Slice {
            length: 5,
            mask: 0,
            ports: [0; 4],
        },
        Slice {
            length: 1_048_576,
            mask: 0xffff,
            ports: [1, 2, 3, 0xffff_ffff],
        },
    ];
    for text in texts {
        let read = plan(alloc, text).expect(&rt, "a plan");
        assert_eq!(rt; read.slices(), slices.as_slice());
    }
    let none = plan(alloc, "tmplan 1").expect(&rt, "a plan of no slices");
    assert_eq!(rt; none.slices().len(), 0);
}

#[test]
fn each_line_of_a_plan_has_its_reasons(rt: HostRuntime) {
    let cases: [(&str, u32, Reason); 18] = [
        ("", 1, Reason::Missing),
        ("# a note\n\n", 3, Reason::Missing),
        ("tmplan 2\n", 1, Reason::Form),
        ("tmplan 1\nSlice 5 0\n", 2, Reason::Form),
        ("tmplan 1\nslice 5\n", 2, Reason::Form),
        ("tmplan 1\nslice 5 0 1\n", 2, Reason::Form),
        ("tmplan 1\nslice 5 0 1 2 3\n", 2, Reason::Form),
        ("tmplan 1\nslice 5 0 1 2 3 4 5\n", 2, Reason::Form),
        ("tmplan 1\nslice 5 0\nslice x 0\n", 3, Reason::Number),
        ("tmplan 1\nslice 5 0 1 2 3 4294967296\n", 2, Reason::Number),
        ("tmplan 1\nslice 00000000005 0\n", 2, Reason::Number),
        ("tmplan 1\nslice 5 0X1\n", 2, Reason::Number),
        ("tmplan 1\nslice 1048577 0\n", 2, Reason::Range),
        ("tmplan 1\nslice 5 0x10000\n", 2, Reason::Range),
        ("tmplan 1\nslice x 0 1\n", 2, Reason::Form),
        ("tmplan 1\nslice 1048577 x\n", 2, Reason::Number),
        ("tmplan 1\nslice 5\r 0\n", 2, Reason::Form),
        ("tmplan 1\nslice 5 0\r\r\n", 2, Reason::Form),
    ];
    for (text, line, reason) in cases {
        let fault = plan(rt.alloc(), text).err();
        assert_eq!(rt; fault, Some(Fault { line, reason }), "{text}");
    }
}
