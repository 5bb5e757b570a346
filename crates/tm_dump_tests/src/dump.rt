//! Whole dumps. Their lengths, the bytes at some places and their closing digests were made from the
//! layout by other means; a closing digest tells all bytes before it.

ghost use Rattle.std.specs.Prelude.{◌≡◌, IfOk};
ghost use Rattle.tm_marker.specs.Shape.{IsShape};

mod reading;

use std::alloc::Global;
use std::process::Abort;
use std::test::Fail;
use tm_dump::write_dump;
use tm_log::Window;
use tm_marker::{Body, Caps, DataEntry, Items, Kind, Marker, NOBODY, OutputEntry, Shape, Switch};

const ENDED: Marker = Marker {
    epoch: 1,
    count: 0,
    pc: 0,
};

const STARTS: Switch = Switch {
    from: NOBODY,
    kind: Kind::Idle,
    from_at: Marker::ZERO,
    to: 0,
    to_at: Marker::ZERO,
};

const ENDS: Switch = Switch {
    from: 0,
    kind: Kind::Ends,
    from_at: ENDED,
    to: NOBODY,
    to_at: Marker::ZERO,
};

/// One task of one data word, with the usual capacities.
fn one_task(alloc: Global) -> Result<Shape, Fail>
    ensures { IfOk result IsShape }
{
    Ok(Shape {
        image: [7; 32],
        caps: Caps::DEFAULT,
        words: Items::from(Vec::from_slice(alloc, &[1])?),
    })
}

/// Two tasks, of one and of three data words, with small buffers.
fn two_tasks(alloc: Global) -> Result<Shape, Fail>
    ensures { IfOk result IsShape }
{
    let caps = Caps {
        control: 2,
        logs: 3,
        outputs: 4,
        checks: 5,
    };
    Ok(Shape {
        image: [7; 32],
        caps,
        words: Items::from(Vec::from_slice(alloc, &[1, 3])?),
    })
}

fn push_control(rt: &impl Abort, window: &mut Window, entry: Switch)
    ensures { window.new.shape ≡ window.old.shape }
{
    assert!(rt; window.control().total() < 9);
    window.push_control(entry);
}

fn push_output(rt: &impl Abort, window: &mut Window, entry: OutputEntry)
    ensures { window.new.shape ≡ window.old.shape }
{
    assert!(rt; window.outputs().total() < 9);
    window.push_output(entry);
}

fn push_entry(rt: &impl Abort, window: &mut Window, task: u8, entry: DataEntry)
    ensures { window.new.shape ≡ window.old.shape }
{
    assert!(rt; task < window.tasks());
    assert!(rt; window.log(task).total() < 9);
    window.push_entry(task, entry);
}

fn push_check(
    rt: &impl Abort,
    window: &mut Window,
    task: u8,
    body: &Body,
    data_no: u64,
    control_no: u64,
)
    ensures { window.new.shape ≡ window.old.shape }
{
    assert!(rt; task < window.tasks());
    let checks = window.checks(task);
    assert!(rt; checks.total() < 9);
    assert!(rt; checks.data_words() as usize == body.words.len());
    window.push_check(task, body, data_no, control_no);
}

fn set_task(rt: &impl Abort, window: &mut Window, task: u8, at: Marker, state: u8)
    ensures { window.new.shape ≡ window.old.shape }
{
    assert!(rt; task < window.tasks());
    window.set_task(task, at, state);
}

/// The body at boot of a task with one data word.
fn at_boot(alloc: Global) -> Result<Body, Fail> {
    let mut body = Body::new(alloc, 1)?;
    body.regs[1] = 0x1000_0004;
    Ok(body)
}

/// What one task leaves before the first slice.
fn booted(rt: &impl Abort, alloc: Global) -> Result<Window, Fail> {
    let mut window = Window::new(alloc, &one_task(alloc)?)?;
    push_check(rt, &mut window, 0, &at_boot(alloc)?, 0, 0);
    set_task(rt, &mut window, 0, Marker::ZERO, 1);
    Ok(window)
}

/// What one task leaves that terminates itself.
fn terminated(rt: &impl Abort, alloc: Global) -> Result<Window, Fail> {
    let mut window = booted(rt, alloc)?;
    let answer = DataEntry {
        service: 2,
        status: 0,
        words: [0; 4],
    };
    push_control(rt, &mut window, STARTS);
    push_entry(rt, &mut window, 0, answer);
    push_check(rt, &mut window, 0, &at_boot(alloc)?, 1, 1);
    push_control(rt, &mut window, ENDS);
    set_task(rt, &mut window, 0, ENDED, 0);
    Ok(window)
}

#[test]
fn a_run_before_its_first_slice(rt: HostRuntime) -> Result<(), Fail> {
    let mut dump = Vec::new(rt.alloc());
    write_dump(&booted(&rt, rt.alloc())?, &mut dump)?;
    assert_eq!(rt; dump.len(), 269);
    assert!(rt;
        dump.as_slice()
            .starts_with(&[0x54, 0x4d, 0x44, 0x50, 1, 7, 7])
    );
    assert!(rt;
        dump.as_slice().ends_with(&[
            0x5b, 0x75, 0xd8, 0xf9, 0x77, 0x64, 0xf0, 0x7f, 0x17, 0xf8, 0xc6, 0xc9, 0xcb, 0x91,
            0xed, 0x2a, 0x5c, 0x2f, 0xf7, 0xe9, 0x3a, 0xab, 0x07, 0xf5, 0x9c, 0x84, 0x33, 0x8b,
            0x56, 0x49, 0xbc, 0x8a,
        ])
    );
    Ok(())
}

#[test]
fn a_run_of_one_task_that_ends(rt: HostRuntime) -> Result<(), Fail> {
    let mut dump = Vec::new(rt.alloc());
    write_dump(&terminated(&rt, rt.alloc())?, &mut dump)?;
    assert_eq!(rt; dump.len(), 508);
    for (place, byte) in [(37, 1), (46, 0xff), (47, 5), (81, 0), (82, 2)] {
        assert_eq!(rt; dump.get(place).copied(), Some(byte), "at {place}");
    }
    assert!(rt;
        dump.as_slice().ends_with(&[
            0xf6, 0xb7, 0xcb, 0x70, 0x05, 0x92, 0x64, 0x2f, 0x96, 0x73, 0xd5, 0xd9, 0x27, 0xd1,
            0xc8, 0xee, 0xa4, 0x01, 0x7a, 0xbd, 0xbc, 0x62, 0x79, 0x7b, 0x64, 0x77, 0x92, 0xd7,
            0x24, 0xcc, 0x50, 0xc8,
        ])
    );
    Ok(())
}

#[test]
fn a_dump_after_other_bytes(rt: HostRuntime) -> Result<(), Fail> {
    let window = booted(&rt, rt.alloc())?;
    let mut alone = Vec::new(rt.alloc());
    write_dump(&window, &mut alone)?;
    let mut both = Vec::from_slice(rt.alloc(), &[1, 2, 3])?;
    write_dump(&window, &mut both)?;
    assert_eq!(rt; both.len(), 3 + 269);
    assert!(rt; both.as_slice().starts_with(&[1, 2, 3, 0x54]));
    assert!(rt; both.as_slice().ends_with(alone.as_slice()));
    Ok(())
}

/// Two tasks whose fields all differ, after three control entries of which two are kept.
fn full(rt: &impl Abort, alloc: Global) -> Result<Window, Fail> {
    let first = Marker {
        epoch: 0x0102_0304_0506_0708,
        count: 0x09_0a0b,
        pc: 0x10,
    };
    let second = Marker {
        epoch: 9,
        count: 0x2_0000,
        pc: 0x0a0b_0c0c,
    };
    let mut window = Window::new(alloc, &two_tasks(alloc)?)?;
    push_control(rt, &mut window, STARTS);
    push_control(
        rt,
        &mut window,
        Switch {
            from: 0,
            kind: Kind::Preempted,
            from_at: first,
            to: 1,
            to_at: second,
        },
    );
    push_control(
        rt,
        &mut window,
        Switch {
            from: 1,
            kind: Kind::Shutdown,
            from_at: second,
            to: NOBODY,
            to_at: Marker::ZERO,
        },
    );
    let output = OutputEntry {
        task: 1,
        port: 3,
        value: 0xdead_beef,
    };
    push_output(rt, &mut window, output);
    let answer = DataEntry {
        service: 17,
        status: 8,
        words: [1, 0x1_0000, 3, 0xffff_ffff],
    };
    push_entry(rt, &mut window, 1, answer);
    push_check(rt, &mut window, 1, &numbered(alloc)?, 0x11_2233_4455, 7);
    window.set_running(NOBODY, 2);
    set_task(rt, &mut window, 0, first, 0);
    set_task(rt, &mut window, 1, second, 3);
    Ok(window)
}

/// A body of three data words in which each register holds its number in every byte.
fn numbered(alloc: Global) -> Result<Body, Fail> {
    let mut body = Body::new(alloc, 3)?;
    body.pc = 0x1234;
    for index in 0..31 {
        body.regs[index] = 0x0101_0101 * (index as u32 + 1);
    }
    body.words = Items::from(Vec::from_slice(alloc, &[5, 6, 0xcafe_f00d])?);
    Ok(body)
}

#[test]
fn every_field_of_two_tasks(rt: HostRuntime) -> Result<(), Fail> {
    let window = full(&rt, rt.alloc())?;
    let bound = window.dump_bound() as usize;
    let mut dump = Vec::with_capacity(rt.alloc(), bound)?;
    write_dump(&window, &mut dump)?;
    assert_eq!(rt; (dump.len(), dump.capacity()), (407, bound));
    assert!(rt;
        dump.as_slice().ends_with(&[
            0x20, 0x72, 0xc5, 0x94, 0x6f, 0xd6, 0x1a, 0xe9, 0xff, 0xe0, 0xa8, 0x7f, 0x33, 0xf4,
            0x08, 0xcc, 0x74, 0xa7, 0x62, 0x61, 0xd7, 0x74, 0x5e, 0xa3, 0x28, 0x19, 0xf6, 0xe0,
            0xf9, 0x11, 0x85, 0x7d,
        ])
    );
    Ok(())
}
