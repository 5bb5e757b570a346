//! What machines tell of small runs, against values worked by hand.

ghost use Rattle.std.specs.Prelude.{◌≡◌, ◌<◌};
ghost use Rattle.tm_system.specs.Machine.{IsMachine};

use std::alloc::Global;
use std::process::Abort;
use std::test::Fail;
use tm_image::{Image, read_image};
use tm_marker::{DataEntry, Kind, Marker, NOBODY, Switch};
use tm_system::{Machine, Told};

const ENDS: &[u8] = b"tmi 1\ntask 0 basic 1 auto 0 1\ntext 0 00200893 00000073\n";

const IS_PREEMPTED: &[u8] =
    b"tmi 1\ntask 0 basic 1 auto 0 1\ntext 0 0000006f\ntask 1 basic 2 off 0 1\ntext 1 00200893 00000073\nline 1 activate 1\n";

const ACTIVATES: &[u8] =
    b"tmi 1\ntask 0 basic 1 auto 0 1\ntext 0 00100513 00100893 00000073 0000006f\ntask 1 basic 2 off 0 1\ntext 1 00200893 00000073\n";

const STORES_TO_TEXT: &[u8] = b"tmi 1\ntask 0 basic 1 auto 0 1\ntext 0 00002023\n";

/// A moment that adds to no list, while a task runs.
const GOES_ON: Told = Told {
    entry: None,
    output: None,
    checkpoint: None,
    switch: None,
    fault: 0,
    idle: false,
};

/// The boot of the first task: nobody ran before it.
const STARTS: Switch = Switch {
    from: NOBODY,
    kind: Kind::Idle,
    from_at: Marker::ZERO,
    to: 0,
    to_at: Marker::ZERO,
};

fn at(epoch: u64, count: u32, pc: u32) -> Marker {
    Marker { epoch, count, pc }
}

/// The entry of a call that succeeds and names no word.
fn entry(service: u8) -> DataEntry {
    DataEntry {
        service,
        status: 0,
        words: [0; 4],
    }
}

fn turn(rt: &impl Abort, machine: &mut Machine, image: &Image) -> Told
    requires { machine.old.kernel.spec ≡ image.now.spec }
    ensures spec { machine.new.kernel.spec ≡ machine.old.kernel.spec }
{
    let task = machine.running();
    assert!(rt; task != NOBODY);
    let epoch = machine.task(task).marker().epoch;
    assert!(rt; epoch < 1 << 53);
    machine.turn(image)
}

/// What the slices' moments tell, but for those that only go on; a slice is a length and a mask.
fn told(
    rt: &impl Abort,
    alloc: Global,
    image: &Image,
    slices: &[(u32, u32)],
) -> Result<(Machine, Vec<Told>), Fail> {
    let mut machine = Machine::boot(alloc, image)?;
    let mut all = Vec::new(alloc);
    for &(length, mask) in slices {
        assert!(rt; mask < 65536);
        let arrival = machine.arrive(mask, [0; 4]);
        if arrival != GOES_ON {
            all.push(arrival)?;
        }
        for _ in 0..length {
            let now = turn(rt, &mut machine, image);
            if now != GOES_ON {
                all.push(now)?;
            }
        }
    }
    Ok((machine, all))
}

#[test]
fn a_task_ends(rt: HostRuntime) -> Result<(), Fail> {
    let image = read_image(rt.alloc(), ENDS)?;
    let (machine, all) = told(&rt, rt.alloc(), &image, &[(2, 0)])?;
    let ends = Told {
        entry: Some(entry(2)),
        checkpoint: Some(0),
        switch: Some(Switch {
            from: 0,
            kind: Kind::Ends,
            from_at: at(1, 0, 0),
            to: NOBODY,
            to_at: Marker::ZERO,
        }),
        idle: true,
        ..GOES_ON
    };
    let starts = Told {
        switch: Some(STARTS),
        ..GOES_ON
    };
    assert_eq!(rt; all.as_slice(), [starts, ends].as_slice());
    assert_eq!(rt; machine.running(), NOBODY);
    assert_eq!(rt; machine.ended(), 0);
    Ok(())
}

#[test]
fn a_task_is_preempted_and_runs_again(rt: HostRuntime) -> Result<(), Fail> {
    let image = read_image(rt.alloc(), IS_PREEMPTED)?;
    let (machine, all) = told(&rt, rt.alloc(), &image, &[(5, 0), (2, 2)])?;
    let starts = Told {
        switch: Some(STARTS),
        ..GOES_ON
    };
    let preempted = Told {
        switch: Some(Switch {
            from: 0,
            kind: Kind::Preempted,
            from_at: at(0, 5, 0),
            to: 1,
            to_at: Marker::ZERO,
        }),
        ..GOES_ON
    };
    let ends = Told {
        entry: Some(entry(2)),
        checkpoint: Some(1),
        switch: Some(Switch {
            from: 1,
            kind: Kind::Ends,
            from_at: at(1, 0, 0),
            to: 0,
            to_at: at(0, 5, 0),
        }),
        ..GOES_ON
    };
    assert_eq!(rt; all.as_slice(), [starts, preempted, ends].as_slice());
    assert_eq!(rt; machine.running(), 0);
    Ok(())
}

#[test]
fn a_call_preempts_its_caller_after_the_answer(rt: HostRuntime) -> Result<(), Fail> {
    let image = read_image(rt.alloc(), ACTIVATES)?;
    let (machine, all) = told(&rt, rt.alloc(), &image, &[(3, 0)])?;
    let starts = Told {
        switch: Some(STARTS),
        ..GOES_ON
    };
    let preempted = Told {
        entry: Some(entry(1)),
        switch: Some(Switch {
            from: 0,
            kind: Kind::Preempted,
            from_at: at(0, 0, 12),
            to: 1,
            to_at: Marker::ZERO,
        }),
        ..GOES_ON
    };
    assert_eq!(rt; all.as_slice(), [starts, preempted].as_slice());
    assert_eq!(rt; machine.running(), 1);
    Ok(())
}

#[test]
fn a_fault_ends_the_run(rt: HostRuntime) -> Result<(), Fail> {
    let image = read_image(rt.alloc(), STORES_TO_TEXT)?;
    let (mut machine, all) = told(&rt, rt.alloc(), &image, &[(1, 0)])?;
    let starts = Told {
        switch: Some(STARTS),
        ..GOES_ON
    };
    let idle = Told {
        idle: true,
        ..GOES_ON
    };
    let fault = Told {
        switch: Some(Switch {
            from: 0,
            kind: Kind::Fault,
            from_at: Marker::ZERO,
            to: NOBODY,
            to_at: Marker::ZERO,
        }),
        fault: 6,
        ..idle
    };
    assert_eq!(rt; all.as_slice(), [starts, fault].as_slice());
    assert_eq!(rt; machine.ended(), 1);
    assert_eq!(rt; machine.arrive(0, [1; 4]), idle);
    Ok(())
}
