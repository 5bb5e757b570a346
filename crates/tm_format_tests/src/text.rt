//! Whole texts, written from values by hand.

ghost use Rattle.std.specs.Prelude.{◌≡◌};
ghost use Rattle.tm_marker.specs.declared.tail.TheConstants.{NOBODY};

use std::alloc::Global;
use std::test::Fail;
use tm_marker::{Items, Kind, Marker, NOBODY, OutputEntry, Switch, Tail};
use tm_text::{Seen, Stop, Track, changes, write_end, write_start, write_stop};

const LOOPED: Marker = Marker {
    epoch: 0,
    count: 5,
    pc: 0,
};

const ENDED: Marker = Marker {
    epoch: 1,
    count: 0,
    pc: 0,
};

/// The registers at boot, but for x17.
fn registers(x17: u32) -> [u32; 31] {
    let mut regs = [0; 31];
    regs[1] = 0x1000_0004;
    regs[16] = x17;
    regs
}

fn seen(alloc: Global, task: u8, at: Marker) -> Seen {
    Seen {
        task,
        at,
        regs: registers(0),
        changed: Items::new(alloc),
    }
}

fn stop(alloc: Global, seq: u64, task: u8, at: Marker) -> Stop {
    Stop {
        seq,
        cause: 0,
        seen: seen(alloc, task, at),
        outputs: Items::new(alloc),
    }
}

fn track(alloc: Global, task: u8, at: Marker) -> Track {
    Track {
        start: seen(alloc, task, Marker::ZERO),
        stops: Items::new(alloc),
        last: seen(alloc, task, at),
        outputs: Items::new(alloc),
    }
}

/// The entry by which a task goes on from nobody.
fn idle(to: u8) -> Switch
    ensures { result.from ≡ NOBODY }
{
    Switch {
        from: NOBODY,
        kind: Kind::Idle,
        from_at: Marker::ZERO,
        to,
        to_at: Marker::ZERO,
    }
}

#[test]
fn one_task_that_ends(rt: HostRuntime) -> Result<(), Fail> {
    let mut text = Vec::new(rt.alloc());
    write_start(0, NOBODY, &[seen(rt.alloc(), 0, Marker::ZERO)], &mut text)?;
    write_stop(1, &idle(0), None, &mut text)?;
    let ends = Switch {
        from: 0,
        kind: Kind::Ends,
        from_at: ENDED,
        to: NOBODY,
        to_at: Marker::ZERO,
    };
    write_stop(2, &ends, Some(&stop(rt.alloc(), 2, 0, ENDED)), &mut text)?;
    let tail = Tail {
        running: NOBODY,
        ended: 0,
        at: Items::from(vec![in rt.alloc(); ENDED]?),
        state: Items::from(vec![in rt.alloc(); 0]?),
    };
    write_end(&tail, &[track(rt.alloc(), 0, ENDED)], &mut text)?;
    let expected = b"start 0 -
task 0 0.0.00000000
regs x2=10000004
switch 1 - idle 0
switch 2 0 ends -
at 1.0.00000000
regs x2=10000004
end - on
task 0 suspended 1.0.00000000
regs x2=10000004
";
    assert_eq!(rt; text.as_slice(), expected.as_slice());
    Ok(())
}

#[test]
fn a_loop_that_is_preempted(rt: HostRuntime) -> Result<(), Fail> {
    let alloc = rt.alloc();
    let mut text = Vec::new(alloc);
    let start = [seen(alloc, 0, Marker::ZERO), seen(alloc, 1, Marker::ZERO)];
    write_start(0, NOBODY, &start, &mut text)?;
    write_stop(1, &idle(0), None, &mut text)?;
    let preempted = Switch {
        from: 0,
        kind: Kind::Preempted,
        from_at: LOOPED,
        to: 1,
        to_at: Marker::ZERO,
    };
    write_stop(2, &preempted, Some(&stop(alloc, 2, 0, LOOPED)), &mut text)?;
    let ends = Switch {
        from: 1,
        kind: Kind::Ends,
        from_at: ENDED,
        to: 0,
        to_at: LOOPED,
    };
    write_stop(3, &ends, Some(&stop(alloc, 3, 1, ENDED)), &mut text)?;
    let tail = Tail {
        running: 0,
        ended: 0,
        at: Items::from(vec![in alloc; LOOPED, ENDED]?),
        state: Items::from(vec![in alloc; 2, 0]?),
    };
    let tracks = [track(alloc, 0, LOOPED), track(alloc, 1, ENDED)];
    write_end(&tail, &tracks, &mut text)?;
    let expected = b"start 0 -
task 0 0.0.00000000
regs x2=10000004
task 1 0.0.00000000
regs x2=10000004
switch 1 - idle 0
switch 2 0 preempted 1
at 0.5.00000000
regs x2=10000004
switch 3 1 ends 0
at 1.0.00000000
regs x2=10000004
end 0 on
task 0 running 0.5.00000000
regs x2=10000004
task 1 suspended 1.0.00000000
regs x2=10000004
";
    assert_eq!(rt; text.as_slice(), expected.as_slice());
    Ok(())
}

#[test]
fn a_store_into_the_text(rt: HostRuntime) -> Result<(), Fail> {
    let alloc = rt.alloc();
    let mut text = Vec::new(alloc);
    let fault = Switch {
        from: 0,
        kind: Kind::Fault,
        from_at: Marker::ZERO,
        to: NOBODY,
        to_at: Marker::ZERO,
    };
    let mut left = stop(alloc, 2, 0, Marker::ZERO);
    left.cause = 6;
    write_stop(2, &fault, Some(&left), &mut text)?;
    let tail = Tail {
        running: NOBODY,
        ended: 1,
        at: Items::from(vec![in alloc; Marker::ZERO]?),
        state: Items::from(vec![in alloc; 1]?),
    };
    write_end(&tail, &[track(alloc, 0, Marker::ZERO)], &mut text)?;
    let expected = b"switch 2 0 fault -
at 0.0.00000000
cause 6
regs x2=10000004
end - fault
task 0 ready 0.0.00000000
regs x2=10000004
";
    assert_eq!(rt; text.as_slice(), expected.as_slice());
    Ok(())
}

#[test]
fn outputs_of_two_tasks(rt: HostRuntime) -> Result<(), Fail> {
    let alloc = rt.alloc();
    let mut text = Vec::new(alloc);
    write_stop(1, &idle(1), None, &mut text)?;
    let ends = Switch {
        from: 1,
        kind: Kind::Ends,
        from_at: ENDED,
        to: 0,
        to_at: Marker::ZERO,
    };
    let mut left = stop(alloc, 2, 1, ENDED);
    left.outputs.push(OutputEntry {
        task: 1,
        port: 0,
        value: 9,
    })?;
    write_stop(2, &ends, Some(&left), &mut text)?;
    let waiting = Marker {
        epoch: 0,
        count: 0,
        pc: 0x10,
    };
    let mut running = track(alloc, 0, waiting);
    running.last.regs = registers(0x13);
    running.outputs.push(OutputEntry {
        task: 0,
        port: 1,
        value: 7,
    })?;
    let tail = Tail {
        running: 0,
        ended: 0,
        at: Items::from(vec![in alloc; waiting, ENDED]?),
        state: Items::from(vec![in alloc; 2, 0]?),
    };
    write_end(&tail, &[running, track(alloc, 1, ENDED)], &mut text)?;
    let expected = b"switch 1 - idle 1
switch 2 1 ends 0
at 1.0.00000000
regs x2=10000004
out 0 00000009
end 0 on
task 0 running 0.0.00000010
regs x2=10000004 x17=00000013
out 1 00000007
task 1 suspended 1.0.00000000
regs x2=10000004
";
    assert_eq!(rt; text.as_slice(), expected.as_slice());
    Ok(())
}

#[test]
fn a_word_that_changed(rt: HostRuntime) -> Result<(), Fail> {
    let alloc = rt.alloc();
    let mut text = Vec::new(alloc);
    let ends = Switch {
        from: 0,
        kind: Kind::Ends,
        from_at: ENDED,
        to: 0,
        to_at: ENDED,
    };
    let mut left = stop(alloc, 2, 0, ENDED);
    left.seen.changed = changes(alloc, &[0], &[7])?;
    write_stop(2, &ends, Some(&left), &mut text)?;
    let expected = b"switch 2 0 ends 0
at 1.0.00000000
regs x2=10000004
data 10000000 00000007
";
    assert_eq!(rt; text.as_slice(), expected.as_slice());
    Ok(())
}
