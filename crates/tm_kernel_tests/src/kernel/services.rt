//! Each service with each of its refusals, and each two refusals that can stand together: worked by hand.

ghost use Rattle.std.specs.Prelude.{IfOk};
ghost use Rattle.tm_kernel.specs.Spec.{IsKernelSpec};

use super::task;
use std::alloc::{AllocError, Global};
use std::process::Abort;
use std::test::Fail;
use tm_kernel::{Action, Answer, Kernel, KernelSpec, Need};
use tm_marker::{Items, Kind, OutputEntry};

/// A call of the running task: the service, and its first three arguments.
#[derive(Clone, Copy, Debug)]
struct Call(u8, u32, u32, u32);

/// A call that is refused and changes nothing.
const NONE: Call = Call(0, 0, 0, 0);

/// Two calls, each with the rescheduling after it; then the call, with its status, its first two words,
/// and what becomes of the caller.
#[derive(Clone, Copy, Debug)]
struct Row([Call; 2], Call, u32, [u32; 2], Need);

const GOES: Need = Need::Goes;

const ENDS: Need = Need::Leaves(Kind::Ends);

const WAITS: Need = Need::Leaves(Kind::Waits);

const SHUTDOWN: Need = Need::Leaves(Kind::Shutdown);

const TASKS: [Row; 12] = [
    Row([NONE, NONE], Call(1, 3, 0, 0), 0, [0, 0], GOES),
    Row([NONE, NONE], Call(1, 4, 0, 0), 3, [0, 0], GOES),
    Row([NONE, NONE], Call(1, 2, 0, 0), 4, [0, 0], GOES),
    Row([NONE, NONE], Call(2, 0, 0, 0), 0, [0, 0], ENDS),
    Row([NONE, Call(6, 0, 0, 0)], Call(2, 0, 0, 0), 6, [0, 0], GOES),
    Row([NONE, NONE], Call(3, 1, 0, 0), 0, [0, 0], ENDS),
    Row([NONE, NONE], Call(3, 0, 0, 0), 0, [0, 0], ENDS),
    Row([NONE, NONE], Call(3, 4, 0, 0), 3, [0, 0], GOES),
    Row([NONE, Call(6, 0, 0, 0)], Call(3, 1, 0, 0), 6, [0, 0], GOES),
    Row([NONE, NONE], Call(3, 2, 0, 0), 4, [0, 0], GOES),
    Row([NONE, Call(6, 0, 0, 0)], Call(3, 4, 0, 0), 3, [0, 0], GOES),
    Row([NONE, Call(6, 0, 0, 0)], Call(3, 2, 0, 0), 6, [0, 0], GOES),
];

const QUERIES: [Row; 7] = [
    Row([NONE, NONE], Call(4, 0, 0, 0), 0, [0, 0], GOES),
    Row([NONE, Call(2, 0, 0, 0)], Call(4, 0, 0, 0), 0, [2, 0], GOES),
    Row([NONE, NONE], Call(5, 0, 0, 0), 0, [2, 0], GOES),
    Row([NONE, NONE], Call(5, 2, 0, 0), 0, [1, 0], GOES),
    Row([NONE, NONE], Call(5, 3, 0, 0), 0, [0, 0], GOES),
    Row([NONE, Call(11, 1, 0, 0)], Call(5, 0, 0, 0), 0, [3, 0], GOES),
    Row([NONE, NONE], Call(5, 4, 0, 0), 3, [0, 0], GOES),
];

const RESOURCES: [Row; 8] = [
    Row([NONE, NONE], Call(6, 0, 0, 0), 0, [0, 0], GOES),
    Row([NONE, NONE], Call(6, 3, 0, 0), 3, [0, 0], GOES),
    Row([NONE, NONE], Call(6, 2, 0, 0), 1, [0, 0], GOES),
    Row([NONE, Call(6, 0, 0, 0)], Call(6, 0, 0, 0), 1, [0, 0], GOES),
    Row([NONE, Call(6, 0, 0, 0)], Call(7, 0, 0, 0), 0, [0, 0], GOES),
    Row([NONE, NONE], Call(7, 3, 0, 0), 3, [0, 0], GOES),
    Row([NONE, NONE], Call(7, 0, 0, 0), 5, [0, 0], GOES),
    Row(
        [Call(6, 0, 0, 0), Call(6, 1, 0, 0)],
        Call(7, 0, 0, 0),
        5,
        [0, 0],
        GOES,
    ),
];

const SET_EVENTS: [Row; 9] = [
    Row([NONE, NONE], Call(8, 0, 1, 0), 0, [0, 0], GOES),
    Row([NONE, NONE], Call(8, 4, 1, 0), 3, [0, 0], GOES),
    Row([NONE, NONE], Call(8, 2, 1, 0), 1, [0, 0], GOES),
    Row([NONE, NONE], Call(8, 1, 1, 0), 7, [0, 0], GOES),
    Row([NONE, NONE], Call(8, 3, 1, 0), 1, [0, 0], GOES),
    Row([NONE, NONE], Call(9, 1, 0, 0), 0, [0, 0], GOES),
    Row([NONE, Call(2, 0, 0, 0)], Call(9, 1, 0, 0), 1, [0, 0], GOES),
    Row(
        [Call(11, 6, 0, 0), Call(8, 0, 4, 0)],
        Call(4, 0, 0, 0),
        0,
        [0, 0],
        GOES,
    ),
    Row(
        [Call(11, 6, 0, 0), Call(8, 0, 1, 0)],
        Call(4, 0, 0, 0),
        0,
        [2, 0],
        GOES,
    ),
];

const READ_EVENTS: [Row; 7] = [
    Row([NONE, Call(8, 0, 5, 0)], Call(10, 0, 0, 0), 0, [5, 0], GOES),
    Row(
        [Call(8, 0, 5, 0), Call(9, 1, 0, 0)],
        Call(10, 0, 0, 0),
        0,
        [4, 0],
        GOES,
    ),
    Row(
        [Call(8, 0, 5, 0), Call(3, 0, 0, 0)],
        Call(10, 0, 0, 0),
        0,
        [0, 0],
        GOES,
    ),
    Row([NONE, NONE], Call(10, 4, 0, 0), 3, [0, 0], GOES),
    Row([NONE, NONE], Call(10, 2, 0, 0), 1, [0, 0], GOES),
    Row([NONE, NONE], Call(10, 1, 0, 0), 7, [0, 0], GOES),
    Row([NONE, NONE], Call(10, 3, 0, 0), 1, [0, 0], GOES),
];

const WAITS_FOR_EVENTS: [Row; 8] = [
    Row([NONE, NONE], Call(11, 1, 0, 0), 0, [0, 0], WAITS),
    Row([NONE, Call(8, 0, 5, 0)], Call(11, 4, 0, 0), 0, [0, 0], GOES),
    Row([NONE, Call(2, 0, 0, 0)], Call(11, 1, 0, 0), 1, [0, 0], GOES),
    Row([NONE, Call(6, 0, 0, 0)], Call(11, 1, 0, 0), 6, [0, 0], GOES),
    Row([NONE, NONE], Call(11, 0, 0, 0), 8, [0, 0], GOES),
    Row(
        [Call(2, 0, 0, 0), Call(6, 1, 0, 0)],
        Call(11, 1, 0, 0),
        1,
        [0, 0],
        GOES,
    ),
    Row([NONE, Call(2, 0, 0, 0)], Call(11, 0, 0, 0), 1, [0, 0], GOES),
    Row([NONE, Call(6, 0, 0, 0)], Call(11, 0, 0, 0), 6, [0, 0], GOES),
];

const ALARMS: [Row; 8] = [
    Row(
        [NONE, Call(13, 0, 7, 0)],
        Call(12, 0, 0, 0),
        0,
        [7, 0],
        GOES,
    ),
    Row(
        [NONE, Call(14, 0, 0, 0)],
        Call(12, 0, 0, 0),
        0,
        [2147483648, 0],
        GOES,
    ),
    Row([NONE, NONE], Call(12, 2, 0, 0), 3, [0, 0], GOES),
    Row([NONE, NONE], Call(12, 0, 0, 0), 5, [0, 0], GOES),
    Row(
        [NONE, Call(13, 0, 7, 0)],
        Call(15, 0, 0, 0),
        0,
        [0, 0],
        GOES,
    ),
    Row(
        [Call(13, 0, 7, 0), Call(15, 0, 0, 0)],
        Call(12, 0, 0, 0),
        5,
        [0, 0],
        GOES,
    ),
    Row([NONE, NONE], Call(15, 2, 0, 0), 3, [0, 0], GOES),
    Row([NONE, NONE], Call(15, 0, 0, 0), 5, [0, 0], GOES),
];

const RELATIVE_ALARMS: [Row; 8] = [
    Row([NONE, NONE], Call(13, 0, 7, 3), 0, [0, 0], GOES),
    Row([NONE, NONE], Call(13, 2, 7, 3), 3, [0, 0], GOES),
    Row(
        [NONE, Call(13, 0, 7, 0)],
        Call(13, 0, 8, 0),
        7,
        [0, 0],
        GOES,
    ),
    Row([NONE, NONE], Call(13, 0, 0, 0), 8, [0, 0], GOES),
    Row([NONE, NONE], Call(13, 0, 2147483648, 0), 8, [0, 0], GOES),
    Row([NONE, NONE], Call(13, 0, 1, 2147483648), 8, [0, 0], GOES),
    Row([NONE, NONE], Call(13, 2, 0, 0), 3, [0, 0], GOES),
    Row(
        [NONE, Call(13, 0, 7, 0)],
        Call(13, 0, 0, 0),
        7,
        [0, 0],
        GOES,
    ),
];

const ABSOLUTE_ALARMS: [Row; 7] = [
    Row([NONE, NONE], Call(14, 0, 5, 3), 0, [0, 0], GOES),
    Row([NONE, NONE], Call(14, 2, 5, 3), 3, [0, 0], GOES),
    Row(
        [NONE, Call(14, 0, 5, 0)],
        Call(14, 0, 6, 0),
        7,
        [0, 0],
        GOES,
    ),
    Row([NONE, NONE], Call(14, 0, 2147483648, 0), 8, [0, 0], GOES),
    Row([NONE, NONE], Call(14, 0, 0, 2147483648), 8, [0, 0], GOES),
    Row([NONE, NONE], Call(14, 2, 2147483648, 0), 3, [0, 0], GOES),
    Row(
        [NONE, Call(14, 0, 5, 0)],
        Call(14, 0, 2147483648, 0),
        7,
        [0, 0],
        GOES,
    ),
];

const MESSAGES: [Row; 8] = [
    Row([NONE, NONE], Call(16, 0, 11, 22), 0, [0, 0], GOES),
    Row([NONE, NONE], Call(16, 2, 11, 22), 3, [0, 0], GOES),
    Row(
        [NONE, Call(16, 0, 11, 22)],
        Call(16, 0, 33, 44),
        4,
        [0, 0],
        GOES,
    ),
    Row(
        [NONE, Call(16, 0, 11, 22)],
        Call(17, 0, 0, 0),
        0,
        [11, 22],
        GOES,
    ),
    Row(
        [Call(16, 1, 11, 22), Call(16, 1, 33, 44)],
        Call(17, 1, 0, 0),
        0,
        [11, 22],
        GOES,
    ),
    Row([NONE, NONE], Call(17, 2, 0, 0), 3, [0, 0], GOES),
    Row([NONE, NONE], Call(17, 0, 0, 0), 5, [0, 0], GOES),
    Row(
        [Call(16, 0, 11, 22), Call(17, 0, 0, 0)],
        Call(17, 0, 0, 0),
        5,
        [0, 0],
        GOES,
    ),
];

const PORTS: [Row; 8] = [
    Row([NONE, NONE], Call(18, 2, 0, 0), 0, [12, 0], GOES),
    Row([NONE, NONE], Call(18, 4, 0, 0), 3, [0, 0], GOES),
    Row([NONE, NONE], Call(19, 3, 77, 0), 0, [0, 0], GOES),
    Row([NONE, NONE], Call(19, 4, 77, 0), 3, [0, 0], GOES),
    Row([NONE, NONE], Call(20, 9, 0, 0), 0, [0, 0], SHUTDOWN),
    Row([NONE, NONE], Call(0, 0, 0, 0), 5, [0, 0], GOES),
    Row([NONE, NONE], Call(21, 0, 0, 0), 5, [0, 0], GOES),
    Row([NONE, NONE], Call(255, 0, 0, 0), 5, [0, 0], GOES),
];

/// An extended task that runs, one that is suspended, a basic task that is ready, and one that is suspended.
fn spec(alloc: Global) -> Result<KernelSpec, AllocError>
    ensures { IfOk result IsKernelSpec }
{
    let tasks = vec![in alloc;
        task(true, 5, true),
        task(true, 3, false),
        task(false, 2, true),
        task(false, 1, false),
    ]?;
    Ok(KernelSpec {
        tasks: Items::from(tasks),
        users: Items::from(vec![in alloc; 0b0001, 0b0101, 0b0010]?),
        alarms: Items::from(vec![in alloc; Action::Activate(1), Action::Event(1, 1)]?),
        boxes: Items::from(vec![in alloc; 1, 2]?),
        lines: LINES,
    })
}

const LINES: [Action; 16] = [
    Action::Tick,
    Action::Event(1, 2),
    Action::Nothing,
    Action::Nothing,
    Action::Nothing,
    Action::Nothing,
    Action::Nothing,
    Action::Nothing,
    Action::Nothing,
    Action::Nothing,
    Action::Nothing,
    Action::Nothing,
    Action::Nothing,
    Action::Nothing,
    Action::Nothing,
    Action::Nothing,
];

/// The call of the running task, where there is one, and the rescheduling.
fn perform(kernel: &mut Kernel, Call(service, first, second, third): Call) -> Option<Answer> {
    let caller = kernel.running();
    if usize::from(caller) >= kernel.tasks() {
        return None;
    }
    let answer = kernel.call(caller, service, [first, second, third, 0, 0, 0]);
    kernel.reschedule();
    Some(answer)
}

/// Each row on a kernel of its own.
fn check(rt: &impl Abort, alloc: Global, rows: &[Row]) -> Result<(), Fail> {
    let spec = spec(alloc)?;
    for row in rows {
        let Row(before, call, status, words, need) = *row;
        let mut kernel = Kernel::new(alloc, &spec)?;
        kernel.arrive(0, [10, 11, 12, 13]);
        kernel.reschedule();
        for earlier in before {
            let _answer = perform(&mut kernel, earlier);
        }
        let answer = perform(&mut kernel, call).expect(rt, "a task runs");
        assert_eq!(rt; answer.entry.service, call.0, "at {before:?} {call:?}");
        assert_eq!(rt; answer.entry.status, status, "at {before:?} {call:?}");
        assert_eq!(rt;
            answer.entry.words,
            [words[0], words[1], 0, 0],
            "at {before:?} {call:?}"
        );
        assert_eq!(rt; answer.need, need, "at {before:?} {call:?}");
        assert_eq!(rt;
            answer.output.is_some(),
            call.0 == 19 && status == 0,
            "at {before:?} {call:?}"
        );
    }
    Ok(())
}

#[test]
fn tasks_are_activated_and_end(rt: HostRuntime) -> Result<(), Fail> {
    check(&rt, rt.alloc(), &TASKS)
}

#[test]
fn tasks_are_named(rt: HostRuntime) -> Result<(), Fail> {
    check(&rt, rt.alloc(), &QUERIES)
}

#[test]
fn resources_are_got_and_released(rt: HostRuntime) -> Result<(), Fail> {
    check(&rt, rt.alloc(), &RESOURCES)
}

#[test]
fn events_are_set_and_cleared(rt: HostRuntime) -> Result<(), Fail> {
    check(&rt, rt.alloc(), &SET_EVENTS)
}

#[test]
fn events_are_read(rt: HostRuntime) -> Result<(), Fail> {
    check(&rt, rt.alloc(), &READ_EVENTS)
}

#[test]
fn callers_wait_for_events(rt: HostRuntime) -> Result<(), Fail> {
    check(&rt, rt.alloc(), &WAITS_FOR_EVENTS)
}

#[test]
fn alarms_are_read_and_cancelled(rt: HostRuntime) -> Result<(), Fail> {
    check(&rt, rt.alloc(), &ALARMS)
}

#[test]
fn alarms_are_set_by_an_increment(rt: HostRuntime) -> Result<(), Fail> {
    check(&rt, rt.alloc(), &RELATIVE_ALARMS)
}

#[test]
fn alarms_are_set_to_a_value(rt: HostRuntime) -> Result<(), Fail> {
    check(&rt, rt.alloc(), &ABSOLUTE_ALARMS)
}

#[test]
fn messages_are_sent_and_received(rt: HostRuntime) -> Result<(), Fail> {
    check(&rt, rt.alloc(), &MESSAGES)
}

#[test]
fn ports_shutdown_and_other_numbers(rt: HostRuntime) -> Result<(), Fail> {
    check(&rt, rt.alloc(), &PORTS)
}

#[test]
fn writes_the_value_to_the_port(rt: HostRuntime) -> Result<(), Fail> {
    let spec = spec(rt.alloc())?;
    let mut kernel = Kernel::new(rt.alloc(), &spec)?;
    kernel.reschedule();
    let answer = perform(&mut kernel, Call(19, 3, 77, 0)).expect(&rt, "a task runs");
    let output = OutputEntry {
        task: 0,
        port: 3,
        value: 77,
    };
    assert_eq!(rt; answer.output, Some(output));
    Ok(())
}

/// The basic task gets the resource that the first task uses too, and keeps the processor until it gives
/// it back.
#[test]
fn holder_goes_before_a_ready_task_of_its_priority(rt: HostRuntime) -> Result<(), Fail> {
    let spec = spec(rt.alloc())?;
    let mut kernel = Kernel::new(rt.alloc(), &spec)?;
    kernel.reschedule();
    for (call, running) in [
        (Call(2, 0, 0, 0), 2),
        (Call(6, 1, 0, 0), 2),
        (Call(1, 0, 0, 0), 2),
        (Call(7, 1, 0, 0), 0),
    ] {
        let answer = perform(&mut kernel, call).expect(&rt, "a task runs");
        assert_eq!(rt; answer.entry.status, 0, "at {call:?}");
        assert_eq!(rt; kernel.running(), running, "at {call:?}");
    }
    Ok(())
}

/// Both alarms are due at one tick: the first activates a task, the second sets its event, and then the
/// second line of the arrival sets another.
#[test]
fn one_arrival_does_all_in_rising_order(rt: HostRuntime) -> Result<(), Fail> {
    let spec = spec(rt.alloc())?;
    let mut kernel = Kernel::new(rt.alloc(), &spec)?;
    kernel.reschedule();
    let _first = perform(&mut kernel, Call(13, 0, 2, 0));
    let _second = perform(&mut kernel, Call(14, 1, 2, 5));
    for (mask, status, events) in [(1, 7, 0), (3, 0, 3)] {
        kernel.arrive(mask, [0; 4]);
        kernel.reschedule();
        let answer = perform(&mut kernel, Call(10, 1, 0, 0)).expect(&rt, "a task runs");
        assert_eq!(rt;
            (answer.entry.status, answer.entry.words[0]),
            (status, events),
            "at {mask}"
        );
    }
    let left = perform(&mut kernel, Call(12, 1, 0, 0)).expect(&rt, "a task runs");
    assert_eq!(rt; left.entry.words[0], 5);
    Ok(())
}

#[test]
fn nobody_runs_after_a_shutdown(rt: HostRuntime) -> Result<(), Fail> {
    let spec = spec(rt.alloc())?;
    let mut kernel = Kernel::new(rt.alloc(), &spec)?;
    kernel.reschedule();
    let _answer = perform(&mut kernel, Call(20, 0, 0, 0));
    kernel.reschedule();
    assert_eq!(rt; (kernel.running(), kernel.ended()), (255, 2));
    Ok(())
}

#[test]
fn a_kernel_can_be_copied(rt: HostRuntime) -> Result<(), Fail> {
    let spec = spec(rt.alloc())?;
    let kernel = Kernel::new(rt.alloc(), &spec)?;
    let mut copy = Kernel::new(rt.alloc(), &spec)?;
    copy.copy_from(&kernel);
    copy.reschedule();
    assert_eq!(rt; (kernel.running(), copy.running()), (255, 0));
    Ok(())
}
