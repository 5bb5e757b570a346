//! What the windows of twenty recorders keep, held to the control entries that an independent model printed
//! of the same whole runs.

use super::{open, record};
use std::test::Fail;
use tm_marker::Kind::{self, Ends, Fault, Idle, Preempted, Shutdown, Waits};
use tm_marker::NOBODY;

/// An image, the slices of a script, each a length and a mask, and who left for whom and why in each
/// control entry of the run.
struct Recorded {
    what: &'static str,
    image: &'static [u8],
    slices: &'static [(u32, u32)],
    switches: &'static [(u8, Kind, u8)],
}

const RECORDED: [Recorded; 20] = [
    Recorded {
        what: "a line activates a task twice",
        image: b"\
tmi 1
task 0 basic 1 off 0 1
text 0 00200893 00000073 0000006f
line 3 activate 0
",
        slices: &[(5, 0), (2, 8), (4, 8)],
        switches: &[
            (NOBODY, Idle, 0),
            (0, Ends, NOBODY),
            (NOBODY, Idle, 0),
            (0, Ends, NOBODY),
        ],
    },
    Recorded {
        what: "a task of greater priority comes first, and comes again",
        image: b"\
tmi 1
task 0 basic 1 auto 0 1
text 0 0000006f
task 1 basic 5 off 0 1
text 1 00200893 00000073 0000006f
line 3 activate 1
",
        slices: &[(5, 8), (2, 8)],
        switches: &[
            (NOBODY, Idle, 1),
            (1, Ends, 0),
            (0, Preempted, 1),
            (1, Ends, 0),
        ],
    },
    Recorded {
        what: "a task chains itself and loses its events",
        image: b"\
tmi 1
task 0 extended 5 auto 0 1
text 0 00000513 00a00893 00000073 00000513 00600593 00800893 00000073 00000513 00300893 00000073 0000006f
",
        slices: &[(60, 0)],
        switches: &[
            (NOBODY, Idle, 0),
            (0, Ends, 0),
            (0, Ends, 0),
            (0, Ends, 0),
            (0, Ends, 0),
            (0, Ends, 0),
            (0, Ends, 0),
        ],
    },
    Recorded {
        what: "a task chains itself and keeps its data",
        image: b"\
tmi 1
task 0 basic 5 auto 0 1
text 0 100002b7 0002a303 00130313 0062a023 00000513 00300893 00000073 0000006f
",
        slices: &[(23, 0), (0, 0), (9, 0)],
        switches: &[
            (NOBODY, Idle, 0),
            (0, Ends, 0),
            (0, Ends, 0),
            (0, Ends, 0),
            (0, Ends, 0),
        ],
    },
    Recorded {
        what: "many lines activate one task",
        image: b"\
tmi 1
task 0 basic 5 auto 0 2
text 0 100002b7 0042a303 00330313 0062a223 00700113 00200893 00000073 0000006f
line 3 activate 0
",
        slices: &[(9, 0), (9, 8), (9, 0xffff)],
        switches: &[
            (NOBODY, Idle, 0),
            (0, Ends, NOBODY),
            (NOBODY, Idle, 0),
            (0, Ends, NOBODY),
            (NOBODY, Idle, 0),
            (0, Ends, NOBODY),
        ],
    },
    Recorded {
        what: "three tasks chain one another",
        image: b"\
tmi 1
task 0 basic 5 auto 0 1
text 0 00100513 00300893 00000073 0000006f
task 1 basic 7 off 0 1
text 1 00200513 00300893 00000073 0000006f
task 2 basic 3 off 0 1
text 2 00000513 00300893 00000073 0000006f
",
        slices: &[(31, 0)],
        switches: &[
            (NOBODY, Idle, 0),
            (0, Ends, 1),
            (1, Ends, 2),
            (2, Ends, 0),
            (0, Ends, 1),
            (1, Ends, 2),
            (2, Ends, 0),
            (0, Ends, 1),
            (1, Ends, 2),
            (2, Ends, 0),
            (0, Ends, 1),
        ],
    },
    Recorded {
        what: "a call activates a task of greater priority, again and again",
        image: b"\
tmi 1
task 0 basic 1 auto 0 1
text 0 00100513 00100893 00000073 ff5ff06f
task 1 extended 5 off 0 1
text 1 00100513 00a00893 00000073 00100513 00600593 00800893 00000073 00100513 00a00893 00000073 00200893 00000073 0000006f
",
        slices: &[(150, 0)],
        switches: &[
            (NOBODY, Idle, 0),
            (0, Preempted, 1),
            (1, Ends, 0),
            (0, Preempted, 1),
            (1, Ends, 0),
            (0, Preempted, 1),
            (1, Ends, 0),
            (0, Preempted, 1),
            (1, Ends, 0),
            (0, Preempted, 1),
            (1, Ends, 0),
            (0, Preempted, 1),
            (1, Ends, 0),
            (0, Preempted, 1),
            (1, Ends, 0),
            (0, Preempted, 1),
            (1, Ends, 0),
            (0, Preempted, 1),
            (1, Ends, 0),
            (0, Preempted, 1),
        ],
    },
    Recorded {
        what: "events come before and after the wait",
        image: b"\
tmi 1
task 0 extended 5 auto 0 1
text 0 00100513 00b00893 00000073 00200893 00000073 0000006f
line 0 activate 0
line 1 event 0 2
line 2 event 0 1
",
        slices: &[
            (0, 0),
            (0, 0),
            (9, 1),
            (9, 2),
            (0, 0xfff8),
            (9, 4),
            (9, 6),
            (0, 1),
            (9, 0),
        ],
        switches: &[
            (NOBODY, Idle, 0),
            (0, Waits, NOBODY),
            (NOBODY, Idle, 0),
            (0, Ends, NOBODY),
            (NOBODY, Idle, 0),
            (0, Waits, NOBODY),
        ],
    },
    Recorded {
        what: "a wait that goes on, and one that waits",
        image: b"\
tmi 1
task 0 extended 5 auto 0 1
text 0 00100513 00b00893 00000073 00100513 00900893 00000073 00200513 00b00893 00000073 00000513 00a00893 00000073 00100513 00b00893 00000073 0000006f
line 0 event 0 1
line 1 event 0 2
",
        slices: &[(9, 0), (9, 1), (9, 1), (9, 2), (9, 3)],
        switches: &[
            (NOBODY, Idle, 0),
            (0, Waits, NOBODY),
            (NOBODY, Idle, 0),
            (0, Waits, NOBODY),
            (NOBODY, Idle, 0),
        ],
    },
    Recorded {
        what: "a mask without events, and the greatest event",
        image: b"\
tmi 1
task 0 extended 1 auto 0 1
text 0 00000513 800005b7 00800893 00000073 80000537 00150513 00b00893 00000073 fff00513 00900893 00000073 00000513 00a00893 00000073 fff00513 00b00893 00000073 0000006f
line 0 event 0 0
line 1 event 0 0x10
",
        slices: &[(40, 0), (4, 1), (4, 2)],
        switches: &[(NOBODY, Idle, 0), (0, Waits, NOBODY), (NOBODY, Idle, 0)],
    },
    Recorded {
        what: "an end refused while a resource is held",
        image: b"\
tmi 1
task 0 basic 1 auto 0 1
text 0 00000513 00600893 00000073 00200893 00000073 00000513 00700893 00000073 00200893 00000073 0000006f
resource 0 0
",
        slices: &[(40, 0), (4, 0)],
        switches: &[(NOBODY, Idle, 0), (0, Ends, NOBODY)],
    },
    Recorded {
        what: "a fault while another task waits",
        image: b"\
tmi 1
task 0 basic 1 auto 0 1
text 0 00500313 00200513 00800593 01300893 00000073
task 1 extended 5 auto 0 1
text 1 00100513 00b00893 00000073 00200893 00000073 0000006f
line 0 event 1 1
",
        slices: &[(3, 0), (60, 0), (9, 1)],
        switches: &[(NOBODY, Idle, 1), (1, Waits, 0), (0, Fault, NOBODY)],
    },
    Recorded {
        what: "an activation below the ceiling",
        image: b"\
tmi 1
task 0 basic 9 auto 0 1
text 0 00000513 00600893 00000073 00100513 00100893 00000073 00000513 00700893 00000073 00200893 00000073 0000006f
task 1 basic 5 off 0 1
text 1 00200893 00000073 0000006f
resource 0 0 1
",
        slices: &[(30, 0)],
        switches: &[(NOBODY, Idle, 0), (0, Ends, 1), (1, Ends, NOBODY)],
    },
    Recorded {
        what: "an event for a task that was just activated",
        image: b"\
tmi 1
task 0 basic 1 auto 0 1
text 0 0000006f
task 1 extended 5 off 0 1
text 1 00100513 00a00893 00000073 00200513 00b00893 00000073 00200893 00000073 0000006f
line 4 activate 1
line 9 event 1 2
",
        slices: &[(2, 0), (20, 0x210), (5, 0)],
        switches: &[(NOBODY, Idle, 0), (0, Preempted, 1), (1, Ends, 0)],
    },
    Recorded {
        what: "events set, cleared and waited for",
        image: b"\
tmi 1
task 0 extended 5 auto 0 1
text 0 00000513 00500593 00800893 00000073 00400513 00b00893 00000073 00000513 00a00893 00000073 00100513 00900893 00000073 00000513 00a00893 00000073 00100513 00b00893 00000073 fb5ff06f
",
        slices: &[(60, 0)],
        switches: &[(NOBODY, Idle, 0), (0, Waits, NOBODY)],
    },
    Recorded {
        what: "a shutdown while a resource is held",
        image: b"\
tmi 1
task 0 basic 5 auto 0 1
text 0 00000513 00100593 01300893 00000073 00000513 00600893 00000073 00300513 01400893 00000073 0000006f
task 1 basic 3 auto 0 1
text 1 0000006f
resource 0 0
line 0 activate 0
",
        slices: &[(60, 0), (9, 1), (9, 0)],
        switches: &[(NOBODY, Idle, 0), (0, Shutdown, NOBODY)],
    },
    Recorded {
        what: "a store outside",
        image: b"\
tmi 1
task 0 extended 1 auto 0 8
text 0 a7364363 6ab91be3 85250b83 e1efd56f 01045793
",
        slices: &[(300, 0)],
        switches: &[(NOBODY, Idle, 0), (0, Fault, NOBODY)],
    },
    Recorded {
        what: "an address that is not aligned",
        image: b"\
tmi 1
task 0 extended 1 auto 0 8
text 0 01e2f333 f77cdf03 41e4ab93 017b9d13 401b5e93 012ab333 7ab6a283 d35747e3 95f4e817 f8f7fd63 3ef21ce3 9c6e6b4b
",
        slices: &[(300, 0)],
        switches: &[(NOBODY, Idle, 0), (0, Fault, NOBODY)],
    },
    Recorded {
        what: "an epoch that is full",
        image: b"\
tmi 1
task 0 basic 1 auto 0 1
text 0 00000097 00008093 000080e7 0000006f
task 1 basic 2 off 0 1
text 1 00200893 00000073
line 1 activate 1
",
        slices: &[(1_048_576, 0), (5, 2)],
        switches: &[(NOBODY, Idle, 0), (0, Preempted, 1), (1, Ends, 0)],
    },
    Recorded {
        what: "two full epochs",
        image: b"\
tmi 1
task 0 basic 1 auto 0 1
text 0 0000006f
task 1 basic 2 off 0 1
text 1 00200893 00000073
line 1 activate 1
",
        slices: &[(1_048_576, 0), (0, 2), (1_048_576, 0), (3, 2)],
        switches: &[
            (NOBODY, Idle, 0),
            (0, Preempted, 1),
            (1, Ends, 0),
            (0, Preempted, 1),
            (1, Ends, 0),
        ],
    },
];

#[test]
fn windows_keep_the_control_entries_of_the_run(rt: HostRuntime) -> Result<(), Fail> {
    for case in &RECORDED {
        let mut recorder = open(&rt, rt.alloc(), case.image)?;
        record(&rt, &mut recorder, case.slices);
        let control = recorder.window().control();
        assert_eq!(rt;
            control.total(),
            case.switches.len() as u64,
            "{}",
            case.what
        );
        for (number, switch) in case.switches.iter().enumerate() {
            let kept = control
                .get(number as u64)
                .map(|entry| (entry.from, entry.kind, entry.to));
            assert_eq!(rt; kept, Some(*switch), "{}", case.what);
        }
    }
    Ok(())
}
