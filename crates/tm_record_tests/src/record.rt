//! Recorders of small images, slice by slice, and that threads may share them.

mod windows;

use std::alloc::Global;
use std::process::Abort;
use std::test::Fail;
use tm_image::read_image;
use tm_log::CheckRef;
use tm_marker::{Kind, Marker, NOBODY, Slice, Switch};
use tm_record::Recorder;

fn assert_shared<T: Send + Sync>() {}

#[test]
fn threads_may_share_a_recorder() {
    assert_shared::<Recorder>();
}

/// A task that jumps to itself, and one of greater priority that a line starts and that terminates.
const PREEMPTED: &[u8] =
    b"tmi 1\ntask 0 basic 1 auto 0 1\ntext 0 0000006f\ntask 1 basic 2 off 0 1\ntext 1 00200893 00000073\nline 1 activate 1\nring control 4\n";

const JUMPS: &[u8] = b"tmi 1\ntask 0 basic 1 auto 0 1\ntext 0 0000006f\n";

const FAULTS: &[u8] = b"tmi 1\ntask 0 basic 1 auto 0 1\ntext 0 00002023\nline 0 activate 0\n";

/// Waits for an event that is not set until its line arrives, then jumps to itself.
const WAITS: &[u8] =
    b"tmi 1\ntask 0 extended 1 auto 0 1\ntext 0 00100513 00b00893 00000073 0000006f\nline 0 event 0 0x1\n";

fn open(rt: &impl Abort, alloc: Global, image: &[u8]) -> Result<Recorder, Fail> {
    assert!(rt; image.len() < 1 << 20);
    let image = read_image(alloc, image).expect(rt, "the image is read");
    let recorder = Recorder::open(alloc, image)?;
    Ok(recorder)
}

/// The slices, each a length and a mask.
fn record(rt: &impl Abort, recorder: &mut Recorder, slices: &[(u32, u32)]) {
    for &(length, mask) in slices {
        assert!(rt; recorder.slices() < 1 << 20);
        assert!(rt; length <= 1_048_576 && mask < 65536);
        let slice = Slice {
            length,
            mask,
            ports: [0; 4],
        };
        recorder.slice(&slice);
    }
}

#[test]
fn the_last_four_of_ten_control_entries(rt: HostRuntime) -> Result<(), Fail> {
    let mut recorder = open(&rt, rt.alloc(), PREEMPTED)?;
    assert_eq!(rt; recorder.window().control().total(), 0);
    record(
        &rt,
        &mut recorder,
        &[(5, 0), (2, 2), (2, 2), (2, 2), (2, 2), (0, 2)],
    );
    assert_eq!(rt; recorder.slices(), 6);
    let window = recorder.window();
    let control = window.control();
    assert_eq!(rt; (control.total(), control.first()), (10, 6));
    let returns = Switch {
        from: 1,
        kind: Kind::Ends,
        from_at: Marker {
            epoch: 4,
            count: 0,
            pc: 0,
        },
        to: 0,
        to_at: Marker {
            epoch: 0,
            count: 5,
            pc: 0,
        },
    };
    assert_eq!(rt; control.get(8).copied(), Some(returns));
    let preempts = Switch {
        from: 0,
        kind: Kind::Preempted,
        from_at: Marker {
            epoch: 0,
            count: 5,
            pc: 0,
        },
        to: 1,
        to_at: Marker {
            epoch: 4,
            count: 0,
            pc: 0,
        },
    };
    assert_eq!(rt; control.get(9).copied(), Some(preempts));
    let tail = window.tail();
    assert_eq!(rt; (tail.running, tail.ended), (1, 0));
    assert_eq!(rt; tail.state.as_slice(), [1, 2].as_slice());
    Ok(())
}

#[test]
fn a_full_epoch_is_a_checkpoint(rt: HostRuntime) -> Result<(), Fail> {
    let mut recorder = open(&rt, rt.alloc(), JUMPS)?;
    assert!(rt; 0 < recorder.window().tasks());
    assert_eq!(rt; recorder.window().checks(0).total(), 1);
    record(&rt, &mut recorder, &[(1_048_576, 0)]);
    assert!(rt; 0 < recorder.window().tasks());
    assert_eq!(rt; recorder.window().checks(0).total(), 2);
    assert_eq!(rt;
        recorder.window().tail().at.as_slice(),
        [Marker {
            epoch: 1,
            count: 0,
            pc: 0
        }]
        .as_slice()
    );
    record(&rt, &mut recorder, &[(1, 0)]);
    assert_eq!(rt;
        recorder.window().tail().at.as_slice(),
        [Marker {
            epoch: 1,
            count: 1,
            pc: 0
        }]
        .as_slice()
    );
    Ok(())
}

#[test]
fn the_checkpoint_of_a_wait_has_the_answer(rt: HostRuntime) -> Result<(), Fail> {
    let mut recorder = open(&rt, rt.alloc(), WAITS)?;
    record(&rt, &mut recorder, &[(3, 0)]);
    let window = recorder.window();
    assert!(rt; 0 < window.tasks());
    let checks = window.checks(0);
    assert_eq!(rt; checks.total(), 2);
    let at = checks.with_epoch(1).expect(&rt, "kept");
    let first = CheckRef {
        epoch: 1,
        data_no: 1,
        control_no: 1,
    };
    assert_eq!(rt; at, first);
    // pc, and a0 with the status.
    assert_eq!(rt; checks.read(&at, 0), 12);
    assert_eq!(rt; checks.read(&at, 10), 0);
    assert_eq!(rt; window.log(0).total(), 1);
    Ok(())
}

#[test]
fn nothing_changes_after_the_end(rt: HostRuntime) -> Result<(), Fail> {
    let mut recorder = open(&rt, rt.alloc(), FAULTS)?;
    record(&rt, &mut recorder, &[(3, 0), (3, 1)]);
    let window = recorder.window();
    assert_eq!(rt; (window.control().total(), recorder.slices()), (2, 2));
    assert_eq!(rt;
        window.control().get(1).map(|entry| entry.kind),
        Some(Kind::Fault)
    );
    assert_eq!(rt; (window.tail().running, window.tail().ended), (NOBODY, 1));
    Ok(())
}
