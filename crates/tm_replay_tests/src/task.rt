//! What one task of a recorded run did, replayed from boot.

ghost use Rattle.tm_image.specs.Image.{shape_of};
ghost use Rattle.tm_log.specs.WellFormed.{IsWellFormed};

use std::alloc::Global;
use std::process::Abort;
use std::test::Fail;
use tm_image::read_image;
use tm_marker::{Marker, Slice};
use tm_record::{Recorder, recorders_are_consistent};
use tm_replay::replay_task;
use tm_text::{Stop, Track};

/// A task that jumps to itself, and one of greater priority that a line starts and that terminates.
const JUMPS: &[u8] =
    b"tmi 1\ntask 0 basic 1 auto 0 1\ntext 0 0000006f\ntask 1 basic 2 off 0 1\ntext 1 00200893 00000073\nline 1 activate 1\n";

/// The first task counts x1 down from 3 in a loop, so that one pc stands in three turns.
const COUNTS: &[u8] =
    b"tmi 1\ntask 0 basic 1 auto 0 1\ntext 0 00300093 fff08093 fe009ee3 00200893 00000073\ntask 1 basic 2 off 0 1\ntext 1 00200893 00000073\nline 1 activate 1\n";

/// A recorder of an image after these slices, each a length and a mask.
fn recorded(
    rt: &impl Abort,
    alloc: Global,
    image: &[u8],
    slices: &[(u32, u32)],
) -> Result<Recorder, Fail> {
    assert!(rt; image.len() < 1 << 20);
    let image = read_image(alloc, image).expect(rt, "the image is read");
    let mut recorder = Recorder::open(alloc, image)?;
    for &(length, mask) in slices {
        assert!(rt; recorder.slices() < 1 << 20);
        assert!(rt; length <= 1_048_576 && mask < 65536);
        recorder.slice(&Slice {
            length,
            mask,
            ports: [0; 4],
        });
    }
    Ok(recorder)
}

/// The track of the first task from boot.
fn first_track(rt: &impl Abort, alloc: Global, recorder: &Recorder) -> Track {
    attest(recorder);
    let (image, window) = (recorder.image(), recorder.window());
    assert!(rt; 0 < window.tasks());
    replay_task(alloc, window, image, 0, 0).expect(rt, "the task is replayed")
}

/// What the window of every recorder keeps. It does nothing: a proof takes it from here.
fn attest(recorder: &Recorder)
    ensures { IsWellFormed recorder.now.window (shape_of recorder.now.image) }
{
    let _tasks = recorder.image().tasks();
    recorder.window().attest();
    recorders_are_consistent();
}

/// The one stop of a track.
fn only_stop<'a>(rt: &impl Abort, track: &'a Track) -> &'a Stop {
    let stops = track.stops.as_slice();
    assert!(rt; stops.len() == 1);
    &stops[0]
}

/// A marker of the first epoch.
fn at(count: u32, pc: u32) -> Marker {
    Marker {
        epoch: 0,
        count,
        pc,
    }
}

#[test]
fn a_jump_to_itself_stops_after_as_many_turns(rt: HostRuntime) -> Result<(), Fail> {
    let recorder = recorded(&rt, rt.alloc(), JUMPS, &[(5, 0), (2, 2)])?;
    let track = first_track(&rt, rt.alloc(), &recorder);
    assert_eq!(rt; track.start.at, at(0, 0));
    let stop = only_stop(&rt, &track);
    assert_eq!(rt; (stop.seq, stop.cause, stop.seen.at), (2, 0, at(5, 0)));
    assert_eq!(rt; track.last.at, at(5, 0));
    Ok(())
}

#[test]
fn a_pc_that_stands_in_three_turns_stops_in_the_right_one(rt: HostRuntime) -> Result<(), Fail> {
    let recorder = recorded(&rt, rt.alloc(), COUNTS, &[(4, 0), (0, 2)])?;
    let track = first_track(&rt, rt.alloc(), &recorder);
    let stop = only_stop(&rt, &track);
    assert_eq!(rt; stop.seen.at, at(1, 8));
    assert_eq!(rt; stop.seen.regs[0], 1);
    Ok(())
}
