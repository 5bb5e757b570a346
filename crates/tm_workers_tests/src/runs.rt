//! Recorded runs, and what their replays tell.

ghost use Rattle.tm_image.specs.Image.{shape_of};
ghost use Rattle.tm_log.specs.WellFormed.{IsWellFormed};

use std::alloc::Global;
use std::process::Abort;
use std::test::Fail;
use std::thread::Threads;
use tm_image::read_image;
use tm_io::Gate;
use tm_marker::Slice;
use tm_record::{Recorder, recorders_are_consistent};
use tm_replay::replay;
use tm_workers::replay_with;

/// A recorder of an image at boot.
pub fn open(rt: &impl Abort, alloc: Global, image: &str) -> Result<Recorder, Fail> {
    let image = image.as_bytes();
    assert!(rt; image.len() < 1 << 20);
    let image = read_image(alloc, image).expect(rt, "the image is read");
    let recorder = Recorder::open(alloc, image)?;
    Ok(recorder)
}

/// One slice more, of this length and mask and with this word on the first port.
pub fn play(rt: &impl Abort, recorder: &mut Recorder, length: u32, mask: u32, port: u32) {
    assert!(rt; recorder.slices() < 1 << 20);
    assert!(rt; length <= 1_048_576 && mask < 65536);
    recorder.slice(&Slice {
        length,
        mask,
        ports: [port, 0, 0, 0],
    });
}

/// All that a replay of the run tells from a point on.
pub fn told(
    rt: &impl Abort,
    alloc: Global,
    recorder: &Recorder,
    point: u64,
) -> Result<String, Fail> {
    attest(recorder);
    let (image, window) = (recorder.image(), recorder.window());
    let replay = replay(alloc, window, image, point).expect(rt, "the run is replayed");
    Ok(format!(in alloc; "{replay:?}")?)
}

/// All that a replay of the run by so many workers tells from a point on.
pub fn told_by<R: Threads + Abort + Sync, G: Gate>(
    rt: &R,
    alloc: Global,
    recorder: &Recorder,
    point: u64,
    workers: u8,
    gate: &G,
) -> Result<String, Fail> {
    assert!(rt; 1 <= workers && workers <= 16);
    attest(recorder);
    let (image, window) = (recorder.image(), recorder.window());
    let replay = replay_with(rt, alloc, window, image, point, workers, gate).expect(
        rt,
        "the run is replayed",
    );
    Ok(format!(in alloc; "{replay:?}")?)
}

/// What the window of every recorder keeps. It does nothing: a proof takes it from here.
fn attest(recorder: &Recorder)
    ensures { IsWellFormed recorder.now.window (shape_of recorder.now.image) }
{
    let _tasks = recorder.image().tasks();
    recorder.window().attest();
    recorders_are_consistent();
}
