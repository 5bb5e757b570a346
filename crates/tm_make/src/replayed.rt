//! The run replayed from its window.

ghost use Rattle.std.specs.Prelude.{◌≡◌, length, None, IfOk, IfSome};
ghost use Rattle.tm_image.specs.Image.{shape_of};
ghost use Rattle.tm_log.specs.WellFormed.{IsWellFormed};
ghost use Rattle.tm_points.specs.Finder.{lost_of};
ghost use Rattle.tm_system.specs.Replaying.{Fits, text_of_window};
ghost use Rattle.tm_replay.specs.Answers.{IsReplay};
ghost use Rattle.tm_make.specs.Summary.{length_told};

use std::alloc::{AllocError, Global};
use std::thread::Threads;
use tm_image::Image;
use tm_io::Gate;
use tm_log::Window;
use tm_replay::ReplayFault;
use tm_text::{Replay, write_replay};
use tm_workers::replay_with;

/// How many workers replay the run.
const WORKERS: u8 = 4;

/// The length of the text that a window tells from a point on, from which it can be replayed; 0 for no point.
pub(crate) fn length_from<G: Gate>(
    rt: &(impl Threads + Sync),
    alloc: Global,
    window: &Window,
    image: &Image,
    point: Option<u64>,
    gate: &G,
) -> Result<u64, AllocError>
    requires formed { IsWellFormed window.now (shape_of image.now) }
    requires accepted { IfSome point (λ point. lost_of window.now point ≡ None) }
    requires fits { IfSome point (λ point. Fits image.now window.now point) }
    ensures { IfOk result (λ bytes. bytes ≡ length_told image.now window.now point) }
{
    match point {
        Some(point) => Ok(text_from(rt, alloc, window, image, point, gate)?.len() as u64),
        None => Ok(0),
    }
}

/// The text that a window tells from a point on, from which it can be replayed.
fn text_from<G: Gate>(
    rt: &(impl Threads + Sync),
    alloc: Global,
    window: &Window,
    image: &Image,
    point: u64,
    gate: &G,
) -> Result<Vec<u8>, AllocError>
    requires formed { IsWellFormed window.now (shape_of image.now) }
    requires accepted { lost_of window.now point ≡ None }
    requires fits { Fits image.now window.now point }
    ensures { IfOk result (λ text. text.items ≡ text_of_window image.now window.now point) }
{
    match replay_with(rt, alloc, window, image, point, WORKERS, gate) {
        Ok(replay) => text_of(alloc, window, image, point, &replay),
        Err(ReplayFault::Memory) => Err(AllocError),
        Err(_) => unreachable!(),
    }
}

/// The text of a replay.
fn text_of(
    alloc: Global,
    window: &Window,
    _image: &Image,
    _point: u64,
    replay: &Replay,
) -> Result<Vec<u8>, AllocError>
    requires formed { IsWellFormed window.now (shape_of _image.now) }
    requires replay { IsReplay _image.now window.now _point replay.now }
    ensures { IfOk result (λ text. text.items ≡ text_of_window _image.now window.now _point) }
{
    window.attest();
    let mut text = Vec::new(alloc);
    write_replay(replay, window, &mut text)?;
    Ok(text)
}
