//! The replay of all tasks of a window.

ghost use Rattle.std.specs.Prelude.{◌≡◌, ◌≢◌, length, None, Err};
ghost use Rattle.tm_image.specs.Image.{ImageView, shape_of};
ghost use Rattle.tm_log.specs.WellFormed.{IsWellFormed};
ghost use Rattle.tm_points.specs.Finder.{lost_of};
ghost use Rattle.tm_system.specs.Replaying.{replayed_tasks, runs_at_point};
ghost use Rattle.tm_replay.specs.Answers.{Answers, AreTold, TellsAll};

use crate::ReplayFault;
use crate::outputs::other_output;
use crate::task::replay_accepted;
use std::alloc::Global;
use tm_image::Image;
use tm_log::Window;
use tm_marker::{Items, NOBODY, Switch};
use tm_points::accepts;
use tm_ring::Ring;
use tm_text::{Replay, Track};

/// What all tasks of a window did from a point on, each replayed by itself. The window is well formed for
/// the image.
///
/// # Errors
///
/// `Lost` exactly where [`accepts`] refuses the point. `Diverged` with the first demand that isn't met of
/// the least task that has one; where all are met, with the oldest output that isn't the one that the
/// window has in its place. `Memory` where there is too little memory for the tracks.
pub fn replay(
    alloc: Global,
    window: &Window,
    image: &Image,
    point: u64,
) -> Result<Replay, ReplayFault>
    requires { IsWellFormed window.now (shape_of image.now) }
    ensures { Answers image.now window.now point result }
{
    accepts(window, point)?;
    match replay_tasks(alloc, window, image, point) {
        Ok(tracks) => replay_of(window, point, tracks),
        Err(fault) => Err(fault),
    }
}

/// The tracks of all tasks, of a point that is accepted.
fn replay_tasks(
    alloc: Global,
    window: &Window,
    image: &Image,
    point: u64,
) -> Result<Items<Track>, ReplayFault>
    requires formed { IsWellFormed window.now (shape_of image.now) }
    requires accepted { lost_of window.now point ≡ None }
    ensures { TellsAll (replayed_tasks image.now window.now point) result }
{
    let mut tracks = Items::new(alloc);
    for task in 0..window.tasks() {
        match replay_accepted(alloc, window, image, point, task) {
            Ok(track) => tracks.push(track)?,
            Err(fault) => return Err(fault),
        }
    }
    Ok(tracks)
}

/// The replay that the tracks of all tasks make, of a point that is accepted. It takes no memory.
///
/// # Errors
///
/// `Diverged` with the oldest output that isn't the one that the window has in its place.
pub fn replay_of(window: &Window, point: u64, tracks: Items<Track>) -> Result<Replay, ReplayFault>
    requires accepted { lost_of window.now point ≡ None }
    requires tasks { length tracks ≡ length window.now.shape.words }
    ensures answers { (image : ImageView) → AreTold (replayed_tasks image window.now point) tracks → Answers image window.now point result }
    ensures memory { result ≢ Err ReplayFault.Memory }
{
    let replay = Replay {
        from: point,
        running: runs_at_point(window.control(), point),
        tracks,
    };
    match other_output(&replay, window) {
        Some(other) => Err(ReplayFault::Diverged(other)),
        None => Ok(replay),
    }
}

/// Who runs at a point: nobody at boot, else whom the point's own control entry goes to.
fn runs_at_point(control: &Ring<Switch>, point: u64) -> u8
    ensures { result ≡ runs_at_point control.now point }
{
    if point == 0 {
        return NOBODY;
    }
    match control.get(point - 1) {
        Some(entry) => entry.to,
        None => NOBODY,
    }
}
