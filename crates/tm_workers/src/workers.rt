//! The replay of all tasks of a window by several workers.

ghost use Rattle.std.specs.Prelude.{◌≡◌, ◌≤◌, length};
ghost use Rattle.std.specs.Thread.{IsSync};
ghost use Rattle.tm_image.specs.Image.{shape_of};
ghost use Rattle.tm_log.specs.WellFormed.{IsWellFormed};
ghost use Rattle.tm_replay.specs.Answers.{Answers, TellsAll};
ghost use Rattle.tm_workers.specs.Shares.{IsShare, IsReady, replayed_share};

use crate::share::Share;
use crate::tracks::{in_order, tracks_in_turn};
use std::alloc::Global;
use std::thread::{Threads, join};
use tm_image::Image;
use tm_io::Gate;
use tm_log::Window;
use tm_marker::Items;
use tm_points::accepts;
use tm_replay::{ReplayFault, replay_of};
use tm_text::{Replay, Track};

/// What all tasks of a window did from a point on, as [`tm_replay::replay`] answers it, by 1 to 16 workers.
/// The window is well formed for the image. The gate is told of each task right before it is replayed. Where
/// no thread can be started, a worker does the work of another after its own.
///
/// # Errors
///
/// Those of [`tm_replay::replay`], however many workers there are and whichever comes to a fault first.
pub fn replay_with<G: Gate>(
    rt: &(impl Threads + Sync),
    alloc: Global,
    window: &Window,
    image: &Image,
    point: u64,
    workers: u8,
    gate: &G,
) -> Result<Replay, ReplayFault>
    requires formed { IsWellFormed window.now (shape_of image.now) }
    requires workers { (1 ≤ workers) × (workers ≤ 16) }
    ensures { Answers image.now window.now point result }
{
    accepts(window, point)?;
    let share = Share {
        start: 0,
        end: window.tasks(),
        workers,
    };
    match tracks_by(rt, alloc, window, image, point, share, gate) {
        Ok(tracks) => replay_of(window, point, tracks),
        Err(fault) => Err(fault),
    }
}

/// The tracks of a share's tasks: those of its lower half beside those of the other, until none has halves.
fn tracks_by<R: Threads + Sync, G: Gate>(
    rt: &R,
    alloc: Global,
    window: &Window,
    image: &Image,
    point: u64,
    share: Share,
    gate: &G,
) -> Result<Items<Track>, ReplayFault>
    requires ready { IsReady image.now window.now point }
    requires share { IsShare share (length window.now.shape.words) }
    ensures { TellsAll (replayed_share image.now window.now point share) result }
{
    let Some((low, high)) = share.halves() else {
        return tracks_in_turn(alloc, window, image, point, share, gate);
    };
    let (first, others) = join(
        rt,
        || -> Result<Items<Track>, ReplayFault>
            requires { IsSync R.row × IsSync G.row × IsReady image.now window.now point × IsShare low (length window.now.shape.words) }
            ensures { TellsAll (replayed_share image.entry.now window.entry.now point low) result }
        { tracks_by(rt, alloc, window, image, point, low, gate) },
        || -> Result<Items<Track>, ReplayFault>
            requires { IsSync R.row × IsSync G.row × IsReady image.now window.now point × IsShare high (length window.now.shape.words) }
            ensures { TellsAll (replayed_share image.entry.now window.entry.now point high) result }
        { tracks_by(rt, alloc, window, image, point, high, gate) },
    );
    in_order(first, others)
}
