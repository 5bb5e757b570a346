//! The tracks of some tasks of a window.

ghost use Rattle.std.specs.Prelude.{List, length, Result};
ghost use Rattle.tm_system.specs.Tracing.{Tracing};
ghost use Rattle.tm_system.specs.declared.diverged.Diverged.{Diverged};
ghost use Rattle.tm_replay.specs.Answers.{TellsAll};
ghost use Rattle.tm_workers.specs.Shares.{IsShare, IsReady, replayed_share, in_order};

use crate::share::Share;
use std::alloc::Global;
use tm_image::Image;
use tm_io::Gate;
use tm_log::Window;
use tm_marker::Items;
use tm_replay::{ReplayFault, replay_accepted};
use tm_text::Track;

/// The tracks of a share's tasks, which one worker replays one after another.
pub fn tracks_in_turn<G: Gate>(
    alloc: Global,
    window: &Window,
    image: &Image,
    point: u64,
    share: Share,
    gate: &G,
) -> Result<Items<Track>, ReplayFault>
    requires ready { IsReady image.now window.now point }
    requires share { IsShare share (length window.now.shape.words) }
    ensures { TellsAll (replayed_share image.now window.now point share) result }
{
    let mut tracks = Items::new(alloc);
    for task in share.start..share.end {
        gate.at(task);
        match replay_accepted(alloc, window, image, point, task) {
            Ok(track) => tracks.push(track)?,
            Err(fault) => return Err(fault),
        }
    }
    Ok(tracks)
}

/// The tracks of some tasks and of those after them, or the fault of the first ones before that of the others.
pub fn in_order(
    first: Result<Items<Track>, ReplayFault>,
    others: Result<Items<Track>, ReplayFault>,
) -> Result<Items<Track>, ReplayFault>
    ensures { (a b : Result (List Tracing) Diverged) → TellsAll a first → TellsAll b others → TellsAll (in_order a b) result }
{
    let mut tracks = match first {
        Ok(tracks) => Vec::from(tracks),
        Err(fault) => return Err(fault),
    };
    let mut more = match others {
        Ok(tracks) => Vec::from(tracks),
        Err(fault) => return Err(fault),
    };
    tracks.append(&mut more)?;
    Ok(Items::from(tracks))
}
