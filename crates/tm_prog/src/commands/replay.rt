//! `replay IMAGE DUMP --from P [--workers W]`

ghost use Rattle.std.specs.Prelude.{◌≡◌, ◌≤◌, [], None, IfOk};
ghost use Rattle.tm_image.specs.Image.{shape_of};
ghost use Rattle.tm_log.specs.WellFormed.{IsWellFormed};
ghost use Rattle.tm_points.specs.Finder.{lost_of};
ghost use Rattle.tm_system.specs.Replaying.{text_of_window};
ghost use Rattle.tm_replay.specs.Answers.{IsReplay};
ghost use Rattle.tm_prog.specs.ReplayCommand.{replay_made, unless_lost};
ghost use Rattle.tm_prog.specs.Reads.{Reads, Says};

use crate::Status;
use crate::files::read_file;
use crate::made::Made;
use std::alloc::{AllocError, Global};
use std::thread::Threads;
use tm_image::Image;
use tm_io::{Gate, Shelf};
use tm_log::Window;
use tm_replay::ReplayFault;
use tm_text::{Replay, write_replay};
use tm_words::Name;
use tm_workers::replay_with;

/// Makes the text that the dump tells of its run from the point on, by 1 to 16 workers.
pub(crate) fn replay<'a, F: Shelf, G: Gate>(
    rt: &(impl Threads + Sync),
    alloc: Global,
    shelf: &mut F,
    image: &Name,
    dump: &Name,
    from: u64,
    workers: u8,
    gate: &G,
) -> Result<Made<'a>, Status>
    requires { (1 ≤ workers) × (workers ≤ 16) }
    ensures reads { Reads (replay_made (F.seen shelf.old).content image.now dump.now from) (F.seen shelf.old) (F.seen shelf.new) result }
    ensures puts { IfOk result (λ made. made.puts ≡ []) }
{
    let image: Image = match read_file(alloc, shelf, 1, image, &()) {
        Ok(image) => image,
        Err(status) => return Err(status),
    };
    let window: Window = match read_file(alloc, shelf, 2, dump, &image) {
        Ok(window) => window,
        Err(status) => return Err(status),
    };
    told(rt, alloc, &window, &image, from, workers, gate)
}

/// What a window tells from a point on.
fn told<'a, G: Gate>(
    rt: &(impl Threads + Sync),
    alloc: Global,
    window: &Window,
    image: &Image,
    from: u64,
    workers: u8,
    gate: &G,
) -> Result<Made<'a>, Status>
    requires formed { IsWellFormed window.now (shape_of image.now) }
    requires workers { (1 ≤ workers) × (workers ≤ 16) }
    ensures says { Says (unless_lost image.now window.now from (lost_of window.now from)) result }
    ensures puts { IfOk result (λ made. made.puts ≡ []) }
{
    let replay = match replay_with(rt, alloc, window, image, from, workers, gate) {
        Ok(replay) => replay,
        Err(ReplayFault::Lost(lost)) => return Err(Status::Point(lost)),
        Err(ReplayFault::Diverged(found)) => return Err(Status::Diverged(found)),
        Err(ReplayFault::Memory) => return Err(Status::Memory),
    };
    match text_of(alloc, window, image, from, &replay) {
        Ok(text) => Ok(Made::text_alone(alloc, text)),
        Err(_) => Err(Status::Memory),
    }
}

/// The text of a replay.
fn text_of(
    alloc: Global,
    window: &Window,
    _image: &Image,
    _from: u64,
    replay: &Replay,
) -> Result<Vec<u8>, AllocError>
    requires formed { IsWellFormed window.now (shape_of _image.now) }
    requires replay { IsReplay _image.now window.now _from replay.now }
    ensures { IfOk result (λ text. text.items ≡ text_of_window _image.now window.now _from) }
{
    window.attest();
    let mut text = Vec::new(alloc);
    write_replay(replay, window, &mut text)?;
    Ok(text)
}
