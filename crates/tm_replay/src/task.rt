//! The replay of one task of a window.

ghost use Rattle.std.specs.Prelude.{◌≡◌, ◌<◌, length, None, IfOk};
ghost use Rattle.tm_image.specs.Image.{shape_of};
ghost use Rattle.tm_log.specs.WellFormed.{IsWellFormed};
ghost use Rattle.tm_points.specs.Finder.{lost_of, lost_of_epoch};
ghost use Rattle.tm_system.specs.Replaying.{replayed_task};
ghost use Rattle.tm_replay.specs.Answers.{AnswersTask};
ghost use Rattle.tm_replay.specs.Meeting.{Tells};
ghost use Rattle.tm_replay.specs.Starting.{StartsAt};

use crate::ReplayFault;
use crate::tracer::Tracer;
use crate::walker::Walker;
use std::alloc::{AllocError, Global};
use tm_image::Image;
use tm_log::Window;
use tm_marker::{Body, Items};
use tm_points::{accepts, marker_at};
use tm_task::Task;
use tm_text::Track;

/// What one task of a window did from a point on: it is started from its checkpoint of the epoch in which
/// it stands at the point, goes on by itself with its calls answered by its data entries, and stands at
/// each marker that the control entries and the tail have of it. The window is well formed for the image.
///
/// # Errors
///
/// `Lost` exactly where [`accepts`] refuses the point, `Diverged` with the first demand that the task
/// doesn't meet, `Memory` where there is too little memory for the task and its track.
pub fn replay_task(
    alloc: Global,
    window: &Window,
    image: &Image,
    point: u64,
    task: u8,
) -> Result<Track, ReplayFault>
    requires formed { IsWellFormed window.now (shape_of image.now) }
    requires task { task < length window.now.shape.words }
    ensures { AnswersTask image.now window.now point task result }
{
    accepts(window, point)?;
    replay_accepted(alloc, window, image, point, task)
}

/// What one task of a window did from a point on that [`accepts`] accepts; else as [`replay_task`].
///
/// # Errors
///
/// `Diverged` with the first demand that the task doesn't meet, `Memory` where there is too little memory for
/// the task and its track.
pub fn replay_accepted(
    alloc: Global,
    window: &Window,
    image: &Image,
    point: u64,
    task: u8,
) -> Result<Track, ReplayFault>
    requires formed { IsWellFormed window.now (shape_of image.now) }
    requires task { task < length window.now.shape.words }
    requires accepted { lost_of window.now point ≡ None }
    ensures { Tells (replayed_task image.now window.now point task) result }
{
    let start = marker_at(window, point, task);
    let mut walker = walker_at(alloc, window, image, task, start.epoch)?;
    walker.reach(point, start)?;
    let mut tracer = Tracer::begin(alloc, walker)?;
    tracer.meet_entries(alloc, window.control(), point)?;
    let (end, tail) = (window.control().total() + 1, window.tail());
    let last = tail.at.at(usize::from(task));
    tracer.meet_last(end, tail.running, last)?;
    tracer.close(alloc, end, last)
}

/// A task at the start of an epoch, whose checkpoint is kept with all its data entries since.
fn walker_at<'a>(
    alloc: Global,
    window: &'a Window,
    image: &'a Image,
    task: u8,
    epoch: u64,
) -> Result<Walker<'a>, AllocError>
    requires formed { IsWellFormed window.now (shape_of image.now) }
    requires task { task < length window.now.shape.words }
    requires kept { lost_of_epoch window.now task epoch ≡ None }
    ensures { IfOk result (StartsAt image.now window.now task epoch) }
{
    let checks = window.checks(task);
    // A checkpoint has the body of a task: known from here on.
    let _ = checks.total();
    let Some(check) = checks.with_epoch(epoch) else {
        unreachable!();
    };
    let mut body = Body::new(alloc, checks.data_words())?;
    checks.restore(&check, &mut body);
    let mut start = Task::new(alloc, image.entry(task), body.words.as_slice())?;
    start.load(&body, epoch);
    Ok(Walker {
        number: task,
        text: image.text(task),
        log: window.log(task),
        first: check.data_no,
        task: start,
        used: 0,
        made: Items::new(alloc),
    })
}
