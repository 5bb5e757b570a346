//! What a replay from a point needs, and whether it is kept.

ghost use Rattle.std.specs.Prelude.{◌≡◌, ◌<◌, length};
ghost use Rattle.std.specs.Result.{result_err};
ghost use Rattle.tm_log.specs.Window.{IsWindow};
ghost use Rattle.tm_points.specs.Finder.{entries_from, resumed_in, marker_at_point, lost_of_epoch, lost_of_task, lost_of};

use tm_log::{Ring, Window};
use tm_marker::{Marker, Switch};

/// Why a window can't be replayed from a point. Where several of these apply, the first is told; of the
/// tasks, the least one that lacks something tells what it lacks.
#[derive(Clone, Copy, Debug, PartialEq, Eq)]
pub enum Lost {
    /// Exactly where the point is greater than the number of control entries, `total`: the run has not
    /// come to it.
    Unknown { total: u64 },
    /// Exactly where control entries were dropped and the point is below `first`, the number of those
    /// dropped plus 1: the point's own entry, or at boot the first one, is not kept.
    Control { first: u64 },
    /// Exactly where the checkpoint of `epoch`, in which the task stands at the point, is not kept.
    Check { task: u8, epoch: u64 },
    /// Exactly where that checkpoint is kept, and the number of data entries that the task had made
    /// there, `needed`, is below `first`, the number of the first that is kept.
    Data { task: u8, needed: u64, first: u64 },
}

/// Whether a window can be replayed from a point: the point's own control entry and all after it are
/// kept, and for each task the checkpoint of its epoch there and all its data entries since. It answers
/// for every window and every point, and takes no memory.
#[tactic(auto, unfolding(crate::specs::Finder::lost_of))]
pub fn accepts(window: &Window, point: u64) -> Result<(), Lost>
    ensures { result_err result ≡ lost_of window.now point }
{
    let total = window.control().total();
    if point > total {
        return Err(Lost::Unknown { total });
    }
    let dropped = window.control().first();
    if dropped > 0 && point <= dropped {
        return Err(Lost::Control { first: dropped + 1 });
    }
    for task in 0..window.tasks() {
        accepts_task(window, point, task)?;
    }
    Ok(())
}

/// Whether a task can be replayed from a point.
fn accepts_task(window: &Window, point: u64, task: u8) -> Result<(), Lost>
    requires window { IsWindow window.now }
    requires task { task < length window.now.shape.words }
    ensures { result_err result ≡ lost_of_task window.now point task }
{
    accepts_epoch(window, task, marker_at(window, point, task).epoch)
}

/// Whether a task can be replayed from the start of an epoch.
pub fn accepts_epoch(window: &Window, task: u8, epoch: u64) -> Result<(), Lost>
    requires { task < length window.now.shape.words }
    ensures { result_err result ≡ lost_of_epoch window.now task epoch }
{
    let Some(check) = window.checks(task).with_epoch(epoch) else {
        return Err(Lost::Check { task, epoch });
    };
    let (needed, first) = (check.data_no, window.log(task).first());
    if needed < first {
        return Err(Lost::Data {
            task,
            needed,
            first,
        });
    }
    Ok(())
}

/// A task's marker at a point, as the kept entries and the tail have it: the marker with which the point's
/// own entry or a later one first switches to the task, or its last one where none does.
pub fn marker_at(window: &Window, point: u64, task: u8) -> Marker
    requires { task < length window.now.shape.words }
    ensures { result ≡ marker_at_point window.now point task }
{
    // A window has a marker for each task: known from here on.
    let _ = window.tasks();
    match resumed_from(window.control(), point.saturating_sub(1), task) {
        Some(at) => at,
        None => window.tail().at.at(usize::from(task)),
    }
}

/// The marker with which a task is first resumed, in the kept entries from a number on.
fn resumed_from(control: &Ring<Switch>, number: u64, task: u8) -> Option<Marker>
    ensures { result ≡ resumed_in (entries_from control.now number) task }
{
    for later in number.max(control.first())..control.total() {
        let Some(entry) = control.get(later) else {
            unreachable!();
        };
        if entry.to == task {
            return Some(entry.to_at);
        }
    }
    None
}
