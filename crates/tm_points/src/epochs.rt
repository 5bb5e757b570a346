//! The epoch of each task at each point, found in one pass back over the control entries.

ghost use Rattle.std.specs.Prelude.{◌≡◌, ◌<◌, length, IfOk};
ghost use Rattle.tm_log.specs.Window.{IsWindow};
ghost use Rattle.tm_points.specs.Epochs.{AreEpochs, AreTasksEpochs};
ghost use Rattle.tm_points.specs.Points.{is_accepted};

use crate::finder::accepts_epoch;
use std::alloc::{AllocError, Global};
use tm_log::Window;
use tm_marker::Items;

/// The epochs in which each task stands, back from the last moment to the oldest kept control entry.
pub fn epochs_back(alloc: Global, window: &Window) -> Result<Vec<Items<u64>>, AllocError>
    ensures { IfOk result (λ epochs. AreTasksEpochs window.now epochs.items (length window.now.shape.words)) }
{
    let mut epochs = Vec::new(alloc);
    for task in 0..window.tasks() {
        epochs.push(task_epochs_back(alloc, window, task)?)?;
    }
    Ok(epochs)
}

/// The epochs in which a task stands: each time that an entry resumes it, the one in which it stood
/// before that entry.
fn task_epochs_back(alloc: Global, window: &Window, task: u8) -> Result<Items<u64>, AllocError>
    requires window { IsWindow window.now }
    requires task { task < length window.now.shape.words }
    ensures { IfOk result (AreEpochs window.now task) }
{
    let control = window.control();
    let mut epoch = window.tail().at.at(usize::from(task)).epoch;
    let mut epochs = Items::new(alloc);
    epochs.push(epoch)?;
    for number in (control.first()..control.total()).rev() {
        let Some(entry) = control.get(number) else {
            unreachable!();
        };
        if entry.to == task {
            epoch = entry.to_at.epoch;
        }
        epochs.push(epoch)?;
    }
    Ok(epochs)
}

/// Whether a point is accepted, by the epochs of the tasks.
#[tactic(auto, unfolding(crate::specs::Finder::lost_of))]
pub fn is_accepted(window: &Window, epochs: &[Items<u64>], point: u64) -> bool
    requires { AreTasksEpochs window.now epochs.now (length window.now.shape.words) }
    ensures { result ≡ is_accepted window.now point }
{
    let control = window.control();
    let (number, total) = (point.saturating_sub(1), control.total());
    if number < control.first() || total < point {
        return false;
    }
    let later = (total - number) as usize;
    for task in 0..window.tasks() {
        let epoch = epochs[usize::from(task)].at(later);
        if accepts_epoch(window, task, epoch).is_err() {
            return false;
        }
    }
    true
}
