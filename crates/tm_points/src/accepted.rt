//! The points from which a window can be replayed, found by several threads.

ghost use Rattle.std.specs.Prelude.{◌≡◌, ℕ, ◌+◌, ◌<◌, ◌≤◌, filter, length, IfOk, false};
ghost use Rattle.rayon.specs.Numbers.{nat_range};
ghost use Rattle.tm_points.specs.Epochs.{AreTasksEpochs};
ghost use Rattle.tm_points.specs.Points.{is_accepted, points_of};

use crate::Points;
use crate::epochs::{epochs_back, is_accepted};
use rayon::prelude::*;
use std::alloc::{AllocError, Global};
use std::ops::Range;
use std::thread::Threads;
use tm_log::Window;
use tm_marker::Items;

/// The points from which a window can be replayed: each point that [`crate::accepts`] accepts, in rising
/// order. The time that it takes grows with the number of kept control entries times that of tasks.
pub fn points(
    rt: &(impl Threads + Sync),
    alloc: Global,
    window: &Window,
) -> Result<Points, AllocError>
    ensures { IfOk result (λ points. points ≡ points_of window.now) }
{
    let epochs = epochs_back(alloc, window)?;
    let accepted = accepted_among(rt, alloc, window, epochs.as_slice(), candidates(window))?;
    Ok(Points::from(accepted))
}

/// The points whose own entries are kept, and boot where no entry was dropped.
#[tactic(auto, unfolding(crate::specs::Finder::lost_of))]
fn candidates(window: &Window) -> Range<u64>
    ensures end { result.end ≡ window.now.control.total + 1 }
    ensures known { result.start ≤ result.end }
    ensures others { (point : ℕ) → point < result.start → is_accepted window.now point ≡ false }
{
    let control = window.control();
    let end = control.total() + 1;
    match control.first() {
        0 => 0..end,
        dropped => dropped + 1..end,
    }
}

/// The accepted ones among some candidates, by the epochs of the tasks.
fn accepted_among(
    rt: &(impl Threads + Sync),
    alloc: Global,
    window: &Window,
    epochs: &[Items<u64>],
    candidates: Range<u64>,
) -> Result<Vec<u64>, AllocError>
    requires { AreTasksEpochs window.now epochs.now (length window.now.shape.words) }
    ensures { IfOk result (λ v. v.items ≡ filter (is_accepted window.now) (nat_range candidates.start candidates.end)) }
{
    candidates
        .into_par_iter()
        .filter(
            |point: &u64| -> bool
                requires { AreTasksEpochs window.now epochs.now (length window.now.shape.words) }
                ensures { result ≡ is_accepted window.entry.now point.now }
            { is_accepted(window, epochs, *point) },
        )
        .collect(rt, alloc)
}
