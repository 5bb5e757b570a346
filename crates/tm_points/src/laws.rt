//! What markers at points are, and what the finder's answers mean.

ghost use Rattle.std.specs.Prelude.{◌≡◌, ◌≢◌, ℕ, ◌+◌, length, Some, None};
ghost use Rattle.tm_marker.specs.declared.entries.Switch.{Switch};
ghost use Rattle.tm_ring.specs.Kept.{item_of};
ghost use Rattle.tm_log.specs.Window.{WindowView};
ghost use Rattle.tm_points.specs.declared.finder.Lost.{Lost};
ghost use Rattle.tm_points.specs.Finder.{marker_at_point, lost_of_task, least_answer, lost_of};
ghost use Rattle.tm_points.specs.Laws.{marker_after, IsReplayable, IsLeast};

/// At a point whose entry is kept, the task that the entry switches to has that entry's marker, and
/// every other task, as every task at boot, the one by the later entries.
pub fn markers_stand_in_entries()
    ensures boot { (w : WindowView) (task : ℕ) → marker_at_point w 0 task ≡ marker_after w 0 task }
    ensures resumed { (w : WindowView) (number : ℕ) (entry : Switch) → item_of w.control number ≡ Some entry
        → marker_at_point w (number + 1) entry.to ≡ entry.to_at }
    ensures others { (w : WindowView) (number : ℕ) (entry : Switch) (task : ℕ) → item_of w.control number ≡ Some entry
        → entry.to ≢ task → marker_at_point w (number + 1) task ≡ marker_after w (number + 1) task }
{}

/// A point is accepted exactly where all that a replay from it needs is kept.
pub fn accepted_points_are_replayable()
    ensures needed { (w : WindowView) (point : ℕ) → lost_of w point ≡ None → IsReplayable w point }
    ensures enough { (w : WindowView) (point : ℕ) → IsReplayable w point → lost_of w point ≡ None }
{}

/// What is told of the tasks is what the least one lacks that lacks something.
pub fn the_least_task_is_told()
    ensures { (w : WindowView) (point : ℕ) (lost : Lost) → least_answer (lost_of_task w point) (length w.shape.words) ≡ Some lost
        → IsLeast (lost_of_task w point) (length w.shape.words) lost }
{}
