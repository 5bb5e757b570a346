//! The finder on the window of a run.

ghost use Rattle.tm_fidelity.specs.Finding.{MarkersAreOfPoints, FinderIsRight, ScriptsAreFound, RefusalsNameDropped};

/// A task's marker at a point, read from the window of a run, is the one that it had there.
pub fn markers_are_of_points()
    ensures { MarkersAreOfPoints }
{}

/// A point is accepted exactly where the run can be replayed from it; and a point that the run has
/// reached is refused only where something that it needs was dropped.
pub fn finder_is_right()
    ensures accepts { FinderIsRight }
    ensures scripts { ScriptsAreFound }
    ensures refuses { RefusalsNameDropped }
{}
