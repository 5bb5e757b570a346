//! A replay of the window of a run tells what the run did.

ghost use Rattle.tm_fidelity.specs.Fidelity.{ReplaysAreFaithful, ReplaysEndLive, WholeRunsReplay};

/// From each point from which a run can be replayed, the replay of each task on the run's window comes
/// to where the task stands at the run's last moment, with all its data entries used.
pub fn replays_end_live()
    ensures { ReplaysEndLive }
{}

/// From each point from which a script's run can be replayed, the window of the run tells exactly what
/// the run did; and where nothing was dropped, the window tells the whole run.
pub fn replays_are_faithful()
    ensures replays { ReplaysAreFaithful }
    ensures whole { WholeRunsReplay }
{}
