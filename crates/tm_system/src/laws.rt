//! Laws of runs, and runs of small images, held to what they must leave. Each function here does
//! nothing: its clauses are the theorems.

ghost use Rattle.tm_system.specs.Examples.{EndingLeaves, PreemptingLeaves};
ghost use Rattle.tm_system.specs.Gaining.{TurnsGain, ArrivalsGain};
ghost use Rattle.tm_system.specs.ReplayExamples.{PreemptingWants, PreemptingReplays, PreemptingPasses, PreemptingMoves};
ghost use Rattle.tm_system.specs.ReplayLaws.{WalksEnd, WalksGoOn, WalksStick, WalkersStay};
ghost use Rattle.tm_system.specs.Turns.{TurnsAdd};

/// The control entries of two small images, as worked by hand.
pub fn examples()
    ensures ending { EndingLeaves }
    ensures preempting { PreemptingLeaves }
{}

/// The replay of a task that is preempted once, as worked by hand: from what its run left, and with one
/// marker changed in two ways.
pub fn replay_examples()
    ensures wants { PreemptingWants }
    ensures replays { PreemptingReplays }
    ensures passes { PreemptingPasses }
    ensures moves { PreemptingMoves }
{}

/// Where a task comes that goes on to a marker by itself, one instruction after another.
pub fn walks_go_on()
    ensures end { WalksEnd }
    ensures goes_on { WalksGoOn }
    ensures sticks { WalksStick }
    ensures stays { WalkersStay }
{}

/// So many turns, and then some more, are as many as their sum.
pub fn turns_add_up()
    ensures { TurnsAdd }
{}

/// What is told of a moment is what the lists that a run leaves gain by it.
pub fn lists_gain_what_is_told()
    ensures turns { TurnsGain }
    ensures arrivals { ArrivalsGain }
{}
