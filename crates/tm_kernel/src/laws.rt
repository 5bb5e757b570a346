//! Laws of every kernel. Each function here does nothing: its clauses are the laws, stated over
//! the values that contracts see.

ghost use Rattle.std.specs.Prelude.{◌≡◌};
ghost use Rattle.tm_kernel.specs.Laws.{BootIsKernel, CallKeeps, ArrivalKeeps, RunKeeps, ReschedulingKeeps, StopKeeps};
ghost use Rattle.tm_kernel.specs.Laws.{PicksGreatest, PicksSomebody, RunsThePick, RunsATask, ReschedulingSameRest, GoesOnRunning};
ghost use Rattle.tm_kernel.specs.Laws.{ArrivalGoesOn, ArrivalLatches, CallSameRest, CallNamesService, CallGoesOn, CallLeaves, RefusalChangesNothing, StopEnds};

use crate::{MOST_ALARMS, MOST_BOXES, MOST_MESSAGES, MOST_RESOURCES};

/// What the constants are, as figures.
pub fn constants_are()
    ensures resources { MOST_RESOURCES ≡ 16 }
    ensures alarms { MOST_ALARMS ≡ 16 }
    ensures boxes { MOST_BOXES ≡ 16 }
    ensures messages { MOST_MESSAGES ≡ 64 }
{}

/// What every kernel keeps holds at boot, and each step keeps it.
pub fn kernels_stay_sound()
    ensures boot { BootIsKernel }
    ensures call { CallKeeps }
    ensures arrival { ArrivalKeeps }
    ensures run { RunKeeps }
    ensures rescheduling { ReschedulingKeeps }
    ensures stop { StopKeeps }
{}

/// The pick is a ready or running task of greatest priority, where there is one.
pub fn pick_is_greatest()
    ensures greatest { PicksGreatest }
    ensures somebody { PicksSomebody }
{}

/// After a rescheduling the picked task runs.
pub fn rescheduling_runs_the_pick()
    ensures pick { RunsThePick }
    ensures task { RunsATask }
    ensures rest { ReschedulingSameRest }
    ensures goes_on { GoesOnRunning }
{}

/// An arrival latches its ports, and never leaves a task for nobody.
pub fn arrival_goes_on()
    ensures latches { ArrivalLatches }
    ensures goes_on { ArrivalGoesOn }
{}

/// What a call does beside its effect: the caller goes on or ends, and a refusal changes nothing.
pub fn call_answers()
    ensures service { CallNamesService }
    ensures rest { CallSameRest }
    ensures goes_on { CallGoesOn }
    ensures leaves { CallLeaves }
    ensures refused { RefusalChangesNothing }
{}

/// After the end of a run nobody runs.
pub fn stop_ends()
    ensures { StopEnds }
{}
