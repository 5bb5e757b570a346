//! Why a declared user never finds a resource held by another task. Each function here does nothing:
//! its clauses are the laws.

ghost use Rattle.tm_kernel.specs.Nesting.{BootIsNested, CallKeepsNested, ArrivalKeepsNested, ReschedulingKeepsNested, StopKeepsNested};
ghost use Rattle.tm_kernel.specs.Nesting.{EveryReschedulingSettles, HoldersDiffer, UsersNeverBlock, RefusedUsersHold};

/// Holders of resources are nested at boot, and each step keeps them so.
pub fn holders_stay_nested()
    ensures boot { BootIsNested }
    ensures call { CallKeepsNested }
    ensures arrival { ArrivalKeepsNested }
    ensures rescheduling { ReschedulingKeepsNested }
    ensures stop { StopKeepsNested }
    ensures settles { EveryReschedulingSettles }
    ensures differ { HoldersDiffer }
{}

/// A declared user that runs never finds a resource held by another task.
pub fn users_never_block()
    ensures others { UsersNeverBlock }
    ensures refused { RefusedUsersHold }
{}
