//! `make N`

ghost use Rattle.std.specs.Prelude.{◌≡◌, [], IfOk};
ghost use Rattle.tm_prog.specs.MakeCommand.{make_said};
ghost use Rattle.tm_prog.specs.Reads.{Says};

use crate::Status;
use crate::made::Made;
use std::alloc::Global;
use std::thread::Threads;
use tm_io::Gate;
use tm_make::{MakeFault, make as summary_of};

/// Makes the summary of the generated run of this number.
pub(crate) fn make<'a, G: Gate>(
    rt: &(impl Threads + Sync),
    alloc: Global,
    number: u32,
    gate: &G,
) -> Result<Made<'a>, Status>
    ensures says { Says (make_said number) result }
    ensures puts { IfOk result (λ made. made.puts ≡ []) }
{
    match summary_of(rt, alloc, number, gate) {
        Ok(text) => Ok(Made::text_alone(alloc, text)),
        Err(MakeFault::Image(fault)) => Err(Status::Image(fault)),
        Err(MakeFault::Memory) => Err(Status::Memory),
    }
}
