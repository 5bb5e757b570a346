//! The closing of a bench after a run.

ghost use Rattle.std.specs.Prelude.{◌≡◌, IsSome};
ghost use Rattle.tm_irq.specs.Bench.{bench_lists};
ghost use Rattle.tm_prog.specs.BenchEnds.{IsClosedBy};

use tm_irq::{Audit, Bench};

/// Closes the bench by the audit of its lists.
pub(crate) fn close(bench: &mut Bench) -> Audit
    requires { IsSome bench.old.kernel }
    ensures closed { IsClosedBy result bench.new }
    ensures lists { bench_lists bench.new ≡ bench_lists bench.old }
{
    bench.close()
}
