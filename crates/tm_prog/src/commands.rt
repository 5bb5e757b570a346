//! The commands, each in a file of its own: what it makes of the files that it names.

ghost use Rattle.std.specs.Prelude.{◌≡◌, ◌<◌, ◌^◌, Some, length, vec_len, IfOk, IsSome, OnOk, OnErr};
ghost use Rattle.tm_irq.specs.Bench.{bench_lists};
ghost use Rattle.tm_words.specs.Command.{IsInRange};
ghost use Rattle.tm_prog.specs.Answer.{made_of};
ghost use Rattle.tm_prog.specs.BenchEnds.{Drives};
ghost use Rattle.tm_prog.specs.Gained.{gained};
ghost use Rattle.tm_prog.specs.MadeFor.{IsMadeFor};
ghost use Rattle.tm_prog.specs.Reads.{Reads};

mod live;
mod load;
mod make;
mod points;
mod record;
mod replay;
mod trace;

use crate::Status;
use crate::made::Made;
use live::Asked;
use std::alloc::Global;
use std::thread::Threads;
use tm_io::{Gate, Shelf};
use tm_irq::Bench;
use tm_words::Command;

/// What the command makes.
pub(crate) fn made_of<'a, F: Shelf, G: Gate>(
    rt: &(impl Threads + Sync),
    alloc: Global,
    shelf: &mut F,
    bench: &mut Bench,
    gate: &G,
    command: &'a Command,
) -> Result<Made<'a>, Status>
    requires range { IsInRange command.now }
    requires open { IsSome bench.old.kernel }
    requires seats { vec_len bench.old.devices ≡ 8 }
    requires few { length (bench_lists bench.old).takes < 2 ^ 46 }
    ensures reads { Reads (made_of command.now (gained bench.old bench.new) (F.seen shelf.old).content) (F.seen shelf.old) (F.seen shelf.new) result }
    ensures made { IfOk result (IsMadeFor command.now) }
    ensures drives { OnOk result (Drives (Some command.now) (F.seen shelf.old) bench.old bench.new) }
    ensures rests { OnErr result (bench.new ≡ bench.old) }
{
    match command {
        Command::Trace { image, plan } => trace::trace(alloc, shelf, image, plan),
        Command::Record { image, plan, dump } => record::record(alloc, shelf, image, plan, dump),
        Command::Live {
            image,
            plant,
            dump,
            slices,
            len,
            tape,
        } => {
            let asked = Asked {
                dump,
                slices: *slices,
                len: *len,
                tape,
            };
            live::live(rt, alloc, shelf, bench, gate, image, plant, &asked)
        }
        Command::Points { image, dump } => points::points(rt, alloc, shelf, image, dump),
        Command::Replay {
            image,
            dump,
            from,
            workers,
        } => replay::replay(rt, alloc, shelf, image, dump, *from, *workers, gate),
        Command::Make { number } => make::make(rt, alloc, *number, gate),
        Command::Load {
            image,
            task,
            executable,
            new,
        } => load::load(alloc, shelf, image, *task, executable, new),
    }
}
