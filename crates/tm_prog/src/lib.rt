//! The program as one call: words, a shelf and a sink in, a status out.
//!
//! [`tm`] reads the words and the files that they name, makes all that is to be put and written, and only
//! then puts and writes it. [`Status`] says how that ended, and is the program's exit status and its line
//! on standard error.
#![tactic(auto)]

ghost use Rattle.std.specs.Prelude.{◌≡◌, ◌≢◌, ◌<◌, ◌^◌, ◌↔◌, ℕ, List, length, vec_len, Some, None, IsSome, Ok, IsTrue};
ghost use Rattle.tm_marker.specs.declared.entries.Slice.{Slice};
ghost use Rattle.tm_image.specs.Image.{ImageView};
ghost use Rattle.tm_prog.specs.declared.status.Status.{Status};
ghost use Rattle.tm_prog.specs.Class.{class_of};
ghost use Rattle.tm_prog.specs.Made.{MadeView};
ghost use Rattle.tm_prog.specs.Reads.{CanRefuse};
ghost use Rattle.tm_words.specs.Words.{texts};
ghost use Rattle.tm_words.specs.Command.{command_of, IsInRange};
ghost use Rattle.tm_prog.specs.Answer.{answer_of};
ghost use Rattle.tm_prog.specs.BenchEnds.{BenchEnds};
ghost use Rattle.tm_prog.specs.Gained.{gained};
ghost use Rattle.tm_irq.specs.Bench.{bench_lists};
ghost use Rattle.tm_prog.specs.World.{world, IsReady};
ghost use Rattle.tm_prog.specs.RunDumps.{IsReplayOf, ReplaysRun, IsListOf, ListsRun};
ghost use Rattle.tm_prog.specs.Outcome.{Ends, Counts, Stays, OthersStay, IsSilent, IsDone, NoneRose};

mod closing;
mod commands;
mod deliver;
mod digits;
mod ending;
mod files;
mod limits;
mod live_room;
mod made;
mod status;
mod teller;
mod trace;
mod views;
mod watch_call;
mod watch_run;

use commands::made_of;
use deliver::deliver;
pub use limits::{DUMP_LIMIT, ELF_LIMIT, IMAGE_LIMIT, PLAN_LIMIT, limits_are, run_dumps_fit};
pub use status::Status;
use std::alloc::Global;
use std::thread::Threads;
use tm_io::{Gate, Shelf, Sink};
use tm_irq::Bench;
use tm_words::{Command, command_of};
pub use watch_call::watch;

/// Does what the words ask for: gets the files that they name, puts what is to be put, and writes the text
/// that answers.
///
/// The words are read first, then each file is got and read in turn, then all that is to be put and written
/// is made, and then it is put and written. The first of these that fails is answered. Want of memory never
/// comes after the first put or write, nor after the first slice of `live`. The gate is told what the workers of a
/// replay, or the kernel's part and the devices of `live`, are about to do.
///
/// The bench is open and has 8 devices and fewer than 2^46 takes.
pub fn tm<F: Shelf, K: Sink, G: Gate>(
    rt: &(impl Threads + Sync),
    alloc: Global,
    words: &[String],
    shelf: &mut F,
    out: &mut K,
    bench: &mut Bench,
    gate: &G,
) -> Status
    requires open { IsSome bench.old.kernel }
    requires seats { vec_len bench.old.devices ≡ 8 }
    requires few { length (bench_lists bench.old).takes < 2 ^ 46 }
    // The words alone decide whether they are refused.
    ensures words { (result ≡ Status.Words) ↔ (command_of (texts words.now) ≡ None) }
    ensures answer { Ends (class_of result) result (command_of (texts words.now)) (gained bench.old bench.new)
        (world (F.seen shelf.old) (K.seen out.old)) (world (F.seen shelf.new) (K.seen out.new)) }

    // What is asked for is done where the call is quiet: no count rose in it, or all was ready before it.
    ensures undisturbed { IsTrue (F.seen shelf.old).tells → (made : MadeView) →
        answer_of (command_of (texts words.now)) (gained bench.old bench.new) (F.seen shelf.old).content ≡ Some (Ok made) →
        NoneRose (world (F.seen shelf.old) (K.seen out.old)) (world (F.seen shelf.new) (K.seen out.new)) →
        IsDone result }
    ensures ready { (made : MadeView) →
        answer_of (command_of (texts words.now)) (gained bench.old bench.new) (F.seen shelf.old).content ≡ Some (Ok made) →
        IsReady made (world (F.seen shelf.old) (K.seen out.old)) →
        IsDone result }

    // On the dump of a run, `replay` tells exactly the run, from each point from which the run can be
    // replayed, and refuses every other point; and `points` lists these points.
    ensures replays { (image : ImageView) (script : List Slice) (point : ℕ) → IsTrue (F.seen shelf.old).tells →
        IsReplayOf (command_of (texts words.now)) (F.seen shelf.old).content image script point →
        ReplaysRun result image script point (world (F.seen shelf.old) (K.seen out.old)) (world (F.seen shelf.new) (K.seen out.new)) }
    ensures lists { (image : ImageView) (script : List Slice) → IsTrue (F.seen shelf.old).tells →
        IsListOf (command_of (texts words.now)) (F.seen shelf.old).content image script →
        ListsRun result image script (world (F.seen shelf.old) (K.seen out.old)) (world (F.seen shelf.new) (K.seen out.new)) }

    // What follows for every shelf and sink, also where nothing is told.
    ensures counts { Counts (class_of result) (world (F.seen shelf.old) (K.seen out.old)) (world (F.seen shelf.new) (K.seen out.new)) }
    ensures stays { Stays (world (F.seen shelf.old) (K.seen out.old)) (world (F.seen shelf.new) (K.seen out.new)) }
    ensures others_stay { OthersStay (command_of (texts words.now))
        (world (F.seen shelf.old) (K.seen out.old)) (world (F.seen shelf.new) (K.seen out.new)) }
    ensures unput { result ≢ Status.Ok → result ≢ Status.WriteFault →
        (F.seen shelf.new).content ≡ (F.seen shelf.old).content }
    ensures untouched { result ≢ Status.Ok → result ≢ Status.WriteFault → out.new ≡ out.old }
    ensures unwritten { IsSilent (command_of (texts words.now)) → out.new ≡ out.old }
    ensures refusals { CanRefuse result }

    // `live` drives the bench and closes it; all else leaves it as it was.
    ensures bench { BenchEnds (class_of result) (command_of (texts words.now)) (F.seen shelf.old) bench.old bench.new }
{
    answered(rt, alloc, words, shelf, out, bench, gate)
}

/// The call, and its plain answer.
fn answered<F: Shelf, K: Sink, G: Gate>(
    rt: &(impl Threads + Sync),
    alloc: Global,
    words: &[String],
    shelf: &mut F,
    out: &mut K,
    bench: &mut Bench,
    gate: &G,
) -> Status
    requires open { IsSome bench.old.kernel }
    requires seats { vec_len bench.old.devices ≡ 8 }
    requires few { length (bench_lists bench.old).takes < 2 ^ 46 }
    ensures words { (result ≡ Status.Words) ↔ (command_of (texts words.now) ≡ None) }
    ensures answer { Ends (class_of result) result (command_of (texts words.now)) (gained bench.old bench.new)
        (world (F.seen shelf.old) (K.seen out.old)) (world (F.seen shelf.new) (K.seen out.new)) }
    ensures ready { (made : MadeView) →
        answer_of (command_of (texts words.now)) (gained bench.old bench.new) (F.seen shelf.old).content ≡ Some (Ok made) →
        IsReady made (world (F.seen shelf.old) (K.seen out.old)) →
        IsDone result }
    ensures untouched { result ≢ Status.Ok → result ≢ Status.WriteFault → out.new ≡ out.old }
    ensures unwritten { IsSilent (command_of (texts words.now)) → out.new ≡ out.old }
    ensures bench { BenchEnds (class_of result) (command_of (texts words.now)) (F.seen shelf.old) bench.old bench.new }
{
    match command_of(alloc, words) {
        Ok(Some(command)) => obey(rt, alloc, &command, shelf, out, bench, gate),
        Ok(None) => Status::Words,
        Err(_) => Status::Memory,
    }
}

/// Does what a command asks for.
fn obey<F: Shelf, K: Sink, G: Gate>(
    rt: &(impl Threads + Sync),
    alloc: Global,
    command: &Command,
    shelf: &mut F,
    out: &mut K,
    bench: &mut Bench,
    gate: &G,
) -> Status
    requires range { IsInRange command.now }
    requires open { IsSome bench.old.kernel }
    requires seats { vec_len bench.old.devices ≡ 8 }
    requires few { length (bench_lists bench.old).takes < 2 ^ 46 }
    ensures asked { result ≢ Status.Words }
    ensures answer { Ends (class_of result) result (Some command.now) (gained bench.old bench.new)
        (world (F.seen shelf.old) (K.seen out.old)) (world (F.seen shelf.new) (K.seen out.new)) }
    ensures ready { (made : MadeView) →
        answer_of (Some command.now) (gained bench.old bench.new) (F.seen shelf.old).content ≡ Some (Ok made) →
        IsReady made (world (F.seen shelf.old) (K.seen out.old)) →
        IsDone result }
    ensures untouched { result ≢ Status.Ok → result ≢ Status.WriteFault → out.new ≡ out.old }
    ensures unwritten { IsSilent (Some command.now) → out.new ≡ out.old }
    ensures bench { BenchEnds (class_of result) (Some command.now) (F.seen shelf.old) bench.old bench.new }
{
    let made = match made_of(rt, alloc, shelf, bench, gate, command) {
        Ok(made) => made,
        Err(status) => return status,
    };
    match deliver(&made, shelf, out) {
        Ok(()) => Status::Ok,
        Err(_) => Status::WriteFault,
    }
}
