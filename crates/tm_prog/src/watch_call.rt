//! The program's other call: a run beside devices that observers look at.

ghost use Rattle.std.specs.Prelude.{◌≡◌, ◌≢◌, ◌<◌, ◌^◌, ◌↔◌, ℕ, List, length, vec_len, Some, None, IsSome, IfOk, IfErr, OnOk, Ok, IsTrue};
ghost use Rattle.tm_image.specs.Image.{ImageView};
ghost use Rattle.tm_plant.specs.declared.plant.Act.{Act};
ghost use Rattle.tm_irq.specs.Bench.{bench_lists};
ghost use Rattle.tm_words.specs.Words.{texts};
ghost use Rattle.tm_words.specs.Watch.{watch_of, IsWatchInRange};
ghost use Rattle.tm_prog.specs.declared.status.Status.{Status};
ghost use Rattle.tm_prog.specs.Class.{class_of};
ghost use Rattle.tm_prog.specs.BenchEnds.{RanPlant};
ghost use Rattle.tm_prog.specs.Files.{image_in, plant_in};
ghost use Rattle.tm_prog.specs.Gained.{gained};
ghost use Rattle.tm_prog.specs.Made.{MadeView};
ghost use Rattle.tm_prog.specs.Outcome.{Counts, Stays, OnlyThese, NoneRose, IsDone};
ghost use Rattle.tm_prog.specs.Reads.{CanRefuse, IsUnmade, Reads};
ghost use Rattle.tm_prog.specs.WatchCommand.{watch_names};
ghost use Rattle.tm_prog.specs.WatchEnds.{WatchEnds, WatchBench, IsWatchOf, IsPartlyRun, files_said, watched_said, names_watched};
ghost use Rattle.tm_prog.specs.World.{world, IsReady};

use crate::Status;
use crate::deliver::deliver;
use crate::files::read_file;
use crate::made::{Made, PutName};
use crate::watch_run::WatchRun;
use std::alloc::{AllocError, Global};
use std::sync::Wait;
use std::thread::Threads;
use tm_image::Image;
use tm_io::{Gate, Shelf, Sink};
use tm_irq::Bench;
use tm_plant::Plant;
use tm_words::{Name, WatchCommand, watch_of};

/// Does what the words `watch IMAGE PLANT PREFIX ..` ask for: runs the image beside the devices of the plant and
/// beside observers, each of which looks at what was published so far, and puts the dump that each saw last, then
/// that of the whole run.
///
/// It waits for its observers, and what is said holds if it returns. The gate is told what the kernel's part, the
/// devices and the observers (16 and more) are about to do. Want of memory may come after slices were run, but
/// never after the first put.
///
/// The bench is open and has 8 devices and fewer than 2^46 takes.
pub fn watch<R: Threads + Wait + Sync, F: Shelf, K: Sink, G: Gate>(
    rt: &R,
    alloc: Global,
    words: &[String],
    shelf: &mut F,
    out: &mut K,
    bench: &mut Bench,
    gate: &G,
) -> Status
    requires open { IsSome bench.old.kernel }
    requires seats { vec_len bench.old.devices ≡ 8 }
    requires few { length (bench_lists bench.old).takes < 2 ^ 46 }
    ensures words { (result ≡ Status.Words) ↔ (watch_of (texts words.now) ≡ None) }
    ensures answer { WatchEnds (class_of result) result (watch_of (texts words.now)) (gained bench.old bench.new)
        (world (F.seen shelf.old) (K.seen out.old)) (world (F.seen shelf.new) (K.seen out.new)) }
    ensures bench { WatchBench (class_of result) (watch_of (texts words.now)) (F.seen shelf.old) bench.old bench.new }

    // What is asked for is done where no count rose in the call.
    ensures undisturbed { IsTrue (F.seen shelf.old).tells → (files : ImageView × List (List Act)) →
        watched_said (F.seen shelf.old).content (watch_of (texts words.now)) ≡ Some (Ok files) →
        NoneRose (world (F.seen shelf.old) (K.seen out.old)) (world (F.seen shelf.new) (K.seen out.new)) →
        IsDone result }

    // What follows for every shelf and sink, also where nothing is told.
    ensures counts { Counts (class_of result) (world (F.seen shelf.old) (K.seen out.old)) (world (F.seen shelf.new) (K.seen out.new)) }
    ensures stays { Stays (world (F.seen shelf.old) (K.seen out.old)) (world (F.seen shelf.new) (K.seen out.new)) }
    ensures others_stay { OnlyThese (names_watched (watch_of (texts words.now)))
        (world (F.seen shelf.old) (K.seen out.old)) (world (F.seen shelf.new) (K.seen out.new)) }
    ensures unput { result ≢ Status.Ok → result ≢ Status.WriteFault →
        (F.seen shelf.new).content ≡ (F.seen shelf.old).content }
    ensures untouched { result ≢ Status.Ok → result ≢ Status.WriteFault → out.new ≡ out.old }
    ensures refusals { CanRefuse result }
{
    watched(rt, alloc, words, shelf, out, bench, gate)
}

/// The call, and its plain answer.
fn watched<R: Threads + Wait + Sync, F: Shelf, K: Sink, G: Gate>(
    rt: &R,
    alloc: Global,
    words: &[String],
    shelf: &mut F,
    out: &mut K,
    bench: &mut Bench,
    gate: &G,
) -> Status
    requires open { IsSome bench.old.kernel }
    requires seats { vec_len bench.old.devices ≡ 8 }
    requires few { length (bench_lists bench.old).takes < 2 ^ 46 }
    ensures words { (result ≡ Status.Words) ↔ (watch_of (texts words.now) ≡ None) }
    ensures answer { WatchEnds (class_of result) result (watch_of (texts words.now)) (gained bench.old bench.new)
        (world (F.seen shelf.old) (K.seen out.old)) (world (F.seen shelf.new) (K.seen out.new)) }
    ensures bench { WatchBench (class_of result) (watch_of (texts words.now)) (F.seen shelf.old) bench.old bench.new }
    ensures untouched { result ≢ Status.Ok → result ≢ Status.WriteFault → out.new ≡ out.old }
{
    match watch_of(alloc, words) {
        Ok(Some(asked)) => obey(rt, alloc, &asked, shelf, out, bench, gate),
        Ok(None) => Status::Words,
        Err(_) => Status::Memory,
    }
}

/// Does what is asked for.
fn obey<R: Threads + Wait + Sync, F: Shelf, K: Sink, G: Gate>(
    rt: &R,
    alloc: Global,
    asked: &WatchCommand,
    shelf: &mut F,
    out: &mut K,
    bench: &mut Bench,
    gate: &G,
) -> Status
    requires range { IsWatchInRange asked.now }
    requires open { IsSome bench.old.kernel }
    requires seats { vec_len bench.old.devices ≡ 8 }
    requires few { length (bench_lists bench.old).takes < 2 ^ 46 }
    ensures asked { result ≢ Status.Words }
    ensures answer { WatchEnds (class_of result) result (Some asked.now) (gained bench.old bench.new)
        (world (F.seen shelf.old) (K.seen out.old)) (world (F.seen shelf.new) (K.seen out.new)) }
    ensures bench { WatchBench (class_of result) (Some asked.now) (F.seen shelf.old) bench.old bench.new }
    ensures untouched { result ≢ Status.Ok → result ≢ Status.WriteFault → out.new ≡ out.old }
{
    let Ok(names) = names_of(alloc, &asked.prefix, asked.observers) else {
        return Status::Memory;
    };
    obey_under(rt, alloc, asked, names.as_slice(), shelf, out, bench, gate)
}

/// The same, with what is put under these names.
fn obey_under<R: Threads + Wait + Sync, F: Shelf, K: Sink, G: Gate>(
    rt: &R,
    alloc: Global,
    asked: &WatchCommand,
    names: &[PutName],
    shelf: &mut F,
    out: &mut K,
    bench: &mut Bench,
    gate: &G,
) -> Status
    requires range { IsWatchInRange asked.now }
    requires names { names.now ≡ watch_names asked.now.prefix asked.now.observers }
    requires open { IsSome bench.old.kernel }
    requires seats { vec_len bench.old.devices ≡ 8 }
    requires few { length (bench_lists bench.old).takes < 2 ^ 46 }
    ensures asked { result ≢ Status.Words }
    ensures answer { WatchEnds (class_of result) result (Some asked.now) (gained bench.old bench.new)
        (world (F.seen shelf.old) (K.seen out.old)) (world (F.seen shelf.new) (K.seen out.new)) }
    ensures bench { WatchBench (class_of result) (Some asked.now) (F.seen shelf.old) bench.old bench.new }
    ensures untouched { result ≢ Status.Ok → result ≢ Status.WriteFault → out.new ≡ out.old }
{
    let made = match made_of(rt, alloc, shelf, bench, gate, asked, names) {
        Ok(made) => made,
        Err(status) => return status,
    };
    match deliver(&made, shelf, out) {
        Ok(()) => Status::Ok,
        Err(_) => Status::WriteFault,
    }
}

/// The names that are put: one for each observer, and one for what is seen after the run.
fn names_of(alloc: Global, prefix: &Name, observers: u8) -> Result<Vec<PutName>, AllocError>
    ensures { IfOk result (λ names. names.items ≡ watch_names prefix.now observers) }
{
    let beginning = prefix.text();
    let mut names = Vec::new(alloc);
    for number in 0..observers {
        names.push(PutName::new(format!(in alloc; "{beginning}.{number}")?))?;
    }
    names.push(PutName::new(format!(in alloc; "{beginning}.end")?))?;
    Ok(names)
}

/// What is made of the run that is asked for.
fn made_of<'a, R: Threads + Wait + Sync, F: Shelf, G: Gate>(
    rt: &R,
    alloc: Global,
    shelf: &mut F,
    bench: &mut Bench,
    gate: &G,
    asked: &WatchCommand,
    names: &'a [PutName],
) -> Result<Made<'a>, Status>
    requires range { IsWatchInRange asked.now }
    requires open { IsSome bench.old.kernel }
    requires seats { vec_len bench.old.devices ≡ 8 }
    requires few { length (bench_lists bench.old).takes < 2 ^ 46 }
    requires names { names.now ≡ watch_names asked.now.prefix asked.now.observers }
    ensures shelf { OnOk result (F.seen shelf.new ≡ F.seen shelf.old) }
    ensures made { IfOk result (λ made. IsWatchOf asked.now (gained bench.old bench.new) made (F.seen shelf.old)) }
    ensures ran { OnOk result (RanPlant asked.now.slices (plant_in ((F.seen shelf.old).content asked.now.plant)) (F.seen shelf.old).tells bench.old bench.new) }
    ensures unmade { IfErr result (λ status. IsUnmade (class_of status) status (files_said (F.seen shelf.old).content asked.now) (F.seen shelf.old) (F.seen shelf.new)) }
    ensures bench { IfErr result (λ status. WatchBench (class_of status) (Some asked.now) (F.seen shelf.old) bench.old bench.new) }
{
    let (image, plant) = match read_files(alloc, shelf, asked) {
        Ok(files) => files,
        Err(status) => return Err(status),
    };
    let Ok(run) = WatchRun::open(rt, alloc, image, asked) else {
        return Err(Status::Memory);
    };
    match run.made(rt, alloc, bench, gate, &plant, asked, names) {
        Ok(made) => Ok(made),
        Err(_) => Err(Status::Memory),
    }
}

/// The image and the plant.
fn read_files<F: Shelf>(
    alloc: Global,
    shelf: &mut F,
    asked: &WatchCommand,
) -> Result<(Image, Plant), Status>
    ensures { Reads (files_said (F.seen shelf.old).content asked.now) (F.seen shelf.old) (F.seen shelf.new) result }
{
    let image: Image = match read_file(alloc, shelf, 1, &asked.image, &()) {
        Ok(image) => image,
        Err(status) => return Err(status),
    };
    let plant: Plant = match read_file(alloc, shelf, 2, &asked.plant, &()) {
        Ok(plant) => plant,
        Err(status) => return Err(status),
    };
    Ok((image, plant))
}
