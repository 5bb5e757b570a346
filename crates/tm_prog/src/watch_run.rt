//! A run that observers look at, and what is made of it.

ghost use Rattle.std.specs.Prelude.{◌≡◌, ◌+◌, ◌<◌, ◌^◌, ◌++◌, [], ◌∷◌, length, map, vec_len, IfOk, OnOk, OnErr, IsSome};
ghost use Rattle.tm_irq.specs.Bench.{bench_lists};
ghost use Rattle.tm_live.specs.Drive.{tape_since};
ghost use Rattle.tm_observe.specs.Versions.{AreVersions};
ghost use Rattle.tm_audit.specs.Text.{audit_text};
ghost use Rattle.tm_words.specs.Watch.{IsWatchInRange};
ghost use Rattle.tm_prog.specs.BenchEnds.{RanLive, WasDriven, IsClosedBy};
ghost use Rattle.tm_prog.specs.Gained.{gained};
ghost use Rattle.tm_prog.specs.LiveRoom.{IsRoom};
ghost use Rattle.tm_prog.specs.WatchCommand.{IsWatchMade, puts_under, watch_names};
ghost use Rattle.tm_prog.specs.WatchEnds.{IsPartlyRun};
ghost use Rattle.tm_prog.specs.WatchRun.{IsWatchOpen, AreNewcomers};

use crate::closing::close;
use crate::live_room::put_audit;
use crate::made::{Made, Put, PutName};
use std::alloc::{AllocError, Global};
use std::sync::Wait;
use std::thread::Threads;
use tm_audit::AUDIT_ROOM;
use tm_image::Image;
use tm_io::Gate;
use tm_irq::Bench;
use tm_live::Tape;
use tm_observe::{Looker, Pace, Versions, lookers_of, observe, versions_of};
use tm_plant::Plant;
use tm_watch::Watch;
use tm_words::WatchCommand;

/// A run at boot: a watch and its observers, with room for the tape and for the text of the audit.
pub(crate) struct WatchRun {
    pub(crate) watch: Watch,
    pub(crate) lookers: Vec<Looker>,
    pub(crate) image: Image,
    pub(crate) tape: Tape,
    pub(crate) text: Vec<u8>,
}

impl WatchRun {
    /// A run on the image, of as many slices and with as many observers as are asked for.
    pub(crate) fn open<R: Wait>(
        rt: &R,
        alloc: Global,
        image: Image,
        asked: &WatchCommand,
    ) -> Result<Self, AllocError>
        requires { IsWatchInRange asked.now }
        ensures image { IfOk result (λ run. run.image ≡ image) }
        ensures open { IfOk result (IsWatchOpen asked.now) }
    {
        let tape = Tape::new(alloc, asked.slices)?;
        let text = Vec::with_capacity(alloc, AUDIT_ROOM)?;
        let copy = image.copy(alloc)?;
        let (watch, observers) = Watch::new(rt, alloc, copy, asked.observers)?;
        match lookers_of(alloc, observers) {
            Ok(lookers) => Ok(WatchRun {
                watch,
                lookers,
                image,
                tape,
                text,
            }),
            Err(error) => {
                watch.end(rt);
                Err(error)
            }
        }
    }

    /// Runs it beside the devices of a plant and its observers, ends the watch and closes the bench. What is made goes
    /// under these names. The bench stays open where memory is wanting.
    pub(crate) fn made<'a, R: Threads + Wait + Sync, G: Gate>(
        self,
        rt: &R,
        alloc: Global,
        bench: &mut Bench,
        gate: &G,
        plant: &Plant,
        asked: &WatchCommand,
        names: &'a [PutName],
    ) -> Result<Made<'a>, AllocError>
        requires open { IsSome bench.old.kernel }
        requires seats { vec_len bench.old.devices ≡ 8 }
        requires few { length (bench_lists bench.old).takes < 2 ^ 46 }
        requires range { IsWatchInRange asked.now }
        requires run { IsWatchOpen asked.now self }
        requires names { names.now ≡ watch_names asked.now.prefix asked.now.observers }
        ensures made { IfOk result (IsWatchMade asked.now self.image (tape_since (bench_lists bench.old) (bench_lists bench.new) asked.now.len) (gained bench.old bench.new).audit) }
        ensures names { IfOk result (λ made. map (λ p. p.name) made.puts ≡ names.now) }
        ensures ran { OnOk result (RanLive asked.now.slices plant.now bench.old bench.new) }
        ensures partly { OnErr result (IsPartlyRun asked.now.slices bench.old bench.new) }
    {
        let WatchRun {
            mut watch,
            lookers,
            image,
            mut tape,
            text,
        } = self;
        let versions = seen_of(
            rt, alloc, bench, gate, &mut watch, lookers, &image, &mut tape, plant, asked,
        );
        watch.end(rt);
        let dumps = dumps_of(versions?)?;
        let puts = puts_of(alloc, names, dumps)?;
        Ok(closed(bench, puts, text, asked.slices))
    }
}

/// What the observers saw beside the run, and what was seen after it.
fn seen_of<R: Threads + Wait + Sync, G: Gate>(
    rt: &R,
    alloc: Global,
    bench: &mut Bench,
    gate: &G,
    watch: &mut Watch,
    mut lookers: Vec<Looker>,
    image: &Image,
    tape: &mut Tape,
    plant: &Plant,
    asked: &WatchCommand,
) -> Result<Versions, AllocError>
    requires open { IsSome bench.old.kernel }
    requires seats { vec_len bench.old.devices ≡ 8 }
    requires few { length (bench_lists bench.old).takes < 2 ^ 46 }
    requires range { IsWatchInRange asked.now }
    requires watched { watch.old.image ≡ image.now }
    requires list { watch.old.list ≡ [] }
    requires tape { tape.old ≡ record { slices = []; room = asked.now.slices } }
    requires count { length lookers.items ≡ asked.now.observers }
    requires observers { AreNewcomers watch.old lookers.items }
    ensures seen { IfOk result (AreVersions image.now (tape_since (bench_lists bench.old) (bench_lists bench.new) asked.now.len) asked.now.observers) }
    ensures driven { OnOk result (WasDriven asked.now.slices plant.now (bench_lists bench.old) (bench_lists bench.new)) }
    ensures partly { IsPartlyRun asked.now.slices bench.old bench.new }
{
    plant.attest();
    let pace = Pace {
        slices: asked.slices,
        len: asked.len,
        looks: u32::from(asked.looks),
    };
    observe(
        rt,
        bench,
        watch,
        lookers.as_mut_slice(),
        plant,
        &pace,
        tape,
        gate,
    )?;
    versions_of(rt, alloc, watch, image, lookers.as_mut_slice(), tape)
}

/// The dumps of the versions, that of the whole run last.
fn dumps_of(versions: Versions) -> Result<Vec<Vec<u8>>, AllocError>
    ensures { IfOk result (λ dumps. map (λ bytes. bytes.items) dumps.items ≡ map (λ bytes. bytes.items) versions.beside.items ++ versions.last.items ∷ []) }
{
    let Versions { mut beside, last } = versions;
    beside.push(last)?;
    Ok(beside)
}

/// As many dumps under as many names, one after another.
fn puts_of<'a>(
    alloc: Global,
    names: &'a [PutName],
    mut dumps: Vec<Vec<u8>>,
) -> Result<Vec<Put<'a>>, AllocError>
    requires { length names.now ≡ vec_len dumps }
    ensures puts { IfOk result (λ puts. puts.items ≡ puts_under names.now (map (λ bytes. bytes.items) dumps.items)) }
    ensures names { IfOk result (λ puts. map (λ p. p.name) puts.items ≡ names.now) }
{
    let mut puts = Vec::with_capacity(alloc, names.len())?;
    for name in names {
        puts.push(Put::under(name, dumps.remove(0)))?;
    }
    Ok(puts)
}

/// What is put, and the audit of the closing as the text.
fn closed<'a>(bench: &mut Bench, puts: Vec<Put<'a>>, mut text: Vec<u8>, slices: u32) -> Made<'a>
    requires open { IsSome bench.old.kernel }
    requires room { IsRoom 2048 text }
    ensures puts { result.puts ≡ puts.entry.items }
    ensures text { result.text ≡ audit_text slices (gained bench.old bench.new).audit }
    ensures lists { bench_lists bench.new ≡ bench_lists bench.old }
    ensures closed { IsClosedBy (gained bench.old bench.new).audit bench.new }
{
    let audit = close(bench);
    put_audit(slices, &audit, &mut text);
    Made::new(puts, text)
}
