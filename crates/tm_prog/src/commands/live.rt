//! `live IMAGE PLANT DUMP --slices N --len L [--tape NAME]`

ghost use Rattle.std.specs.Prelude.{◌≡◌, ℕ, ◌+◌, ◌*◌, ◌<◌, ◌≤◌, ◌^◌, ◌++◌, List, [], ◌∷◌, map, length, IfOk, OnOk, OnErr, IsSome, vec_len, vec_capacity};
ghost use Rattle.tm_image.specs.Image.{ImageView};
ghost use Rattle.tm_marker.specs.declared.entries.Slice.{Slice};
ghost use Rattle.tm_plant.specs.Tape.{tape_text};
ghost use Rattle.tm_irq.specs.Bench.{bench_lists};
ghost use Rattle.tm_live.specs.Kernel.{GoesOnBy};
ghost use Rattle.tm_live.specs.Drive.{tape_since};
ghost use Rattle.tm_log.specs.Window.{dump_bound};
ghost use Rattle.tm_record.specs.StandsFor.{StandsFor};
ghost use Rattle.tm_prog.specs.BenchEnds.{WasDriven, IsClosedBy, RanLive, RanPlant};
ghost use Rattle.tm_prog.specs.Files.{plant_in};
ghost use Rattle.tm_prog.specs.Gained.{gained};
ghost use Rattle.tm_prog.specs.LiveCommand.{tape_put, live_of, live_made};
ghost use Rattle.tm_prog.specs.LiveRoom.{IsRoom, HasRooms, IsOpen};
ghost use Rattle.tm_prog.specs.MadeFor.{tape_name};
ghost use Rattle.tm_prog.specs.Reads.{Reads};

use crate::Status;
use crate::closing::close;
use crate::files::read_file;
use crate::live_room::{LiveRoom, LiveRun, put_audit, put_dump, put_tape};
use crate::made::{Made, Put};
use std::alloc::Global;
use std::thread::Threads;
use tm_image::Image;
use tm_io::{Gate, Shelf};
use tm_irq::{Audit, Bench};
use tm_live::{Tape, drive};
use tm_plant::Plant;
use tm_record::Recorder;
use tm_words::Name;

/// How much is run, and what is put under which names.
#[derive(Drop)]
pub(crate) struct Asked<'a> {
    pub(crate) dump: &'a Name,
    pub(crate) slices: u32,
    pub(crate) len: u32,
    pub(crate) tape: &'a Option<Name>,
}

/// Runs the slices beside the devices of the plant, and makes the dump, the tape and the audit. All memory is
/// taken before the first slice.
pub(crate) fn live<'a, F: Shelf, G: Gate>(
    rt: &(impl Threads + Sync),
    alloc: Global,
    shelf: &mut F,
    bench: &mut Bench,
    gate: &G,
    image: &Name,
    plant: &Name,
    asked: &Asked<'a>,
) -> Result<Made<'a>, Status>
    requires open { IsSome bench.old.kernel }
    requires seats { vec_len bench.old.devices ≡ 8 }
    requires few { length (bench_lists bench.old).takes < 2 ^ 46 }
    requires range { (asked.now.slices ≤ 1048576) × (asked.now.len ≤ 1048576) }
    ensures reads { Reads (live_made (F.seen shelf.old).content image.now plant.now asked.entry.now.dump.now asked.entry.now.slices asked.entry.now.len asked.entry.now.tape.now (gained bench.old bench.new)) (F.seen shelf.old) (F.seen shelf.new) result }
    ensures names { IfOk result (λ made. map (λ p. p.name) made.puts ≡ asked.entry.now.dump.now ∷ tape_name asked.entry.now.tape.now) }
    ensures ran { OnOk result (RanPlant asked.entry.now.slices (plant_in ((F.seen shelf.old).content plant.now)) (F.seen shelf.old).tells bench.old bench.new) }
    ensures rests { OnErr result (bench.new ≡ bench.old) }
{
    let image: Image = match read_file(alloc, shelf, 1, image, &()) {
        Ok(image) => image,
        Err(status) => return Err(status),
    };
    let plant: Plant = match read_file(alloc, shelf, 2, plant, &()) {
        Ok(plant) => plant,
        Err(status) => return Err(status),
    };
    let Ok(puts) = Vec::with_capacity(alloc, 2) else {
        return Err(Status::Memory);
    };
    match LiveRun::open(alloc, image, asked.slices) {
        Ok(run) => Ok(run_live(rt, bench, gate, run, &plant, puts, asked)),
        Err(_) => Err(Status::Memory),
    }
}

/// The run beside the devices of a plant, and what it makes.
fn run_live<'a, G: Gate>(
    rt: &(impl Threads + Sync),
    bench: &mut Bench,
    gate: &G,
    run: LiveRun,
    plant: &Plant,
    puts: Vec<Put<'a>>,
    asked: &Asked<'a>,
) -> Made<'a>
    requires open { IsSome bench.old.kernel }
    requires seats { vec_len bench.old.devices ≡ 8 }
    requires few { length (bench_lists bench.old).takes < 2 ^ 46 }
    requires range { (asked.now.slices ≤ 1048576) × (asked.now.len ≤ 1048576) }
    requires run { (image : ImageView) × IsOpen image asked.now.slices run }
    requires puts { IsRoom 2 puts }
    ensures made { (image : ImageView) → IsOpen image asked.entry.now.slices run →
        result ≡ live_of image asked.entry.now.dump.now asked.entry.now.slices asked.entry.now.tape.now
        (tape_since (bench_lists bench.old) (bench_lists bench.new) asked.entry.now.len) (gained bench.old bench.new).audit }
    ensures names { map (λ p. p.name) result.puts ≡ asked.entry.now.dump.now ∷ tape_name asked.entry.now.tape.now }
    ensures ran { RanLive asked.entry.now.slices plant.now bench.old bench.new }
{
    let LiveRun {
        mut recorder,
        mut tape,
        room,
    } = run;
    let audit = run_beside(
        rt,
        bench,
        &mut recorder,
        plant,
        asked.slices,
        asked.len,
        &mut tape,
        gate,
    );
    made_from(&recorder, &tape, &audit, puts, room, asked)
}

/// The slices beside the devices, and then the closing.
fn run_beside<G: Gate>(
    rt: &(impl Threads + Sync),
    bench: &mut Bench,
    recorder: &mut Recorder,
    plant: &Plant,
    slices: u32,
    len: u32,
    tape: &mut Tape,
    gate: &G,
) -> Audit
    requires open { IsSome bench.old.kernel }
    requires seats { vec_len bench.old.devices ≡ 8 }
    requires few { length (bench_lists bench.old).takes < 2 ^ 46 }
    requires short { len ≤ 1048576 }
    requires room { slices ≤ tape.old.room }
    requires allowed { recorder.old.slices + slices < 2 ^ 32 }
    ensures driven { WasDriven slices plant.now (bench_lists bench.old) (bench_lists bench.new) }
    ensures closed { IsClosedBy result bench.new }
    ensures tape { tape.new.slices ≡ tape.old.slices ++ tape_since (bench_lists bench.old) (bench_lists bench.new) len }
    ensures stands { GoesOnBy (tape_since (bench_lists bench.old) (bench_lists bench.new) len) recorder.old recorder.new }
    ensures slices { recorder.new.slices ≡ recorder.old.slices + slices }
{
    plant.attest();
    drive(rt, bench, recorder, plant, slices, len, tape, gate);
    close(bench)
}

/// What a run has made, by its recorder, its tape and its audit.
#[tactic(auto, unfolding(crate::specs::LiveCommand::live_of))]
fn made_from<'a>(
    recorder: &Recorder,
    tape: &Tape,
    audit: &Audit,
    puts: Vec<Put<'a>>,
    mut room: LiveRoom,
    asked: &Asked<'a>,
) -> Made<'a>
    requires room { HasRooms (dump_bound recorder.now.window.shape) (length tape.now.slices) room }
    requires puts { IsRoom 2 puts }
    ensures made { (image : ImageView) → StandsFor image recorder.now tape.now.slices →
        result ≡ live_of image asked.entry.now.dump.now asked.entry.now.slices asked.entry.now.tape.now tape.now.slices audit.now }
    ensures names { map (λ p. p.name) result.puts ≡ asked.entry.now.dump.now ∷ tape_name asked.entry.now.tape.now }
{
    put_dump(recorder, &mut room.dump);
    put_tape(tape, &mut room.tape);
    put_audit(asked.slices, audit, &mut room.audit);
    made_of(puts, room, asked)
}

/// The dump under its name, then the tape where it has one, and the audit as the text.
fn made_of<'a>(mut puts: Vec<Put<'a>>, room: LiveRoom, asked: &Asked<'a>) -> Made<'a>
    requires { IsRoom 2 puts }
    ensures names { map (λ p. p.name) result.puts ≡ asked.entry.now.dump.now ∷ tape_name asked.entry.now.tape.now }
    ensures made { (tape : List Slice) → room.tape.items ≡ tape_text tape →
        result ≡ record { puts = record { name = asked.entry.now.dump.now; bytes = room.dump.items } ∷ tape_put asked.entry.now.tape.now tape; text = room.audit.items } }
{
    let LiveRoom { dump, tape, audit } = room;
    // There is room for both, so neither push can fail.
    let _ = puts.push(Put::new(asked.dump, dump));
    if let Some(name) = asked.tape {
        let _ = puts.push(Put::new(name, tape));
    }
    Made::new(puts, audit)
}
