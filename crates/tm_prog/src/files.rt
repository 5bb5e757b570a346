//! How the files that a call names are got and read.

ghost use Rattle.std.specs.Prelude.{◌≡◌, ℕ, ◌^◌, ◌<◌, ◌≤◌, List, Result, length, IfOk};
ghost use Rattle.tm_marker.specs.declared.shape.TheConstants.{MOST_WORDS};
ghost use Rattle.tm_prog.specs.declared.status.Status.{Status};
ghost use Rattle.tm_prog.specs.Files.{image_status, plan_status, dump_status, elf_status};
ghost use Rattle.tm_prog.specs.Reads.{CanRefuse, Reads, Says, file_in};

use crate::Status;
use crate::limits::{DUMP_LIMIT, ELF_LIMIT, IMAGE_LIMIT, PLAN_LIMIT};
use std::alloc::Global;
use std::marker::Model;
use tm_dump::{DumpFault, read_dump};
use tm_elf::{ElfFault, read_elf};
use tm_image::{Image, ImageFault, Loaded, Plan, PlanFault, Reason, read_image, read_plan};
use tm_io::{GetFault, Shelf};
use tm_log::Window;
use tm_plant::{Plant, read_plant};
use tm_rv::Set;
use tm_words::Name;

/// A kind of file: how long one may be, and what its bytes say, beside what was read before it.
pub(crate) trait FileKind<C> {
    ghost LIMIT: { ℕ };

    /// The most bytes of such a file.
    const LIMIT: u64;

    // The value that the bytes spell, or the status that refuses them.
    ghost reading: { C → List ℕ → Result Self Status };

    // What each value keeps.
    ghost sound: { C → Self → Type 0 };

    fn read(alloc: Global, beside: &C, bytes: &[u8]) -> Result<Self, Status>
        requires { length bytes.now ≤ LIMIT }
        ensures read { Says (reading beside.now bytes.now) result }
        ensures sound { IfOk result (sound beside.now) };
}

/// The status for an image's text that was not read.
fn image_status(fault: ImageFault) -> Status
    ensures { result ≡ image_status fault fault.reason }
{
    match fault.reason {
        Reason::Memory => Status::Memory,
        _ => Status::Image(fault),
    }
}

/// The status for the text of a plan or a plant that was not read.
fn plan_status(fault: PlanFault) -> Status
    ensures { result ≡ plan_status fault fault.reason }
{
    match fault.reason {
        Reason::Memory => Status::Memory,
        _ => Status::Plan(fault),
    }
}

/// The status for a dump that was not read.
fn dump_status(fault: DumpFault) -> Status
    ensures { result ≡ dump_status fault }
{
    match fault {
        DumpFault::Memory => Status::Memory,
        _ => Status::Dump(fault),
    }
}

/// The status for an executable that was not read.
fn elf_status(fault: ElfFault) -> Status
    ensures { result ≡ elf_status fault }
{
    match fault {
        ElfFault::Memory => Status::Memory,
        _ => Status::Elf(fault),
    }
}

impl FileKind<()> for Image {
    ghost use Rattle.tm_image.specs.Image.{IsImage};
    ghost use Rattle.tm_prog.specs.declared.limits.TheConstants.{IMAGE_LIMIT};
    ghost use Rattle.tm_prog.specs.Files.{image_said};

    ghost LIMIT = { IMAGE_LIMIT };

    const LIMIT: u64 = IMAGE_LIMIT;

    ghost reading = { λ _. image_said };

    ghost sound = { λ _. IsImage };

    fn read(alloc: Global, _beside: &(), bytes: &[u8]) -> Result<Image, Status> {
        read_image(alloc, bytes).map_err(image_status)
    }
}

impl FileKind<()> for Plan {
    ghost use Rattle.std.specs.Prelude.{length, ◌^◌, ◌<◌};
    ghost use Rattle.tm_prog.specs.declared.limits.TheConstants.{PLAN_LIMIT};
    ghost use Rattle.tm_prog.specs.Files.{script_said};

    ghost LIMIT = { PLAN_LIMIT };

    const LIMIT: u64 = PLAN_LIMIT;

    ghost reading = { λ _. script_said };

    ghost sound = { λ _ plan. length plan < 2 ^ 32 };

    fn read(alloc: Global, _beside: &(), bytes: &[u8]) -> Result<Plan, Status> {
        read_plan(alloc, bytes).map_err(plan_status)
    }
}

impl FileKind<()> for Plant {
    ghost use Rattle.tm_plant.specs.Plant.{IsPlant};
    ghost use Rattle.tm_prog.specs.declared.limits.TheConstants.{PLAN_LIMIT};
    ghost use Rattle.tm_prog.specs.Files.{plant_said};

    ghost LIMIT = { PLAN_LIMIT };

    const LIMIT: u64 = PLAN_LIMIT;

    ghost reading = { λ _. plant_said };

    ghost sound = { λ _. IsPlant };

    fn read(alloc: Global, _beside: &(), bytes: &[u8]) -> Result<Plant, Status> {
        read_plant(alloc, bytes).map_err(plan_status)
    }
}

// A dump is read beside its image.
impl FileKind<Image> for Window {
    ghost use Rattle.tm_log.specs.WellFormed.{IsWellFormed};
    ghost use Rattle.tm_image.specs.Image.{shape_of};
    ghost use Rattle.tm_prog.specs.declared.limits.TheConstants.{DUMP_LIMIT};
    ghost use Rattle.tm_prog.specs.Files.{window_said};

    ghost LIMIT = { DUMP_LIMIT };

    const LIMIT: u64 = DUMP_LIMIT;

    ghost reading = { window_said };

    ghost sound = { λ image window. IsWellFormed window (shape_of image) };

    fn read(alloc: Global, image: &Image, bytes: &[u8]) -> Result<Window, Status> {
        match read_dump(alloc, bytes, image) {
            Ok(window) => Ok(window),
            Err(fault) => Err(dump_status(fault)),
        }
    }
}

/// What a task keeps when it is loaded from something else: so many data words at least, 1 to 16,384, and the
/// set of instructions that its text may have.
#[derive(Debug, Drop)]
pub(crate) struct Keeps {
    least: u32,
    set: Set,
}

impl Model for Keeps {
    ghost use Rattle.std.specs.Prelude.{ℕ, ◌≤◌};
    ghost use Rattle.tm_marker.specs.declared.shape.TheConstants.{MOST_WORDS};
    ghost use Rattle.tm_rv.specs.declared.instr.Set.{Set};

    ghost Value = { ℕ × Set };

    ghost view = { λ keeps. (keeps.least, keeps.set) };

    ghost invariant = { λ keeps. (1 ≤ keeps.least) × (keeps.least ≤ MOST_WORDS) };
}

impl Keeps {
    pub(crate) fn new(least: u32, set: Set) -> Keeps
        requires some { 1 ≤ least }
        requires few { least ≤ MOST_WORDS }
        ensures { result ≡ (least, set) }
    {
        Keeps { least, set }
    }
}

// An executable is read beside what its task keeps.
impl FileKind<Keeps> for Loaded {
    ghost use Rattle.std.specs.Prelude.{◌≡◌};
    ghost use Rattle.tm_image.specs.Image.{IsLoad};
    ghost use Rattle.tm_prog.specs.declared.limits.TheConstants.{ELF_LIMIT};
    ghost use Rattle.tm_prog.specs.Files.{loaded_said};

    ghost LIMIT = { ELF_LIMIT };

    const LIMIT: u64 = ELF_LIMIT;

    ghost reading = { loaded_said };

    ghost sound = { λ keeps load. IsLoad load × (load.set ≡ keeps.1) };

    fn read(alloc: Global, keeps: &Keeps, bytes: &[u8]) -> Result<Loaded, Status> {
        read_elf(alloc, bytes, keeps.least, keeps.set).map_err(elf_status)
    }
}

/// What the file with this number, from 1, says.
pub(crate) fn read_file<V: FileKind<C>, C, F: Shelf>(
    alloc: Global,
    shelf: &mut F,
    number: u8,
    name: &Name,
    beside: &C,
) -> Result<V, Status>
    requires { CanRefuse (Status.TooLong number) }
    ensures read { Reads (file_in V.LIMIT number (V.reading beside.now) ((F.seen shelf.old).content name.now)) (F.seen shelf.old) (F.seen shelf.new) result }
    ensures sound { IfOk result (V.sound beside.now) }
{
    let mut bytes = Vec::new(alloc);
    match shelf.get(name.text(), V::LIMIT, &mut bytes) {
        Ok(()) => V::read(alloc, beside, bytes.as_slice()),
        Err(GetFault::Failed) => Err(Status::ReadFault),
        Err(GetFault::TooLong) => Err(Status::TooLong(number)),
        Err(GetFault::Memory) => Err(Status::Memory),
    }
}
