//! The memory of what a live run makes, taken before its first slice.

ghost use Rattle.std.specs.Prelude.{◌≡◌, ◌+◌, ◌*◌, ◌≤◌, ℕ, List, IfOk, [], length};
ghost use Rattle.tm_marker.specs.declared.entries.Slice.{Slice};
ghost use Rattle.tm_image.specs.Image.{ImageView};
ghost use Rattle.tm_plant.specs.Tape.{tape_text};
ghost use Rattle.tm_audit.specs.Text.{audit_text};
ghost use Rattle.tm_log.specs.Window.{dump_bound};
ghost use Rattle.tm_record.specs.StandsFor.{StandsFor};
ghost use Rattle.tm_prog.specs.RecordCommand.{dump_of_run};
ghost use Rattle.tm_prog.specs.LiveRoom.{IsRoom, HasRooms, IsOpen};

use std::alloc::{AllocError, Global};
use tm_audit::{AUDIT_ROOM, write_audit};
use tm_dump::write_dump;
use tm_image::Image;
use tm_irq::Audit;
use tm_live::Tape;
use tm_plant::plan_text;
use tm_record::Recorder;

/// The most bytes of the first line of a tape, and of each line below it.
const TAPE_HEADER: usize = 9;

const TAPE_LINE: usize = 65;

/// The bytes of the dump, of the tape and of the audit: empty at first, with room for the whole.
#[derive(Drop)]
pub(crate) struct LiveRoom {
    pub(crate) dump: Vec<u8>,
    pub(crate) tape: Vec<u8>,
    pub(crate) audit: Vec<u8>,
}

impl LiveRoom {
    /// Room for a dump of so many bytes and a tape of so many slices.
    pub(crate) fn take(alloc: Global, dump_bound: u64, slices: u32) -> Result<Self, AllocError>
        requires { slices ≤ 1048576 }
        ensures { IfOk result (HasRooms dump_bound slices) }
    {
        Ok(LiveRoom {
            dump: Vec::with_capacity(alloc, dump_bound as usize)?,
            tape: Vec::with_capacity(alloc, TAPE_HEADER + TAPE_LINE * slices as usize)?,
            audit: Vec::with_capacity(alloc, AUDIT_ROOM)?,
        })
    }
}

/// A run at boot, with all the memory that it and what it makes need.
#[derive(Drop)]
pub(crate) struct LiveRun {
    pub(crate) recorder: Recorder,
    pub(crate) tape: Tape,
    pub(crate) room: LiveRoom,
}

impl LiveRun {
    /// A run of so many slices on the image.
    pub(crate) fn open(alloc: Global, image: Image, slices: u32) -> Result<Self, AllocError>
        requires { slices ≤ 1048576 }
        ensures { IfOk result (IsOpen image slices) }
    {
        let recorder = Recorder::open(alloc, image)?;
        let tape = Tape::new(alloc, slices)?;
        let room = LiveRoom::take(alloc, recorder.window().dump_bound(), slices)?;
        Ok(LiveRun {
            recorder,
            tape,
            room,
        })
    }
}

/// The dump of the run that the recorder stands for.
pub(crate) fn put_dump(recorder: &Recorder, room: &mut Vec<u8>)
    requires { IsRoom (dump_bound recorder.now.window.shape) room.old }
    ensures { (image : ImageView) (script : List Slice) → StandsFor image recorder.now script →
        room.new.items ≡ dump_of_run image script }
{
    // An image and a window keep what their types say.
    let image = recorder.image();
    image.attest();
    let window = recorder.window();
    window.attest();
    match write_dump(window, room) {
        Ok(()) => (),
        Err(_) => unreachable!(),
    }
}

/// The text of the tape.
pub(crate) fn put_tape(tape: &Tape, room: &mut Vec<u8>)
    requires { IsRoom (9 + 65 * length tape.now.slices) room.old }
    ensures { room.new.items ≡ tape_text tape.now.slices }
{
    match plan_text(tape.slices(), room) {
        Ok(()) => (),
        Err(_) => unreachable!(),
    }
}

/// The text of the audit of so many slices.
pub(crate) fn put_audit(slices: u32, audit: &Audit, room: &mut Vec<u8>)
    requires { IsRoom 2048 room.old }
    ensures { room.new.items ≡ audit_text slices audit.now }
{
    match write_audit(slices, audit, room) {
        Ok(()) => (),
        Err(_) => unreachable!(),
    }
}
