//! The run recorded, and its window dumped and read again.

ghost use Rattle.std.specs.Prelude.{◌≡◌, [], Ok, IfOk};
ghost use Rattle.tm_image.specs.Image.{ImageView, IsImage, shape_of};
ghost use Rattle.tm_log.specs.WellFormed.{IsWellFormed};
ghost use Rattle.tm_system.specs.Run.{run};
ghost use Rattle.tm_system.specs.WindowOf.{window_of};
ghost use Rattle.tm_record.specs.StandsFor.{StandsFor};
ghost use Rattle.tm_dump.specs.Dump.{dump_bytes};
ghost use Rattle.tm_dump.specs.Reading.{window_in};
ghost use Rattle.tm_make.specs.Script.{make_script};

use crate::generator::{SLICES, next_number, slice_by};
use std::alloc::{AllocError, Global};
use tm_dump::{DumpFault, read_dump, write_dump};
use tm_image::Image;
use tm_log::Window;
use tm_record::Recorder;

/// The recorder of the whole run that a number makes on an image.
pub(crate) fn record(alloc: Global, image: Image, number: u32) -> Result<Recorder, AllocError>
    requires { IsImage image }
    ensures image { IfOk result (λ recorder. recorder.image ≡ image) }
    ensures window { IfOk result (λ recorder. recorder.window ≡ window_of image (run image (make_script number))) }
    ensures formed { IfOk result (λ recorder. IsWellFormed recorder.window (shape_of image)) }
{
    let mut recorder = Recorder::open(alloc, image)?;
    play(number, &mut recorder);
    recorder.window().attest();
    Ok(recorder)
}

/// The slices that a number makes, from boot.
fn play(number: u32, recorder: &mut Recorder)
    requires booted { recorder.old.slices ≡ 0 }
    ensures { (image : ImageView) → StandsFor image recorder.old [] → StandsFor image recorder.new (make_script number) }
{
    let mut last = number;
    for _ in 0..SLICES {
        last = next_number(last);
        recorder.slice(&slice_by(last));
    }
}

/// A window of an image, dumped in memory and read again. Its dump is one that is read.
pub(crate) fn read_again(
    alloc: Global,
    image: &Image,
    window: &Window,
) -> Result<Window, AllocError>
    requires { window_in (shape_of image.now) (dump_bytes window.now) ≡ Ok window.now }
    ensures { IfOk result (λ read. read ≡ window.now) }
{
    let mut bytes = Vec::new(alloc);
    write_dump(window, &mut bytes)?;
    match read_dump(alloc, bytes.as_slice(), image) {
        Ok(read) => Ok(read),
        Err(DumpFault::Memory) => Err(AllocError),
        Err(_) => unreachable!(),
    }
}
