//! A run of a script in a recorder of its own.

ghost use Rattle.std.specs.Prelude.{◌≡◌, ◌^◌, ◌<◌, [], All, IfOk, length};
ghost use Rattle.tm_image.specs.Image.{ImageView};
ghost use Rattle.tm_image.specs.Plan.{IsSlice};
ghost use Rattle.tm_record.specs.StandsFor.{StandsFor};
ghost use Rattle.tm_run_dump.specs.RunDump.{dump_of_run};

use std::alloc::{AllocError, Global};
use tm_dump::write_dump;
use tm_image::Image;
use tm_marker::Slice;
use tm_record::Recorder;

/// The dump of the window of a script's whole run, from boot. The script has fewer than 2^32 slices, each of at
/// most 1,048,576 instructions.
pub fn run_dump(alloc: Global, image: Image, slices: &[Slice]) -> Result<Vec<u8>, AllocError>
    requires few { length slices.now < 2 ^ 32 }
    requires sound { All IsSlice slices.now }
    ensures { IfOk result (λ bytes. bytes.items ≡ dump_of_run image slices.now) }
{
    // An image and a window keep what their types say.
    let _tasks = image.tasks();
    let mut recorder = Recorder::open(alloc, image)?;
    play(slices, &mut recorder);
    let window = recorder.window();
    let _window = window.tasks();
    let mut bytes = Vec::new(alloc);
    write_dump(window, &mut bytes)?;
    Ok(bytes)
}

/// All slices of a script, from boot.
fn play(slices: &[Slice], recorder: &mut Recorder)
    requires few { length slices.now < 2 ^ 32 }
    requires slices { All IsSlice slices.now }
    requires booted { recorder.old.slices ≡ 0 }
    ensures { (image : ImageView) → StandsFor image recorder.old [] → StandsFor image recorder.new slices.now }
{
    for index in 0..slices.len() {
        recorder.slice(&slices[index]);
    }
}
