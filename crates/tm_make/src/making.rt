//! The whole of it: from a number to its summary.

ghost use Rattle.std.specs.Prelude.{◌≡◌, Ok, IfOk, IfErr};
ghost use Rattle.tm_image.specs.Image.{IsImage, shape_of};
ghost use Rattle.tm_log.specs.WellFormed.{IsWellFormed};
ghost use Rattle.tm_system.specs.Run.{run};
ghost use Rattle.tm_system.specs.WindowOf.{window_of};
ghost use Rattle.tm_widths.specs.Numbers.{FitsImage};
ghost use Rattle.tm_make.specs.Script.{make_script};
ghost use Rattle.tm_make.specs.Summary.{summary_of};
ghost use Rattle.tm_make.specs.Making.{make_text, make_of, Refuses};

use crate::cell::CELL;
use crate::fault::MakeFault;
use crate::generator::SLICES;
use crate::recorded::{read_again, record};
use crate::replayed::length_from;
use crate::summary::{Summary, summary_text};
use std::alloc::{AllocError, Global};
use std::thread::Threads;
use tm_image::{Image, read_image};
use tm_io::Gate;
use tm_log::Window;
use tm_points::points;

/// The summary of the large run that a number makes on the image [`CELL`]. The run is recorded, its dump is
/// written in memory and read again, and the replay goes from the least point from which there is one.
///
/// # Errors
///
/// `Image` exactly where the text of the image is refused; `Memory` where there is too little memory.

pub fn make<G: Gate>(
    rt: &(impl Threads + Sync),
    alloc: Global,
    number: u32,
    gate: &G,
) -> Result<Vec<u8>, MakeFault>
    ensures made { IfOk result (λ text. make_of number ≡ Ok text.items) }
    ensures refused { IfErr result (λ fault. Refuses fault (make_of number)) }
{
    let image = read_image(alloc, CELL.as_bytes())?;
    let text = make_on(rt, alloc, image, number, gate)?;
    Ok(text)
}

/// The summary of the run that a number makes on an image, as text.
fn make_on<G: Gate>(
    rt: &(impl Threads + Sync),
    alloc: Global,
    image: Image,
    number: u32,
    gate: &G,
) -> Result<Vec<u8>, AllocError>
    requires sound { IsImage image }
    requires fits { FitsImage image }
    ensures { IfOk result (λ text. text.items ≡ make_text image number) }
{
    let recorder = record(alloc, image, number)?;
    let window = read_again(alloc, recorder.image(), recorder.window())?;
    let summary = summarize(rt, alloc, number, recorder.image(), &window, gate)?;
    summary_text(alloc, &summary)
}

/// The summary of the run that a number makes on an image, from the window of the run.
fn summarize<G: Gate>(
    rt: &(impl Threads + Sync),
    alloc: Global,
    number: u32,
    image: &Image,
    window: &Window,
    gate: &G,
) -> Result<Summary, AllocError>
    requires sound { IsImage image.now }
    requires of_run { window.now ≡ window_of image.now (run image.now (make_script number)) }
    requires formed { IsWellFormed window.now (shape_of image.now) }
    ensures { IfOk result (λ summary. summary ≡ summary_of image.now number) }
{
    let points = points(rt, alloc, window)?;
    let least = points.as_slice().first().copied();
    Ok(Summary {
        number,
        slices: SLICES,
        entries: window.control().total(),
        points: points.as_slice().len() as u64,
        least,
        bytes: length_from(rt, alloc, window, image, least, gate)?,
    })
}
