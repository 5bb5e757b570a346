//! Reading a dump.

ghost use Rattle.std.specs.Prelude.{◌≡◌, ◌+◌, ◌≤◌, length, Ok};
ghost use Rattle.tm_marker.specs.Shape.{IsShape};
ghost use Rattle.tm_image.specs.Image.{shape_of};
ghost use Rattle.tm_dump.specs.Dump.{closing_digest};
ghost use Rattle.tm_dump.specs.Cursor.{Gives};
ghost use Rattle.tm_dump.specs.Reading.{fields_in, inside, behind_version, enclosed, window_in};

mod checkpoints;
mod cursor;
mod entries;
mod rings;
mod tail;
mod tasks;

use crate::DumpFault;
use crate::body::MAGIC;
use crate::widths::{DIGEST_BYTES, MAGIC_BYTES};
use crate::write::closing_digest;
use cursor::Cursor;
use rings::read_ring;
use std::alloc::Global;
use tail::{exactly, read_tail};
use tasks::read_tasks;
use tm_image::Image;
use tm_log::Window;
use tm_marker::{OutputEntry, Shape, Switch};
use tm_ring::Ring;

/// All fields behind the image's digest.
fn read_fields(alloc: Global, shape: &Shape, at: &mut Cursor<'_>) -> Result<Window, DumpFault>
    requires { IsShape shape.now }
    ensures { Gives (λ window. (window, at.new)) result (fields_in shape.now at.old) }
{
    let tasks = exactly(shape.words.len() as u8, at)?;
    let control: Ring<Switch> = read_ring(alloc, tasks, shape.caps.control, at)?;
    let outputs: Ring<OutputEntry> = read_ring(alloc, tasks, shape.caps.outputs, at)?;
    let lists = read_tasks(alloc, shape, &control, at)?;
    let tail = read_tail(alloc, &control, lists.checks.as_slice(), at)?;
    let shape = shape.copied(alloc)?;
    Ok(Window::from_parts(shape, control, outputs, lists.logs, lists.checks, tail))
}

/// The fields behind the image's digest, and no byte more.
fn read_inside(alloc: Global, shape: &Shape, bytes: &[u8]) -> Result<Window, DumpFault>
    requires { IsShape shape.now }
    ensures { Gives (λ window. window) result (inside shape.now bytes.now) }
{
    let mut at = Cursor::new(MAGIC_BYTES + DIGEST_BYTES, bytes);
    let window = read_fields(alloc, shape, &mut at)?;
    if at.left() == 0 {
        Ok(window)
    } else {
        Err(DumpFault::Extra { place: at.place() })
    }
}

/// All between the version and the closing digest.
fn read_behind_version(alloc: Global, shape: &Shape, bytes: &[u8]) -> Result<Window, DumpFault>
    requires { IsShape shape.now }
    ensures { Gives (λ window. window) result (behind_version shape.now bytes.now) }
{
    let Some((image, rest)) = bytes.split_first_chunk::<32>() else {
        return Err(DumpFault::Field { place: MAGIC_BYTES });
    };
    if *image != shape.image {
        return Err(DumpFault::OtherImage {
            found: *image,
            wanted: shape.image,
        });
    }
    read_inside(alloc, shape, rest)
}

/// The bytes between the version and the closing digest.
fn enclosed(bytes: &[u8]) -> Result<&[u8], DumpFault>
    ensures { Gives (λ within. within.now) result (enclosed bytes.now) }
{
    if (bytes.len() as u64) < MAGIC_BYTES + DIGEST_BYTES || bytes[..4] != MAGIC[..4] {
        return Err(DumpFault::Magic);
    }
    if bytes[4] != 1 {
        return Err(DumpFault::Version(bytes[4]));
    }
    let Some((body, found)) = bytes.split_last_chunk::<32>() else {
        return Err(DumpFault::Magic);
    };
    let computed = closing_digest(body);
    if *found != computed {
        return Err(DumpFault::Digest {
            found: *found,
            computed,
        });
    }
    Ok(&body[MAGIC.len()..])
}

/// The window of which these bytes are the dump, where they are the dump of a window of the image that a
/// run could have left.
///
/// # Errors
///
/// The first that is wrong, in the order of [`DumpFault`]; `Memory` where there is too little memory for
/// the window.
#[tactic(auto, unfolding(crate::specs::Reading::window_in))]
pub fn read_dump(alloc: Global, bytes: &[u8], image: &Image) -> Result<Window, DumpFault>
    ensures read { Gives (λ window. window) result (window_in (shape_of image.now) bytes.now) }
{
    let within = enclosed(bytes)?;
    read_behind_version(alloc, image.shape(), within)
}
