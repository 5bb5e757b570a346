//! `points IMAGE DUMP`

ghost use Rattle.std.specs.Prelude.{◌≡◌, ◌++◌, [], IfOk, OnOk};
ghost use Rattle.std.specs.List.{flat_map};
ghost use Rattle.tm_prog.specs.PointsCommand.{points_made, point_line};
ghost use Rattle.tm_prog.specs.Reads.{Reads};

use crate::Status;
use crate::digits::put_decimal;
use crate::files::read_file;
use crate::made::Made;
use std::alloc::{AllocError, Global};
use std::thread::Threads;
use tm_image::Image;
use tm_io::Shelf;
use tm_log::Window;
use tm_points::points as points_of;
use tm_words::Name;

/// Makes the list of the points from which the dump can be replayed.
pub(crate) fn points<'a, F: Shelf>(
    rt: &(impl Threads + Sync),
    alloc: Global,
    shelf: &mut F,
    image: &Name,
    dump: &Name,
) -> Result<Made<'a>, Status>
    ensures reads { Reads (points_made (F.seen shelf.old).content image.now dump.now) (F.seen shelf.old) (F.seen shelf.new) result }
    ensures puts { IfOk result (λ made. made.puts ≡ []) }
{
    let image: Image = match read_file(alloc, shelf, 1, image, &()) {
        Ok(image) => image,
        Err(status) => return Err(status),
    };
    let window: Window = match read_file(alloc, shelf, 2, dump, &image) {
        Ok(window) => window,
        Err(status) => return Err(status),
    };
    let Ok(accepted) = points_of(rt, alloc, &window) else {
        return Err(Status::Memory);
    };
    match lines_of(alloc, accepted.as_slice()) {
        Ok(text) => Ok(Made::text_alone(alloc, text)),
        Err(_) => Err(Status::Memory),
    }
}

/// Each point in a line of its own.
fn lines_of(alloc: Global, points: &[u64]) -> Result<Vec<u8>, AllocError>
    ensures { IfOk result (λ text. text.items ≡ flat_map point_line points.now) }
{
    let mut text = Vec::new(alloc);
    for point in points {
        put_line(*point, &mut text)?;
    }
    Ok(text)
}

/// Appends a point in a line of its own, or a part of the line where memory is wanting.
fn put_line(point: u64, text: &mut Vec<u8>) -> Result<(), AllocError>
    ensures { OnOk result (text.new.items ≡ text.old.items ++ point_line point) }
{
    put_decimal(point, text)?;
    text.extend_from_slice(b"\n")
}
