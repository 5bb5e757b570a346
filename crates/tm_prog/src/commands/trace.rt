//! `trace IMAGE PLAN`

ghost use Rattle.std.specs.Prelude.{◌≡◌, [], IfOk};
ghost use Rattle.tm_prog.specs.TraceCommand.{trace_made};
ghost use Rattle.tm_prog.specs.Reads.{Reads};

use crate::Status;
use crate::files::read_file;
use crate::made::Made;
use crate::trace::trace as text_of_run;
use std::alloc::Global;
use tm_image::{Image, Plan};
use tm_io::Shelf;
use tm_words::Name;

/// Makes the text of the whole run of the plan on the image.
pub(crate) fn trace<'a, F: Shelf>(
    alloc: Global,
    shelf: &mut F,
    image: &Name,
    plan: &Name,
) -> Result<Made<'a>, Status>
    ensures reads { Reads (trace_made (F.seen shelf.old).content image.now plan.now) (F.seen shelf.old) (F.seen shelf.new) result }
    ensures puts { IfOk result (λ made. made.puts ≡ []) }
{
    let image: Image = match read_file(alloc, shelf, 1, image, &()) {
        Ok(image) => image,
        Err(status) => return Err(status),
    };
    let plan: Plan = match read_file(alloc, shelf, 2, plan, &()) {
        Ok(plan) => plan,
        Err(status) => return Err(status),
    };
    match text_of_run(alloc, &image, &plan) {
        Ok(text) => Ok(Made::text_alone(alloc, text)),
        Err(_) => Err(Status::Memory),
    }
}
