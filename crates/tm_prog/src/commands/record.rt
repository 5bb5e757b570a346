//! `record IMAGE PLAN DUMP`

ghost use Rattle.std.specs.Prelude.{◌≡◌, [], ◌∷◌, map, IfOk};
ghost use Rattle.tm_prog.specs.RecordCommand.{record_made};
ghost use Rattle.tm_prog.specs.Reads.{Reads};

use crate::Status;
use crate::files::read_file;
use crate::made::Made;
use std::alloc::Global;
use tm_image::{Image, Plan};
use tm_io::Shelf;
use tm_run_dump::run_dump;
use tm_words::Name;

/// Makes the dump of the whole run of the plan on the image.
pub(crate) fn record<'a, F: Shelf>(
    alloc: Global,
    shelf: &mut F,
    image: &Name,
    plan: &Name,
    dump: &'a Name,
) -> Result<Made<'a>, Status>
    ensures reads { Reads (record_made (F.seen shelf.old).content image.now plan.now dump.now) (F.seen shelf.old) (F.seen shelf.new) result }
    ensures puts { IfOk result (λ made. map (λ p. p.name) made.puts ≡ dump.now ∷ []) }
    ensures text { IfOk result (λ made. made.text ≡ []) }
{
    let image: Image = match read_file(alloc, shelf, 1, image, &()) {
        Ok(image) => image,
        Err(status) => return Err(status),
    };
    let plan: Plan = match read_file(alloc, shelf, 2, plan, &()) {
        Ok(plan) => plan,
        Err(status) => return Err(status),
    };
    match run_dump(alloc, image, plan.slices()) {
        Ok(bytes) => Made::put_alone(alloc, dump, bytes).map_err(|_| Status::Memory),
        Err(_) => Err(Status::Memory),
    }
}
