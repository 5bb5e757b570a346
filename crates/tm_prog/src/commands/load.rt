//! `load IMAGE T ELF NEW`

ghost use Rattle.std.specs.Prelude.{◌≡◌, [], ◌∷◌, map, IfOk};
ghost use Rattle.tm_prog.specs.LoadCommand.{load_made, keeps_said};
ghost use Rattle.tm_prog.specs.Reads.{Reads, Says};

use crate::Status;
use crate::files::{Keeps, read_file};
use crate::made::Made;
use std::alloc::Global;
use tm_image::{Image, Loaded};
use tm_image_text::image_text;
use tm_io::Shelf;
use tm_words::Name;

/// Makes the text of the image with one of its tasks loaded from an executable.
pub(crate) fn load<'a, F: Shelf>(
    alloc: Global,
    shelf: &mut F,
    image: &Name,
    task: u8,
    executable: &Name,
    new: &'a Name,
) -> Result<Made<'a>, Status>
    ensures reads { Reads (load_made (F.seen shelf.old).content image.now task executable.now new.now) (F.seen shelf.old) (F.seen shelf.new) result }
    ensures puts { IfOk result (λ made. map (λ p. p.name) made.puts ≡ new.now ∷ []) }
    ensures text { IfOk result (λ made. made.text ≡ []) }
{
    let mut image: Image = match read_file(alloc, shelf, 1, image, &()) {
        Ok(image) => image,
        Err(status) => return Err(status),
    };
    let keeps = match kept_of(&image, task) {
        Ok(keeps) => keeps,
        Err(status) => return Err(status),
    };
    let loaded: Loaded = match read_file(alloc, shelf, 2, executable, &keeps) {
        Ok(loaded) => loaded,
        Err(status) => return Err(status),
    };
    image.replace(task, loaded);
    let mut text = Vec::new(alloc);
    match image_text(&image, &mut text) {
        Ok(()) => Made::put_alone(alloc, new, text).map_err(|_| Status::Memory),
        Err(_) => Err(Status::Memory),
    }
}

/// What the task keeps: as many data words as it has now, and its set of instructions.
fn kept_of(image: &Image, task: u8) -> Result<Keeps, Status>
    ensures { Says (keeps_said image.now task) result }
{
    if usize::from(task) >= image.tasks() {
        return Err(Status::NoTask(task));
    }
    Ok(Keeps::new(image.words(task).len() as u32, image.set()))
}
