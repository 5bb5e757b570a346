//! An observer: it looks at what a watch has published.

ghost use Rattle.std.specs.Prelude.{◌≡◌, ◌⊎◌, ◌≤◌, [], ◌∷◌, ◌++◌, length, All, Some, IsSomeAnd, MatchResult, OnOk, OnErr, IsOk, vec_capacity};
ghost use mathlib.Core.List.{IsPrefix};
ghost use Rattle.left_right.specs.Sides.{view};
ghost use Rattle.tm_image.specs.Image.{shape_of};
ghost use Rattle.tm_log.specs.Window.{dump_bound};
ghost use Rattle.tm_watch.specs.declared.version.Version.{Version};
ghost use Rattle.tm_watch.specs.Dumps.{dump_of};
ghost use Rattle.tm_watch.specs.Views.{Observed, Told, newcomer};
ghost use Rattle.tm_watch.specs.Versions.{origin, IsWhole};
ghost use Rattle.tm_watch.specs.Looks.{Reaches};

use crate::history::Front;
use crate::note::Note;
use crate::rule::{See, VersionReader, VersionReading};
use crate::untold::{List, Untold, nothing};
use crate::version::Version;
use logbook::{Opening, Start};
use std::alloc::AllocError;
use std::marker::Model;
use std::sync::Wait;
use std::thread;
use tm_image::Image;
use tm_marker::Slice;

/// Lists of slices, in a list that contracts alone see.
type Lists = List<[Slice; 0]>;

/// One image, in a list that contracts alone see.
type Pictured = List<Image>;

/// It looks at what its watch has published. Contracts see which watch that is, the watch's image, the list of slices
/// of the last look, and each list that it was told.
#[derive(Drop)]
pub struct Observer {
    // A look has it while it reads.
    reader: Option<VersionReader>,
    seen: Front,
    longest: Front,
    told: Lists,
    bound: u64,
    image: Pictured,
}

impl Model for Observer {
    ghost use Rattle.std.specs.Prelude.{◌≡◌, [], All, Some, IsSomeAnd};
    ghost use mathlib.Core.List.{IsPrefix};
    ghost use Rattle.left_right.specs.Sides.{view as known_at};
    ghost use Rattle.tm_image.specs.Image.{shape_of};
    ghost use Rattle.tm_log.specs.Window.{dump_bound};
    ghost use Rattle.tm_watch.specs.Views.{Observed};
    ghost use Rattle.tm_watch.specs.Untold.{image_in};
    ghost use Rattle.tm_watch.specs.Versions.{version_of};

    ghost Value = { Observed };

    ghost view = { λ o. record { book = o.seen.book; image = image_in o.image.log; seen = o.seen.list; told = o.told.log } };

    // the reader knows the origin of the versions, each list that was told begins the longest, and the bound is that of
    // the image's dumps
    ghost invariant = { λ o.
        IsSomeAnd o.reader (λ r. known_at r.place ≡ Some (version_of o.seen.book (image_in o.image.log) []))
        × (o.longest.book ≡ o.seen.book)
        × All (λ list. IsPrefix list o.longest.list) o.told.log
        × (o.bound ≡ dump_bound (shape_of (image_in o.image.log))) };
}

impl Opening<Image, Image> for Untold {
    ghost use Rattle.std.specs.Prelude.{[], ◌∷◌};

    ghost log = { λ count image. image ∷ [] };
}

/// The list of an image.
fn pictured(image: &Image) -> Pictured
    ensures { result.log ≡ image.now ∷ [] }
{
    Pictured::open_row::<Image, Untold>(image, Start::alone(), 0).0
}

/// The lists that were told, and one more.
#[derive(Drop)]
struct Further {
    told: Lists,
    front: Front,
}

impl Opening<Further, [Slice; 0]> for Untold {
    ghost use Rattle.std.specs.Prelude.{[], ◌∷◌, ◌++◌};

    ghost log = { λ count further. further.told.log ++ further.front.list ∷ [] };
}

/// The lists with one more.
fn with_list(told: &Lists, front: &Front) -> Lists
    ensures { result.log ≡ told.now.log ++ front.now.list ∷ [] }
{
    let further = Further {
        told: told.again(),
        front: front.again(),
    };
    Lists::open_row::<Further, Untold>(&further, Start::alone(), 0).0
}

impl Observer {
    /// An observer that has seen nothing, by a reader that knows the origin of this version.
    pub(crate) fn new(reader: VersionReader, version: &Version) -> Observer
        requires known { view reader.place ≡ Some (origin version.now) }
        requires list { version.now.front.list ≡ [] }
        ensures { result ≡ newcomer version.now.front.book version.now.run.image }
    {
        Observer {
            reader: Some(reader),
            seen: version.front.again(),
            longest: version.front.again(),
            told: nothing(),
            bound: version.run.dump_bound(),
            image: pictured(version.run.image()),
        }
    }

    /// Makes `into` the dump of the run of a list of slices that the watch published, which is then the list that was
    /// seen. It begins with the list that was seen before and with each list that was told. The memory for the dump is
    /// taken first; where `into` has room for the longest dump of the image, the look succeeds. It waits until such a
    /// list is published, and for ever where the watch was ended.
    ///
    /// # Errors
    ///
    /// There is too little memory for the dump; nothing was seen, and `into` is as before.
    pub fn look<R: Wait>(&mut self, rt: &R, into: &mut Vec<u8>) -> Result<(), AllocError>
        ensures dump { OnOk result (into.new.items ≡ dump_of self.old.image self.new.seen) }
        ensures later { IsPrefix self.old.seen self.new.seen }
        ensures no_less { OnOk result (All (λ list. IsPrefix list self.new.seen) self.old.told) }
        ensures rest { self.new ≡ record self.old { seen = self.new.seen } }
        ensures err { OnErr result (self.new ≡ self.old) }
        ensures bytes { OnErr result (into.new.items ≡ into.old.items) }
        ensures room { dump_bound (shape_of self.old.image) ≤ vec_capacity into.old → IsOk result }
    {
        let more = (self.bound as usize).saturating_sub(into.len());
        into.reserve(more)?;
        let Some(reader) = self.reader.take() else {
            unreachable!()
        };
        let reading = reach(rt, reader, &self.seen, &self.longest);
        let version = reading.get();
        into.clear();
        version.run.write(into);
        self.seen = version.front.again();
        self.reader = Some(reading.leave());
        Ok(())
    }

    /// Takes in a note of its own watch: later looks see no less. It waits for nobody and takes no memory.
    pub fn learn(&mut self, note: Note)
        requires own { note.book ≡ self.old.book }
        ensures told { self.new.told ≡ self.old.told ++ note.list ∷ [] }
        ensures one_begins { IsPrefix self.old.seen note.list ⊎ IsPrefix note.list self.old.seen }
        ensures rest { self.new ≡ record self.old { told = self.new.told } }
    {
        self.seen.compare(&note.front);
        self.told = with_list(&self.told, &note.front);
        self.longest = self.longest.longer(&note.front);
    }

    /// How many slices the last look saw; 0 before the first.
    pub fn seen_slices(&self) -> u64
        ensures { result ≡ length self.now.seen }
    {
        self.seen.slices()
    }
}

/// Reads versions until one has a list that both lists begin.
fn reach<R: Wait>(rt: &R, reader: VersionReader, seen: &Front, told: &Front) -> VersionReading
    requires known { IsSomeAnd (view reader.place) (λ first. first.front.book ≡ seen.now.book) }
    requires book { told.now.book ≡ seen.now.book }
    ensures { Reaches (view reader.place) seen.now told.now (view result.place) result.part.value }
{
    let mut reader = reader;
    for _ in rt.forever() {
        match enter(reader, seen, told) {
            Ok(reading) => return reading,
            Err(back) => reader = back,
        }
        thread::yield_now();
    }
    unreachable!()
}

/// Reads the version that is shown, where both lists begin its list.
fn enter(reader: VersionReader, seen: &Front, told: &Front) -> Result<VersionReading, VersionReader>
    requires known { IsSomeAnd (view reader.place) (λ first. first.front.book ≡ seen.now.book) }
    requires book { told.now.book ≡ seen.now.book }
    ensures { MatchResult result
        (λ reading. Reaches (view reader.place) seen.now told.now (view reading.place) reading.part.value)
        (λ back. view back.place ≡ view reader.place) }
{
    let reading = reader.enter_as::<See>()?;
    let front = &reading.get().front;
    if seen.begins(front) && told.begins(front) {
        Ok(reading)
    } else {
        Err(reading.leave())
    }
}
