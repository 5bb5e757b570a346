//! The watch: it publishes slices, and tells of them.

ghost use Rattle.std.specs.Prelude.{◌≡◌, ◌-◌, ◌<◌, ◌≤◌, ◌^◌, [], ◌∷◌, ◌++◌, length, drop, fold, All, Some, IsOk, IfOk, OnOk, OnErr, vec_len};
ghost use Rattle.left_right.specs.Sides.{view};
ghost use Rattle.tm_watch.specs.Views.{Watched, Told, newcomer};
ghost use Rattle.tm_watch.specs.Versions.{origin, after, IsWhole};

use crate::entry::Entry;
use crate::history;
use crate::history::Head;
use crate::note::Note;
use crate::observer::Observer;
use crate::rule::{Show, Tell, VersionReader, VersionWriter};
use crate::run::Run;
use crate::version::{Operation, Version};
use core::mem::replace_with;
use std::alloc::{AllocError, Global};
use std::marker::Model;
use std::sync::Wait;
use tm_image::Image;
use tm_marker::Slice;

/// It publishes slices for its observers to see. It is not `Drop`: close it by [`Watch::end`]. Contracts see which
/// watch it is, its image and the list of slices that it published.
pub struct Watch {
    writer: VersionWriter,
    head: Head,
}

impl Model for Watch {
    ghost use Rattle.std.specs.Prelude.{◌≡◌, [], Some, drop};
    ghost use Rattle.left_right.specs.Sides.{view as known_at};
    ghost use Rattle.tm_watch.specs.Views.{Watched};
    ghost use Rattle.tm_watch.specs.History.{head_of};
    ghost use Rattle.tm_watch.specs.Versions.{origin, IsWhole};

    ghost Value = { Watched };

    ghost view = { λ w.
        let shown = w.writer.desk.shown.value in
        record { book = shown.front.book; image = shown.run.image; list = shown.front.list } };

    // the word is that of the book, no operation is pending, the writer knows the origin of the version that it shows,
    // and that version's run is of its list
    ghost invariant = { λ w.
        (w.head ≡ head_of w.writer.desk.shown.value.front.book)
        × (drop w.writer.behind w.writer.log.items ≡ [])
        × (known_at w.writer.desk.place ≡ Some (origin w.writer.desk.shown.value))
        × IsWhole w.writer.desk.shown.value };
}

impl Watch {
    /// A watch of an image that has published nothing, and 1 to 4 observers that have seen nothing. All memory that
    /// [`Watch::publish`] needs is taken here.
    ///
    /// # Errors
    ///
    /// There is too little memory.
    pub fn new<R: Wait>(
        rt: &R,
        alloc: Global,
        image: Image,
        observers: u8,
    ) -> Result<(Watch, Vec<Observer>), AllocError>
        requires some { 0 < observers }
        requires few { observers ≤ 4 }
        ensures image { IfOk result (λ made. made.0.image ≡ image) }
        ensures list { IfOk result (λ made. made.0.list ≡ []) }
        ensures count { IfOk result (λ made. vec_len made.1 ≡ observers) }
        ensures observers { IfOk result (λ made. All (λ o. o ≡ newcomer made.0.book image) made.1.items) }
    {
        let count = usize::from(observers);
        let mut seats = Vec::with_capacity(alloc, count)?;
        let mut watch = Watch::open(rt, alloc, image, count)?;
        for _ in 0..count {
            let observer = watch.observer(rt);
            seats.push_reserved(observer);
        }
        Ok((watch, seats))
    }

    /// A watch that has published nothing, with places for so many readers.
    fn open<R: Wait>(
        rt: &R,
        alloc: Global,
        image: Image,
        readers: usize,
    ) -> Result<Watch, AllocError>
        requires some { 0 < readers }
        requires few { readers ≤ 4 }
        ensures image { IfOk result (λ watch. watch.image ≡ image) }
        ensures list { IfOk result (λ watch. watch.list ≡ []) }
    {
        let (head, front) = history::open();
        let first = Version {
            run: Run::open(alloc, image.copy(alloc)?)?,
            front: front.again(),
        };
        let second = Version {
            run: Run::open(alloc, image)?,
            front,
        };
        let writer = begin(VersionWriter::new(alloc, first, second, readers)?, rt)?;
        Ok(Watch { writer, head })
    }

    /// An observer that has seen nothing, of a watch that has published nothing.
    fn observer<R: Wait>(&mut self, rt: &R) -> Observer
        requires { self.old.list ≡ [] }
        ensures new { result ≡ newcomer self.old.book self.old.image }
        ensures same { self.new ≡ self.old }
    {
        let mut reader = place(rt, &self.writer);
        reader.learn::<Tell>(self.writer.tell::<Tell>());
        Observer::new(reader, self.writer.published())
    }

    /// Publishes a slice: looks that begin from now on may see it. It waits for looks that began before the last
    /// publishing. It takes no memory.
    ///
    /// # Errors
    ///
    /// There is too little memory, which comes only where a call failed before; the slice is not published.
    pub fn publish<R: Wait>(&mut self, rt: &R, slice: &Slice) -> Result<(), AllocError>
        requires few { length self.old.list < 2 ^ 32 - 1 }
        requires short { slice.now.length ≤ 1048576 }
        requires lines { slice.now.mask < 65536 }
        ensures ok { OnOk result (self.new ≡ record self.old { list = self.old.list ++ slice.now ∷ [] }) }
        ensures err { OnErr result (self.new ≡ self.old) }
    {
        let mut front = self.writer.published().front.again();
        if !front.add(&self.head, slice) {
            return Err(AllocError);
        }
        let entry = Entry {
            slice: *slice,
            front,
        };
        if self.writer.append(Operation::Adds(entry)).is_err() {
            return Err(AllocError);
        }
        replace_with(&mut self.writer, rt, show)
    }

    /// A note of the slices that were published. It waits for nobody and takes no memory.
    pub fn tell(&self) -> Note
        ensures book { result.book ≡ self.now.book }
        ensures list { result.list ≡ self.now.list }
    {
        Note {
            front: self.writer.published().front.again(),
        }
    }

    /// How many slices were published.
    pub fn slices(&self) -> u64
        ensures { result ≡ length self.now.list }
    {
        self.writer.published().front.slices()
    }

    /// Ends the watch, once each look that goes on has ended. A look that begins afterwards waits for ever.
    pub fn end<R: Wait>(self, rt: &R) {
        let Watch { writer, head: _ } = self;
        writer.take(rt);
    }
}

/// A writer that knows the origin of what it shows. An operation that changes nothing takes the memory that the log of
/// operations needs.
fn begin<R: Wait>(writer: VersionWriter, rt: &R) -> Result<VersionWriter, AllocError>
    requires clear { drop writer.behind writer.log.items ≡ [] }
    requires whole { IsWhole writer.desk.shown.value }
    ensures shown { IfOk result (λ w. w.desk.shown.value ≡ writer.desk.shown.value) }
    ensures clear { IfOk result (λ w. drop w.behind w.log.items ≡ []) }
    ensures known { IfOk result (λ w. view w.desk.place ≡ Some (origin w.desk.shown.value)) }
{
    let mut writer = writer;
    if writer.append(Operation::Nothing).is_err() {
        writer.take(rt);
        return Err(AllocError);
    }
    let (writer, _shown) = show(writer, rt);
    Ok(writer)
}

/// Shows the version after the pending operations.
fn show<R: Wait>(writer: VersionWriter, rt: &R) -> (VersionWriter, Result<(), AllocError>)
    requires whole { IsWhole (fold after writer.desk.shown.value (drop writer.behind writer.log.items)) }
    requires origin { origin (fold after writer.desk.shown.value (drop writer.behind writer.log.items)) ≡ origin writer.desk.shown.value }
    ensures ok { IsOk result.1 }
    ensures shown { result.0.desk.shown.value ≡ fold after writer.desk.shown.value (drop writer.behind writer.log.items) }
    ensures clear { drop result.0.behind result.0.log.items ≡ [] }
    ensures known { view result.0.desk.place ≡ Some (origin result.0.desk.shown.value) }
{
    writer.publish_as::<Show, R>(rt)
}

/// A place for a reader. One that is refused is asked for again.
fn place<R: Wait>(rt: &R, writer: &VersionWriter) -> VersionReader
    ensures { result.place.table_id ≡ writer.now.desk.place.table_id }
{
    for _ in rt.forever() {
        if let Ok(reader) = writer.factory().reader() {
            return reader;
        }
    }
    unreachable!()
}
