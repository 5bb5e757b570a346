//! An observer that looks beside a run, and keeps what it saw last.

ghost use Rattle.std.specs.Prelude.{◌≡◌, ℕ, ◌<◌, ◌≤◌, ◌^◌, [], ◌∷◌, ◌++◌, false, map, length, All, Contains, IfOk};
ghost use Rattle.std.specs.Thread.{IsSync};
ghost use Rattle.tm_watch.specs.Dumps.{dump_of};
ghost use Rattle.tm_observe.specs.Lookers.{LookerView, Looked, AllLooked, IsVersion, with_told};

use std::alloc::{AllocError, Global};
use std::marker::Model;
use std::mem;
use std::sync::Wait;
use std::thread::{Threads, for_each_mut};
use tm_image::Image;
use tm_io::Gate;
use tm_live::Tape;
use tm_run_dump::run_dump;
use tm_watch::{Note, Observer};

/// How many observers a watch has at most.
const MOST_LOOKERS: usize = 4;

/// What the first observer tells the gate; the others tell it the numbers that follow.
const FIRST_PLACE: u8 = 16;

/// An observer beside a run. Contracts see the observer, the bytes of its last look, and whether a look found
/// too little memory.
#[derive(Drop)]
pub struct Looker {
    observer: Observer,
    version: Vec<u8>,
    starved: bool,
}

impl Model for Looker {
    ghost use Rattle.tm_observe.specs.Lookers.{LookerView};

    ghost Value = { LookerView };

    ghost view = { λ l. record { observer = l.observer; version = l.version.items; starved = l.starved } };
}

/// A looker for each observer, in order. No look was made by it.
pub fn lookers_of(alloc: Global, observers: Vec<Observer>) -> Result<Vec<Looker>, AllocError>
    ensures observers { IfOk result (λ lookers. map (λ l. l.observer) lookers.items ≡ observers.items) }
    ensures fed { IfOk result (λ lookers. All (λ l. l.starved ≡ false) lookers.items) }
{
    observers
        .into_iter()
        .map(|observer| Looker::new(alloc, observer))
        .collect(alloc)
}

/// Each observer looks so often, in a thread of its own. It tells the gate 16 and its number before each look, and once
/// more after the last.
pub(crate) fn look_all<R: Threads + Wait + Sync, G: Gate>(
    rt: &R,
    lookers: &mut [Looker],
    looks: u32,
    gate: &G,
)
    requires { length lookers.old ≤ 4 }
    ensures { AllLooked looks lookers.old lookers.new }
{
    for_each_mut(
        rt,
        lookers,
        MOST_LOOKERS,
        &|number, looker|
            requires { number < 4 }
            ensures { Looked looks looker.entry.now looker.exit.now }
        { look_often(rt, looker, FIRST_PLACE + number as u8, looks, gate) },
    );
}

/// So many looks, each told to the gate before, and their end.
fn look_often<R: Wait, G: Gate>(rt: &R, looker: &mut Looker, place: u8, looks: u32, gate: &G)
    ensures { Looked looks looker.old looker.new }
{
    for _ in 0..looks {
        gate.at(place);
        looker.look(rt);
    }
    gate.at(place);
}

impl Looker {
    /// No look was made.
    fn new(alloc: Global, observer: Observer) -> Self
        ensures observer { result.observer ≡ observer }
        ensures fed { result.starved ≡ false }
    {
        Looker {
            observer,
            version: Vec::new(alloc),
            starved: false,
        }
    }

    /// A look, whose bytes replace those of the look before.
    fn look<R: Wait>(&mut self, rt: &R)
        ensures { Looked 1 self.old self.new }
    {
        if self.observer.look(rt, &mut self.version).is_err() {
            self.starved = true;
        }
    }

    /// Learns a note of its watch, which lists the slices of the tape, and gives away the bytes of its last look: the
    /// dump of a beginning of the tape.
    ///
    /// # Errors
    ///
    /// There is too little memory, or a look found too little.
    pub(crate) fn settle(
        &mut self,
        alloc: Global,
        note: Note,
        image: &Image,
        tape: &Tape,
    ) -> Result<Vec<u8>, AllocError>
        requires own { note.book ≡ self.old.observer.book }
        requires list { note.list ≡ tape.now.slices }
        requires few { length tape.now.slices < 2 ^ 32 }
        requires shown { self.old.starved ≡ false → self.old.version ≡ dump_of image.now self.old.observer.seen }
        ensures version { IfOk result (λ bytes. IsVersion image.now tape.now.slices self.old bytes.items) }
        ensures learnt { self.new.observer ≡ with_told self.old.observer note.list }
    {
        self.observer.learn(note);
        if self.starved {
            return Err(AllocError);
        }
        // It can't have seen more than was published, but no contract says so.
        if self.observer.seen_slices() > tape.slices().len() as u64 {
            return run_dump(alloc, image.copy(alloc)?, tape.slices());
        }
        Ok(mem::replace(&mut self.version, Vec::new(alloc)))
    }

    /// The bytes of a last look, by an observer that was told of the whole tape: the dump of the tape.
    pub(crate) fn last_look<R: Wait>(
        &mut self,
        rt: &R,
        alloc: Global,
        image: &Image,
        tape: &Tape,
    ) -> Result<Vec<u8>, AllocError>
        requires image { self.old.observer.image ≡ image.now }
        requires told { Contains self.old.observer.told tape.now.slices }
        requires few { length tape.now.slices < 2 ^ 32 }
        ensures { IfOk result (λ bytes. bytes.items ≡ dump_of image.now tape.now.slices) }
    {
        let mut bytes = Vec::new(alloc);
        self.observer.look(rt, &mut bytes)?;
        if self.observer.seen_slices() == tape.slices().len() as u64 {
            return Ok(bytes);
        }
        // Nor can it see more now.
        run_dump(alloc, image.copy(alloc)?, tape.slices())
    }
}
