//! The list of slices that a watch has published, as its parts know it. Code keeps the length alone; contracts see
//! the list.

ghost use Rattle.std.specs.Prelude.{◌≡◌, ◌⊎◌, ℕ, ◌+◌, ◌<◌, ◌^◌, [], length, MatchBool, IsTrue};
ghost use mathlib.Core.List.{IsPrefix};
ghost use Rattle.logbook.specs.Pages.{Book};
ghost use Rattle.tm_watch.specs.Views.{Told};
ghost use Rattle.tm_watch.specs.History.{head_of, with_slice, IsBeginning};

use logbook::{Gain, Offer, Opening, Plain, Play, Rule, Seen, Start, Word};
use std::marker::Model;
use tm_marker::Slice;

/// The rule of a watch's book: its word is the length of the list.
pub(crate) struct Counted;

impl Rule<Slice, u64> for Counted {
    ghost use Rattle.std.specs.Prelude.{[]};
    ghost use base.Fml.{ftrue};
    ghost use Rattle.tm_watch.specs.History.{IsKept};

    ghost holds = { λ cells list. IsKept cells list };

    ghost first = { [] };

    ghost hinted = { λ number list. Unit {0} };

    ghost shows = { λ list. [] };

    ghost keeps = { λ names list. ftrue };

    ghost moves = { λ ask before after answer. Unit {0} };
}

impl Opening<(), Slice> for Counted {
    ghost use Rattle.std.specs.Prelude.{[]};

    ghost log = { λ count about. [] };
}

/// A step that trades nothing.
pub(crate) struct Nothing;

impl Gain<Slice, u64> for Nothing {
    ghost use base.Fml.{ftrue};

    ghost after = { λ names about answer. ftrue };
}

/// The step that adds a slice.
pub(crate) struct Add;

impl Play<Slice, u64> for Add {
    ghost use Rattle.tm_watch.specs.History.{Adds};

    ghost then = { Adds };
}

impl Plain<Slice, Slice, u64> for Add {
    ghost use Rattle.std.specs.Prelude.{None};

    ghost ask = { λ slice. slice };

    ghost state = { λ slice. None };
}

/// The word that has the length of the list. A watch has one, and adds to its list by it.
pub(crate) type Head = Word<Slice, u64, Counted>;

/// A beginning of the list that was seen. Contracts see of which book it is, and the beginning.
#[derive(Drop)]
pub(crate) struct Front {
    slices: u64,
    seen: Seen<Slice, u64, Counted>,
}

impl Model for Front {
    ghost use Rattle.std.specs.Prelude.{◌≡◌, length};
    ghost use Rattle.tm_watch.specs.Views.{Told};

    ghost Value = { Told };

    ghost view = { λ f. record { book = f.seen.book; list = f.seen.log } };

    ghost invariant = { λ f. f.slices ≡ length f.seen.log };
}

/// A new book with an empty list.
pub(crate) fn open() -> (Head, Front)
    ensures head { result.0 ≡ head_of result.1.book }
    ensures list { result.1.list ≡ [] }
{
    let (seen, mut pens) = Seen::open_row::<(), Counted>(&(), Start::alone(), 1);
    let head = Word::tracked(0, &mut pens.take());
    (head, Front { slices: 0, seen })
}

impl Front {
    /// How many slices it has.
    pub(crate) fn slices(&self) -> u64
        ensures { result ≡ length self.now.list }
    {
        self.slices
    }

    /// A copy.
    pub(crate) fn again(&self) -> Front
        ensures { result ≡ self.now }
    {
        Front {
            slices: self.slices,
            seen: self.seen.again(),
        }
    }

    /// True where it begins the other, and else the other begins it.
    pub(crate) fn begins(&self, other: &Front) -> bool
        requires { other.now.book ≡ self.now.book }
        ensures { MatchBool result (IsPrefix self.now.list other.now.list) (IsPrefix other.now.list self.now.list) }
    {
        let mut both = self.seen.again();
        both.learn(&other.seen);
        self.slices <= other.slices
    }

    /// One of the two begins the other.
    pub(crate) fn compare(&self, other: &Front)
        requires { other.now.book ≡ self.now.book }
        ensures { IsPrefix self.now.list other.now.list ⊎ IsPrefix other.now.list self.now.list }
    {
        let _first = self.begins(other);
    }

    /// The longer of two, which both begin.
    pub(crate) fn longer(&self, other: &Front) -> Front
        requires { other.now.book ≡ self.now.book }
        ensures this { IsBeginning self.now result }
        ensures that { IsBeginning other.now result }
    {
        if self.begins(other) {
            other.again()
        } else {
            self.again()
        }
    }

    /// Adds a slice to the list, and says whether it did: it did not where the list is no longer the one that was seen.
    pub(crate) fn add(&mut self, head: &Head, slice: &Slice) -> bool
        requires head { head.now ≡ head_of self.old.book }
        requires few { length self.old.list < 2 ^ 32 }
        ensures { IsTrue result → self.new ≡ with_slice self.old slice.now }
    {
        let mut offer: Offer<Slice, u64, Counted, Nothing> = self
            .seen
            .plain::<Nothing, Slice, Add>(slice);
        let mut pen = self.seen.no_pen();
        let slices = self.slices;
        let found = head.compare_exchange::<Add, Nothing>(
            slices,
            slices + 1,
            &mut self.seen,
            &mut offer,
            &mut pen,
        );
        self.slices = if found == slices { slices + 1 } else { found };
        found == slices
    }
}
