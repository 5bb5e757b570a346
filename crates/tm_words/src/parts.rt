//! The words of a call parted into the options that they give and the names beside them; no memory is taken.

ghost use Rattle.std.specs.Prelude.{◌≡◌, ◌↔◌, List, [], ◌∷◌, map, IsTrue, IsFalse, MatchOption, Some};
ghost use Rattle.tm_words.specs.declared.word.Word.{Word};
ghost use Rattle.tm_words.specs.Words.{texts, word_of, parted, place_of, value_of, without};
ghost use Rattle.tm_words.specs.Scans.{onto, IsRefused};

use crate::text::Text;
use crate::word::{Word, word_of};
use arrayvec::ArrayVec;
use std::marker::Model;

/// The most options, and the most names, that a command has.
const MOST: usize = 4;

/// An option as it was given, with its dashes, and its value.
#[derive(Drop, Default)]
pub(crate) struct Given<'a> {
    pub option: Text<'a>,
    pub value: Text<'a>,
}

/// What the words say.
#[derive(Drop)]
pub(crate) struct Parts<'a> {
    given: ArrayVec<Given<'a>, MOST>,
    names: ArrayVec<Text<'a>, MOST>,
}

impl<'a> Model for Parts<'a> {
    ghost use Rattle.tm_words.specs.Words.{Parts as Said};

    ghost Value = { Said };

    ghost view = { λ parts. record { given = parts.given.items; names = parts.names.items } };
}

impl<'a> Parts<'a> {
    /// Nothing.
    fn new() -> Parts<'a>
        ensures { result ≡ record { given = []; names = [] } }
    {
        Parts {
            given: ArrayVec::new(),
            names: ArrayVec::new(),
        }
    }

    /// The names, in order.
    pub(crate) fn names(&self) -> &[Text<'a>]
        ensures { result.now ≡ self.now.names }
    {
        self.names.as_slice()
    }

    /// Whether no option is left.
    pub(crate) fn has_no_options(&self) -> bool
        ensures { IsTrue result ↔ (self.now.given ≡ []) }
    {
        self.given.is_empty()
    }

    /// Takes an option out of what was given, and gives its value.
    #[tactic(auto, using(std::proofs::lemmas::Option::slice_get_read))]
    pub(crate) fn take(&mut self, option: &str) -> Option<Text<'a>>
        ensures value { result ≡ value_of option.now self.old.given }
        ensures given { self.new.given ≡ without option.now self.old.given }
        ensures names { self.new.names ≡ self.old.names }
    {
        match self.place_of(option) {
            Some(place) => Some(self.given.remove(place).value),
            None => None,
        }
    }

    /// The place of an option among those given.
    fn place_of(&self, option: &str) -> Option<usize>
        ensures { result ≡ place_of option.now self.now.given }
    {
        self.given
            .iter()
            .position(|given| given.option.get() == option)
    }
}

/// Words that are being parted.
#[derive(Drop)]
struct Scan<'a> {
    parts: Parts<'a>,
    /// An option that waits for its value.
    waiting: Option<Text<'a>>,
}

impl<'a> Scan<'a> {
    /// Adds a word, or answers that no form begins with these words.
    fn add(&mut self, word: Word<'a>) -> bool
        ensures added { IsTrue result → (words : List Word) → onto self.new words ≡ onto self.old (word.entry ∷ words) }
        ensures refused { IsFalse result → (words : List Word) → IsRefused (onto self.old (word.entry ∷ words)) }
    {
        match (self.waiting.take(), word) {
            (None, Word::Plain(name)) => self.parts.names.try_push(name).is_ok(),
            (None, Word::Joined(option, value)) | (Some(option), Word::Plain(value)) => {
                self.parts.given.try_push(Given { option, value }).is_ok()
            }
            (None, Word::Alone(option)) => {
                self.waiting = Some(option);
                true
            }
            (_, _) => false,
        }
    }
}

/// The parts of the words, or `None` where the words are surely of no form.
pub(crate) fn parts_of(words: &[String]) -> Option<Parts<'_>>
    ensures { MatchOption result (IsRefused (parted (map word_of (texts words.now)))) (λ parts. parted (map word_of (texts words.now)) ≡ Some parts) }
{
    let mut scan = Scan {
        parts: Parts::new(),
        waiting: None,
    };
    for word in words {
        if !scan.add(word_of(word.as_str())) {
            return None;
        }
    }
    match scan.waiting {
        None => Some(scan.parts),
        Some(_) => None,
    }
}
