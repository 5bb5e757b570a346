//! What the words of a call ask for.
//!
//! [`command_of`] gives the [`Command`] that the words of a call are a form of:
//!
//! ```text
//! trace IMAGE PLAN
//! record IMAGE PLAN DUMP
//! live IMAGE PLANT DUMP --slices N --len L [--tape NAME]
//! points IMAGE DUMP
//! replay IMAGE DUMP --from P [--workers W]
//! make N
//! load IMAGE T ELF NEW
//! ```
//!
//! [`watch_of`] gives the [`WatchCommand`] of the one form that is not among these:
//!
//! ```text
//! watch IMAGE PLANT PREFIX --slices N --len L --observers K --looks M
//! ```
//!
//! The options of a command stand anywhere behind the first word, as `--from P` or `--from=P`, each once at most.
//! A name and a value aren't empty and don't begin with a dash. A number is 1 to 20 decimal digits: P is 0 to
//! 2^64 - 1, W is 1 to 16 and is 1 where it isn't given, L is 0 to 1,048,576, N is 0 to 1,048,576 too, but 0 to
//! 2^32 - 1 for `make`, K is 1 to 4, M is 1 to 1,000, and T is 0 to 15 in one or two digits. The name of a tape is
//! another than that of the dump. All other words are of no form.
//!
//! The words are scanned first, which takes no memory. What is of a form is then read by one parser of `clap` for
//! each command, in an order in which the parser can fail for want of memory alone.
#![tactic(auto)]

ghost use Rattle.std.specs.Prelude.{◌≡◌, None, IfOk, IfSome, IsSome, Ok, map, option_and_then};
ghost use Rattle.tm_words.specs.Words.{parted, texts, word_of};
ghost use Rattle.tm_words.specs.Command.{command_of, form_of, IsInRange};
ghost use Rattle.tm_words.specs.Watch.{watch_of, watch_form, IsWatchInRange};
ghost use Rattle.tm_words.specs.Forms.{asked_by, watch_asked_by};

mod command;
mod form;
mod kind;
mod matches;
mod numbers;
mod parsers;
mod parts;
mod reading;
mod text;
mod watch;
mod word;

pub use command::{Command, WatchCommand};
use form::{Form, form_of};
use kind::{Kind, kind_of};
use parts::parts_of;
use reading::read;
use std::alloc::{AllocError, Global};
pub use text::Name;
use watch::{WatchForm, read_watch, watch_form};

/// The command that the words are a form of, or `None` where they are of no form; the refusal takes no memory.
///
/// # Errors
///
/// Only where there is too little memory for the words as the parser takes them, or for the names.
#[tactic(auto, using(crate::proofs::Ranges::in_range))]
pub fn command_of(alloc: Global, words: &[String]) -> Result<Option<Command>, AllocError>
    ensures command { IfOk result (λ command. command ≡ command_of (texts words.now)) }
    ensures refused { command_of (texts words.now) ≡ None → result ≡ Ok None }
    ensures sound { IfOk result (λ command. IfSome command IsInRange) }
{
    match form_in(words) {
        Some(form) => read(alloc, &form),
        None => Ok(None),
    }
}

/// The form that the words have.
#[tactic(auto, unfolding(crate::specs::Command::command_of))]
fn form_in(words: &[String]) -> Option<Form<'_>>
    ensures same { option_and_then asked_by result ≡ command_of (texts words.now) }
    ensures sure { IfSome result (λ form. IsSome (asked_by form)) }
{
    match words {
        [] => None,
        [first, rest @ ..] => match kind_of(first.as_str()) {
            Some(kind) => form_behind(kind, rest),
            None => None,
        },
    }
}

/// The form of a command that the words behind the first have.
#[tactic(auto, using(crate::proofs::Refusing::refused))]
fn form_behind(kind: Kind, words: &[String]) -> Option<Form<'_>>
    ensures same { option_and_then asked_by result ≡ option_and_then (form_of kind) (parted (map word_of (texts words.now))) }
    ensures sure { IfSome result (λ form. IsSome (asked_by form)) }
{
    match parts_of(words) {
        Some(parts) => form_of(kind, parts),
        None => None,
    }
}

/// What the words of `watch` ask for, or `None` where they are not of its form; the refusal takes no memory.
///
/// # Errors
///
/// Only where there is too little memory for the words as the parser takes them, or for the names.
#[tactic(auto, using(crate::proofs::WatchRanges::watch_in_range, crate::proofs::Refusing::watch_apart))]
pub fn watch_of(alloc: Global, words: &[String]) -> Result<Option<WatchCommand>, AllocError>
    ensures command { IfOk result (λ command. command ≡ watch_of (texts words.now)) }
    ensures refused { watch_of (texts words.now) ≡ None → result ≡ Ok None }
    ensures sound { IfOk result (λ command. IfSome command IsWatchInRange) }

    // The words of `watch` are of no command.
    ensures apart { IsSome (watch_of (texts words.now)) → command_of (texts words.now) ≡ None }
{
    match watch_in(words) {
        Some(form) => read_watch(alloc, &form),
        None => Ok(None),
    }
}

/// The form that the words of `watch` have.
#[tactic(auto, unfolding(crate::specs::Watch::watch_of))]
fn watch_in(words: &[String]) -> Option<WatchForm<'_>>
    ensures same { option_and_then watch_asked_by result ≡ watch_of (texts words.now) }
    ensures sure { IfSome result (λ form. IsSome (watch_asked_by form)) }
{
    match words {
        [first, rest @ ..] if first.as_str() == "watch" => watch_behind(rest),
        _ => None,
    }
}

/// The form that the words behind the first have.
#[tactic(auto, using(crate::proofs::Refusing::watch_refused))]
fn watch_behind(words: &[String]) -> Option<WatchForm<'_>>
    ensures same { option_and_then watch_asked_by result ≡ option_and_then watch_form (parted (map word_of (texts words.now))) }
    ensures sure { IfSome result (λ form. IsSome (watch_asked_by form)) }
{
    match parts_of(words) {
        Some(parts) => watch_form(parts),
        None => None,
    }
}
