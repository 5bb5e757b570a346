//! The words of a run that observers look at, which are read apart from those of the commands.

ghost use Rattle.std.specs.Prelude.{◌≡◌, [], ◌∷◌, Some, IfOk, IfSome, IsSome, map, option_and_then};
ghost use Rattle.tm_words.specs.Watch.{watch_asked, watch_form};
ghost use Rattle.tm_words.specs.Forms.{watch_asked_by};
ghost use Rattle.tm_words.specs.Parsers.{IsWatch, watch_asked_in};

use crate::command::WatchCommand;
use crate::matches::{matches_of, name_in, text_in};
use crate::numbers::{count_in, looks_in, observers_in};
use crate::parsers::watch_parser;
use crate::parts::Parts;
use crate::text::{Name, Text};
use std::alloc::{AllocError, Global};

/// The texts of words that are of the form.
#[derive(Drop)]
pub(crate) struct WatchForm<'a> {
    image: &'a str,
    plant: &'a str,
    prefix: &'a str,
    slices: &'a str,
    len: &'a str,
    observers: &'a str,
    looks: &'a str,
}

/// `watch IMAGE PLANT PREFIX --slices N --len L --observers K --looks M`, by the parts of the words behind the first.
pub(crate) fn watch_form(mut parts: Parts<'_>) -> Option<WatchForm<'_>>
    ensures same { option_and_then watch_asked_by result ≡ watch_form parts.entry }
    ensures sure { IfSome result (λ form. IsSome (watch_asked_by form)) }
{
    let slices = parts.take("--slices")?;
    let len = parts.take("--len")?;
    let observers = parts.take("--observers")?;
    let looks = parts.take("--looks")?;
    if !parts.has_no_options() {
        return None;
    }
    named_form(
        parts.names(),
        slices.get(),
        len.get(),
        observers.get(),
        looks.get(),
    )
}

/// The same, by its names and the values of its options.
fn named_form<'a>(
    names: &[Text<'a>],
    slices: &'a str,
    len: &'a str,
    observers: &'a str,
    looks: &'a str,
) -> Option<WatchForm<'a>>
    ensures same { option_and_then watch_asked_by result ≡ watch_asked names.now (Some slices.now ∷ Some len.now ∷ Some observers.now ∷ Some looks.now ∷ []) }
    ensures sure { IfSome result (λ form. IsSome (watch_asked_by form)) }
{
    match names {
        [image, plant, prefix]
            if count_in(slices).is_some()
                && count_in(len).is_some()
                && observers_in(observers).is_some()
                && looks_in(looks).is_some() => {
            Some(WatchForm {
                image: image.get(),
                plant: plant.get(),
                prefix: prefix.get(),
                slices,
                len,
                observers,
                looks,
            })
        }
        _ => None,
    }
}

/// What the texts of the form ask for.
pub(crate) fn read_watch(
    alloc: Global,
    form: &WatchForm<'_>,
) -> Result<Option<WatchCommand>, AllocError>
    ensures { IfOk result (λ command. command ≡ watch_asked_by form.now) }
{
    let slices = format!(in alloc; "--slices={}", form.slices)?;
    let len = format!(in alloc; "--len={}", form.len)?;
    let observers = format!(in alloc; "--observers={}", form.observers)?;
    let looks = format!(in alloc; "--looks={}", form.looks)?;
    let words = [
        "watch",
        slices.as_str(),
        len.as_str(),
        observers.as_str(),
        looks.as_str(),
        "--",
        form.image,
        form.plant,
        form.prefix,
    ];
    read_words(alloc, &words)
}

/// The same, of words in the order that the parser takes.
fn read_words(alloc: Global, words: &[&str]) -> Result<Option<WatchCommand>, AllocError>
    requires { IsWatch (map (λ word. word.now) words.now) }
    ensures { IfOk result (λ command. command ≡ watch_asked_in (map (λ word. word.now) words.now)) }
{
    let matches = matches_of(watch_parser(alloc)?, words)?;
    let image = name_in(alloc, &matches, "image")?;
    let plant = name_in(alloc, &matches, "plant")?;
    let prefix = name_in(alloc, &matches, "prefix")?;
    let slices = text_in(&matches, "slices");
    let len = text_in(&matches, "len");
    let observers = text_in(&matches, "observers");
    let looks = text_in(&matches, "looks");
    Ok(command_of(image, plant, prefix, slices, len, observers, looks))
}

/// The command, by the digits of its numbers.
fn command_of(
    image: Name,
    plant: Name,
    prefix: Name,
    slices: &str,
    len: &str,
    observers: &str,
    looks: &str,
) -> Option<WatchCommand>
    ensures { result ≡ watch_asked (image ∷ plant ∷ prefix ∷ []) (Some slices.now ∷ Some len.now ∷ Some observers.now ∷ Some looks.now ∷ []) }
{
    Some(WatchCommand {
        image,
        plant,
        prefix,
        slices: count_in(slices)?,
        len: count_in(len)?,
        observers: observers_in(observers)?,
        looks: looks_in(looks)?,
    })
}
