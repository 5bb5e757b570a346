//! The parser of each form, by `clap`: its options and names are all texts.

ghost use Rattle.std.specs.Prelude.{◌≡◌, IfOk, false};
ghost use Rattle.clap.specs.Words.{app_of, rule_of, new_rule};
ghost use Rattle.tm_words.specs.Parsers.{option_rule, trace_parser, record_parser, live_options, live_parser, points_parser, replay_parser, make_parser, load_parser, watch_numbers, watch_parser};

use clap::{Arg, Command};
use std::alloc::{AllocError, Global};

/// An option that takes a text.
fn option<'a>(alloc: Global, name: &'a str) -> Arg<'a>
    ensures rule { rule_of result ≡ option_rule name.entry.now }
    ensures local { result.global ≡ false }
{
    Arg::new(alloc, name).long(name)
}

/// A text at its place.
fn text<'a>(alloc: Global, name: &'a str) -> Arg<'a>
    ensures rule { rule_of result ≡ new_rule name.entry.now }
    ensures local { result.global ≡ false }
{
    Arg::new(alloc, name)
}

pub(crate) fn trace_parser<'a>(alloc: Global) -> Result<Command<'a>, AllocError>
    ensures { IfOk result (λ parser. app_of parser ≡ trace_parser) }
{
    Command::new(alloc, "trace")
        .arg(text(alloc, "image"))?
        .arg(text(alloc, "plan"))
}

pub(crate) fn record_parser<'a>(alloc: Global) -> Result<Command<'a>, AllocError>
    ensures { IfOk result (λ parser. app_of parser ≡ record_parser) }
{
    Command::new(alloc, "record")
        .arg(text(alloc, "image"))?
        .arg(text(alloc, "plan"))?
        .arg(text(alloc, "dump"))
}

/// The options of a run beside devices.
fn live_options<'a>(alloc: Global) -> Result<Command<'a>, AllocError>
    ensures { IfOk result (λ parser. app_of parser ≡ live_options) }
{
    Command::new(alloc, "live")
        .arg(option(alloc, "slices"))?
        .arg(option(alloc, "len"))?
        .arg(option(alloc, "tape"))
}

pub(crate) fn live_parser<'a>(alloc: Global) -> Result<Command<'a>, AllocError>
    ensures { IfOk result (λ parser. app_of parser ≡ live_parser) }
{
    live_options(alloc)?
        .arg(text(alloc, "image"))?
        .arg(text(alloc, "plant"))?
        .arg(text(alloc, "dump"))
}

pub(crate) fn points_parser<'a>(alloc: Global) -> Result<Command<'a>, AllocError>
    ensures { IfOk result (λ parser. app_of parser ≡ points_parser) }
{
    Command::new(alloc, "points")
        .arg(text(alloc, "image"))?
        .arg(text(alloc, "dump"))
}

pub(crate) fn replay_parser<'a>(alloc: Global) -> Result<Command<'a>, AllocError>
    ensures { IfOk result (λ parser. app_of parser ≡ replay_parser) }
{
    Command::new(alloc, "replay")
        .arg(option(alloc, "from"))?
        .arg(option(alloc, "workers"))?
        .arg(text(alloc, "image"))?
        .arg(text(alloc, "dump"))
}

pub(crate) fn make_parser<'a>(alloc: Global) -> Result<Command<'a>, AllocError>
    ensures { IfOk result (λ parser. app_of parser ≡ make_parser) }
{
    Command::new(alloc, "make").arg(text(alloc, "number"))
}

pub(crate) fn load_parser<'a>(alloc: Global) -> Result<Command<'a>, AllocError>
    ensures { IfOk result (λ parser. app_of parser ≡ load_parser) }
{
    Command::new(alloc, "load")
        .arg(text(alloc, "image"))?
        .arg(text(alloc, "task"))?
        .arg(text(alloc, "executable"))?
        .arg(text(alloc, "new"))
}

/// The numbers of a run that observers look at.
fn watch_numbers<'a>(alloc: Global) -> Result<Command<'a>, AllocError>
    ensures { IfOk result (λ parser. app_of parser ≡ watch_numbers) }
{
    Command::new(alloc, "watch")
        .arg(option(alloc, "slices"))?
        .arg(option(alloc, "len"))?
        .arg(option(alloc, "observers"))?
        .arg(option(alloc, "looks"))
}

pub(crate) fn watch_parser<'a>(alloc: Global) -> Result<Command<'a>, AllocError>
    ensures { IfOk result (λ parser. app_of parser ≡ watch_parser) }
{
    watch_numbers(alloc)?
        .arg(text(alloc, "image"))?
        .arg(text(alloc, "plant"))?
        .arg(text(alloc, "prefix"))
}
