//! What a parser of `clap` tells of the words that it takes.

ghost use Rattle.std.specs.Prelude.{◌≡◌, ℕ, List, Some, IfOk, IsSome, map, true};
ghost use Rattle.clap.specs.Words.{app_of, is_simple, takes, matches_of, first_of, found_of, first_value, kind_of};
ghost use Rattle.clap.specs.declared.error.kind.ErrorKind.TheVariants.{OutOfMemory};

use crate::text::Name;
use clap::{ArgMatches, Command as Parser, Error};
use std::alloc::{AllocError, Global};

/// The matches of words that a parser takes.
pub(crate) fn matches_of<'a>(
    parser: Parser<'a>,
    words: &'a [&'a str],
) -> Result<ArgMatches<'a>, AllocError>
    requires simple { is_simple (app_of parser) ≡ true }
    requires taken { takes (app_of parser) (map (λ word. word.now) words.now) ≡ true }
    ensures { IfOk result (λ matches. (name : List ℕ) →
        first_value (found_of matches) name ≡ first_of name (matches_of (app_of parser.entry) (map (λ word. word.now) words.entry.now))) }
{
    match parser.try_get_matches_from(words) {
        Ok(matches) => Ok(matches),
        Err(error) => Err(starved(error)),
    }
}

/// Want of memory, the one way in which a parse fails here.
fn starved(_error: Error) -> AllocError
    requires { kind_of _error ≡ OutOfMemory }
{
    AllocError
}

/// The text of an argument, which the parser was given.
pub(crate) fn text_in<'a>(matches: &ArgMatches<'a>, name: &str) -> &'a str
    requires { IsSome (first_value (found_of matches.now) name.now) }
    ensures { Some result.now ≡ first_value (found_of matches.now) name.now }
{
    match matches.get_str(name) {
        Some(text) => text,
        None => unreachable!(),
    }
}

/// The same as a name.
pub(crate) fn name_in(
    alloc: Global,
    matches: &ArgMatches<'_>,
    name: &str,
) -> Result<Name, AllocError>
    requires { IsSome (first_value (found_of matches.now) name.now) }
    ensures { IfOk result (λ given. Some given ≡ first_value (found_of matches.now) name.now) }
{
    Name::new(alloc, text_in(matches, name))
}

/// The same, where the parser was given one.
pub(crate) fn optional_name_in(
    alloc: Global,
    matches: &ArgMatches<'_>,
    name: &str,
) -> Result<Option<Name>, AllocError>
    ensures { IfOk result (λ given. given ≡ first_value (found_of matches.now) name.now) }
{
    match matches.get_str(name) {
        Some(text) => Ok(Some(Name::new(alloc, text)?)),
        None => Ok(None),
    }
}
