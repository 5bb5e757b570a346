//! What words ask for, as a text: the command with its names and numbers.

use std::alloc::{AllocError, Global};
use std::test::Fail;
use tm_words::{Command, Name, WatchCommand, command_of, watch_of};

/// What words ask for, or `nothing`.
pub(crate) fn told(alloc: Global, words: &[&str]) -> Result<String, Fail> {
    let mut given = Vec::new(alloc);
    for word in words {
        given.push(String::from_str(alloc, word)?)?;
    }
    match command_of(alloc, &given)? {
        Some(command) => Ok(text_of(alloc, &command)?),
        None => Ok(String::from_str(alloc, "nothing")?),
    }
}

/// What the words of a line of `watch` ask for, or `nothing`.
pub(crate) fn told_of_watch(alloc: Global, line: &str) -> Result<String, Fail> {
    let mut given = Vec::new(alloc);
    for word in line.split_whitespace() {
        given.push(String::from_str(alloc, word)?)?;
    }
    match watch_of(alloc, &given)? {
        Some(command) => Ok(watch_text(alloc, &command)?),
        None => Ok(String::from_str(alloc, "nothing")?),
    }
}

fn watch_text(alloc: Global, command: &WatchCommand) -> Result<String, AllocError> {
    let names = [&command.image, &command.plant, &command.prefix];
    let names = named(alloc, "watch", &names)?;
    let (slices, len) = (command.slices, command.len);
    let (observers, looks) = (command.observers, command.looks);
    format!(in alloc; "{names} slices {slices} len {len} observers {observers} looks {looks}")
}

fn text_of(alloc: Global, command: &Command) -> Result<String, AllocError> {
    match command {
        Command::Trace { image, plan } => named(alloc, "trace", &[image, plan]),
        Command::Record { image, plan, dump } => named(alloc, "record", &[image, plan, dump]),
        Command::Points { image, dump } => named(alloc, "points", &[image, dump]),
        Command::Make { number } => format!(in alloc; "make {number}"),
        Command::Load {
            image,
            task,
            executable,
            new,
        } => {
            let names = named(alloc, "load", &[image, executable, new])?;
            format!(in alloc; "{names} task {task}")
        }
        Command::Replay {
            image,
            dump,
            from,
            workers,
        } => {
            let names = named(alloc, "replay", &[image, dump])?;
            format!(in alloc; "{names} from {from} workers {workers}")
        }
        Command::Live {
            image,
            plant,
            dump,
            slices,
            len,
            tape,
        } => {
            let names = named(alloc, "live", &[image, plant, dump])?;
            let tape = match tape {
                Some(tape) => tape.text(),
                None => "-",
            };
            format!(in alloc; "{names} slices {slices} len {len} tape {tape}")
        }
    }
}

/// A command's first word, with its names behind it.
fn named(alloc: Global, first: &str, names: &[&Name]) -> Result<String, AllocError> {
    let mut text = String::from_str(alloc, first)?;
    for name in names {
        text.push_str(" ")?;
        text.push_str(name.text())?;
    }
    Ok(text)
}
