//! The texts of a form, read by `clap` in the order that each parser takes: the options with their values,
//! then `--`, then the names. So a parse fails for want of memory alone.

ghost use Rattle.std.specs.Prelude.{◌≡◌, [], ◌∷◌, ◌++◌, Some, None, IfOk, codes, drop, map};
ghost use Rattle.tm_words.specs.declared.kind.Kind.TheVariants as kind;
ghost use Rattle.tm_words.specs.Command.{asked, is_named};
ghost use Rattle.tm_words.specs.Forms.{asked_by};
ghost use Rattle.tm_words.specs.Parsers.{IsLive, live_asked};

use crate::command::Command;
use crate::form::Form;
use crate::matches::{matches_of, name_in, optional_name_in, text_in};
use crate::numbers::{count_in, point_in, seed_in, task_in, workers_in};
use crate::parsers::{
    live_parser, load_parser, make_parser, points_parser, record_parser, replay_parser,
    trace_parser,
};
use crate::text::{Name, Text};
use std::alloc::{AllocError, Global};

/// What the texts of a form ask for.
pub(crate) fn read(alloc: Global, form: &Form<'_>) -> Result<Option<Command>, AllocError>
    ensures { IfOk result (λ command. command ≡ asked_by form.now) }
{
    match form {
        Form::Trace { image, plan } => Ok(Some(read_trace(alloc, image, plan)?)),
        Form::Record { image, plan, dump } => Ok(Some(read_record(alloc, image, plan, dump)?)),
        Form::Live {
            image,
            plant,
            dump,
            slices,
            len,
            tape,
        } => read_live(alloc, image, plant, dump, slices, len, tape),
        Form::Points { image, dump } => Ok(Some(read_points(alloc, image, dump)?)),
        Form::Replay {
            image,
            dump,
            from,
            workers,
        } => read_replay(alloc, image, dump, from, workers),
        Form::Make { number } => read_make(alloc, number),
        Form::Load {
            image,
            task,
            executable,
            new,
        } => read_load(alloc, image, task, executable, new),
    }
}

fn read_trace(alloc: Global, image: &str, plan: &str) -> Result<Command, AllocError>
    ensures { IfOk result (λ command. Some command ≡ asked kind.Trace (image.now ∷ plan.now ∷ []) []) }
{
    let words = ["trace", "--", image, plan];
    let matches = matches_of(trace_parser(alloc)?, &words)?;
    let image = name_in(alloc, &matches, "image")?;
    let plan = name_in(alloc, &matches, "plan")?;
    Ok(Command::Trace { image, plan })
}

fn read_record(alloc: Global, image: &str, plan: &str, dump: &str) -> Result<Command, AllocError>
    ensures { IfOk result (λ command. Some command ≡ asked kind.Record (image.now ∷ plan.now ∷ dump.now ∷ []) []) }
{
    let words = ["record", "--", image, plan, dump];
    let matches = matches_of(record_parser(alloc)?, &words)?;
    let image = name_in(alloc, &matches, "image")?;
    let plan = name_in(alloc, &matches, "plan")?;
    let dump = name_in(alloc, &matches, "dump")?;
    Ok(Command::Record { image, plan, dump })
}

fn read_live(
    alloc: Global,
    image: &str,
    plant: &str,
    dump: &str,
    slices: &str,
    len: &str,
    tape: &Option<Text<'_>>,
) -> Result<Option<Command>, AllocError>
    ensures { IfOk result (λ command. command ≡ asked kind.Live (image.now ∷ plant.now ∷ dump.now ∷ []) (Some slices.now ∷ Some len.now ∷ tape.now ∷ [])) }
{
    let slices = format!(in alloc; "--slices={slices}")?;
    let len = format!(in alloc; "--len={len}")?;
    match tape {
        None => read_untaped(alloc, slices.as_str(), len.as_str(), image, plant, dump),
        Some(name) => {
            let name = name.get();
            let tape = format!(in alloc; "--tape={name}")?;
            read_taped(
                alloc,
                slices.as_str(),
                len.as_str(),
                tape.as_str(),
                image,
                plant,
                dump,
            )
        }
    }
}

/// The same, of `--slices=N` and `--len=L`, without a tape.
fn read_untaped(
    alloc: Global,
    slices: &str,
    len: &str,
    image: &str,
    plant: &str,
    dump: &str,
) -> Result<Option<Command>, AllocError>
    requires slices { slices.now ≡ codes "--slices=" ++ drop 9 slices.now }
    requires len { len.now ≡ codes "--len=" ++ drop 6 len.now }
    ensures { IfOk result (λ command. command ≡ asked kind.Live (image.now ∷ plant.now ∷ dump.now ∷ []) (Some (drop 9 slices.now) ∷ Some (drop 6 len.now) ∷ None ∷ [])) }
{
    let words = ["live", slices, len, "--", image, plant, dump];
    read_live_words(alloc, &words)
}

/// The same, of `--slices=N`, `--len=L` and `--tape=NAME`.
fn read_taped(
    alloc: Global,
    slices: &str,
    len: &str,
    tape: &str,
    image: &str,
    plant: &str,
    dump: &str,
) -> Result<Option<Command>, AllocError>
    requires slices { slices.now ≡ codes "--slices=" ++ drop 9 slices.now }
    requires len { len.now ≡ codes "--len=" ++ drop 6 len.now }
    requires tape { tape.now ≡ codes "--tape=" ++ drop 7 tape.now }
    ensures { IfOk result (λ command. command ≡ asked kind.Live (image.now ∷ plant.now ∷ dump.now ∷ []) (Some (drop 9 slices.now) ∷ Some (drop 6 len.now) ∷ Some (drop 7 tape.now) ∷ [])) }
{
    let words = ["live", slices, len, tape, "--", image, plant, dump];
    read_live_words(alloc, &words)
}

/// The same, of words in the order that the parser takes.
fn read_live_words(alloc: Global, words: &[&str]) -> Result<Option<Command>, AllocError>
    requires { IsLive (map (λ word. word.now) words.now) }
    ensures { IfOk result (λ command. command ≡ live_asked (map (λ word. word.now) words.now)) }
{
    let matches = matches_of(live_parser(alloc)?, words)?;
    let image = name_in(alloc, &matches, "image")?;
    let plant = name_in(alloc, &matches, "plant")?;
    let dump = name_in(alloc, &matches, "dump")?;
    let tape = optional_name_in(alloc, &matches, "tape")?;
    let slices = text_in(&matches, "slices");
    let len = text_in(&matches, "len");
    Ok(live_of(image, plant, dump, slices, len, tape))
}

/// A run beside devices, by the digits of its numbers.
fn live_of(
    image: Name,
    plant: Name,
    dump: Name,
    slices: &str,
    len: &str,
    tape: Option<Name>,
) -> Option<Command>
    ensures { result ≡ asked kind.Live (image ∷ plant ∷ dump ∷ []) (Some slices.now ∷ Some len.now ∷ tape ∷ []) }
{
    if is_named(&dump, &tape) {
        return None;
    }
    match (count_in(slices), count_in(len)) {
        (Some(slices), Some(len)) => Some(Command::Live {
            image,
            plant,
            dump,
            slices,
            len,
            tape,
        }),
        _ => None,
    }
}

/// Whether a tape would be put under the name of the dump.
fn is_named(dump: &Name, tape: &Option<Name>) -> bool
    ensures { result ≡ is_named dump.now tape.now }
{
    match tape {
        Some(tape) => tape.text() == dump.text(),
        None => false,
    }
}

fn read_points(alloc: Global, image: &str, dump: &str) -> Result<Command, AllocError>
    ensures { IfOk result (λ command. Some command ≡ asked kind.Points (image.now ∷ dump.now ∷ []) []) }
{
    let words = ["points", "--", image, dump];
    let matches = matches_of(points_parser(alloc)?, &words)?;
    let image = name_in(alloc, &matches, "image")?;
    let dump = name_in(alloc, &matches, "dump")?;
    Ok(Command::Points { image, dump })
}

fn read_replay(
    alloc: Global,
    image: &str,
    dump: &str,
    from: &str,
    workers: &str,
) -> Result<Option<Command>, AllocError>
    ensures { IfOk result (λ command. command ≡ asked kind.Replay (image.now ∷ dump.now ∷ []) (Some from.now ∷ Some workers.now ∷ [])) }
{
    let from = format!(in alloc; "--from={from}")?;
    let workers = format!(in alloc; "--workers={workers}")?;
    read_replay_words(alloc, from.as_str(), workers.as_str(), image, dump)
}

/// The same, of `--from=P` and `--workers=W`.
fn read_replay_words(
    alloc: Global,
    from: &str,
    workers: &str,
    image: &str,
    dump: &str,
) -> Result<Option<Command>, AllocError>
    requires from { from.now ≡ codes "--from=" ++ drop 7 from.now }
    requires workers { workers.now ≡ codes "--workers=" ++ drop 10 workers.now }
    ensures { IfOk result (λ command. command ≡ asked kind.Replay (image.now ∷ dump.now ∷ []) (Some (drop 7 from.now) ∷ Some (drop 10 workers.now) ∷ [])) }
{
    let words = ["replay", from, workers, "--", image, dump];
    let matches = matches_of(replay_parser(alloc)?, &words)?;
    let image = name_in(alloc, &matches, "image")?;
    let dump = name_in(alloc, &matches, "dump")?;
    let from = text_in(&matches, "from");
    let workers = text_in(&matches, "workers");
    Ok(replay_of(image, dump, from, workers))
}

/// A replay, by the digits of its numbers.
fn replay_of(image: Name, dump: Name, from: &str, workers: &str) -> Option<Command>
    ensures { result ≡ asked kind.Replay (image ∷ dump ∷ []) (Some from.now ∷ Some workers.now ∷ []) }
{
    match (point_in(from), workers_in(workers)) {
        (Some(from), Some(workers)) => Some(Command::Replay {
            image,
            dump,
            from,
            workers,
        }),
        _ => None,
    }
}

fn read_make(alloc: Global, number: &str) -> Result<Option<Command>, AllocError>
    ensures { IfOk result (λ command. command ≡ asked kind.Make (number.now ∷ []) []) }
{
    let words = ["make", "--", number];
    let matches = matches_of(make_parser(alloc)?, &words)?;
    match seed_in(text_in(&matches, "number")) {
        Some(number) => Ok(Some(Command::Make { number })),
        None => Ok(None),
    }
}

fn read_load(
    alloc: Global,
    image: &str,
    task: &str,
    executable: &str,
    new: &str,
) -> Result<Option<Command>, AllocError>
    ensures { IfOk result (λ command. command ≡ asked kind.Load (image.now ∷ task.now ∷ executable.now ∷ new.now ∷ []) []) }
{
    let words = ["load", "--", image, task, executable, new];
    let matches = matches_of(load_parser(alloc)?, &words)?;
    let image = name_in(alloc, &matches, "image")?;
    let executable = name_in(alloc, &matches, "executable")?;
    let new = name_in(alloc, &matches, "new")?;
    match task_in(text_in(&matches, "task")) {
        Some(task) => Ok(Some(Command::Load {
            image,
            task,
            executable,
            new,
        })),
        None => Ok(None),
    }
}
