//! The program `tm`: its words in, text on standard output, a status line on standard error.
#![tactic(auto)]

mod help;

use std::alloc::Global;
use std::env;
use std::io::{self, Write};
use std::process::ExitCode;
use std::sync::Wait;
use std::thread::Threads;
use tm_io::{FileShelf, Open, OutSink, Shelf, Sink};
use tm_irq::Bench;
use tm_prog::{Status, tm, watch};

/// The words after the program's name. A word that is no UTF-8 makes them words of no form.
fn words(rt: &HostRuntime) -> Result<Vec<String>, Status> {
    let status = |error: io::Error| match error.kind() {
        io::ErrorKind::OutOfMemory => Status::Memory,
        _ => Status::Words,
    };
    let mut words = Vec::new(rt.alloc());
    for word in env::args(rt).map_err(status)?.skip(1) {
        words.push(word).map_err(|_| Status::Memory)?;
    }
    Ok(words)
}

/// What the one word `--help` or `--version` prints.
fn information(words: &[String]) -> Option<&'static str> {
    match words {
        [word] if word.as_str() == "--help" => Some(help::HELP),
        [word] if word.as_str() == "--version" => Some(help::VERSION),
        _ => None,
    }
}

/// Prints a text that no command makes.
fn inform(rt: &HostRuntime, text: &str) -> Status {
    match rt.print(text) {
        Ok(()) => Status::Ok,
        Err(_) => Status::WriteFault,
    }
}

/// Does what the words ask for, beside eight devices.
fn run<R: Threads + Wait + Sync>(
    rt: &R,
    alloc: Global,
    words: &[String],
    shelf: &mut impl Shelf,
    out: &mut impl Sink,
) -> Status {
    let Ok(mut bench) = Bench::new(alloc, 8) else {
        return Status::Memory;
    };
    match words {
        [first, ..] if first.as_str() == "watch" => {
            watch(rt, alloc, words, shelf, out, &mut bench, &Open)
        }
        _ => tm(rt, alloc, words, shelf, out, &mut bench, &Open),
    }
}

/// Prints the status line, which takes memory only where it has a number in it; where it can't be made or
/// printed, nothing is.
fn report(rt: &HostRuntime, status: Status) {
    if let Some(line) = status.fixed_line() {
        let _ = rt.stderr().write_all(line);
        return;
    }
    let mut line = Vec::new(rt.alloc());
    if status.line(&mut line).is_ok() {
        let _ = rt.stderr().write_all(&line);
    }
}

fn main(rt: HostRuntime) -> ExitCode {
    let status = match words(&rt) {
        Ok(words) => match information(&words) {
            Some(text) => inform(&rt, text),
            None => run(
                &rt,
                rt.alloc(),
                &words,
                &mut FileShelf::new(&rt),
                &mut OutSink::new(&rt),
            ),
        },
        Err(status) => status,
    };
    report(&rt, status);
    ExitCode::from(status.code())
}
