//! How a call of the program ended.

ghost use Rattle.std.specs.Prelude.{◌≡◌, ◌++◌, codes, ◌<◌, is_none, IfOk, IfSome, OnOk, OnErr};
ghost use Rattle.tm_prog.specs.declared.status.Status.{Status};
ghost use Rattle.tm_prog.specs.Status.{code_of, is_numbered, line_of, reason_name, refusal_line, why_name, diverged_begun, why_end};
ghost use Rattle.tm_spelling.specs.Lines.{digit, hex8, marker_text};

use crate::digits::put_decimal;
use std::alloc::{AllocError, Global};
use tm_dump::DumpFault;
use tm_elf::ElfFault;
use tm_image::{ImageFault, PlanFault, Reason};
use tm_marker::Marker;
use tm_points::Lost;
use tm_system::{Diverged, Why};

/// How a call of the program ended.
#[derive(Clone, Copy, Debug, PartialEq, Eq)]
pub enum Status {
    /// All was done.
    Ok,
    /// The words are of no form.
    Words,
    /// A file could not be read.
    ReadFault,
    /// The image's text is refused, by its first bad line.
    Image(ImageFault),
    /// The plan's text is refused, by its first bad line.
    Plan(PlanFault),
    /// The bytes are no dump of a window of the image that a run could have left.
    Dump(DumpFault),
    /// The window can't be replayed from the point.
    Point(Lost),
    /// The tasks of the image do not do what the window says.
    Diverged(Diverged),
    /// The text could not be written, or a file could not be put.
    WriteFault,
    /// The file with this number, from 1, is longer than its limit.
    TooLong(u8),
    /// Want of memory.
    Memory,
    /// The bytes are no executable that a task can be loaded from.
    Elf(ElfFault),
    /// The image has no task of this number.
    NoTask(u8),
}

impl Status {
    /// The exit status.
    pub fn code(&self) -> u8
        ensures { result ≡ code_of self.now }
    {
        match self {
            Status::Ok => 0,
            Status::Words => 2,
            Status::ReadFault => 3,
            Status::Image(_) => 4,
            Status::Plan(_) => 5,
            Status::Dump(_) => 6,
            Status::Point(_) => 7,
            Status::Diverged(_) => 8,
            Status::WriteFault => 9,
            Status::TooLong(_) => 10,
            Status::Memory => 11,
            Status::Elf(_) => 13,
            Status::NoTask(_) => 14,
        }
    }

    /// The line for standard error, where it has no number in it: it takes no memory. Ok has none.
    pub fn fixed_line(&self) -> Option<&'static [u8]>
        ensures line { IfSome result (λ line. line.now ≡ line_of self.now) }
        ensures numbered { is_none result ≡ is_numbered self.now }
    {
        match self {
            Status::Ok => Some(b""),
            Status::Words => Some(b"tm: words\n"),
            Status::ReadFault => Some(b"tm: read fault\n"),
            Status::WriteFault => Some(b"tm: write fault\n"),
            Status::Memory => Some(b"tm: memory\n"),
            Status::Image(_)
            | Status::Plan(_)
            | Status::Dump(_)
            | Status::Point(_)
            | Status::Diverged(_)
            | Status::TooLong(_)
            | Status::Elf(_)
            | Status::NoTask(_) => None,
        }
    }

    /// Appends the line for standard error. Ok has none.
    pub fn line(&self, into: &mut Vec<u8>) -> Result<(), AllocError>
        ensures ok { OnOk result (into.new.items ≡ into.old.items ++ line_of self.now) }
        ensures err { OnErr result (into.new.items ≡ into.old.items) }
    {
        match self {
            Status::Image(fault) => refusal_line("image", fault, into),
            Status::Plan(fault) => refusal_line("plan", fault, into),
            Status::Dump(fault) => dump_line(fault, into),
            Status::Point(missing) => point_line(missing, into),
            Status::Diverged(found) => diverged_line(found, into),
            Status::TooLong(file) => too_long_line(*file, into),
            Status::Elf(fault) => elf_line(fault, into),
            Status::NoTask(task) => no_task_line(*task, into),
            _ => into.extend_from_slice(self.fixed_line().unwrap_or_default()),
        }
    }
}

/// Appends the line of a refused text.
fn refusal_line(kind: &str, fault: &ImageFault, into: &mut Vec<u8>) -> Result<(), AllocError>
    ensures ok { OnOk result (into.new.items ≡ into.old.items ++ refusal_line kind.now fault.now) }
    ensures err { OnErr result (into.new.items ≡ into.old.items) }
{
    let alloc = *into.allocator();
    let reason = reason_name(fault.reason);
    let line = format!(in alloc; "tm: {kind} line {} {reason}\n", fault.line)?;
    into.extend_from_slice(line.as_bytes())
}

/// Appends the line of [`Status::Dump`].
fn dump_line(fault: &DumpFault, into: &mut Vec<u8>) -> Result<(), AllocError>
    ensures ok { OnOk result (into.new.items ≡ into.old.items ++ line_of (Status.Dump fault.now)) }
    ensures err { OnErr result (into.new.items ≡ into.old.items) }
{
    let alloc = *into.allocator();
    let line = match fault {
        DumpFault::Magic => return into.extend_from_slice(b"tm: dump magic\n"),
        DumpFault::Digest { .. } => return into.extend_from_slice(b"tm: dump digest\n"),
        DumpFault::OtherImage { .. } => return into.extend_from_slice(b"tm: dump other image\n"),
        DumpFault::Memory => return into.extend_from_slice(b"tm: dump memory\n"),
        DumpFault::Version(version) => format!(in alloc; "tm: dump version {version}\n")?,
        DumpFault::Field { place } => format!(in alloc; "tm: dump field {place}\n")?,
        DumpFault::Extra { place } => format!(in alloc; "tm: dump extra {place}\n")?,
    };
    into.extend_from_slice(line.as_bytes())
}

/// Appends the line of [`Status::Point`].
fn point_line(missing: &Lost, into: &mut Vec<u8>) -> Result<(), AllocError>
    ensures ok { OnOk result (into.new.items ≡ into.old.items ++ line_of (Status.Point missing.now)) }
    ensures err { OnErr result (into.new.items ≡ into.old.items) }
{
    let alloc = *into.allocator();
    let line = match missing {
        Lost::Unknown { total } => format!(in alloc; "tm: point unknown {total}\n")?,
        Lost::Control { first } => format!(in alloc; "tm: point control {first}\n")?,
        Lost::Check { task, epoch } => format!(in alloc; "tm: point check {task} {epoch}\n")?,
        Lost::Data {
            task,
            needed,
            first,
        } => format!(in alloc; "tm: point data {task} {needed} {first}\n")?,
    };
    into.extend_from_slice(line.as_bytes())
}

/// Appends the line of [`Status::Diverged`].
fn diverged_line(found: &Diverged, into: &mut Vec<u8>) -> Result<(), AllocError>
    ensures ok { OnOk result (into.new.items ≡ into.old.items ++ line_of (Status.Diverged found.now)) }
    ensures err { OnErr result (into.new.items ≡ into.old.items) }
{
    let alloc = *into.allocator();
    let mut line = begun_line(alloc, found)?;
    put_marker(found.reached, &mut line)?;
    line.extend_from_slice(b" wanted ")?;
    put_marker(found.wanted, &mut line)?;
    put_why(why_name(found.why), &mut line)?;
    into.extend_from_slice(line.as_slice())
}

/// The line up to the marker that was reached.
fn begun_line(alloc: Global, found: &Diverged) -> Result<Vec<u8>, AllocError>
    ensures { IfOk result (λ line. line.items ≡ diverged_begun found.now) }
{
    let mut line = Vec::new(alloc);
    line.extend_from_slice(b"tm: diverged at ")?;
    put_decimal(found.seq, &mut line)?;
    line.extend_from_slice(b" task ")?;
    put_decimal(u64::from(found.task), &mut line)?;
    line.extend_from_slice(b" reached ")?;
    Ok(line)
}

/// Appends a marker, or a part of it where memory is wanting.
fn put_marker(at: Marker, into: &mut Vec<u8>) -> Result<(), AllocError>
    ensures { OnOk result (into.new.items ≡ into.old.items ++ marker_text at) }
{
    put_decimal(at.epoch, into)?;
    into.extend_from_slice(b".")?;
    put_decimal(u64::from(at.count), into)?;
    into.extend_from_slice(b".")?;
    into.extend_from_slice(&hex8(at.pc))
}

/// Appends the end of the line, or a part of it where memory is wanting.
fn put_why(why: &str, into: &mut Vec<u8>) -> Result<(), AllocError>
    ensures { OnOk result (into.new.items ≡ into.old.items ++ why_end why.now) }
{
    into.extend_from_slice(b" ")?;
    into.extend_from_slice(why.as_bytes())?;
    into.extend_from_slice(b"\n")
}

/// A hexadecimal digit, lower case.
fn digit_of(number: u32) -> u8
    requires { number < 16 }
    ensures { result ≡ digit number }
{
    if number < 10 {
        b'0' + number as u8
    } else {
        b'a' - 10 + number as u8
    }
}

/// A word in eight digits.
#[tactic(auto, unfolding(tm_spelling::specs::Lines::hex8))]
fn hex8(number: u32) -> [u8; 8]
    ensures { result ≡ hex8 number }
{
    [
        digit_of(number / 0x1000_0000 % 16),
        digit_of(number / 0x100_0000 % 16),
        digit_of(number / 0x10_0000 % 16),
        digit_of(number / 0x1_0000 % 16),
        digit_of(number / 0x1000 % 16),
        digit_of(number / 0x100 % 16),
        digit_of(number / 0x10 % 16),
        digit_of(number % 16),
    ]
}

/// Why a task does not do what the window says, in lower case.
fn why_name(why: Why) -> &'static str
    ensures { result.now ≡ why_name why }
{
    match why {
        Why::Passed => "passed",
        Why::Moved => "moved",
        Why::Faulted(_) => "faulted",
        Why::NoFault => "no fault",
        Why::NoEntry { .. } => "no entry",
        Why::OtherService { .. } => "other service",
        Why::Left { .. } => "left",
        Why::OtherOutput { .. } => "other output",
    }
}

/// Appends the line of [`Status::TooLong`].
fn too_long_line(file: u8, into: &mut Vec<u8>) -> Result<(), AllocError>
    ensures ok { OnOk result (into.new.items ≡ into.old.items ++ line_of (Status.TooLong file)) }
    ensures err { OnErr result (into.new.items ≡ into.old.items) }
{
    let alloc = *into.allocator();
    let line = format!(in alloc; "tm: too long {file}\n")?;
    into.extend_from_slice(line.as_bytes())
}

/// Appends the line of [`Status::Elf`].
fn elf_line(fault: &ElfFault, into: &mut Vec<u8>) -> Result<(), AllocError>
    ensures ok { OnOk result (into.new.items ≡ into.old.items ++ line_of (Status.Elf fault.now)) }
    ensures err { OnErr result (into.new.items ≡ into.old.items) }
{
    let alloc = *into.allocator();
    let line = match fault {
        ElfFault::NoText => return into.extend_from_slice(b"tm: elf no text\n"),
        ElfFault::Memory => return into.extend_from_slice(b"tm: elf memory\n"),
        ElfFault::Short { needed, length } => {
            format!(in alloc; "tm: elf short {needed} {length}\n")?
        }
        ElfFault::Field { place } => format!(in alloc; "tm: elf field {place}\n")?,
        ElfFault::Segment { index, why } => {
            let why = why.number();
            format!(in alloc; "tm: elf segment {index} {why}\n")?
        }
        ElfFault::Entry { value } => format!(in alloc; "tm: elf entry {value}\n")?,
    };
    into.extend_from_slice(line.as_bytes())
}

/// Appends the line of [`Status::NoTask`].
fn no_task_line(task: u8, into: &mut Vec<u8>) -> Result<(), AllocError>
    ensures ok { OnOk result (into.new.items ≡ into.old.items ++ line_of (Status.NoTask task)) }
    ensures err { OnErr result (into.new.items ≡ into.old.items) }
{
    let alloc = *into.allocator();
    let line = format!(in alloc; "tm: no task {task}\n")?;
    into.extend_from_slice(line.as_bytes())
}

/// The name of a reason, in lower case.
fn reason_name(reason: Reason) -> &'static str
    ensures { result.now ≡ reason_name reason }
{
    match reason {
        Reason::Form => "form",
        Reason::Number => "number",
        Reason::Range => "range",
        Reason::Repeated => "repeated",
        Reason::Missing => "missing",
        Reason::Limit => "limit",
        Reason::Memory => "memory",
    }
}
