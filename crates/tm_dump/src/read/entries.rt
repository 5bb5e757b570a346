//! One entry of a dump at a time, each with the rules of its fields.

ghost use Rattle.std.specs.Prelude.{◌≡◌, ◌==◌, Option};
ghost use Rattle.tm_log.specs.Window.{nobody};
ghost use Rattle.tm_dump.specs.Cursor.{Gives};
ghost use Rattle.tm_log.specs.WellFormed.{ended_by};
ghost use Rattle.tm_dump.specs.Reading.{is_zero_of, count_in, pc_in, instant_in, marker_in, is_task_or_nobody, follows, from_in, kind_in, kind_of, goes_to, to_in, switch_in, byte_below, output_in, status_in, data_in};

use super::cursor::{Cursor, ruled};
use crate::DumpFault;
use tm_marker::{DataEntry, EPOCH_LENGTH, Kind, Marker, NOBODY, OutputEntry, Switch};

/// What a ring of a dump keeps.
pub(crate) trait Entry: Copy {
    ghost use Rattle.std.specs.Prelude.{ℕ, Option};
    ghost use Rattle.tm_dump.specs.Cursor.{Cursor, Reading, Gives};

    ghost entry_in: { ℕ → Option Self → Cursor → Reading Self };

    /// The next entry, where there are so many tasks and this is the entry before.
    fn read(tasks: u8, before: Option<Self>, at: &mut Cursor<'_>) -> Result<Self, DumpFault>
        ensures { Gives (λ entry. (entry, at.new)) result (entry_in tasks before at.old) };
}

/// A field of a marker is 0 in that of nobody.
fn is_zero_of(nobody: bool, number: u64) -> bool
    ensures { result ≡ is_zero_of nobody number }
{
    !nobody || number == 0
}

fn count_of(nobody: bool, at: &mut Cursor<'_>) -> Result<u32, DumpFault>
    ensures { Gives (λ count. (count, at.new)) result (count_in nobody at.old) }
{
    let place = at.place();
    let count = at.word()?;
    ruled(
        place,
        count,
        count < EPOCH_LENGTH && is_zero_of(nobody, u64::from(count)),
    )
}

fn pc_of(nobody: bool, at: &mut Cursor<'_>) -> Result<u32, DumpFault>
    ensures { Gives (λ pc. (pc, at.new)) result (pc_in nobody at.old) }
{
    let place = at.place();
    let pc = at.word()?;
    ruled(place, pc, pc % 4 == 0 && is_zero_of(nobody, u64::from(pc)))
}

/// The count and the pc of a marker whose epoch was read.
pub(crate) fn instant(nobody: bool, epoch: u64, at: &mut Cursor<'_>) -> Result<Marker, DumpFault>
    ensures { Gives (λ marker. (marker, at.new)) result (instant_in nobody epoch at.old) }
{
    let count = count_of(nobody, at)?;
    let pc = pc_of(nobody, at)?;
    Ok(Marker { epoch, count, pc })
}

/// The marker of a task, or of nobody.
fn marker(nobody: bool, at: &mut Cursor<'_>) -> Result<Marker, DumpFault>
    ensures { Gives (λ marker. (marker, at.new)) result (marker_in nobody at.old) }
{
    let place = at.place();
    let epoch = at.long()?;
    let epoch = ruled(place, epoch, is_zero_of(nobody, epoch))?;
    instant(nobody, epoch, at)
}

fn is_task_or_nobody(tasks: u8, number: u8) -> bool
    ensures { result ≡ is_task_or_nobody tasks number }
{
    number < tasks || number == NOBODY
}

/// How the run stands after an entry of this kind: 0 it goes on, 1 after a fault, 2 after a shutdown.
pub(crate) fn ended_by(kind: Kind) -> u8
    ensures { result ≡ ended_by kind }
{
    match kind {
        Kind::Fault => 1,
        Kind::Shutdown => 2,
        Kind::Preempted | Kind::Waits | Kind::Ends | Kind::Idle => 0,
    }
}

/// Whether an entry may leave this task, or nobody, after the entry before.
fn follows(before: Option<Switch>, from: u8) -> bool
    ensures { result ≡ follows before from }
{
    match before {
        None => true,
        Some(before) => from == before.to && ended_by(before.kind) == 0,
    }
}

fn kind_of(number: u8) -> Kind
    ensures { result ≡ kind_of number }
{
    match number {
        0 => Kind::Preempted,
        1 => Kind::Waits,
        2 => Kind::Ends,
        3 => Kind::Fault,
        4 => Kind::Shutdown,
        _ => Kind::Idle,
    }
}

fn goes_to(kind: Kind, from: u8, to: u8) -> bool
    ensures { result ≡ goes_to kind from to }
{
    match kind {
        Kind::Preempted => to != NOBODY && to != from,
        Kind::Waits => to != from,
        Kind::Ends => true,
        Kind::Fault | Kind::Shutdown => to == NOBODY,
        Kind::Idle => to != NOBODY,
    }
}

/// Whom an entry leaves.
fn from_of(tasks: u8, before: Option<Switch>, at: &mut Cursor<'_>) -> Result<u8, DumpFault>
    ensures { Gives (λ from. (from, at.new)) result (from_in tasks before at.old) }
{
    let place = at.place();
    let from = at.byte()?;
    ruled(
        place,
        from,
        is_task_or_nobody(tasks, from) && follows(before, from),
    )
}

/// The kind of an entry that leaves this task, or nobody.
fn kind_from(from: u8, at: &mut Cursor<'_>) -> Result<Kind, DumpFault>
    ensures { Gives (λ kind. (kind, at.new)) result (kind_in from at.old) }
{
    let place = at.place();
    let number = at.byte()?;
    let keeps = if from == NOBODY {
        number == 5
    } else {
        number < 5
    };
    ruled(place, kind_of(number), keeps)
}

/// Whom an entry goes to.
fn to_of(tasks: u8, kind: Kind, from: u8, at: &mut Cursor<'_>) -> Result<u8, DumpFault>
    ensures { Gives (λ to. (to, at.new)) result (to_in tasks kind from at.old) }
{
    let place = at.place();
    let to = at.byte()?;
    ruled(
        place,
        to,
        is_task_or_nobody(tasks, to) && goes_to(kind, from, to),
    )
}

impl Entry for Switch {
    ghost use Rattle.tm_dump.specs.Reading.{switch_in};

    ghost entry_in = { switch_in };

    fn read(tasks: u8, before: Option<Switch>, at: &mut Cursor<'_>) -> Result<Switch, DumpFault>
        ensures { Gives (λ entry. (entry, at.new)) result (switch_in tasks before at.old) }
    {
        let from = from_of(tasks, before, at)?;
        let kind = kind_from(from, at)?;
        let from_at = marker(from == NOBODY, at)?;
        let to = to_of(tasks, kind, from, at)?;
        let to_at = marker(to == NOBODY, at)?;
        Ok(Switch {
            from,
            kind,
            from_at,
            to,
            to_at,
        })
    }
}

/// A number of one byte, below this limit.
fn byte_below(limit: u8, at: &mut Cursor<'_>) -> Result<u8, DumpFault>
    ensures { Gives (λ number. (number, at.new)) result (byte_below limit at.old) }
{
    let place = at.place();
    let number = at.byte()?;
    ruled(place, number, number < limit)
}

impl Entry for OutputEntry {
    ghost use Rattle.tm_dump.specs.Reading.{output_in};

    ghost entry_in = { output_in };

    fn read(
        tasks: u8,
        _before: Option<OutputEntry>,
        at: &mut Cursor<'_>,
    ) -> Result<OutputEntry, DumpFault>
        ensures { Gives (λ entry. (entry, at.new)) result (output_in tasks _before at.old) }
    {
        let task = byte_below(tasks, at)?;
        let port = byte_below(4, at)?;
        let value = at.word()?;
        Ok(OutputEntry { task, port, value })
    }
}

fn status_of(at: &mut Cursor<'_>) -> Result<u32, DumpFault>
    ensures { Gives (λ status. (status, at.new)) result (status_in at.old) }
{
    let place = at.place();
    let status = at.word()?;
    ruled(place, status, status <= 8)
}

impl Entry for DataEntry {
    ghost use Rattle.tm_dump.specs.Reading.{data_in};

    ghost entry_in = { data_in };

    fn read(
        _tasks: u8,
        _before: Option<DataEntry>,
        at: &mut Cursor<'_>,
    ) -> Result<DataEntry, DumpFault>
        ensures { Gives (λ entry. (entry, at.new)) result (data_in _tasks _before at.old) }
    {
        let service = at.byte()?;
        let status = status_of(at)?;
        let mut words = [0; 4];
        at.words(&mut words)?;
        Ok(DataEntry {
            service,
            status,
            words,
        })
    }
}
