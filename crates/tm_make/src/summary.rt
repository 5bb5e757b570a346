//! The summary of a run.

ghost use Rattle.std.specs.Prelude.{◌≡◌, ◌++◌, decimal, IfOk, OnOk};
ghost use Rattle.tm_make.specs.Summary.{line, point_text, summary_text};

use itoa::Buffer;
use std::alloc::{AllocError, Global};

/// What is told of a run and its replay.
#[derive(Clone, Copy, Debug, PartialEq, Eq)]
pub(crate) struct Summary {
    /// The number that made the run.
    pub number: u32,
    pub slices: u32,
    /// How many control entries the run has.
    pub entries: u64,
    /// From how many points it can be replayed, and the least of them.
    pub points: u64,
    pub least: Option<u64>,
    /// The length of its text from there.
    pub bytes: u64,
}

/// A summary as text.
#[tactic(auto, unfolding(crate::specs::Summary::summary_text))]
pub(crate) fn summary_text(alloc: Global, summary: &Summary) -> Result<Vec<u8>, AllocError>
    ensures { IfOk result (λ text. text.items ≡ summary_text summary.now) }
{
    let mut text = Vec::new(alloc);
    put_number(b"make", u64::from(summary.number), &mut text)?;
    put_number(b"slices", u64::from(summary.slices), &mut text)?;
    put_number(b"entries", summary.entries, &mut text)?;
    put_number(b"points", summary.points, &mut text)?;
    put_point(b"least", summary.least, &mut text)?;
    put_number(b"bytes", summary.bytes, &mut text)?;
    Ok(text)
}

/// Appends a line with a point, or `-` for none.
fn put_point(name: &[u8], point: Option<u64>, text: &mut Vec<u8>) -> Result<(), AllocError>
    ensures { OnOk result (text.new.items ≡ text.old.items ++ line name.now (point_text point)) }
{
    match point {
        Some(point) => put_number(name, point, text),
        None => put_line(name, b"-", text),
    }
}

/// Appends a line with a number.
fn put_number(name: &[u8], number: u64, text: &mut Vec<u8>) -> Result<(), AllocError>
    ensures { OnOk result (text.new.items ≡ text.old.items ++ line name.now (decimal number)) }
{
    let mut buffer = Buffer::new();
    put_line(name, buffer.format(number).as_bytes(), text)
}

/// Appends a line, or a part of it where memory is wanting.
fn put_line(name: &[u8], value: &[u8], text: &mut Vec<u8>) -> Result<(), AllocError>
    ensures { OnOk result (text.new.items ≡ text.old.items ++ line name.now value.now) }
{
    text.extend_from_slice(name)?;
    text.extend_from_slice(b" ")?;
    text.extend_from_slice(value)?;
    text.extend_from_slice(b"\n")
}
