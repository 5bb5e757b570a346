//! What is known of a task when its lines are printed.

use tm_marker::{Items, Marker, OutputEntry};

/// A task at an instant: its marker, its registers x1 to x31, and the data words to print, as
/// pairs of an address and a value in rising address.
#[derive(Debug, Drop)]
pub struct Seen {
    pub task: u8,
    pub at: Marker,
    pub regs: [u32; 31],
    pub changed: Items<(u32, u32)>,
}

/// How a task left the processor at the control entry `seq`, counted from 1: the cause of its
/// fault, or 0 where there is none, how it stands, and the outputs that it made since the control
/// entry before.
#[derive(Debug, Drop)]
pub struct Stop {
    pub seq: u64,
    pub cause: u8,
    pub seen: Seen,
    pub outputs: Items<OutputEntry>,
}

/// One task from the start of a text to its end: how it stands at the start, its stops in rising
/// order, how it stands at the end, and the outputs that it made since the last control entry.
#[derive(Debug, Drop)]
pub struct Track {
    pub start: Seen,
    pub stops: Items<Stop>,
    pub last: Seen,
    pub outputs: Items<OutputEntry>,
}

/// A replay of a window: the point that it begins from, who runs there or [`tm_marker::NOBODY`], and
/// each task in rising number.
#[derive(Debug, Drop)]
pub struct Replay {
    pub from: u64,
    pub running: u8,
    pub tracks: Items<Track>,
}
