//! The audit: what became of every raise.
use crate::rule::LINES;

/// For each line: how often it was raised, how many of these raises joined an earlier one, how many
/// takes have it, and whether it pends still. A count stands still at 2^64 - 1.
#[derive(Clone, Copy, PartialEq, Eq, Debug)]
pub struct Audit {
    pub raised: [u64; LINES],
    pub joined: [u64; LINES],
    pub taken: [u64; LINES],
    pub pending: [u64; LINES],
}
