//! Counts for each line, from which the audit is made.
ghost use Rattle.std.specs.Prelude.{◌≡◌, ◌<◌, replicate, slice_index};
ghost use Rattle.std.specs.Int.{bit_at};
ghost use Rattle.tm_irq.specs.Tallies.{Gains, one_line};

use crate::rule::LINES;

/// A count for each line. A count stands still at 2^64 - 1.
#[derive(Clone, Copy)]
pub(crate) struct Tally {
    pub(crate) counts: [u64; LINES],
}

impl Tally {
    /// Nothing is counted yet.
    pub(crate) fn none() -> Tally
        ensures { result.counts ≡ replicate 16 0 }
    {
        Tally { counts: [0; LINES] }
    }

    /// One more of a line.
    pub(crate) fn add(&mut self, line: u8)
        requires { line < 16 }
        ensures { Gains self.old.counts self.new.counts (one_line line) }
    {
        let at = usize::from(line);
        self.counts[at] = self.counts[at].saturating_add(1);
    }

    /// One more of each line of a mask.
    pub(crate) fn add_mask(&mut self, mask: u32)
        ensures { Gains self.old.counts self.new.counts (λ line. bit_at mask line) }
    {
        for line in 0..LINES {
            self.counts[line] = self.counts[line].saturating_add(u64::from(mask >> line & 1));
        }
    }

    /// As many more of each line as were counted elsewhere.
    pub(crate) fn add_all(&mut self, other: &Tally)
        ensures { Gains self.old.counts self.new.counts (λ line. slice_index other.now.counts line) }
    {
        for line in 0..LINES {
            self.counts[line] = self.counts[line].saturating_add(other.counts[line]);
        }
    }
}
