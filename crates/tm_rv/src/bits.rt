//! Bits of a word.

ghost use Rattle.std.specs.Prelude.{◌≡◌, ◌+◌, ◌-◌, ◌^◌, ◌<◌, ◌≤◌};
ghost use Rattle.tm_rv.specs.Instr.{field};

/// The bits from `high` down to `low`.
#[inline]
#[tactic(auto, using(crate::proofs::Masks::masked))]
pub fn field(word: u32, high: u32, low: u32) -> u32
    requires ordered { low ≤ high }
    requires within { high < 32 }
    requires partial { high < 31 + low }
    ensures value { result ≡ field word high low }
    ensures small { result < 2 ^ (high + 1 - low) }
{
    (word >> low) & ((1 << (high + 1 - low)) - 1)
}
