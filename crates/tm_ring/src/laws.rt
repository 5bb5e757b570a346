//! The numbers of this crate, as figures. The function does nothing: its clauses are the laws.

ghost use Rattle.std.specs.Prelude.{ℕ, ◌+◌, ◌^◌, []};
ghost use Rattle.tm_ring.specs.Kept.{kept, IsRing};

/// The greatest capacity and total of a ring, and those that are one more.
pub fn sizes_end()
    ensures cap { IsRing (kept {X = ℕ} [] (2 ^ 53) 65536) }
    ensures greater_cap { IsRing (kept {X = ℕ} [] 0 65537) → ⊥ }
    ensures greater_total { IsRing (kept {X = ℕ} [] (2 ^ 53 + 1) 1) → ⊥ }
{}
