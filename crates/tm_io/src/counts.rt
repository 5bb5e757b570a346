//! Counts and the numbers of calls.

ghost use Rattle.std.specs.Prelude.{◌≡◌};
ghost use Rattle.tm_io.specs.Counts.{is_listed};

/// Whether the number stands in the list.
pub(crate) fn is_listed(numbers: &[u64], number: u64) -> bool
    ensures { result ≡ is_listed numbers.now number }
{
    numbers.contains(&number)
}
