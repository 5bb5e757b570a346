//! Quotients and remainders, which no divisor makes fault.

ghost use Rattle.std.specs.Prelude.{◌≡◌};
ghost use Rattle.tm_task.specs.Exec.{quotient, quotient_unsigned, remainder, remainder_unsigned};

/// The quotient of two signed words. That of -2^31 by -1 wraps to -2^31.
#[inline]
pub(crate) fn quotient(x: u32, y: u32) -> u32
    ensures { result ≡ quotient x y }
{
    if y == 0 {
        return u32::MAX;
    }
    x.cast_signed()
        .wrapping_div(y.cast_signed())
        .cast_unsigned()
}

/// The quotient of two unsigned words.
#[inline]
pub(crate) fn quotient_unsigned(x: u32, y: u32) -> u32
    ensures { result ≡ quotient_unsigned x y }
{
    if y == 0 { u32::MAX } else { x / y }
}

/// The remainder of two signed words.
#[inline]
pub(crate) fn remainder(x: u32, y: u32) -> u32
    ensures { result ≡ remainder x y }
{
    if y == 0 {
        return x;
    }
    x.cast_signed()
        .wrapping_rem(y.cast_signed())
        .cast_unsigned()
}

/// The remainder of two unsigned words.
#[inline]
pub(crate) fn remainder_unsigned(x: u32, y: u32) -> u32
    ensures { result ≡ remainder_unsigned x y }
{
    if y == 0 { x } else { x % y }
}
