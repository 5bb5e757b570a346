//! The high words of products.

ghost use Rattle.std.specs.Prelude.{◌≡◌, ◌*◌, ◌/◌, ◌^◌, ◌*ℤ◌, pos};
ghost use Rattle.std.specs.Int.{w32, cast_signed};
ghost use Rattle.tm_task.specs.Exec.{high_word};

/// The high 32 bits of the product of two signed words.
#[inline]
pub(crate) fn high_signed(x: u32, y: u32) -> u32
    ensures { result ≡ high_word (cast_signed w32 x *ℤ cast_signed w32 y) }
{
    high_word(product(x.cast_signed(), y.cast_signed()))
}

/// The high 32 bits of the product of a signed and an unsigned word.
#[inline]
pub(crate) fn high_mixed(x: u32, y: u32) -> u32
    ensures { result ≡ high_word (cast_signed w32 x *ℤ pos y) }
{
    high_word(i64::from(x.cast_signed()) * i64::from(y))
}

/// The high 32 bits of the product of two unsigned words.
#[inline]
pub(crate) fn high_unsigned(x: u32, y: u32) -> u32
    ensures { result ≡ x * y / 2 ^ 32 }
{
    let (_low, high) = x.carrying_mul(y, 0);
    high
}

/// The product of two signed words, which 64 bits hold.
#[inline]
fn product(x: i32, y: i32) -> i64
    ensures { result ≡ x *ℤ y }
{
    i64::from(x) * i64::from(y)
}

/// The high 32 bits of a product.
#[inline]
fn high_word(product: i64) -> u32
    ensures { result ≡ high_word product }
{
    ((product >> 32) as i32).cast_unsigned()
}
