//! The slices that a number makes.

ghost use Rattle.std.specs.Prelude.{◌≡◌};
ghost use Rattle.tm_image.specs.Plan.{IsSlice};
ghost use Rattle.tm_make.specs.Script.{next_number, slice_by};

use tm_marker::Slice;

/// How many slices the run has.
pub const SLICES: u32 = 20_000;

/// The generator's number after this one.
pub(crate) fn next_number(number: u32) -> u32
    ensures { result ≡ next_number number }
{
    number.wrapping_mul(1_664_525).wrapping_add(1_013_904_223)
}

/// The slice that a number makes.
pub(crate) fn slice_by(number: u32) -> Slice
    ensures slice { result ≡ slice_by number }
    ensures valid { IsSlice result }
{
    Slice {
        length: 1 + number / 0x1_0000 % 1000,
        mask: 1 + (number / 0x100 & 0b110),
        ports: [number, 0, 0, 0],
    }
}
