//! The multiplications and divisions of RV32M at the corners of their operands. What is wanted was worked out from
//! the words of the standard, apart from this program.

use super::cases::{Case, Want};
use super::check;
use std::test::Fail;

/// The operands: of each operation the results stand by the first operand, and then by the second.
const OPERANDS: [u32; 6] = [
    0x00000000, 0x00000001, 0xffffffff, 0x7fffffff, 0x80000000, 0x12345678,
];

/// An operation's name, its word with a2, a0 and a1 as rd, rs1 and rs2, and its results.
type Row = (&'static str, u32, [[u32; 6]; 6]);

static TABLE: [Row; 8] = [
    (
        "mul",
        0x02b50633,
        [
            [
                0x00000000, 0x00000000, 0x00000000, 0x00000000, 0x00000000, 0x00000000,
            ],
            [
                0x00000000, 0x00000001, 0xffffffff, 0x7fffffff, 0x80000000, 0x12345678,
            ],
            [
                0x00000000, 0xffffffff, 0x00000001, 0x80000001, 0x80000000, 0xedcba988,
            ],
            [
                0x00000000, 0x7fffffff, 0x80000001, 0x00000001, 0x80000000, 0xedcba988,
            ],
            [
                0x00000000, 0x80000000, 0x80000000, 0x80000000, 0x00000000, 0x00000000,
            ],
            [
                0x00000000, 0x12345678, 0xedcba988, 0xedcba988, 0x00000000, 0x1df4d840,
            ],
        ],
    ),
    (
        "mulh",
        0x02b51633,
        [
            [
                0x00000000, 0x00000000, 0x00000000, 0x00000000, 0x00000000, 0x00000000,
            ],
            [
                0x00000000, 0x00000000, 0xffffffff, 0x00000000, 0xffffffff, 0x00000000,
            ],
            [
                0x00000000, 0xffffffff, 0x00000000, 0xffffffff, 0x00000000, 0xffffffff,
            ],
            [
                0x00000000, 0x00000000, 0xffffffff, 0x3fffffff, 0xc0000000, 0x091a2b3b,
            ],
            [
                0x00000000, 0xffffffff, 0x00000000, 0xc0000000, 0x40000000, 0xf6e5d4c4,
            ],
            [
                0x00000000, 0x00000000, 0xffffffff, 0x091a2b3b, 0xf6e5d4c4, 0x014b66dc,
            ],
        ],
    ),
    (
        "mulhsu",
        0x02b52633,
        [
            [
                0x00000000, 0x00000000, 0x00000000, 0x00000000, 0x00000000, 0x00000000,
            ],
            [
                0x00000000, 0x00000000, 0x00000000, 0x00000000, 0x00000000, 0x00000000,
            ],
            [
                0x00000000, 0xffffffff, 0xffffffff, 0xffffffff, 0xffffffff, 0xffffffff,
            ],
            [
                0x00000000, 0x00000000, 0x7ffffffe, 0x3fffffff, 0x3fffffff, 0x091a2b3b,
            ],
            [
                0x00000000, 0xffffffff, 0x80000000, 0xc0000000, 0xc0000000, 0xf6e5d4c4,
            ],
            [
                0x00000000, 0x00000000, 0x12345677, 0x091a2b3b, 0x091a2b3c, 0x014b66dc,
            ],
        ],
    ),
    (
        "mulhu",
        0x02b53633,
        [
            [
                0x00000000, 0x00000000, 0x00000000, 0x00000000, 0x00000000, 0x00000000,
            ],
            [
                0x00000000, 0x00000000, 0x00000000, 0x00000000, 0x00000000, 0x00000000,
            ],
            [
                0x00000000, 0x00000000, 0xfffffffe, 0x7ffffffe, 0x7fffffff, 0x12345677,
            ],
            [
                0x00000000, 0x00000000, 0x7ffffffe, 0x3fffffff, 0x3fffffff, 0x091a2b3b,
            ],
            [
                0x00000000, 0x00000000, 0x7fffffff, 0x3fffffff, 0x40000000, 0x091a2b3c,
            ],
            [
                0x00000000, 0x00000000, 0x12345677, 0x091a2b3b, 0x091a2b3c, 0x014b66dc,
            ],
        ],
    ),
    (
        "div",
        0x02b54633,
        [
            [
                0xffffffff, 0x00000000, 0x00000000, 0x00000000, 0x00000000, 0x00000000,
            ],
            [
                0xffffffff, 0x00000001, 0xffffffff, 0x00000000, 0x00000000, 0x00000000,
            ],
            [
                0xffffffff, 0xffffffff, 0x00000001, 0x00000000, 0x00000000, 0x00000000,
            ],
            [
                0xffffffff, 0x7fffffff, 0x80000001, 0x00000001, 0x00000000, 0x00000007,
            ],
            [
                0xffffffff, 0x80000000, 0x80000000, 0xffffffff, 0x00000001, 0xfffffff9,
            ],
            [
                0xffffffff, 0x12345678, 0xedcba988, 0x00000000, 0x00000000, 0x00000001,
            ],
        ],
    ),
    (
        "divu",
        0x02b55633,
        [
            [
                0xffffffff, 0x00000000, 0x00000000, 0x00000000, 0x00000000, 0x00000000,
            ],
            [
                0xffffffff, 0x00000001, 0x00000000, 0x00000000, 0x00000000, 0x00000000,
            ],
            [
                0xffffffff, 0xffffffff, 0x00000001, 0x00000002, 0x00000001, 0x0000000e,
            ],
            [
                0xffffffff, 0x7fffffff, 0x00000000, 0x00000001, 0x00000000, 0x00000007,
            ],
            [
                0xffffffff, 0x80000000, 0x00000000, 0x00000001, 0x00000001, 0x00000007,
            ],
            [
                0xffffffff, 0x12345678, 0x00000000, 0x00000000, 0x00000000, 0x00000001,
            ],
        ],
    ),
    (
        "rem",
        0x02b56633,
        [
            [
                0x00000000, 0x00000000, 0x00000000, 0x00000000, 0x00000000, 0x00000000,
            ],
            [
                0x00000001, 0x00000000, 0x00000000, 0x00000001, 0x00000001, 0x00000001,
            ],
            [
                0xffffffff, 0x00000000, 0x00000000, 0xffffffff, 0xffffffff, 0xffffffff,
            ],
            [
                0x7fffffff, 0x00000000, 0x00000000, 0x00000000, 0x7fffffff, 0x0091a2b7,
            ],
            [
                0x80000000, 0x00000000, 0x00000000, 0xffffffff, 0x00000000, 0xff6e5d48,
            ],
            [
                0x12345678, 0x00000000, 0x00000000, 0x12345678, 0x12345678, 0x00000000,
            ],
        ],
    ),
    (
        "remu",
        0x02b57633,
        [
            [
                0x00000000, 0x00000000, 0x00000000, 0x00000000, 0x00000000, 0x00000000,
            ],
            [
                0x00000001, 0x00000000, 0x00000001, 0x00000001, 0x00000001, 0x00000001,
            ],
            [
                0xffffffff, 0x00000000, 0x00000000, 0x00000001, 0x7fffffff, 0x0123456f,
            ],
            [
                0x7fffffff, 0x00000000, 0x7fffffff, 0x00000000, 0x7fffffff, 0x0091a2b7,
            ],
            [
                0x80000000, 0x00000000, 0x80000000, 0x00000001, 0x00000000, 0x0091a2b8,
            ],
            [
                0x12345678, 0x00000000, 0x12345678, 0x12345678, 0x12345678, 0x00000000,
            ],
        ],
    ),
];

#[test]
fn multiplications_and_divisions_of_corners(rt: HostRuntime) -> Result<(), Fail> {
    for &(name, word, results) in &TABLE {
        for (x, row) in OPERANDS.iter().zip(results) {
            for (y, result) in OPERANDS.iter().zip(row) {
                let case: Case = (name, word, *x, *y, Want::A2(result));
                check(&rt, rt.alloc(), &[case])?;
            }
        }
    }
    Ok(())
}
