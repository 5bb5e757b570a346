//! The fields of a word, and the word taken apart by each format (2.2 "Base Instruction Formats",
//! 2.3 "Immediate Encoding Variants").

ghost use Rattle.std.specs.Prelude.{◌≡◌, ◌<◌};
ghost use Rattle.tm_rv.specs.Table.{IType, SType, BType, UType, JType, ShiftType, row_for};
ghost use Rattle.tm_rv.specs.Instr.{IsRegister, imm_of, rd_of, rs1_of, rs2_of, split};

use crate::bits::field;
use crate::{Instr, Op};

/// The number of the register that a word writes, in the formats R, I, U and J.
#[inline]
pub fn rd(word: u32) -> u8
    ensures value { result ≡ rd_of word }
    ensures register { IsRegister result }
{
    field(word, 11, 7) as u8
}

/// The number of the first register that a word reads, in the formats R, I, S and B.
#[inline]
pub fn rs1(word: u32) -> u8
    ensures value { result ≡ rs1_of word }
    ensures register { IsRegister result }
{
    field(word, 19, 15) as u8
}

/// The number of the second register that a word reads, in the formats R, S and B.
#[inline]
pub fn rs2(word: u32) -> u8
    ensures value { result ≡ rs2_of word }
    ensures register { IsRegister result }
{
    field(word, 24, 20) as u8
}

/// The immediate of the format I.
#[inline]
pub fn immediate_i(word: u32) -> u32
    ensures { result ≡ imm_of IType word }
{
    (word.cast_signed() >> 20).cast_unsigned()
}

/// The immediate of the format S, of the stores.
#[inline]
pub fn immediate_s(word: u32) -> u32
    ensures { result ≡ imm_of SType word }
{
    // Here and below, no two of the parts have a bit in common.
    field(word, 11, 7) + ((word.cast_signed() >> 25).cast_unsigned() << 5)
}

/// The immediate of the format B, of the branches.
#[inline]
pub fn immediate_b(word: u32) -> u32
    ensures { result ≡ imm_of BType word }
{
    (field(word, 11, 8) << 1)
        + (field(word, 30, 25) << 5)
        + (field(word, 7, 7) << 11)
        + ((word.cast_signed() >> 31).cast_unsigned() << 12)
}

/// The immediate of the format U.
#[inline]
pub fn immediate_u(word: u32) -> u32
    ensures { result ≡ imm_of UType word }
{
    field(word, 31, 12) << 12
}

/// The immediate of the format J.
#[inline]
pub fn immediate_j(word: u32) -> u32
    ensures { result ≡ imm_of JType word }
{
    (field(word, 30, 21) << 1)
        + (field(word, 20, 20) << 11)
        + (field(word, 19, 12) << 12)
        + ((word.cast_signed() >> 31).cast_unsigned() << 20)
}

/// The amount of a shift by an immediate, below 32. It stands where other formats have rs2.
#[inline]
pub fn shift_amount(word: u32) -> u32
    ensures value { result ≡ imm_of ShiftType word }
    ensures below { result < 32 }
{
    field(word, 24, 20)
}

/// The instruction of a word that asks for the operation. A field that its format lacks is 0.
pub(crate) fn split(op: Op, word: u32) -> Instr
    ensures { result ≡ split (row_for op).format op word }
{
    let none = Instr {
        op,
        rd: 0,
        rs1: 0,
        rs2: 0,
        imm: 0,
    };
    match op {
        Op::Lui | Op::Auipc => Instr {
            rd: rd(word),
            imm: immediate_u(word),
            ..none
        },
        Op::Jal => Instr {
            rd: rd(word),
            imm: immediate_j(word),
            ..none
        },
        Op::Beq | Op::Bne | Op::Blt | Op::Bge | Op::Bltu | Op::Bgeu => Instr {
            rs1: rs1(word),
            rs2: rs2(word),
            imm: immediate_b(word),
            ..none
        },
        Op::Sb | Op::Sh | Op::Sw => Instr {
            rs1: rs1(word),
            rs2: rs2(word),
            imm: immediate_s(word),
            ..none
        },
        Op::Slli | Op::Srli | Op::Srai => Instr {
            rd: rd(word),
            rs1: rs1(word),
            imm: shift_amount(word),
            ..none
        },
        Op::Add
        | Op::Sub
        | Op::Sll
        | Op::Slt
        | Op::Sltu
        | Op::Xor
        | Op::Srl
        | Op::Sra
        | Op::Or
        | Op::And
        | Op::Mul
        | Op::Mulh
        | Op::Mulhsu
        | Op::Mulhu
        | Op::Div
        | Op::Divu
        | Op::Rem
        | Op::Remu => Instr {
            rd: rd(word),
            rs1: rs1(word),
            rs2: rs2(word),
            ..none
        },
        Op::Ecall | Op::Ebreak => none,
        Op::Jalr
        | Op::Lb
        | Op::Lh
        | Op::Lw
        | Op::Lbu
        | Op::Lhu
        | Op::Addi
        | Op::Slti
        | Op::Sltiu
        | Op::Xori
        | Op::Ori
        | Op::Andi
        | Op::Fence => Instr {
            rd: rd(word),
            rs1: rs1(word),
            imm: immediate_i(word),
            ..none
        },
    }
}
