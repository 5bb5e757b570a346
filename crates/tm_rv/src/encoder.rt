//! From an instruction to the word that means it.

ghost use Rattle.std.specs.Prelude.{◌≡◌, ℕ, ◌^◌, ◌<◌};
ghost use Rattle.tm_rv.specs.declared.instr.Set.{Set};
ghost use Rattle.tm_rv.specs.Table.{row_for, BType, JType};
ghost use Rattle.tm_rv.specs.Instr.{instr_of, IsEncodable};
ghost use Rattle.tm_rv.specs.Word.{placed};

use crate::bits::field;
use crate::{Instr, Op};

/// The one word that is decoded to this instruction where the set has it, so that [`crate::decode`] and
/// `encode` undo each other. The fields have to be in the range of the operation's format: registers below 32,
/// an immediate that the format can hold, and 0 for what the format lacks (2.2 "Base Instruction
/// Formats", 2.3 "Immediate Encoding Variants").
pub fn encode(instr: &Instr) -> u32
    requires { IsEncodable instr.now }
    ensures decodes { instr_of result Set.Mul ≡ Some instr.now }
    ensures only { (word : ℕ) (set : Set) → word < 2 ^ 32 → instr_of word set ≡ Some instr.now → result ≡ word }
{
    // No two of the parts have a bit in common.
    fixed_bits(instr.op)
        + (u32::from(instr.rd) << 7)
        + (u32::from(instr.rs1) << 15)
        + (u32::from(instr.rs2) << 20)
        + placed_immediate(instr.op, instr.imm)
}

/// The bits that all words of an operation have.
fn fixed_bits(op: Op) -> u32
    ensures { result ≡ (row_for op).bits }
{
    match op {
        Op::Lui => 0x0000_0037,
        Op::Auipc => 0x0000_0017,
        Op::Jal => 0x0000_006f,
        Op::Jalr => 0x0000_0067,
        Op::Beq => 0x0000_0063,
        Op::Bne => 0x0000_1063,
        Op::Blt => 0x0000_4063,
        Op::Bge => 0x0000_5063,
        Op::Bltu => 0x0000_6063,
        Op::Bgeu => 0x0000_7063,
        Op::Lb => 0x0000_0003,
        Op::Lh => 0x0000_1003,
        Op::Lw => 0x0000_2003,
        Op::Lbu => 0x0000_4003,
        Op::Lhu => 0x0000_5003,
        Op::Sb => 0x0000_0023,
        Op::Sh => 0x0000_1023,
        Op::Sw => 0x0000_2023,
        Op::Addi => 0x0000_0013,
        Op::Slti => 0x0000_2013,
        Op::Sltiu => 0x0000_3013,
        Op::Xori => 0x0000_4013,
        Op::Ori => 0x0000_6013,
        Op::Andi => 0x0000_7013,
        Op::Slli => 0x0000_1013,
        Op::Srli => 0x0000_5013,
        Op::Srai => 0x4000_5013,
        Op::Add => 0x0000_0033,
        Op::Sub => 0x4000_0033,
        Op::Sll => 0x0000_1033,
        Op::Slt => 0x0000_2033,
        Op::Sltu => 0x0000_3033,
        Op::Xor => 0x0000_4033,
        Op::Srl => 0x0000_5033,
        Op::Sra => 0x4000_5033,
        Op::Or => 0x0000_6033,
        Op::And => 0x0000_7033,
        Op::Fence => 0x0000_000f,
        Op::Ecall => 0x0000_0073,
        Op::Ebreak => 0x0010_0073,
        Op::Mul => 0x0200_0033,
        Op::Mulh => 0x0200_1033,
        Op::Mulhsu => 0x0200_2033,
        Op::Mulhu => 0x0200_3033,
        Op::Div => 0x0200_4033,
        Op::Divu => 0x0200_5033,
        Op::Rem => 0x0200_6033,
        Op::Remu => 0x0200_7033,
    }
}

/// The immediate's bits, where the operation's format has them.
fn placed_immediate(op: Op, imm: u32) -> u32
    ensures { result ≡ placed (row_for op).format imm }
{
    match op {
        Op::Lui | Op::Auipc => imm,
        Op::Jal => placed_jump(imm),
        Op::Beq | Op::Bne | Op::Blt | Op::Bge | Op::Bltu | Op::Bgeu => placed_branch(imm),
        Op::Sb | Op::Sh | Op::Sw => field(imm, 4, 0) << 7 | field(imm, 11, 5) << 25,
        Op::Slli | Op::Srli | Op::Srai => field(imm, 4, 0) << 20,
        Op::Add
        | Op::Sub
        | Op::Sll
        | Op::Slt
        | Op::Sltu
        | Op::Xor
        | Op::Srl
        | Op::Sra
        | Op::Or
        | Op::And
        | Op::Ecall
        | Op::Ebreak
        | Op::Mul
        | Op::Mulh
        | Op::Mulhsu
        | Op::Mulhu
        | Op::Div
        | Op::Divu
        | Op::Rem
        | Op::Remu => 0,
        Op::Jalr
        | Op::Lb
        | Op::Lh
        | Op::Lw
        | Op::Lbu
        | Op::Lhu
        | Op::Addi
        | Op::Slti
        | Op::Sltiu
        | Op::Xori
        | Op::Ori
        | Op::Andi
        | Op::Fence => field(imm, 11, 0) << 20,
    }
}

fn placed_branch(imm: u32) -> u32
    ensures { result ≡ placed BType imm }
{
    field(imm, 11, 11) << 7
        | field(imm, 4, 1) << 8
        | field(imm, 10, 5) << 25
        | field(imm, 12, 12) << 31
}

fn placed_jump(imm: u32) -> u32
    ensures { result ≡ placed JType imm }
{
    field(imm, 19, 12) << 12
        | field(imm, 11, 11) << 20
        | field(imm, 10, 1) << 21
        | field(imm, 20, 20) << 31
}
