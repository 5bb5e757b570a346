//! From a word to the operation and to the instruction that it is.

ghost use Rattle.std.specs.Prelude.{◌≡◌, ℕ, ◌^◌, ◌<◌, IfSome};
ghost use Rattle.tm_rv.specs.ByFields.{op_among, op_by};
ghost use Rattle.tm_rv.specs.Instr.{instr_of, instr_with, IsRegister, IsEncodable};
ghost use Rattle.tm_rv.specs.Table.{multiplications, op_of};

use crate::formats::split;
use crate::{Instr, Op, Set};

// The major opcodes, by their names in table 24.1, "RISC-V base opcode map".
const LOAD: u32 = 0b00_000_11;

const MISC_MEM: u32 = 0b00_011_11;

const OP_IMM: u32 = 0b00_100_11;

const AUIPC: u32 = 0b00_101_11;

const STORE: u32 = 0b01_000_11;

const OP: u32 = 0b01_100_11;

const LUI: u32 = 0b01_101_11;

const BRANCH: u32 = 0b11_000_11;

const JALR: u32 = 0b11_001_11;

const JAL: u32 = 0b11_011_11;

const SYSTEM: u32 = 0b11_100_11;

// What tells the multiplications and divisions from the rest of OP.
const MULDIV: u32 = 0b0000001;

// The two words of SYSTEM.
const ECALL: u32 = 0x0000_0073;

const EBREAK: u32 = 0x0010_0073;

/// The instruction that a word is, or `None` where no row of the set's table matches (chapter 24,
/// "RV32/64G Instruction Set Listings", RV32I Base Instruction Set and RV32M Standard Extension).
#[inline]
pub fn decode(word: u32, set: Set) -> Option<Instr>
    ensures table { result ≡ instr_of word set }
    ensures encodable { IfSome result IsEncodable }
    ensures registers { IfSome result (λ i. IsRegister i.rd × IsRegister i.rs1 × IsRegister i.rs2) }
    ensures immediate { IfSome result (λ i. i.imm < 2 ^ 32) }
{
    match operation(word, set) {
        Some(op) => Some(split(op, word)),
        None => None,
    }
}

/// The operation that a word asks for, or `None` where no row of the set's table matches. The
/// instruction's fields are those of the operation's format: [`crate::rd`] and its like take each
/// out of the word by itself, for who needs no whole [`Instr`].
#[inline]
pub fn operation(word: u32, set: Set) -> Option<Op>
    ensures table { result ≡ op_of word set }
    ensures decoded { instr_of word set ≡ instr_with result word }
{
    let (opcode, funct3, funct7) = (word & 0x7f, (word >> 12) & 7, word >> 25);
    let base = by_fields(opcode, funct3, funct7, word);
    match set {
        Set::Base => base,
        Set::Mul => base.or(multiplication(opcode, funct3, funct7)),
    }
}

/// The opcode tells the format, but for shifts by an immediate amount.
#[inline]
fn by_fields(opcode: u32, funct3: u32, funct7: u32, word: u32) -> Option<Op>
    ensures { result ≡ op_by opcode funct3 funct7 word }
{
    match opcode {
        LUI => Some(Op::Lui),
        AUIPC => Some(Op::Auipc),
        JAL => Some(Op::Jal),
        JALR if funct3 == 0 => Some(Op::Jalr),
        BRANCH => branch(funct3),
        LOAD => load(funct3),
        STORE => store(funct3),
        OP_IMM => with_immediate(funct3, funct7),
        OP => with_register(funct3, funct7),
        MISC_MEM if funct3 == 0 => Some(Op::Fence),
        SYSTEM if word == ECALL => Some(Op::Ecall),
        SYSTEM if word == EBREAK => Some(Op::Ebreak),
        _ => None,
    }
}

#[inline]
#[tactic(auto, using(std::proofs::lemmas::Bool::Decides::nat_tests))]
fn branch(funct3: u32) -> Option<Op>
    ensures { (funct7 word : ℕ) → result ≡ op_by BRANCH funct3 funct7 word }
{
    match funct3 {
        0b000 => Some(Op::Beq),
        0b001 => Some(Op::Bne),
        0b100 => Some(Op::Blt),
        0b101 => Some(Op::Bge),
        0b110 => Some(Op::Bltu),
        0b111 => Some(Op::Bgeu),
        _ => None,
    }
}

#[inline]
#[tactic(auto, using(std::proofs::lemmas::Bool::Decides::nat_tests))]
fn load(funct3: u32) -> Option<Op>
    ensures { (funct7 word : ℕ) → result ≡ op_by LOAD funct3 funct7 word }
{
    match funct3 {
        0b000 => Some(Op::Lb),
        0b001 => Some(Op::Lh),
        0b010 => Some(Op::Lw),
        0b100 => Some(Op::Lbu),
        0b101 => Some(Op::Lhu),
        _ => None,
    }
}

#[inline]
#[tactic(auto, using(std::proofs::lemmas::Bool::Decides::nat_tests))]
fn store(funct3: u32) -> Option<Op>
    ensures { (funct7 word : ℕ) → result ≡ op_by STORE funct3 funct7 word }
{
    match funct3 {
        0b000 => Some(Op::Sb),
        0b001 => Some(Op::Sh),
        0b010 => Some(Op::Sw),
        _ => None,
    }
}

#[inline]
#[tactic(auto, using(std::proofs::lemmas::Bool::Decides::nat_tests))]
fn with_immediate(funct3: u32, funct7: u32) -> Option<Op>
    ensures { (word : ℕ) → result ≡ op_by OP_IMM funct3 funct7 word }
{
    match (funct3, funct7) {
        (0b000, _) => Some(Op::Addi),
        (0b001, 0b0000000) => Some(Op::Slli),
        (0b010, _) => Some(Op::Slti),
        (0b011, _) => Some(Op::Sltiu),
        (0b100, _) => Some(Op::Xori),
        (0b101, 0b0000000) => Some(Op::Srli),
        (0b101, 0b0100000) => Some(Op::Srai),
        (0b110, _) => Some(Op::Ori),
        (0b111, _) => Some(Op::Andi),
        _ => None,
    }
}

#[inline]
#[tactic(auto, using(std::proofs::lemmas::Bool::Decides::nat_tests))]
fn with_register(funct3: u32, funct7: u32) -> Option<Op>
    ensures { (word : ℕ) → result ≡ op_by OP funct3 funct7 word }
{
    match (funct3, funct7) {
        (0b000, 0b0000000) => Some(Op::Add),
        (0b000, 0b0100000) => Some(Op::Sub),
        (0b001, 0b0000000) => Some(Op::Sll),
        (0b010, 0b0000000) => Some(Op::Slt),
        (0b011, 0b0000000) => Some(Op::Sltu),
        (0b100, 0b0000000) => Some(Op::Xor),
        (0b101, 0b0000000) => Some(Op::Srl),
        (0b101, 0b0100000) => Some(Op::Sra),
        (0b110, 0b0000000) => Some(Op::Or),
        (0b111, 0b0000000) => Some(Op::And),
        _ => None,
    }
}

/// The multiplications and divisions.
#[inline]
#[tactic(auto, using(std::proofs::lemmas::Bool::Decides::nat_tests))]
fn multiplication(opcode: u32, funct3: u32, funct7: u32) -> Option<Op>
    ensures { (word : ℕ) → result ≡ op_among multiplications opcode funct3 funct7 word }
{
    if opcode != OP || funct7 != MULDIV {
        return None;
    }
    match funct3 {
        0b000 => Some(Op::Mul),
        0b001 => Some(Op::Mulh),
        0b010 => Some(Op::Mulhsu),
        0b011 => Some(Op::Mulhu),
        0b100 => Some(Op::Div),
        0b101 => Some(Op::Divu),
        0b110 => Some(Op::Rem),
        0b111 => Some(Op::Remu),
        _ => None,
    }
}
