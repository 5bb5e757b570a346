//! What an instruction is, its operation and its fields, and the sets of instructions.

/// The instructions that a text may have.
#[derive(Clone, Copy, Debug, PartialEq, Eq)]
pub enum Set {
    /// RV32I alone.
    Base,
    /// RV32I with RV32M, the standard extension for integer multiplication and division.
    Mul,
}

/// The forty operations of RV32I and the eight of RV32M, in the order of the table.
///
/// Their sections are 2.4 "Integer Computational Instructions", 2.5 "Control Transfer
/// Instructions", 2.6 "Load and Store Instructions", 2.7 "Memory Ordering Instructions", 2.8
/// "Environment Call and Breakpoints", 7.1 "Multiplication Operations" and 7.2 "Division Operations".
#[derive(Clone, Copy, Debug, PartialEq, Eq)]
pub enum Op {
    /// Load upper immediate (2.4).
    Lui,
    /// Add upper immediate to pc (2.4).
    Auipc,
    /// Jump and link (2.5).
    Jal,
    /// Jump and link to a register's address (2.5).
    Jalr,
    /// Branch if equal (2.5).
    Beq,
    /// Branch if not equal (2.5).
    Bne,
    /// Branch if less, signed (2.5).
    Blt,
    /// Branch if greater or equal, signed (2.5).
    Bge,
    /// Branch if less, unsigned (2.5).
    Bltu,
    /// Branch if greater or equal, unsigned (2.5).
    Bgeu,
    /// Load a byte, sign-extended (2.6).
    Lb,
    /// Load a halfword, sign-extended (2.6).
    Lh,
    /// Load a word (2.6).
    Lw,
    /// Load a byte, zero-extended (2.6).
    Lbu,
    /// Load a halfword, zero-extended (2.6).
    Lhu,
    /// Store a byte (2.6).
    Sb,
    /// Store a halfword (2.6).
    Sh,
    /// Store a word (2.6).
    Sw,
    /// Add the immediate (2.4).
    Addi,
    /// Set if less than the immediate, signed (2.4).
    Slti,
    /// Set if less than the immediate, unsigned (2.4).
    Sltiu,
    /// Exclusive or with the immediate (2.4).
    Xori,
    /// Or with the immediate (2.4).
    Ori,
    /// And with the immediate (2.4).
    Andi,
    /// Shift left by the immediate (2.4).
    Slli,
    /// Shift right by the immediate, zeros coming in (2.4).
    Srli,
    /// Shift right by the immediate, copies of the sign coming in (2.4).
    Srai,
    /// Add (2.4).
    Add,
    /// Subtract (2.4).
    Sub,
    /// Shift left (2.4).
    Sll,
    /// Set if less, signed (2.4).
    Slt,
    /// Set if less, unsigned (2.4).
    Sltu,
    /// Exclusive or (2.4).
    Xor,
    /// Shift right, zeros coming in (2.4).
    Srl,
    /// Shift right, copies of the sign coming in (2.4).
    Sra,
    /// Or (2.4).
    Or,
    /// And (2.4).
    And,
    /// Order memory accesses (2.7).
    Fence,
    /// Call the environment (2.8).
    Ecall,
    /// Call the debugger (2.8).
    Ebreak,
    /// Multiply: the low 32 bits of the product (7.1).
    Mul,
    /// Multiply, both signed: the high 32 bits of the product (7.1).
    Mulh,
    /// Multiply, the first signed and the second unsigned: the high 32 bits of the product (7.1).
    Mulhsu,
    /// Multiply, both unsigned: the high 32 bits of the product (7.1).
    Mulhu,
    /// Divide, signed, rounded towards zero (7.2).
    Div,
    /// Divide, unsigned (7.2).
    Divu,
    /// Remainder, signed, with the sign of the dividend (7.2).
    Rem,
    /// Remainder, unsigned (7.2).
    Remu,
}

/// An instruction. A field that the operation's format lacks is 0.
///
/// Registers are numbers below 32. The immediate is sign-extended and kept modulo 2^32; that of
/// LUI and AUIPC has its low twelve bits 0, and that of a shift is an amount, 0 to 31 (2.2 "Base
/// Instruction Formats" and 2.3 "Immediate Encoding Variants").
#[derive(Clone, Copy, Debug, PartialEq, Eq)]
pub struct Instr {
    pub op: Op,
    pub rd: u8,
    pub rs1: u8,
    pub rs2: u8,
    pub imm: u32,
}
