//! The instructions of RV32I and RV32M: what a word means, and which word means an instruction (The
//! RISC-V Instruction Set Manual, Volume I: Unprivileged ISA, 20191213, chapter 2, "RV32I Base Integer
//! Instruction Set, Version 2.1", and chapter 7, "M" Standard Extension for Integer Multiplication and
//! Division, Version 2.0).
//!
//! [`decode`] reads a word of a text with a [`Set`] of instructions as an [`Instr`], which names its
//! operation, an [`Op`], and the fields that the operation's format has. [`encode`] is its inverse: each
//! instruction whose fields are in range has exactly one word. [`name`] tells how the operation is written.
//! [`operation`] tells the operation alone, and [`rd`], [`rs1`], [`rs2`] and the immediates take one field
//! out of a word.
//!
//! The table of a set is the list `rows` in `specs/Table.antt`. A word belongs to the row whose mask leaves
//! the row's bits, and [`no_word_in_two_rows`] says that this is one row at most. The code looks at
//! opcode, funct3 and funct7 instead.
#![tactic(auto)]

mod bits;
mod code;
mod decoder;
mod encoder;
mod formats;
mod instr;
mod names;
mod table;

pub use code::{Code, CodeSlices};
pub use decoder::{decode, operation};
pub use encoder::encode;
pub use formats::{
    immediate_b, immediate_i, immediate_j, immediate_s, immediate_u, rd, rs1, rs2, shift_amount,
};
pub use instr::{Instr, Op, Set};
pub use names::name;
pub use table::no_word_in_two_rows;
