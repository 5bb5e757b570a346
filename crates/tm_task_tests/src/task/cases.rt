//! Cases worked by hand.

use Want::{A0, A2, Call, Fault, LinkA0, LinkA2, Stored, Went};
use tm_task::Cause;
use tm_task::Cause::{Break, Illegal, Range, Target, TextWrite, Unaligned};

/// What a case expects of the instruction at address 4.
#[derive(Clone, Copy)]
pub enum Want {
    /// a2, or a0, has the value, and the next instruction follows.
    A2(u32),
    A0(u32),
    /// The data word at this index has the value, and the next instruction follows.
    Stored(usize, u32),
    /// The program counter goes here, and so many backward transfers were counted.
    Went(u32, u32),
    /// The same, with the address of the next instruction in a2, or in a0.
    LinkA2(u32, u32),
    LinkA0(u32, u32),
    Call(u8),
    Fault(Cause),
}

/// The instruction, its word, what a0 and a1 hold, and what is expected.
pub type Case = (&'static str, u32, u32, u32, Want);

/// The text behind the case's instruction, and the data.
pub const TEXT_END: [u32; 2] = [0x80ff_7f01, 0xfedc_ba98];

pub const WORDS: [u32; 4] = [0x807f_ff80, 0x0000_7fff, 0x0bad_cafe, 0x8000_0001];

const MIN: u32 = 0x8000_0000;

const MAX: u32 = 0x7fff_ffff;

const ONES: u32 = 0xffff_ffff;

const DATA: u32 = 0x1000_0000;

const END: u32 = 0x1000_0010;

const VALUE: u32 = 0x1234_5678;

pub const ARITHMETIC: [Case; 58] = [
    ("add a2, a0, a1", 0x00b50633, 1, ONES, A2(0)),
    ("add a2, a0, a1", 0x00b50633, MAX, 1, A2(MIN)),
    ("add a2, a0, a1", 0x00b50633, MIN, MIN, A2(0)),
    ("sub a2, a0, a1", 0x40b50633, 0, 1, A2(ONES)),
    ("sub a2, a0, a1", 0x40b50633, MIN, 1, A2(MAX)),
    ("sub a2, a0, a1", 0x40b50633, 5, 0, A2(5)),
    ("sub a2, a0, a1", 0x40b50633, MIN, MIN, A2(0)),
    ("sll a2, a0, a1", 0x00b51633, 1, 31, A2(MIN)),
    ("sll a2, a0, a1", 0x00b51633, ONES, 32, A2(ONES)),
    (
        "sll a2, a0, a1",
        0x00b51633,
        ONES,
        0xffff_ffe4,
        A2(0xffff_fff0),
    ),
    ("slt a2, a0, a1", 0x00b52633, ONES, 0, A2(1)),
    ("slt a2, a0, a1", 0x00b52633, MAX, MIN, A2(0)),
    ("slt a2, a0, a1", 0x00b52633, MIN, MAX, A2(1)),
    ("slt a2, a0, a1", 0x00b52633, 7, 7, A2(0)),
    ("sltu a2, a0, a1", 0x00b53633, MIN, MAX, A2(0)),
    ("sltu a2, a0, a1", 0x00b53633, 1, ONES, A2(1)),
    ("sltu a2, a0, a1", 0x00b53633, ONES, ONES, A2(0)),
    ("xor a2, a0, a1", 0x00b54633, ONES, MAX, A2(MIN)),
    ("srl a2, a0, a1", 0x00b55633, MIN, 31, A2(1)),
    ("srl a2, a0, a1", 0x00b55633, MIN, 64, A2(MIN)),
    ("sra a2, a0, a1", 0x40b55633, MIN, 31, A2(ONES)),
    ("sra a2, a0, a1", 0x40b55633, MAX, 31, A2(0)),
    ("sra a2, a0, a1", 0x40b55633, MIN, 33, A2(0xc000_0000)),
    ("sra a2, a0, a1", 0x40b55633, MIN, 0, A2(MIN)),
    ("or a2, a0, a1", 0x00b56633, MIN, MAX, A2(ONES)),
    ("and a2, a0, a1", 0x00b57633, ONES, MIN, A2(MIN)),
    ("add a2, x0, a1", 0x00b00633, 3, 7, A2(7)),
    ("sub a2, a0, x0", 0x40050633, 9, 7, A2(9)),
    ("add x0, a0, a1", 0x00b50033, 1, 2, Went(8, 0)),
    ("addi a2, a0, -1", 0xfff50613, 0, 0, A2(ONES)),
    ("addi a2, a0, 2047", 0x7ff50613, MAX, 0, A2(0x8000_07fe)),
    ("addi a2, a0, -2048", 0x80050613, 0, 0, A2(0xffff_f800)),
    ("addi a2, a0, 1", 0x00150613, ONES, 0, A2(0)),
    ("slti a2, a0, 2047", 0x7ff52613, MIN, 0, A2(1)),
    ("slti a2, a0, -1", 0xfff52613, 0, 0, A2(0)),
    ("slti a2, a0, 0", 0x00052613, ONES, 0, A2(1)),
    ("sltiu a2, a0, -1", 0xfff53613, 0, 0, A2(1)),
    ("sltiu a2, a0, 1", 0x00153613, ONES, 0, A2(0)),
    ("sltiu a2, a0, 1", 0x00153613, 0, 0, A2(1)),
    ("sltiu a2, a0, 2047", 0x7ff53613, MIN, 0, A2(0)),
    ("xori a2, a0, -1", 0xfff54613, 0, 0, A2(ONES)),
    ("ori a2, a0, -2048", 0x80056613, 1, 0, A2(0xffff_f801)),
    ("andi a2, a0, 2032", 0x7f057613, ONES, 0, A2(0x0000_07f0)),
    ("slli a2, a0, 31", 0x01f51613, 1, 0, A2(MIN)),
    ("slli a2, a0, 0", 0x00051613, MIN, 0, A2(MIN)),
    ("slli a2, a0, 1", 0x00151613, MIN, 0, A2(0)),
    ("srli a2, a0, 31", 0x01f55613, MIN, 0, A2(1)),
    ("srli a2, a0, 0", 0x00055613, ONES, 0, A2(ONES)),
    ("srai a2, a0, 31", 0x41f55613, MIN, 0, A2(ONES)),
    ("srai a2, a0, 0", 0x40055613, MAX, 0, A2(MAX)),
    (
        "srai a2, a0, 4",
        0x40455613,
        0xffff_ff00,
        0,
        A2(0xffff_fff0),
    ),
    ("srai a2, a0, 31", 0x41f55613, MAX, 0, A2(0)),
    ("addi x0, a0, 1", 0x00150013, 1, 0, Went(8, 0)),
    ("addi a2, x0, 5", 0x00500613, 1, 0, A2(5)),
    ("lui a2, 0xfffff", 0xfffff637, 0, 0, A2(0xffff_f000)),
    ("lui x0, 1", 0x00001037, 0, 0, Went(8, 0)),
    ("auipc a2, 0", 0x00000617, 0, 0, A2(4)),
    ("auipc a2, 0xfffff", 0xfffff617, 0, 0, A2(0xffff_f004)),
];

pub const TRANSFERS: [Case; 46] = [
    ("jal a2, 8", 0x0080066f, 0, 0, LinkA2(12, 0)),
    ("jal a2, -4", 0xffdff66f, 0, 0, LinkA2(0, 1)),
    ("jal x0, 0", 0x0000006f, 0, 0, Went(4, 1)),
    ("jal a2, 4", 0x0040066f, 0, 0, LinkA2(8, 0)),
    ("jal a2, 2", 0x0020066f, 0, 0, Fault(Target)),
    ("jal a2, -2", 0xfffff66f, 0, 0, Fault(Target)),
    ("jal a2, 0x800", 0x0010066f, 0, 0, LinkA2(0x0000_0804, 0)),
    ("jal a2, -8", 0xff9ff66f, 0, 0, LinkA2(0xffff_fffc, 0)),
    ("jal a2, -0a00000", 0x8000066f, 0, 0, LinkA2(0xfff0_0004, 0)),
    ("jalr a2, 0(a0)", 0x00050667, 12, 0, LinkA2(12, 0)),
    ("jalr a2, 0(a0)", 0x00050667, 13, 0, LinkA2(12, 0)),
    ("jalr a2, 0(a0)", 0x00050667, 14, 0, Fault(Target)),
    ("jalr a2, 0(a0)", 0x00050667, 15, 0, Fault(Target)),
    ("jalr a0, 4(a0)", 0x00450567, 8, 0, LinkA0(12, 0)),
    ("jalr a2, 1(a0)", 0x00150667, ONES, 0, LinkA2(0, 1)),
    ("jalr a2, -2(a0)", 0xffe50667, 1, 0, Fault(Target)),
    ("jalr a2, 0(a0)", 0x00050667, 4, 0, LinkA2(4, 1)),
    ("jalr a2, -1(a0)", 0xfff50667, 6, 0, LinkA2(4, 1)),
    ("jalr a2, 0(a0)", 0x00050667, DATA, 0, LinkA2(DATA, 0)),
    ("jalr a0, 0(a0)", 0x00050567, 7, 0, Fault(Target)),
    ("jalr x0, 0(a0)", 0x00050067, 12, 0, Went(12, 0)),
    ("jalr a2, 0(x0)", 0x00000667, 5, 0, LinkA2(0, 1)),
    ("beq a0, a1, 8", 0x00b50463, 5, 5, Went(12, 0)),
    ("beq a0, a1, 8", 0x00b50463, 5, 6, Went(8, 0)),
    ("bne a0, a1, 8", 0x00b51463, 5, 6, Went(12, 0)),
    ("bne a0, a1, 8", 0x00b51463, ONES, ONES, Went(8, 0)),
    ("blt a0, a1, 8", 0x00b54463, ONES, 1, Went(12, 0)),
    ("blt a0, a1, 8", 0x00b54463, 1, ONES, Went(8, 0)),
    ("blt a0, a1, 8", 0x00b54463, 3, 3, Went(8, 0)),
    ("blt a0, a1, 8", 0x00b54463, MIN, MAX, Went(12, 0)),
    ("bge a0, a1, 8", 0x00b55463, 3, 3, Went(12, 0)),
    ("bge a0, a1, 8", 0x00b55463, ONES, 0, Went(8, 0)),
    ("bge a0, a1, 8", 0x00b55463, MAX, MIN, Went(12, 0)),
    ("bltu a0, a1, 8", 0x00b56463, 1, ONES, Went(12, 0)),
    ("bltu a0, a1, 8", 0x00b56463, ONES, 1, Went(8, 0)),
    ("bltu a0, a1, 8", 0x00b56463, 3, 3, Went(8, 0)),
    ("bltu a0, a1, 8", 0x00b56463, MAX, MIN, Went(12, 0)),
    ("bgeu a0, a1, 8", 0x00b57463, 3, 3, Went(12, 0)),
    ("bgeu a0, a1, 8", 0x00b57463, 0, 1, Went(8, 0)),
    ("bgeu a0, a1, 8", 0x00b57463, MIN, MAX, Went(12, 0)),
    ("beq a0, a1, 6", 0x00b50363, 5, 5, Fault(Target)),
    ("beq a0, a1, 6", 0x00b50363, 5, 6, Went(8, 0)),
    ("bne a0, a1, -4", 0xfeb51ee3, 5, 6, Went(0, 1)),
    ("beq a0, a1, 0", 0x00b50063, 0, 0, Went(4, 1)),
    ("bgeu a0, a1, 4", 0x00b57263, 0, 0, Went(8, 0)),
    ("beq a0, a1, -8", 0xfeb50ce3, 1, 1, Went(0xffff_fffc, 0)),
];

pub const LOADS: [Case; 42] = [
    ("lb a2, 0(a0)", 0x00050603, DATA, 0, A2(0xffff_ff80)),
    ("lb a2, 2(a0)", 0x00250603, DATA, 0, A2(127)),
    ("lb a2, 15(a0)", 0x00f50603, DATA, 0, A2(0xffff_ff80)),
    ("lb a2, 16(a0)", 0x01050603, DATA, 0, Fault(Range)),
    ("lb a2, -1(a0)", 0xfff50603, DATA, 0, Fault(Range)),
    ("lbu a2, 0(a0)", 0x00054603, DATA, 0, A2(128)),
    ("lbu a2, 1(a0)", 0x00154603, DATA, 0, A2(255)),
    ("lbu a2, 15(a0)", 0x00f54603, DATA, 0, A2(128)),
    ("lbu a2, 16(a0)", 0x01054603, DATA, 0, Fault(Range)),
    ("lbu a2, 0(a0)", 0x00054603, ONES, 0, Fault(Range)),
    ("lh a2, 0(a0)", 0x00051603, DATA, 0, A2(0xffff_ff80)),
    ("lh a2, 2(a0)", 0x00251603, DATA, 0, A2(0xffff_807f)),
    ("lh a2, 4(a0)", 0x00451603, DATA, 0, A2(0x0000_7fff)),
    ("lh a2, 1(a0)", 0x00151603, DATA, 0, Fault(Unaligned)),
    ("lh a2, 16(a0)", 0x01051603, DATA, 0, Fault(Range)),
    ("lhu a2, 2(a0)", 0x00255603, DATA, 0, A2(0x0000_807f)),
    ("lhu a2, 14(a0)", 0x00e55603, DATA, 0, A2(0x0000_8000)),
    ("lhu a2, 15(a0)", 0x00f55603, DATA, 0, Fault(Unaligned)),
    ("lhu a2, 17(a0)", 0x01155603, DATA, 0, Fault(Unaligned)),
    ("lhu a2, 16(a0)", 0x01055603, DATA, 0, Fault(Range)),
    ("lw a2, 0(a0)", 0x00052603, DATA, 0, A2(0x807f_ff80)),
    ("lw a2, 12(a0)", 0x00c52603, DATA, 0, A2(0x8000_0001)),
    ("lw a2, -16(a0)", 0xff052603, END, 0, A2(0x807f_ff80)),
    ("lw a2, 16(a0)", 0x01052603, DATA, 0, Fault(Range)),
    ("lw a2, -4(a0)", 0xffc52603, DATA, 0, Fault(Range)),
    ("lw a2, 2(a0)", 0x00252603, DATA, 0, Fault(Unaligned)),
    ("lw a2, 14(a0)", 0x00e52603, DATA, 0, Fault(Unaligned)),
    ("lw a2, -3(a0)", 0xffd52603, DATA, 0, Fault(Unaligned)),
    ("lw a2, 0(x0)", 0x00002603, 0, 0, A2(115)),
    ("lw a2, 8(x0)", 0x00802603, 0, 0, A2(0x80ff_7f01)),
    ("lw a2, 12(x0)", 0x00c02603, 0, 0, A2(0xfedc_ba98)),
    ("lw a2, 16(x0)", 0x01002603, 0, 0, Fault(Range)),
    ("lbu a2, 0(x0)", 0x00004603, 0, 0, A2(115)),
    ("lbu a2, 15(x0)", 0x00f04603, 0, 0, A2(254)),
    ("lb a2, 15(x0)", 0x00f00603, 0, 0, A2(0xffff_fffe)),
    ("lb a2, 16(x0)", 0x01000603, 0, 0, Fault(Range)),
    ("lhu a2, 14(x0)", 0x00e05603, 0, 0, A2(0x0000_fedc)),
    ("lw a2, 1(a0)", 0x00152603, ONES, 0, A2(115)),
    ("lw x0, 0(a0)", 0x00052003, DATA, 0, Went(8, 0)),
    ("lw x0, 16(a0)", 0x01052003, DATA, 0, Fault(Range)),
    ("lw x0, 2(a0)", 0x00252003, DATA, 0, Fault(Unaligned)),
    ("lw a0, 4(a0)", 0x00452503, DATA, 0, A0(0x0000_7fff)),
];

pub const STORES: [Case; 25] = [
    (
        "sb a1, 0(a0)",
        0x00b50023,
        DATA,
        VALUE,
        Stored(0, 0x807f_ff78),
    ),
    (
        "sb a1, 1(a0)",
        0x00b500a3,
        DATA,
        VALUE,
        Stored(0, 0x807f_7880),
    ),
    (
        "sb a1, 2(a0)",
        0x00b50123,
        DATA,
        VALUE,
        Stored(0, 0x8078_ff80),
    ),
    (
        "sb a1, 3(a0)",
        0x00b501a3,
        DATA,
        VALUE,
        Stored(0, 0x787f_ff80),
    ),
    (
        "sb a1, 15(a0)",
        0x00b507a3,
        DATA,
        VALUE,
        Stored(3, 0x7800_0001),
    ),
    ("sb a1, 16(a0)", 0x00b50823, DATA, VALUE, Fault(Range)),
    ("sb a1, -1(a0)", 0xfeb50fa3, DATA, VALUE, Fault(Range)),
    (
        "sh a1, 0(a0)",
        0x00b51023,
        DATA,
        VALUE,
        Stored(0, 0x807f_5678),
    ),
    (
        "sh a1, 2(a0)",
        0x00b51123,
        DATA,
        VALUE,
        Stored(0, 0x5678_ff80),
    ),
    (
        "sh a1, 14(a0)",
        0x00b51723,
        DATA,
        VALUE,
        Stored(3, 0x5678_0001),
    ),
    ("sh a1, 1(a0)", 0x00b510a3, DATA, VALUE, Fault(Unaligned)),
    ("sh a1, 16(a0)", 0x00b51823, DATA, VALUE, Fault(Range)),
    ("sh a1, 17(a0)", 0x00b518a3, DATA, VALUE, Fault(Unaligned)),
    ("sw a1, 0(a0)", 0x00b52023, DATA, VALUE, Stored(0, VALUE)),
    ("sw a1, 12(a0)", 0x00b52623, DATA, VALUE, Stored(3, VALUE)),
    ("sw a1, -12(a0)", 0xfeb52a23, END, VALUE, Stored(1, VALUE)),
    ("sw a1, 16(a0)", 0x00b52823, DATA, VALUE, Fault(Range)),
    ("sw a1, 2(a0)", 0x00b52123, DATA, VALUE, Fault(Unaligned)),
    ("sw a1, 18(a0)", 0x00b52923, DATA, VALUE, Fault(Unaligned)),
    ("sw a1, 0(x0)", 0x00b02023, 0, VALUE, Fault(TextWrite)),
    ("sw a1, 12(x0)", 0x00b02623, 0, VALUE, Fault(TextWrite)),
    ("sb a1, 15(x0)", 0x00b007a3, 0, VALUE, Fault(TextWrite)),
    ("sb a1, 16(x0)", 0x00b00823, 0, VALUE, Fault(Range)),
    ("sw a1, 2(x0)", 0x00b02123, 0, VALUE, Fault(Unaligned)),
    ("sh a1, 1(x0)", 0x00b010a3, 0, VALUE, Fault(Unaligned)),
];

pub const OTHERS: [Case; 11] = [
    ("fence", 0x0ff0000f, 0, 0, Went(8, 0)),
    ("fence with every field", 0xfff50f8f, 0, 0, Went(8, 0)),
    ("fence.i", 0x0000100f, 0, 0, Fault(Illegal)),
    ("ecall", 0x00000073, 0, 0, Call(0)),
    ("ebreak", 0x00100073, 0, 0, Fault(Break)),
    ("ebreak with rd", 0x001000f3, 0, 0, Fault(Illegal)),
    ("zeros", 0x00000000, 0, 0, Fault(Illegal)),
    ("ones", 0xffffffff, 0, 0, Fault(Illegal)),
    ("slli with bit 25", 0x02151613, 0, 0, Fault(Illegal)),
    ("branch with funct3 2", 0x00b52363, 0, 0, Fault(Illegal)),
    ("load with funct3 3", 0x00153603, DATA, 0, Fault(Illegal)),
];
