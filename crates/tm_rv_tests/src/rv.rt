//! The table against words that another assembler made, apart from this crate.

use std::alloc::Global;
use std::process::Abort;
use std::test::Fail;
use tm_rv::{Code, Instr, Op, Set, decode, encode, name};

// A word, and what it is decoded to: operation, rd, rs1, rs2, and the immediate.
static DECODED: [(u32, Op, [u8; 3], u32); 75] = [
    (0x1000_02b7, Op::Lui, [5, 0, 0], 0x1000_0000), // lui x5, 0x10000
    (0xffff_ffb7, Op::Lui, [31, 0, 0], 0xffff_f000), // lui x31, 0xfffff
    (0x0000_10b7, Op::Lui, [1, 0, 0], 0x0000_1000), // lui x1, 1
    (0x8000_0517, Op::Auipc, [10, 0, 0], 0x8000_0000), // auipc x10, 0x80000
    (0x0000_0017, Op::Auipc, [0, 0, 0], 0), // auipc x0, 0
    (0x1234_5397, Op::Auipc, [7, 0, 0], 0x1234_5000), // auipc x7, 0x12345
    (0x0010_00ef, Op::Jal, [1, 0, 0], 0x0000_0800), // jal x1, 2048
    (0xff5f_f06f, Op::Jal, [0, 0, 0], 0xffff_fff4), // jal x0, -12
    (0x7fff_ffef, Op::Jal, [31, 0, 0], 0x000f_fffe), // jal x31, 1048574
    (0x8000_00ef, Op::Jal, [1, 0, 0], 0xfff0_0000), // jal x1, -1048576
    (0x0000_11ef, Op::Jal, [3, 0, 0], 0x0000_1000), // jal x3, 4096
    (0x0020_026f, Op::Jal, [4, 0, 0], 2), // jal x4, 2
    (0x0000_8067, Op::Jalr, [0, 1, 0], 0), // jalr x0, 0(x1)
    (0x7fff_80e7, Op::Jalr, [1, 31, 0], 0x0000_07ff), // jalr x1, 2047(x31)
    (0x8003_02e7, Op::Jalr, [5, 6, 0], 0xffff_f800), // jalr x5, -2048(x6)
    (0x0020_80e3, Op::Beq, [0, 1, 2], 0x0000_0800), // beq x1, x2, 2048
    (0x81ef_8063, Op::Beq, [0, 31, 30], 0xffff_f000), // beq x31, x30, -4096
    (0xfe00_9ee3, Op::Bne, [0, 1, 0], 0xffff_fffc), // bne x1, x0, -4
    (0x7e94_1fe3, Op::Bne, [0, 8, 9], 0x0000_0ffe), // bne x8, x9, 4094
    (0x0031_4f63, Op::Blt, [0, 2, 3], 0x0000_001e), // blt x2, x3, 30
    (0xfe52_4fe3, Op::Blt, [0, 4, 5], 0xffff_fffe), // blt x4, x5, -2
    (0x0273_5063, Op::Bge, [0, 6, 7], 0x0000_0020), // bge x6, x7, 32
    (0x8118_50e3, Op::Bge, [0, 16, 17], 0xffff_f800), // bge x16, x17, -2048
    (0x0139_6163, Op::Bltu, [0, 18, 19], 2), // bltu x18, x19, 2
    (0xc15a_60e3, Op::Bltu, [0, 20, 21], 0xffff_fc00), // bltu x20, x21, -1024
    (0x557b_7b63, Op::Bgeu, [0, 22, 23], 0x0000_0556), // bgeu x22, x23, 1366
    (0xff9c_7f63, Op::Bgeu, [0, 24, 25], 0xffff_f7fe), // bgeu x24, x25, -2050
    (0x0022_8403, Op::Lb, [8, 5, 0], 2), // lb x8, 2(x5)
    (0xfff1_0083, Op::Lb, [1, 2, 0], 0xffff_ffff), // lb x1, -1(x2)
    (0x0022_9383, Op::Lh, [7, 5, 0], 2), // lh x7, 2(x5)
    (0x0002_a303, Op::Lw, [6, 5, 0], 0), // lw x6, 0(x5)
    (0x800f_af83, Op::Lw, [31, 31, 0], 0xffff_f800), // lw x31, -2048(x31)
    (0x7ff6_4583, Op::Lbu, [11, 12, 0], 0x0000_07ff), // lbu x11, 2047(x12)
    (0x5557_5683, Op::Lhu, [13, 14, 0], 0x0000_0555), // lhu x13, 1365(x14)
    (0x0062_8123, Op::Sb, [0, 5, 6], 2), // sb x6, 2(x5)
    (0x0011_0fa3, Op::Sb, [0, 2, 1], 0x0000_001f), // sb x1, 31(x2)
    (0x0232_1023, Op::Sh, [0, 4, 3], 0x0000_0020), // sh x3, 32(x4)
    (0xffff_1fa3, Op::Sh, [0, 30, 31], 0xffff_ffff), // sh x31, -1(x30)
    (0x0000_2023, Op::Sw, [0, 0, 0], 0), // sw x0, 0(x0)
    (0x7e94_2fa3, Op::Sw, [0, 8, 9], 0x0000_07ff), // sw x9, 2047(x8)
    (0x80f8_2023, Op::Sw, [0, 16, 15], 0xffff_f800), // sw x15, -2048(x16)
    (0x0000_0013, Op::Addi, [0, 0, 0], 0), // addi x0, x0, 0
    (0xfff0_8093, Op::Addi, [1, 1, 0], 0xffff_ffff), // addi x1, x1, -1
    (0x7ff0_0513, Op::Addi, [10, 0, 0], 0x0000_07ff), // addi x10, x0, 2047
    (0x8001_a113, Op::Slti, [2, 3, 0], 0xffff_f800), // slti x2, x3, -2048
    (0x0012_b213, Op::Sltiu, [4, 5, 0], 1), // sltiu x4, x5, 1
    (0xfff2_b213, Op::Sltiu, [4, 5, 0], 0xffff_ffff), // sltiu x4, x5, -1
    (0xfff3_c313, Op::Xori, [6, 7, 0], 0xffff_ffff), // xori x6, x7, -1
    (0x5554_e413, Op::Ori, [8, 9, 0], 0x0000_0555), // ori x8, x9, 1365
    (0x0ff5_f513, Op::Andi, [10, 11, 0], 0x0000_00ff), // andi x10, x11, 255
    (0xf005_f513, Op::Andi, [10, 11, 0], 0xffff_ff00), // andi x10, x11, -256
    (0x0001_1093, Op::Slli, [1, 2, 0], 0), // slli x1, x2, 0
    (0x01f2_1193, Op::Slli, [3, 4, 0], 0x0000_001f), // slli x3, x4, 31
    (0x0003_5293, Op::Srli, [5, 6, 0], 0), // srli x5, x6, 0
    (0x01f4_5393, Op::Srli, [7, 8, 0], 0x0000_001f), // srli x7, x8, 31
    (0x4005_5493, Op::Srai, [9, 10, 0], 0), // srai x9, x10, 0
    (0x41f6_5593, Op::Srai, [11, 12, 0], 0x0000_001f), // srai x11, x12, 31
    (0x0062_8633, Op::Add, [12, 5, 6], 0), // add x12, x5, x6
    (0x01ff_8fb3, Op::Add, [31, 31, 31], 0), // add x31, x31, x31
    (0x4062_8633, Op::Sub, [12, 5, 6], 0), // sub x12, x5, x6
    (0x0031_10b3, Op::Sll, [1, 2, 3], 0), // sll x1, x2, x3
    (0x0062_a233, Op::Slt, [4, 5, 6], 0), // slt x4, x5, x6
    (0x0094_33b3, Op::Sltu, [7, 8, 9], 0), // sltu x7, x8, x9
    (0x00c5_c533, Op::Xor, [10, 11, 12], 0), // xor x10, x11, x12
    (0x00f7_56b3, Op::Srl, [13, 14, 15], 0), // srl x13, x14, x15
    (0x4128_d833, Op::Sra, [16, 17, 18], 0), // sra x16, x17, x18
    (0x015a_69b3, Op::Or, [19, 20, 21], 0), // or x19, x20, x21
    (0x018b_fb33, Op::And, [22, 23, 24], 0), // and x22, x23, x24
    (0x0ff0_000f, Op::Fence, [0, 0, 0], 0x0000_00ff), // fence iorw, iorw
    (0x0310_000f, Op::Fence, [0, 0, 0], 0x0000_0031), // fence rw, w
    (0x8330_000f, Op::Fence, [0, 0, 0], 0xffff_f833), // fence (tso)
    (0x0000_0073, Op::Ecall, [0, 0, 0], 0), // ecall
    (0x0010_0073, Op::Ebreak, [0, 0, 0], 0), // ebreak
    (0xffff_8f8f, Op::Fence, [31, 31, 0], 0xffff_ffff), // fence (all bits of rd, rs1 and the immediate set)
    (0x0000_810f, Op::Fence, [2, 1, 0], 0), // fence (rd 2, rs1 1)
];

// The same for RV32M, which the base set doesn't have.
static MULTIPLICATIONS: [(u32, Op, [u8; 3], u32); 17] = [
    (0x0262_8633, Op::Mul, [12, 5, 6], 0), // mul x12, x5, x6
    (0x03ff_8fb3, Op::Mul, [31, 31, 31], 0), // mul x31, x31, x31
    (0x0220_8033, Op::Mul, [0, 1, 2], 0), // mul x0, x1, x2
    (0x0231_10b3, Op::Mulh, [1, 2, 3], 0), // mulh x1, x2, x3
    (0x0307_9f33, Op::Mulh, [30, 15, 16], 0), // mulh x30, x15, x16
    (0x0262_a233, Op::Mulhsu, [4, 5, 6], 0), // mulhsu x4, x5, x6
    (0x020f_a8b3, Op::Mulhsu, [17, 31, 0], 0), // mulhsu x17, x31, x0
    (0x0294_33b3, Op::Mulhu, [7, 8, 9], 0), // mulhu x7, x8, x9
    (0x0355_3a33, Op::Mulhu, [20, 10, 21], 0), // mulhu x20, x10, x21
    (0x02c5_c533, Op::Div, [10, 11, 12], 0), // div x10, x11, x12
    (0x03f0_40b3, Op::Div, [1, 0, 31], 0), // div x1, x0, x31
    (0x02f7_56b3, Op::Divu, [13, 14, 15], 0), // divu x13, x14, x15
    (0x037c_5b33, Op::Divu, [22, 24, 23], 0), // divu x22, x24, x23
    (0x0328_e833, Op::Rem, [16, 17, 18], 0), // rem x16, x17, x18
    (0x03e0_e433, Op::Rem, [8, 1, 30], 0), // rem x8, x1, x30
    (0x035a_79b3, Op::Remu, [19, 20, 21], 0), // remu x19, x20, x21
    (0x03be_7eb3, Op::Remu, [29, 28, 27], 0), // remu x29, x28, x27
];

// Words that are an instruction in neither set, and what comes nearest.
static REFUSED: [u32; 35] = [
    0x0000_0000, // no instruction: all bits 0
    0xffff_ffff, // no instruction: all bits 1
    0x0000_0001, // an instruction of 16 bits
    0x0000_9067, // JALR with funct3 1
    0x0000_f067, // JALR with funct3 7
    0x0000_2063, // BRANCH with funct3 2
    0x0000_3063, // BRANCH with funct3 3
    0x0000_3003, // LOAD with funct3 3 (LD)
    0x0000_6003, // LOAD with funct3 6 (LWU)
    0x0000_7003, // LOAD with funct3 7
    0x0000_3023, // STORE with funct3 3 (SD)
    0x0000_7023, // STORE with funct3 7
    0x0200_1013, // SLLI by 32
    0x4000_1013, // SLLI with SRAI's funct7
    0x0200_5013, // SRLI by 32
    0x4200_5013, // SRAI by 32
    0x0600_0033, // MUL with funct7 3
    0x4200_5033, // DIVU with SRA's bit
    0x4000_7033, // AND with SUB's funct7
    0x4000_6033, // OR with SUB's funct7
    0x4000_1033, // SLL with SUB's funct7
    0x8000_0033, // ADD with funct7 64
    0x0000_100f, // FENCE.I
    0x0000_700f, // MISC-MEM with funct3 7
    0x0000_00f3, // ECALL with a bit of rd
    0x0000_8073, // ECALL with a bit of rs1
    0x0020_0073, // SYSTEM with immediate 2 (URET)
    0x0010_0173, // EBREAK with a bit of rd
    0x3020_0073, // MRET
    0x1050_0073, // WFI
    0x3052_9073, // CSRRW
    0x0000_001b, // OP-IMM-32 (ADDIW)
    0x0000_003b, // OP-32 (ADDW)
    0x0000_2007, // LOAD-FP (FLW)
    0x1000_202f, // AMO (LR.W)
];

/// The word is this instruction in the set, and the instruction has this word and name.
fn check(
    rt: &impl Abort,
    alloc: Global,
    set: Set,
    (word, op, [rd, rs1, rs2], imm): (u32, Op, [u8; 3], u32),
) -> Result<(), Fail> {
    let wanted = Instr {
        op,
        rd,
        rs1,
        rs2,
        imm,
    };
    let found = decode(word, set).ok_or("refused")?;
    assert_eq!(rt; found, wanted, "{word:08x}");
    assert_eq!(rt; encode(&found), word);
    let spelled = format!(in alloc; "{op:?}")?;
    assert!(rt;
        name(&found).eq_ignore_ascii_case(spelled.as_str()),
        "{op:?}"
    );
    Ok(())
}

#[test]
fn words_and_instructions_match(rt: HostRuntime) -> Result<(), Fail> {
    for &row in &DECODED {
        check(&rt, rt.alloc(), Set::Base, row)?;
        check(&rt, rt.alloc(), Set::Mul, row)?;
    }
    for &row in &MULTIPLICATIONS {
        check(&rt, rt.alloc(), Set::Mul, row)?;
        assert_eq!(rt; decode(row.0, Set::Base), None, "{:08x}", row.0);
    }
    Ok(())
}

#[test]
fn other_words_are_refused(rt: HostRuntime) {
    for &word in &REFUSED {
        assert_eq!(rt; decode(word, Set::Base), None, "{word:08x}");
        assert_eq!(rt; decode(word, Set::Mul), None, "{word:08x}");
    }
}

/// A text that has grown has beside each word what the word is decoded to, and an EBREAK with the
/// immediate 1 beside what is no instruction.
#[test]
fn a_code_has_the_instruction_of_each_word(rt: HostRuntime) -> Result<(), Fail> {
    let wanted: [(u32, Op, [u8; 3], u32); 4] = [
        (0x0062_8633, Op::Add, [12, 5, 6], 0), // add x12, x5, x6
        (0x0000_0000, Op::Ebreak, [0, 0, 0], 1), // no instruction
        (0x0010_0073, Op::Ebreak, [0, 0, 0], 0), // ebreak
        (0xfff0_8093, Op::Addi, [1, 1, 0], 0xffff_ffff), // addi x1, x1, -1
    ];
    let mut code = Code::new(rt.alloc(), Set::Base);
    for &(word, ..) in &wanted {
        code.extend(&[word])?;
    }
    let slices = code.slices();
    assert_eq!(rt; slices.words().len(), wanted.len());
    for (index, &(word, op, [rd, rs1, rs2], imm)) in wanted.iter().enumerate() {
        assert!(rt; index < slices.words().len());
        assert_eq!(rt; slices.words()[index], word);
        let found = slices.at(index);
        assert_eq!(rt; (found.op, found.imm), (op, imm), "{word:08x}");
        assert_eq!(rt;
            [found.rd, found.rs1, found.rs2],
            [rd, rs1, rs2],
            "{word:08x}"
        );
    }
    Ok(())
}
