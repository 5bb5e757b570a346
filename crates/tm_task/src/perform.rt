//! What each operation does to a body.

ghost use Rattle.std.specs.Prelude.{◌≡◌, ◌+◌, ◌-◌, ◌*◌, ◌/◌, ◌%◌, ◌^◌, ◌<◌, IfOk, List, [], ℕ, false};
ghost use Rattle.tm_rv.specs.Code.{HasRegisters};
ghost use Rattle.tm_rv.specs.Instr.{sign_extend, IsRegister};
ghost use Rattle.tm_task.specs.Memory.{IsSize};
ghost use Rattle.tm_task.specs.Exec.{Goes, written, jumped, branched, fetched, loaded, stored, without_bit_0, shifted_signed, service_of, bit, is_less};
ghost use Rattle.tm_task.specs.Parts.{body_at, with_register};
ghost use Rattle.tm_task.specs.Does.{Does, exec_kept};
ghost use Rattle.tm_task.specs.declared.execute.Executed.TheVariants.{Went};

use crate::Cause;
use crate::division::{quotient, quotient_unsigned, remainder, remainder_unsigned};
use crate::execute::Executed;
use crate::memory::{data_index, is_in_data, is_in_text, part, splice};
use crate::multiplication::{high_mixed, high_signed, high_unsigned};
use crate::registers::Registers;
use tm_rv::{Instr, Op};

/// Performs an instruction on the parts of a body: its program counter, its registers and its data
/// words.
#[inline(always)]
pub(crate) fn perform(
    instr: &Instr,
    text: &[u32],
    pc: u32,
    regs: &mut Registers,
    words: &mut [u32],
) -> Executed
    requires { HasRegisters instr.now }
    ensures { Does (exec_kept text.now (body_at pc regs.old words.old) instr.now) (body_at pc regs.old words.old) (body_at pc regs.new words.new) result }
{
    let Instr {
        op,
        rd,
        rs1,
        rs2,
        imm,
    } = *instr;
    match op {
        Op::Lui => write(pc, regs, rd, imm),
        Op::Auipc => write(pc, regs, rd, pc.wrapping_add(imm)),
        Op::Jal => jump(pc, regs, rd, pc.wrapping_add(imm)),
        Op::Jalr => jump(pc, regs, rd, without_bit_0(regs.get(rs1).wrapping_add(imm))),
        Op::Beq => branch(pc, imm, regs.get(rs1) == regs.get(rs2)),
        Op::Bne => branch(pc, imm, regs.get(rs1) != regs.get(rs2)),
        Op::Blt => branch(pc, imm, is_less(regs.get(rs1), regs.get(rs2))),
        Op::Bge => branch(pc, imm, !is_less(regs.get(rs1), regs.get(rs2))),
        Op::Bltu => branch(pc, imm, regs.get(rs1) < regs.get(rs2)),
        Op::Bgeu => branch(pc, imm, !(regs.get(rs1) < regs.get(rs2))),
        Op::Lb => load_byte_signed(text, pc, regs, words, rd, regs.get(rs1).wrapping_add(imm)),
        Op::Lh => load_half_signed(text, pc, regs, words, rd, regs.get(rs1).wrapping_add(imm)),
        Op::Lw => load(
            text,
            pc,
            regs,
            words,
            rd,
            regs.get(rs1).wrapping_add(imm),
            4,
        ),
        Op::Lbu => load(
            text,
            pc,
            regs,
            words,
            rd,
            regs.get(rs1).wrapping_add(imm),
            1,
        ),
        Op::Lhu => load(
            text,
            pc,
            regs,
            words,
            rd,
            regs.get(rs1).wrapping_add(imm),
            2,
        ),
        Op::Sb => store(
            text,
            pc,
            words,
            regs.get(rs1).wrapping_add(imm),
            regs.get(rs2),
            1,
        ),
        Op::Sh => store(
            text,
            pc,
            words,
            regs.get(rs1).wrapping_add(imm),
            regs.get(rs2),
            2,
        ),
        Op::Sw => store(
            text,
            pc,
            words,
            regs.get(rs1).wrapping_add(imm),
            regs.get(rs2),
            4,
        ),
        Op::Addi => write(pc, regs, rd, regs.get(rs1).wrapping_add(imm)),
        Op::Slti => write(pc, regs, rd, bit(is_less(regs.get(rs1), imm))),
        Op::Sltiu => write(pc, regs, rd, bit(regs.get(rs1) < imm)),
        Op::Xori => write(pc, regs, rd, regs.get(rs1) ^ imm),
        Op::Ori => write(pc, regs, rd, regs.get(rs1) | imm),
        Op::Andi => write(pc, regs, rd, regs.get(rs1) & imm),
        Op::Slli => write(pc, regs, rd, regs.get(rs1) << (imm % 32)),
        Op::Srli => write(pc, regs, rd, regs.get(rs1) >> (imm % 32)),
        Op::Srai => write(pc, regs, rd, shift_signed(regs.get(rs1), imm % 32)),
        Op::Add => write(pc, regs, rd, regs.get(rs1).wrapping_add(regs.get(rs2))),
        Op::Sub => write(pc, regs, rd, regs.get(rs1).wrapping_sub(regs.get(rs2))),
        Op::Sll => write(pc, regs, rd, regs.get(rs1) << (regs.get(rs2) % 32)),
        Op::Slt => write(pc, regs, rd, bit(is_less(regs.get(rs1), regs.get(rs2)))),
        Op::Sltu => write(pc, regs, rd, bit(regs.get(rs1) < regs.get(rs2))),
        Op::Xor => write(pc, regs, rd, regs.get(rs1) ^ regs.get(rs2)),
        Op::Srl => write(pc, regs, rd, regs.get(rs1) >> (regs.get(rs2) % 32)),
        Op::Sra => write(
            pc,
            regs,
            rd,
            shift_signed(regs.get(rs1), regs.get(rs2) % 32),
        ),
        Op::Or => write(pc, regs, rd, regs.get(rs1) | regs.get(rs2)),
        Op::And => write(pc, regs, rd, regs.get(rs1) & regs.get(rs2)),
        Op::Fence => advance(pc),
        Op::Ecall => Executed::Called(service(regs)),
        Op::Mul => write(pc, regs, rd, regs.get(rs1).wrapping_mul(regs.get(rs2))),
        Op::Mulh => write(pc, regs, rd, high_signed(regs.get(rs1), regs.get(rs2))),
        Op::Mulhsu => write(pc, regs, rd, high_mixed(regs.get(rs1), regs.get(rs2))),
        Op::Mulhu => write(pc, regs, rd, high_unsigned(regs.get(rs1), regs.get(rs2))),
        Op::Div => write(pc, regs, rd, quotient(regs.get(rs1), regs.get(rs2))),
        Op::Divu => write(
            pc,
            regs,
            rd,
            quotient_unsigned(regs.get(rs1), regs.get(rs2)),
        ),
        Op::Rem => write(pc, regs, rd, remainder(regs.get(rs1), regs.get(rs2))),
        Op::Remu => write(
            pc,
            regs,
            rd,
            remainder_unsigned(regs.get(rs1), regs.get(rs2)),
        ),
        Op::Ebreak if imm == 1 => Executed::Faulted(Cause::Illegal),
        Op::Ebreak => Executed::Faulted(Cause::Break),
    }
}

/// Whether the first word is below the second, as signed numbers.
#[inline]
fn is_less(x: u32, y: u32) -> bool
    ensures { result ≡ is_less x y }
{
    x.cast_signed() < y.cast_signed()
}

/// 1 where a test holds, else 0.
#[inline]
fn bit(test: bool) -> u32
    ensures { result ≡ bit test }
{
    u32::from(test)
}

/// Goes to the next instruction.
#[inline]
fn advance(pc: u32) -> Executed
    ensures { result ≡ Went ((pc + 4) % 2 ^ 32) false }
{
    Executed::Went {
        pc: pc.wrapping_add(4),
        back: false,
    }
}

/// Writes a register and goes to the next instruction.
#[inline]
fn write(pc: u32, regs: &mut Registers, rd: u8, value: u32) -> Executed
    requires { IsRegister rd }
    ensures goes { result ≡ Went ((pc + 4) % 2 ^ 32) false }
    ensures written { regs.new ≡ with_register regs.old rd value }
{
    regs.set(rd, value);
    advance(pc)
}

#[inline]
fn jump(pc: u32, regs: &mut Registers, rd: u8, target: u32) -> Executed
    requires { IsRegister rd }
    ensures { (words : List ℕ) → Does (jumped (body_at pc regs.old words) rd target) (body_at pc regs.old words) (body_at pc regs.new words) result }
{
    if target % 4 != 0 {
        return Executed::Faulted(Cause::Target);
    }
    regs.set(rd, pc.wrapping_add(4));
    Executed::Went {
        pc: target,
        back: target <= pc,
    }
}

#[inline]
fn branch(pc: u32, imm: u32, taken: bool) -> Executed
    ensures { (regs words : List ℕ) → Does (branched (body_at pc regs words) taken imm) (body_at pc regs words) (body_at pc regs words) result }
{
    if !taken {
        return advance(pc);
    }
    let target = pc.wrapping_add(imm);
    if target % 4 != 0 {
        return Executed::Faulted(Cause::Target);
    }
    Executed::Went {
        pc: target,
        back: target <= pc,
    }
}

/// The number that 1, 2 or 4 bytes make at an address of the text or the data.
#[inline]
fn fetch(text: &[u32], words: &[u32], address: u32, size: u32) -> Result<u32, Cause>
    requires { IsSize size }
    ensures value { result ≡ fetched text.now (body_at 0 [] words.now) address size }
    ensures small { IfOk result (λ value. value < 2 ^ (8 * size)) }
{
    if address % size != 0 {
        return Err(Cause::Unaligned);
    }
    let from = address % 4;
    if is_in_text(text, address) {
        Ok(part(text[(address / 4) as usize], from, size))
    } else if is_in_data(words, address) {
        Ok(part(words[data_index(address)], from, size))
    } else {
        Err(Cause::Range)
    }
}

#[inline]
fn load(
    text: &[u32],
    pc: u32,
    regs: &mut Registers,
    words: &[u32],
    rd: u8,
    address: u32,
    size: u32,
) -> Executed
    requires size { IsSize size }
    requires register { IsRegister rd }
    ensures { Does (loaded text.now (body_at pc regs.old words.now) rd address size (λ value. value)) (body_at pc regs.old words.now) (body_at pc regs.new words.now) result }
{
    match fetch(text, words, address, size) {
        Ok(value) => write(pc, regs, rd, value),
        Err(cause) => Executed::Faulted(cause),
    }
}

#[inline]
fn load_byte_signed(
    text: &[u32],
    pc: u32,
    regs: &mut Registers,
    words: &[u32],
    rd: u8,
    address: u32,
) -> Executed
    requires { IsRegister rd }
    ensures { Does (loaded text.now (body_at pc regs.old words.now) rd address 1 (sign_extend 8)) (body_at pc regs.old words.now) (body_at pc regs.new words.now) result }
{
    match fetch(text, words, address, 1) {
        Ok(value) if value < 0x80 => write(pc, regs, rd, value),
        Ok(value) => write(pc, regs, rd, value + 0xffff_ff00),
        Err(cause) => Executed::Faulted(cause),
    }
}

#[inline]
fn load_half_signed(
    text: &[u32],
    pc: u32,
    regs: &mut Registers,
    words: &[u32],
    rd: u8,
    address: u32,
) -> Executed
    requires { IsRegister rd }
    ensures { Does (loaded text.now (body_at pc regs.old words.now) rd address 2 (sign_extend 16)) (body_at pc regs.old words.now) (body_at pc regs.new words.now) result }
{
    match fetch(text, words, address, 2) {
        Ok(value) if value < 0x8000 => write(pc, regs, rd, value),
        Ok(value) => write(pc, regs, rd, value + 0xffff_0000),
        Err(cause) => Executed::Faulted(cause),
    }
}

#[inline]
fn store(text: &[u32], pc: u32, words: &mut [u32], address: u32, value: u32, size: u32) -> Executed
    requires { IsSize size }
    ensures { (regs : List ℕ) → Does (stored text.now (body_at pc regs words.old) address size value) (body_at pc regs words.old) (body_at pc regs words.new) result }
{
    if address % size != 0 {
        return Executed::Faulted(Cause::Unaligned);
    }
    if is_in_text(text, address) {
        return Executed::Faulted(Cause::TextWrite);
    }
    if !is_in_data(words, address) {
        return Executed::Faulted(Cause::Range);
    }
    let index = data_index(address);
    words[index] = splice(words[index], address % 4, size, value);
    advance(pc)
}

/// The number without its bit 0.
#[inline]
fn without_bit_0(number: u32) -> u32
    ensures { result ≡ without_bit_0 number }
{
    number - number % 2
}

/// The word shifted to the right, with its sign from the left.
#[inline]
fn shift_signed(word: u32, places: u32) -> u32
    requires { places < 32 }
    ensures { result ≡ shifted_signed word places }
{
    (word.cast_signed() >> places).cast_unsigned()
}

/// The service that register a7 asks for.
#[inline]
fn service(regs: &Registers) -> u8
    ensures { result ≡ service_of (body_at 0 regs.now []) }
{
    u8::try_from(regs.get(17)).unwrap_or(255)
}
