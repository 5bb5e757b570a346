//! The registers: as a body keeps them, and as the instructions of a run work on them.

ghost use Rattle.std.specs.Prelude.{◌≡◌, length};
ghost use Rattle.tm_rv.specs.Instr.{IsRegister};
ghost use Rattle.tm_task.specs.Exec.{reg, with_reg};
ghost use Rattle.tm_task.specs.Parts.{register, with_register};

use std::marker::Model;
use tm_marker::{Body, REGISTERS};

/// The registers x0 to x31 while instructions are executed, where x0 is 0 at any time, so that no read
/// asks for it. Contracts see x1 to x31, as a body keeps them.
#[derive(Drop)]
pub(crate) struct Registers {
    all: [u32; 32],
}

impl Model for Registers {
    ghost use Rattle.std.specs.Prelude.{◌≡◌, List, ℕ, drop, slice_index};

    ghost Value = { List ℕ };

    ghost view = { λ registers. drop 1 registers.all };

    ghost invariant = { λ registers. slice_index registers.all 0 ≡ 0 };
}

impl Registers {
    /// The registers that a body keeps.
    pub(crate) fn of(regs: &[u32; 31]) -> Self
        ensures value { result ≡ regs.now }
        ensures all { length result ≡ 31 }
    {
        let mut all = [0; REGISTERS + 1];
        all[1..].copy_from_slice(regs);
        Registers { all }
    }

    /// Puts the registers where a body keeps them.
    pub(crate) fn put_into(&self, regs: &mut [u32; 31])
        ensures { regs.new ≡ self.now }
    {
        regs.copy_from_slice(&self.all[1..]);
    }

    /// The value of a register.
    #[inline]
    pub(crate) fn get(&self, number: u8) -> u32
        requires { IsRegister number }
        ensures { result ≡ register self.now number }
    {
        self.all[number as usize]
    }

    /// Puts a value into a register; x0 loses it.
    #[inline]
    pub(crate) fn set(&mut self, number: u8, value: u32)
        requires { IsRegister number }
        ensures { self.new ≡ with_register self.old number value }
    {
        self.all[number as usize] = value;
        self.all[0] = 0;
    }
}

/// The value of a body's register.
pub(crate) fn read(body: &Body, register: u8) -> u32
    requires { IsRegister register }
    ensures { result ≡ reg body.now register }
{
    if register == 0 {
        0
    } else {
        body.regs[register as usize - 1]
    }
}

/// Puts a value into a body's register; x0 loses it.
pub(crate) fn put(body: &mut Body, register: u8, value: u32)
    requires { IsRegister register }
    ensures { body.new ≡ with_reg body.old register value }
{
    if register != 0 {
        body.regs[register as usize - 1] = value;
    }
}
