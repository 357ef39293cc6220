//! The 16 registers of a plain processor.

ghost use Rattle.std.specs.Prelude.{◌≡◌, [], ◌∷◌};
ghost use Rattle.std.specs.Int.{cast_signed, w32};
ghost use Rattle.spur_cpu.specs.Registers.{loaded, register_of, with_register, zeros};

use spur_isa::{Instr, Reg};
use std::marker::Model;

/// The words of the 16 registers. Register 0 is always 0.
#[derive(Debug, Drop)]
pub struct Registers {
    words: [u32; 16],
}

impl Model for Registers {
    ghost use Rattle.std.specs.Prelude.{◌≡◌, ℕ, List, Some, slice_get};

    ghost Value = { List ℕ };

    ghost view = { λ r. r.words };

    ghost invariant = { λ r. slice_get r.words 0 ≡ Some 0 };
}

impl Registers {
    /// All registers 0.
    pub fn new() -> Registers
        ensures { result ≡ zeros }
    {
        Registers { words: [0; 16] }
    }

    /// A register's word.
    pub fn word(&self, reg: Reg) -> u32
        ensures { result ≡ register_of self.now reg }
    {
        self.words[reg.number() as usize]
    }

    /// A register's word as a signed number.
    pub fn signed(&self, reg: Reg) -> i32
        ensures { result ≡ cast_signed w32 (register_of self.now reg) }
    {
        self.word(reg).cast_signed()
    }

    /// Writes a register. A write to register 0 is dropped.
    pub fn write(&mut self, reg: Reg, value: u32)
        ensures { self.new ≡ with_register self.old reg value }
    {
        let number = reg.number();
        if number != 0 {
            self.words[number as usize] = value;
        }
    }

    /// Puts the word of an access that is done where its instruction wants it: that of a load and of a test-and-set
    /// into its register.
    pub fn load(&mut self, instr: Instr, value: u32)
        ensures { self.new ≡ loaded instr self.old value }
    {
        match instr {
            Instr::Ld { a, .. } | Instr::Tas { a, .. } => self.write(a, value),
            _ => {}
        }
    }

    /// The words of all registers, by their numbers.
    pub fn words(&self) -> [u32; 16]
        ensures { result ≡ self.now }
    {
        self.words
    }
}
