//! The instructions.

use crate::reg::Reg;

/// An instruction of a board.
///
/// Here `a`, `b` and `c` stand for the registers of these fields and what is in them, 32 bits each.
/// Register 0 is always 0, and a write to it is dropped. Arithmetic is modulo 2^32. `i` is a signed
/// number from -32768 to 32767, and `u` one from 0 to 65535. A board's place is the number of an
/// instruction in its code, which holds `halt` from its end on. An instruction that is done goes to
/// `next`, the place after its own, unless it says otherwise; a place `next + i` is modulo 2^32.
///
/// A load, a store or a test-and-set accesses the word at the process address `b + i`, modulo 2^32.
/// An access to an address that is no multiple of 4, to an unmapped page or against the page's
/// protection ends the board and changes no register. Any other fault leaves the instruction to be
/// tried again.
#[derive(Clone, Copy, Debug, PartialEq, Eq)]
pub enum Instr {
    /// `halt`: ends the board.
    Halt,

    /// `nop`: does nothing.
    Nop,

    /// `li a, i`: a becomes i.
    Li { a: Reg, i: i16 },

    /// `lih a, u`: the high 16 bits of a become u, and its low 16 bits stay.
    Lih { a: Reg, u: u16 },

    /// `addi a, b, i`: a becomes b + i.
    AddI { a: Reg, b: Reg, i: i16 },

    /// `add a, b, c`: a becomes b + c.
    Add { a: Reg, b: Reg, c: Reg },

    /// `sub a, b, c`: a becomes b - c.
    Sub { a: Reg, b: Reg, c: Reg },

    /// `and a, b, c`: a becomes the bitwise and of b and c.
    And { a: Reg, b: Reg, c: Reg },

    /// `or a, b, c`: a becomes the bitwise or of b and c.
    Or { a: Reg, b: Reg, c: Reg },

    /// `xor a, b, c`: a becomes the bitwise exclusive or of b and c.
    Xor { a: Reg, b: Reg, c: Reg },

    /// `shl a, b, c`: a becomes b shifted left by c modulo 32.
    Shl { a: Reg, b: Reg, c: Reg },

    /// `shr a, b, c`: a becomes b shifted right by c modulo 32, with zeros coming in.
    Shr { a: Reg, b: Reg, c: Reg },

    /// `slt a, b, c`: a becomes 1 where b is less than c, both signed, and else 0.
    Slt { a: Reg, b: Reg, c: Reg },

    /// `sltu a, b, c`: a becomes 1 where b is less than c, both unsigned, and else 0.
    SltU { a: Reg, b: Reg, c: Reg },

    /// `ld a, i(b)`: a becomes the word at the process address b + i.
    Ld { a: Reg, b: Reg, i: i16 },

    /// `st a, i(b)`: the word at the process address b + i becomes a.
    St { a: Reg, b: Reg, i: i16 },

    /// `tas a, i(b)`, test-and-set: a becomes the word at the process address b + i, and that word
    /// becomes 1, in one step.
    Tas { a: Reg, b: Reg, i: i16 },

    /// `beq a, b, label`: goes to next + i where a is equal to b.
    Beq { a: Reg, b: Reg, i: i16 },

    /// `bne a, b, label`: goes to next + i where a differs from b.
    Bne { a: Reg, b: Reg, i: i16 },

    /// `blt a, b, label`: goes to next + i where a is less than b, both signed.
    Blt { a: Reg, b: Reg, i: i16 },

    /// `bge a, b, label`: goes to next + i where a is not less than b, both signed.
    Bge { a: Reg, b: Reg, i: i16 },

    /// `jmp label`: goes to next + i.
    Jmp { i: i16 },

    /// `call a, label`: a becomes next, and the board goes to next + i.
    Call { a: Reg, i: i16 },

    /// `jr a`: goes to the place a.
    Jr { a: Reg },

    /// `show a`: a is added at the end of the board's shown values.
    Show { a: Reg },
}
