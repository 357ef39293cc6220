//! What one instruction does: the table of the instructions. Arithmetic is modulo 2^32.

ghost use Rattle.std.specs.Prelude.{◌≡◌};
ghost use Rattle.spur_cpu.specs.Steps.{branch_of, instr_step, next_of, reach_of, register_plus, sets_of, target_of};

use crate::registers::Registers;
use spur_flat::AccessKind;
use spur_isa::{Instr, Reg};

/// What an instruction does besides its access. A place is counted in instructions.
#[derive(Clone, Copy, Debug, PartialEq, Eq)]
pub enum Step {
    /// It writes a register and goes to a place.
    Writes { a: Reg, value: u32, to: u32 },
    /// It goes to a place.
    Goes { to: u32 },
    /// It shows a value and goes to the next place.
    Shows { value: u32 },
    /// It ends the board.
    Ends,
}

/// The access of an instruction, at the process address `va`, in bytes. `value` is the word that it writes, and 0 for a
/// load.
#[derive(Clone, Copy, Debug, PartialEq, Eq)]
pub struct Reach {
    pub kind: AccessKind,
    pub va: u32,
    pub value: u32,
}

/// The place of the next instruction.
pub fn next(place: u32) -> u32
    ensures { result ≡ next_of place }
{
    place.wrapping_add(1)
}

/// The place that a branch names: `i` places from the next one.
fn target(place: u32, i: i16) -> u32
    ensures { result ≡ target_of place i }
{
    next(place).wrapping_add_signed(i32::from(i))
}

/// A register and a signed number, added: the process address of an access, too.
fn address(registers: &Registers, b: Reg, i: i16) -> u32
    ensures { result ≡ register_plus registers.now b i }
{
    registers.word(b).wrapping_add_signed(i32::from(i))
}

/// Writes a register and goes to the next place.
fn sets(a: Reg, value: u32, place: u32) -> Step
    ensures { result ≡ sets_of a value place }
{
    Step::Writes {
        a,
        value,
        to: next(place),
    }
}

/// Goes to the place that a branch names where its condition holds, and else to the next one.
fn branch(holds: bool, place: u32, i: i16) -> Step
    ensures { result ≡ branch_of holds place i }
{
    if holds {
        Step::Goes {
            to: target(place, i),
        }
    } else {
        Step::Goes { to: next(place) }
    }
}

/// What an instruction at a place does besides its access. One with an access goes on to the next place.
pub fn instr_step(instr: Instr, r: &Registers, place: u32) -> Step
    ensures { result ≡ instr_step instr r.now place }
{
    match instr {
        Instr::Halt => Step::Ends,
        Instr::Nop | Instr::Ld { .. } | Instr::St { .. } | Instr::Tas { .. } => {
            Step::Goes { to: next(place) }
        }
        Instr::Li { a, i } => sets(a, i32::from(i).cast_unsigned(), place),
        Instr::Lih { a, u } => sets(a, r.word(a) % 65536 + u32::from(u) * 65536, place),
        Instr::AddI { a, b, i } => sets(a, address(r, b, i), place),
        Instr::Add { a, b, c } => sets(a, r.word(b).wrapping_add(r.word(c)), place),
        Instr::Sub { a, b, c } => sets(a, r.word(b).wrapping_sub(r.word(c)), place),
        Instr::And { a, b, c } => sets(a, r.word(b) & r.word(c), place),
        Instr::Or { a, b, c } => sets(a, r.word(b) | r.word(c), place),
        Instr::Xor { a, b, c } => sets(a, r.word(b) ^ r.word(c), place),
        Instr::Shl { a, b, c } => sets(a, r.word(b).wrapping_shl(r.word(c) % 32), place),
        Instr::Shr { a, b, c } => sets(a, r.word(b) >> (r.word(c) % 32), place),
        Instr::Slt { a, b, c } => sets(a, u32::from(r.signed(b) < r.signed(c)), place),
        Instr::SltU { a, b, c } => sets(a, u32::from(r.word(b) < r.word(c)), place),
        Instr::Beq { a, b, i } => branch(r.word(a) == r.word(b), place, i),
        Instr::Bne { a, b, i } => branch(r.word(a) != r.word(b), place, i),
        Instr::Blt { a, b, i } => branch(r.signed(a) < r.signed(b), place, i),
        Instr::Bge { a, b, i } => branch(r.signed(a) >= r.signed(b), place, i),
        Instr::Jmp { i } => Step::Goes {
            to: target(place, i),
        },
        Instr::Call { a, i } => Step::Writes {
            a,
            value: next(place),
            to: target(place, i),
        },
        Instr::Jr { a } => Step::Goes { to: r.word(a) },
        Instr::Show { a } => Step::Shows { value: r.word(a) },
    }
}

/// The access that an instruction wants, if it wants one.
pub fn reach_of(instr: Instr, registers: &Registers) -> Option<Reach>
    ensures { result ≡ reach_of instr registers.now }
{
    match instr {
        Instr::Ld { b, i, .. } => Some(Reach {
            kind: AccessKind::Load,
            va: address(registers, b, i),
            value: 0,
        }),
        Instr::St { a, b, i } => Some(Reach {
            kind: AccessKind::Store,
            va: address(registers, b, i),
            value: registers.word(a),
        }),
        Instr::Tas { b, i, .. } => Some(Reach {
            kind: AccessKind::Tas,
            va: address(registers, b, i),
            value: 1,
        }),
        _ => None,
    }
}
