//! Instructions as words, and words as instructions.
//!
//! A word of 32 bits has the operation in bits 26 to 31, register `a` in bits 22 to 25 and register
//! `b` in bits 18 to 21. Below them stands register `c` in bits 14 to 17, or an immediate in bits 0
//! to 15. The operations are numbered from 1 on in the order of [`Instr`]'s variants. All bits that
//! an instruction does not use are zero.
ghost use Rattle.std.specs.Prelude.{◌≡◌, ◌+◌, ◌*◌, ◌^◌, ◌%◌, ◌<◌, Ok, IfOk, OnErr, IfErr};
ghost use Rattle.spur_isa.specs.declared.instr.Instr.{Instr};
ghost use Rattle.spur_isa.specs.Ranges.{IsInstr, IsReg};
ghost use Rattle.spur_isa.specs.Word.{instr_at, instr_word, parts_at};

use crate::instr::Instr;
use crate::reg::Reg;
use thiserror::Error;

/// A word that encodes no instruction. The word is handed back.
#[derive(Clone, Copy, Debug, PartialEq, Eq, Error)]
#[error("the word {0:08x} is no instruction")]
pub struct BadWord(pub u32);

/// The word of an instruction.
///
/// A signed immediate stands there modulo 2^16. `decode` takes the word back.
pub fn encode(instr: &Instr) -> u32
    ensures value { result ≡ instr_word instr.now }
    ensures small { instr_word instr.now < 2 ^ 32 }
    ensures ranges { IsInstr instr.now }
{
    let zero = Reg::ZERO;
    match *instr {
        Instr::Halt => of_registers(1, zero, zero, zero),
        Instr::Nop => of_registers(2, zero, zero, zero),
        Instr::Li { a, i } => of_immediate(3, a, zero, i.cast_unsigned()),
        Instr::Lih { a, u } => of_immediate(4, a, zero, u),
        Instr::AddI { a, b, i } => of_immediate(5, a, b, i.cast_unsigned()),
        Instr::Add { a, b, c } => of_registers(6, a, b, c),
        Instr::Sub { a, b, c } => of_registers(7, a, b, c),
        Instr::And { a, b, c } => of_registers(8, a, b, c),
        Instr::Or { a, b, c } => of_registers(9, a, b, c),
        Instr::Xor { a, b, c } => of_registers(10, a, b, c),
        Instr::Shl { a, b, c } => of_registers(11, a, b, c),
        Instr::Shr { a, b, c } => of_registers(12, a, b, c),
        Instr::Slt { a, b, c } => of_registers(13, a, b, c),
        Instr::SltU { a, b, c } => of_registers(14, a, b, c),
        Instr::Ld { a, b, i } => of_immediate(15, a, b, i.cast_unsigned()),
        Instr::St { a, b, i } => of_immediate(16, a, b, i.cast_unsigned()),
        Instr::Tas { a, b, i } => of_immediate(17, a, b, i.cast_unsigned()),
        Instr::Beq { a, b, i } => of_immediate(18, a, b, i.cast_unsigned()),
        Instr::Bne { a, b, i } => of_immediate(19, a, b, i.cast_unsigned()),
        Instr::Blt { a, b, i } => of_immediate(20, a, b, i.cast_unsigned()),
        Instr::Bge { a, b, i } => of_immediate(21, a, b, i.cast_unsigned()),
        Instr::Jmp { i } => of_immediate(22, zero, zero, i.cast_unsigned()),
        Instr::Call { a, i } => of_immediate(23, a, zero, i.cast_unsigned()),
        Instr::Jr { a } => of_registers(24, a, zero, zero),
        Instr::Show { a } => of_registers(25, a, zero, zero),
    }
}

/// The instruction of a word.
///
/// The words that are accepted are exactly the encodings. The answer is `BadWord` with the word
/// where its operation has none of the numbers from 1 to 25, or where a bit is set that its
/// operation does not use.
pub fn decode(word: u32) -> Result<Instr, BadWord>
    ensures found { IfOk result (λ i. word ≡ instr_word i) }
    ensures ranges { IfOk result IsInstr }
    // what was encoded is read again as it was
    ensures again { (i : Instr) → IsInstr i → word ≡ instr_word i → result ≡ Ok i }
    ensures only { OnErr result ((i : Instr) → IsInstr i → word ≡ instr_word i → ⊥) }
    ensures bad { IfErr result (λ e. e.0 ≡ word) }
{
    match candidate(word) {
        Some(instr) if encode(&instr) == word => Ok(instr),
        _ => Err(BadWord(word)),
    }
}

/// No two instructions have one word.
pub fn one_instruction()
    ensures { (i j : Instr) → IsInstr i → IsInstr j → instr_word i ≡ instr_word j → i ≡ j }
{}

/// The word of an operation with up to three registers. Register 0 stands for one that is not used.
fn of_registers(operation: u32, a: Reg, b: Reg, c: Reg) -> u32
    requires { operation < 64 }
    ensures value { result ≡ operation * 2 ^ 26 + a * 2 ^ 22 + b * 2 ^ 18 + c * 2 ^ 14 }
    ensures ranges { IsReg a × IsReg b × IsReg c }
{
    high_bits(operation, a, b) + (u32::from(c.number()) << 14)
}

/// The word of an operation with up to two registers and an immediate of 16 bits.
fn of_immediate(operation: u32, a: Reg, b: Reg, immediate: u16) -> u32
    requires { operation < 64 }
    ensures value { result ≡ operation * 2 ^ 26 + a * 2 ^ 22 + b * 2 ^ 18 + immediate }
    ensures ranges { IsReg a × IsReg b }
{
    high_bits(operation, a, b) + u32::from(immediate)
}

/// The bits 18 to 31 of a word, with zeros below.
fn high_bits(operation: u32, a: Reg, b: Reg) -> u32
    requires { operation < 64 }
    ensures value { result ≡ operation * 2 ^ 26 + a * 2 ^ 22 + b * 2 ^ 18 }
    ensures ranges { IsReg a × IsReg b }
{
    (operation << 26) + (u32::from(a.number()) << 22) + (u32::from(b.number()) << 18)
}

/// The one instruction that a word may encode: that of its operation, with the fields which stand
/// in the word. `None` where no operation has the number.
fn candidate(word: u32) -> Option<Instr>
    ensures { result ≡ instr_at (parts_at word) }
{
    let a = Reg::in_low_bits(word >> 22);
    let b = Reg::in_low_bits(word >> 18);
    let c = Reg::in_low_bits(word >> 14);
    let u = (word % 65536) as u16;
    let i = u.cast_signed();
    match word >> 26 {
        1 => Some(Instr::Halt),
        2 => Some(Instr::Nop),
        3 => Some(Instr::Li { a, i }),
        4 => Some(Instr::Lih { a, u }),
        5 => Some(Instr::AddI { a, b, i }),
        6 => Some(Instr::Add { a, b, c }),
        7 => Some(Instr::Sub { a, b, c }),
        8 => Some(Instr::And { a, b, c }),
        9 => Some(Instr::Or { a, b, c }),
        10 => Some(Instr::Xor { a, b, c }),
        11 => Some(Instr::Shl { a, b, c }),
        12 => Some(Instr::Shr { a, b, c }),
        13 => Some(Instr::Slt { a, b, c }),
        14 => Some(Instr::SltU { a, b, c }),
        15 => Some(Instr::Ld { a, b, i }),
        16 => Some(Instr::St { a, b, i }),
        17 => Some(Instr::Tas { a, b, i }),
        18 => Some(Instr::Beq { a, b, i }),
        19 => Some(Instr::Bne { a, b, i }),
        20 => Some(Instr::Blt { a, b, i }),
        21 => Some(Instr::Bge { a, b, i }),
        22 => Some(Instr::Jmp { i }),
        23 => Some(Instr::Call { a, i }),
        24 => Some(Instr::Jr { a }),
        25 => Some(Instr::Show { a }),
        _ => None,
    }
}

#[cfg(test)]
mod tests {
    use super::*;
    use std::test::Fail;

    #[test]
    fn each_instruction_has_its_word_and_is_read_from_it_again(
        rt: HostRuntime,
    ) -> Result<(), Fail> {
        let r0 = Reg::ZERO;
        let r1 = Reg::of(1).ok_or("no register")?;
        let r2 = Reg::of(2).ok_or("no register")?;
        let r3 = Reg::of(3).ok_or("no register")?;
        let r15 = Reg::of(15).ok_or("no register")?;
        let rows = [
            (Instr::Halt, 0x0400_0000),
            (Instr::Nop, 0x0800_0000),
            (Instr::Li { a: r1, i: 41 }, 0x0c40_0029),
            (Instr::Lih { a: r15, u: 0xffff }, 0x13c0_ffff),
            (Instr::AddI { a: r1, b: r1, i: 1 }, 0x1444_0001),
            (
                Instr::AddI {
                    a: r3,
                    b: r3,
                    i: -1,
                },
                0x14cc_ffff,
            ),
            (
                Instr::Add {
                    a: r1,
                    b: r2,
                    c: r3,
                },
                0x1848_c000,
            ),
            (
                Instr::Sub {
                    a: r3,
                    b: r2,
                    c: r1,
                },
                0x1cc8_4000,
            ),
            (
                Instr::And {
                    a: r1,
                    b: r2,
                    c: r3,
                },
                0x2048_c000,
            ),
            (
                Instr::Or {
                    a: r1,
                    b: r2,
                    c: r3,
                },
                0x2448_c000,
            ),
            (
                Instr::Xor {
                    a: r1,
                    b: r2,
                    c: r3,
                },
                0x2848_c000,
            ),
            (
                Instr::Shl {
                    a: r1,
                    b: r2,
                    c: r3,
                },
                0x2c48_c000,
            ),
            (
                Instr::Shr {
                    a: r1,
                    b: r2,
                    c: r3,
                },
                0x3048_c000,
            ),
            (
                Instr::Slt {
                    a: r1,
                    b: r2,
                    c: r3,
                },
                0x3448_c000,
            ),
            (
                Instr::SltU {
                    a: r1,
                    b: r2,
                    c: r3,
                },
                0x3848_c000,
            ),
            (
                Instr::Ld {
                    a: r1,
                    b: r0,
                    i: 64,
                },
                0x3c40_0040,
            ),
            (
                Instr::St {
                    a: r1,
                    b: r0,
                    i: 64,
                },
                0x4040_0040,
            ),
            (
                Instr::Tas {
                    a: r1,
                    b: r2,
                    i: -4,
                },
                0x4448_fffc,
            ),
            (
                Instr::Beq {
                    a: r1,
                    b: r2,
                    i: 32767,
                },
                0x4848_7fff,
            ),
            (
                Instr::Bne {
                    a: r3,
                    b: r0,
                    i: -7,
                },
                0x4cc0_fff9,
            ),
            (
                Instr::Blt {
                    a: r15,
                    b: r15,
                    i: -32768,
                },
                0x53fc_8000,
            ),
            (Instr::Bge { a: r1, b: r2, i: 2 }, 0x5448_0002),
            (Instr::Jmp { i: -1 }, 0x5800_ffff),
            (Instr::Call { a: r15, i: 3 }, 0x5fc0_0003),
            (Instr::Jr { a: r15 }, 0x63c0_0000),
            (Instr::Show { a: r1 }, 0x6440_0000),
        ];
        for (instr, word) in rows {
            assert_eq!(rt; encode(&instr), word);
            assert_eq!(rt; decode(word), Ok(instr));
        }
        Ok(())
    }

    #[test]
    fn other_words_are_refused_with_the_word(rt: HostRuntime) -> Result<(), Fail> {
        let rows = [
            // no such operation: 0, 26 and 63
            0x0000_0000,
            0x6800_0000,
            0xffff_ffff,
            // bits that are not used: of `halt`, `li`, `add`, `jmp` and `jr`
            0x0400_0001,
            0x0c44_0029,
            0x1848_c001,
            0x5840_0000,
            0x6044_0000,
        ];
        for word in rows {
            assert_eq!(rt; decode(word), Err(BadWord(word)));
        }
        let text = format!(in rt.alloc(); "{}", BadWord(0x0400_0001))?;
        assert_eq!(rt; text.as_str(), "the word 04000001 is no instruction");
        Ok(())
    }
}
