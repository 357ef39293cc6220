//! Each instruction, by values that were worked out by hand.

ghost use Rattle.std.specs.Prelude.{◌+◌, ◌≤◌, IfOk};
ghost use Rattle.spur_cpu.specs.PlainCpus.{room_of};

use super::*;
use crate::laws::{ended_uses_nothing, going_on, leads_on, pieces, zero_stays};
use spur_flat::{AccessKind, FaultKind};
use std::test::Fail;

/// A processor of this program, with room for two shown values.
fn processor(alloc: Global, code: &[Instr]) -> Result<PlainCpu, AllocError>
    ensures { IfOk result (λ c. 2 ≤ room_of c) }
{
    let code = code.to_vec(alloc)?;
    PlainCpu::new(alloc, Items::from_vec(code), 2)
}

/// Does the next instruction. An access is done, and reads this word.
fn proceed<C: Cpu>(cpu: &mut C, word: u32)
    requires { 1 ≤ C.room cpu.old }
    ensures { C.room cpu.old ≤ C.room cpu.new + 1 }
{
    match cpu.want() {
        Want::Local => cpu.local(),
        Want::Access { .. } => cpu.answer(Answer::Done(word)),
        Want::Ended => {}
    }
}

#[test]
fn each_instruction_does_this(rt: HostRuntime) -> Result<(), Fail> {
    let a = Reg::of(1).ok_or("register 1")?;
    let b = Reg::of(2).ok_or("register 2")?;
    let c = Reg::of(15).ok_or("register 15")?;
    // b is -5 as a signed number
    let (a_word, b_word, c_word) = (0x89ab_cdef, 0xffff_fffb, 37);
    let read = 0x600d_f00d;
    let i = 8;
    let local = Want::Local;
    let access = |kind, va, value| Want::Access { kind, va, value };
    let load = access(AccessKind::Load, 4, 0);
    let store = access(AccessKind::Store, 4, a_word);
    let tas = access(AccessKind::Tas, 4, 1);
    // the instruction at place 0, what it wants, the place after it, and the word of a after it
    let rows = [
        (Instr::Halt, local, 0, a_word),
        (Instr::Nop, local, 1, a_word),
        (Instr::Li { a, i }, local, 1, 8),
        (Instr::Li { a, i: -3 }, local, 1, 0xffff_fffd),
        (Instr::Lih { a, u: 0x1234 }, local, 1, 0x1234_cdef),
        (Instr::Lih { a, u: 0xffff }, local, 1, 0xffff_cdef),
        (Instr::AddI { a, b, i }, local, 1, 3),
        (Instr::AddI { a, b: c, i: -38 }, local, 1, 0xffff_ffff),
        (Instr::Add { a, b, c }, local, 1, 32),
        (Instr::Sub { a, b, c }, local, 1, 0xffff_ffd6),
        (Instr::Sub { a, b: c, c: b }, local, 1, 42),
        (Instr::And { a, b, c }, local, 1, 33),
        (Instr::Or { a, b, c }, local, 1, 0xffff_ffff),
        (Instr::Xor { a, b, c }, local, 1, 0xffff_ffde),
        (Instr::Shl { a, b, c }, local, 1, 0xffff_ff60),
        (Instr::Shr { a, b, c }, local, 1, 0x07ff_ffff),
        (Instr::Slt { a, b, c }, local, 1, 1),
        (Instr::Slt { a, b: c, c: b }, local, 1, 0),
        (Instr::SltU { a, b, c }, local, 1, 0),
        (Instr::SltU { a, b: c, c: b }, local, 1, 1),
        (Instr::Ld { a, b, i: 9 }, load, 1, read),
        (Instr::St { a, b, i: 9 }, store, 1, a_word),
        (Instr::Tas { a, b, i: 9 }, tas, 1, read),
        (Instr::Beq { a, b, i }, local, 1, a_word),
        (Instr::Beq { a, b: a, i }, local, 9, a_word),
        (Instr::Bne { a, b, i }, local, 9, a_word),
        (Instr::Bne { a, b: a, i }, local, 1, a_word),
        (Instr::Blt { a: b, b: c, i }, local, 9, a_word),
        (Instr::Blt { a: c, b, i }, local, 1, a_word),
        (Instr::Blt { a, b: a, i }, local, 1, a_word),
        (Instr::Bge { a: b, b: c, i }, local, 1, a_word),
        (Instr::Bge { a: c, b, i }, local, 9, a_word),
        (Instr::Bge { a, b: a, i }, local, 9, a_word),
        (Instr::Jmp { i }, local, 9, a_word),
        (Instr::Jmp { i: -5 }, local, 0xffff_fffc, a_word),
        (Instr::Call { a, i }, local, 9, 1),
        (Instr::Jr { a: c }, local, 37, a_word),
        (Instr::Show { a: b }, local, 1, a_word),
    ];
    for (instr, want, place, word) in rows {
        let mut cpu = processor(rt.alloc(), &[instr])?;
        cpu.registers.write(a, a_word);
        cpu.registers.write(b, b_word);
        cpu.registers.write(c, c_word);
        assert_eq!(rt; cpu.want(), want, "{instr:?}");
        proceed(&mut cpu, read);
        assert_eq!(rt; cpu.place(), place, "{instr:?}");
        assert_eq!(rt; cpu.register(a), word, "{instr:?}");
        assert_eq!(rt; cpu.register(b), b_word, "{instr:?}");
        assert_eq!(rt; cpu.register(c), c_word, "{instr:?}");
    }
    Ok(())
}

#[test]
fn a_write_to_register_0_is_dropped(rt: HostRuntime) -> Result<(), Fail> {
    let a = Reg::ZERO;
    let rows = [
        Instr::Li { a, i: 7 },
        Instr::Ld { a, b: a, i: 0 },
        Instr::Tas { a, b: a, i: 0 },
        Instr::Call { a, i: 0 },
    ];
    for instr in rows {
        let mut cpu = processor(rt.alloc(), &[instr])?;
        proceed(&mut cpu, 7);
        assert_eq!(rt; cpu.place(), 1, "{instr:?}");
        assert_eq!(rt; cpu.registers(), [0; 16], "{instr:?}");
    }
    Ok(())
}

#[test]
fn halt_the_end_of_the_program_and_a_fault_end_it(rt: HostRuntime) -> Result<(), Fail> {
    let a = Reg::of(15).ok_or("register 15")?;
    let mut halts = processor(rt.alloc(), &[Instr::Halt])?;
    proceed(&mut halts, 0);
    assert_eq!(rt; halts.want(), Want::Ended);
    let mut runs_out = processor(rt.alloc(), &[])?;
    assert_eq!(rt; runs_out.want(), Want::Local);
    proceed(&mut runs_out, 0);
    assert_eq!(rt; runs_out.want(), Want::Ended);
    let b = Reg::ZERO;
    for kind in [FaultKind::Align, FaultKind::Unmapped, FaultKind::Protection] {
        let mut faults = processor(rt.alloc(), &[Instr::Tas { a, b, i: 2 }])?;
        if let Want::Access { .. } = faults.want() {
            faults.answer(Answer::Faulted(kind));
        }
        assert_eq!(rt; faults.want(), Want::Ended);
        assert_eq!(rt; faults.registers(), [0; 16]);
        assert_eq!(rt; faults.place(), 0);
    }
    Ok(())
}

#[test]
fn as_many_values_are_shown_as_there_is_room_for(rt: HostRuntime) -> Result<(), Fail> {
    let a = Reg::of(1).ok_or("register 1")?;
    let mut cpu = processor(rt.alloc(), &[Instr::Show { a }, Instr::Show { a }])?;
    cpu.registers.write(a, 41);
    proceed(&mut cpu, 0);
    cpu.registers.write(a, 42);
    proceed(&mut cpu, 0);
    assert_eq!(rt; cpu.shown(), [41, 42].as_slice());
    assert_eq!(rt; cpu.into_shown().as_slice(), [41, 42].as_slice());
    Ok(())
}

/// Takes a value that may go to another thread.
fn take_sendable<T: Send + Drop>(_value: T) {}

#[test]
fn it_may_go_to_another_thread(rt: HostRuntime) -> Result<(), Fail> {
    take_sendable(processor(rt.alloc(), &[Instr::Nop])?);
    Ok(())
}

#[test]
fn the_laws_hold_of_it() {
    pieces::<PlainCpu>();
    leads_on::<PlainCpu>();
    ended_uses_nothing::<PlainCpu>();
    going_on::<PlainCpu>();
    zero_stays();
}
