//! The plain processor: one board's registers and its place in its program.

ghost use Rattle.std.specs.Prelude.{◌≡◌, ◌≤◌, IfOk, slice_get};
ghost use Rattle.spur_cpu.specs.Plain.{opened, or_halt};
ghost use Rattle.spur_cpu.specs.PlainCpus.{plain_of, room_of};

use crate::cpu::{Answer, Cpu, Want};
use crate::registers::Registers;
use crate::step::{Step, instr_step, next, reach_of};
use spur_isa::{Instr, Reg};
use spur_list::Items;
use std::alloc::{AllocError, Global};

#[cfg(test)]
mod tests;

/// A processor with 16 registers of 32 bits that goes through a program. Register 0 is always 0. This project's own
/// profile.
#[derive(Debug, Drop)]
pub struct PlainCpu {
    code: Items<Instr>,
    registers: Registers,
    place: u32,
    shown: Vec<u32>,
    ended: bool,
}

/// The instruction at a place. A place at or past the program's length holds `halt`.
fn instr_at(code: &[Instr], place: u32) -> Instr
    ensures { result ≡ or_halt (slice_get code.now place) }
{
    match code.get(place as usize) {
        Some(instr) => *instr,
        None => Instr::Halt,
    }
}

impl PlainCpu {
    /// A processor at the beginning of a program, with all registers and the place 0. It has room for `room` values to
    /// be shown, so that no step takes memory. The answer is `AllocError` only where there is no memory for them.
    pub fn new(alloc: Global, code: Items<Instr>, room: u32) -> Result<PlainCpu, AllocError>
        ensures state { IfOk result (λ c. plain_of c ≡ opened code) }
        ensures room { IfOk result (λ c. room ≤ room_of c) }
    {
        let shown = Vec::with_capacity(alloc, room as usize)?;
        Ok(PlainCpu {
            code,
            registers: Registers::new(),
            place: 0,
            shown,
            ended: false,
        })
    }

    /// The words of all registers, by their numbers.
    pub fn registers(&self) -> [u32; 16]
        ensures { result ≡ (plain_of self.now).registers }
    {
        self.registers.words()
    }

    /// The values that were shown, moved out of a processor that is done with.
    pub fn into_shown(self) -> Items<u32>
        ensures { result ≡ (plain_of self).shown }
    {
        Items::from_vec(self.shown)
    }
}

impl Cpu for PlainCpu {
    ghost use Rattle.spur_cpu.specs.Plain.{Plain, plain};
    ghost use Rattle.spur_cpu.specs.PlainCpus.{plain_of, room_of};
    ghost use Rattle.spur_cpu.specs.PlainLaws.{plain_is_lawful};

    ghost State = { Plain };

    ghost state = { plain_of };

    ghost room = { room_of };

    ghost meaning = { plain };

    ghost lawful = { plain_is_lawful };

    fn want(&self) -> Want {
        if self.ended {
            return Want::Ended;
        }
        match reach_of(instr_at(self.code.as_slice(), self.place), &self.registers) {
            None => Want::Local,
            Some(reach) => Want::Access {
                kind: reach.kind,
                va: reach.va,
                value: reach.value,
            },
        }
    }

    fn local(&mut self) {
        let instr = instr_at(self.code.as_slice(), self.place);
        match instr_step(instr, &self.registers, self.place) {
            Step::Writes { a, value, to } => {
                self.registers.write(a, value);
                self.place = to;
            }
            Step::Goes { to } => {
                self.place = to;
            }
            Step::Shows { value } => {
                self.shown.push_reserved(value);
                self.place = next(self.place);
            }
            Step::Ends => {
                self.ended = true;
            }
        }
    }

    fn answer(&mut self, answer: Answer) {
        match answer {
            Answer::Done(value) => {
                let instr = instr_at(self.code.as_slice(), self.place);
                self.registers.load(instr, value);
                self.place = next(self.place);
            }
            Answer::Faulted(_) => {
                self.ended = true;
            }
        }
    }

    fn register(&self, reg: Reg) -> u32 {
        self.registers.word(reg)
    }

    fn place(&self) -> u32 {
        self.place
    }

    fn shown(&self) -> &[u32] {
        &self.shown
    }
}
