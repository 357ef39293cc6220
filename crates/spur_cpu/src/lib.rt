//! One board's processor: what it wants of its board, what each instruction does, and where a board has come.
//!
//! A processor is any type that has the trait [`Cpu`]. It has a meaning of its own, and everything that is said of a
//! board's program is said over such a meaning. [`PlainCpu`] is the processor of this project's 25 instructions.
#![tactic(auto)]

mod cpu;
mod laws;
mod plain;
mod registers;
mod step;

pub use cpu::{Answer, Cpu, Want};
pub use laws::{
    carried_by_instructions, carried_to_access, ended_uses_nothing, going_on, leads_on, pieces,
    zero_stays,
};
pub use plain::PlainCpu;
