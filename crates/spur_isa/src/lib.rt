//! The instructions of a board, and the words of 32 bits that encode them.
//!
//! A board has 16 registers of 32 bits and runs a code of instructions. The instruction set and its
//! encoding are this project's own, and no statement about SPUR.
#![tactic(auto)]

mod instr;
mod reg;
mod word;

pub use instr::Instr;
pub use reg::Reg;
pub use word::{BadWord, decode, encode, one_instruction};
