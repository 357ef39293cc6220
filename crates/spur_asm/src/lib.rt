//! The assembler: from a program's text to a unit, which has the code of each board, the declared pages and the words
//! that they hold at first.
#![tactic(auto)]

mod assembler;
mod bytes;
mod context;
mod cursor;
mod draft;
mod fault;
mod fields;
mod front;
mod head;
mod label;
pub mod laws;
mod line;
mod lines;
mod number;
mod operand;
mod statement;
mod statements;
mod table;
#[cfg(test)]
mod tests;
mod token;

pub use assembler::assemble;
pub use fault::{AsmFault, AsmKind};
