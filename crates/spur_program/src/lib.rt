//! The program: what is done for the words of the command line, and what it answers.
//!
//! It loads a program, runs its boards over their caches on one bus, and reports how each board came out; judges the
//! trace of a run; writes the object of a text; or generates a text. `main` stands in a crate of its own above.
#![tactic(auto)]

mod answers;
mod commands;
mod plain;
mod probes;
mod report;
mod run;
mod text;
mod threads;
mod top;

pub use report::{Outcome, Status};
pub use top::{spur, spur_alone};
