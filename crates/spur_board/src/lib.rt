//! One board of the machine: its cache, its processor and its log, and what it does alone.
//!
//! A board goes on by itself as long as its instructions need nothing of the bus: local instructions, accesses that hit
//! in its own cache, and accesses that fault by its own cache. What it does so stands in a log of its own, which is put
//! into the history later. Where it needs the bus it says why, and it changes nothing.
#![tactic(auto)]

mod board;
mod ending;
mod laws;
mod own;
#[cfg(test)]
mod tests;
mod turn;

pub use board::Board;
pub use ending::Ending;
pub use laws::{budget_is_kept, own_steps_chain, own_steps_lead_on};
pub use turn::{BusReason, Turn};
