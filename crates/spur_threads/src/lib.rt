//! The boards of a world on threads, each under its own place.
//!
//! A board goes on alone while it holds its own place and nothing else: its hits are done beside those of the other
//! boards. Where it needs the bus, it takes the bus and every place, and then the world is its own for one turn. After
//! the threads every board has an ending, and all logs are merged.
#![tactic(auto)]

mod ends;
mod gate;
mod progress;
mod run;
mod sharing;
mod turn;

pub use gate::{Gate, NoGate};
pub use run::{RunRefused, run_boards};
pub use sharing::Sharing;

#[cfg(test)]
mod tests;
