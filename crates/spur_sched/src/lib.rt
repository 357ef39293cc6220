//! The boards of a world run to their ends, one whole instruction of a board after another.
//!
//! A schedule picks for each step one of the boards that have not ended, by the next of the numbers that follow a
//! start. The entries that the step adds to the history are shown to probes, of which each may wish that the run stops.
#![tactic(auto)]

mod picking;
mod run;
mod show;
mod step;
#[cfg(test)]
mod tests;

pub use run::{Ran, run_schedule};
