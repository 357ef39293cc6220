//! The words of the command line: a command, its numbers, and flags with their values, what they ask for, and which
//! addresses they watch.
//!
//! The table of words is this project's own.
#![tactic(auto)]

mod laws;
mod numbers;
mod reading;
mod settings;
mod table;
mod task;
#[cfg(test)]
mod tests;
mod watching;

pub use laws::each_watch_has_its_address;
pub use reading::{task_alone, task_of};
pub use task::{Order, Schedule, Task};
pub use watching::watched;
