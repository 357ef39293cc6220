//! What a run tells: how each board came out, the history with its counts, and the text of all that.
//!
//! The form of the text is this project's own.
#![tactic(auto)]

mod laws;
mod report;
mod tally;
#[cfg(test)]
mod tests;
mod writing;

pub use laws::each_entry_is_counted_once;
pub use report::{BoardReport, Flags, Report};
pub use tally::{EntryCounts, counts};
pub use writing::text;
