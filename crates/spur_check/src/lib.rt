//! The checker: a history is judged entry by entry, against the program that it says it is a run of.
//!
//! The verdict is one definition, `judged`, over the opening and the entries, and [`check`] answers it. What a verdict
//! means is said by laws beside it.
#![tactic(auto)]

mod checker;
mod judging;
mod laws;
mod next_access;
mod open_entries;
mod replay;
#[cfg(test)]
mod tests;
mod verdict;

pub use judging::check;
pub use laws::{
    bad_means, good_means, judged_in_pieces, loaded_may_be_judged, numbers_are_theirs,
    traced_is_good,
};
pub use verdict::Verdict;
