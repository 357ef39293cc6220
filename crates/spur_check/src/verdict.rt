//! What a history is judged.

use spur_flat::Clause;

/// What a history is judged.
#[derive(Clone, Copy, Debug, PartialEq, Eq)]
pub enum Verdict {
    /// Each entry may stand after those before it: so many.
    Good {
        entries: u64,
    },
    /// The entry with the number `at`, counted from 1, is the first that may not. `clause` is the first rule that it
    /// breaks, and `wanted` and `found` are the rule's two numbers.
    Bad {
        at: u64,
        clause: Clause,
        wanted: u64,
        found: u64,
    },
}
