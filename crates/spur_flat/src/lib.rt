//! The plain machine: flat memory with its page table, the entries of a history, and what they change.
//!
//! An access names a global address, the page table says where the word stands, and each entry of a history is allowed,
//! or refused with the rule that it breaks. Of the fifteen entries four are accesses and their faults, and six are the
//! pager's: they bring pages in and out, and mark them. The five of the bus change nothing in memory. All promises about
//! what a program's accesses may be answered are said over this machine. It has no caches.
//!
//! What the boards' cache lines are known to hold by the entries of a history, the tags, is kept beside it, with the
//! ownership rules that they ask of an entry; and the state that stands after a history is the flat memory, the tags and
//! the entries of the bus that each board has open.
#![tactic(auto)]

mod access;
mod entry;
mod flat;
mod history;
mod illegal;
mod laws;
#[cfg(test)]
mod one_page;
mod ownership_laws;
mod pager;
#[cfg(test)]
mod replays;
mod state_laws;
mod tag;
mod tag_lines;
mod tag_rules;
#[cfg(test)]
mod tag_tests;
mod tags;
#[cfg(test)]
mod tests;
mod untold_laws;

pub use access::{AccessKind, FaultKind, first_fault};
pub use entry::{Entry, Layer};
pub use flat::Flat;
pub use history::History;
pub use illegal::{Clause, Illegal};
pub use laws::{
    done_may_be_read, history_in_pieces, legal_is_well_formed, miss_is_allowed, ready_is_done,
    refused_unless_allowed, stays_clean, stays_valid, walk_finds_entry,
};
pub use ownership_laws::blocks_have_one_owner;
pub use state_laws::{
    idle_entries_are_refused, one_is_carried, pieces_join, quiet_may_follow,
    refused_unless_follows, state_in_pieces, state_is_each, worked_histories_are_needed,
};
pub use tags::Tags;
pub use untold_laws::untold_where_told;
