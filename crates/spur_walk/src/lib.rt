//! The walk of page-table entries in a board's own cache.
//!
//! SPUR has no translation buffer: a page-table entry is a word of an ordinary block, at a global
//! address that is computed from the number of the page, and is looked for in the same cache as all
//! else. The entry of the table's own page is found in the same way, and the root stands at a known
//! place. So an access whose block is not there looks for the block of its page's entry, and where that
//! is not there either, for that of the root entry. Of the blocks looked for, the one nearest the root
//! that is missing is brought in. A caller repeats such steps until the access can be done, or has a
//! fault.
#![tactic(auto)]

mod laws;
mod looked;
mod plan;
mod step;
#[cfg(test)]
mod tests;
mod turn_laws;
mod walk;

pub use laws::{
    empty_caches_may_walk, entries_serve, fault_may_stand, own_block_hits,
    page_is_ready_where_exclusive, page_steps_are_few, ready_and_fault_are_still, ready_is_hit,
    ready_may_stand, served_fault_finds_entry, steps_are_carried, steps_are_few,
    valid_states_have_tables,
};
pub use looked::{Looked, look, need_for};
pub use step::Walked;
pub use turn_laws::{
    answers_are_carried, entries_are_made, hit_stores, moved_is_modest, plans_ask_as_the_table,
    served_faults_leave_few, steps_bring_staying_pages,
};
pub use walk::{advance, advance_entry};
