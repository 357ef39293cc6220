//! Addresses of the SPUR workstation's one global address space, and its page-table entries.
//!
//! A process address of 32 bits becomes a global virtual address of 38 bits by one of four segment
//! registers. The page table is a part of that space: the entry of each page stands at an address
//! that is computed from the page's, and the entries of the table's own pages stand in its root,
//! which lies at a fixed place of the physical memory.
#![tactic(auto)]

mod address;
mod page_entry;
mod sizes;

pub use address::{GlobalAddr, global, pte_of, root_place};
pub use page_entry::{Protection, Pte, PteFault};
pub use sizes::{BLOCK_WORDS, PAGE_BLOCKS, PAGE_WORDS, ROOT_FRAMES, TABLE_START};
