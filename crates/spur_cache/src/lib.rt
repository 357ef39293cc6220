//! One board's cache.
//!
//! As in SPUR it is direct-mapped and virtual: a line holds a block of eight words by its global
//! virtual address, so that an access that finds its line needs no page table. With the block stands a
//! copy of what the page-table entry allows, which is this project's own choice. A line that is not
//! valid stands for nothing, and contracts see none there.
#![tactic(auto)]

mod cache;
mod fault;
mod holder;
mod laws;
mod line;
#[cfg(test)]
mod tests;

pub use cache::Cache;
pub use fault::CacheFault;
pub use holder::HasCache;
pub use laws::{find_is_complete, page_lines_are_those_of_the_page};
pub use line::Line;
