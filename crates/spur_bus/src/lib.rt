//! The bus between the boards' caches and the memory: the transactions of the Berkeley Ownership
//! protocol.
//!
//! The caches are those of 1 to 12 boards, which may be of any type that has a cache. Each call is one
//! transaction of one board, which all others see, and gives the entry of the history that it makes.
//! Caches that agree still agree after it, and no word of the logical memory changes, which is the
//! owner's word where a cache owns the block, and else the memory's.
//!
//! Caches agree where there are 1 to 12 of them with one number of lines, the valid lines of one block
//! have one frame and those of two blocks stand at two places, a block has one owner at most, and one
//! that is exclusive somewhere is valid nowhere else. They agree with a memory where each valid line has
//! one of its frames, and the words of the logical memory.
#![tactic(auto)]

mod calls;
mod empty_laws;
mod laws;
mod place;
mod snoop;
#[cfg(test)]
mod tests;

pub use calls::{block_flush, claim, read_owned, read_shared, write_back};
pub use empty_laws::{empty_caches_have_no_tags, no_line_is_memory};
pub use laws::{
    claim_is_tagged, empty_caches_agree, flush_is_tagged, owned_memory_is_free, read_is_tagged,
    steps_are_carried, write_back_is_tagged,
};
pub use place::Place;
