//! The pager, which serves the faults of an access.
//!
//! A page that is declared is in a frame or on swap. An access to one on swap faults, and the pager brings the page
//! in: where no frame is free, it first has one page leave, which a clock over the frames chooses, drops the page's
//! lines from all caches, and writes the page to swap where it was written to. Other faults say that a page is not yet
//! known to be referenced, or not yet to be dirty, and the pager sets that bit of the page's entry.
//!
//! A page may also leave ahead of need, bit by bit: each step flushes some of its lines, and the last one puts it out.
//!
//! An entry stands in a block of memory like any other word. So each change of one is a write in the cache of the board
//! whose access faulted, which first has to hold the entry's block alone. This pager is this project's own.
#![tactic(auto)]

mod ahead;
mod bring;
mod change;
mod clock;
mod entry;
mod fault;
mod finish;
mod flush;
mod laws;
mod mark;
mod missing;
mod page;
mod put;
mod serving;
mod standing;
mod store;
mod turn_laws;

pub use ahead::ahead_step;
pub use fault::ServeFault;
pub use flush::block_at;
pub use laws::room_is_bounded;
pub use serving::serve;
pub use store::Store;
pub use turn_laws::{
    faults_fall, few_are_left, hit_stands_again, open_entries_are_carried, opening_stands,
    stands_again, turn_has_room,
};
