//! The frames that pages stand in, and the clock that chooses which page leaves.
//!
//! A table tells of each frame whether it is free or which page it holds, with the page's slot on
//! swap. It has a hand that goes round the frames, and the frame whose page is leaving. It knows no
//! page-table entries: whose reference bit is set is looked up by the pager, which moves the hand.
//! All of this, and the clock, is this project's own choice and no statement on the real system.
#![tactic(auto)]

mod laws;
mod table;
#[cfg(test)]
mod tests;

pub use laws::{
    a_frame_changes_alone, a_new_table_is_free, clock_is_a_list, clock_is_a_loop,
    free_one_is_the_least, look_next_finds_any,
};
pub use table::FrameTable;
