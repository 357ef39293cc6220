//! Where a block is read from.

use spur_addr::Protection;

/// Where a block is read from, and what its line is to know of its page-table entry.
#[derive(Clone, Copy, Debug, PartialEq, Eq)]
pub struct Place {
    /// The number of the frame that the block's page is in.
    pub frame: u32,
    /// The line's copy of the page's protection.
    pub prot: Protection,
    /// The line's copy of the page's dirty bit; it is set for a block of the page table or of the root.
    pub dirty: bool,
}
