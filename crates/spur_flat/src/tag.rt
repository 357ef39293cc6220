//! What a cache line is known to hold.

use spur_addr::Protection;
use spur_snoop::BlockState;

/// What a cache line is known to hold, without its words. A line that holds nothing has no such value.
#[derive(Clone, Copy, Debug, PartialEq, Eq)]
pub(crate) struct Tag {
    /// The number of the block, below 2^33.
    pub block: u64,
    /// Its state, which is not Invalid.
    pub state: BlockState,
    /// The number of the frame in which its page stands.
    pub frame: u32,
    /// The line's copy of the page's protection.
    pub prot: Protection,
    /// The line's copy of the page's dirty bit.
    pub dirty: bool,
}
