//! The lines of a cache.

use spur_addr::Protection;
use spur_snoop::BlockState;

/// A block that a cache holds, with what the cache keeps of its page-table entry.
///
/// The frame that is kept with it, the copies of the protection and the dirty bit, and that the dirty
/// copy may be clear where the entry's bit is set by now, are this project's own choice.
#[derive(Clone, Copy, Debug, PartialEq, Eq)]
pub struct Line {
    /// The number of the block, below 2^33: its global address without the low five bits.
    pub tag: u64,
    /// The state of the block in this cache.
    pub state: BlockState,
    /// The number of the frame that the block's page was in when the block came.
    pub frame: u32,
    /// The page's protection when the block came.
    pub prot: Protection,
    /// The page's dirty bit, when the block came or when it was set here.
    pub dirty: bool,
    /// The eight words of the block, in the order of their addresses.
    pub words: [u32; 8],
}
