//! Sizes that several crates need.

/// The words of a page, and so of a frame. A word has 4 bytes, as in SPUR.
pub const PAGE_WORDS: usize = 1024;

/// The words of a block, which is what a cache line holds.
pub const BLOCK_WORDS: usize = 8;

/// The blocks of a page.
pub const PAGE_BLOCKS: usize = 128;

/// The first address of segment 255, in which the page table stands: the entry of every page has its place there. That
/// the table stands in the last segment is this project's own choice.
pub const TABLE_START: u64 = 255 << 30;

/// The first frames of the physical memory, which hold the root of the page table. It has one word for each of the
/// table's 2^16 pages. Its place and its size are this project's own choice.
pub const ROOT_FRAMES: u32 = 64;
