//! What a program says, whichever form it is written in.

use spur_addr::{GlobalAddr, Protection};
use spur_isa::Instr;
use spur_list::Items;

/// A board: its four segment registers, and its instructions in the order in which they stand, at most 4096.
#[derive(Drop, Debug)]
pub struct BoardText {
    pub segs: [u8; 4],
    pub code: Items<Instr>,
}

/// A declared page: its global page number, which is the segment times 2^18 and the page in the segment, and what its
/// page-table entry allows.
#[derive(Clone, Copy, Debug, PartialEq, Eq)]
pub struct PageText {
    pub page: u32,
    pub prot: Protection,
}

/// A word that a declared page holds at first: the global address of its first byte, which is a multiple of 4, and the
/// value.
#[derive(Clone, Copy, Debug, PartialEq, Eq)]
pub struct WordText {
    pub at: GlobalAddr,
    pub value: u32,
}

/// A whole program: its 1 to 12 boards, its declared pages, at most 2048, and their words, at most 65,536, each in the
/// order in which they were written.
#[derive(Drop, Debug)]
pub struct Unit {
    pub boards: Items<BoardText>,
    pub pages: Items<PageText>,
    pub words: Items<WordText>,
}
