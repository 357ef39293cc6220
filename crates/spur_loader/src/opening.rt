//! With what a run begins.

use spur_flat::Flat;
use spur_isa::Instr;
use spur_list::Items;

/// The numbers of a run.
#[derive(Clone, Copy, Debug, PartialEq, Eq)]
pub struct Options {
    /// How many frames hold data, 1 to 3900.
    pub frames: u32,
    /// How many lines each cache has, a power of two from 16 to 4096.
    pub lines: u32,
    /// How many instructions each board may do, 1 to 250,000.
    pub budget: u32,
    /// How many lines of a leaving page are flushed ahead of need in a turn on the bus, at most 128.
    pub ahead: u32,
}

/// With what a run begins.
#[derive(Drop, Debug)]
pub struct Opening {
    /// Memory and swap, and which pages are declared.
    pub flat: Flat,
    /// The four segment registers of each board. There are as many boards as members here.
    pub segs: Items<[u8; 4]>,
    /// The code of each board.
    pub code: Items<Items<Instr>>,
    /// The numbers of the run.
    pub options: Options,
}
