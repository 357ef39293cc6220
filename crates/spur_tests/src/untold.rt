//! A swap object that tells nothing of its pages.

use arrayvec::ArrayVec;
use spur_io::Failed;
use spur_swap::{Backing, PrepareFault, SwapTest};
use std::alloc::Global;

/// Pages in memory whose reads and writes fail as two lists say, and which are not told. It remembers the first eight writes
/// that passed: the slot of each, and its page's word at byte 64.
#[derive(Drop)]
pub(crate) struct Untold {
    kept: SwapTest,
    written: ArrayVec<(u32, u32), 8>,
}

impl Untold {
    /// No slots, and no call so far. The reads and writes whose numbers, counted from 1, stand in these lists are to fail.
    pub(crate) fn new(alloc: Global, fail_reads: Vec<u32>, fail_writes: Vec<u32>) -> Untold {
        Untold {
            kept: SwapTest::new(alloc, fail_reads, fail_writes),
            written: ArrayVec::new(),
        }
    }

    /// How many calls of `read_page` there were, those that failed too.
    pub(crate) fn reads(&self) -> u32 {
        self.kept.reads()
    }

    /// How many calls of `write_page` there were, those that failed too.
    pub(crate) fn writes(&self) -> u32 {
        self.kept.writes()
    }

    /// The writes that passed: the slot of each, and its page's word at byte 64.
    pub(crate) fn written(&self) -> &[(u32, u32)] {
        self.written.as_slice()
    }
}

impl Backing for Untold {
    ghost use Rattle.spur_swap.specs.Kept.{as_swap};
    ghost use Rattle.spur_tests.specs.Untold.{untold};

    ghost meaning = { λ s. untold (as_swap s.kept) };

    fn prepare(&mut self, slots: u32) -> Result<(), PrepareFault> {
        self.kept.prepare(slots)
    }

    fn read_page(&mut self, slot: u32, into: &mut [u32; 1024]) -> Result<(), Failed> {
        self.kept.read_page(slot, into)
    }

    fn write_page(&mut self, slot: u32, from: &[u32; 1024]) -> Result<(), Failed> {
        self.kept.write_page(slot, from)?;
        let _ = self.written.try_push((slot, from[16]));
        Ok(())
    }
}
