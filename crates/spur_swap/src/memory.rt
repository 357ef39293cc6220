//! A swap object in memory that never fails.
ghost use Rattle.std.specs.Prelude.{◌≡◌, []};
ghost use Rattle.spur_swap.specs.Kept.{kept_swap};

use crate::backing::{Backing, PrepareFault};
use crate::pages::Pages;
use spur_io::Failed;
use std::alloc::Global;
use std::marker::Model;

/// Pages in memory. It tells its pages, and its count of faults is 0 for good: so no read and no
/// write fails, and `prepare` is refused only for want of memory. Contracts see a record of
/// `specs/Kept.antt`.
#[derive(Drop)]
pub struct SwapMemory {
    pages: Pages,
    reads: u32,
    writes: u32,
}

impl Model for SwapMemory {
    ghost use Rattle.spur_swap.specs.Kept.{Kept};

    ghost Value = { Kept };

    ghost view = { λ s. record { words = s.pages; reads = s.reads; writes = s.writes } };
}

impl SwapMemory {
    /// No slots, and neither a read nor a write so far. Takes no memory yet.
    pub fn new(alloc: Global) -> SwapMemory
        ensures { result ≡ record { words = []; reads = 0; writes = 0 } }
    {
        SwapMemory {
            pages: Pages::new(alloc),
            reads: 0,
            writes: 0,
        }
    }
}

impl Backing for SwapMemory {
    ghost meaning = { kept_swap };

    /// Is refused only for want of memory for the pages.
    fn prepare(&mut self, slots: u32) -> Result<(), PrepareFault> {
        self.pages.prepare(slots)?;
        Ok(())
    }

    /// Never fails. Takes no memory.
    fn read_page(&mut self, slot: u32, into: &mut [u32; 1024]) -> Result<(), Failed> {
        self.reads = self.reads.saturating_add(1);
        self.pages.read(slot, into);
        Ok(())
    }

    /// Never fails. Takes no memory.
    fn write_page(&mut self, slot: u32, from: &[u32; 1024]) -> Result<(), Failed> {
        self.writes = self.writes.saturating_add(1);
        self.pages.write(slot, from);
        Ok(())
    }
}
