//! A swap object in memory whose reads and writes fail as two lists say.
ghost use Rattle.std.specs.Prelude.{◌≡◌, ◌<◌, ◌≤◌, Err, OnErr, OnOk, [], is_err};
ghost use Rattle.spur_io.specs.Calls.{after_next, fails_next};
ghost use Rattle.spur_swap.specs.Kept.{as_swap};
ghost use Rattle.spur_swap.specs.Meaning.{SameButFaults, after_read, after_write, with_slots};
ghost use Rattle.spur_swap.specs.Told.{HaveSlots, IsTold, told_with};

use crate::backing::{Backing, PrepareFault};
use crate::pages::Pages;
use spur_io::{Failed, Script};
use std::alloc::Global;
use std::marker::Model;

/// Pages in memory, for tests of faults. It tells its pages, counts its reads and its writes, and
/// fails those that it is told to. Contracts see a record of `specs/Kept.antt`.
#[derive(Drop)]
pub struct SwapTest {
    pages: Pages,
    reads: Script,
    writes: Script,
}

impl Model for SwapTest {
    ghost use Rattle.spur_swap.specs.Kept.{Tried};
    ghost use Rattle.spur_swap.specs.Pages.{AreWholePages};

    ghost Value = { Tried };

    ghost view = { λ s. record { words = s.pages; reads = s.reads; writes = s.writes } };

    ghost invariant = { λ s. AreWholePages s.pages };
}

impl SwapTest {
    /// No slots, and no call so far. The reads whose numbers, counted from 1, stand in `fail_reads`
    /// are to fail, and the writes whose numbers stand in `fail_writes`. Takes no memory yet.
    pub fn new(alloc: Global, fail_reads: Vec<u32>, fail_writes: Vec<u32>) -> SwapTest
        ensures words { result.words ≡ [] }
        ensures reads { result.reads ≡ record { fail = fail_reads.items; made = 0; faults = 0 } }
        ensures writes { result.writes ≡ record { fail = fail_writes.items; made = 0; faults = 0 } }
    {
        SwapTest {
            pages: Pages::new(alloc),
            reads: Script::new(fail_reads),
            writes: Script::new(fail_writes),
        }
    }

    /// How many calls of `read_page` there were, those that failed too. The number stays at 2^32 - 1.
    pub fn reads(&self) -> u32
        ensures { result ≡ self.now.reads.made }
    {
        self.reads.made()
    }

    /// How many calls of `write_page` there were, those that failed too. The number stays at
    /// 2^32 - 1.
    pub fn writes(&self) -> u32
        ensures { result ≡ self.now.writes.made }
    {
        self.writes.made()
    }
}

impl Backing for SwapTest {
    ghost meaning = { as_swap };

    /// Is refused only for want of memory for the pages. It is counted neither as a read nor as a
    /// write.
    fn prepare(&mut self, slots: u32) -> Result<(), PrepareFault>
        ensures zeros { OnOk result (SameButFaults (with_slots (as_swap self.old) slots) (as_swap self.new)) }
        ensures stays { OnErr result (SameButFaults (as_swap self.old) (as_swap self.new)) }
        ensures whole { HaveSlots (as_swap self.new).pages (as_swap self.new).slots }
        ensures later { (as_swap self.old).faults ≤ (as_swap self.new).faults }
        ensures cause { result ≡ Err PrepareFault.Failed → (as_swap self.old).faults < (as_swap self.new).faults }

        ensures reads { self.new.reads ≡ self.old.reads }
        ensures writes { self.new.writes ≡ self.old.writes }
    {
        self.pages.prepare(slots)?;
        Ok(())
    }

    /// Fails exactly where this read is to fail, and the fault is counted then. Reads past the
    /// number 2^32 - 1 do not fail. `into` stays where it fails. Takes no memory.
    fn read_page(&mut self, slot: u32, into: &mut [u32; 1024]) -> Result<(), Failed>
        requires { slot < (as_swap self.old).slots }
        ensures page { OnOk result (IsTold (as_swap self.old).pages slot into.new) }
        ensures stays { SameButFaults (after_read (as_swap self.old)) (as_swap self.new) }
        ensures whole { HaveSlots (as_swap self.new).pages (as_swap self.new).slots }
        ensures later { (as_swap self.old).faults ≤ (as_swap self.new).faults }
        ensures cause { OnErr result ((as_swap self.old).faults < (as_swap self.new).faults) }
        ensures into_stays { OnErr result (into.new ≡ into.old) }

        ensures failed { is_err result ≡ fails_next self.old.reads }
        ensures reads { self.new.reads ≡ after_next self.old.reads }
        ensures writes { self.new.writes ≡ self.old.writes }
    {
        self.reads.count_call()?;
        self.pages.read(slot, into);
        Ok(())
    }

    /// Fails exactly where this write is to fail, and the fault is counted then. Writes past the
    /// number 2^32 - 1 do not fail. Takes no memory.
    fn write_page(&mut self, slot: u32, from: &[u32; 1024]) -> Result<(), Failed>
        requires { slot < (as_swap self.old).slots }
        ensures put { OnOk result ((as_swap self.new).pages ≡ told_with (as_swap self.old).pages slot from.now) }
        ensures pages_stay { OnErr result ((as_swap self.new).pages ≡ (as_swap self.old).pages) }
        ensures stays { SameButFaults (after_write (as_swap self.old) (as_swap self.new).pages) (as_swap self.new) }
        ensures whole { HaveSlots (as_swap self.new).pages (as_swap self.new).slots }
        ensures later { (as_swap self.old).faults ≤ (as_swap self.new).faults }
        ensures cause { OnErr result ((as_swap self.old).faults < (as_swap self.new).faults) }

        ensures failed { is_err result ≡ fails_next self.old.writes }
        ensures writes { self.new.writes ≡ after_next self.old.writes }
        ensures reads { self.new.reads ≡ self.old.reads }
    {
        self.writes.count_call()?;
        self.pages.write(slot, from);
        Ok(())
    }
}
