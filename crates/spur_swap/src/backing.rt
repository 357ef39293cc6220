//! What a swap object promises. These rules are this project's own choice.
ghost use Rattle.std.specs.Prelude.{◌≡◌, ◌<◌, ◌≤◌, Err, OnErr, OnOk};
ghost use Rattle.spur_swap.specs.Meaning.{SameButFaults, Swap, after_read, after_write, with_slots};
ghost use Rattle.spur_swap.specs.Told.{HaveSlots, IsTold, told_with};

use spur_io::Failed;
use std::alloc::AllocError;
use thiserror::Error;

/// Why a swap object was not prepared.
#[derive(Clone, Copy, Debug, PartialEq, Eq, Error)]
pub enum PrepareFault {
    /// The object failed.
    #[error("the swap cannot be prepared")]
    Failed,
    /// Want of memory for the pages.
    #[error("out of memory")]
    NoMemory,
}

/// Want of memory.
impl From<AllocError> for PrepareFault {
    ghost use Rattle.std.specs.Prelude.{◌≡◌};
    ghost use Rattle.spur_swap.specs.declared.backing.PrepareFault.TheVariants as faults;

    ghost from_gives = { λ _ fault. fault ≡ faults.NoMemory };

    fn from(_: AllocError) -> PrepareFault {
        PrepareFault::NoMemory
    }
}

/// Pages in slots, which are numbered from 0.
///
/// A page is 1024 words of 32 bits, as SPUR's pages of 4096 bytes are. The slots, the counts and the
/// faults are this project's own choice.
pub trait Backing {
    /// What the object is to its users: its pages and slots, and the counts of its faults, reads and writes.
    ///
    /// `pages` is the words of all pages, 1024 a slot in the order of the slots, where the object tells
    /// them. One that tells goes on telling, and one that does not tell does not begin to. `slots` is how
    /// many slots there are. Each object tells this, and `prepare` alone changes it.
    ///
    /// `faults` is how many faults there were. The count never falls, and each call that answers `Failed`
    /// raises it: an object that counts up to a last value must not fail any more from there on.
    ///
    /// `reads` is how many calls of `read_page` there were, and `writes` how many of `write_page`, those
    /// that failed too. Only these calls change them, and 2^32 - 1 is their last value, where they stay.
    ghost meaning: { Self → Swap };

    /// Makes `slots` slots in the place of all that there were, each with a page of zeros. Any number
    /// may be asked for.
    ///
    /// `Failed` comes only where the count of faults rose in this call. `NoMemory` is want of memory.
    /// After both of them the number of slots and the told pages are as they were.
    fn prepare(&mut self, slots: u32) -> Result<(), PrepareFault>
        ensures zeros { OnOk result (SameButFaults (with_slots (meaning self.old) slots) (meaning self.new)) }
        ensures stays { OnErr result (SameButFaults (meaning self.old) (meaning self.new)) }
        ensures whole { HaveSlots (meaning self.new).pages (meaning self.new).slots }
        ensures later { (meaning self.old).faults ≤ (meaning self.new).faults }
        ensures cause { result ≡ Err PrepareFault.Failed → (meaning self.old).faults < (meaning self.new).faults };

    /// Reads the page of a slot, which is below their number, into `into`. The read is counted, also
    /// where it fails.
    ///
    /// `Failed` comes only where the count of faults rose in this call, and `into` is as it was then.
    /// The told pages are as they were in each case.
    fn read_page(&mut self, slot: u32, into: &mut [u32; 1024]) -> Result<(), Failed>
        requires { slot < (meaning self.old).slots }
        ensures page { OnOk result (IsTold (meaning self.old).pages slot into.new) }
        ensures stays { SameButFaults (after_read (meaning self.old)) (meaning self.new) }
        ensures whole { HaveSlots (meaning self.new).pages (meaning self.new).slots }
        ensures later { (meaning self.old).faults ≤ (meaning self.new).faults }
        ensures cause { OnErr result ((meaning self.old).faults < (meaning self.new).faults) }
        ensures into_stays { OnErr result (into.new ≡ into.old) };

    /// Makes the page of a slot, which is below their number, that of `from`, and leaves all others. The
    /// write is counted, also where it fails.
    ///
    /// `Failed` comes only where the count of faults rose in this call, and the told pages are as they
    /// were then.
    fn write_page(&mut self, slot: u32, from: &[u32; 1024]) -> Result<(), Failed>
        requires { slot < (meaning self.old).slots }
        ensures put { OnOk result ((meaning self.new).pages ≡ told_with (meaning self.old).pages slot from.now) }
        ensures pages_stay { OnErr result ((meaning self.new).pages ≡ (meaning self.old).pages) }
        ensures stays { SameButFaults (after_write (meaning self.old) (meaning self.new).pages) (meaning self.new) }
        ensures whole { HaveSlots (meaning self.new).pages (meaning self.new).slots }
        ensures later { (meaning self.old).faults ≤ (meaning self.new).faults }
        ensures cause { OnErr result ((meaning self.old).faults < (meaning self.new).faults) };
}
