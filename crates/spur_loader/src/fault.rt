//! Why a unit can't be loaded.

use spur_addr::GlobalAddr;
use std::alloc::AllocError;
use thiserror::Error;

/// Why a unit has no opening, in the order in which it is asked.
#[derive(Clone, Copy, Debug, PartialEq, Eq, Error)]
pub enum LoadFault {
    /// A segment register, a page or a word names segment 255, in which the page table stands.
    #[error("segment 255 is that of the page table")]
    Segment255,

    /// A page is declared again: the address of its first byte.
    #[error("a page is declared twice")]
    PageTwice(GlobalAddr),

    /// A word's page is not declared: the word's address.
    #[error("a word is in no declared page")]
    WordOutside(GlobalAddr),

    /// Root table, page table and data, which take so many frames, are more than 4096.
    #[error("no room for {0} frames: there are 4096")]
    NoRoom(u32),

    /// There was not enough memory.
    #[error("out of memory")]
    NoMemory,
}

/// Want of memory.
impl From<AllocError> for LoadFault {
    ghost use Rattle.std.specs.Prelude.{◌≡◌};
    ghost use Rattle.spur_loader.specs.declared.fault.LoadFault.TheVariants as faults;

    ghost from_gives = { λ _ fault. fault ≡ faults.NoMemory };

    fn from(_: AllocError) -> LoadFault {
        LoadFault::NoMemory
    }
}
