//! Why there is no cache.

use std::alloc::AllocError;
use thiserror::Error;

/// Why a cache was not made.
#[derive(Clone, Copy, Debug, PartialEq, Eq, Error)]
pub enum CacheFault {
    /// The number of lines, which is handed back, is no power of two from 16 to 4096.
    #[error("a cache of {0} lines: wanted a power of two from 16 to 4096")]
    BadLines(u32),
    /// There was not enough memory.
    #[error("out of memory")]
    NoMemory,
}

/// Want of memory.
impl From<AllocError> for CacheFault {
    ghost use Rattle.std.specs.Prelude.{◌≡◌};
    ghost use Rattle.spur_cache.specs.declared.fault.CacheFault.TheVariants as faults;

    ghost from_gives = { λ _ fault. fault ≡ faults.NoMemory };

    fn from(_: AllocError) -> CacheFault {
        CacheFault::NoMemory
    }
}
