//! Why no text is generated.

use std::alloc::AllocError;
use thiserror::Error;

/// Why there is no text.
#[derive(Clone, Copy, Debug, PartialEq, Eq, Error)]
pub enum GenFault {
    /// A number is out of its range: 2 is that of the boards, and 3 that of the pages.
    #[error("number {which} is out of its range")]
    Range { which: u32 },

    /// There was not enough memory.
    #[error("out of memory")]
    NoMemory,
}

/// Want of memory.
impl From<AllocError> for GenFault {
    ghost use Rattle.std.specs.Prelude.{◌≡◌};
    ghost use Rattle.spur_gen.specs.declared.fault.GenFault.TheVariants as faults;

    ghost from_gives = { λ _ fault. fault ≡ faults.NoMemory };

    fn from(_: AllocError) -> GenFault {
        GenFault::NoMemory
    }
}
