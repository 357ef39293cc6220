//! Why a reader of a part of an object stops.

use crate::fault::ObjKind;
use std::alloc::AllocError;

/// Why the reading of a part of an object stops.
#[derive(Clone, Copy, Debug, PartialEq, Eq)]
pub enum Stop {
    /// The field that comes next has this fault, and the cursor stands at its first byte.
    Fault(ObjKind),

    /// There was not enough memory.
    NoMemory,
}

/// Want of memory.
impl From<AllocError> for Stop {
    ghost use Rattle.std.specs.Prelude.{◌≡◌};
    ghost use Rattle.spur_object.specs.declared.stop.Stop.TheVariants as stops;

    ghost from_gives = { λ _ stop. stop ≡ stops.NoMemory };

    fn from(_: AllocError) -> Stop {
        Stop::NoMemory
    }
}
