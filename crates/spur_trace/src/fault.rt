//! Why a text is no trace.

use std::alloc::AllocError;
use thiserror::Error;

/// What is wrong with a line of a trace.
#[derive(Clone, Copy, Debug, PartialEq, Eq)]
pub enum TraceKind {
    /// The first line is that of no header.
    BadHeader,

    /// A later line is that of no entry, or lacks its line feed.
    BadLine,

    /// The header has another number of boards than the program. No text alone is refused by this.
    Boards,
}

/// Why a trace was not read.
#[derive(Clone, Copy, Debug, PartialEq, Eq, Error)]
pub enum TraceFault {
    /// A line is at fault: its number, counted from the header's as 1.
    #[error("a line of the trace is at fault")]
    Bad { kind: TraceKind, line: u32 },

    /// There was not enough memory.
    #[error("out of memory")]
    NoMemory,
}

/// Want of memory.
impl From<AllocError> for TraceFault {
    ghost use Rattle.std.specs.Prelude.{◌≡◌};
    ghost use Rattle.spur_trace.specs.declared.fault.TraceFault.TheVariants as faults;

    ghost from_gives = { λ _ fault. fault ≡ faults.NoMemory };

    fn from(_: AllocError) -> TraceFault {
        TraceFault::NoMemory
    }
}
