//! What is wrong with a text.

use std::alloc::AllocError;
use thiserror::Error;

/// In which way a text does not fit.
#[derive(Clone, Copy, Debug, PartialEq, Eq, Error)]
pub enum AsmKind {
    /// This byte stands in no text, but in a comment.
    #[error("bad byte")]
    BadByte,

    /// Another kind of token is wanted here, or nothing at all, or this statement may not stand here.
    #[error("bad token")]
    BadToken,

    /// What stands here is no well-formed number, or none of its field's range.
    #[error("bad number")]
    BadNumber,

    /// What stands here is no name of a statement, a register or a protection, as is wanted.
    #[error("unknown name")]
    UnknownName,

    /// The board has this label already, or a `.seg` already.
    #[error("name twice")]
    Twice,

    /// The board has no label of this name.
    #[error("no label")]
    NoLabel,

    /// As many statements of this sort stand before as there may be.
    #[error("limit")]
    Limit,

    /// The text has no board.
    #[error("no board")]
    NoBoard,
}

/// Why a text was not assembled.
#[derive(Clone, Copy, Debug, PartialEq, Eq, Error)]
pub enum AsmFault {
    /// The text does not fit. Lines and columns are counted from 1. A column is one more than the number of bytes that
    /// stand before it in its line.
    #[error("line {line} column {column}: {kind}")]
    Bad {
        kind: AsmKind,
        line: u32,
        column: u32,
    },

    /// There was not enough memory.
    #[error("out of memory")]
    NoMemory,
}

/// The first part of a line that does not fit: in which way, and how many bytes of the line are left from there on,
/// not counting its comment.
#[derive(Clone, Copy, Debug, PartialEq, Eq)]
pub struct Misfit {
    pub kind: AsmKind,
    pub left: usize,
}

/// Want of memory.
impl From<AllocError> for AsmFault {
    ghost use Rattle.std.specs.Prelude.{◌≡◌};
    ghost use Rattle.spur_asm.specs.declared.fault.AsmFault.TheVariants as faults;

    ghost from_gives = { λ _ fault. fault ≡ faults.NoMemory };

    fn from(_: AllocError) -> AsmFault {
        AsmFault::NoMemory
    }
}
