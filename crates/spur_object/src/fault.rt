//! What is wrong with bytes that are no object.

use thiserror::Error;

/// What is wrong with a field of an object, or with what stands behind the last one.
#[derive(Clone, Copy, Debug, PartialEq, Eq)]
pub enum ObjKind {
    /// The first four bytes are not 93 53 50 52, in hexadecimal.
    Magic,

    /// The version is not 1.
    Version,

    /// The bytes end before the field or within it.
    Short,

    /// Bytes are left behind the last field.
    Trailing,

    /// The field is to be an instruction, and its word is none.
    BadWord,

    /// The number is out of its field's range.
    Field,
}

/// Why an object was not read.
#[derive(Clone, Copy, Debug, PartialEq, Eq, Error)]
pub enum ObjFault {
    /// The first fault from the front: what it is, and the number of its field's first byte, counted from 0.
    #[error("the object is at fault at byte {byte}")]
    Bad { kind: ObjKind, byte: u32 },

    /// There was not enough memory.
    #[error("out of memory")]
    NoMemory,
}
