//! Why an input is refused.

use spur_asm::AsmKind;
use spur_loader::LoadFault;
use spur_object::ObjKind;
use spur_trace::TraceKind;
use std::alloc::AllocError;

/// Why an input is refused.
#[derive(Clone, Copy, Debug, PartialEq, Eq)]
pub enum Refusal {
    /// It has more bytes than this limit.
    TooLong {
        most: u32,
    },

    /// It has faults as a text: this is the one with the least line, and then the least column. Both are counted from
    /// 1, and a column is one more than the number of bytes that stand before it in its line.
    Text {
        kind: AsmKind,
        line: u32,
        column: u32,
    },

    /// It has this fault as an object, in the field that begins at this byte, counted from 0.
    Object {
        kind: ObjKind,
        byte: u32,
    },

    /// Its trace has this fault, in this line, counted from the header's as 1.
    Trace {
        kind: TraceKind,
        line: u32,
    },

    /// Its unit can't be loaded. Want of memory is none of these.
    Load(LoadFault),
}

/// Why nothing was made of an input.
#[derive(Clone, Copy, Debug, PartialEq, Eq)]
pub enum NotAccepted {
    /// The input is refused.
    Refused(Refusal),

    /// Want of memory.
    NoMemory,
}

/// Want of memory.
impl From<AllocError> for NotAccepted {
    ghost use Rattle.std.specs.Prelude.{◌≡◌};
    ghost use Rattle.spur_input.specs.declared.refusal.NotAccepted.TheVariants as unaccepted;

    ghost from_gives = { λ _ why. why ≡ unaccepted.NoMemory };

    fn from(_: AllocError) -> NotAccepted {
        NotAccepted::NoMemory
    }
}
