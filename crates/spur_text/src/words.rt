//! The words for the kinds of faults and of accesses.

ghost use Rattle.std.specs.Prelude.{◌≡◌};
ghost use Rattle.spur_text.specs.Words.{access_word, fault_word};

use spur_flat::{AccessKind, FaultKind};

/// The word for a kind of fault.
pub fn fault_word(kind: FaultKind) -> &'static [u8]
    ensures { result.now ≡ fault_word kind }
{
    match kind {
        FaultKind::Align => b"align",
        FaultKind::Unmapped => b"unmapped",
        FaultKind::Missing => b"missing",
        FaultKind::Leaving => b"leaving",
        FaultKind::Protection => b"protection",
        FaultKind::Reference => b"reference",
        FaultKind::Dirty => b"dirty",
    }
}

/// The word for a kind of access.
pub fn access_word(kind: AccessKind) -> &'static [u8]
    ensures { result.now ≡ access_word kind }
{
    match kind {
        AccessKind::Load => b"load",
        AccessKind::Store => b"store",
        AccessKind::Tas => b"tas",
    }
}
