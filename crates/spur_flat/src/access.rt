//! Accesses, and the faults that may answer them.

ghost use Rattle.std.specs.Prelude.{◌≡◌, None, Some, IfOk, IfErr, OnOk};
ghost use Rattle.spur_flat.specs.Access.{allows, bar_of, fault_under, is_write, may, miss_of};
ghost use Rattle.spur_flat.specs.Refusal.{fault_number};

use spur_addr::{GlobalAddr, Protection, Pte};

/// What a program does with a word of 4 bytes of memory.
#[derive(Clone, Copy, Debug, PartialEq, Eq)]
pub enum AccessKind {
    /// Reads the word.
    Load,
    /// Writes the word.
    Store,
    /// Reads the word and makes it 1, in one step: a test-and-set.
    Tas,
}

impl AccessKind {
    /// Whether the access changes the word, so that its page has to be marked as dirty first.
    pub fn writes(self) -> bool
        ensures { result ≡ is_write self }
    {
        matches!(self, AccessKind::Store | AccessKind::Tas)
    }
}

/// Why an access is not done.
///
/// These seven, and the order in which they stand here and are looked for, are this project's profile.
#[derive(Clone, Copy, Debug, PartialEq, Eq)]
pub enum FaultKind {
    /// The address is no multiple of 4.
    Align,
    /// There is no page: the root entry is not valid, or the page is neither in a frame nor on swap.
    Unmapped,
    /// The page is on swap.
    Missing,
    /// The page is about to give up its frame.
    Leaving,
    /// The page's protection does not allow the access.
    Protection,
    /// The page's referenced bit is clear, and has to be set first.
    Reference,
    /// The page's dirty bit is clear, and has to be set before a store or a test-and-set.
    Dirty,
}

impl FaultKind {
    /// The fault's number in a refusal, from 1 to 7 in the order above. An access that is done has 0.
    pub fn number(self) -> u64
        ensures { result ≡ fault_number self }
    {
        match self {
            FaultKind::Align => 1,
            FaultKind::Unmapped => 2,
            FaultKind::Missing => 3,
            FaultKind::Leaving => 4,
            FaultKind::Protection => 5,
            FaultKind::Reference => 6,
            FaultKind::Dirty => 7,
        }
    }
}

/// Whether the protection of a page's entry allows an access.
pub(crate) fn allowed(entry: Pte, access: AccessKind) -> bool
    ensures { result ≡ allows entry access }
{
    match entry.protection() {
        Protection::Nothing => false,
        Protection::ReadOnly => !access.writes(),
        Protection::ReadWrite => true,
    }
}

/// The miss answer of an access: the first fault that applies.
pub(crate) fn miss(entry: Option<Pte>, access: AccessKind, at: GlobalAddr) -> Option<FaultKind>
    ensures { result ≡ miss_of entry access at }
{
    if at.number() % 4 != 0 {
        return Some(FaultKind::Align);
    }
    match entry {
        Some(entry) => first_fault(entry, access),
        None => Some(FaultKind::Unmapped),
    }
}

/// The first fault that applies to an aligned access under the entry of its page, in the order of `FaultKind`; `None`
/// where none does.
pub fn first_fault(entry: Pte, access: AccessKind) -> Option<FaultKind>
    ensures { result ≡ fault_under entry access }
{
    if !entry.valid() && !entry.on_swap() {
        Some(FaultKind::Unmapped)
    } else if !entry.valid() {
        Some(FaultKind::Missing)
    } else if entry.leaving() {
        Some(FaultKind::Leaving)
    } else if !allowed(entry, access) {
        Some(FaultKind::Protection)
    } else if !entry.referenced() {
        Some(FaultKind::Reference)
    } else if access.writes() && !entry.dirty() {
        Some(FaultKind::Dirty)
    } else {
        None
    }
}

/// The entry under which an access is done, or the fault that bars it: the first that applies,
/// without those that a done access may leave unnoticed.
pub(crate) fn admit(
    entry: Option<Pte>,
    access: AccessKind,
    at: GlobalAddr,
) -> Result<Pte, FaultKind>
    ensures entry { IfOk result (λ found. entry ≡ Some found) }
    ensures done { OnOk result (bar_of entry access at ≡ None) }
    ensures barred { IfErr result (λ fault. bar_of entry access at ≡ Some fault) }
{
    if at.number() % 4 != 0 {
        return Err(FaultKind::Align);
    }
    let Some(entry) = entry else {
        return Err(FaultKind::Unmapped);
    };
    if !entry.valid() && !entry.on_swap() {
        Err(FaultKind::Unmapped)
    } else if !entry.valid() {
        Err(FaultKind::Missing)
    } else if !allowed(entry, access) {
        Err(FaultKind::Protection)
    } else if access.writes() && !entry.dirty() {
        Err(FaultKind::Dirty)
    } else {
        Ok(entry)
    }
}

/// Whether an access may be answered by a fault.
pub(crate) fn may_fault(
    entry: Option<Pte>,
    access: AccessKind,
    at: GlobalAddr,
    kind: FaultKind,
) -> bool
    ensures { result ≡ may entry access at (Some kind) }
{
    if at.number() % 4 != 0 {
        return matches!(kind, FaultKind::Align);
    }
    let Some(entry) = entry else {
        return matches!(kind, FaultKind::Unmapped);
    };
    match kind {
        FaultKind::Align => false,
        FaultKind::Unmapped => !entry.valid() && !entry.on_swap(),
        FaultKind::Missing => !entry.valid() && entry.on_swap(),
        FaultKind::Leaving => entry.valid() && entry.leaving(),
        FaultKind::Protection => entry.valid() && !allowed(entry, access),
        FaultKind::Reference => {
            entry.valid() && !entry.leaving() && !entry.referenced() && allowed(entry, access)
        }
        FaultKind::Dirty => {
            entry.valid()
                && !entry.leaving()
                && !entry.dirty()
                && allowed(entry, access)
                && access.writes()
        }
    }
}
