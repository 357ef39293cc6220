//! What may be changed in the entry of a page.

ghost use Rattle.std.specs.Prelude.{◌≡◌, ◌<◌, ◌^◌};
ghost use Rattle.spur_pager.specs.Changes.{changed_word, entry_for, is_small};

use spur_addr::{GlobalAddr, Pte};
use spur_flat::Entry;

/// A change of the entry of a page.
#[derive(Clone, Copy, Debug, PartialEq, Eq)]
pub enum Change {
    /// The page is referenced.
    Referenced,
    /// The page is not referenced any more.
    Unreferenced,
    /// The page is dirty.
    Dirty,
    /// The page is leaving.
    Leaving,
    /// The page is out, in this slot of the swap.
    Out(u32),
    /// The page is in this frame.
    In(u32),
}

/// The entry after a change.
pub(crate) fn changed(entry: Pte, change: Change) -> Pte
    requires { is_small change }
    ensures { result ≡ changed_word change entry }
{
    match change {
        Change::Referenced => entry.with_referenced(true),
        Change::Unreferenced => entry.with_referenced(false),
        Change::Dirty => entry.with_dirty(true),
        Change::Leaving => entry.with_leaving(true),
        Change::Out(slot) => Pte::swapped(slot, entry.protection()),
        Change::In(frame) => entry.brought_in(frame),
    }
}

/// The entry of the history that tells of a change by board `b`. The page is given by its first byte.
pub(crate) fn entry_for(b: u32, page: GlobalAddr, change: Change) -> Entry
    ensures { result ≡ entry_for change b page }
{
    let (board, at) = (b, page);
    match change {
        Change::Referenced => Entry::SetRef { board, at },
        Change::Unreferenced => Entry::ClearRef { board, at },
        Change::Dirty => Entry::SetDirty { board, at },
        Change::Leaving => Entry::Leave { board, at },
        Change::Out(_) => Entry::PageOut { board, at },
        Change::In(frame) => Entry::PageIn { board, at, frame },
    }
}
