//! How many entries of each kind a history has.

ghost use Rattle.std.specs.Prelude.{◌≡◌, ◌<◌};
ghost use Rattle.spur_report.specs.Counts.{counts_of, row_of};

use spur_flat::Entry;

/// How many entries of each kind a history has.
#[derive(Clone, Copy, Debug, PartialEq, Eq)]
pub struct EntryCounts {
    /// The accesses done: loads, stores, test-and-sets; the faults by their kind, in the order of their numbers; fills of
    /// every layer, claims, write-backs, refreshes and flushes of a block; and the pager's: pages that begin to leave, go out
    /// and come in, and entries of which the referenced bit is set, the dirty bit is set, and the referenced bit is cleared.
    pub numbers: [u64; 21],
}

/// The place of an entry's count.
fn row_of(entry: &Entry) -> usize
    ensures place { result ≡ row_of entry.now }
    ensures within { result < 21 }
{
    match entry {
        Entry::Load { .. } => 0,
        Entry::Store { .. } => 1,
        Entry::Tas { .. } => 2,
        Entry::Fault { kind, .. } => 2 + kind.number() as usize,
        Entry::Fill { .. } => 10,
        Entry::Claim { .. } => 11,
        Entry::WriteBack { .. } => 12,
        Entry::Refresh { .. } => 13,
        Entry::BlockFlush { .. } => 14,
        Entry::Leave { .. } => 15,
        Entry::PageOut { .. } => 16,
        Entry::PageIn { .. } => 17,
        Entry::SetRef { .. } => 18,
        Entry::SetDirty { .. } => 19,
        Entry::ClearRef { .. } => 20,
    }
}

/// How many entries of each kind there are. Each entry is counted once.
pub fn counts(entries: &[Entry]) -> EntryCounts
    ensures { result.numbers ≡ counts_of entries.now }
{
    let mut numbers = [0; 21];
    for entry in entries {
        let row = row_of(entry);
        numbers[row] += 1;
    }
    EntryCounts { numbers }
}
