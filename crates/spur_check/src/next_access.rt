//! The next access of a board's program, and whether an entry is of it.

ghost use Rattle.std.specs.Prelude.{◌≡◌, None};
ghost use Rattle.spur_flat.specs.Refused.{result_of};
ghost use Rattle.spur_check.specs.Replays.{access_number, access_refusal, differ, program_refusal, value_wanted};

use spur_addr::GlobalAddr;
use spur_flat::{AccessKind, Clause, Entry, Illegal};

/// The access that a board's program does next: its kind, its global address, and the word that it writes, which is 0
/// for a load.
#[derive(Clone, Copy, Debug, PartialEq, Eq)]
pub(crate) struct NextAccess {
    pub kind: AccessKind,
    pub at: GlobalAddr,
    pub value: u32,
}

/// Says why an entry is not of the next access of its board's program, which has none where `next` is `None`. The
/// entries of the bus and of the pager are of no program.
pub(crate) fn judge_access(next: &Option<NextAccess>, entry: &Entry) -> Result<(), Illegal>
    ensures { result ≡ result_of (program_refusal next.now entry.now) }
{
    match entry {
        Entry::Load { at, .. } => compare(next, AccessKind::Load, *at),
        Entry::Store { at, value, .. } => {
            compare(next, AccessKind::Store, *at)?;
            same(value_of(next), *value as u64)
        }
        Entry::Tas { at, .. } => compare(next, AccessKind::Tas, *at),
        Entry::Fault { access, at, .. } => compare(next, *access, *at),
        _ => Ok(()),
    }
}

/// Compares the access of an entry with the program's: its number, and then its address.
fn compare(next: &Option<NextAccess>, kind: AccessKind, at: GlobalAddr) -> Result<(), Illegal>
    ensures { result ≡ result_of (access_refusal next.now kind at None) }
{
    match next {
        None => Err(Illegal {
            clause: Clause::Program,
            wanted: 0,
            found: number(kind),
        }),
        Some(next) => {
            same(number(next.kind), number(kind))?;
            same(next.at.number(), at.number())
        }
    }
}

/// Refuses where two numbers differ.
fn same(wanted: u64, found: u64) -> Result<(), Illegal>
    ensures { result ≡ result_of (differ wanted found None) }
{
    if wanted == found {
        Ok(())
    } else {
        Err(Illegal {
            clause: Clause::Program,
            wanted,
            found,
        })
    }
}

/// The number of an access in a refusal. A program that has no access next has 0.
fn number(kind: AccessKind) -> u64
    ensures { result ≡ access_number kind }
{
    match kind {
        AccessKind::Load => 1,
        AccessKind::Store => 2,
        AccessKind::Tas => 3,
    }
}

/// The word that the program's next access writes.
fn value_of(next: &Option<NextAccess>) -> u64
    ensures { result ≡ value_wanted next.now }
{
    match next {
        None => 0,
        Some(next) => next.value as u64,
    }
}
