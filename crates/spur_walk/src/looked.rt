//! What a cache says of an access.

ghost use Rattle.std.specs.Prelude.{◌≡◌};
ghost use Rattle.spur_cache.specs.Lines.{found};
ghost use Rattle.spur_flat.specs.Access.{allows, grants};
ghost use Rattle.spur_flat.specs.TagRules.{access_of};
ghost use Rattle.spur_walk.specs.Look.{look_of};
ghost use Rattle.spur_walk.specs.Laws.{need_of};

use spur_addr::{GlobalAddr, Protection};
use spur_cache::Cache;
use spur_flat::AccessKind;
use spur_snoop::{BlockState, Need};

/// What a cache says of an access, without a look at any table.
#[derive(Clone, Copy, Debug, PartialEq, Eq)]
pub enum Looked {
    /// The access can be done in the cache.
    Hit,
    /// The protection that the line has does not allow it.
    Denied,
    /// It is a write, and the line's dirty copy is clear.
    NeedsDirty,
    /// It is a write, and other caches may have the block.
    NeedsClaim,
    /// The cache does not have the block.
    Miss,
}

/// What an access needs of its block: a test-and-set writes, too.
pub fn need_for(access: AccessKind) -> Need
    ensures { result ≡ need_of access }
{
    match access {
        AccessKind::Load => Need::Read,
        AccessKind::Store | AccessKind::Tas => Need::Write,
    }
}

/// What a cache says of an access to the word at `at`.
///
/// The line's own copies of the protection and of the dirty bit are looked at, and no page table is. The
/// order is this project's profile: the block, the protection, the dirty copy, the state.
pub fn look(cache: &Cache, at: GlobalAddr, need: Need) -> Looked
    ensures { result ≡ look_of (found cache.now at) need }
{
    let Some(line) = cache.find(at) else {
        return Looked::Miss;
    };
    if !granted(line.prot, need) {
        return Looked::Denied;
    }
    match need {
        Need::Read => Looked::Hit,
        Need::Write => {
            if !line.dirty {
                Looked::NeedsDirty
            } else if !line.state.is_exclusive() {
                Looked::NeedsClaim
            } else {
                Looked::Hit
            }
        }
    }
}

/// Whether a protection allows a need.
pub(crate) fn granted(prot: Protection, need: Need) -> bool
    ensures { result ≡ grants prot (access_of need) }
{
    match (prot, need) {
        (Protection::Nothing, _) => false,
        (Protection::ReadOnly, Need::Read) => true,
        (Protection::ReadOnly, Need::Write) => false,
        (Protection::ReadWrite, _) => true,
    }
}
