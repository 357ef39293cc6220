//! A board's turn on the bus, towards its access.

ghost use Rattle.std.specs.Prelude.{◌≡◌, ◌<◌, ◌≤◌, length, true};
ghost use Rattle.spur_addr.specs.Address.{is_aligned, table_start};
ghost use Rattle.spur_cache.specs.Lens.{OnlyLines};
ghost use Rattle.spur_cpu.specs.Meaning.{is_ending};
ghost use Rattle.spur_walk.specs.Laws.{need_of};
ghost use Rattle.spur_pager.specs.Reserve.{turn_room};
ghost use Rattle.spur_pager.specs.Stand.{IsServable};
ghost use Rattle.spur_pager.specs.View.{seen};
ghost use Rattle.spur_core.specs.Comes.{Reaches};

use crate::approach::approach;
use spur_addr::GlobalAddr;
use spur_cache::HasCache;
use spur_flat::{AccessKind, Entry, FaultKind};
use spur_pager::{Store, serve};
use spur_swap::Backing;
use spur_walk::need_for;

/// What came of a turn, before the access is done.
#[derive(Clone, Copy, Debug, PartialEq, Eq)]
pub(crate) enum Reached {
    /// The access can be done in the board's own cache.
    Ready,
    /// A fault ends the board. Its entry is appended.
    Ends(FaultKind),
    /// A fault was not served, since the swap object failed. Its entry is appended.
    SwapFault,
}

/// Whether a fault ends its board. The pager serves the others.
fn ends(kind: FaultKind) -> bool
    ensures { result ≡ is_ending kind }
{
    matches!(
        kind,
        FaultKind::Align | FaultKind::Unmapped | FaultKind::Protection
    )
}

/// Repeats steps towards the access, and serves its faults, until it is ready or the board can't go on. All that is
/// done is appended.
pub(crate) fn reach<T: HasCache, B: Backing>(
    boards: &mut [T],
    store: &mut Store<B>,
    b: u32,
    at: GlobalAddr,
    access: AccessKind,
) -> Reached
    requires own { b < length boards.old }
    requires user { at < table_start }
    requires aligned { is_aligned at ≡ true }
    requires stands { IsServable (seen B.meaning T.lens boards.old store.old) }
    requires room { turn_room (seen B.meaning T.lens boards.old store.old) b at (need_of access) ≤ store.old.history.room }
    ensures reaches { Reaches b at access (seen B.meaning T.lens boards.old store.old)
        (seen B.meaning T.lens boards.new store.new) result }
    ensures lens { OnlyLines T.lens boards.old boards.new }
{
    let need = need_for(access);
    loop {
        // so that the check knows the leaving frame to be a taken one
        let _ = store.frames.frames();
        let Some(kind) = approach(boards, store, b, at, need) else {
            return Reached::Ready;
        };
        store.history.append(Entry::Fault {
            board: b,
            kind,
            access,
            at,
        });
        if ends(kind) {
            return Reached::Ends(kind);
        }
        if serve(boards, store, b, kind, at).is_err() {
            return Reached::SwapFault;
        }
    }
}
