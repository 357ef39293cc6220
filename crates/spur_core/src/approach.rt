//! Steps towards an access.

ghost use Rattle.std.specs.Prelude.{◌≡◌, ◌<◌, ◌≤◌, [], get_or, length};
ghost use Rattle.spur_addr.specs.Address.{table_start};
ghost use Rattle.spur_cache.specs.Lens.{OnlyLines, caches};
ghost use Rattle.spur_walk.specs.Bounds.{steps_left};
ghost use Rattle.spur_walk.specs.Present.{MayWalk};
ghost use Rattle.spur_pager.specs.View.{seen};
ghost use Rattle.spur_core.specs.Approach.{Approaches};

use spur_addr::GlobalAddr;
use spur_cache::HasCache;
use spur_flat::FaultKind;
use spur_pager::Store;
use spur_snoop::Need;
use spur_swap::Backing;
use spur_walk::{Walked, advance};

/// Repeats steps until the access is ready, or has a fault. Each step's entry is appended.
pub(crate) fn approach<T: HasCache, B: Backing>(
    boards: &mut [T],
    store: &mut Store<B>,
    b: u32,
    at: GlobalAddr,
    need: Need,
) -> Option<FaultKind>
    requires own { b < length boards.old }
    requires user { at < table_start }
    requires walk { MayWalk (caches T.lens boards.old) store.old.phys }
    requires room { steps_left (get_or (caches T.lens boards.old) b []) at need ≤ store.old.history.room }
    ensures approaches { Approaches b at need (seen B.meaning T.lens boards.old store.old)
        (seen B.meaning T.lens boards.new store.new) result }
    ensures lens { OnlyLines T.lens boards.old boards.new }
{
    loop {
        match advance(boards, &mut store.phys, b, at, need) {
            Walked::Moved(entry) => store.history.append(entry),
            Walked::Ready => return None,
            Walked::Fault(kind) => return Some(kind),
        }
    }
}
