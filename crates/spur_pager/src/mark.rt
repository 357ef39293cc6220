//! One bit of the entry of a page is set or cleared.

ghost use Rattle.std.specs.Prelude.{[], ◌≡◌, ◌+◌, ◌<◌, ◌≤◌, ◌∷◌, Ok, length};
ghost use Rattle.spur_cache.specs.Lens.{OnlyLines};
ghost use Rattle.spur_addr.specs.Address.{table_start};
ghost use Rattle.spur_flat.specs.declared.access.FaultKind.TheVariants as kind;
ghost use Rattle.spur_pager.specs.Acts.{Writes};
ghost use Rattle.spur_pager.specs.Changes.{changed_word, entry_for};
ghost use Rattle.spur_pager.specs.Marks.{IsMarked, MayMark};
ghost use Rattle.spur_pager.specs.Room.{entry_room};
ghost use Rattle.spur_pager.specs.Runs.{Runs};
ghost use Rattle.spur_pager.specs.Served.{HasFault, ServesAs};
ghost use Rattle.spur_pager.specs.Stand.{IsServable};
ghost use Rattle.spur_pager.specs.View.{seen};

use crate::change::Change;
use crate::entry::change_entry;
use crate::page::page_start;
use crate::store::Store;
use spur_addr::GlobalAddr;
use spur_cache::HasCache;
use spur_swap::Backing;

/// Sets or clears one bit of the entry of a valid page, in the cache of board `b`. The page is given by its first byte.
pub(crate) fn mark<T: HasCache, B: Backing>(
    boards: &mut [T],
    store: &mut Store<B>,
    b: u32,
    page: GlobalAddr,
    change: Change,
)
    requires stands { IsServable (seen B.meaning T.lens boards.old store.old) }
    requires may { MayMark (seen B.meaning T.lens boards.old store.old) b page change }
    requires room { entry_room ≤ store.old.history.room }
    ensures runs { Runs b (Writes page (entry_for change b page) (changed_word change) ∷ [])
        (seen B.meaning T.lens boards.old store.old)
        (seen B.meaning T.lens boards.new store.new) }
    ensures marked { IsMarked b page change (seen B.meaning T.lens boards.old store.old)
        (seen B.meaning T.lens boards.new store.new) }
    ensures used { store.old.history.room ≤ store.new.history.room + entry_room }
    ensures frames { store.new.frames ≡ store.old.frames }
    ensures backing { store.new.backing ≡ store.old.backing }
    ensures lens { OnlyLines T.lens boards.old boards.new }
{
    // so that the check knows the table's hand and leaving frame to be among its frames
    let _ = store.frames.frames();
    change_entry(boards, &mut store.phys, &mut store.history, b, page, change);
}

/// Serves a Reference fault: the page is referenced.
pub(crate) fn reference<T: HasCache, B: Backing>(
    boards: &mut [T],
    store: &mut Store<B>,
    b: u32,
    at: GlobalAddr,
)
    requires own { b < length boards.old }
    requires user { at < table_start }
    requires stands { IsServable (seen B.meaning T.lens boards.old store.old) }
    requires fault { HasFault (seen B.meaning T.lens boards.old store.old) b kind.Reference at }
    requires room { entry_room ≤ store.old.history.room }
    ensures serves { ServesAs b (seen B.meaning T.lens boards.old store.old) kind.Reference at (Ok (tt {0}))
        (seen B.meaning T.lens boards.new store.new) }
    ensures lens { OnlyLines T.lens boards.old boards.new }
    ensures backing { store.new.backing ≡ store.old.backing }
{
    mark(boards, store, b, page_start(at), Change::Referenced);
}

/// Serves a Dirty fault: the page is dirty.
pub(crate) fn dirty<T: HasCache, B: Backing>(
    boards: &mut [T],
    store: &mut Store<B>,
    b: u32,
    at: GlobalAddr,
)
    requires own { b < length boards.old }
    requires user { at < table_start }
    requires stands { IsServable (seen B.meaning T.lens boards.old store.old) }
    requires fault { HasFault (seen B.meaning T.lens boards.old store.old) b kind.Dirty at }
    requires room { entry_room ≤ store.old.history.room }
    ensures serves { ServesAs b (seen B.meaning T.lens boards.old store.old) kind.Dirty at (Ok (tt {0}))
        (seen B.meaning T.lens boards.new store.new) }
    ensures lens { OnlyLines T.lens boards.old boards.new }
    ensures backing { store.new.backing ≡ store.old.backing }
{
    mark(boards, store, b, page_start(at), Change::Dirty);
}
