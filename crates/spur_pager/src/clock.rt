//! The clock, which chooses the page that leaves.

ghost use Rattle.std.specs.Prelude.{◌≡◌, ◌<◌, ◌≤◌, ◌+◌, ◌*◌, IsSome, None, length};
ghost use Rattle.spur_cache.specs.Lens.{OnlyLines};
ghost use Rattle.spur_frames.specs.Frames.{looked_at};
ghost use Rattle.spur_pager.specs.Service.{turn_of};
ghost use Rattle.spur_pager.specs.Looks.{Clocks, Looks};
ghost use Rattle.spur_pager.specs.Room.{entry_room};
ghost use Rattle.spur_pager.specs.Stand.{IsServable};
ghost use Rattle.spur_pager.specs.View.{seen};

use crate::change::Change;
use crate::entry::tick;
use crate::page::page_address;
use crate::store::Store;
use spur_cache::HasCache;
use spur_swap::Backing;

/// The clock has a page leave: it takes the taken frames in ascending order from the hand, going round, until the page of
/// one is not referenced, or has been looked at already; the pages before that one are not referenced any more.
pub(crate) fn run_clock<T: HasCache, B: Backing>(boards: &mut [T], store: &mut Store<B>, b: u32)
    requires own { b < length boards.old }
    requires stands { IsServable (seen B.meaning T.lens boards.old store.old) }
    requires taken { IsSome (looked_at store.old.frames) }
    requires staying { store.old.frames.leaving ≡ None }
    requires room { entry_room * (length (turn_of (seen B.meaning T.lens boards.old store.old)).cleared + 1)
        ≤ store.old.history.room }
    ensures clocks { Clocks b (seen B.meaning T.lens boards.old store.old) (seen B.meaning T.lens boards.new store.new) }
    ensures backing { store.new.backing ≡ store.old.backing }
    ensures lens { OnlyLines T.lens boards.old boards.new }
{
    // so that the check knows the table's hand to be on one of its frames
    let _ = store.frames.frames();
    while !look_once(boards, store, b) {}
}

/// The clock looks at the page that the hand finds, and the hand passes it. Where it is referenced, it is not any more;
/// else it leaves, and the answer is `true`.
fn look_once<T: HasCache, B: Backing>(boards: &mut [T], store: &mut Store<B>, b: u32) -> bool
    requires own { b < length boards.old }
    requires stands { IsServable (seen B.meaning T.lens boards.old store.old) }
    requires taken { IsSome (looked_at store.old.frames) }
    requires staying { store.old.frames.leaving ≡ None }
    requires room { 5 ≤ store.old.history.room }
    ensures looks { Looks b (seen B.meaning T.lens boards.old store.old)
        (seen B.meaning T.lens boards.new store.new) result }
    ensures backing { store.new.backing ≡ store.old.backing }
    ensures lens { OnlyLines T.lens boards.old boards.new }
{
    let Some(frame) = store.frames.look_next() else {
        unreachable!();
    };
    let Some((page, _)) = store.frames.holder(frame) else {
        unreachable!();
    };
    let change = tick(
        boards,
        &mut store.phys,
        &mut store.history,
        b,
        page_address(page),
    );
    store.frames.pass();
    match change {
        Change::Unreferenced => false,
        _ => {
            store.frames.set_leaving(frame);
            true
        }
    }
}
