//! A Leaving and a Missing fault are served.

ghost use Rattle.std.specs.Prelude.{◌≡◌, ◌<◌, ◌≤◌, IfErr, OnOk, length};
ghost use Rattle.spur_cache.specs.Lens.{OnlyLines};
ghost use Rattle.spur_addr.specs.Address.{table_start};
ghost use Rattle.spur_flat.specs.declared.access.FaultKind.TheVariants as kind;
ghost use Rattle.spur_pager.specs.Room.{room_for};
ghost use Rattle.spur_pager.specs.Served.{CountsServing, HasFault, ServesAs, StaysFor};
ghost use Rattle.spur_pager.specs.Stand.{IsServable};
ghost use Rattle.spur_pager.specs.View.{seen};

use crate::bring::bring_in;
use crate::entry::entry_here;
use crate::fault::ServeFault;
use crate::finish::{finish, free_frame};
use crate::store::Store;
use spur_addr::GlobalAddr;
use spur_cache::HasCache;
use spur_swap::Backing;

/// Serves a Leaving fault: the leaving page is finished.
pub(crate) fn leaving<T: HasCache, B: Backing>(
    boards: &mut [T],
    store: &mut Store<B>,
    b: u32,
    at: GlobalAddr,
) -> Result<(), ServeFault>
    requires own { b < length boards.old }
    requires user { at < table_start }
    requires stands { IsServable (seen B.meaning T.lens boards.old store.old) }
    requires fault { HasFault (seen B.meaning T.lens boards.old store.old) b kind.Leaving at }
    requires room { room_for (seen B.meaning T.lens boards.old store.old) kind.Leaving ≤ store.old.history.room }
    ensures serves { ServesAs b (seen B.meaning T.lens boards.old store.old) kind.Leaving at result
        (seen B.meaning T.lens boards.new store.new) }
    ensures unused { StaysFor
        (seen B.meaning T.lens boards.old store.old) kind.Leaving store.old.backing store.new.backing }
    ensures counts { CountsServing (seen B.meaning T.lens boards.old store.old) kind.Leaving result
        (seen B.meaning T.lens boards.new store.new) }
    ensures lens { OnlyLines T.lens boards.old boards.new }
{
    let Some(frame) = store.frames.leaving() else {
        unreachable!();
    };
    match finish(boards, store, b, frame) {
        Ok(()) => Ok(()),
        Err(_) => Err(ServeFault::SwapWrite),
    }
}

/// Serves a Missing fault: the page is brought into the free frame with the least number. Where none is free, one is made
/// free first.
pub(crate) fn missing<T: HasCache, B: Backing>(
    boards: &mut [T],
    store: &mut Store<B>,
    b: u32,
    at: GlobalAddr,
) -> Result<(), ServeFault>
    requires own { b < length boards.old }
    requires user { at < table_start }
    requires stands { IsServable (seen B.meaning T.lens boards.old store.old) }
    requires fault { HasFault (seen B.meaning T.lens boards.old store.old) b kind.Missing at }
    requires room { room_for (seen B.meaning T.lens boards.old store.old) kind.Missing ≤ store.old.history.room }
    ensures serves { ServesAs b (seen B.meaning T.lens boards.old store.old) kind.Missing at result
        (seen B.meaning T.lens boards.new store.new) }
    ensures counts { CountsServing (seen B.meaning T.lens boards.old store.old) kind.Missing result
        (seen B.meaning T.lens boards.new store.new) }
    ensures lens { OnlyLines T.lens boards.old boards.new }
{
    let slot = entry_here(boards[b as usize].cache(), at).number();
    let Ok(frame) = free_frame(boards, store, b) else {
        return Err(ServeFault::SwapWrite);
    };
    match bring_in(boards, store, b, frame, at.page(), slot) {
        Ok(()) => Ok(()),
        Err(_) => Err(ServeFault::SwapRead),
    }
}
