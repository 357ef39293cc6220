//! A fault of an access is served.

ghost use Rattle.std.specs.Prelude.{◌≡◌, ◌<◌, ◌≤◌, IfErr, OnOk, length};
ghost use Rattle.spur_cache.specs.Lens.{OnlyLines};
ghost use Rattle.spur_addr.specs.Address.{table_start};
ghost use Rattle.spur_pager.specs.Room.{room_for};
ghost use Rattle.spur_pager.specs.Served.{CountsServing, IsCarriedOn, Does, HasFailed, HasFault, IsServed, Keeps, StaysFor};
ghost use Rattle.spur_pager.specs.Stand.{IsServable};
ghost use Rattle.spur_pager.specs.View.{seen};

use crate::fault::ServeFault;
use crate::mark::{dirty, reference};
use crate::missing::{leaving, missing};
use crate::store::Store;
use spur_addr::GlobalAddr;
use spur_cache::HasCache;
use spur_flat::FaultKind;
use spur_swap::Backing;

/// Serves a fault of kind Missing, Leaving, Reference or Dirty, with which `advance` has just answered an access of board
/// `b` to the global byte address `at`, below segment 255. After `Ok` the access may be tried again.
///
/// - Reference and Dirty: that bit of the page's entry is set.
/// - Leaving: the page is finished. Its lines are flushed from all caches, boards ascending and lines ascending; where
///   it is dirty, its frame is written to its slot of the swap; then its entry is that of a page on swap, and its frame
///   is free.
/// - Missing: where no frame is free, the leaving page is finished, and where none is leaving, the clock has one leave
///   first. The page is read from its slot into the free frame with the least number; then its entry names that frame,
///   it is referenced, and not dirty.
///
/// Each change of an entry is made in the cache of board `b`, once `advance_entry` has brought the entry's block there
/// for it alone. All that is done is appended to the history, which needs the room that `room_for` says: five entries
/// for each change of an entry, and one for each line of the page that goes out. Takes no memory.
///
/// `SwapWrite` comes for Missing, where no frame was free, and for Leaving, where the swap object failed to write the page
/// that was to go out: its lines are flushed, and it is still leaving and dirty in its frame, so that a later call tries
/// again. `SwapRead` comes for Missing alone, where the swap object failed to read the missing page: it is still on
/// swap, and a frame is free. Each comes only where the swap object's count of faults rose in this call. The swap object
/// is called before the steps towards the entry, so nothing was fetched in vain. It is called to read a page for Missing
/// alone, and to write one exactly where the page that goes out is dirty.
///
/// The cost is that of the lines of the page that goes out, at most 128 a board, of the blocks of the entries that are
/// changed, of the frames that the clock passes or that come before the least free one, and of one page of words for
/// each call of the swap object. What a fault asks for, and the clock, are this project's own choice.
pub fn serve<T: HasCache, B: Backing>(
    boards: &mut [T],
    store: &mut Store<B>,
    b: u32,
    kind: FaultKind,
    at: GlobalAddr,
) -> Result<(), ServeFault>
    requires own { b < length boards.old }
    requires user { at < table_start }
    requires stands { IsServable (seen B.meaning T.lens boards.old store.old) }
    requires fault { HasFault (seen B.meaning T.lens boards.old store.old) b kind at }
    requires room { room_for (seen B.meaning T.lens boards.old store.old) kind ≤ store.old.history.room }
    ensures does { Does b (seen B.meaning T.lens boards.old store.old) kind at result
        (seen B.meaning T.lens boards.new store.new) }
    ensures carried { IsCarriedOn (seen B.meaning T.lens boards.old store.old)
        (seen B.meaning T.lens boards.new store.new) }
    ensures ok { OnOk result (IsServed b (seen B.meaning T.lens boards.old store.old) kind at
        (seen B.meaning T.lens boards.new store.new)) }
    ensures err { IfErr result (λ why. HasFailed b (seen B.meaning T.lens boards.old store.old) kind at
        (seen B.meaning T.lens boards.new store.new) why) }
    ensures boards { length boards.new ≡ length boards.old }
    ensures keeps { Keeps (seen B.meaning T.lens boards.old store.old) (seen B.meaning T.lens boards.new store.new) }
    ensures lens { OnlyLines T.lens boards.old boards.new }
    ensures counts { CountsServing (seen B.meaning T.lens boards.old store.old) kind result
        (seen B.meaning T.lens boards.new store.new) }
    ensures unused { StaysFor (seen B.meaning T.lens boards.old store.old) kind store.old.backing store.new.backing }
{
    match kind {
        FaultKind::Reference => {
            reference(boards, store, b, at);
            Ok(())
        }
        FaultKind::Dirty => {
            dirty(boards, store, b, at);
            Ok(())
        }
        FaultKind::Leaving => leaving(boards, store, b, at),
        FaultKind::Missing => missing(boards, store, b, at),
        FaultKind::Align | FaultKind::Unmapped | FaultKind::Protection => unreachable!(),
    }
}
