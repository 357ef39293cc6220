//! Eviction ahead of need.

ghost use Rattle.std.specs.Prelude.{◌≡◌, ◌<◌, ◌≤◌, ◌+◌, None, Some, false, length};
ghost use Rattle.spur_cache.specs.Lens.{OnlyLines, caches};
ghost use Rattle.spur_frames.specs.Clock.{page_of_frame};
ghost use Rattle.spur_pager.specs.Ahead.{DoesAhead, LeavesLess, LeavesOn, ahead_room, goes_ahead, writes_ahead, writes_on};
ghost use Rattle.spur_pager.specs.Counts.{Counts};
ghost use Rattle.spur_pager.specs.Room.{entry_room, page_line_count};
ghost use Rattle.spur_pager.specs.Served.{IsCarriedOn, Keeps};
ghost use Rattle.spur_pager.specs.Stand.{IsServable};
ghost use Rattle.spur_pager.specs.View.{seen};

use crate::clock::run_clock;
use crate::flush::flush_first;
use crate::put::put_out;
use crate::store::Store;
use spur_cache::HasCache;
use spur_swap::Backing;

/// Does, for board `b`, what may be done ahead of need so that a page leaves. Where the store's `ahead` is 0, or there is
/// one data frame, that is nothing. Else it is the first of these that applies.
///
/// - A page is leaving: its first `ahead` lines are flushed, or all where there are fewer, boards ascending and lines
///   ascending. Where none is left then, it goes out: where it is dirty, its frame is first written to its slot of the
///   swap. Where that fails, the page stays leaving, and a later call tries again, or the serving of a fault.
/// - No frame is free: the clock has a page leave.
///
/// All that is done is appended to the history, which needs the room that `ahead_room` says: one entry for each line of
/// the leaving page and five for its entry, or five for each page that the clock looks at. Takes no memory. No page is
/// read from swap, and one is written exactly where the page that goes out is dirty.
///
/// With a page leaving, the cost is that of the page's 128 places in each cache up to the first one that has a line left,
/// of the lines that are flushed, and of the page that goes out. Else it is that of the clock, where no frame is free:
/// the frame table knows that by a number.
pub fn ahead_step<T: HasCache, B: Backing>(boards: &mut [T], store: &mut Store<B>, b: u32)
    requires own { b < length boards.old }
    requires stands { IsServable (seen B.meaning T.lens boards.old store.old) }
    requires room { ahead_room (seen B.meaning T.lens boards.old store.old) ≤ store.old.history.room }
    ensures does { DoesAhead b (seen B.meaning T.lens boards.old store.old) (seen B.meaning T.lens boards.new store.new) }
    ensures carried { IsCarriedOn (seen B.meaning T.lens boards.old store.old)
        (seen B.meaning T.lens boards.new store.new) }
    ensures boards { length boards.new ≡ length boards.old }
    ensures keeps { Keeps (seen B.meaning T.lens boards.old store.old) (seen B.meaning T.lens boards.new store.new) }
    ensures lens { OnlyLines T.lens boards.old boards.new }
    ensures less { LeavesLess (seen B.meaning T.lens boards.old store.old) (seen B.meaning T.lens boards.new store.new) }
    ensures counts { Counts false (writes_ahead (seen B.meaning T.lens boards.old store.old))
        (seen B.meaning T.lens boards.old store.old) (seen B.meaning T.lens boards.new store.new) }
    ensures unwritten { writes_ahead (seen B.meaning T.lens boards.old store.old) ≡ false → store.new.backing
        ≡ store.old.backing }
    ensures boards_stay { goes_ahead store.old.ahead store.old.frames ≡ false → boards.new ≡ boards.old }
    ensures store_stays { goes_ahead store.old.ahead store.old.frames ≡ false → store.new ≡ store.old }
{
    // so that the check knows that there are frames
    let _ = store.frames.frames();
    if !goes_ahead(store) {
        return;
    }
    if let Some(frame) = store.frames.leaving() {
        leave_on(boards, store, b, frame);
        return;
    }
    if store.frames.is_full() {
        run_clock(boards, store, b);
    }
}

/// Whether anything may be done ahead.
fn goes_ahead<B>(store: &Store<B>) -> bool
    ensures { result ≡ goes_ahead store.now.ahead store.now.frames }
{
    store.ahead > 0 && store.frames.frames() > 1
}

/// The leaving page, which is that of this frame, leaves on: its first `ahead` lines are flushed, and where none is left,
/// it goes out. The answer is `false` only where it could not be written.
fn leave_on<T: HasCache, B: Backing>(
    boards: &mut [T],
    store: &mut Store<B>,
    b: u32,
    frame: u32,
) -> bool
    requires own { b < length boards.old }
    requires stands { IsServable (seen B.meaning T.lens boards.old store.old) }
    requires leaving { store.old.frames.leaving ≡ Some frame }
    requires room { page_line_count (caches T.lens boards.old) (page_of_frame store.old.frames frame) + entry_room
        ≤ store.old.history.room }
    ensures leaves { LeavesOn b frame (seen B.meaning T.lens boards.old store.old) result
        (seen B.meaning T.lens boards.new store.new) }
    ensures counts { Counts false (writes_on (seen B.meaning T.lens boards.old store.old) frame)
        (seen B.meaning T.lens boards.old store.old) (seen B.meaning T.lens boards.new store.new) }
    ensures unwritten { writes_on (seen B.meaning T.lens boards.old store.old) frame ≡ false → store.new.backing
        ≡ store.old.backing }
    ensures lens { OnlyLines T.lens boards.old boards.new }
{
    // so that the check knows the leaving frame to be a taken one
    let _ = store.frames.frames();
    let Some((page, slot)) = store.frames.holder(frame) else {
        unreachable!();
    };
    let most = store.ahead;
    if !flush_first(boards, store, b, page, most) {
        return true;
    }
    put_out(boards, store, b, frame, page, slot).is_ok()
}
