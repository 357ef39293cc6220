//! A frame is made free.

ghost use Rattle.std.specs.Prelude.{◌≡◌, ◌<◌, ◌≤◌, ◌+◌, None, OnErr, OnOk, IfOk, IsSome, false, Some, length};
ghost use Rattle.spur_cache.specs.Lens.{OnlyLines, caches};
ghost use Rattle.spur_addr.specs.PageEntry.{is_dirty};
ghost use Rattle.spur_frames.specs.Clock.{page_of_frame};
ghost use Rattle.spur_frames.specs.Frames.{least_free};
ghost use Rattle.spur_pager.specs.Counts.{CountsFinish};
ghost use Rattle.spur_pager.specs.Served.{CountsFreeing};
ghost use Rattle.spur_pager.specs.Finish.{FailsToFinish, FailsToFree, Finishes, Frees, HasLeaving};
ghost use Rattle.spur_pager.specs.Room.{clock_room, entry_room, free_room, page_line_count};
ghost use Rattle.spur_pager.specs.Stand.{IsServable, entry_in};
ghost use Rattle.spur_pager.specs.View.{seen};

use crate::clock::run_clock;
use crate::flush::flush_page;
use crate::put::put_out;
use crate::store::Store;
use spur_cache::HasCache;
use spur_io::Failed;
use spur_swap::Backing;

/// Finishes the leaving page, which is that of this frame: its lines are flushed, it is written to swap where it is dirty,
/// its entry is changed, and the frame is free. Where it cannot be written, it is still leaving, and its lines are flushed.
pub(crate) fn finish<T: HasCache, B: Backing>(
    boards: &mut [T],
    store: &mut Store<B>,
    b: u32,
    frame: u32,
) -> Result<(), Failed>
    requires own { b < length boards.old }
    requires stands { IsServable (seen B.meaning T.lens boards.old store.old) }
    requires leaving { store.old.frames.leaving ≡ Some frame }
    requires room { page_line_count (caches T.lens boards.old) (page_of_frame store.old.frames frame) + entry_room
        ≤ store.old.history.room }
    ensures finishes { OnOk result (Finishes b frame (seen B.meaning T.lens boards.old store.old)
        (seen B.meaning T.lens boards.new store.new)) }
    ensures failed { OnErr result (FailsToFinish b frame (seen B.meaning T.lens boards.old store.old)
        (seen B.meaning T.lens boards.new store.new)) }
    ensures unwritten { is_dirty (entry_in
        (seen B.meaning T.lens boards.old store.old) (page_of_frame store.old.frames frame)) ≡ false → store.new.backing
        ≡ store.old.backing }
    ensures counts { CountsFinish frame (seen B.meaning T.lens boards.old store.old)
        (seen B.meaning T.lens boards.new store.new) }
    ensures lens { OnlyLines T.lens boards.old boards.new }
{
    // so that the check knows the leaving frame to be a taken one
    let _ = store.frames.frames();
    let Some((page, slot)) = store.frames.holder(frame) else {
        unreachable!();
    };
    flush_page(boards, store, b, page);
    put_out(boards, store, b, frame, page, slot)
}

/// The frame whose page is leaving. Where none is, the clock chooses one.
fn leaving_frame<T: HasCache, B: Backing>(boards: &mut [T], store: &mut Store<B>, b: u32) -> u32
    requires own { b < length boards.old }
    requires stands { IsServable (seen B.meaning T.lens boards.old store.old) }
    requires full { least_free store.old.frames ≡ None }
    requires room { clock_room (seen B.meaning T.lens boards.old store.old) store.old.frames.leaving
        ≤ store.old.history.room }
    ensures leaving { HasLeaving b (seen B.meaning T.lens boards.old store.old)
        (seen B.meaning T.lens boards.new store.new) result }
    ensures backing { store.new.backing ≡ store.old.backing }
    ensures lens { OnlyLines T.lens boards.old boards.new }
{
    // so that the check knows that there are frames
    let _ = store.frames.frames();
    if let Some(frame) = store.frames.leaving() {
        return frame;
    }
    run_clock(boards, store, b);
    match store.frames.leaving() {
        Some(frame) => frame,
        None => unreachable!(),
    }
}

/// The free frame with the least number. Where none is free, the leaving page is finished first, or else the one that the
/// clock chooses.
pub(crate) fn free_frame<T: HasCache, B: Backing>(
    boards: &mut [T],
    store: &mut Store<B>,
    b: u32,
) -> Result<u32, Failed>
    requires own { b < length boards.old }
    requires stands { IsServable (seen B.meaning T.lens boards.old store.old) }
    requires room { free_room (seen B.meaning T.lens boards.old store.old) (least_free store.old.frames)
        ≤ store.old.history.room }
    ensures unused { IsSome (least_free store.old.frames) → store.new.backing ≡ store.old.backing }
    ensures free { IfOk result (λ frame. Frees b (seen B.meaning T.lens boards.old store.old)
        (seen B.meaning T.lens boards.new store.new) frame) }
    ensures failed { OnErr result (FailsToFree b (seen B.meaning T.lens boards.old store.old)
        (seen B.meaning T.lens boards.new store.new)) }
    ensures counts { CountsFreeing (seen B.meaning T.lens boards.old store.old)
        (seen B.meaning T.lens boards.new store.new) }
    ensures lens { OnlyLines T.lens boards.old boards.new }
{
    if let Some(frame) = store.frames.free_one() {
        return Ok(frame);
    }
    let leaving = leaving_frame(boards, store, b);
    finish(boards, store, b, leaving)?;
    Ok(leaving)
}
