//! A page goes out to swap.

ghost use Rattle.std.specs.Prelude.{◌≡◌, ◌+◌, ◌*◌, ◌<◌, ◌≤◌, OnErr, OnOk, false, length};
ghost use Rattle.spur_cache.specs.Lens.{OnlyLines};
ghost use Rattle.spur_addr.specs.Pages.{page_at};
ghost use Rattle.spur_swap.specs.Meaning.{SameButFaults, after_write};
ghost use Rattle.spur_swap.specs.Told.{told_with};
ghost use Rattle.spur_pager.specs.Counts.{CountsOut};
ghost use Rattle.spur_addr.specs.PageEntry.{is_dirty};
ghost use Rattle.spur_pager.specs.Moves.{FailsToGoOut, GoesOut, MayGoOut};
ghost use Rattle.spur_pager.specs.Room.{entry_room};
ghost use Rattle.spur_pager.specs.Stand.{IsServable, entry_in};
ghost use Rattle.spur_pager.specs.View.{seen};

use crate::change::Change;
use crate::entry::change_entry;
use crate::page::page_address;
use crate::standing::standing_entry;
use crate::store::Store;
use spur_cache::HasCache;
use spur_io::Failed;
use spur_phys::Phys;
use spur_swap::Backing;

/// Puts out the page of a frame, which is leaving and of which no cache has a line. Where it is dirty, it is first written
/// to its slot; then its entry is changed in the cache of board `b`, and the frame is free. Where it cannot be written, all
/// is as it was.
pub(crate) fn put_out<T: HasCache, B: Backing>(
    boards: &mut [T],
    store: &mut Store<B>,
    b: u32,
    frame: u32,
    page: u32,
    slot: u32,
) -> Result<(), Failed>
    requires stands { IsServable (seen B.meaning T.lens boards.old store.old) }
    requires may { MayGoOut (seen B.meaning T.lens boards.old store.old) b frame page slot }
    requires room { entry_room ≤ store.old.history.room }
    ensures out { OnOk result (GoesOut b frame page slot (seen B.meaning T.lens boards.old store.old)
        (seen B.meaning T.lens boards.new store.new)) }
    ensures failed { OnErr result (FailsToGoOut page (seen B.meaning T.lens boards.old store.old)
        (seen B.meaning T.lens boards.new store.new)) }
    ensures unwritten { is_dirty (entry_in (seen B.meaning T.lens boards.old store.old) page) ≡ false → store.new.backing
        ≡ store.old.backing }
    ensures counts { CountsOut page (seen B.meaning T.lens boards.old store.old)
        (seen B.meaning T.lens boards.new store.new) }
    ensures lens { OnlyLines T.lens boards.old boards.new }
{
    let at = page_address(page);
    if standing_entry(boards, &store.phys, at).dirty() {
        save_page(&store.phys, &mut store.backing, frame, slot)?;
    }
    change_entry(
        boards,
        &mut store.phys,
        &mut store.history,
        b,
        at,
        Change::Out(slot),
    );
    store.frames.release(frame);
    Ok(())
}

/// Writes the words of a frame to a slot of the swap.
fn save_page<B: Backing>(phys: &Phys, backing: &mut B, frame: u32, slot: u32) -> Result<(), Failed>
    requires frame { frame * 1024 + 1024 ≤ length phys.now }
    requires slot { slot < (B.meaning backing.old).slots }
    ensures put { OnOk result
        ((B.meaning backing.new).pages ≡ told_with (B.meaning backing.old).pages slot (page_at phys.now frame)) }
    ensures pages_stay { OnErr result ((B.meaning backing.new).pages ≡ (B.meaning backing.old).pages) }
    ensures stays { SameButFaults (after_write (B.meaning backing.old) (B.meaning backing.new).pages)
        (B.meaning backing.new) }
    ensures later { (B.meaning backing.old).faults ≤ (B.meaning backing.new).faults }
    ensures cause { OnErr result ((B.meaning backing.old).faults < (B.meaning backing.new).faults) }
{
    let mut page = [0; 1024];
    phys.read_page(frame, &mut page);
    backing.write_page(slot, &page)
}
