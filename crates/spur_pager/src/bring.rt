//! A page comes in from swap.

ghost use Rattle.std.specs.Prelude.{◌≡◌, ◌+◌, ◌*◌, ◌<◌, ◌≤◌, OnErr, OnOk, length, true, false};
ghost use Rattle.spur_cache.specs.Lens.{OnlyLines};
ghost use Rattle.spur_swap.specs.Meaning.{SameButFaults, after_read};
ghost use Rattle.spur_pager.specs.Counts.{Counts};
ghost use Rattle.spur_pager.specs.Loads.{IsLoaded};
ghost use Rattle.spur_pager.specs.Moves.{ComesIn, HasSwapFailed, MayComeIn};
ghost use Rattle.spur_pager.specs.Room.{entry_room};
ghost use Rattle.spur_pager.specs.Stand.{IsServable};
ghost use Rattle.spur_pager.specs.View.{seen};

use crate::change::Change;
use crate::entry::change_entry;
use crate::page::page_address;
use crate::store::Store;
use spur_cache::HasCache;
use spur_io::Failed;
use spur_phys::Phys;
use spur_swap::Backing;

/// Brings a page that is on swap into a free frame: it is read from its slot, its entry is changed in the cache of board
/// `b`, and the frame is taken. Where it cannot be read, all is as it was.
pub(crate) fn bring_in<T: HasCache, B: Backing>(
    boards: &mut [T],
    store: &mut Store<B>,
    b: u32,
    frame: u32,
    page: u32,
    slot: u32,
) -> Result<(), Failed>
    requires stands { IsServable (seen B.meaning T.lens boards.old store.old) }
    requires may { MayComeIn (seen B.meaning T.lens boards.old store.old) b frame page slot }
    requires room { entry_room ≤ store.old.history.room }
    ensures brought { OnOk result (ComesIn b frame page slot (seen B.meaning T.lens boards.old store.old)
        (seen B.meaning T.lens boards.new store.new)) }
    ensures failed { OnErr result (HasSwapFailed (seen B.meaning T.lens boards.old store.old)
        (seen B.meaning T.lens boards.new store.new)) }
    ensures counts { Counts true false (seen B.meaning T.lens boards.old store.old)
        (seen B.meaning T.lens boards.new store.new) }
    ensures lens { OnlyLines T.lens boards.old boards.new }
{
    // so that the check knows the leaving frame to be a taken one
    let _ = store.frames.frames();
    load_page(&mut store.phys, &mut store.backing, frame, slot)?;
    change_entry(
        boards,
        &mut store.phys,
        &mut store.history,
        b,
        page_address(page),
        Change::In(frame),
    );
    store.frames.take(frame, page, slot);
    Ok(())
}

/// Reads the page of a slot of the swap into a frame.
fn load_page<B: Backing>(
    phys: &mut Phys,
    backing: &mut B,
    frame: u32,
    slot: u32,
) -> Result<(), Failed>
    requires slot { slot < (B.meaning backing.old).slots }
    requires frame { frame * 1024 + 1024 ≤ length phys.old }
    ensures loaded { OnOk result (IsLoaded ((B.meaning backing.old).pages) slot frame phys.old phys.new) }
    ensures memory_stays { OnErr result (phys.new ≡ phys.old) }
    ensures stays { SameButFaults (after_read (B.meaning backing.old)) (B.meaning backing.new) }
    ensures later { (B.meaning backing.old).faults ≤ (B.meaning backing.new).faults }
    ensures cause { OnErr result ((B.meaning backing.old).faults < (B.meaning backing.new).faults) }
{
    let mut page = [0; 1024];
    backing.read_page(slot, &mut page)?;
    phys.write_page(frame, &page);
    Ok(())
}
