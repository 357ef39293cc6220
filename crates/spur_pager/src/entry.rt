//! The entry of a page is changed, in the cache of a board that has its block alone.

ghost use Rattle.std.specs.Prelude.{[], ◌≡◌, ◌<◌, ◌≤◌, IsSome, IsTrue, get_or, length, true};
ghost use Rattle.spur_cache.specs.Lens.{OnlyLines, caches};
ghost use Rattle.spur_addr.specs.Address.{entry_address_of, table_start};
ghost use Rattle.spur_addr.specs.PageEntry.{is_readable, is_valid};
ghost use Rattle.spur_cache.specs.Lines.{found, word_in};
ghost use Rattle.spur_flat.specs.Pager.{word_of};
ghost use Rattle.spur_walk.specs.Bounds.{page_steps_left};
ghost use Rattle.spur_walk.specs.Present.{MayWalk};
ghost use Rattle.spur_walk.specs.Tables.{logical_flat, root_at};
ghost use Rattle.spur_pager.specs.Acts.{hold_by};
ghost use Rattle.spur_pager.specs.Changes.{Changes, MayChange, clock_change, is_small, MayTick, Ticks, ticked};
ghost use Rattle.spur_pager.specs.Fetch.{Fetches};

use crate::change::{Change, changed, entry_for};
use spur_addr::{GlobalAddr, Pte, pte_of};
use spur_cache::{Cache, HasCache};
use spur_flat::History;
use spur_phys::Phys;
use spur_walk::{Walked, advance_entry};

/// Changes the entry of a page in the cache of board `b`, and appends what is done: first what brings the entry's block
/// there, at most four entries, and then the entry that tells of the change. The page is given by its first byte.
pub(crate) fn change_entry<T: HasCache>(
    boards: &mut [T],
    phys: &mut Phys,
    history: &mut History,
    b: u32,
    page: GlobalAddr,
    change: Change,
)
    requires own { b < length boards.old }
    requires user { page < table_start }
    requires walk { MayWalk (caches T.lens boards.old) phys.old }
    requires root { is_valid (root_at (logical_flat (caches T.lens boards.old) phys.old) page) ≡ true }
    requires small { is_small change }
    requires may { MayChange b page change (hold_by T.lens boards.old phys.old) }
    requires room { 5 ≤ history.old.room }
    ensures changes { Changes b page change (hold_by T.lens boards.old phys.old) history.old
        (hold_by T.lens boards.new phys.new) history.new }
    ensures lens { OnlyLines T.lens boards.old boards.new }
{
    fetch(boards, phys, history, b, page);
    let entry = entry_here(boards[b as usize].cache(), page);
    boards[b as usize].set_line_word(pte_of(page), changed(entry, change).word());
    history.append(entry_for(b, page, change));
}

/// What the clock does with a page that it looks at: one that is referenced is not any more, and any other leaves. It is
/// told which, and appended with what brings the entry's block.
pub(crate) fn tick<T: HasCache>(
    boards: &mut [T],
    phys: &mut Phys,
    history: &mut History,
    b: u32,
    page: GlobalAddr,
) -> Change
    requires own { b < length boards.old }
    requires user { page < table_start }
    requires walk { MayWalk (caches T.lens boards.old) phys.old }
    requires root { is_valid (root_at (logical_flat (caches T.lens boards.old) phys.old) page) ≡ true }
    requires may { MayTick b page (hold_by T.lens boards.old phys.old) }
    requires room { 5 ≤ history.old.room }
    ensures change { result ≡ ticked (hold_by T.lens boards.old phys.old) page }
    ensures changes { Ticks b page (hold_by T.lens boards.old phys.old) history.old
        (hold_by T.lens boards.new phys.new) history.new }
    ensures lens { OnlyLines T.lens boards.old boards.new }
{
    fetch(boards, phys, history, b, page);
    let entry = entry_here(boards[b as usize].cache(), page);
    let change = clock_change(entry);
    boards[b as usize].set_line_word(pte_of(page), changed(entry, change).word());
    history.append(entry_for(b, page, change));
    change
}

/// What the clock does with the entry that it looks at.
fn clock_change(entry: Pte) -> Change
    ensures change { result ≡ clock_change entry }
    ensures small { is_small result }
{
    if entry.referenced() {
        Change::Unreferenced
    } else {
        Change::Leaving
    }
}

/// The entry of a page, whose block the cache has.
pub(crate) fn entry_here(own: &Cache, page: GlobalAddr) -> Pte
    requires there { IsSome (found own.now (entry_address_of page)) }
    requires readable { IsTrue (is_readable (word_in (found own.now (entry_address_of page)) (entry_address_of page))) }
    ensures { result ≡ word_in (found own.now (entry_address_of page)) (entry_address_of page) }
{
    let at = pte_of(page);
    let Some(line) = own.find(at) else {
        unreachable!();
    };
    match Pte::read(line.words[at.word_in_block() as usize]) {
        Ok(entry) => entry,
        Err(_) => unreachable!(),
    }
}

/// Brings the block of the entry of a page into the cache of board `b`, which then has it alone. What is done for it is
/// appended: at most four entries.
fn fetch<T: HasCache>(
    boards: &mut [T],
    phys: &mut Phys,
    history: &mut History,
    b: u32,
    page: GlobalAddr,
)
    requires own { b < length boards.old }
    requires user { page < table_start }
    requires walk { MayWalk (caches T.lens boards.old) phys.old }
    requires root { is_valid (root_at (logical_flat (caches T.lens boards.old) phys.old) page) ≡ true }
    requires room { page_steps_left (get_or (caches T.lens boards.old) b []) page ≤ history.old.room }
    ensures fetches { Fetches b page (hold_by T.lens boards.old phys.old) history.old
        (hold_by T.lens boards.new phys.new) history.new }
    ensures lens { OnlyLines T.lens boards.old boards.new }
{
    while let Walked::Moved(entry) = advance_entry(boards, phys, b, page) {
        history.append(entry);
    }
}
