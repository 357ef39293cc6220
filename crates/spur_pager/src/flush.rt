//! The lines of a leaving page are flushed.

ghost use Rattle.std.specs.Prelude.{◌≡◌, ◌+◌, ◌<◌, ◌≤◌, IsSome, Some, length};
ghost use Rattle.spur_cache.specs.Lens.{OnlyLines, caches};
ghost use Rattle.std.specs.Option.{option_map};
ghost use Rattle.spur_cache.specs.Lines.{line_at};
ghost use Rattle.spur_snoop.specs.Protocol.{is_alive};
ghost use Rattle.spur_bus.specs.Calls.{HasLine};
ghost use Rattle.spur_walk.specs.Tables.{block_address};
ghost use Rattle.spur_pager.specs.Drops.{DropsBlock, FlushesPage, IsLeavingBlock, IsLeavingPage};
ghost use Rattle.spur_pager.specs.Flushes.{AreFlushed, FlushesAtMost, FlushesSome};
ghost use Rattle.spur_pager.specs.Room.{page_line_count};
ghost use Rattle.spur_pager.specs.Stand.{IsServable};
ghost use Rattle.spur_pager.specs.View.{seen};

use crate::page::page_address;
use crate::store::Store;
use spur_addr::GlobalAddr;
use spur_bus::block_flush;
use spur_cache::{Cache, HasCache};
use spur_swap::Backing;

/// Flushes all lines of a leaving page for board `b`, boards ascending and lines ascending, and appends the flushes. Where
/// a block is owned, it is written to memory.
pub(crate) fn flush_page<T: HasCache, B: Backing>(
    boards: &mut [T],
    store: &mut Store<B>,
    b: u32,
    page: u32,
)
    requires own { b < length boards.old }
    requires stands { IsServable (seen B.meaning T.lens boards.old store.old) }
    requires leaving { IsLeavingPage (seen B.meaning T.lens boards.old store.old) page }
    requires room { page_line_count (caches T.lens boards.old) page ≤ store.old.history.room }
    ensures flushes { FlushesPage b page (seen B.meaning T.lens boards.old store.old)
        (seen B.meaning T.lens boards.new store.new) }
    ensures frames { store.new.frames ≡ store.old.frames }
    ensures backing { store.new.backing ≡ store.old.backing }
    ensures lens { OnlyLines T.lens boards.old boards.new }
{
    flush_first(boards, store, b, page, u32::MAX);
}

/// Flushes the first lines of a leaving page for board `b`, at most `most`, boards ascending and lines ascending, and
/// appends the flushes. Answers whether none is left. Looks at no board behind the first one that has a line left.
pub(crate) fn flush_first<T: HasCache, B: Backing>(
    boards: &mut [T],
    store: &mut Store<B>,
    b: u32,
    page: u32,
    most: u32,
) -> bool
    requires own { b < length boards.old }
    requires stands { IsServable (seen B.meaning T.lens boards.old store.old) }
    requires leaving { IsLeavingPage (seen B.meaning T.lens boards.old store.old) page }
    requires room { page_line_count (caches T.lens boards.old) page ≤ store.old.history.room }
    ensures flushes { FlushesAtMost b page most (seen B.meaning T.lens boards.old store.old)
        (seen B.meaning T.lens boards.new store.new) result }
    ensures frames { store.new.frames ≡ store.old.frames }
    ensures backing { store.new.backing ≡ store.old.backing }
    ensures lens { OnlyLines T.lens boards.old boards.new }
{
    let mut left = most;
    for holder in 0..boards.len() as u32 {
        match flush_some(boards, store, b, holder, page, left) {
            Some(spare) => left = spare,
            None => return false,
        }
    }
    true
}

/// Flushes the lines of a leaving page in the cache of board `holder`, ascending, but at most `most`; no board before it
/// has any. Answers how many more might have been flushed, and nothing where a line is left.
fn flush_some<T: HasCache, B: Backing>(
    boards: &mut [T],
    store: &mut Store<B>,
    b: u32,
    holder: u32,
    page: u32,
    most: u32,
) -> Option<u32>
    requires own { b < length boards.old }
    requires holder { holder < length boards.old }
    requires stands { IsServable (seen B.meaning T.lens boards.old store.old) }
    requires leaving { IsLeavingPage (seen B.meaning T.lens boards.old store.old) page }
    requires room { page_line_count (caches T.lens boards.old) page ≤ store.old.history.room }
    requires before { AreFlushed (caches T.lens boards.old) holder page }
    ensures flushes { FlushesSome b page most (holder + 1) (seen B.meaning T.lens boards.old store.old)
        (seen B.meaning T.lens boards.new store.new) result }
    ensures frames { store.new.frames ≡ store.old.frames }
    ensures backing { store.new.backing ≡ store.old.backing }
    ensures lens { OnlyLines T.lens boards.old boards.new }
{
    let numbers = boards[holder as usize]
        .cache()
        .lines_of_page(page_address(page));
    let mut left = most;
    for number in numbers {
        if left == 0 {
            return None;
        }
        let at = block_at(boards[holder as usize].cache(), number);
        flush_block(boards, store, b, holder, at);
        left -= 1;
    }
    Some(left)
}

/// The first byte of the block that the line at a place holds, where one stands.
pub fn block_at(cache: &Cache, number: u16) -> GlobalAddr
    requires { IsSome (line_at cache.now number) }
    ensures { option_map (λ line. block_address line.tag) (line_at cache.now number) ≡ Some result }
{
    // so that the check knows the lines to be those of a cache
    let _ = cache.lines();
    let Some(line) = cache.line(number) else {
        unreachable!();
    };
    match GlobalAddr::of(line.tag << 5) {
        Some(at) => at,
        None => unreachable!(),
    }
}

/// Drops a block of a leaving page, which the cache of board `holder` has, and appends the flush.
pub(crate) fn flush_block<T: HasCache, B: Backing>(
    boards: &mut [T],
    store: &mut Store<B>,
    b: u32,
    holder: u32,
    at: GlobalAddr,
)
    requires own { b < length boards.old }
    requires holder { holder < length boards.old }
    requires stands { IsServable (seen B.meaning T.lens boards.old store.old) }
    requires there { HasLine (caches T.lens boards.old) holder at is_alive }
    requires leaving { IsLeavingBlock (seen B.meaning T.lens boards.old store.old) at }
    requires room { 1 ≤ store.old.history.room }
    ensures drops { DropsBlock b holder at (seen B.meaning T.lens boards.old store.old)
        (seen B.meaning T.lens boards.new store.new) }
    ensures frames { store.new.frames ≡ store.old.frames }
    ensures backing { store.new.backing ≡ store.old.backing }
    ensures lens { OnlyLines T.lens boards.old boards.new }
{
    let entry = block_flush(boards, &mut store.phys, b, holder, at);
    store.history.append(entry);
}
