//! The entry of a page, read without the bus.

ghost use Rattle.std.specs.Prelude.{◌≡◌, ◌<◌, length, slice_index, true};
ghost use Rattle.spur_cache.specs.Lens.{caches};
ghost use Rattle.spur_addr.specs.Address.{root_index_of, table_start};
ghost use Rattle.spur_addr.specs.PageEntry.{is_valid};
ghost use Rattle.spur_flat.specs.Pager.{word_of};
ghost use Rattle.spur_walk.specs.Present.{ArePresent, MayWalk};
ghost use Rattle.spur_walk.specs.Tables.{logical_flat, root_at};
ghost use Rattle.spur_pager.specs.Standing.{first_cached_word, entry_place_in};

use spur_addr::{GlobalAddr, Pte, pte_of, root_place};
use spur_cache::HasCache;
use spur_phys::Phys;

/// The entry of a page as it stands: in a cache that has its block, or else in memory. Nothing is fetched for it. The page
/// is given by its first byte, and its root entry is valid.
pub(crate) fn standing_entry<T: HasCache>(boards: &[T], phys: &Phys, page: GlobalAddr) -> Pte
    requires user { page < table_start }
    requires walk { MayWalk (caches T.lens boards.now) phys.now }
    requires present { ArePresent (logical_flat (caches T.lens boards.now) phys.now) (caches T.lens boards.now) }
    requires root { is_valid (root_at (logical_flat (caches T.lens boards.now) phys.now) page) ≡ true }
    ensures { result ≡ word_of (logical_flat (caches T.lens boards.now) phys.now) page }
{
    match Pte::read(standing_word(boards, phys, page)) {
        Ok(entry) => entry,
        Err(_) => unreachable!(),
    }
}

/// The word of that entry.
fn standing_word<T: HasCache>(boards: &[T], phys: &Phys, page: GlobalAddr) -> u32
    requires user { page < table_start }
    requires walk { MayWalk (caches T.lens boards.now) phys.now }
    requires present { ArePresent (logical_flat (caches T.lens boards.now) phys.now) (caches T.lens boards.now) }
    requires root { is_valid (root_at (logical_flat (caches T.lens boards.now) phys.now) page) ≡ true }
    ensures { result ≡ word_of (logical_flat (caches T.lens boards.now) phys.now) page }
{
    match cached_word(boards, pte_of(page)) {
        Some(word) => word,
        None => memory_word(phys, page),
    }
}

/// The word at `at` in the first cache that has its block.
fn cached_word<T: HasCache>(boards: &[T], at: GlobalAddr) -> Option<u32>
    ensures { result ≡ first_cached_word (caches T.lens boards.now) at }
{
    for board in boards {
        if let Some(line) = board.cache().find(at) {
            return Some(line.words[at.word_in_block() as usize]);
        }
    }
    None
}

/// The word of a page's entry in memory, where the tables have it.
fn memory_word(phys: &Phys, page: GlobalAddr) -> u32
    requires root { root_index_of page < length phys.now }
    requires place { entry_place_in phys.now page < length phys.now }
    ensures { result ≡ slice_index phys.now (entry_place_in phys.now page) }
{
    let root = phys.word(root_place(page) / 4);
    phys.word((root >> 12) * 1024 + page.page() % 1024)
}
