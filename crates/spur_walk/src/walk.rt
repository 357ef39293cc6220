//! The steps of a walk.

ghost use Rattle.std.specs.Prelude.{◌≡◌, ◌<◌, length, true};
ghost use Rattle.spur_addr.specs.Address.{entry_address_of, table_start};
ghost use Rattle.spur_addr.specs.PageEntry.{is_valid};
ghost use Rattle.spur_cache.specs.Lens.{OnlyLines, caches};
ghost use Rattle.spur_walk.specs.Plan.{access_plan, page_plan};
ghost use Rattle.spur_walk.specs.Present.{MayWalk};
ghost use Rattle.spur_walk.specs.Steps.{HasNoEntry, StepsTowards, StepsTowardsEntry, answer_of};
ghost use Rattle.spur_walk.specs.Tables.{logical_flat, root_at};

use crate::plan::{access_step, page_step};
use crate::step::{Walked, perform};
use spur_addr::{GlobalAddr, pte_of};
use spur_cache::HasCache;
use spur_phys::Phys;
use spur_snoop::Need;

/// Does the first step that applies towards an access of board `b` to the word at `at`, which is below
/// segment 255.
///
/// The tables are those of the logical memory: where a cache owns the block of an entry, its word
/// counts and the memory's does not. Each step looks, in the board's own cache, at no more than the
/// three blocks that serve the access and what stands on their lines, and through the bus at one line
/// of each other board. Without a fault that is served, an access is ready or has a fault after at most
/// six steps.
pub fn advance<T: HasCache>(
    boards: &mut [T],
    phys: &mut Phys,
    b: u32,
    at: GlobalAddr,
    need: Need,
) -> Walked
    requires own { b < length boards.old }
    requires user { at < table_start }
    requires walk { MayWalk (caches T.lens boards.old) phys.old }
    ensures answer { result ≡ answer_of b at (access_plan (caches T.lens boards.old) phys.old b at need) }
    ensures lens { OnlyLines T.lens boards.old boards.new }
    ensures boards_stay { HasNoEntry result → boards.new ≡ boards.old }
    ensures memory_stays { HasNoEntry result → phys.new ≡ phys.old }
    ensures steps { StepsTowards (caches T.lens boards.old) phys.old b at need (caches T.lens boards.new) phys.new }
    ensures count { length boards.new ≡ length boards.old }
{
    let plan = access_step(boards[b as usize].cache(), at, need);
    perform(boards, phys, b, at, plan)
}

/// Does the first step that applies towards the block of the entry of the page of `page`, so that
/// board `b` can write the entry in its cache. The page is below segment 255, and its root entry is
/// valid.
///
/// The answer is never a fault, and it is Ready after at most four steps.
pub fn advance_entry<T: HasCache>(
    boards: &mut [T],
    phys: &mut Phys,
    b: u32,
    page: GlobalAddr,
) -> Walked
    requires own { b < length boards.old }
    requires user { page < table_start }
    requires walk { MayWalk (caches T.lens boards.old) phys.old }
    requires root { is_valid (root_at (logical_flat (caches T.lens boards.old) phys.old) page) ≡ true }
    ensures answer { result
        ≡ answer_of b (entry_address_of page) (page_plan (caches T.lens boards.old) phys.old b page) }
    ensures lens { OnlyLines T.lens boards.old boards.new }
    ensures boards_stay { HasNoEntry result → boards.new ≡ boards.old }
    ensures memory_stays { HasNoEntry result → phys.new ≡ phys.old }
    ensures steps { StepsTowardsEntry (caches T.lens boards.old) phys.old b page (caches T.lens boards.new) phys.new }
    ensures count { length boards.new ≡ length boards.old }
    ensures root { is_valid (root_at (logical_flat (caches T.lens boards.new) phys.new) page) ≡ true }
{
    let plan = page_step(boards[b as usize].cache(), page);
    perform(boards, phys, b, pte_of(page), plan)
}
