//! The end of a run: all lines are flushed.

ghost use Rattle.std.specs.Prelude.{◌≡◌, ◌+◌, ◌<◌, length, map};
ghost use Rattle.spur_cache.specs.Lens.{OnlyLines, caches};
ghost use Rattle.spur_bus.specs.Agrees.{Agrees, AgreesWithMemory};
ghost use Rattle.spur_bus.specs.Calls.{line_count};
ghost use Rattle.spur_bus.specs.Logical.{logical_of};
ghost use Rattle.spur_core.specs.Boards.{LogsAreEmpty, board_lens};
ghost use Rattle.spur_core.specs.Finish.{AreEmptyTo, StillAgree, empty_lines};
ghost use Rattle.spur_core.specs.World.{IsGoodWorld};

use crate::world::World;
use spur_bus::block_flush;
use spur_cache::HasCache;
use spur_cpu::Cpu;
use spur_pager::block_at;
use spur_phys::Phys;
use spur_swap::Backing;

impl<C: Cpu, B: Backing> World<C, B> {
    /// Writes all blocks that a cache owns to memory, and makes all lines invalid: memory is then what caches and memory held
    /// together. All logs are to be empty.
    ///
    /// Nothing is appended to the history, and nothing of the swap, the frame table or of any board but its lines changes.
    /// It takes no memory. The cost is that of the caches' lines. Afterwards the world need not be good any more.
    pub fn finish(&mut self)
        requires good { IsGoodWorld C.meaning C.state C.room B.meaning self.old }
        requires quiet { LogsAreEmpty self.old.boards.items }
        ensures memory { self.new.store.phys ≡ logical_of board_lens self.old.boards.items self.old.store.phys }
        ensures empty { caches board_lens self.new.boards.items ≡ map empty_lines (caches board_lens self.old.boards.items) }
        ensures store { self.new.store ≡ record self.old.store { phys = self.new.store.phys } }
        ensures boards { OnlyLines board_lens self.old.boards.items self.new.boards.items }
        ensures beginning { self.new.beginning ≡ self.old.beginning }
    {
        flush_all(&mut self.boards, &mut self.store.phys);
    }
}

/// Writes all blocks that a cache owns to memory, and makes all lines invalid. Memory is then what caches and memory held
/// together, and nothing of any board but its lines changes.
fn flush_all<T: HasCache>(boards: &mut [T], phys: &mut Phys)
    requires agree { Agrees (caches T.lens boards.old) }
    requires serves { AgreesWithMemory (caches T.lens boards.old) phys.old }
    ensures memory { phys.new ≡ logical_of T.lens boards.old phys.old }
    ensures empty { caches T.lens boards.new ≡ map empty_lines (caches T.lens boards.old) }
    ensures lens { OnlyLines T.lens boards.old boards.new }
{
    for holder in 0..boards.len() as u32 {
        flush_cache(boards, phys, holder);
    }
}

/// Flushes all lines of board `holder`; no board before it has any.
fn flush_cache<T: HasCache>(boards: &mut [T], phys: &mut Phys, holder: u32)
    requires holder { holder < length boards.old }
    requires agree { Agrees (caches T.lens boards.old) }
    requires serves { AgreesWithMemory (caches T.lens boards.old) phys.old }
    requires before { AreEmptyTo (caches T.lens boards.old) holder 0 }
    ensures agree { StillAgree (caches T.lens boards.old) phys.old (caches T.lens boards.new) phys.new }
    ensures empty { AreEmptyTo (caches T.lens boards.new) (holder + 1) 0 }
    ensures lens { OnlyLines T.lens boards.old boards.new }
{
    let count = boards[holder as usize].cache().lines() as u16;
    for number in 0..count {
        flush_line(boards, phys, holder, number);
    }
}

/// Flushes the line that stands at a place of board `holder`, where one does; no place before it has any.
fn flush_line<T: HasCache>(boards: &mut [T], phys: &mut Phys, holder: u32, number: u16)
    requires holder { holder < length boards.old }
    requires number { number < line_count (caches T.lens boards.old) }
    requires agree { Agrees (caches T.lens boards.old) }
    requires serves { AgreesWithMemory (caches T.lens boards.old) phys.old }
    requires before { AreEmptyTo (caches T.lens boards.old) holder number }
    ensures agree { StillAgree (caches T.lens boards.old) phys.old (caches T.lens boards.new) phys.new }
    ensures empty { AreEmptyTo (caches T.lens boards.new) holder (number + 1) }
    ensures lens { OnlyLines T.lens boards.old boards.new }
{
    let cache = boards[holder as usize].cache();
    if cache.line(number).is_none() {
        return;
    }
    let at = block_at(cache, number);
    block_flush(boards, phys, holder, holder, at);
}
