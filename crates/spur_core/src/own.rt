//! An own turn of a board: what it does alone, with its own cache and log.

ghost use Rattle.std.specs.Prelude.{◌≡◌, ◌<◌, ◌≤◌, length};
ghost use Rattle.spur_core.specs.Boards.{LogsAreEmpty, whole};
ghost use Rattle.spur_core.specs.Own.{HasTurnedAt, IsUnended, WantsBus};
ghost use Rattle.spur_core.specs.Step.{HasTakenInstruction, IsStepped};
ghost use Rattle.spur_core.specs.World.{IsGoodWorld};

use crate::world::World;
use spur_board::Turn;
use spur_cpu::Cpu;
use spur_swap::Backing;

impl<C: Cpu, B: Backing> World<C, B> {
    /// An own turn of board `b`: it goes on alone for at most so many instructions, with its own cache and log, until it
    /// needs the bus, has ended, or has completed them. Nothing else is changed, neither what the boards share nor any
    /// other board, and nothing is asked of the other boards' logs. It takes no memory.
    ///
    /// A turn of at most one instruction leaves the world as it was where the board needs the bus. Where it does not, and
    /// it had not ended, the board takes one whole instruction: a local one, with no entry; or an access that hits, or a
    /// fault of its own cache, with its one entry at the end of the board's log. Where all logs were empty, that entry is
    /// the last of the history with the logs; else those of the boards behind it stand behind it.
    pub fn own(&mut self, b: u32, at_most: u32) -> Turn
        requires good { IsGoodWorld C.meaning C.state C.room B.meaning self.old }
        requires board { b < length self.old.boards.items }
        ensures good { IsGoodWorld C.meaning C.state C.room B.meaning self.new }
        ensures beginning { self.new.beginning ≡ self.old.beginning }
        ensures store { self.new.store ≡ self.old.store }
        ensures own { HasTurnedAt C.meaning C.state C.room b at_most self.old.boards.items result self.new.boards.items }

        // a turn of at most one instruction
        ensures still { at_most ≤ 1 → WantsBus result → self.new ≡ self.old }
        ensures stepped { at_most ≡ 1 → (WantsBus result → ⊥) → IsUnended self.old.boards.items b
            → LogsAreEmpty self.old.boards.items
            → IsStepped C.meaning C.state b (whole self.old.store self.old.boards.items)
            (whole self.new.store self.new.boards.items) self.old.boards.items self.new.boards.items }
        ensures instruction { at_most ≡ 1 → (WantsBus result → ⊥) → IsUnended self.old.boards.items b
            → HasTakenInstruction C.meaning C.state b (whole self.old.store self.old.boards.items)
            (whole self.new.store self.new.boards.items) self.old.boards.items self.new.boards.items }
    {
        self.boards[b as usize].own_turn(at_most)
    }
}
