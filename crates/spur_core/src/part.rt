//! A world is parted into its boards and what they share, and is made whole again.

ghost use Rattle.std.specs.Prelude.{◌≡◌};
ghost use Rattle.spur_core.specs.Divided.{AreGoodParts, bus_of, world_of};
ghost use Rattle.spur_core.specs.World.{IsGoodWorld};

use crate::world::{Beginning, World};
use spur_board::Board;
use spur_cpu::Cpu;
use spur_pager::Store;
use spur_swap::Backing;

/// What the boards of a world share, with the world's beginning: a world without its boards.
#[derive(Drop)]
pub struct Bus<C, B> {
    /// What the boards share.
    pub store: Store<B>,
    /// The world's beginning, which contracts alone see.
    pub beginning: Beginning<C, B>,
}

impl<C: Cpu, B: Backing> World<C, B> {
    /// The parts of the world: what the boards share, and the boards, each at the place of its number. Nothing in them is
    /// changed, logs among it, and they are good parts. It takes no memory and moves no entry.
    pub fn part(self) -> (Bus<C, B>, Vec<Board<C>>)
        requires good { IsGoodWorld C.meaning C.state C.room B.meaning self }
        ensures bus { result.0 ≡ bus_of self }
        ensures boards { result.1 ≡ self.boards }
        ensures good { AreGoodParts C.meaning C.state C.room B.meaning result.0 result.1.items }
    {
        let World {
            store,
            boards,
            beginning,
        } = self;
        (Bus { store, beginning }, boards)
    }

    /// The world of its parts, which have to be good ones: then so is the world. Nothing in them is changed. It takes no
    /// memory and moves no entry.
    pub fn whole(bus: Bus<C, B>, boards: Vec<Board<C>>) -> World<C, B>
        requires good { AreGoodParts C.meaning C.state C.room B.meaning bus boards.items }
        ensures whole { result ≡ world_of bus boards }
        ensures good { IsGoodWorld C.meaning C.state C.room B.meaning result }
    {
        let Bus { store, beginning } = bus;
        World {
            store,
            boards,
            beginning,
        }
    }
}
