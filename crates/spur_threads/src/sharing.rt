//! By which pact the boards of a world share it.

use spur_board::Board;
use spur_core::{Beginning, Bus};
use spur_cpu::Cpu;
use spur_swap::Backing;
use spur_turns::Pact;
use std::marker::PhantomData;

/// The pact of a world: the bus is what the boards share, and each board is a place.
///
/// Bus and boards fit together where the world of them is good. A board may go on alone as far as its own cache and log
/// suffice. The bus keeps the world's beginning for ever.
pub struct Sharing<C, B> {
    of: PhantomData<(C, B)>,
}

impl<C: Cpu, B: Backing> Pact for Sharing<C, B> {
    ghost use Rattle.spur_board.specs.Own.{IsOwnStep};
    ghost use Rattle.spur_core.specs.Divided.{AreGoodParts};
    ghost use Rattle.spur_threads.specs.Sharing.{boards-rest, own-steps-keep};

    type Bus = Bus<C, B>;

    type Place = Board<C>;

    type Name = Beginning<C, B>;

    ghost good = { AreGoodParts C.meaning C.state C.room B.meaning };

    ghost own_step = { IsOwnStep C.meaning C.state C.room };

    ghost name = { λ bus. bus.beginning };

    ghost rests = { boards-rest C.meaning C.state C.room B.meaning };

    ghost keeps = { own-steps-keep C.meaning C.state C.room B.meaning };
}
