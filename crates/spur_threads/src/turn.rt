//! A board's turns on its thread: on its own place, and on the bus.

ghost use Rattle.std.specs.Prelude.{◌≡◌, ◌<◌, OnOk, length};
ghost use Rattle.spur_core.specs.Divided.{AreGoodParts};
ghost use Rattle.spur_core.specs.Turn.{GoesOnOrEnds};
ghost use Rattle.spur_threads.specs.Seats.{IsAgain, MayTurn};
ghost use Rattle.spur_threads.specs.Turns.{OthersRest};

use crate::gate::Gate;
use crate::progress::{Progress, progress_of};
use crate::sharing::Sharing;
use spur_board::Turn;
use spur_core::World;
use spur_cpu::Cpu;
use spur_swap::Backing;
use spur_turns::{All, BoardSeat, Own, Turns};
use std::alloc::AllocError;
use std::sync::Wait;
use std::thread::yield_now;

/// How many instructions a board takes alone in one turn, at most.
pub(crate) const ALONE: u32 = 256;

/// One try of a seat for its board's place, and what the board does alone there. `None` where the bus has the place.
///
/// It waits for nobody and takes no memory: no other place and no bus is taken for it.
fn try_alone<C: Cpu, B: Backing, G: Gate>(
    turns: &Turns<Sharing<C, B>>,
    seat: &mut BoardSeat<Sharing<C, B>>,
    gate: &G,
    progress: &mut Progress,
) -> Option<Turn>
    requires may { MayTurn turns.now seat.old }
    ensures again { IsAgain seat.old seat.new }
{
    match turns.take_own(seat) {
        Own::Got(mut board) => {
            gate.inside(board.number, progress.retired, &board.cache);
            let turn = board.own_turn(ALONE);
            *progress = progress_of(&board);
            turns.give_own(seat, board);
            Some(turn)
        }
        Own::Busy => None,
    }
}

/// What a board does alone on its place, which its seat tries for until it gets it. After each try that met the bus it
/// yields the processor.
fn go_alone<C: Cpu, B: Backing, G: Gate, R: Wait>(
    rt: &R,
    turns: &Turns<Sharing<C, B>>,
    seat: &mut BoardSeat<Sharing<C, B>>,
    gate: &G,
    progress: &mut Progress,
) -> Turn
    requires may { MayTurn turns.now seat.old }
    ensures again { IsAgain seat.old seat.new }
{
    for _ in rt.forever() {
        match try_alone(turns, seat, gate, progress) {
            Some(turn) => return turn,
            None => yield_now(),
        }
    }
    unreachable!()
}

/// A board's turn on the bus, from what its seat took to what it gives back. A refused one gives back what was taken.
///
/// Of no other board the processor, the count of instructions or the ending changes. Where the board wanted an access it
/// has completed one instruction more, or has ended.
fn bus_part<C: Cpu, B: Backing>(
    all: All<Sharing<C, B>>,
    b: u32,
) -> (All<Sharing<C, B>>, Result<(), AllocError>)
    requires good { AreGoodParts C.meaning C.state C.room B.meaning all.bus all.places.items }
    requires board { b < length all.places.items }
    ensures good { AreGoodParts C.meaning C.state C.room B.meaning result.0.bus result.0.places.items }
    ensures beginning { result.0.bus.beginning ≡ all.bus.beginning }
    ensures count { length result.0.places.items ≡ length all.places.items }
    ensures others { OthersRest b all.places.items result.0.places.items }
    ensures moved { OnOk result.1 (GoesOnOrEnds C.meaning C.state b all.places.items result.0.places.items) }
{
    let All { bus, places } = all;
    let mut world = World::whole(bus, places);
    let turn = world.bus_turn(b);
    let (bus, places) = world.part();
    (All { bus, places }, turn)
}

/// A board's turn on the bus, for which its seat takes the bus and every place. It may wait. All is given back in every
/// case.
fn go_on_bus<C: Cpu, B: Backing, R: Wait>(
    rt: &R,
    turns: &Turns<Sharing<C, B>>,
    seat: &mut BoardSeat<Sharing<C, B>>,
    progress: &mut Progress,
) -> Result<(), AllocError>
    requires may { MayTurn turns.now seat.old }
    ensures again { IsAgain seat.old seat.new }
{
    let b = seat.number();
    let taken = turns.take_all(rt, seat);
    let (all, turn) = bus_part(taken, b);
    *progress = progress_of(&all.places[b as usize]);
    turns.give_all(seat, all);
    turn
}

/// A turn of a seat's board: it goes on alone on its own place, and where it needs the bus for its next instruction it
/// takes a turn on the bus.
///
/// `AllocError` comes only for want of memory in the turn on the bus. The rule is this project's own.
pub(crate) fn take_turn<C: Cpu, B: Backing, G: Gate, R: Wait>(
    rt: &R,
    turns: &Turns<Sharing<C, B>>,
    seat: &mut BoardSeat<Sharing<C, B>>,
    gate: &G,
    progress: &mut Progress,
) -> Result<(), AllocError>
    requires may { MayTurn turns.now seat.old }
    ensures again { IsAgain seat.old seat.new }
{
    gate.outside(seat.number(), progress.retired);
    match go_alone(rt, turns, seat, gate, progress) {
        Turn::NeedsBus(_) => go_on_bus(rt, turns, seat, progress),
        Turn::Again | Turn::Ended => Ok(()),
    }
}
