//! Boards that have not ended are run to their ends, one after another, on the whole world.

ghost use Rattle.std.specs.Prelude.{◌≡◌, ◌<◌, ◌≤◌, ◌^◌, IfNone, IfSome, IsSome, OnOk, length};
ghost use Rattle.std.specs.List.{All};
ghost use Rattle.spur_core.specs.World.{IsGoodWorld};
ghost use Rattle.spur_threads.specs.Turns.{HasEndedAt, HasGoneAlone, IsGoingAt, MovesOn, OthersRest};

use crate::gate::Gate;
use crate::turn::ALONE;
use spur_board::{Board, Turn};
use spur_core::World;
use spur_cpu::Cpu;
use spur_swap::Backing;
use std::alloc::AllocError;

/// A number, so that the check knows it to be one of 32 bits.
fn word(n: u32) -> u32
    ensures value { result ≡ n }
    ensures few { result < 2 ^ 32 }
{
    n
}

/// How many instructions board `b` has completed, where it has not ended.
fn completed<C>(boards: &[Board<C>], b: u32) -> Option<u32>
    requires { b < length boards.now }
    ensures some { IfSome result (IsGoingAt boards.now b) }
    ensures few { IfSome result (λ completed. completed < 2 ^ 32) }
    ensures none { IfNone result (HasEndedAt boards.now b) }
{
    let board = &boards[b as usize];
    if board.ended.is_some() {
        return None;
    }
    Some(word(board.retired))
}

/// What board `b` does alone in one turn.
fn go_alone<C: Cpu, B: Backing>(world: &mut World<C, B>, b: u32) -> Turn
    requires good { IsGoodWorld C.meaning C.state C.room B.meaning world.old }
    requires board { b < length world.old.boards.items }
    ensures good { IsGoodWorld C.meaning C.state C.room B.meaning world.new }
    ensures beginning { world.new.beginning ≡ world.old.beginning }
    ensures count { length world.new.boards.items ≡ length world.old.boards.items }
    ensures alone { HasGoneAlone C.meaning C.state b world.old.boards.items result world.new.boards.items }
{
    world.own(b, ALONE)
}

/// A turn of board `b`, as on its thread: it goes on alone, and where it needs the bus it takes a turn on the bus.
///
/// A board that had not ended has completed at least one instruction more, or has ended. Of no other board the
/// processor, the count or the ending changes.
fn whole_turn<C: Cpu, B: Backing>(world: &mut World<C, B>, b: u32) -> Result<(), AllocError>
    requires good { IsGoodWorld C.meaning C.state C.room B.meaning world.old }
    requires board { b < length world.old.boards.items }
    ensures good { IsGoodWorld C.meaning C.state C.room B.meaning world.new }
    ensures beginning { world.new.beginning ≡ world.old.beginning }
    ensures count { length world.new.boards.items ≡ length world.old.boards.items }
    ensures others { OthersRest b world.old.boards.items world.new.boards.items }
    ensures moved { OnOk result (MovesOn b world.old.boards.items world.new.boards.items) }
{
    match go_alone(world, b) {
        Turn::NeedsBus(_) => world.bus_turn(b),
        Turn::Again | Turn::Ended => Ok(()),
    }
}

/// Runs board `b` to its end by turns of its own.
fn end_board<C: Cpu, B: Backing, G: Gate>(
    world: &mut World<C, B>,
    gate: &G,
    b: u32,
) -> Result<(), AllocError>
    requires good { IsGoodWorld C.meaning C.state C.room B.meaning world.old }
    requires board { b < length world.old.boards.items }
    ensures good { IsGoodWorld C.meaning C.state C.room B.meaning world.new }
    ensures beginning { world.new.beginning ≡ world.old.beginning }
    ensures count { length world.new.boards.items ≡ length world.old.boards.items }
    ensures others { OthersRest b world.old.boards.items world.new.boards.items }
    ensures ended { OnOk result (HasEndedAt world.new.boards.items b) }
{
    loop {
        match completed(&world.boards, b) {
            None => return Ok(()),
            Some(retired) => {
                gate.outside(b, retired);
                gate.inside(b, retired, &world.boards[b as usize].cache);
                whole_turn(world, b)?;
            }
        }
    }
}

/// Runs each board that has not ended to its end, in the order of their numbers.
///
/// `AllocError` comes only for want of memory. The world is good then, with its beginning.
pub(crate) fn end_boards<C: Cpu, B: Backing, G: Gate>(
    world: &mut World<C, B>,
    gate: &G,
) -> Result<(), AllocError>
    requires good { IsGoodWorld C.meaning C.state C.room B.meaning world.old }
    ensures good { IsGoodWorld C.meaning C.state C.room B.meaning world.new }
    ensures beginning { world.new.beginning ≡ world.old.beginning }
    ensures count { length world.new.boards.items ≡ length world.old.boards.items }
    ensures ended { OnOk result (All (λ board. IsSome board.ended) world.new.boards.items) }
{
    let count = world.boards.len() as u32;
    for b in 0..count {
        end_board(world, gate, b)?;
    }
    Ok(())
}
