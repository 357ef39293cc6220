//! A run of the boards on threads.

ghost use Rattle.std.specs.Prelude.{◌≡◌, ℕ, ◌<◌, IfErr, IfOk, IsSome, MatchResult, length, slice_index_or};
ghost use Rattle.std.specs.List.{All as AllOf};
ghost use Rattle.spur_core.specs.Boards.{LogsAreEmpty};
ghost use Rattle.spur_core.specs.Divided.{AreGoodParts};
ghost use Rattle.spur_core.specs.World.{IsGoodWorld};
ghost use Rattle.spur_threads.specs.Seats.{IsAgain, MayTurn};
ghost use Rattle.spur_turns.specs.Seats.{AreAllIdle, AreNamed};

use crate::ends::end_boards;
use crate::gate::Gate;
use crate::progress::{FirstProgress, MOST_BOARDS};
use crate::sharing::Sharing;
use crate::turn::take_turn;
use crossbeam_utils::CachePadded;
use spur_core::World;
use spur_cpu::Cpu;
use spur_swap::Backing;
use spur_turns::{BoardSeat, NewRefused, Turns};
use std::alloc::{AllocError, Global};
use std::sync::Wait;
use std::sync::atomic::{AtomicBool, Ordering};
use std::thread;
use std::thread::Threads;

/// There was no memory. The world comes back as it then stood.
#[derive(Drop)]
pub struct RunRefused<C, B> {
    pub world: World<C, B>,
}

/// The table of a world's bus and boards, with a seat for each board.
type Seated<C, B> = (Turns<Sharing<C, B>>, Vec<BoardSeat<Sharing<C, B>>>);

/// A table in which the world's boards are places, and a seat for each board. Want of memory hands the world back as it
/// was given.
fn turns_of<C: Cpu, B: Backing>(
    alloc: Global,
    world: World<C, B>,
) -> Result<Seated<C, B>, RunRefused<C, B>>
    requires good { IsGoodWorld C.meaning C.state C.room B.meaning world }
    ensures places { IfOk result (λ made. made.0.places ≡ length world.boards.items) }
    ensures idle { IfOk result (λ made. AreAllIdle made.0 made.1.items) }
    ensures some_places { IfOk result (λ made. 0 < made.0.places) }
    ensures named { IfOk result (λ made. AreNamed world.beginning made.1.items) }
    ensures as_given { IfErr result (λ refused. refused.world ≡ world) }
{
    let (bus, boards) = world.part();
    match Turns::<Sharing<C, B>>::new(alloc, bus, boards) {
        Ok(made) => Ok(made),
        Err(NewRefused { bus, places }) => Err(RunRefused {
            world: World::whole(bus, places),
        }),
    }
}

/// A board's thread: it takes turns until the board has ended, or memory was wanting to some board.
fn run_seat<C: Cpu, B: Backing, G: Gate, R: Wait>(
    rt: &R,
    turns: &Turns<Sharing<C, B>>,
    refused: &AtomicBool,
    gate: &G,
    first: &FirstProgress,
    seat: &mut BoardSeat<Sharing<C, B>>,
)
    requires may { MayTurn turns.now seat.old }
    ensures { IsAgain seat.old seat.new }
{
    let mut progress = first.of_board(seat.number());
    for _ in rt.forever() {
        if progress.ended || refused.load(Ordering::SeqCst) {
            return;
        }
        if take_turn(rt, turns, seat, gate, &mut progress).is_err() {
            refused.store(true, Ordering::SeqCst);
        }
    }
}

/// Runs each seat's board on a thread of its own, where one can be made.
fn run_each<C: Cpu + Send, B: Backing + Send, G: Gate + Sync, R: Threads + Wait + Sync>(
    rt: &R,
    turns: &Turns<Sharing<C, B>>,
    refused: &AtomicBool,
    gate: &G,
    first: &FirstProgress,
    seats: &mut [BoardSeat<Sharing<C, B>>],
)
    requires each { AllOf (MayTurn turns.now) seats.old }
    ensures { (i : ℕ) (d : _) → i < length seats.old → IsAgain (slice_index_or seats.old i d) (slice_index_or seats.new i d) }
{
    thread::for_each_mut(
        rt,
        seats,
        MOST_BOARDS,
        &|_, seat| { run_seat(rt, turns, refused, gate, first, seat) },
    );
}

/// The same of all seats of the table, which are then all there as before.
fn run_seats<C: Cpu + Send, B: Backing + Send, G: Gate + Sync, R: Threads + Wait + Sync>(
    rt: &R,
    turns: &Turns<Sharing<C, B>>,
    refused: &AtomicBool,
    gate: &G,
    first: &FirstProgress,
    seats: &mut Vec<BoardSeat<Sharing<C, B>>>,
)
    requires idle { AreAllIdle turns.now seats.old.items }
    ensures idle { AreAllIdle turns.now seats.new.items }
    ensures named { (name : _) → AreNamed name seats.old.items → AreNamed name seats.new.items }
{
    run_each::<C, B, G, R>(rt, turns, refused, gate, first, seats.as_mut_slice());
}

/// Runs the boards on threads, and gives the world as it stands after all of them, logs among it. Want of memory for
/// the table hands the world back as it was given.
fn run_threads<C: Cpu + Send, B: Backing + Send, G: Gate + Sync, R: Threads + Wait + Sync>(
    rt: &R,
    alloc: Global,
    world: World<C, B>,
    refused: &AtomicBool,
    gate: &G,
) -> Result<World<C, B>, RunRefused<C, B>>
    requires good { IsGoodWorld C.meaning C.state C.room B.meaning world }
    ensures good { IfOk result (λ after. IsGoodWorld C.meaning C.state C.room B.meaning after) }
    ensures beginning { IfOk result (λ after. after.beginning ≡ world.beginning) }
    ensures count { IfOk result (λ after. length after.boards.items ≡ length world.boards.items) }
    ensures as_given { IfErr result (λ back. back.world ≡ world) }
{
    let first = FirstProgress::of(&world.boards);
    let (turns, mut seats) = turns_of(alloc, world)?;
    run_seats::<C, B, G, R>(rt, &turns, refused, gate, &first, &mut seats);
    let (bus, boards) = turns.close(seats);
    Ok(World::whole(bus, boards))
}

/// The boards' logs are merged at the end. Want of memory hands the world back as it stands.
fn join_logs<C: Cpu, B: Backing>(mut world: World<C, B>) -> Result<World<C, B>, RunRefused<C, B>>
    requires good { IsGoodWorld C.meaning C.state C.room B.meaning world }
    ensures good { MatchResult result (λ after. IsGoodWorld C.meaning C.state C.room B.meaning after)
        (λ refused. IsGoodWorld C.meaning C.state C.room B.meaning refused.world) }
    ensures empty { IfOk result (λ after. LogsAreEmpty after.boards.items) }
    ensures beginning { MatchResult result (λ after. after.beginning ≡ world.beginning)
        (λ refused. refused.world.beginning ≡ world.beginning) }
    ensures count { MatchResult result (λ after. length after.boards.items ≡ length world.boards.items)
        (λ refused. length refused.world.boards.items ≡ length world.boards.items) }
    ensures ended { AllOf (λ board. IsSome board.ended) world.boards.items
        → IfOk result (λ after. AllOf (λ board. IsSome board.ended) after.boards.items) }
{
    match world.merge() {
        Ok(()) => Ok(world),
        Err(AllocError) => Err(RunRefused { world }),
    }
}

/// The end of a run: each board that has not ended is run to its end, and then all logs are merged.
fn end_run<C: Cpu, B: Backing, G: Gate>(
    mut world: World<C, B>,
    gate: &G,
) -> Result<World<C, B>, RunRefused<C, B>>
    requires good { IsGoodWorld C.meaning C.state C.room B.meaning world }
    ensures good { MatchResult result (λ after. IsGoodWorld C.meaning C.state C.room B.meaning after)
        (λ refused. IsGoodWorld C.meaning C.state C.room B.meaning refused.world) }
    ensures empty { IfOk result (λ after. LogsAreEmpty after.boards.items) }
    ensures beginning { MatchResult result (λ after. after.beginning ≡ world.beginning)
        (λ refused. refused.world.beginning ≡ world.beginning) }
    ensures count { MatchResult result (λ after. length after.boards.items ≡ length world.boards.items)
        (λ refused. length refused.world.boards.items ≡ length world.boards.items) }
    ensures ended { IfOk result (λ after. AllOf (λ board. IsSome board.ended) after.boards.items) }
{
    match end_boards(&mut world, gate) {
        Ok(()) => join_logs(world),
        Err(AllocError) => Err(RunRefused { world }),
    }
}

/// Runs the boards of a world to their ends, each on a thread of its own where one can be made, and each under its own
/// place.
///
/// A board repeats until it has ended: it calls `gate.outside`, takes its own place by one compare and exchange, calls
/// `gate.inside`, goes on alone for at most 256 instructions, and gives its place back; where the bus has the place it
/// yields the processor and tries again. Where it needs the bus it takes the bus and every place, takes a turn on the
/// bus, and gives all back. After the threads have ended, each board that has not ended is run by the same turns on the
/// whole world, so that every board has an ending, and then all logs are merged. The order of the boards' turns is not
/// said. The rule is this project's own.
///
/// Want of memory in a turn on the bus ends all boards at their next turn; that turn gives back all that it took. The
/// answer is `RunRefused` then, and where there is no memory for the table or for the last merge. It hands back a world
/// that is good, with its beginning: as it was given where there is none for the table, and else as it stands, with logs
/// that need not be empty. Of no other refusal is there one. The table takes memory once; a turn on a board's own place
/// takes none.
pub fn run_boards<C: Cpu + Send, B: Backing + Send, G: Gate + Sync, R: Threads + Wait + Sync>(
    rt: &R,
    alloc: Global,
    world: World<C, B>,
    gate: &G,
) -> Result<World<C, B>, RunRefused<C, B>>
    requires good { IsGoodWorld C.meaning C.state C.room B.meaning world }
    requires empty { LogsAreEmpty world.boards.items }
    ensures good { MatchResult result (λ after. IsGoodWorld C.meaning C.state C.room B.meaning after)
        (λ refused. IsGoodWorld C.meaning C.state C.room B.meaning refused.world) }
    ensures empty { IfOk result (λ after. LogsAreEmpty after.boards.items) }
    ensures beginning { MatchResult result (λ after. after.beginning ≡ world.beginning)
        (λ refused. refused.world.beginning ≡ world.beginning) }
    ensures count { MatchResult result (λ after. length after.boards.items ≡ length world.boards.items)
        (λ refused. length refused.world.boards.items ≡ length world.boards.items) }
    ensures ended { IfOk result (λ after. AllOf (λ board. IsSome board.ended) after.boards.items) }
{
    let refused = CachePadded::new(AtomicBool::new(false));
    let flag: &AtomicBool = &refused;
    let world = run_threads::<C, B, G, R>(rt, alloc, world, flag, gate)?;
    if flag.load(Ordering::SeqCst) {
        return Err(RunRefused { world });
    }
    end_run(world, gate)
}
