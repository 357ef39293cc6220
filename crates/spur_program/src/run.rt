//! Boards are run to their ends, or until a probe stops them.

ghost use Rattle.std.specs.Prelude.{◌≡◌, [], IfErr, IfOk, map};
ghost use Rattle.spur_bus.specs.Logical.{logical_of};
ghost use Rattle.spur_cache.specs.Lens.{OnlyLines};
ghost use Rattle.spur_core.specs.Begin.{IsBeginning};
ghost use Rattle.spur_core.specs.Boards.{LogsAreEmpty, board_lens};
ghost use Rattle.spur_core.specs.World.{IsGoodWorld};
ghost use Rattle.spur_probe.specs.Shown.{told};
ghost use Rattle.spur_program.specs.Runs.{HasFailedAtStart, HasRun, IsRunThrough, run_fault};
ghost use Rattle.spur_program.specs.declared.run.RunFault.TheVariants.{SwapAtStart};

use crate::probes::{Seen, follow};
use spur_board::Board;
use spur_core::{BeginFault, BeginRefused, World};
use spur_cpu::Cpu;
use spur_loader::Opening;
use spur_pager::Store;
use spur_probe::Probe;
use spur_swap::Backing;
use spur_words::{Order, Schedule};
use std::alloc::{AllocError, Global};

/// Boards that have come to their ends, or as far as a probe let them; what they shared; and what probes saw.
#[derive(Debug)]
pub struct Finished<C, B> {
    /// The boards, in the order of their numbers.
    pub boards: Vec<Board<C>>,
    /// The memory, to which all caches were written back, the swap, and the history.
    pub store: Store<B>,
    /// What the probes saw of the run.
    pub seen: Seen,
}

/// Why boards were not run to their ends.
#[derive(Clone, Copy, Debug, PartialEq, Eq)]
pub enum RunFault {
    /// The swap failed when it was made ready, before the run.
    SwapAtStart,
    /// Want of memory, before the run or in it.
    NoMemory,
}

/// Boards were not run to their ends; the swap is handed back.
#[derive(Debug)]
pub struct NotFinished<B> {
    pub fault: RunFault,
    pub backing: B,
}

/// A world that was run, and what the probes saw of that.
pub struct Through<C, B> {
    pub world: World<C, B>,
    pub seen: Seen,
}

/// A world that did not begin.
pub(crate) fn not_begun<B>(refused: BeginRefused<B>) -> NotFinished<B>
    ensures fault { result.fault ≡ run_fault refused.fault }
    ensures backing { result.backing ≡ refused.backing }
{
    let BeginRefused { fault, backing } = refused;
    let fault = match fault {
        BeginFault::Swap => RunFault::SwapAtStart,
        BeginFault::NoMemory => RunFault::NoMemory,
    };
    NotFinished { fault, backing }
}

/// The swap of a world, of which the rest is dropped.
pub(crate) fn backing_of<C: Drop, B>(world: World<C, B>) -> B
    ensures { result ≡ world.store.backing }
{
    let (store, _) = world.into_parts();
    let Store {
        phys: _,
        frames: _,
        backing,
        history: _,
        ahead: _,
    } = store;
    backing
}

/// The boards of a world that was run and what they shared, when all caches were written back to memory; and what
/// probes saw.
pub(crate) fn written_back<C: Cpu, B: Backing>(through: Through<C, B>) -> Finished<C, B>
    requires good { IsGoodWorld C.meaning C.state C.room B.meaning through.world }
    requires empty { LogsAreEmpty through.world.boards.items }
    ensures memory { result.store.phys ≡ logical_of board_lens through.world.boards.items through.world.store.phys }
    ensures store { result.store ≡ record through.world.store { phys = result.store.phys } }
    ensures boards { OnlyLines board_lens through.world.boards.items result.boards.items }
    ensures seen { result.seen ≡ through.seen }
{
    let Through { world, seen } = through;
    let mut world = world;
    world.finish();
    let (store, boards) = world.into_parts();
    Finished {
        boards,
        store,
        seen,
    }
}

/// Runs the boards of a world by this schedule, to their ends or until a probe stops them. Want of
/// memory hands the swap back.
fn run_world<C: Cpu, B: Backing>(
    alloc: Global,
    world: World<C, B>,
    schedule: Schedule,
    probes: Vec<Box<dyn Probe>>,
) -> Result<Through<C, B>, B>
    requires good { IsGoodWorld C.meaning C.state C.room B.meaning world }
    requires empty { LogsAreEmpty world.boards.items }
    requires fresh { world.store.history.entries ≡ [] }
    ensures { IfOk result (λ through. IsRunThrough C.meaning C.state C.room B.meaning (Order.Scheduled schedule)
        (map (λ b. told (rule b) (reads b) (kept b)) probes.items)
        world through.world through.seen) }
{
    let mut world = world;
    match follow(alloc, &mut world, schedule, probes) {
        Ok(seen) => Ok(Through { world, seen }),
        Err(AllocError) => Err(backing_of(world)),
    }
}

/// Runs boards with these processors from an opening by this schedule, to their ends or until a probe
/// stops them, and writes all caches back to memory.
///
/// `SwapAtStart` comes only where the swap's count of faults rose before the run, and no page was read then. Else the
/// error is want of memory.
pub fn run_alone<C: Cpu, B: Backing>(
    alloc: Global,
    opening: Opening,
    cpus: Vec<C>,
    backing: B,
    schedule: Schedule,
    probes: Vec<Box<dyn Probe>>,
) -> Result<Finished<C, B>, NotFinished<B>>
    requires { IsBeginning C.meaning C.state C.room opening cpus.items }
    ensures ran { IfOk result (HasRun C.meaning C.state B.meaning (Order.Scheduled schedule)
        (map (λ b. told (rule b) (reads b) (kept b)) probes.items)
        opening cpus.items (B.meaning backing)) }
    ensures refused { IfErr result (λ r.
        r.fault ≡ SwapAtStart → HasFailedAtStart (B.meaning backing) (B.meaning r.backing)) }
{
    let world = match World::begin(alloc, opening, cpus, backing) {
        Ok(world) => world,
        Err(refused) => return Err(not_begun(refused)),
    };
    match run_world(alloc, world, schedule, probes) {
        Ok(through) => Ok(written_back(through)),
        Err(backing) => Err(NotFinished {
            fault: RunFault::NoMemory,
            backing,
        }),
    }
}
