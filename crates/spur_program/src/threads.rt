//! Boards are run on threads.

ghost use Rattle.std.specs.Prelude.{◌≡◌, [], IfErr, IfOk, map};
ghost use Rattle.spur_core.specs.Begin.{IsBeginning};
ghost use Rattle.spur_core.specs.Boards.{LogsAreEmpty};
ghost use Rattle.spur_core.specs.World.{IsGoodWorld};
ghost use Rattle.spur_probe.specs.Shown.{told};
ghost use Rattle.spur_program.specs.Runs.{HasFailedAtStart, HasRun, IsRunThrough};
ghost use Rattle.spur_program.specs.declared.run.RunFault.TheVariants.{SwapAtStart};

use crate::probes::see;
use crate::run::{Finished, NotFinished, RunFault, Through, backing_of, not_begun, written_back};
use spur_core::World;
use spur_cpu::Cpu;
use spur_loader::Opening;
use spur_probe::Probe;
use spur_swap::Backing;
use spur_threads::{Gate, RunRefused, run_boards};
use spur_words::Order;
use std::alloc::{AllocError, Global};
use std::sync::Wait;
use std::thread::Threads;

/// Runs the boards of a world on threads to their ends, and then shows their whole history to the probes. Want of
/// memory hands the swap back.
fn run_world<C: Cpu + Send, B: Backing + Send, G: Gate + Sync, R: Threads + Wait + Sync>(
    rt: &R,
    alloc: Global,
    world: World<C, B>,
    gate: &G,
    probes: Vec<Box<dyn Probe>>,
) -> Result<Through<C, B>, B>
    requires good { IsGoodWorld C.meaning C.state C.room B.meaning world }
    requires empty { LogsAreEmpty world.boards.items }
    ensures { IfOk result (λ through. IsRunThrough C.meaning C.state C.room B.meaning Order.Threads
        (map (λ b. told (rule b) (reads b) (kept b)) probes.items)
        world through.world through.seen) }
{
    match run_boards(rt, alloc, world, gate) {
        Ok(world) => match see(alloc, probes, world.history()) {
            Ok(seen) => Ok(Through { world, seen }),
            Err(AllocError) => Err(backing_of(world)),
        },
        Err(RunRefused { world }) => Err(backing_of(world)),
    }
}

/// Runs boards with these processors from an opening to their ends, each on a thread of its own where one can be made,
/// shows their whole history to the probes, and writes all caches back to memory.
///
/// `SwapAtStart` comes only where the swap's count of faults rose before the run, and no page was read then. Else the
/// error is want of memory.
pub fn run_on_threads<C: Cpu + Send, B: Backing + Send, G: Gate + Sync, R: Threads + Wait + Sync>(
    rt: &R,
    alloc: Global,
    opening: Opening,
    cpus: Vec<C>,
    backing: B,
    gate: &G,
    probes: Vec<Box<dyn Probe>>,
) -> Result<Finished<C, B>, NotFinished<B>>
    requires { IsBeginning C.meaning C.state C.room opening cpus.items }
    ensures ran { IfOk result (HasRun C.meaning C.state B.meaning Order.Threads
        (map (λ b. told (rule b) (reads b) (kept b)) probes.items)
        opening cpus.items (B.meaning backing)) }
    ensures refused { IfErr result (λ r.
        r.fault ≡ SwapAtStart → HasFailedAtStart (B.meaning backing) (B.meaning r.backing)) }
{
    let world = match World::begin(alloc, opening, cpus, backing) {
        Ok(world) => world,
        Err(refused) => return Err(not_begun(refused)),
    };
    match run_world(rt, alloc, world, gate, probes) {
        Ok(through) => Ok(written_back(through)),
        Err(backing) => Err(NotFinished {
            fault: RunFault::NoMemory,
            backing,
        }),
    }
}
