//! A whole schedule.

ghost use Rattle.std.specs.Prelude.{◌≡◌, ◌<◌, ◌+◌, ◌-◌, ◌*◌, ◌^◌, ◌≤◌, IfOk, IfSome, OnErr, OnOk, length, map};
ghost use Rattle.spur_core.specs.Boards.{LogsAreEmpty};
ghost use Rattle.spur_core.specs.World.{IsGoodWorld, IsMerged, IsPrefix};
ghost use Rattle.spur_probe.specs.Shown.{after_entries, first_stop, told};
ghost use Rattle.spur_sched.specs.Followed.{IsScheduled};
ghost use Rattle.spur_sched.specs.Shown.{IsShown, IsShownInPart, added, numbered_behind, ran_by, stopped_entry};

use crate::picking::{next, pick};
use crate::show::show_new;
use crate::step::take_step;
use spur_core::World;
use spur_cpu::Cpu;
use spur_probe::{Probe, StopAt};
use spur_swap::Backing;
use std::alloc::AllocError;

/// How a schedule came to its end.
#[derive(Clone, Copy, Debug, PartialEq, Eq)]
pub enum Ran {
    /// All boards have ended.
    Done,
    /// A probe wished a stop.
    Stopped {
        /// The number of the entry at which it did, from 1 among those that the run added.
        entry: u64,
        /// The place of the probe in the list, from 0. A place above 2^32 - 1 is told as 2^32 - 1.
        probe: u32,
    },
}

/// Runs the boards of a world, one whole instruction of a board after another, until all have ended or a probe wishes a
/// stop.
///
/// The state is a number, first `start`. A step makes it `state * 6364136223846793005 + 1442695040888963407` modulo
/// 2^64, and picks one of the boards that have not ended: of `m` of them, in ascending order, the one at position
/// `(state >> 33) mod m`. That board takes one instruction, on the bus where it cannot take it alone. Its entries are
/// put into the history after the step; or, with `late`, those of instructions that a board took alone stay in its log
/// until the next turn of any board on the bus, or the end, joins all logs to the history in board order. The schedule
/// is this project's own. All logs are empty before, and after it unless memory was wanting.
///
/// So with `late` the history is no order in time: an entry that a board logged may stand behind one that a board of a
/// lesser number logged later, and before one that a board of a greater number logged earlier. It is lawful all the
/// same.
///
/// After each step the entries that the history has more are shown to the probes, entry by entry, and each in the order
/// of the list; so are those that are joined at the end. The first wish to stop ends the run. `Stopped` comes exactly
/// then, and tells the entry and the probe. The entries behind it are shown to no probe, and stay in the history; nor is
/// the entry shown to the probes behind that one. No probe's rule changes, nor how its number is read.
///
/// There are at most `boards * (budget + 1)` steps, since each completes an instruction or ends a board. A step costs
/// that of the boards beside its instruction, its turn on the bus and its entries, which are shown where they stand.
/// `AllocError` comes only for want of memory. The world is good then, and its history before is still there. The
/// probes were shown entries that were added, from the first on, and none wished a stop.
pub fn run_schedule<C: Cpu, B: Backing>(
    world: &mut World<C, B>,
    start: u64,
    late: bool,
    probes: &mut Vec<Box<dyn Probe>>,
) -> Result<Ran, AllocError>
    requires good { IsGoodWorld C.meaning C.state C.room B.meaning world.old }
    requires empty { LogsAreEmpty world.old.boards.items }
    ensures good { IsGoodWorld C.meaning C.state C.room B.meaning world.new }
    ensures beginning { world.new.beginning ≡ world.old.beginning }
    ensures prefix { IsPrefix world.old.store.history.entries world.new.store.history.entries }
    ensures empty { OnOk result (LogsAreEmpty world.new.boards.items) }
    ensures shown { IfOk result (IsShown
        (λ b. told (rule b) (reads b) (kept b))
        (added world.old.store.history.entries world.new.store.history.entries) probes.old.items probes.new.items) }
    ensures shown_in_part { OnErr result (IsShownInPart
        (λ b. told (rule b) (reads b) (kept b))
        (added world.old.store.history.entries world.new.store.history.entries) probes.old.items probes.new.items) }
    ensures followed { IfOk result (λ ran. IsScheduled C.meaning C.state start late
        (length world.old.boards.items * (world.old.beginning.opening.value.options.budget + 1)) (stopped_entry ran)
        world.old.store.history.entries world.new.store.history.entries world.old.boards.items world.new.boards.items) }
{
    let first = world.history().len();
    let mut state = start;
    loop {
        state = next(state);
        let seen = world.history().len();
        match pick(&world.boards, state) {
            None => return end_run(world, first, probes),
            Some(b) => {
                take_step(world, b, late)?;
                if let Some(stop) = show_new(probes, &world.history()[seen..]) {
                    return Ok(ended_by(seen - first, Some(stop)));
                }
            }
        }
    }
}

/// Joins what stands in logs to the history, shows it to the probes, and tells how the run ends that began where the
/// history had `first` entries. `AllocError` comes only for want of memory, and all is as it was then.
fn end_run<C: Cpu, B: Backing>(
    world: &mut World<C, B>,
    first: usize,
    probes: &mut Vec<Box<dyn Probe>>,
) -> Result<Ran, AllocError>
    requires good { IsGoodWorld C.meaning C.state C.room B.meaning world.old }
    requires first { first ≤ length world.old.store.history.entries }
    ensures good { IsGoodWorld C.meaning C.state C.room B.meaning world.new }
    ensures beginning { world.new.beginning ≡ world.old.beginning }
    ensures merged { OnOk result (IsMerged world.old world.new) }
    ensures moved { OnOk result (map (λ b. told (rule b) (reads b) (kept b)) probes.new.items ≡ after_entries
        (added world.old.store.history.entries world.new.store.history.entries)
        (map (λ b. told (rule b) (reads b) (kept b)) probes.old.items)) }
    ensures ended { IfOk result (λ ran. ran ≡ ran_by (numbered_behind (length world.old.store.history.entries - first)
        (first_stop 0 (added world.old.store.history.entries world.new.store.history.entries)
        (map (λ b. told (rule b) (reads b) (kept b)) probes.old.items)))) }
    ensures world { OnErr result (world.new ≡ world.old) }
    ensures unshown { OnErr result (probes.new ≡ probes.old) }
{
    let seen = world.history().len();
    world.merge()?;
    let stop = show_new(probes, &world.history()[seen..]);
    Ok(ended_by(seen - first, stop))
}

/// How a run ends, where so many entries were shown before the last ones, and perhaps a probe wished a stop at one of
/// these.
fn ended_by(shown: usize, stop: Option<StopAt>) -> Ran
    requires few { IfSome stop (λ stop. shown + stop.entry + 1 < 2 ^ 64) }
    ensures { result ≡ ran_by (numbered_behind shown stop) }
{
    match stop {
        None => Ran::Done,
        Some(stop) => Ran::Stopped {
            entry: (shown + stop.entry + 1) as u64,
            probe: stop.probe.min(u32::MAX as usize) as u32,
        },
    }
}
