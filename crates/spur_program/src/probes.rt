//! What the probes that are handed in see of a run.

ghost use Rattle.std.specs.Prelude.{◌≡◌, IfNone, IfOk, None, OnOk, map};
ghost use Rattle.spur_core.specs.Boards.{LogsAreEmpty};
ghost use Rattle.spur_core.specs.Step.{runners_of};
ghost use Rattle.spur_core.specs.World.{IsGoodWorld};
ghost use Rattle.spur_probe.specs.Shown.{told};
ghost use Rattle.spur_program.specs.Headline.{AllAreOut};
ghost use Rattle.spur_program.specs.Probes.{AreShown, stop_number, stop_told};
ghost use Rattle.spur_program.specs.Runs.{GoesByOrder};
ghost use Rattle.spur_sched.specs.Shown.{added};

use spur_core::World;
use spur_cpu::Cpu;
use spur_flat::Entry;
use spur_probe::{Probe, ProbeLine, lines_of, show_all};
use spur_sched::{Ran, run_schedule};
use spur_swap::Backing;
use spur_words::{Order, Schedule};
use std::alloc::{AllocError, Global};

/// What came of showing a run's history to probes.
#[derive(Debug, Drop)]
pub struct Seen {
    /// Where a probe stopped the run: the number of the entry at which it wished that, from 1, and the place of the
    /// probe in the list, from 0; a place above 2^32 - 1 is told as 2^32 - 1.
    pub stopped: Option<(u64, u32)>,
    /// What each probe tells, in the order of the list.
    pub lines: Vec<ProbeLine>,
}

/// What a report tells of how a run ended.
fn told_stop(ran: Ran) -> Option<(u64, u32)>
    ensures { result ≡ stop_told ran }
{
    match ran {
        Ran::Done => None,
        Ran::Stopped { entry, probe } => Some((entry, probe)),
    }
}

/// Shows a whole history to probes, none of whose wishes is heeded, as after a run on threads. They are dropped.
pub fn see(
    alloc: Global,
    probes: Vec<Box<dyn Probe>>,
    history: &[Entry],
) -> Result<Seen, AllocError>
    ensures shown { IfOk result (λ seen. AreShown Order.Threads
        (map (λ b. told (rule b) (reads b) (kept b)) probes.items) history.now seen.stopped seen.lines.items) }
    ensures unstopped { IfOk result (λ seen. seen.stopped ≡ None) }
{
    let mut boxes = probes;
    show_all(&mut boxes, history);
    let lines = lines_of(alloc, boxes.as_slice())?;
    Ok(Seen {
        stopped: None,
        lines,
    })
}

/// Runs the boards of a world by this schedule, until they have ended or one of the probes, which are
/// shown the history while it is made, wishes a stop. The probes are dropped.
pub fn follow<C: Cpu, B: Backing>(
    alloc: Global,
    world: &mut World<C, B>,
    schedule: Schedule,
    probes: Vec<Box<dyn Probe>>,
) -> Result<Seen, AllocError>
    requires good { IsGoodWorld C.meaning C.state C.room B.meaning world.old }
    requires empty { LogsAreEmpty world.old.boards.items }
    ensures good { IsGoodWorld C.meaning C.state C.room B.meaning world.new }
    ensures beginning { world.new.beginning ≡ world.old.beginning }
    ensures empty { OnOk result (LogsAreEmpty world.new.boards.items) }
    ensures ended { IfOk result (λ seen.
        IfNone seen.stopped (AllAreOut (runners_of C.meaning C.state world.new.boards.items))) }
    ensures order { IfOk result (λ seen. GoesByOrder C.meaning C.state (Order.Scheduled schedule)
        (stop_number seen.stopped) world.old world.new) }
    ensures shown { IfOk result (λ seen. AreShown (Order.Scheduled schedule)
        (map (λ b. told (rule b) (reads b) (kept b)) probes.items)
        (added world.old.store.history.entries world.new.store.history.entries) seen.stopped seen.lines.items) }
{
    let mut boxes = probes;
    let ran = run_schedule(world, schedule.start, schedule.late, &mut boxes)?;
    let lines = lines_of(alloc, boxes.as_slice())?;
    Ok(Seen {
        stopped: told_stop(ran),
        lines,
    })
}
