//! Runs of plain processors: one for each board's code, and a row of the report for each board.

ghost use Rattle.std.specs.Prelude.{◌≡◌, ◌≤◌, IfErr, IfOk, map};
ghost use Rattle.spur_core.specs.Loaded.{AreAtBeginning};
ghost use Rattle.spur_input.specs.Program.{IsLoadedOpening};
ghost use Rattle.spur_loader.specs.Opening.{board_count};
ghost use Rattle.spur_probe.specs.Shown.{told};
ghost use Rattle.spur_program.specs.Reports.{IsPrepared, IsReportFrom, IsReportedRun, head_of, report_row};
ghost use Rattle.spur_program.specs.Runs.{HasFailedAtStart};
ghost use Rattle.spur_program.specs.declared.run.RunFault.TheVariants.{SwapAtStart};

use crate::probes::Seen;
use crate::run::{Finished, NotFinished, RunFault, run_alone};
use crate::threads::run_on_threads;
use spur_board::Board;
use spur_cpu::PlainCpu;
use spur_isa::Instr;
use spur_list::Items;
use spur_loader::Opening;
use spur_pager::Store;
use spur_probe::Probe;
use spur_report::{BoardReport, Report};
use spur_swap::Backing;
use spur_threads::Gate;
use spur_trace::TraceHead;
use spur_words::{Order, Schedule};
use std::alloc::{AllocError, Global};
use std::sync::Wait;
use std::thread::Threads;

/// What is made ready for a run of the codes of an opening.
pub struct Prepared {
    /// What the run's trace says of itself in its first line.
    pub head: TraceHead,
    /// The opening, without its codes.
    pub opening: Opening,
    /// A processor for each code, at its beginning.
    pub cpus: Vec<PlainCpu>,
}

/// A report of a run, and the swap as the run left it.
#[derive(Debug)]
pub struct Reported<B> {
    pub report: Report,
    pub backing: B,
}

/// A processor for each code, at its beginning, with room for as many shown values as the budget has instructions.
fn processors(
    alloc: Global,
    codes: Items<Items<Instr>>,
    budget: u32,
) -> Result<Vec<PlainCpu>, AllocError>
    ensures { IfOk result (λ cpus. AreAtBeginning codes budget cpus.items) }
{
    let mut cpus = Vec::new(alloc);
    for code in codes.into_vec() {
        cpus.push(PlainCpu::new(alloc, code, budget)?)?;
    }
    Ok(cpus)
}

/// What a report says of a board.
fn row(board: Board<PlainCpu>) -> BoardReport
    ensures { result ≡ report_row board }
{
    BoardReport {
        ending: board.ended,
        retired: board.retired,
        registers: board.cpu.registers(),
        shown: board.cpu.into_shown(),
    }
}

/// What a report says of boards.
fn rows(alloc: Global, boards: Vec<Board<PlainCpu>>) -> Result<Vec<BoardReport>, AllocError>
    ensures { IfOk result (λ rows. rows.items ≡ map report_row boards.items) }
{
    boards.into_iter().map(row).collect(alloc)
}

/// What a trace of a run from this opening says of itself in its first line.
fn head_of(opening: &Opening) -> TraceHead
    requires { board_count opening.now ≤ 12 }
    ensures { result ≡ head_of opening.now }
{
    TraceHead {
        boards: opening.segs.len() as u32,
        frames: opening.options.frames,
        lines: opening.options.lines,
    }
}

/// The report of a run, with the header of its trace. Want of memory hands the swap back.
fn report_of<B>(
    alloc: Global,
    head: TraceHead,
    ran: Finished<PlainCpu, B>,
) -> Result<Reported<B>, NotFinished<B>>
    ensures report { IfOk result (IsReportFrom head ran) }
    ensures fault { IfErr result (λ r. r.fault ≡ RunFault.NoMemory) }
{
    let Finished {
        boards,
        store,
        seen,
    } = ran;
    let Store {
        phys,
        frames: _,
        backing,
        history,
        ahead: _,
    } = store;
    let Ok(boards) = rows(alloc, boards) else {
        return Err(NotFinished {
            fault: RunFault::NoMemory,
            backing,
        });
    };
    let Seen { stopped, lines } = seen;
    let report = Report {
        boards: Items::from_vec(boards),
        history: Items::from_vec(history.into_vec()),
        last: Items::from_vec(phys.into_words()),
        stopped,
        lines: Items::from_vec(lines),
        head,
    };
    Ok(Reported { report, backing })
}

/// What is made ready for a run of the codes of an opening. The error is want of memory.
fn make_ready(alloc: Global, opening: Opening) -> Result<Prepared, AllocError>
    requires { IsLoadedOpening opening }
    ensures { IfOk result (IsPrepared opening) }
{
    let head = head_of(&opening);
    let Opening {
        flat,
        segs,
        code,
        options,
    } = opening;
    let cpus = processors(alloc, code, options.budget)?;
    let opening = Opening {
        flat,
        segs,
        code: Items::new(alloc),
        options,
    };
    Ok(Prepared {
        head,
        opening,
        cpus,
    })
}

/// A run that was not begun for want of memory.
fn not_prepared<B>(backing: B) -> NotFinished<B>
    ensures { result.fault ≡ RunFault.NoMemory }
{
    NotFinished {
        fault: RunFault::NoMemory,
        backing,
    }
}

/// Runs the codes of an opening by this schedule, to their ends or until a probe stops them, and reports
/// what came of it. The trace of the report may be written, and is judged good where the swap tells its pages.
///
/// `SwapAtStart` comes only where the swap's count of faults rose before the run, and no page was read then. Else the
/// error is want of memory.
pub fn run_plain<B: Backing>(
    alloc: Global,
    opening: Opening,
    backing: B,
    schedule: Schedule,
    probes: Vec<Box<dyn Probe>>,
) -> Result<Reported<B>, NotFinished<B>>
    requires { IsLoadedOpening opening }
    ensures reported { IfOk result (λ done. IsReportedRun opening (Order.Scheduled schedule)
        (map (λ b. told (rule b) (reads b) (kept b)) probes.items)
        (B.meaning backing) (B.meaning done.backing) done.report) }
    ensures refused { IfErr result (λ r.
        r.fault ≡ SwapAtStart → HasFailedAtStart (B.meaning backing) (B.meaning r.backing)) }
{
    let Ok(ready) = make_ready(alloc, opening) else {
        return Err(not_prepared(backing));
    };
    let Prepared {
        head,
        opening,
        cpus,
    } = ready;
    let ran = run_alone(alloc, opening, cpus, backing, schedule, probes)?;
    report_of(alloc, head, ran)
}

/// Runs the codes of an opening to their ends, each board's on a thread of its own where one can be made, and reports
/// what came of it. The trace of the report may be written, and is judged good where the swap tells its pages.
///
/// `SwapAtStart` comes only where the swap's count of faults rose before the run, and no page was read then. Else the
/// error is want of memory.
pub fn run_plain_on_threads<B: Backing + Send, G: Gate + Sync, R: Threads + Wait + Sync>(
    rt: &R,
    alloc: Global,
    opening: Opening,
    backing: B,
    gate: &G,
    probes: Vec<Box<dyn Probe>>,
) -> Result<Reported<B>, NotFinished<B>>
    requires { IsLoadedOpening opening }
    ensures reported { IfOk result (λ done. IsReportedRun opening Order.Threads
        (map (λ b. told (rule b) (reads b) (kept b)) probes.items)
        (B.meaning backing) (B.meaning done.backing) done.report) }
    ensures refused { IfErr result (λ r.
        r.fault ≡ SwapAtStart → HasFailedAtStart (B.meaning backing) (B.meaning r.backing)) }
{
    let Ok(ready) = make_ready(alloc, opening) else {
        return Err(not_prepared(backing));
    };
    let Prepared {
        head,
        opening,
        cpus,
    } = ready;
    let ran = run_on_threads(rt, alloc, opening, cpus, backing, gate, probes)?;
    report_of(alloc, head, ran)
}
