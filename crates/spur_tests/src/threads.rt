//! Runs on threads: what does not depend on the order in which the boards get to their steps, each program two hundred
//! times, and each time with a trace that is judged good.

use crate::reports::{adders, takers};
use crate::runs::{answer_to, words_in};
use crate::texts::{HALT, SUM};
use spur_addr::GlobalAddr;
use spur_board::Ending;
use spur_io::{SinkSure, SourceSure};
use spur_probe::{CountProbe, Probe, WatchProbe};
use spur_program::{Outcome, Status, spur};
use spur_report::{BoardReport, Report};
use spur_swap::SwapMemory;
use spur_threads::{Gate, NoGate};
use std::alloc::{AllocError, Global};
use std::sync::Wait;
use std::test::Fail;
use std::thread::Threads;

/// How often each program is run.
const TIMES: u32 = 200;

/// The most bytes that a run writes.
const ROOM: u32 = 262_144;

/// What a run answered.
#[derive(Drop)]
pub(crate) struct Answered {
    pub(crate) status: Status,
    pub(crate) written: Vec<u8>,
    pub(crate) report: Option<Report>,
}

/// What is answered to words and a text on threads, with this gate and no probes.
pub(crate) fn answer_on<R: Threads + Wait + Sync, G: Gate + Sync>(
    rt: &R,
    alloc: Global,
    (words, text): (&str, &[u8]),
    gate: &G,
) -> Result<Answered, AllocError> {
    let words = words_in(alloc, words)?;
    let mut source = SourceSure::new(text.to_vec(alloc)?);
    let mut sink = SinkSure::new(alloc, ROOM)?;
    let swap = SwapMemory::new(alloc);
    let probes = Vec::new(alloc);
    let outcome = spur(
        rt,
        alloc,
        &words,
        &mut source,
        &mut sink,
        swap,
        gate,
        probes,
    );
    let Outcome {
        status,
        report,
        verdict: _,
        backing: _,
    } = outcome;
    Ok(Answered {
        status,
        written: sink.bytes().to_vec(alloc)?,
        report,
    })
}

/// Whether the trace in what was written is judged good behind its text.
pub(crate) fn is_good(
    alloc: Global,
    (check, text): (&str, &[u8]),
    written: &[u8],
) -> Result<bool, AllocError> {
    let Some(at) = written.iter().position(|byte| *byte == b'%') else {
        return Ok(false);
    };
    let mut input = text.to_vec(alloc)?;
    input.extend_from_slice(&written[at..])?;
    let words = words_in(alloc, check)?;
    let (outcome, _) = answer_to(alloc, &words, &input, SwapMemory::new(alloc))?;
    Ok(outcome.status == Status::Fine)
}

/// Whether a text is answered each time with this status and these lines, and with a trace that is judged good.
fn is_always<R: Threads + Wait + Sync>(
    rt: &R,
    alloc: Global,
    (run, check): (&str, &str),
    text: &[u8],
    (status, lines): (Status, &str),
) -> Result<bool, AllocError> {
    for _ in 0..TIMES {
        let answered = answer_on(rt, alloc, (run, text), &NoGate)?;
        let written = answered.written.as_slice();
        if answered.status != status || !written.starts_with(lines.as_bytes()) {
            return Ok(false);
        }
        if !is_good(alloc, (check, text), written)? {
            return Ok(false);
        }
    }
    Ok(true)
}

#[test]
fn a_sum_is_always_the_same(rt: HostRuntime) -> Result<(), Fail> {
    let lines = "board 0 halted retired 4\nregs 0 00000000 0000002a 00000000 ";
    let words = ("run --trace", "check");
    let holds = is_always(&rt, rt.alloc(), words, SUM, (Status::Fine, lines))?;
    assert!(rt; holds);
    Ok(())
}

#[test]
fn a_board_that_halts_at_once_does(rt: HostRuntime) -> Result<(), Fail> {
    let lines = "board 0 halted retired 1\nregs 0 00000000 00000000 ";
    let words = ("run --trace", "check");
    let holds = is_always(&rt, rt.alloc(), words, HALT, (Status::Fine, lines))?;
    assert!(rt; holds);
    Ok(())
}

#[test]
fn one_board_is_stopped_and_another_halts(rt: HostRuntime) -> Result<(), Fail> {
    let text = b".page 0 0 ro\n.board\nld r1, 64(r0)\nst r1, 64(r0)\n.board\nhalt\n";
    let lines = "board 0 faulted protection 0000000040 retired 1
regs 0 00000000 00000000 00000000 00000000 00000000 00000000 00000000 00000000 00000000 00000000 00000000 00000000 00000000 00000000 00000000 00000000
board 1 halted retired 1
";
    let words = ("run --trace", "check");
    let holds = is_always(&rt, rt.alloc(), words, text, (Status::Ended, lines))?;
    assert!(rt; holds);
    Ok(())
}

#[test]
fn a_budget_ends_a_board(rt: HostRuntime) -> Result<(), Fail> {
    let words = ("run --trace --budget 3", "check --budget 3");
    let spins = b".board\nagain: nop\njmp again\n";
    let spent = (Status::Ended, "board 0 spent retired 3\n");
    assert!(rt; is_always(&rt, rt.alloc(), words, spins, spent)?);
    let stops = b".board\nnop\nnop\nhalt\n";
    let halted = (Status::Fine, "board 0 halted retired 3\n");
    assert!(rt; is_always(&rt, rt.alloc(), words, stops, halted)?);
    Ok(())
}

/// Whether a board halted, and the one value that it showed.
fn shown_by(board: &BoardReport) -> Option<u32> {
    match (board.ending, board.shown.as_slice()) {
        (Some(Ending::Halted), [shown]) => Some(*shown),
        _ => None,
    }
}

/// Whether four boards halted, and showed values that add up to 64.
fn took_64(report: &Report) -> bool {
    let boards = report.boards.as_slice();
    let mut taken = 0u32;
    for board in boards {
        match shown_by(board) {
            Some(shown) => taken = taken.wrapping_add(shown),
            None => return false,
        }
    }
    boards.len() == 4 && taken == 64
}

#[test]
fn four_boards_take_each_word_once(rt: HostRuntime) -> Result<(), Fail> {
    let alloc = rt.alloc();
    let text = takers(alloc)?;
    for _ in 0..TIMES {
        let answered = answer_on(&rt, alloc, ("run --trace", &text), &NoGate)?;
        assert_eq!(rt; answered.status, Status::Fine);
        let report = answered.report.ok_or("a report")?;
        assert!(rt; took_64(&report));
        assert!(rt; is_good(alloc, ("check", &text), &answered.written)?);
    }
    Ok(())
}

/// Whether the board of number i completed 15 instructions, halted, and showed 10 + i.
fn have_sums(report: &Report) -> bool {
    let boards = report.boards.as_slice();
    let sums = boards.iter().zip(10u32..22);
    let mut all = boards.len() == 12;
    for (board, sum) in sums {
        all = all && board.retired == 15 && shown_by(board) == Some(sum);
    }
    all
}

#[test]
fn twelve_boards_have_their_own_sums(rt: HostRuntime) -> Result<(), Fail> {
    let alloc = rt.alloc();
    let text = adders(alloc)?;
    for _ in 0..TIMES {
        let answered = answer_on(&rt, alloc, ("run --trace", &text), &NoGate)?;
        assert_eq!(rt; answered.status, Status::Fine);
        let report = answered.report.ok_or("a report")?;
        assert!(rt; have_sums(&report));
        assert!(rt; is_good(alloc, ("check", &text), &answered.written)?);
    }
    Ok(())
}

#[test]
fn a_generated_text_has_its_sums_and_counts(rt: HostRuntime) -> Result<(), Fail> {
    let alloc = rt.alloc();
    let text = answer_on(&rt, alloc, ("gen 7 4 64", b""), &NoGate)?.written;
    let answered = answer_on(&rt, alloc, ("run --counts", &text), &NoGate)?;
    assert_eq!(rt; answered.status, Status::Fine);
    let report = answered.report.ok_or("a report")?;
    let boards = report.boards.as_slice();
    assert_eq!(rt; boards.len(), 4);
    for (board, sum) in boards.iter().zip([1536u32, 4800, 8064, 11328]) {
        assert_eq!(rt; board.retired, 910);
        assert_eq!(rt; shown_by(board), Some(sum));
    }
    let counts = spur_report::counts(report.history.as_slice()).numbers;
    assert_eq!(rt; (counts[0], counts[1]), (512, 512));
    Ok(())
}

// ---- words and probes

/// Words that are not of the table, and the number of the first that offends.
const WORDS: &[(&str, u32)] = &[
    ("", 1),
    ("run more", 2),
    ("run --frames 0", 3),
    ("run --frames", 3),
    ("run --counts --counts", 3),
    ("run --trace 1", 3),
    ("run --watch 40", 2),
    ("sched", 2),
];

#[test]
fn words_are_refused_with_threads_too(rt: HostRuntime) -> Result<(), Fail> {
    let alloc = rt.alloc();
    for (words, number) in WORDS {
        let answered = answer_on(&rt, alloc, (words, SUM), &NoGate)?;
        let line = format!(in alloc; "refused: word {number}\n")?;
        assert_eq!(rt; answered.status, Status::Words);
        assert_eq!(rt; answered.written.as_slice(), line.as_bytes());
    }
    // what has no threads is done as it is without them
    let answered = answer_on(&rt, alloc, ("sched 1", SUM), &NoGate)?;
    assert_eq!(rt; answered.status, Status::Fine);
    Ok(())
}

#[test]
fn probes_see_the_whole_history_of_a_run(rt: HostRuntime) -> Result<(), Fail> {
    let alloc = rt.alloc();
    let at = GlobalAddr::of(0x40).ok_or("an address")?;
    let mut probes: Vec<Box<dyn Probe>> = Vec::new(alloc);
    probes.push(Box::new(alloc, WatchProbe::new(at))?)?;
    probes.push(Box::new(alloc, CountProbe::new())?)?;
    let words = words_in(alloc, "run")?;
    let mut source = SourceSure::new(SUM.to_vec(alloc)?);
    let mut sink = SinkSure::new(alloc, ROOM)?;
    let swap = SwapMemory::new(alloc);
    let outcome = spur(
        &rt,
        alloc,
        &words,
        &mut source,
        &mut sink,
        swap,
        &NoGate,
        probes,
    );
    // no wish is heeded
    assert_eq!(rt; outcome.status, Status::Fine);
    let report = outcome.report.as_ref().ok_or("a report")?;
    assert_eq!(rt; report.stopped, None);
    let lines = report.lines.as_slice();
    assert_eq!(rt; lines.len(), 2);
    assert_eq!(rt; (lines[0].number, lines[1].number), (1, 12));
    Ok(())
}
