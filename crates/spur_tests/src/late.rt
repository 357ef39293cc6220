//! Logs that are joined late, by rows that were worked out by hand.

use crate::calls::LOAD_TWICE;
use crate::commands::{
    SUM_COUNTS, SUM_ROWS, SUM_TRACE, Told, are_four_boards, is_answered, joined,
};
use crate::probes::FaultProbe;
use crate::runs::words_in;
use crate::texts::SUM;
use crate::worlds::world_of;
use spur_board::{Board, BusReason, Turn};
use spur_cpu::PlainCpu;
use spur_io::{SinkSure, SourceSure};
use spur_probe::{CountProbe, Probe};
use spur_program::{Status, spur_alone};
use spur_swap::SwapMemory;
use std::alloc::Global;
use std::test::Fail;

/// The rows of two boards that load twice, and the trace up to their hits. The schedule of 0 picks the boards 1, 0, 1, 0,
/// 1 and 0.
const TWICE: &[u8] = b"board 0 halted retired 3\n\
    regs 0 00000000 00000000 00000000 00000000 00000000 00000000 00000000 00000000 00000000 00000000 00000000 00000000 00000000 00000000 00000000 00000000\n\
    board 1 halted retired 3\n\
    regs 1 00000000 00000000 00000000 00000000 00000000 00000000 00000000 00000000 00000000 00000000 00000000 00000000 00000000 00000000 00000000 00000000\n\
    %trace 1 2 256 4096\n\
    fill 1 root read 3fcff00000\n\
    fill 1 pte read 3fc0000000\n\
    fault 1 missing load 0000000040\n\
    claim 1 3fc0000000\n\
    in 1 0000000000 65\n\
    fill 1 data read 0000000040\n\
    load 1 0000000040 00000000\n\
    fill 0 root read 3fcff00000\n\
    fill 0 pte read 3fc0000000\n\
    fill 0 data read 0000000040\n\
    load 0 0000000040 00000000\n";

/// Their hits, in the order in which they were done, and in that of the boards.
const IN_TIME: &[u8] = b"load 1 0000000040 00000000\nload 0 0000000040 00000000\n";

const BY_BOARD: &[u8] = b"load 0 0000000040 00000000\nload 1 0000000040 00000000\n";

/// One board that loads a word 1100 times: its log is full once.
const MANY_LOADS: &[u8] =
    b".page 0 0 ro\n.board\nli r2, 1100\nagain: ld r1, 64(r0)\naddi r2, r2, -1\nbne r2, r0, again\nhalt\n";

/// Its rows and counts: `li`, 1100 times three instructions, and `halt`; it fetches three blocks, and one page comes in.
const MANY_LOADS_COUNTS: &[u8] = b"board 0 halted retired 3302\n\
    regs 0 00000000 00000000 00000000 00000000 00000000 00000000 00000000 00000000 00000000 00000000 00000000 00000000 00000000 00000000 00000000 00000000\n\
    loads 1100\nstores 0\ntas 0\n\
    align 0\nunmapped 0\nmissing 1\nleaving 0\nprotection 0\nreference 0\ndirty 0\n\
    fills 3\nclaims 1\nwritebacks 0\nrefreshes 0\nflushes 0\n\
    leaves 0\nouts 0\nins 1\nsetrefs 0\nsetdirties 0\nclearrefs 0\n";

/// Words, a text, and what is written.
type Row = (&'static str, &'static [u8], &'static [&'static [u8]]);

const ROWS: &[Row] = &[
    ("sched 0 --trace", LOAD_TWICE, &[TWICE, IN_TIME]),
    ("sched 0 --late --trace", LOAD_TWICE, &[TWICE, BY_BOARD]),
    ("sched 0 --trace --late", LOAD_TWICE, &[TWICE, BY_BOARD]),
    ("sched 1 --late", SUM, &[SUM_ROWS]),
    (
        "sched 1 --late --counts --trace",
        SUM,
        &[SUM_ROWS, SUM_COUNTS, SUM_TRACE],
    ),
    ("sched 0 --counts", MANY_LOADS, &[MANY_LOADS_COUNTS]),
    ("sched 0 --late --counts", MANY_LOADS, &[MANY_LOADS_COUNTS]),
];

#[test]
fn logs_are_joined_in_board_order(rt: HostRuntime) -> Result<(), Fail> {
    let alloc = rt.alloc();
    for (i, (words, text, written)) in ROWS.iter().enumerate() {
        let written = joined(alloc, written)?;
        let holds = is_answered(alloc, words, text, Status::Fine, Told::Report, &written)?;
        assert!(rt; holds, "row {i}");
    }
    assert!(rt; are_four_boards(alloc, "sched 7 --late --counts")?);
    Ok(())
}

/// How many instructions the first board has completed, and how many entries its log has.
fn stand_of(boards: &[Board<PlainCpu>]) -> Option<(u32, usize)> {
    let board = boards.first()?;
    Some((board.retired, board.log.entries().len()))
}

#[test]
fn a_full_log_is_joined_by_its_boards_turn_on_the_bus(rt: HostRuntime) -> Result<(), Fail> {
    let mut world = world_of(rt.alloc(), MANY_LOADS, SwapMemory::new(rt.alloc()))?;
    assert_eq!(rt; world.own(0, 1), Turn::Again);
    world.bus_turn(0)?;
    assert_eq!(rt; world.history().len(), 7);
    // `addi` and `bne` stand between two loads
    assert_eq!(rt; world.own(0, 5000), Turn::NeedsBus(BusReason::FullLog));
    assert_eq!(rt; stand_of(&world.boards), Some((2 + 3 * 1024 + 2, 1024)));
    assert_eq!(rt; world.history().len(), 7);
    // the turn joins them, and takes the load that had no room
    world.bus_turn(0)?;
    assert_eq!(rt; stand_of(&world.boards), Some((3077, 0)));
    assert_eq!(rt; world.history().len(), 7 + 1024 + 1);
    Ok(())
}

// ---- probes

/// Board 0 loads a word of a page that is only read, and stores to it; board 1 loads it.
const DENIED: &[u8] =
    b".page 0 0 ro\n.board\nld r1, 64(r0)\nst r1, 64(r0)\nhalt\n.board\nld r1, 64(r0)\nhalt\n";

/// Words, how board 1 comes out, the entry at which the run is stopped, and its trace. The schedule of 2 picks the boards
/// 0, 0, 1 and 1, and that of 3 picks 1, 1, 0 and 0.
type Stop = (&'static str, &'static str, u64, &'static [&'static str]);

/// The trace of board 0 up to the fault that ends it, where it comes first; and that of board 1 behind it.
const FIRST_0: &str = "fill 0 root read 3fcff00000
fill 0 pte read 3fc0000000
fault 0 missing load 0000000040
claim 0 3fc0000000
in 0 0000000000 65
fill 0 data read 0000000040
load 0 0000000040 00000000
fault 0 protection store 0000000040
";

const SECOND_1: &str = "fill 1 root read 3fcff00000
fill 1 pte read 3fc0000000
fill 1 data read 0000000040
load 1 0000000040 00000000
";

/// Board 1 where it comes first, and board 0 behind it.
const FIRST_1: &str = "fill 1 root read 3fcff00000
fill 1 pte read 3fc0000000
fault 1 missing load 0000000040
claim 1 3fc0000000
in 1 0000000000 65
fill 1 data read 0000000040
load 1 0000000040 00000000
";

const SECOND_0: &str = "fill 0 root read 3fcff00000
fill 0 pte read 3fc0000000
fill 0 data read 0000000040
load 0 0000000040 00000000
fault 0 protection store 0000000040
";

const STOPS: &[Stop] = &[
    // The fault is joined behind its step.
    ("sched 2 --trace", "running retired 0", 8, &[FIRST_0]),
    // It stands in the log until board 1 takes its turn on the bus.
    (
        "sched 2 --late --trace",
        "running retired 1",
        8,
        &[FIRST_0, SECOND_1],
    ),
    // It stands there until the end.
    (
        "sched 3 --late --trace",
        "halted retired 2",
        12,
        &[FIRST_1, SECOND_0],
    ),
];

/// A row of registers that are all 0.
const ZEROS: &str =
    "00000000 00000000 00000000 00000000 00000000 00000000 00000000 00000000 00000000 00000000 00000000 00000000 00000000 00000000 00000000 00000000";

/// Whether a run with a probe that stops at a fault which ends a board, and one behind it that counts, is answered as a
/// row says.
fn is_stopped(alloc: Global, (words, ending, entry, trace): Stop) -> Result<bool, Fail> {
    let mut probes: Vec<Box<dyn Probe>> = Vec::new(alloc);
    probes.push(Box::new(alloc, FaultProbe::new(true))?)?;
    probes.push(Box::new(alloc, CountProbe::new())?)?;
    let mut source = SourceSure::new(DENIED.to_vec(alloc)?);
    let mut sink = SinkSure::new(alloc, 4096)?;
    let outcome = spur_alone(
        alloc,
        &words_in(alloc, words)?,
        &mut source,
        &mut sink,
        SwapMemory::new(alloc),
        probes,
    );
    let before = entry.wrapping_sub(1);
    let mut written = format!(in alloc;
        "stopped {entry} 0\nboard 0 faulted protection 0000000040 retired 1\nregs 0 {ZEROS}\nboard 1 {ending}\nregs 1 {ZEROS}\nprobe 0 {entry}\nprobe 1 {before}\n%trace 1 2 256 4096\n"
    )?;
    for piece in trace {
        written.push_str(piece)?;
    }
    Ok(outcome.status == Status::Stopped && sink.bytes() == written.as_bytes())
}

#[test]
fn entries_are_shown_when_they_are_joined(rt: HostRuntime) -> Result<(), Fail> {
    for (i, row) in STOPS.iter().enumerate() {
        assert!(rt; is_stopped(rt.alloc(), *row)?, "stop {i}");
    }
    Ok(())
}
