//! A report by hand.

use crate::{BoardReport, Flags, Report, text};
use spur_board::Ending;
use spur_list::Items;
use spur_probe::ProbeLine;
use spur_trace::{read_head, read_trace};
use std::alloc::{AllocError, Global};
use std::test::Fail;

/// The lines of a board that halted after 3 instructions, register 1 of which is 42, and which showed 42.
const LINES: &str = "board 0 halted retired 3
regs 0 00000000 0000002a 00000000 00000000 00000000 00000000 00000000 00000000 00000000 00000000 00000000 00000000 00000000 00000000 00000000 00000000
shown 0 42
";

/// The counts of its four entries.
const COUNTS: &str = "loads 1
stores 0
tas 0
align 0
unmapped 0
missing 1
leaving 0
protection 0
reference 0
dirty 0
fills 2
claims 0
writebacks 0
refreshes 0
flushes 0
leaves 0
outs 0
ins 0
setrefs 0
setdirties 0
clearrefs 0
";

/// Their trace.
const TRACE: &str = "%trace 1 1 256 4096
fill 0 root read 3fcff00000
fill 0 pte read 3fc0000000
fault 0 missing load 0000000040
load 0 0000000040 0000002a
";

/// The row of a board that halted after 3 instructions.
fn halted(alloc: Global) -> Result<Items<BoardReport>, AllocError> {
    let mut registers = [0; 16];
    registers[1] = 42;
    let row = BoardReport {
        ending: Some(Ending::Halted),
        retired: 3,
        registers,
        shown: Items::from_vec(vec![in alloc; 42]?),
    };
    Ok(Items::from_vec(vec![in alloc; row]?))
}

#[test]
fn a_report_has_these_texts(rt: HostRuntime) -> Result<(), Fail> {
    let alloc = rt.alloc();
    let (Ok(head), Ok(history)) = (
        read_head(TRACE.as_bytes()),
        read_trace(alloc, TRACE.as_bytes()),
    ) else {
        return Err(Fail::from("no trace"));
    };
    // the history is no run's
    let report = Report {
        boards: halted(alloc)?,
        history: Items::from_vec(history),
        last: Items::new(alloc),
        stopped: None,
        lines: Items::new(alloc),
        head,
    };
    let rows = [
        (false, false, LINES, "", ""),
        (true, false, LINES, COUNTS, ""),
        (false, true, LINES, "", TRACE),
        (true, true, LINES, COUNTS, TRACE),
    ];
    for (counts, trace, first, second, third) in rows {
        let written = text(alloc, &report, &Flags { counts, trace })?;
        let wanted = format!(in alloc; "{first}{second}{third}")?;
        assert_eq!(rt; written.as_slice(), wanted.as_bytes());
    }
    Ok(())
}

#[test]
fn a_report_tells_of_probes(rt: HostRuntime) -> Result<(), Fail> {
    let alloc = rt.alloc();
    let Ok(head) = read_head(TRACE.as_bytes()) else {
        return Err(Fail::from("no trace"));
    };
    let mut boards = halted(alloc)?.into_vec();
    for board in boards.as_mut_slice() {
        board.ending = None;
    }
    let lines = vec![in alloc; ProbeLine { number: 11 }, ProbeLine { number: 1 }]?;
    let report = Report {
        boards: Items::from_vec(boards),
        history: Items::new(alloc),
        last: Items::new(alloc),
        stopped: Some((11, 1)),
        lines: Items::from_vec(lines),
        head,
    };
    let flags = Flags {
        counts: false,
        trace: false,
    };
    let written = text(alloc, &report, &flags)?;
    let board = LINES.replace(alloc, "halted", "running")?;
    let wanted = format!(in alloc; "stopped 11 1\n{board}probe 0 11\nprobe 1 1\n")?;
    assert_eq!(rt; written.as_slice(), wanted.as_bytes());
    Ok(())
}
