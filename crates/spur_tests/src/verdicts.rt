//! The command `check` on traces that were worked out by hand, on traces that runs have written, and on inputs that are
//! refused; and what is told where a source or a sink fails.

use crate::commands::{Pieces, Told, four_boards, is_answered, is_refused, is_told, joined};
use crate::reports::far_pages;
use crate::runs::{answer_to, words_in};
use crate::texts::{
    HALT, LEAST, MAILBOX, ONE_FRAME, ONE_FRAME_BESIDE, PAGE_TWICE, SEGMENT_255, SUM, SUM_AT_ZERO,
    SUM_OBJECT, THREE_PAGES, TWO_LOADS,
};
use spur_flat::Clause::{Answer, Fault, Needed, Pager, Program, Tags};
use spur_io::{ReadAll, SinkMemory, SourceMemory, read_all};
use spur_program::{Status, spur_alone};
use spur_swap::SwapMemory;
use std::alloc::{AllocError, Global};
use std::test::Fail;

// ---- verdicts

/// The header of a trace of one board under the options that nobody names, and of one of two boards.
const HEAD: &[u8] = b"%trace 1 1 256 4096\n";

const HEAD_OF_TWO: &[u8] = b"%trace 1 2 256 4096\n";

/// The trace of the board that loads 41, in pieces: what is done before its page comes in,
const TO_PAGE: &[u8] = b"fill 0 root read 3fcff00000\n\
    fill 0 pte read 3fc0000000\n\
    fault 0 missing load 0000000040\n\
    claim 0 3fc0000000\n";

/// the page, the block of the word, the load,
const PAGE: &[u8] = b"in 0 0000000000 65\n";

const BLOCK: &[u8] = b"fill 0 data read 0000000040\n";

const LOAD: &[u8] = b"load 0 0000000040 00000029\n";

/// what is done before the store, and the store.
const TO_STORE: &[u8] = b"fault 0 dirty store 0000000040\n\
    setdirty 0 0000000000\n\
    refresh 0 0000000040\n\
    claim 0 0000000040\n";

const STORE: &[u8] = b"store 0 0000000040 0000002a\n";

/// The whole trace behind its text.
const SUM_TRACED: Pieces = &[SUM, HEAD, TO_PAGE, PAGE, BLOCK, LOAD, TO_STORE, STORE];

/// Lines that stand in the place of one of those: another value is loaded, another word, another value is stored.
const LOAD_42: &[u8] = b"load 0 0000000040 0000002a\n";

const LOAD_68: &[u8] = b"load 0 0000000044 00000000\n";

const STORE_43: &[u8] = b"store 0 0000000040 0000002b\n";

/// The page comes into other frames, and one that is not declared comes in.
const IN_64: &[u8] = b"in 0 0000000000 64\n";

const IN_66: &[u8] = b"in 0 0000000000 66\n";

const IN_300: &[u8] = b"in 0 0000000000 300\n";

const IN_320: &[u8] = b"in 0 0000000000 320\n";

const IN_321: &[u8] = b"in 0 0000000000 321\n";

const IN_OTHER: &[u8] = b"in 0 0000001000 65\n";

/// The reference bit of the page is cleared and set again, and it goes out.
const GOES_OUT: &[u8] = b"clearref 0 0000000000\n\
    fault 0 reference load 0000000040\n\
    setref 0 0000000000\n\
    leave 0 0000000000\n\
    fault 0 leaving load 0000000040\n\
    out 0 0000000000\n";

/// Faults that are none here.
const ALIGN: &[u8] = b"fault 0 align load 0000000041\n";

const UNMAPPED: &[u8] = b"fault 0 unmapped load 0000000040\n";

/// Blocks of the root table that serve nothing: another one than the word's, one that is owned, and seven of them.
const IDLE: &[u8] = b"fill 1 root read 3fcff00000\n\
    fill 0 root read 3fcff00020\n\
    fault 0 missing load 0000000040\n";

const OWNED: &[u8] = b"fill 1 root read 3fcff00000\n\
    fill 0 root write 3fcff00000\n\
    fault 0 missing load 0000000040\n";

const SEVEN: &[u8] = b"fill 0 root read 3fcff00000\n\
    fill 0 root read 3fcff00020\n\
    fill 0 root read 3fcff00040\n\
    fill 0 root read 3fcff00060\n\
    fill 0 root read 3fcff00080\n\
    fill 0 root read 3fcff000a0\n\
    fill 0 root read 3fcff000c0\n";

/// The second board loads the word, and the page goes out while that board alone has the block.
const OUT_TOO_SOON: &[u8] = b"fill 1 root read 3fcff00000\n\
    fill 1 pte read 3fc0000000\n\
    fault 1 missing load 0000000040\n\
    claim 1 3fc0000000\n\
    in 1 0000000000 65\n\
    fill 1 data read 0000000040\n\
    load 1 0000000040 00000000\n\
    leave 1 0000000000\n\
    out 1 0000000000\n";

/// A text with carriage returns, and with a percent sign that begins no line.
const PERCENT: &[u8] = b".board\r\nhalt ; 100%\r\n";

/// Texts with traces behind them, and what they are judged under the budget that nobody names.
const JUDGED: &[(Pieces, Told)] = &[
    (SUM_TRACED, Told::Good(12)),
    // A value that was not there, a block that was not filled, an access that was done before, one elsewhere, another
    // value, and an access behind the end.
    (
        &[SUM, HEAD, TO_PAGE, PAGE, BLOCK, LOAD_42, TO_STORE, STORE],
        Told::Bad(7, Answer, 41, 42),
    ),
    (
        &[SUM, HEAD, TO_PAGE, PAGE, LOAD, TO_STORE, STORE],
        Told::Bad(6, Tags, 1, 0),
    ),
    (
        &[SUM, HEAD, TO_PAGE, PAGE, BLOCK, LOAD, LOAD, TO_STORE, STORE],
        Told::Bad(8, Program, 2, 1),
    ),
    (
        &[SUM, HEAD, TO_PAGE, PAGE, BLOCK, LOAD_68, TO_STORE, STORE],
        Told::Bad(7, Program, 64, 68),
    ),
    (
        &[SUM, HEAD, TO_PAGE, PAGE, BLOCK, LOAD, TO_STORE, STORE_43],
        Told::Bad(12, Program, 42, 43),
    ),
    (
        &[
            SUM, HEAD, TO_PAGE, PAGE, BLOCK, LOAD, TO_STORE, STORE, LOAD_42,
        ],
        Told::Bad(13, Program, 0, 1),
    ),
    // Fronts of a history are good.
    (&[SUM, HEAD], Told::Good(0)),
    (&[SUM, HEAD, TO_PAGE], Told::Good(4)),
    (&[PERCENT, HEAD], Told::Good(0)),
    // A fault may name any byte, but not this one; a load that could not be, and a fault that is another.
    (&[SUM, HEAD, ALIGN], Told::Bad(1, Program, 64, 65)),
    (&[SUM, HEAD, LOAD], Told::Bad(1, Fault, 3, 0)),
    (&[SUM, HEAD, UNMAPPED], Told::Bad(1, Fault, 3, 2)),
    // Any data frame may be taken, and no other; the header says how many there are. No run here takes frame 300.
    (&[SUM, HEAD, TO_PAGE, IN_300], Told::Good(5)),
    (&[SUM, HEAD, TO_PAGE, IN_300, GOES_OUT], Told::Good(11)),
    (&[SUM, HEAD, TO_PAGE, IN_320], Told::Good(5)),
    (&[SUM, HEAD, TO_PAGE, IN_321], Told::Bad(5, Pager, 5, 321)),
    (&[SUM, HEAD, TO_PAGE, IN_64], Told::Bad(5, Pager, 5, 64)),
    (
        &[SUM, b"%trace 1 1 1 4096\n", TO_PAGE, IN_66],
        Told::Bad(5, Pager, 5, 66),
    ),
    // A page that is not declared, and one that is there.
    (&[SUM, HEAD, TO_PAGE, IN_OTHER], Told::Bad(5, Pager, 1, 0)),
    (
        &[SUM, HEAD, TO_PAGE, PAGE, IN_66],
        Told::Bad(6, Pager, 4, 0x0004_1013),
    ),
    // The bus is used for nothing: the first entry that does so is told.
    (&[TWO_LOADS, HEAD_OF_TWO, IDLE], Told::Bad(3, Needed, 2, 2)),
    (&[TWO_LOADS, HEAD_OF_TWO, OWNED], Told::Bad(3, Needed, 3, 2)),
    (&[SUM, HEAD, SEVEN], Told::Bad(7, Needed, 1, 7)),
    (
        &[TWO_LOADS, HEAD_OF_TWO, OUT_TOO_SOON],
        Told::Bad(9, Tags, 18, 1),
    ),
];

/// The trace of the sum under other budgets.
const BUDGETS: &[(&str, Told)] = &[
    ("check --budget 2", Told::Bad(8, Program, 0, 2)),
    ("check --budget 3", Told::Good(12)),
];

/// The line and the status of a verdict.
fn line_of(alloc: Global, verdict: Told) -> Result<(String, Status), AllocError> {
    let (at, clause, wanted, found) = match verdict {
        Told::Nothing | Told::Report => return Ok((String::new(alloc), Status::Fine)),
        Told::Good(entries) => {
            return Ok((format!(in alloc; "good {entries}\n")?, Status::Fine));
        }
        Told::Bad(at, clause, wanted, found) => (at, clause, wanted, found),
    };
    let name = match clause {
        Program => "program",
        Answer => "answer",
        Fault => "fault",
        Pager => "pager",
        Tags => "tags",
        Needed => "needed",
    };
    let line = format!(in alloc; "bad {at} {name} {wanted} {found}\n")?;
    Ok((line, Status::Ended))
}

/// Whether this is what an input is judged.
fn is_judged(alloc: Global, words: &str, input: &[u8], verdict: Told) -> Result<bool, AllocError> {
    let (line, status) = line_of(alloc, verdict)?;
    is_answered(alloc, words, input, status, verdict, line.as_bytes())
}

// ---- refusals

/// Inputs that `check` refuses, and why.
const REFUSED: &[(Pieces, &str)] = &[
    // The text comes first,
    (&[], "line 1 column 1: no board"),
    (&[HEAD], "line 1 column 1: no board"),
    (&[b".board\njmp on\n"], "line 2 column 5: no label"),
    (&[b".board\njmp on\n%\n"], "line 2 column 5: no label"),
    (&[SUM, b" ", HEAD, HEAD], "line 8 column 2: bad token"),
    (&[SUM_OBJECT, b"\n", HEAD], "line 1 column 1: bad byte"),
    // then the header,
    (&[SUM], "trace line 1: bad header"),
    (&[SUM, b"%\n", HEAD], "trace line 1: bad header"),
    (&[PAGE_TWICE, b"%\n\n"], "trace line 1: bad header"),
    // the number of boards,
    (&[SUM, HEAD_OF_TWO], "trace line 1: boards"),
    (&[TWO_LOADS, HEAD], "trace line 1: boards"),
    (&[PAGE_TWICE, HEAD_OF_TWO, b"\n"], "trace line 1: boards"),
    // what can't be loaded,
    (&[PAGE_TWICE, HEAD, b"\n"], "load: page twice 0000000000"),
    (&[SEGMENT_255, HEAD, LOAD], "load: segment 255"),
    (
        &[b".word 0 4100 1\n.page 0 0 rw\n.board\n", HEAD],
        "load: word outside 0000001004",
    ),
    // and the lines of the trace, before any verdict.
    (&[SUM, HEAD, LOAD, b"\n"], "trace line 3: bad line"),
    (&[SUM, HEAD, b"\n\n"], "trace line 2: bad line"),
];

/// Lines that are no header.
const HEADERS: &[&[u8]] = &[
    b"%trace 1 0 256 4096\n",
    b"%trace 1 13 256 4096\n",
    b"%trace 1 4294967297 256 4096\n",
    b"%trace 1 1 0 4096\n",
    b"%trace 1 1 3901 4096\n",
    b"%trace 1 1 4294967552 4096\n",
    b"%trace 1 1 256 24\n",
    b"%trace 1 1 256 4294971392\n",
    b"%trace 2 1 256 4096\n",
    b"%trace 1 1 0256 4096\n",
    b"%trace 1 1 256 4096 \n",
    b"%trace 1 1 256 4096\r\n",
    b"%trace 1 1 256 4096",
    b"%trace\n",
];

/// Lines of no entry of one board.
const LINES: &[&[u8]] = &[
    b"\n",
    HEAD,
    b"load 0 0000000040 00000029\r\n",
    b"load 0  0000000040 00000029\n",
    b"load 0 0000000040 00000029 \n",
    b"load 00 0000000040 00000029\n",
    b"load 1 0000000040 00000029\n",
    b"load 4294967296 0000000040 00000029\n",
    b"load 0 4000000000 00000029\n",
    b"load 0 000000040 00000029\n",
    b"load 0 00000000040 00000029\n",
    b"load 0 0000000040 000000029\n",
    b"load 0 0000000040 0000002A\n",
    b"load 0 0000000042 00000029\n",
    b"load 0 0000000040 00000029",
    b"claim 0 0000000044\n",
    b"flush 0 1 0000000040\n",
    b"out 0 0000000040\n",
    b"in 0 0000000000 4096\n",
    b"in 0 0000000000 4294967361\n",
];

/// Whether the frames are those of the header: so many pages have room beside 3899 data frames, and not beside 3900,
/// whatever stands behind that.
fn are_loaded_by_header(alloc: Global) -> Result<bool, AllocError> {
    let pages = far_pages(alloc, 133)?;
    let fewer = joined(alloc, &[&pages, b"%trace 1 1 3899 4096\n"])?;
    let most = joined(alloc, &[&pages, b"%trace 1 1 3900 4096\n\n"])?;
    Ok(
        is_judged(alloc, "check", &fewer, Told::Good(0))?
            && is_refused(alloc, "check", &most, "load: no room 4097")?,
    )
}

// ---- traces that runs have written

/// The words of a run, those of the check, and the text of both.
const TRACED: &[(&str, &str, &[u8])] = &[
    ("sched 1 --trace", "check", MAILBOX),
    ("sched 1 --frames 2 --trace", "check", THREE_PAGES),
    ("sched 1 --frames 1 --trace", "check", ONE_FRAME),
    ("sched 1 --trace --counts", "check", MAILBOX),
    ("sched 3 --frames 1 --lines 16 --trace", "check", MAILBOX),
    ("sched 1 --budget 9 --trace", "check --budget 9", MAILBOX),
    ("sched 1 --trace --lines 16", "check", SUM_AT_ZERO),
    ("sched 1 --trace --frames 1", "check", ONE_FRAME_BESIDE),
    ("sched 1 --trace", "check", HALT),
];

/// What stands in a report from the first percent sign on.
fn trace_in(report: &[u8]) -> &[u8] {
    for (i, byte) in report.iter().enumerate() {
        if *byte == b'%' {
            return report.split_at(i).1;
        }
    }
    b""
}

/// Whether the trace that a run writes is judged good behind the text, with as many entries as the run has had.
fn is_good(alloc: Global, words: &str, check: &str, text: &[u8]) -> Result<bool, AllocError> {
    let words = words_in(alloc, words)?;
    let (outcome, sink) = answer_to(alloc, &words, text, SwapMemory::new(alloc))?;
    let Some(report) = &outcome.report else {
        return Ok(false);
    };
    let entries = report.history.as_slice().len() as u64;
    let input = joined(alloc, &[text, trace_in(sink.bytes())])?;
    is_judged(alloc, check, &input, Told::Good(entries))
}

#[test]
fn traces_are_judged_or_refused(rt: HostRuntime) -> Result<(), Fail> {
    let alloc = rt.alloc();
    for (i, (input, verdict)) in JUDGED.iter().enumerate() {
        let input = joined(alloc, input)?;
        assert!(rt; is_judged(alloc, "check", &input, *verdict)?, "verdict {i}");
    }
    let traced = joined(alloc, SUM_TRACED)?;
    for (i, (words, verdict)) in BUDGETS.iter().enumerate() {
        assert!(rt; is_judged(alloc, words, &traced, *verdict)?, "budget {i}");
    }
    for (i, (input, why)) in REFUSED.iter().enumerate() {
        let input = joined(alloc, input)?;
        assert!(rt; is_refused(alloc, "check", &input, why)?, "refusal {i}");
    }
    for (i, header) in HEADERS.iter().enumerate() {
        let input = joined(alloc, &[SUM, header])?;
        assert!(rt;
            is_refused(alloc, "check", &input, "trace line 1: bad header")?,
            "header {i}"
        );
    }
    for (i, line) in LINES.iter().enumerate() {
        let input = joined(alloc, &[SUM, HEAD, TO_PAGE, line])?;
        assert!(rt;
            is_refused(alloc, "check", &input, "trace line 6: bad line")?,
            "line {i}"
        );
    }
    assert!(rt; are_loaded_by_header(alloc)?);
    for (i, (words, check, text)) in TRACED.iter().enumerate() {
        assert!(rt; is_good(alloc, words, check, text)?, "trace {i}");
    }
    assert!(rt; is_good(alloc, "sched 7 --trace", "check", &four_boards(alloc)?)?);
    Ok(())
}

// ---- sources and sinks that fail

/// Words and an input, the call of a sink that fails, what is told, and the front that is written. A call takes three
/// bytes.
const SINKS: &[(&str, Pieces, u32, Told, &[u8])] = &[
    ("check", SUM_TRACED, 2, Told::Good(12), b"goo"),
    ("check", SUM_TRACED, 1, Told::Good(12), b""),
    (
        "check",
        &[SUM, HEAD, LOAD],
        3,
        Told::Bad(1, Fault, 3, 0),
        b"bad 1 ",
    ),
    ("check", &[SUM], 2, Told::Nothing, b"ref"),
    ("asm", &[SUM], 2, Told::Nothing, b"\x93SP"),
    ("asm", &[SUM_OBJECT], 2, Told::Nothing, b"ref"),
    ("gen 0 1 1", &[], 2, Told::Nothing, b"; g"),
    ("gen 0 0 1", &[], 2, Told::Nothing, b"ref"),
    ("sched 1 --trace", &[SUM], 2, Told::Report, b"boa"),
    ("sched 1 --counts", &[SUM_OBJECT], 1, Told::Report, b""),
];

/// Words and an input, the call of a source that fails, the status, and what is written.
const SOURCES: &[(&str, Pieces, u32, Status, &[u8])] = &[
    ("check", SUM_TRACED, 1, Status::ReadFault, b""),
    ("check", SUM_TRACED, 2, Status::ReadFault, b""),
    ("asm", &[SUM], 2, Status::ReadFault, b""),
    ("sched 1", &[SUM_OBJECT], 2, Status::ReadFault, b""),
    // Where nothing is read, no read can fail.
    ("gen 0 1 1", &[SUM], 1, Status::Fine, LEAST),
    ("asm more", &[SUM], 1, Status::Words, b"refused: word 2\n"),
];

/// Whether this is the answer where so many of the calls fail.
fn is_failing(
    alloc: Global,
    (words, input): (&str, &[&[u8]]),
    (reads, writes): (&[u32], &[u32]),
    (status, told): (Status, Told),
    written: &[u8],
) -> Result<bool, AllocError> {
    let words = words_in(alloc, words)?;
    let mut source = SourceMemory::new(joined(alloc, input)?, 4096, reads.to_vec(alloc)?);
    let mut sink = SinkMemory::new(alloc, 4096, 3, writes.to_vec(alloc)?)?;
    let outcome = spur_alone(
        alloc,
        &words,
        &mut source,
        &mut sink,
        SwapMemory::new(alloc),
        Vec::new(alloc),
    );
    Ok(outcome.status == status && is_told(&outcome, told) && sink.bytes() == written)
}

/// Whether a generated text takes nothing from a source whose first calls fail, so many: they still fail then, and all
/// of its bytes come behind them.
fn is_left(alloc: Global, fail: &[u32]) -> Result<bool, AllocError> {
    let words = words_in(alloc, "gen 0 1 1")?;
    let mut source = SourceMemory::new(SUM.to_vec(alloc)?, 4096, fail.to_vec(alloc)?);
    let mut sink = SinkMemory::new(alloc, 4096, 4096, Vec::new(alloc))?;
    let outcome = spur_alone(
        alloc,
        &words,
        &mut source,
        &mut sink,
        SwapMemory::new(alloc),
        Vec::new(alloc),
    );
    for _ in fail {
        match read_all(alloc, &mut source, 4096) {
            Err(ReadAll::ReadFault) => {}
            Ok(_) | Err(_) => return Ok(false),
        }
    }
    let left = match read_all(alloc, &mut source, 4096) {
        Ok(bytes) => bytes.as_slice() == SUM,
        Err(_) => false,
    };
    Ok(left && outcome.status == Status::Fine && sink.bytes() == LEAST)
}

#[test]
fn sources_and_sinks_that_fail_are_told(rt: HostRuntime) -> Result<(), Fail> {
    let alloc = rt.alloc();
    for (i, (words, input, fail, told, written)) in SINKS.iter().enumerate() {
        let ending = (Status::WriteFault, *told);
        let holds = is_failing(alloc, (words, input), (&[], &[*fail]), ending, written)?;
        assert!(rt; holds, "sink {i}");
    }
    for (i, (words, input, fail, status, written)) in SOURCES.iter().enumerate() {
        let ending = (*status, Told::Nothing);
        let holds = is_failing(alloc, (words, input), (&[*fail], &[]), ending, written)?;
        assert!(rt; holds, "source {i}");
    }
    assert!(rt; is_left(alloc, &[])?);
    assert!(rt; is_left(alloc, &[1])?);
    Ok(())
}
