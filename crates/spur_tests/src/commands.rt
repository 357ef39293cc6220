//! The commands and flags by whole texts that were worked out by hand: reports with counts and traces, objects,
//! generated texts, and what is refused.

ghost use Rattle.std.specs.Prelude.{◌<◌};

use crate::ahead::THREE_PAGES_AHEAD_COUNTS;
use crate::runs::{answer_to, words_in};
use crate::texts::{
    HALT, LEAST, LEAST_OBJECT, ONE_FRAME, PAGE_TWICE, PAGE_TWICE_OBJECT, SEGMENT_255,
    SEGMENT_255_OBJECT, SUM, SUM_AT_ZERO, SUM_OBJECT, THREE_PAGES, TO_END, TO_STEP, TO_WORD,
    TWO_BLOCKS, TWO_LOADS,
};
use spur_check::Verdict;
use spur_flat::{Clause, Entry};
use spur_program::{Outcome, Status};
use spur_swap::{SwapMemory, SwapTest};
use std::alloc::{AllocError, Global};
use std::test::Fail;

/// Pieces of a text, one behind another.
pub(crate) type Pieces = &'static [&'static [u8]];

/// What the caller is told beside the status.
#[derive(Clone, Copy, Debug, PartialEq, Eq)]
pub(crate) enum Told {
    Nothing,
    Report,
    /// The verdict: good, with so many entries.
    Good(u64),
    /// The verdict: bad at this entry, by this rule and its two numbers.
    Bad(u64, Clause, u64, u64),
}

/// Words, a text or an object, the status, and what is written of the report that is given.
struct Run {
    words: &'static str,
    input: &'static [u8],
    status: Status,
    written: Pieces,
}

// ---- reports

/// The rows of the board that loads 41.
pub(crate) const SUM_ROWS: &[u8] = b"board 0 halted retired 4\n\
    regs 0 00000000 0000002a 00000000 00000000 00000000 00000000 00000000 00000000 00000000 00000000 00000000 00000000 00000000 00000000 00000000 00000000\n";

/// The counts of its history.
pub(crate) const SUM_COUNTS: &[u8] = b"loads 1\nstores 1\ntas 0\n\
    align 0\nunmapped 0\nmissing 1\nleaving 0\nprotection 0\nreference 0\ndirty 1\n\
    fills 3\nclaims 2\nwritebacks 0\nrefreshes 1\nflushes 0\n\
    leaves 0\nouts 0\nins 1\nsetrefs 0\nsetdirties 1\nclearrefs 0\n";

/// The trace of its history.
pub(crate) const SUM_TRACE: &[u8] = b"%trace 1 1 256 4096\n\
    fill 0 root read 3fcff00000\n\
    fill 0 pte read 3fc0000000\n\
    fault 0 missing load 0000000040\n\
    claim 0 3fc0000000\n\
    in 0 0000000000 65\n\
    fill 0 data read 0000000040\n\
    load 0 0000000040 00000029\n\
    fault 0 dirty store 0000000040\n\
    setdirty 0 0000000000\n\
    refresh 0 0000000040\n\
    claim 0 0000000040\n\
    store 0 0000000040 0000002a\n";

/// The rows of a board that halts at once.
const HALT_ROWS: &[u8] = b"board 0 halted retired 1\n\
    regs 0 00000000 00000000 00000000 00000000 00000000 00000000 00000000 00000000 00000000 00000000 00000000 00000000 00000000 00000000 00000000 00000000\n";

/// The counts of a history without entries.
const NO_COUNTS: &[u8] = b"loads 0\nstores 0\ntas 0\n\
    align 0\nunmapped 0\nmissing 0\nleaving 0\nprotection 0\nreference 0\ndirty 0\n\
    fills 0\nclaims 0\nwritebacks 0\nrefreshes 0\nflushes 0\n\
    leaves 0\nouts 0\nins 0\nsetrefs 0\nsetdirties 0\nclearrefs 0\n";

/// The trace of the sum at the first byte of its page: the blocks of the word, of its entry and of the root entry share
/// a line.
const AT_ZERO_TRACE: &[u8] = b"%trace 1 1 256 16\n\
    fill 0 root read 3fcff00000\n\
    fill 0 pte read 3fc0000000\n\
    fault 0 missing load 0000000000\n\
    claim 0 3fc0000000\n\
    in 0 0000000000 65\n\
    writeback 0 3fc0000000\n\
    fill 0 data read 0000000000\n\
    load 0 0000000000 00000029\n\
    fill 0 root read 3fcff00000\n\
    fill 0 pte read 3fc0000000\n\
    fault 0 dirty store 0000000000\n\
    claim 0 3fc0000000\n\
    setdirty 0 0000000000\n\
    writeback 0 3fc0000000\n\
    fill 0 data write 0000000000\n\
    store 0 0000000000 0000002a\n";

/// Two blocks of one page are loaded and then stored to: the rows and the trace. The last store has no fault.
const TWO_BLOCKS_REPORT: &[u8] = b"board 0 halted retired 5\n\
    regs 0 00000000 00000000 00000000 00000000 00000000 00000000 00000000 00000000 00000000 00000000 00000000 00000000 00000000 00000000 00000000 00000000\n\
    %trace 1 1 256 4096\n\
    fill 0 root read 3fcff00000\n\
    fill 0 pte read 3fc0000000\n\
    fault 0 missing load 0000000040\n\
    claim 0 3fc0000000\n\
    in 0 0000000000 65\n\
    fill 0 data read 0000000040\n\
    load 0 0000000040 00000000\n\
    fill 0 data read 0000000060\n\
    load 0 0000000060 00000000\n\
    fault 0 dirty store 0000000060\n\
    setdirty 0 0000000000\n\
    refresh 0 0000000060\n\
    claim 0 0000000060\n\
    store 0 0000000060 00000000\n\
    refresh 0 0000000040\n\
    claim 0 0000000040\n\
    store 0 0000000040 00000000\n";

/// Three pages under two frames: the fourth load hits while the reference bit is clear, and the fifth misses.
const THREE_PAGES_ROWS: &[u8] = b"board 0 halted retired 8\n\
    regs 0 00000000 00001000 00002000 00000000 00000000 00000000 00000000 00000000 00000000 00000000 00000000 00000000 00000000 00000000 00000000 00000000\n";

/// The counts of that history.
const THREE_PAGES_COUNTS: &[u8] = b"loads 5\nstores 0\ntas 0\n\
    align 0\nunmapped 0\nmissing 3\nleaving 0\nprotection 0\nreference 1\ndirty 0\n\
    fills 6\nclaims 1\nwritebacks 0\nrefreshes 0\nflushes 1\n\
    leaves 1\nouts 1\nins 3\nsetrefs 1\nsetdirties 0\nclearrefs 2\n";

/// Two pages that are written share one frame.
const ONE_FRAME_ROWS: &[u8] = b"board 0 halted retired 6\n\
    regs 0 00000000 00000005 00001000 00000005 00000000 00000000 00000000 00000000 00000000 00000000 00000000 00000000 00000000 00000000 00000000 00000000\n";

/// The counts of that history.
const ONE_FRAME_COUNTS: &[u8] = b"loads 1\nstores 2\ntas 0\n\
    align 0\nunmapped 0\nmissing 3\nleaving 0\nprotection 0\nreference 0\ndirty 2\n\
    fills 5\nclaims 1\nwritebacks 0\nrefreshes 0\nflushes 2\n\
    leaves 2\nouts 2\nins 3\nsetrefs 0\nsetdirties 2\nclearrefs 2\n";

/// The trace of that history.
const ONE_FRAME_TRACE: &[u8] = b"%trace 1 1 1 4096\n\
    fill 0 root read 3fcff00000\n\
    fill 0 pte read 3fc0000000\n\
    fault 0 missing store 0000000040\n\
    claim 0 3fc0000000\n\
    in 0 0000000000 65\n\
    fault 0 dirty store 0000000040\n\
    setdirty 0 0000000000\n\
    fill 0 data write 0000000040\n\
    store 0 0000000040 00000005\n\
    fault 0 missing store 0000001040\n\
    clearref 0 0000000000\n\
    leave 0 0000000000\n\
    flush 0 0 0000000040\n\
    out 0 0000000000\n\
    in 0 0000001000 65\n\
    fault 0 dirty store 0000001040\n\
    setdirty 0 0000001000\n\
    fill 0 data write 0000001040\n\
    store 0 0000001040 00000005\n\
    fault 0 missing load 0000000040\n\
    clearref 0 0000001000\n\
    leave 0 0000001000\n\
    flush 0 0 0000001040\n\
    out 0 0000001000\n\
    in 0 0000000000 65\n\
    fill 0 data read 0000000040\n\
    load 0 0000000040 00000005\n";

/// The first board is stopped by a page that may only be read, and the second halts.
const READ_ONLY_REPORT: &[u8] = b"board 0 faulted protection 0000000040 retired 1\n\
    regs 0 00000000 00000000 00000000 00000000 00000000 00000000 00000000 00000000 00000000 00000000 00000000 00000000 00000000 00000000 00000000 00000000\n\
    board 1 halted retired 1\n\
    regs 1 00000000 00000000 00000000 00000000 00000000 00000000 00000000 00000000 00000000 00000000 00000000 00000000 00000000 00000000 00000000 00000000\n\
    %trace 1 2 256 4096\n\
    fill 0 root read 3fcff00000\n\
    fill 0 pte read 3fc0000000\n\
    fault 0 missing load 0000000040\n\
    claim 0 3fc0000000\n\
    in 0 0000000000 65\n\
    fill 0 data read 0000000040\n\
    load 0 0000000040 00000000\n\
    fault 0 protection store 0000000040\n";

/// Two boards load the same word: the second finds the page there.
const TWO_LOADS_REPORT: &[u8] = b"board 0 halted retired 2\n\
    regs 0 00000000 00000000 00000000 00000000 00000000 00000000 00000000 00000000 00000000 00000000 00000000 00000000 00000000 00000000 00000000 00000000\n\
    board 1 halted retired 2\n\
    regs 1 00000000 00000000 00000000 00000000 00000000 00000000 00000000 00000000 00000000 00000000 00000000 00000000 00000000 00000000 00000000 00000000\n\
    %trace 1 2 256 4096\n\
    fill 0 root read 3fcff00000\n\
    fill 0 pte read 3fc0000000\n\
    fault 0 missing load 0000000040\n\
    claim 0 3fc0000000\n\
    in 0 0000000000 65\n\
    fill 0 data read 0000000040\n\
    load 0 0000000040 00000000\n\
    fill 1 root read 3fcff00000\n\
    fill 1 pte read 3fc0000000\n\
    fill 1 data read 0000000040\n\
    load 1 0000000040 00000000\n";

/// An address that is no multiple of 4 is looked for nowhere.
const ALIGN_REPORT: &[u8] = b"board 0 faulted align 0000000002 retired 0\n\
    regs 0 00000000 00000000 00000000 00000000 00000000 00000000 00000000 00000000 00000000 00000000 00000000 00000000 00000000 00000000 00000000 00000000\n\
    %trace 1 1 256 4096\n\
    fault 0 align load 0000000002\n";

/// A page that is not declared, beside one that is.
const UNMAPPED_REPORT: &[u8] = b"board 0 faulted unmapped 0000001000 retired 1\n\
    regs 0 00000000 00001000 00000000 00000000 00000000 00000000 00000000 00000000 00000000 00000000 00000000 00000000 00000000 00000000 00000000 00000000\n\
    %trace 1 1 256 4096\n\
    fill 0 root read 3fcff00000\n\
    fill 0 pte read 3fc0000000\n\
    fault 0 unmapped load 0000001000\n";

/// No page at all: there is no page of the page table either.
const NO_PAGE_REPORT: &[u8] = b"board 0 faulted unmapped 0000000000 retired 0\n\
    regs 0 00000000 00000000 00000000 00000000 00000000 00000000 00000000 00000000 00000000 00000000 00000000 00000000 00000000 00000000 00000000 00000000\n\
    %trace 1 1 256 4096\n\
    fill 0 root read 3fcff00000\n\
    fault 0 unmapped load 0000000000\n";

/// What the board of the least generated text comes to.
const LEAST_ROWS: &[u8] = b"board 0 halted retired 28\n\
    regs 0 00000000 00001000 00000001 00000000 00000003 00000002 00000000 00001000 00000000 00000000 00000000 00000000 00000000 00000000 00000000 00000000\n\
    shown 0 3\n";

/// The trace stands behind the rows of the boards, and the counts between them, whatever the order of the flags.
const FLAGS: &[Run] = &[
    Run {
        words: "sched 1 --trace",
        input: SUM,
        status: Status::Fine,
        written: &[SUM_ROWS, SUM_TRACE],
    },
    Run {
        words: "sched 1 --trace",
        input: SUM,
        status: Status::Fine,
        written: &[SUM_ROWS, SUM_TRACE],
    },
    Run {
        words: "sched 1 --counts",
        input: SUM,
        status: Status::Fine,
        written: &[SUM_ROWS, SUM_COUNTS],
    },
    Run {
        words: "sched 1 --trace --budget 4 --counts",
        input: SUM,
        status: Status::Fine,
        written: &[SUM_ROWS, SUM_COUNTS, SUM_TRACE],
    },
    // No entry, and options in the header.
    Run {
        words: "sched 1 --trace",
        input: HALT,
        status: Status::Fine,
        written: &[HALT_ROWS, b"%trace 1 1 256 4096\n"],
    },
    Run {
        words: "sched 18446744073709551615 --frames 3900 --lines 16 --counts --trace",
        input: HALT,
        status: Status::Fine,
        written: &[HALT_ROWS, NO_COUNTS, b"%trace 1 1 3900 16\n"],
    },
];

/// Blocks that share a line, blocks that are refreshed, pages that go and come.
const PAGES: &[Run] = &[
    Run {
        words: "sched 1 --lines 16 --trace",
        input: SUM_AT_ZERO,
        status: Status::Fine,
        written: &[SUM_ROWS, AT_ZERO_TRACE],
    },
    Run {
        words: "sched 1 --trace",
        input: TWO_BLOCKS,
        status: Status::Fine,
        written: &[TWO_BLOCKS_REPORT],
    },
    Run {
        words: "sched 1 --frames 2 --counts",
        input: THREE_PAGES,
        status: Status::Fine,
        written: &[THREE_PAGES_ROWS, THREE_PAGES_COUNTS],
    },
    Run {
        words: "sched 1 --frames 2 --ahead 1 --counts",
        input: THREE_PAGES,
        status: Status::Fine,
        written: &[THREE_PAGES_ROWS, THREE_PAGES_AHEAD_COUNTS],
    },
    Run {
        words: "sched 1 --frames 1 --ahead 128 --counts",
        input: ONE_FRAME,
        status: Status::Fine,
        written: &[ONE_FRAME_ROWS, ONE_FRAME_COUNTS],
    },
    Run {
        words: "sched 1 --frames 1 --counts --trace",
        input: ONE_FRAME,
        status: Status::Fine,
        written: &[ONE_FRAME_ROWS, ONE_FRAME_COUNTS, ONE_FRAME_TRACE],
    },
];

/// Boards that end by faults, and two boards of which each is at its end behind one load.
const ENDINGS: &[Run] = &[
    Run {
        words: "sched 1 --trace",
        input: b".page 0 0 ro\n.board\nld r1, 64(r0)\nst r1, 64(r0)\n.board\nhalt\n",
        status: Status::Ended,
        written: &[READ_ONLY_REPORT],
    },
    Run {
        words: "sched 1 --trace",
        input: b".board\nld r1, 2(r0)\n",
        status: Status::Ended,
        written: &[ALIGN_REPORT],
    },
    Run {
        words: "sched 1 --trace",
        input: b".page 0 0 rw\n.board\nli r1, 4096\nld r2, 0(r1)\n",
        status: Status::Ended,
        written: &[UNMAPPED_REPORT],
    },
    Run {
        words: "sched 1 --trace",
        input: b".board\nld r1, 0(r0)\n",
        status: Status::Ended,
        written: &[NO_PAGE_REPORT],
    },
    Run {
        words: "sched 1 --trace",
        input: TWO_LOADS,
        status: Status::Fine,
        written: &[TWO_LOADS_REPORT],
    },
];

/// An object, and a generated text with its object.
const OBJECTS: &[Run] = &[
    Run {
        words: "sched 1",
        input: SUM_OBJECT,
        status: Status::Fine,
        written: &[SUM_ROWS],
    },
    Run {
        words: "sched 1 --counts --trace",
        input: SUM_OBJECT,
        status: Status::Fine,
        written: &[SUM_ROWS, SUM_COUNTS, SUM_TRACE],
    },
    Run {
        words: "sched 1",
        input: LEAST,
        status: Status::Fine,
        written: &[LEAST_ROWS],
    },
    Run {
        words: "sched 1",
        input: LEAST_OBJECT,
        status: Status::Fine,
        written: &[LEAST_ROWS],
    },
];

// ---- objects, generated texts, and what is refused

/// Words, an input, and what is written where that is no report.
const DONE: &[(&str, &[u8], &[u8])] = &[
    ("asm", SUM, SUM_OBJECT),
    // A word may stand before its page, and what can't be loaded is assembled.
    (
        "asm",
        b".word 0 64 41\n.page 0 0 rw\n.board\nld r1, 64(r0)\naddi r1, r1, 1\nst r1, 64(r0)\nhalt\n",
        SUM_OBJECT,
    ),
    ("asm", SEGMENT_255, SEGMENT_255_OBJECT),
    ("asm", PAGE_TWICE, PAGE_TWICE_OBJECT),
    ("asm", LEAST, LEAST_OBJECT),
    // Nothing is read.
    ("gen 0 1 1", b"", LEAST),
    ("gen 00 01 1", b"\x93", LEAST),
];

/// The step of each of twelve boards, as they are generated of the greatest number, and the byte of its word.
const STEPS: [(&[u8], &[u8]); 12] = [
    (b"296", b"0"),
    (b"313", b"4"),
    (b"330", b"8"),
    (b"347", b"12"),
    (b"364", b"16"),
    (b"381", b"20"),
    (b"398", b"24"),
    (b"415", b"28"),
    (b"432", b"32"),
    (b"449", b"36"),
    (b"466", b"40"),
    (b"483", b"44"),
];

/// Words, an input that is refused, and why.
const REFUSED: &[(&str, Pieces, &str)] = &[
    ("sched 1", &[SEGMENT_255], "load: segment 255"),
    ("sched 1", &[SEGMENT_255_OBJECT], "load: segment 255"),
    ("sched 1", &[PAGE_TWICE], "load: page twice 0000000000"),
    (
        "sched 1",
        &[PAGE_TWICE_OBJECT],
        "load: page twice 0000000000",
    ),
    // `asm` reads texts alone.
    ("asm", &[SUM_OBJECT], "line 1 column 1: bad byte"),
    ("asm", &[], "line 1 column 1: no board"),
    ("asm", &[b".board\njmp on\n"], "line 2 column 5: no label"),
    // An input is an object by its first byte.
    ("sched 1", &[b"\x93SPS\0"], "byte 0: magic"),
    ("sched 1", &[b"\x93SP"], "byte 0: short"),
    ("sched 1", &[b"\x92SPR"], "line 1 column 1: bad byte"),
    ("sched 1", &[SUM_OBJECT, b"\0"], "byte 64: trailing"),
];

/// Words that are not of the table, and the number of the first that offends.
const WORDS: &[(&str, u32)] = &[
    ("", 1),
    ("sched", 2),
    // without threads there is no `run`
    ("run", 1),
    ("run more", 1),
    ("asm more", 2),
    ("asm --trace", 2),
    ("gen 7 13 64", 3),
    ("gen 0 13 513", 3),
    ("gen 0 1 0", 4),
    ("gen 0 1 513", 4),
    ("gen 7 4", 4),
    ("check --trace", 2),
    ("sched 1 --ahead 129", 4),
    ("check --budget 0", 3),
];

/// Fields of the object of the sum, each by its first byte, with a content for which the object is refused, and why.
/// Where a count is within its range, other fields come to stand elsewhere, and the first of those is at fault.
const FIELDS: &[(usize, u32, &str)] = &[
    (0, 0x9353_5053, "byte 0: magic"),
    (4, 0, "byte 4: version"),
    (4, 2, "byte 4: version"),
    // The counts of boards, pages and words, and the length of the board's code.
    (8, 0, "byte 8: field"),
    (8, 12, "byte 52: bad instruction"),
    (8, 13, "byte 8: field"),
    (12, 0, "byte 48: field"),
    (12, 2048, "byte 56: field"),
    (12, 2049, "byte 12: field"),
    (16, 0, "byte 52: trailing"),
    (16, 65536, "byte 64: short"),
    (16, 65537, "byte 16: field"),
    (24, 3, "byte 40: field"),
    (24, 4096, "byte 44: bad instruction"),
    (24, 4097, "byte 24: field"),
    // Words that are no instructions.
    (28, 0, "byte 28: bad instruction"),
    (40, 0x0400_0001, "byte 40: bad instruction"),
    (40, 0x6800_0000, "byte 40: bad instruction"),
    // The page and its protection, and the word's segment and offset.
    (44, 0x0400_0000, "byte 44: field"),
    (44, 0x03ff_ffff, "load: segment 255"),
    (48, 3, "byte 48: field"),
    (52, 256, "byte 52: field"),
    (52, 255, "load: segment 255"),
    (52, 1, "load: word outside 0040000040"),
    (56, 66, "byte 56: field"),
    (56, 0x4000_0000, "byte 56: field"),
    (56, 0x3fff_fffc, "load: word outside 003ffffffc"),
    // The board's segments.
    (20, 0xff01_0203, "load: segment 255"),
];

/// The last field with another content, and the page's protection: the status, and what is written.
const ALLOWED: &[(usize, u32, Status, Pieces)] = &[
    (
        60,
        0xffff_ffff,
        Status::Fine,
        &[b"board 0 halted retired 4\n", ZEROS],
    ),
    (
        48,
        1,
        Status::Ended,
        &[
            b"board 0 faulted protection 0000000040 retired 2\n",
            FORTY_TWO,
        ],
    ),
    (
        48,
        0,
        Status::Ended,
        &[b"board 0 faulted protection 0000000040 retired 0\n", ZEROS],
    ),
];

/// Registers: all 0, and 42 in the first after register 0.
const ZEROS: &[u8] =
    b"regs 0 00000000 00000000 00000000 00000000 00000000 00000000 00000000 00000000 00000000 00000000 00000000 00000000 00000000 00000000 00000000 00000000\n";

const FORTY_TWO: &[u8] =
    b"regs 0 00000000 0000002a 00000000 00000000 00000000 00000000 00000000 00000000 00000000 00000000 00000000 00000000 00000000 00000000 00000000 00000000\n";

/// Four boards and 64 pages, as they are generated: what the boards come to, and the counts before those of the bus,
/// which the schedule decides.
const FOUR_BOARDS: &[u8] = b"board 0 halted retired 910\n\
    regs 0 00000000 00040000 00000008 00000000 00000600 00000010 00000000 00001000 00000000 00000000 00000000 00000000 00000000 00000000 00000000 00000000\n\
    shown 0 1536\n\
    board 1 halted retired 910\n\
    regs 1 00000000 00040004 00000019 00000000 000012c0 00000032 00000000 00001000 00000000 00000000 00000000 00000000 00000000 00000000 00000000 00000000\n\
    shown 1 4800\n\
    board 2 halted retired 910\n\
    regs 2 00000000 00040008 0000002a 00000000 00001f80 00000054 00000000 00001000 00000000 00000000 00000000 00000000 00000000 00000000 00000000 00000000\n\
    shown 2 8064\n\
    board 3 halted retired 910\n\
    regs 3 00000000 0004000c 0000003b 00000000 00002c40 00000076 00000000 00001000 00000000 00000000 00000000 00000000 00000000 00000000 00000000 00000000\n\
    shown 3 11328\n\
    loads 512\nstores 512\ntas 0\n\
    align 0\nunmapped 0\nmissing 64\nleaving 0\nprotection 0\nreference 0\ndirty 64\n";

/// The counts behind those.
const FOUR_BOARDS_END: &[u8] =
    b"flushes 0\nleaves 0\nouts 0\nins 64\nsetrefs 0\nsetdirties 64\nclearrefs 0\n";

// ---- how they are shown

/// The bytes of pieces.
pub(crate) fn joined(alloc: Global, pieces: &[&[u8]]) -> Result<Vec<u8>, AllocError> {
    let mut bytes = Vec::new(alloc);
    for piece in pieces {
        bytes.extend_from_slice(piece)?;
    }
    Ok(bytes)
}

/// The verdict that is told, where one is.
fn verdict_of(told: Told) -> Option<Verdict> {
    match told {
        Told::Nothing | Told::Report => None,
        Told::Good(entries) => Some(Verdict::Good { entries }),
        Told::Bad(at, clause, wanted, found) => Some(Verdict::Bad {
            at,
            clause,
            wanted,
            found,
        }),
    }
}

/// Whether this is what the caller was told.
pub(crate) fn is_told<B>(outcome: &Outcome<B>, told: Told) -> bool {
    outcome.report.is_some() == (told == Told::Report) && outcome.verdict == verdict_of(told)
}

/// Whether this is the answer to words and an input, and the swap is left alone where no board was run.
pub(crate) fn is_answered(
    alloc: Global,
    words: &str,
    input: &[u8],
    status: Status,
    told: Told,
    written: &[u8],
) -> Result<bool, AllocError> {
    let words = words_in(alloc, words)?;
    let swap = SwapTest::new(alloc, Vec::new(alloc), Vec::new(alloc));
    let (outcome, sink) = answer_to(alloc, &words, input, swap)?;
    let alone = outcome.backing.reads() == 0 && outcome.backing.writes() == 0;
    Ok(
        outcome.status == status
            && is_told(&outcome, told)
            && sink.bytes() == written
            && (alone || told == Told::Report),
    )
}

/// Whether a run is reported as the table says.
fn is_reported(alloc: Global, run: &Run) -> Result<bool, AllocError> {
    let written = joined(alloc, run.written)?;
    is_answered(
        alloc,
        run.words,
        run.input,
        run.status,
        Told::Report,
        &written,
    )
}

/// Whether an input is refused, and for this.
pub(crate) fn is_refused(
    alloc: Global,
    words: &str,
    input: &[u8],
    why: &str,
) -> Result<bool, AllocError> {
    let line = format!(in alloc; "refused: {why}\n")?;
    is_answered(
        alloc,
        words,
        input,
        Status::Input,
        Told::Nothing,
        line.as_bytes(),
    )
}

/// Whether words are refused, at the one with this number.
fn is_no_command(alloc: Global, words: &str, number: u32) -> Result<bool, AllocError> {
    let line = format!(in alloc; "refused: word {number}\n")?;
    is_answered(
        alloc,
        words,
        SUM,
        Status::Words,
        Told::Nothing,
        line.as_bytes(),
    )
}

/// What words and an input give, with a swap that does not fail.
fn bytes_of(alloc: Global, words: &str, input: &[u8]) -> Result<Vec<u8>, AllocError> {
    let words = words_in(alloc, words)?;
    let (_, sink) = answer_to(alloc, &words, input, SwapMemory::new(alloc))?;
    sink.bytes().to_vec(alloc)
}

/// The generated text of the greatest number, for twelve boards and one page.
fn greatest(alloc: Global) -> Result<Vec<u8>, AllocError> {
    let mut text = b"; gen 4294967295 12 1\n.page 0 0 rw\n".to_vec(alloc)?;
    for (step, word) in STEPS {
        for piece in [TO_STEP, step, TO_WORD, word, TO_END] {
            text.extend_from_slice(piece)?;
        }
    }
    Ok(text)
}

/// The lines of the counts of the bus, as the history has them.
fn bus_counts(alloc: Global, history: &[Entry]) -> Result<String, AllocError> {
    let [mut fills, mut claims, mut writebacks, mut refreshes] = [0u64; 4];
    for entry in history {
        match entry {
            Entry::Fill { .. } => fills = fills.wrapping_add(1),
            Entry::Claim { .. } => claims = claims.wrapping_add(1),
            Entry::WriteBack { .. } => writebacks = writebacks.wrapping_add(1),
            Entry::Refresh { .. } => refreshes = refreshes.wrapping_add(1),
            _ => {}
        }
    }
    format!(in alloc;
        "fills {fills}\nclaims {claims}\nwritebacks {writebacks}\nrefreshes {refreshes}\n"
    )
}

/// The text for four boards and 64 pages, as it is generated.
pub(crate) fn four_boards(alloc: Global) -> Result<Vec<u8>, AllocError> {
    bytes_of(alloc, "gen 7 4 64", b"")
}

/// Whether these words bring that text to what was worked out by hand.
pub(crate) fn are_four_boards(alloc: Global, words: &str) -> Result<bool, AllocError> {
    let text = four_boards(alloc)?;
    let words = words_in(alloc, words)?;
    let (outcome, sink) = answer_to(alloc, &words, &text, SwapMemory::new(alloc))?;
    let Some(report) = &outcome.report else {
        return Ok(false);
    };
    let bus = bus_counts(alloc, report.history.as_slice())?;
    let written = joined(alloc, &[FOUR_BOARDS, bus.as_bytes(), FOUR_BOARDS_END])?;
    Ok(outcome.status == Status::Fine && sink.bytes() == written.as_slice())
}

#[test]
fn commands_write_what_was_worked_out_by_hand(rt: HostRuntime) -> Result<(), Fail> {
    let alloc = rt.alloc();
    for (table, runs) in [FLAGS, PAGES, ENDINGS, OBJECTS].into_iter().enumerate() {
        for (i, run) in runs.iter().enumerate() {
            assert!(rt; is_reported(alloc, run)?, "run {i} of table {table}");
        }
    }
    for (i, (words, input, written)) in DONE.iter().enumerate() {
        let holds = is_answered(alloc, words, input, Status::Fine, Told::Nothing, written)?;
        assert!(rt; holds, "done {i}");
    }
    for (i, (words, input, why)) in REFUSED.iter().enumerate() {
        let input = joined(alloc, input)?;
        assert!(rt; is_refused(alloc, words, &input, why)?, "refusal {i}");
    }
    for (i, (words, number)) in WORDS.iter().enumerate() {
        assert!(rt; is_no_command(alloc, words, *number)?, "words {i}");
    }
    assert_eq!(rt;
        bytes_of(alloc, "gen 4294967295 12 1", b"")?,
        greatest(alloc)?
    );
    assert_eq!(rt; LEAST.len(), 255);
    assert!(rt; are_four_boards(alloc, "sched 7 --counts")?);
    Ok(())
}

// ---- objects, field by field

/// The object of the sum with another field.
fn with_field(alloc: Global, from: usize, content: u32) -> Result<Vec<u8>, AllocError> {
    let field = content.to_be_bytes();
    let mut bytes = Vec::new(alloc);
    for (at, byte) in SUM_OBJECT.iter().enumerate() {
        let place = at.wrapping_sub(from);
        bytes.push(if place < 4 { field[place] } else { *byte })?;
    }
    Ok(bytes)
}

/// Whether so many bytes of the object of the sum are refused at the field that is not whole. Without a byte they are
/// a text.
fn is_short(alloc: Global, words: &str, length: usize) -> Result<bool, AllocError>
    requires { length < 64 }
{
    let front = SUM_OBJECT.get(..length).unwrap_or(SUM_OBJECT);
    if length == 0 {
        return is_refused(alloc, words, front, "line 1 column 1: no board");
    }
    let field = 4 * (length / 4);
    let why = format!(in alloc; "byte {field}: short")?;
    is_refused(alloc, words, front, why.as_str())
}

/// The text of the largest unit: 12 boards of 4096 instructions, 2048 pages and 65,536 words.
fn largest(alloc: Global) -> Result<Vec<u8>, AllocError> {
    let mut text = Vec::new(alloc);
    for page in 0..2048u32 {
        let line = format!(in alloc; ".page 0 {page} rw\n")?;
        text.extend_from_slice(line.as_bytes())?;
    }
    for _ in 0..65536u32 {
        text.extend_from_slice(b".word 0 0 1\n")?;
    }
    for _ in 0..12u32 {
        text.extend_from_slice(b".board\n")?;
        for _ in 0..4096u32 {
            text.extend_from_slice(b"nop\n")?;
        }
    }
    Ok(text)
}

/// Whether its object has so many bytes, and is run: each board does its instructions and the `halt` behind them.
fn is_largest(alloc: Global) -> Result<bool, AllocError> {
    let object = bytes_of(alloc, "asm", &largest(alloc)?)?;
    let words = words_in(alloc, "sched 1")?;
    let (outcome, _) = answer_to(alloc, &words, &object, SwapMemory::new(alloc))?;
    let Some(report) = &outcome.report else {
        return Ok(false);
    };
    let boards = report.boards.as_slice();
    Ok(
        object.len() == 999_540
            && outcome.status == Status::Fine
            && boards.len() == 12
            && boards.iter().all(|board| board.retired == 4097),
    )
}

#[test]
fn objects_are_read_field_by_field(rt: HostRuntime) -> Result<(), Fail> {
    let alloc = rt.alloc();
    for (i, (from, content, why)) in FIELDS.iter().enumerate() {
        let object = with_field(alloc, *from, *content)?;
        assert!(rt; is_refused(alloc, "sched 1", &object, why)?, "field {i}");
    }
    for (i, (from, content, status, written)) in ALLOWED.iter().enumerate() {
        let object = with_field(alloc, *from, *content)?;
        let written = joined(alloc, written)?;
        let holds = is_answered(alloc, "sched 1", &object, *status, Told::Report, &written)?;
        assert!(rt; holds, "allowed {i}");
    }
    for length in 0..64 {
        assert!(rt; is_short(alloc, "sched 1", length)?, "{length} bytes");
        assert!(rt;
            is_short(alloc, "sched 1", length)?,
            "{length} bytes, by a schedule"
        );
    }
    assert!(rt; is_largest(alloc)?);
    Ok(())
}
