//! Runs whose histories were worked out by hand, entry by entry.

use crate::lines::{CLAIM_TABLE, FILL_ROOT, FILL_TABLE, Line, TABLE, line_of};
use crate::runs::report_of;
use crate::texts::{ONE_FRAME, SUM, SUM_AT_ZERO, THREE_PAGES, TWO_BLOCKS};
use spur_flat::AccessKind::{Load, Store};
use spur_flat::FaultKind::{Align, Dirty, Missing, Reference, Unmapped};
use std::alloc::{AllocError, Global};
use std::test::Fail;

/// Words, a text, and the entries of its history, all of board 0.
struct Run {
    words: &'static [&'static str],
    text: &'static [u8],
    lines: &'static [Line],
}

const RUNS: &[Run] = &[
    // A page comes in by a read, is made dirty by a write, and its block is claimed. The page's entry is changed in the cache.
    Run {
        words: &["sched", "1"],
        text: SUM,
        lines: &[
            FILL_ROOT,
            FILL_TABLE,
            Line::Fault(Missing, Load, 64),
            CLAIM_TABLE,
            Line::In(0, 65),
            Line::Read(64),
            Line::Load(64, 41),
            Line::Fault(Dirty, Store, 64),
            Line::SetDirty(0),
            Line::Refresh(64),
            Line::Claim(64),
            Line::Store(64, 42),
        ],
    },
    // The blocks of the word, of its entry and of the root entry share one line.
    Run {
        words: &["sched", "1", "--lines", "16"],
        text: SUM_AT_ZERO,
        lines: &[
            FILL_ROOT,
            FILL_TABLE,
            Line::Fault(Missing, Load, 0),
            CLAIM_TABLE,
            Line::In(0, 65),
            Line::WriteBack(TABLE),
            Line::Read(0),
            Line::Load(0, 41),
            FILL_ROOT,
            FILL_TABLE,
            Line::Fault(Dirty, Store, 0),
            CLAIM_TABLE,
            Line::SetDirty(0),
            Line::WriteBack(TABLE),
            Line::Write(0),
            Line::Store(0, 42),
        ],
    },
    // The dirty copy of a second block is refreshed without a fault.
    Run {
        words: &["sched", "1"],
        text: TWO_BLOCKS,
        lines: &[
            FILL_ROOT,
            FILL_TABLE,
            Line::Fault(Missing, Load, 64),
            CLAIM_TABLE,
            Line::In(0, 65),
            Line::Read(64),
            Line::Load(64, 0),
            Line::Read(96),
            Line::Load(96, 0),
            Line::Fault(Dirty, Store, 96),
            Line::SetDirty(0),
            Line::Refresh(96),
            Line::Claim(96),
            Line::Store(96, 0),
            Line::Refresh(64),
            Line::Claim(64),
            Line::Store(64, 0),
        ],
    },
    // The third page pushes out the first. A hit does not look at the reference bit, which the clock has cleared; a miss does.
    Run {
        words: &["sched", "1", "--frames", "2"],
        text: THREE_PAGES,
        lines: &[
            FILL_ROOT,
            FILL_TABLE,
            Line::Fault(Missing, Load, 64),
            CLAIM_TABLE,
            Line::In(0, 65),
            Line::Read(64),
            Line::Load(64, 0),
            Line::Fault(Missing, Load, 4160),
            Line::In(4096, 66),
            Line::Read(4160),
            Line::Load(4160, 0),
            Line::Fault(Missing, Load, 8256),
            Line::ClearRef(0),
            Line::ClearRef(4096),
            Line::Leave(0),
            Line::Flush(64, 0),
            Line::Out(0),
            Line::In(8192, 65),
            Line::Read(8256),
            Line::Load(8256, 0),
            Line::Load(4160, 0),
            Line::Fault(Reference, Load, 4192),
            Line::SetRef(4096),
            Line::Read(4192),
            Line::Load(4192, 0),
        ],
    },
    // Two pages that are written share one frame: each goes out dirty, and the first comes in again with what was stored.
    Run {
        words: &["sched", "1", "--frames", "1"],
        text: ONE_FRAME,
        lines: &[
            FILL_ROOT,
            FILL_TABLE,
            Line::Fault(Missing, Store, 64),
            CLAIM_TABLE,
            Line::In(0, 65),
            Line::Fault(Dirty, Store, 64),
            Line::SetDirty(0),
            Line::Write(64),
            Line::Store(64, 5),
            Line::Fault(Missing, Store, 4160),
            Line::ClearRef(0),
            Line::Leave(0),
            Line::Flush(64, 0),
            Line::Out(0),
            Line::In(4096, 65),
            Line::Fault(Dirty, Store, 4160),
            Line::SetDirty(4096),
            Line::Write(4160),
            Line::Store(4160, 5),
            Line::Fault(Missing, Load, 64),
            Line::ClearRef(4096),
            Line::Leave(4096),
            Line::Flush(4160, 0),
            Line::Out(4096),
            Line::In(0, 65),
            Line::Read(64),
            Line::Load(64, 5),
        ],
    },
    // An address that is no multiple of 4 is looked for nowhere.
    Run {
        words: &["sched", "1"],
        text: b".board\nld r1, 2(r0)\n",
        lines: &[Line::Fault(Align, Load, 2)],
    },
    // A page that is not declared, beside one that is.
    Run {
        words: &["sched", "1"],
        text: b".page 0 0 rw\n.board\nli r1, 4096\nld r2, 0(r1)\n",
        lines: &[FILL_ROOT, FILL_TABLE, Line::Fault(Unmapped, Load, 4096)],
    },
    // No page at all: there is no page of the page table either.
    Run {
        words: &["sched", "1"],
        text: b".board\nld r1, 0(r0)\n",
        lines: &[FILL_ROOT, Line::Fault(Unmapped, Load, 0)],
    },
];

/// Whether the history of a run is the one of the table.
fn is_told(alloc: Global, run: &Run) -> Result<bool, AllocError> {
    let Some(report) = report_of(alloc, run.words, run.text)? else {
        return Ok(false);
    };
    let entries = report.history.as_slice();
    Ok(
        entries.len() == run.lines.len()
            && entries
                .iter()
                .zip(run.lines.iter())
                .all(|(entry, line)| line_of(entry, 0) == Some(*line)),
    )
}

#[test]
fn histories_are_those_worked_out_by_hand(rt: HostRuntime) -> Result<(), Fail> {
    for (i, run) in RUNS.iter().enumerate() {
        assert!(rt; is_told(rt.alloc(), run)?, "run {i}");
    }
    Ok(())
}
