//! Runs of the top call with swap objects that fail, and with one that tells nothing of its pages.

use crate::lines::{Line, line_of};
use crate::runs::answer_of;
use crate::texts::{ONE_FRAME_BESIDE, ONE_FRAME_READ};
use crate::untold::Untold;
use spur_board::Ending;
use spur_flat::AccessKind::Store;
use spur_flat::FaultKind::Missing;
use spur_program::{Outcome, Status};
use spur_swap::{Backing, SwapTest};
use std::alloc::{AllocError, Global};
use std::test::Fail;

// ---- the swap is filled before the run

/// Three pages, of which the second in the order of the slots is all zeros.
const FILLED: &[u8] =
    b".page 0 1 rw\n.page 0 2 rw\n.page 0 0 rw\n.word 0 64 3\n.word 0 4160 7\n.board\nhalt\n";

/// The writes that are to fail, the status, how many calls there were, and the writes that passed: slots and words.
struct Filling {
    fail: &'static [u32],
    status: Status,
    writes: u32,
    written: &'static [(u32, u32)],
}

const FILLINGS: &[Filling] = &[
    Filling {
        fail: &[],
        status: Status::Fine,
        writes: 2,
        written: &[(0, 7), (2, 3)],
    },
    Filling {
        fail: &[2],
        status: Status::SwapAtStart,
        writes: 2,
        written: &[(0, 7)],
    },
    Filling {
        fail: &[1],
        status: Status::SwapAtStart,
        writes: 1,
        written: &[],
    },
];

#[test]
fn pages_are_written_in_slot_order_before_the_run(rt: HostRuntime) -> Result<(), Fail> {
    let alloc = rt.alloc();
    for (i, row) in FILLINGS.iter().enumerate() {
        let swap = Untold::new(alloc, Vec::new(alloc), row.fail.to_vec(alloc)?);
        let (outcome, sink) = answer_of(alloc, &["sched", "1"], FILLED, swap)?;
        assert_eq!(rt; outcome.status, row.status, "row {i}");
        assert_eq!(rt; outcome.backing.reads(), 0, "row {i}");
        assert_eq!(rt; outcome.backing.writes(), row.writes, "row {i}");
        assert_eq!(rt; outcome.backing.written(), row.written, "row {i}");
        assert_eq!(rt;
            sink.bytes().is_empty(),
            row.status == Status::SwapAtStart,
            "row {i}"
        );
    }
    Ok(())
}

// ---- the swap fails in the run

/// A call of the swap that fails in the run of two pages under one frame, how many instructions board 0 has completed when it
/// ends by that, how many entries there are, and the last of them.
struct Failing {
    reads: &'static [u32],
    writes: &'static [u32],
    retired: u32,
    entries: usize,
    last: Line,
}

const FAILING: &[Failing] = &[
    Failing {
        reads: &[1],
        writes: &[],
        retired: 2,
        entries: 3,
        last: Line::Fault(Missing, Store, 64),
    },
    Failing {
        reads: &[2],
        writes: &[],
        retired: 3,
        entries: 14,
        last: Line::Out(0),
    },
    Failing {
        reads: &[3],
        writes: &[],
        retired: 4,
        entries: 24,
        last: Line::Out(4096),
    },
    Failing {
        reads: &[],
        writes: &[1],
        retired: 3,
        entries: 13,
        last: Line::Flush(64, 0),
    },
    Failing {
        reads: &[],
        writes: &[2],
        retired: 4,
        entries: 23,
        last: Line::Flush(4160, 0),
    },
];

/// Whether board 0 ends by this swap object as the table says, and board 1 halts.
fn ends_by_swap<B: Backing + Drop>(
    alloc: Global,
    row: &Failing,
    swap: B,
) -> Result<bool, AllocError> {
    let words = ["sched", "1", "--frames", "1"];
    let (outcome, _) = answer_of(alloc, &words, ONE_FRAME_BESIDE, swap)?;
    let Outcome {
        status,
        report,
        verdict: _,
        backing: _,
    } = outcome;
    let Some(report) = report else {
        return Ok(false);
    };
    let [first, second] = report.boards.as_slice() else {
        return Ok(false);
    };
    let entries = report.history.as_slice();
    let Some(last) = entries.last() else {
        return Ok(false);
    };
    Ok(
        status == Status::Ended
            && first.ending == Some(Ending::SwapFault)
            && first.retired == row.retired
            && second.ending == Some(Ending::Halted)
            && entries.len() == row.entries
            && line_of(last, 0) == Some(row.last),
    )
}

#[test]
fn a_failing_swap_ends_the_board_that_asked(rt: HostRuntime) -> Result<(), Fail> {
    let alloc = rt.alloc();
    for (i, row) in FAILING.iter().enumerate() {
        let told = SwapTest::new(alloc, row.reads.to_vec(alloc)?, row.writes.to_vec(alloc)?);
        assert!(rt; ends_by_swap(alloc, row, told)?, "row {i}");
        let untold = Untold::new(alloc, row.reads.to_vec(alloc)?, row.writes.to_vec(alloc)?);
        assert!(rt; ends_by_swap(alloc, row, untold)?, "row {i}, untold");
    }
    Ok(())
}

// ---- the swap does not fail

#[test]
fn pages_that_are_written_go_out_to_their_slots(rt: HostRuntime) -> Result<(), Fail> {
    let alloc = rt.alloc();
    let swap = Untold::new(alloc, Vec::new(alloc), Vec::new(alloc));
    let words = ["sched", "1", "--frames", "1"];
    let (outcome, _) = answer_of(alloc, &words, ONE_FRAME_BESIDE, swap)?;
    assert_eq!(rt; outcome.status, Status::Fine);
    assert_eq!(rt; outcome.backing.reads(), 3);
    assert_eq!(rt; outcome.backing.writes(), 2);
    assert_eq!(rt;
        outcome.backing.written(),
        [(0u32, 5u32), (1, 5)].as_slice()
    );
    Ok(())
}

#[test]
fn pages_that_are_read_alone_are_not_written(rt: HostRuntime) -> Result<(), Fail> {
    let alloc = rt.alloc();
    let swap = SwapTest::new(alloc, Vec::new(alloc), Vec::new(alloc));
    let (outcome, _) = answer_of(
        alloc,
        &["sched", "1", "--frames", "1"],
        ONE_FRAME_READ,
        swap,
    )?;
    assert_eq!(rt; outcome.status, Status::Fine);
    assert_eq!(rt; outcome.backing.reads(), 3);
    assert_eq!(rt; outcome.backing.writes(), 0);
    Ok(())
}
