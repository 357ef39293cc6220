//! The top call on words and texts whose answers were worked out by hand.

ghost use Rattle.std.specs.Prelude.{◌<◌};

use crate::runs::{answer_of, report_of, words_of};
use crate::texts::SUM;
use spur_board::Ending;
use spur_io::{SinkMemory, SinkSure, SourceMemory, SourceSure};
use spur_program::{Outcome, Status, spur_alone};
use spur_swap::SwapMemory;
use std::alloc::{AllocError, Global};
use std::test::Fail;

/// Words and a text, the status, and all that is written.
struct Row {
    words: &'static [&'static str],
    text: &'static [u8],
    status: Status,
    written: &'static [u8],
}

const SCHED: &[&str] = &["sched", "1"];

const THREE: &[u8] = b".board\nli r1, 7\nli r2, 9\nhalt\n";

const ROWS: &[Row] = &[
    // 41 is loaded, 1 is added, and the sum is stored.
    Row {
        words: SCHED,
        text: SUM,
        status: Status::Fine,
        written: b"board 0 halted retired 4\nregs 0 00000000 0000002a 00000000 00000000 00000000 00000000 00000000 00000000 00000000 00000000 00000000 00000000 00000000 00000000 00000000 00000000\n",
    },
    // A `halt` alone.
    Row {
        words: SCHED,
        text: b".board\nhalt\n",
        status: Status::Fine,
        written: b"board 0 halted retired 1\nregs 0 00000000 00000000 00000000 00000000 00000000 00000000 00000000 00000000 00000000 00000000 00000000 00000000 00000000 00000000 00000000 00000000\n",
    },
    // A board without instructions: its first place holds a `halt`.
    Row {
        words: SCHED,
        text: b".board\n",
        status: Status::Fine,
        written: b"board 0 halted retired 1\nregs 0 00000000 00000000 00000000 00000000 00000000 00000000 00000000 00000000 00000000 00000000 00000000 00000000 00000000 00000000 00000000 00000000\n",
    },
    // What was stored is loaded again, from the second page; a sum past 2^32 - 1 begins again at 0, and register 0 stays 0.
    Row {
        words: SCHED,
        text: b".page 0 0 ro\n.page 1 5 rw\n.word 0 0 -1\n.board\nld r2, 0(r0)\naddi r3, r2, 2\nld r0, 0(r0)\naddi r4, r0, -1\nhalt\n",
        status: Status::Fine,
        written: b"board 0 halted retired 5\nregs 0 00000000 00000000 ffffffff 00000001 ffffffff 00000000 00000000 00000000 00000000 00000000 00000000 00000000 00000000 00000000 00000000 00000000\n",
    },
    // An address that is no multiple of 4.
    Row {
        words: SCHED,
        text: b".board\nld r1, 2(r0)\n",
        status: Status::Ended,
        written: b"board 0 faulted align 0000000002 retired 0\nregs 0 00000000 00000000 00000000 00000000 00000000 00000000 00000000 00000000 00000000 00000000 00000000 00000000 00000000 00000000 00000000 00000000\n",
    },
    // A page that is not declared, beside one that is.
    Row {
        words: SCHED,
        text: b".page 0 0 rw\n.board\nli r1, 4096\nld r2, 0(r1)\n",
        status: Status::Ended,
        written: b"board 0 faulted unmapped 0000001000 retired 1\nregs 0 00000000 00001000 00000000 00000000 00000000 00000000 00000000 00000000 00000000 00000000 00000000 00000000 00000000 00000000 00000000 00000000\n",
    },
    // No page at all: there is no page of the page table either.
    Row {
        words: SCHED,
        text: b".board\nld r1, 0(r0)\n",
        status: Status::Ended,
        written: b"board 0 faulted unmapped 0000000000 retired 0\nregs 0 00000000 00000000 00000000 00000000 00000000 00000000 00000000 00000000 00000000 00000000 00000000 00000000 00000000 00000000 00000000 00000000\n",
    },
    // A store to a page that may only be read, after a load from it.
    Row {
        words: SCHED,
        text: b".page 0 0 ro\n.word 0 64 7\n.board\nld r1, 64(r0)\nst r1, 64(r0)\nhalt\n",
        status: Status::Ended,
        written: b"board 0 faulted protection 0000000040 retired 1\nregs 0 00000000 00000007 00000000 00000000 00000000 00000000 00000000 00000000 00000000 00000000 00000000 00000000 00000000 00000000 00000000 00000000\n",
    },
    // A load from a page that allows nothing.
    Row {
        words: SCHED,
        text: b".page 0 0 none\n.board\nld r1, 0(r0)\n",
        status: Status::Ended,
        written: b"board 0 faulted protection 0000000000 retired 0\nregs 0 00000000 00000000 00000000 00000000 00000000 00000000 00000000 00000000 00000000 00000000 00000000 00000000 00000000 00000000 00000000 00000000\n",
    },
    // Two boards: the first is stopped by a page that may only be read, and the second goes on.
    Row {
        words: SCHED,
        text: b".page 0 0 ro\n.board\nld r1, 64(r0)\nst r1, 64(r0)\n.board\nhalt\n",
        status: Status::Ended,
        written: b"board 0 faulted protection 0000000040 retired 1\nregs 0 00000000 00000000 00000000 00000000 00000000 00000000 00000000 00000000 00000000 00000000 00000000 00000000 00000000 00000000 00000000 00000000\nboard 1 halted retired 1\nregs 1 00000000 00000000 00000000 00000000 00000000 00000000 00000000 00000000 00000000 00000000 00000000 00000000 00000000 00000000 00000000 00000000\n",
    },
    // A word may stand before its page.
    Row {
        words: SCHED,
        text: b".word 0 64 41\n.page 0 0 rw\n.board\nld r1, 64(r0)\nhalt\n",
        status: Status::Fine,
        written: b"board 0 halted retired 2\nregs 0 00000000 00000029 00000000 00000000 00000000 00000000 00000000 00000000 00000000 00000000 00000000 00000000 00000000 00000000 00000000 00000000\n",
    },
    // A text without a board, and one whose label is nowhere.
    Row {
        words: SCHED,
        text: b"",
        status: Status::Input,
        written: b"refused: line 1 column 1: no board\n",
    },
    Row {
        words: SCHED,
        text: b".board\njmp on\nhalt\n",
        status: Status::Input,
        written: b"refused: line 2 column 5: no label\n",
    },
    // Labels, comments, blanks of all kinds, hexadecimal numbers, and a last line without its line feed.
    Row {
        words: SCHED,
        text: b"; nothing\n\n \t.board\r\n.seg 0 1 2 0x3\nfirst : li r1,0x10 ; 16\nshow r1\nbeq r0, r0, end\nlih r1, 1\nend:\n  halt",
        status: Status::Fine,
        written: b"board 0 halted retired 4\nregs 0 00000000 00000010 00000000 00000000 00000000 00000000 00000000 00000000 00000000 00000000 00000000 00000000 00000000 00000000 00000000 00000000\nshown 0 16\n",
    },
    // A program without an end is ended by its budget.
    Row {
        words: &["sched", "1", "--budget", "3"],
        text: b".board\nagain: nop\njmp again\n",
        status: Status::Ended,
        written: b"board 0 spent retired 3\nregs 0 00000000 00000000 00000000 00000000 00000000 00000000 00000000 00000000 00000000 00000000 00000000 00000000 00000000 00000000 00000000 00000000\n",
    },
    Row {
        words: &["sched", "1", "--budget", "3"],
        text: b".board\nnop\nnop\nhalt\n",
        status: Status::Fine,
        written: b"board 0 halted retired 3\nregs 0 00000000 00000000 00000000 00000000 00000000 00000000 00000000 00000000 00000000 00000000 00000000 00000000 00000000 00000000 00000000 00000000\n",
    },
    // A `halt` that meets the budget is a halt; a budget that is met before it ends the board there.
    Row {
        words: &["sched", "1", "--budget", "3"],
        text: THREE,
        status: Status::Fine,
        written: b"board 0 halted retired 3\nregs 0 00000000 00000007 00000009 00000000 00000000 00000000 00000000 00000000 00000000 00000000 00000000 00000000 00000000 00000000 00000000 00000000\n",
    },
    Row {
        words: &["sched", "1", "--budget", "2"],
        text: THREE,
        status: Status::Ended,
        written: b"board 0 spent retired 2\nregs 0 00000000 00000007 00000009 00000000 00000000 00000000 00000000 00000000 00000000 00000000 00000000 00000000 00000000 00000000 00000000 00000000\n",
    },
    // An access that meets the budget is done first; one that faults counts nothing.
    Row {
        words: &["sched", "1", "--budget", "1"],
        text: SUM,
        status: Status::Ended,
        written: b"board 0 spent retired 1\nregs 0 00000000 00000029 00000000 00000000 00000000 00000000 00000000 00000000 00000000 00000000 00000000 00000000 00000000 00000000 00000000 00000000\n",
    },
    Row {
        words: &["sched", "1", "--budget", "1"],
        text: b".board\nld r1, 2(r0)\n",
        status: Status::Ended,
        written: b"board 0 faulted align 0000000002 retired 0\nregs 0 00000000 00000000 00000000 00000000 00000000 00000000 00000000 00000000 00000000 00000000 00000000 00000000 00000000 00000000 00000000 00000000\n",
    },
    // Words that are not of the table.
    Row {
        words: &["sched", "1", "more"],
        text: SUM,
        status: Status::Words,
        written: b"refused: word 3\n",
    },
    Row {
        words: &["sched"],
        text: SUM,
        status: Status::Words,
        written: b"refused: word 2\n",
    },
    // What cannot be loaded: of two reasons the one that is looked for first is told.
    Row {
        words: SCHED,
        text: b".page 0 0 rw\n.page 0 0 ro\n.board\n.seg 255 0 0 0\nhalt\n",
        status: Status::Input,
        written: b"refused: load: segment 255\n",
    },
    Row {
        words: SCHED,
        text: b".page 0 0 rw\n.page 1 5 ro\n.page 1 5 rw\n.word 0 4096 1\n.board\nhalt\n",
        status: Status::Input,
        written: b"refused: load: page twice 0040005000\n",
    },
    Row {
        words: &["sched", "1"],
        text: b".page 0 0 rw\n.word 0 4100 1\n.board\nhalt\n",
        status: Status::Input,
        written: b"refused: load: word outside 0000001004\n",
    },
    // The least machine: one frame, 16 lines.
    Row {
        words: &["sched", "1", "--frames", "1", "--lines", "16"],
        text: SUM,
        status: Status::Fine,
        written: b"board 0 halted retired 4\nregs 0 00000000 0000002a 00000000 00000000 00000000 00000000 00000000 00000000 00000000 00000000 00000000 00000000 00000000 00000000 00000000 00000000\n",
    },
];

fn is_answered(alloc: Global, row: &Row) -> Result<bool, AllocError> {
    let (outcome, sink) = answer_of(alloc, row.words, row.text, SwapMemory::new(alloc))?;
    Ok(outcome.status == row.status && sink.bytes() == row.written)
}

#[test]
fn texts_and_words_are_answered(rt: HostRuntime) -> Result<(), Fail> {
    for (i, row) in ROWS.iter().enumerate() {
        assert!(rt; is_answered(rt.alloc(), row)?, "row {i}");
    }
    Ok(())
}

#[test]
fn a_source_that_fails_leaves_nothing_written(rt: HostRuntime) -> Result<(), Fail> {
    let alloc = rt.alloc();
    let words = words_of(alloc, SCHED)?;
    let mut source = SourceMemory::new(SUM.to_vec(alloc)?, 4096, [1].to_vec(alloc)?);
    let mut sink = SinkSure::new(alloc, 64)?;
    let outcome = spur_alone(
        alloc,
        &words,
        &mut source,
        &mut sink,
        SwapMemory::new(alloc),
        Vec::new(alloc),
    );
    assert_eq!(rt; outcome.status, Status::ReadFault);
    assert_eq!(rt; sink.bytes().len(), 0);
    Ok(())
}

#[test]
fn a_sink_that_fails_has_a_front_of_the_line(rt: HostRuntime) -> Result<(), Fail> {
    let alloc = rt.alloc();
    let words = words_of(alloc, SCHED)?;
    let mut source = SourceSure::new(Vec::new(alloc));
    let mut sink = SinkMemory::new(alloc, 64, 3, [2].to_vec(alloc)?)?;
    let outcome = spur_alone(
        alloc,
        &words,
        &mut source,
        &mut sink,
        SwapMemory::new(alloc),
        Vec::new(alloc),
    );
    assert_eq!(rt; outcome.status, Status::WriteFault);
    assert_eq!(rt; sink.bytes(), b"ref".as_slice());
    Ok(())
}

#[test]
fn one_byte_too_many_is_refused(rt: HostRuntime) -> Result<(), Fail> {
    let alloc = rt.alloc();
    let text = vec![in alloc; b';'; 1_048_577]?;
    let (outcome, sink) = answer_of(alloc, SCHED, &text, SwapMemory::new(alloc))?;
    assert_eq!(rt; outcome.status, Status::Input);
    assert_eq!(rt;
        sink.bytes(),
        b"refused: more than 1048576 bytes\n".as_slice()
    );
    Ok(())
}

/// A board that tries to take 64 words by test-and-set, and shows how many it took.
const TAKER: &[u8] =
    b".board\nli r4, 256\nnext: tas r2, 0(r1)\nbne r2, r0, skip\naddi r3, r3, 1\nskip: addi r1, r1, 4\nbne r1, r4, next\nshow r3\nhalt\n";

/// Four boards that take the same words.
pub(crate) fn takers(alloc: Global) -> Result<Vec<u8>, AllocError> {
    let mut text = b".page 0 0 rw\n".to_vec(alloc)?;
    for _ in 0..4u32 {
        text.extend_from_slice(TAKER)?;
    }
    Ok(text)
}

/// The numbers from 0 to 12, as a text has them.
const NUMBERS: [&[u8]; 13] = [
    b"0", b"1", b"2", b"3", b"4", b"5", b"6", b"7", b"8", b"9", b"10", b"11", b"12",
];

const ADD: &[u8] =
    b"\nli r2, 12\nshl r1, r1, r2\nld r3, 0(r0)\nld r4, 4(r0)\nadd r3, r3, r4\nld r4, 8(r0)\nadd r3, r3, r4\nld r4, 12(r0)\nadd r3, r3, r4\naddi r3, r3, ";

/// Twelve boards: the one of number i adds i and the words 1, 2, 3 and 4 of a page that all may read, stores the sum in a
/// page of its own, loads it again and shows it.
pub(crate) fn adders(alloc: Global) -> Result<Vec<u8>, AllocError> {
    let mut text = b".page 0 0 ro\n.word 0 0 1\n.word 0 4 2\n.word 0 8 3\n.word 0 12 4\n".to_vec(
        alloc,
    )?;
    for i in 0..12usize {
        let own = NUMBERS[i + 1];
        for part in [
            b".page 0 ".as_slice(),
            own,
            b" rw\n.board\nli r1, ",
            own,
            ADD,
            NUMBERS[i],
        ] {
            text.extend_from_slice(part)?;
        }
        text.extend_from_slice(b"\nst r3, 0(r1)\nld r5, 0(r1)\nshow r5\nhalt\n")?;
    }
    Ok(text)
}

/// Pages of segment 0, each under a root entry of its own, and a board that halts.
pub(crate) fn far_pages(alloc: Global, count: u32) -> Result<Vec<u8>, AllocError>
    requires { count < 256 }
{
    let mut text = Vec::new(alloc);
    for k in 0..count {
        let page = 1024 * k;
        let line = format!(in alloc; ".page 0 {page} rw\n")?;
        text.extend_from_slice(line.as_bytes())?;
    }
    text.extend_from_slice(b".board\nhalt\n")?;
    Ok(text)
}

/// The answer to a text under the most frames.
fn answer_under_most_frames(
    alloc: Global,
    text: &[u8],
) -> Result<(Outcome<SwapMemory>, SinkSure), AllocError> {
    answer_of(
        alloc,
        &["sched", "1", "--frames", "3900"],
        text,
        SwapMemory::new(alloc),
    )
}

#[test]
fn frames_and_tables_have_to_fit(rt: HostRuntime) -> Result<(), Fail> {
    let alloc = rt.alloc();
    let (outcome, sink) = answer_under_most_frames(alloc, &far_pages(alloc, 133)?)?;
    assert_eq!(rt; outcome.status, Status::Input);
    assert_eq!(rt; sink.bytes(), b"refused: load: no room 4097\n".as_slice());
    let (outcome, _) = answer_under_most_frames(alloc, &far_pages(alloc, 132)?)?;
    assert_eq!(rt; outcome.status, Status::Fine);
    Ok(())
}
