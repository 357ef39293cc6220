//! That hits are done beside another board's turn, and in the cache: by a gate that keeps one board inside its turn.

use crate::threads::{answer_on, is_good};
use spur_addr::GlobalAddr;
use spur_cache::Cache;
use spur_program::Status;
use spur_report::Report;
use spur_snoop::BlockState;
use spur_threads::Gate;
use std::sync::atomic::{AtomicBool, AtomicU32, Ordering};
use std::test::Fail;
use std::thread::yield_now;

/// Board 0 halts at once. Board 1 loads a word 301 times: once by its one miss, and then in its own cache alone.
const HITS: &[u8] =
    b".page 0 0 ro\n.word 0 64 41\n.board\nhalt\n.board\nli r2, 300\nld r1, 64(r0)\n\
    again: ld r1, 64(r0)\naddi r2, r2, -1\nbne r2, r0, again\nhalt\n";

/// How often a board looks for another, at most.
const LOOKS: u32 = 10_000_000;

/// How many instructions board 1 has completed at the begin of each of its turns: it misses at its second load, and a
/// turn has at most 256.
const TURNS: [u32; 5] = [0, 2, 258, 514, 770];

/// A gate that keeps board 0 inside its turn until board 1 has gone on by 256 instructions alone. Board 0 comes inside
/// only after board 1 has made its one miss.
#[derive(Drop)]
struct Together {
    /// Board 1 has its block.
    has_block: AtomicBool,
    /// Board 0 is inside.
    is_inside: AtomicBool,
    /// Board 1 has gone on since.
    has_gone_on: AtomicBool,
    /// A wait was in vain, or the block was not where it belongs.
    failed: AtomicBool,
    /// How many turns of board 1 there were, in their order.
    turns: AtomicU32,
}

impl Together {
    fn fail(&self) {
        self.failed.store(true, Ordering::SeqCst);
    }

    /// Waits for a flag. A wait in vain ends all later ones.
    fn wait_for(&self, flag: &AtomicBool) {
        for _ in 0..LOOKS {
            if flag.load(Ordering::SeqCst) || self.failed.load(Ordering::SeqCst) {
                return;
            }
            yield_now();
        }
        self.fail();
    }

    /// Notes a turn of board 1, which has to be the next one.
    fn note_turn(&self, retired: u32) {
        let turn = self.turns.fetch_add(1, Ordering::SeqCst);
        if TURNS.get(turn as usize) != Some(&retired) {
            self.fail();
        }
    }
}

/// Whether the word at address 64 stands in a cache, in a block that its board does not own.
fn has_word(cache: &Cache) -> bool {
    let Some(at) = GlobalAddr::of(64) else {
        return false;
    };
    match cache.find(at) {
        Some(line) => line.state == BlockState::UnOwned && line.words[0] == 41,
        None => false,
    }
}

/// How many instructions each of two boards completed; `None` where there are more or fewer boards.
fn retired_by_two(report: &Report) -> Option<(u32, u32)> {
    match report.boards.as_slice() {
        [first, second] => Some((first.retired, second.retired)),
        _ => None,
    }
}

impl Gate for Together {
    fn outside(&self, board: u32, _retired: u32) {
        if board == 0 {
            self.wait_for(&self.has_block);
        }
    }

    fn inside(&self, board: u32, retired: u32, cache: &Cache) {
        if board == 0 {
            self.is_inside.store(true, Ordering::SeqCst);
            self.wait_for(&self.has_gone_on);
            return;
        }
        self.note_turn(retired);
        if retired < 2 {
            return;
        }
        if !has_word(cache) {
            self.fail();
        }
        if retired >= 258 {
            self.has_gone_on.store(true, Ordering::SeqCst);
        }
        self.has_block.store(true, Ordering::SeqCst);
        self.wait_for(&self.is_inside);
    }
}

#[test]
fn hits_are_done_beside_a_board_that_is_inside(rt: HostRuntime) -> Result<(), Fail> {
    let gate = Together {
        has_block: AtomicBool::new(false),
        is_inside: AtomicBool::new(false),
        has_gone_on: AtomicBool::new(false),
        failed: AtomicBool::new(false),
        turns: AtomicU32::new(0),
    };
    let alloc = rt.alloc();
    let answered = answer_on(&rt, alloc, ("run --trace", HITS), &gate)?;
    assert!(rt; !gate.failed.load(Ordering::SeqCst));
    assert_eq!(rt; gate.turns.load(Ordering::SeqCst), 5);
    assert_eq!(rt; answered.status, Status::Fine);
    let report = answered.report.as_ref().ok_or("a report")?;
    assert_eq!(rt; retired_by_two(report), Some((1, 903)));
    assert!(rt; is_good(alloc, ("check", HITS), &answered.written)?);
    Ok(())
}
