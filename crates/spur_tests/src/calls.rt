//! The calls of the core on two boards, call by call: what was worked out by hand of the entries, the caches, the counts, the
//! endings and the memory.

use crate::lines::{CLAIM_TABLE, FILL_ROOT, FILL_TABLE, Line, ROOT, TABLE};
use crate::texts::SUM;
use crate::worlds::Course::{BySwap, Going, Halted};
use crate::worlds::{
    Cached, Call, Stand, Step, Tag, finish, first_wrong, has_grown, stands, world_of,
};
use spur_addr::Protection::{ReadOnly, ReadWrite};
use spur_board::{BusReason, Ending, Turn};
use spur_core::World;
use spur_cpu::{Cpu, PlainCpu};
use spur_flat::AccessKind::{Load, Store};
use spur_flat::FaultKind::{Dirty, Missing};
use spur_sched::{Ran, run_schedule};
use spur_snoop::BlockState::{OwnedExclusive, OwnedNonExclusive, UnOwned};
use spur_swap::{Backing, SwapMemory, SwapTest};
use std::test::Fail;

/// The number of the first word of the page table's only page: the entry of page 0.
const ENTRY: u32 = 64 * 1024;

/// The number of the first word of the data frame.
const FIRST: u32 = 65 * 1024;

/// The number of the word at byte 64 of the data frame.
const SEVENTEENTH: u32 = FIRST + 16;

/// The board needs the bus for an access.
const AWAY: Turn = Turn::NeedsBus(BusReason::Access);

/// A block of the page table that one cache alone has, and owns.
const TABLE_ALONE: Tag = Tag {
    state: OwnedExclusive,
    frame: 64,
    prot: ReadWrite,
    dirty: true,
};

/// The same in the cache that owns it, where others may have copies.
const TABLE_SHARED: Tag = Tag {
    state: OwnedNonExclusive,
    frame: 64,
    prot: ReadWrite,
    dirty: true,
};

/// A copy of it.
const TABLE_COPY: Tag = Tag {
    state: UnOwned,
    frame: 64,
    prot: ReadWrite,
    dirty: true,
};

/// A block of the page in the data frame that one cache alone has, and owns.
const ALONE: Tag = Tag {
    state: OwnedExclusive,
    frame: 65,
    prot: ReadWrite,
    dirty: true,
};

/// The same in the cache that owns it, where others may have copies.
const SHARED: Tag = Tag {
    state: OwnedNonExclusive,
    frame: 65,
    prot: ReadWrite,
    dirty: true,
};

/// A copy of it that came after the page was first written.
const DIRTY_COPY: Tag = Tag {
    state: UnOwned,
    frame: 65,
    prot: ReadWrite,
    dirty: true,
};

/// A copy of it that came before.
const CLEAN_COPY: Tag = Tag {
    state: UnOwned,
    frame: 65,
    prot: ReadWrite,
    dirty: false,
};

/// A copy of a block of a page that may only be read.
const READ_ONLY_COPY: Tag = Tag {
    state: UnOwned,
    frame: 65,
    prot: ReadOnly,
    dirty: false,
};

// ---- a word goes from board to board

/// Board 0 adds 1 to a word that board 1 loads before and after, and stores the sum at byte 0, too. With 16 lines the block at
/// byte 0 has the line of the page table's block.
const GIVE: &[u8] =
    b".page 0 0 rw\n.word 0 64 41\n.board\nld r1, 64(r0)\naddi r1, r1, 1\nst r1, 64(r0)\nst r1, 0(r0)\nhalt\n.board\nld r1, 64(r0)\nld r2, 64(r0)\nld r3, 64(r0)\nhalt\n";

const GIVE_AT_FIRST: Stand = Stand {
    boards: [(0, Going), (0, Going)],
    caches: &[
        Cached::None(0, TABLE),
        Cached::None(0, 64),
        Cached::None(1, 64),
    ],
    words: &[
        (0, 0x0004_0017),
        (ENTRY, 0x0000_0030),
        (FIRST, 0),
        (SEVENTEENTH, 0),
    ],
};

const GIVE_STEPS: &[Step] = &[
    // The word is not in the board's cache: the own turn changes nothing.
    Step {
        call: Call::Own(0, 9, AWAY),
        entries: &[],
        stand: Stand {
            boards: [(0, Going), (0, Going)],
            caches: &[Cached::None(0, 64)],
            words: &[(ENTRY, 0x0000_0030)],
        },
    },
    // The page comes in. Its entry is changed in the cache, and not in memory. The root's block has lost its line.
    Step {
        call: Call::Bus(0),
        entries: &[
            (0, FILL_ROOT),
            (0, FILL_TABLE),
            (0, Line::Fault(Missing, Load, 64)),
            (0, CLAIM_TABLE),
            (0, Line::In(0, 65)),
            (0, Line::Read(64)),
            (0, Line::Load(64, 41)),
        ],
        stand: Stand {
            boards: [(1, Going), (0, Going)],
            caches: &[
                Cached::None(0, ROOT),
                Cached::Line(0, TABLE, TABLE_ALONE, 0x0004_1013),
                Cached::Line(0, 64, CLEAN_COPY, 41),
                Cached::None(1, TABLE),
                Cached::None(1, 64),
            ],
            words: &[(ENTRY, 0x0000_0030), (SEVENTEENTH, 41)],
        },
    },
    // Board 1 has the entry's block of board 0, which still owns it.
    Step {
        call: Call::Bus(1),
        entries: &[
            (1, FILL_ROOT),
            (1, FILL_TABLE),
            (1, Line::Read(64)),
            (1, Line::Load(64, 41)),
        ],
        stand: Stand {
            boards: [(1, Going), (1, Going)],
            caches: &[
                Cached::Line(0, TABLE, TABLE_SHARED, 0x0004_1013),
                Cached::Line(0, 64, CLEAN_COPY, 41),
                Cached::Line(1, TABLE, TABLE_COPY, 0x0004_1013),
                Cached::Line(1, 64, CLEAN_COPY, 41),
            ],
            words: &[(ENTRY, 0x0000_0030)],
        },
    },
    // The addition is done alone, and the store is not.
    Step {
        call: Call::Own(0, 9, AWAY),
        entries: &[],
        stand: Stand {
            boards: [(2, Going), (1, Going)],
            caches: &[Cached::Line(0, 64, CLEAN_COPY, 41)],
            words: &[],
        },
    },
    // Both blocks are claimed, of the entry and of the word: board 1 has neither any more.
    Step {
        call: Call::Bus(0),
        entries: &[
            (0, Line::Fault(Dirty, Store, 64)),
            (0, CLAIM_TABLE),
            (0, Line::SetDirty(0)),
            (0, Line::Refresh(64)),
            (0, Line::Claim(64)),
            (0, Line::Store(64, 42)),
        ],
        stand: Stand {
            boards: [(3, Going), (1, Going)],
            caches: &[
                Cached::Line(0, TABLE, TABLE_ALONE, 0x0004_1017),
                Cached::Line(0, 64, ALONE, 42),
                Cached::None(1, TABLE),
                Cached::None(1, 64),
            ],
            words: &[(ENTRY, 0x0000_0030), (SEVENTEENTH, 41)],
        },
    },
    // The entry's block gives up its line, and goes to memory first.
    Step {
        call: Call::Bus(0),
        entries: &[
            (0, Line::WriteBack(TABLE)),
            (0, Line::Write(0)),
            (0, Line::Store(0, 42)),
        ],
        stand: Stand {
            boards: [(4, Going), (1, Going)],
            caches: &[
                Cached::None(0, TABLE),
                Cached::Line(0, 0, ALONE, 42),
                Cached::Line(0, 64, ALONE, 42),
            ],
            words: &[(ENTRY, 0x0004_1017), (FIRST, 0), (SEVENTEENTH, 41)],
        },
    },
    // Board 1 loads what board 0 has stored, of its cache.
    Step {
        call: Call::Bus(1),
        entries: &[
            (1, FILL_ROOT),
            (1, FILL_TABLE),
            (1, Line::Read(64)),
            (1, Line::Load(64, 42)),
        ],
        stand: Stand {
            boards: [(4, Going), (2, Going)],
            caches: &[
                Cached::Line(0, 64, SHARED, 42),
                Cached::Line(1, TABLE, TABLE_COPY, 0x0004_1017),
                Cached::Line(1, 64, DIRTY_COPY, 42),
            ],
            words: &[(SEVENTEENTH, 41)],
        },
    },
    // The third load hits, and stands in the board's log.
    Step {
        call: Call::Own(1, 9, Turn::Ended),
        entries: &[],
        stand: Stand {
            boards: [(4, Going), (4, Halted)],
            caches: &[Cached::Line(1, 64, DIRTY_COPY, 42)],
            words: &[],
        },
    },
    // The next instruction of board 0 is no access: its turn on the bus is over after the merge.
    Step {
        call: Call::Bus(0),
        entries: &[(1, Line::Load(64, 42))],
        stand: Stand {
            boards: [(4, Going), (4, Halted)],
            caches: &[Cached::Line(0, 0, ALONE, 42)],
            words: &[],
        },
    },
    Step {
        call: Call::Own(0, 9, Turn::Ended),
        entries: &[],
        stand: Stand {
            boards: [(5, Halted), (4, Halted)],
            caches: &[Cached::Line(0, 64, SHARED, 42)],
            words: &[],
        },
    },
    // Nothing is left to be merged, nor to be done.
    Step {
        call: Call::Merge,
        entries: &[],
        stand: Stand {
            boards: [(5, Halted), (4, Halted)],
            caches: &[],
            words: &[],
        },
    },
    Step {
        call: Call::Bus(1),
        entries: &[],
        stand: Stand {
            boards: [(5, Halted), (4, Halted)],
            caches: &[],
            words: &[(ENTRY, 0x0004_1017), (FIRST, 0), (SEVENTEENTH, 41)],
        },
    },
];

const GIVE_AT_LAST: Stand = Stand {
    boards: [(5, Halted), (4, Halted)],
    caches: &[
        Cached::None(0, 0),
        Cached::None(0, 64),
        Cached::None(1, TABLE),
        Cached::None(1, 64),
    ],
    words: &[
        (0, 0x0004_0017),
        (ENTRY, 0x0004_1017),
        (FIRST, 42),
        (SEVENTEENTH, 42),
    ],
};

#[test]
fn a_word_goes_from_board_to_board(rt: HostRuntime) -> Result<(), Fail> {
    let mut world = world_of(rt.alloc(), GIVE, SwapMemory::new(rt.alloc()))?;
    assert!(rt; world.history().is_empty());
    assert!(rt; stands(&world, &GIVE_AT_FIRST));
    assert_eq!(rt; first_wrong(&mut world, GIVE_STEPS)?, None);
    finish(&mut world)?;
    assert!(rt; stands(&world, &GIVE_AT_LAST));
    let (store, boards) = world.into_parts();
    assert_eq!(rt; store.history.entries().len(), 25);
    assert_eq!(rt; boards.len(), 2);
    Ok(())
}

// ---- logs

/// Two boards that load a word twice.
pub(crate) const LOAD_TWICE: &[u8] =
    b".page 0 0 ro\n.board\nld r1, 64(r0)\nld r1, 64(r0)\nhalt\n.board\nld r1, 64(r0)\nld r1, 64(r0)\nhalt\n";

const LOAD_TWICE_STEPS: &[Step] = &[
    Step {
        call: Call::Bus(0),
        entries: &[
            (0, FILL_ROOT),
            (0, FILL_TABLE),
            (0, Line::Fault(Missing, Load, 64)),
            (0, CLAIM_TABLE),
            (0, Line::In(0, 65)),
            (0, Line::Read(64)),
            (0, Line::Load(64, 0)),
        ],
        stand: Stand {
            boards: [(1, Going), (0, Going)],
            caches: &[
                Cached::Line(0, TABLE, TABLE_ALONE, 0x0004_100b),
                Cached::Line(0, 64, READ_ONLY_COPY, 0),
                Cached::None(1, 64),
            ],
            words: &[(ENTRY, 0x0000_0028)],
        },
    },
    Step {
        call: Call::Bus(1),
        entries: &[
            (1, FILL_ROOT),
            (1, FILL_TABLE),
            (1, Line::Read(64)),
            (1, Line::Load(64, 0)),
        ],
        stand: Stand {
            boards: [(1, Going), (1, Going)],
            caches: &[
                Cached::Line(0, TABLE, TABLE_SHARED, 0x0004_100b),
                Cached::Line(1, TABLE, TABLE_COPY, 0x0004_100b),
                Cached::Line(1, 64, READ_ONLY_COPY, 0),
            ],
            words: &[(ENTRY, 0x0000_0028)],
        },
    },
    // Board 1 goes on before board 0, and neither needs the bus.
    Step {
        call: Call::Own(1, 1, Turn::Again),
        entries: &[],
        stand: Stand {
            boards: [(1, Going), (2, Going)],
            caches: &[],
            words: &[],
        },
    },
    Step {
        call: Call::Own(0, 1, Turn::Again),
        entries: &[],
        stand: Stand {
            boards: [(2, Going), (2, Going)],
            caches: &[],
            words: &[],
        },
    },
    // The logs are merged in the order of the boards.
    Step {
        call: Call::Merge,
        entries: &[(0, Line::Load(64, 0)), (1, Line::Load(64, 0))],
        stand: Stand {
            boards: [(2, Going), (2, Going)],
            caches: &[
                Cached::Line(0, 64, READ_ONLY_COPY, 0),
                Cached::Line(1, 64, READ_ONLY_COPY, 0),
            ],
            words: &[(ENTRY, 0x0000_0028)],
        },
    },
];

#[test]
fn logs_are_merged_in_board_order(rt: HostRuntime) -> Result<(), Fail> {
    let mut world = world_of(rt.alloc(), LOAD_TWICE, SwapMemory::new(rt.alloc()))?;
    assert_eq!(rt; first_wrong(&mut world, LOAD_TWICE_STEPS)?, None);
    assert_eq!(rt; world.history().len(), 13);
    Ok(())
}

// ---- another board finishes the page that could not be written

/// Board 0 writes two pages, and board 1 reads the second.
const TWO_PAGES: &[u8] =
    b".page 0 0 rw\n.page 0 1 rw\n.board\nli r2, 4096\nli r1, 5\nst r1, 64(r0)\nst r1, 64(r2)\nld r3, 64(r0)\nhalt\n.board\nli r2, 4096\nld r1, 64(r2)\nhalt\n";

const TWO_PAGES_STEPS: &[Step] = &[
    Step {
        call: Call::Own(0, 2, Turn::Again),
        entries: &[],
        stand: Stand {
            boards: [(2, Going), (0, Going)],
            caches: &[],
            words: &[],
        },
    },
    Step {
        call: Call::Bus(0),
        entries: &[
            (0, FILL_ROOT),
            (0, FILL_TABLE),
            (0, Line::Fault(Missing, Store, 64)),
            (0, CLAIM_TABLE),
            (0, Line::In(0, 65)),
            (0, Line::Fault(Dirty, Store, 64)),
            (0, Line::SetDirty(0)),
            (0, Line::Write(64)),
            (0, Line::Store(64, 5)),
        ],
        stand: Stand {
            boards: [(3, Going), (0, Going)],
            caches: &[
                Cached::Line(0, TABLE, TABLE_ALONE, 0x0004_1017),
                Cached::Line(0, 64, ALONE, 5),
            ],
            words: &[(SEVENTEENTH, 0)],
        },
    },
    // The page is leaving, and none of its blocks is in a cache any more. It is still in its frame.
    Step {
        call: Call::Bus(0),
        entries: &[
            (0, Line::Fault(Missing, Store, 4160)),
            (0, Line::ClearRef(0)),
            (0, Line::Leave(0)),
            (0, Line::Flush(64, 0)),
        ],
        stand: Stand {
            boards: [(3, BySwap), (0, Going)],
            caches: &[
                Cached::Line(0, TABLE, TABLE_ALONE, 0x0004_1055),
                Cached::None(0, 64),
            ],
            words: &[(SEVENTEENTH, 5)],
        },
    },
    Step {
        call: Call::Own(1, 1, Turn::Again),
        entries: &[],
        stand: Stand {
            boards: [(3, BySwap), (1, Going)],
            caches: &[],
            words: &[],
        },
    },
    Step {
        call: Call::Bus(1),
        entries: &[
            (1, FILL_ROOT),
            (1, FILL_TABLE),
            (1, Line::Fault(Missing, Load, 4160)),
            (1, CLAIM_TABLE),
            (1, Line::Out(0)),
            (1, Line::In(4096, 65)),
            (1, Line::Read(4160)),
            (1, Line::Load(4160, 0)),
        ],
        stand: Stand {
            boards: [(3, BySwap), (2, Going)],
            caches: &[
                Cached::None(0, TABLE),
                Cached::Line(1, TABLE, TABLE_ALONE, 0x0000_0030),
                Cached::Line(1, 4160, CLEAN_COPY, 0),
            ],
            words: &[(SEVENTEENTH, 0)],
        },
    },
];

#[test]
fn another_board_finishes_the_page(rt: HostRuntime) -> Result<(), Fail> {
    let alloc = rt.alloc();
    let swap = SwapTest::new(alloc, Vec::new(alloc), [1].to_vec(alloc)?);
    let mut world = world_of(alloc, TWO_PAGES, swap)?;
    assert_eq!(rt; first_wrong(&mut world, TWO_PAGES_STEPS)?, None);
    let (store, _) = world.into_parts();
    assert_eq!(rt; (store.backing.reads(), store.backing.writes()), (2, 2));
    Ok(())
}

// ---- a whole schedule

const SUM_LINES: &[(u32, Line)] = &[
    (0, FILL_ROOT),
    (0, FILL_TABLE),
    (0, Line::Fault(Missing, Load, 64)),
    (0, CLAIM_TABLE),
    (0, Line::In(0, 65)),
    (0, Line::Read(64)),
    (0, Line::Load(64, 41)),
    (0, Line::Fault(Dirty, Store, 64)),
    (0, Line::SetDirty(0)),
    (0, Line::Refresh(64)),
    (0, Line::Claim(64)),
    (0, Line::Store(64, 42)),
];

#[test]
fn a_schedule_comes_to_its_end(rt: HostRuntime) -> Result<(), Fail> {
    let mut world = world_of(rt.alloc(), SUM, SwapMemory::new(rt.alloc()))?;
    let mut probes = Vec::new(rt.alloc());
    let ran = run_schedule(&mut world, 1, false, &mut probes)?;
    assert_eq!(rt; ran, Ran::Done);
    assert!(rt; has_grown(world.history(), 0, SUM_LINES));
    let (_, boards) = world.into_parts();
    for board in &boards {
        assert_eq!(rt; (board.retired, board.ended), (4, Some(Ending::Halted)));
    }
    Ok(())
}

// ---- threads

/// Takes a value that may go to another thread.
fn take_sendable<T: Send + Drop>(_value: T) {}

/// Takes a world whose processors and swap object may go to another thread: each of its parts may.
fn take_world<C: Cpu + Send, B: Backing + Send + Drop>(world: World<C, B>) {
    let World {
        store,
        boards,
        beginning,
    } = world;
    take_sendable(store);
    take_sendable(boards);
    take_sendable(beginning);
}

#[test]
fn a_world_may_go_to_another_thread(rt: HostRuntime) -> Result<(), Fail> {
    take_world(world_of(rt.alloc(), SUM, SwapMemory::new(rt.alloc()))?);
    Ok(())
}
