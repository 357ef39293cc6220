//! A page that leaves ahead of need, call by call: what is written to it between two steps is in the page that goes out, and
//! a write to swap that fails ahead ends no board.

ghost use Rattle.spur_loader.specs.Limits.{IsOptions};

use crate::lines::{CLAIM_TABLE, FILL_ROOT, FILL_TABLE, Line};
use crate::untold::Untold;
use crate::worlds::Course::{Going, Halted};
use crate::worlds::{Cached, Call, Stand, Step, first_wrong, world_under};
use spur_board::{BusReason, Turn};
use spur_flat::AccessKind::{Load, Store};
use spur_flat::FaultKind::{Dirty, Missing, Reference};
use spur_loader::Options;
use std::test::Fail;

/// Board 1 writes two blocks of page 0, and one of them once more; board 0 reads page 1.
const TWO_PAGES: &[u8] =
    b".page 0 0 rw\n.page 0 1 rw\n.board\nli r2, 4096\nld r3, 64(r2)\nld r3, 96(r2)\nld r3, 128(r2)\nhalt\n.board\nli r1, 5\nst r1, 32(r0)\nst r1, 64(r0)\naddi r1, r1, 1\nst r1, 64(r0)\nhalt\n";

/// The counts of three pages under two frames, with one line ahead.
pub(crate) const THREE_PAGES_AHEAD_COUNTS: &[u8] = b"loads 5\nstores 0\ntas 0\n\
    align 0\nunmapped 0\nmissing 4\nleaving 1\nprotection 0\nreference 0\ndirty 0\n\
    fills 6\nclaims 1\nwritebacks 0\nrefreshes 0\nflushes 2\n\
    leaves 2\nouts 2\nins 4\nsetrefs 0\nsetdirties 0\nclearrefs 2\n";

/// The numbers of the words at bytes 32 and 64 of the first data frame.
const NINTH: u32 = 65 * 1024 + 8;

const SEVENTEENTH: u32 = 65 * 1024 + 16;

/// Two data frames, and one line ahead.
fn options() -> Options
    ensures { IsOptions result }
{
    Options {
        frames: 2,
        lines: 4096,
        budget: 100,
        ahead: 1,
    }
}

/// The steps until page 0 is leaving and has one line left, in the cache of board 1, which was written since.
const UNTIL_ONE_LINE: &[Step] = &[
    Step {
        call: Call::Own(1, 1, Turn::Again),
        entries: &[],
        stand: Stand {
            boards: [(0, Going), (1, Going)],
            caches: &[],
            words: &[],
        },
    },
    // A frame is free, so nothing is done ahead.
    Step {
        call: Call::Bus(1),
        entries: &[
            (1, FILL_ROOT),
            (1, FILL_TABLE),
            (1, Line::Fault(Missing, Store, 32)),
            (1, CLAIM_TABLE),
            (1, Line::In(0, 65)),
            (1, Line::Fault(Dirty, Store, 32)),
            (1, Line::SetDirty(0)),
            (1, Line::Write(32)),
            (1, Line::Store(32, 5)),
        ],
        stand: Stand {
            boards: [(0, Going), (2, Going)],
            caches: &[],
            words: &[(NINTH, 0)],
        },
    },
    Step {
        call: Call::Bus(1),
        entries: &[(1, Line::Write(64)), (1, Line::Store(64, 5))],
        stand: Stand {
            boards: [(0, Going), (3, Going)],
            caches: &[],
            words: &[],
        },
    },
    Step {
        call: Call::Own(0, 1, Turn::Again),
        entries: &[],
        stand: Stand {
            boards: [(1, Going), (3, Going)],
            caches: &[],
            words: &[],
        },
    },
    Step {
        call: Call::Bus(0),
        entries: &[
            (0, FILL_ROOT),
            (0, FILL_TABLE),
            (0, Line::Fault(Missing, Load, 4160)),
            (0, CLAIM_TABLE),
            (0, Line::In(4096, 66)),
            (0, Line::Read(4160)),
            (0, Line::Load(4160, 0)),
        ],
        stand: Stand {
            boards: [(2, Going), (3, Going)],
            caches: &[],
            words: &[],
        },
    },
    // No frame is free and no page is leaving: the clock has page 0 leave, before the access has its fault.
    Step {
        call: Call::Bus(0),
        entries: &[
            (0, Line::ClearRef(0)),
            (0, Line::ClearRef(4096)),
            (0, Line::Leave(0)),
            (0, Line::Fault(Reference, Load, 4192)),
            (0, Line::SetRef(4096)),
            (0, Line::Read(4192)),
            (0, Line::Load(4192, 0)),
        ],
        stand: Stand {
            boards: [(3, Going), (3, Going)],
            caches: &[],
            words: &[(NINTH, 0), (SEVENTEENTH, 0)],
        },
    },
    // Board 1 writes in its own line of the leaving page.
    Step {
        call: Call::Own(1, 2, Turn::Again),
        entries: &[],
        stand: Stand {
            boards: [(3, Going), (5, Going)],
            caches: &[],
            words: &[],
        },
    },
    // Its log is merged first; then one line of the page is flushed.
    Step {
        call: Call::Bus(0),
        entries: &[
            (1, Line::Store(64, 6)),
            (0, Line::Flush(32, 1)),
            (0, Line::Read(4224)),
            (0, Line::Load(4224, 0)),
        ],
        stand: Stand {
            boards: [(4, Going), (5, Going)],
            caches: &[Cached::None(1, 32)],
            words: &[(NINTH, 5), (SEVENTEENTH, 0)],
        },
    },
    Step {
        call: Call::Own(0, 1, Turn::Ended),
        entries: &[],
        stand: Stand {
            boards: [(5, Halted), (5, Going)],
            caches: &[],
            words: &[],
        },
    },
];

/// A turn of the board that has halted: the last line is flushed, and the page goes out.
const GOES_OUT: &[Step] = &[Step {
    call: Call::Bus(0),
    entries: &[(0, Line::Flush(64, 1)), (0, Line::Out(0))],
    stand: OUT,
}];

/// The same where the first write to swap fails: the page is still leaving, and the next turn tries again.
const GOES_OUT_LATER: &[Step] = &[
    Step {
        call: Call::Bus(0),
        entries: &[(0, Line::Flush(64, 1))],
        stand: OUT,
    },
    Step {
        call: Call::Bus(0),
        entries: &[(0, Line::Out(0))],
        stand: OUT,
    },
    // A frame is free now.
    Step {
        call: Call::Bus(0),
        entries: &[],
        stand: OUT,
    },
];

/// No board has ended but by its `halt`, and the frame has what was written.
const OUT: Stand = Stand {
    boards: [(5, Halted), (5, Going)],
    caches: &[Cached::None(1, 64)],
    words: &[(NINTH, 5), (SEVENTEENTH, 6)],
};

#[test]
fn a_page_leaves_line_by_line_with_what_is_written_meanwhile(rt: HostRuntime) -> Result<(), Fail> {
    let alloc = rt.alloc();
    let rows: [(&'static [u32], &'static [Step], u32); 2] = [
        (&[], GOES_OUT, 1),
        (&[1], GOES_OUT_LATER, 2),
    ];
    for (i, (fail, last, writes)) in rows.iter().enumerate() {
        let swap = Untold::new(alloc, Vec::new(alloc), fail.to_vec(alloc)?);
        let mut world = world_under(alloc, TWO_PAGES, options(), swap)?;
        assert_eq!(rt; first_wrong(&mut world, UNTIL_ONE_LINE)?, None, "row {i}");
        assert_eq!(rt; first_wrong(&mut world, last)?, None, "row {i}, the last");
        let (store, _) = world.into_parts();
        assert_eq!(rt; store.backing.writes(), *writes, "row {i}");
        assert_eq!(rt;
            store.backing.written(),
            [(0u32, 6u32)].as_slice(),
            "row {i}"
        );
    }
    Ok(())
}
