//! A history is judged.

ghost use Rattle.std.specs.Prelude.{◌≡◌, IfOk};
ghost use Rattle.std.specs.List.{All};
ghost use Rattle.spur_flat.specs.Blocks.{IsOfBoards};
ghost use Rattle.spur_loader.specs.Opening.{board_count};
ghost use Rattle.spur_check.specs.Judged.{MayBeJudged, judged};

use crate::checker::Checker;
use crate::verdict::Verdict;
use spur_flat::{Entry, Illegal};
use spur_loader::Opening;
use std::alloc::{AllocError, Global};

/// Judges a history of a program with this opening: `Good` where each entry may stand after those before it, and each
/// board's accesses and faults are the first ones of its program; else `Bad` at the first entry that may not.
///
/// The rules are tried in the order program, fault, answer, pager, tags, needed, and the first that an entry breaks is
/// answered, with its two numbers. `Good` doesn't say that the boards have ended. Of the entries it is asked that they
/// name boards that are there, as well-formed ones do. The one error is want of memory.
///
/// To judge an entry costs the same however long the history is. A page that comes in, or goes out, is looked for among
/// the declared ones once; one that goes out also at its 128 places in the lines of each board. Each instruction of a
/// program is done once.
pub fn check(alloc: Global, opening: Opening, entries: &[Entry]) -> Result<Verdict, AllocError>
    requires opening { MayBeJudged opening }
    requires entries { All (IsOfBoards (board_count opening)) entries.now }
    ensures { IfOk result (λ verdict. verdict ≡ judged opening entries.now) }
{
    let mut checker = Checker::begin(alloc, opening)?;
    for (k, entry) in entries.iter().enumerate() {
        let number = k as u64 + 1;
        if let Err(why) = checker.judge(entry) {
            return Ok(bad(number, why));
        }
        checker.note(entry, number)?;
    }
    Ok(Verdict::Good {
        entries: entries.len() as u64,
    })
}

/// The verdict on a history whose entry with this number is the first that is refused.
fn bad(number: u64, why: Illegal) -> Verdict
    ensures { result ≡ Verdict.Bad number why.clause why.wanted why.found }
{
    Verdict::Bad {
        at: number,
        clause: why.clause,
        wanted: why.wanted,
        found: why.found,
    }
}
