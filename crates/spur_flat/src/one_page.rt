//! A machine of one page, for tests.

ghost use Rattle.std.specs.Prelude.{◌≡◌, true, IfOk, IsTrue};
ghost use Rattle.spur_addr.specs.PageEntry.{is_readable, is_valid, number_of};
ghost use Rattle.spur_flat.specs.Validity.{IsValidFlat, StandsFor};

use crate::Flat;
use spur_list::Items;
use std::alloc::{AllocError, Global};

/// The machine whose one page, page 0 of segment 0, has this entry. The root has one valid entry, for
/// frame 64, and the word at address 64 of the page in frame 65 is 41.
pub fn one_page(alloc: Global, entry: u32) -> Result<Flat, AllocError>
    requires readable { IsTrue (is_readable entry) }
    requires stands { StandsFor 0 entry }
    requires frame { is_valid entry ≡ true → number_of entry ≡ 65 }
    ensures { IfOk result IsValidFlat }
{
    let mut words = Items::from_vec(vec![in alloc; 0u32; 67584]?);
    words.set(0, 0x40017);
    words.set(65536, entry);
    words.set(66576, 41);
    Ok(Flat {
        words,
        swap: Items::from_vec(vec![in alloc; 0u32; 1024]?),
        pages: Items::from_vec(vec![in alloc; 0u32]?),
        tables: 1,
        frames: 1,
    })
}
