//! The machine of one page, with each entry that its page may have, and a machine of two pages.

ghost use Rattle.std.specs.Prelude.{IfOk};
ghost use Rattle.spur_flat.specs.Validity.{IsValidFlat};

use crate::one_page::one_page;
use crate::{AccessKind, Clause, Entry, FaultKind, Flat, Illegal, Layer};
use spur_addr::{GlobalAddr, Pte, global};
use spur_list::Items;
use spur_snoop::Need;
use std::alloc::{AllocError, Global};
use std::process::Abort;
use std::test::Fail;

/// Entries of page 0 in frame 65. The first is valid, referenced and dirty, and allows all.
const RESIDENT: u32 = 0x41017;

const READ_ONLY: u32 = 0x4100f;

const NO_ACCESS: u32 = 0x41007;

const NOT_REFERENCED: u32 = 0x41015;

const CLEAN: u32 = 0x41013;

const LEAVING_UNUSED: u32 = 0x41051;

/// Valid and referenced, not dirty, and allows loads alone.
const CLEAN_READ_ONLY: u32 = 0x4100b;

/// The entry of page 0 in swap slot 0.
const SWAPPED: u32 = 0x30;

/// The machine with two data frames, 65 and 66, whose two pages, 0 and 1 of segment 0, are on swap. The word at address
/// 64 of page 0 is 41, and that of page 1 is 51.
fn two_pages(alloc: Global) -> Result<Flat, AllocError>
    ensures { IfOk result IsValidFlat }
{
    let mut words = Items::from_vec(vec![in alloc; 0u32; 68608]?);
    words.set(0, 0x40017);
    words.set(65536, 0x30);
    words.set(65537, 0x1030);
    let mut swap = Items::from_vec(vec![in alloc; 0u32; 2048]?);
    swap.set(16, 41);
    swap.set(1040, 51);
    Ok(Flat {
        words,
        swap,
        pages: Items::from_vec(vec![in alloc; 0u32, 1]?),
        tables: 1,
        frames: 2,
    })
}

/// An address of segment 0.
fn at(place: u32) -> GlobalAddr {
    global(&[0, 0, 0, 0], place)
}

fn load(place: u32, value: u32) -> Entry {
    Entry::Load {
        board: 0,
        at: at(place),
        value,
    }
}

fn store(place: u32, value: u32) -> Entry {
    Entry::Store {
        board: 0,
        at: at(place),
        value,
    }
}

fn test_and_set(place: u32, old: u32) -> Entry {
    Entry::Tas {
        board: 0,
        at: at(place),
        old,
    }
}

fn fault(kind: FaultKind, access: AccessKind, place: u32) -> Entry {
    Entry::Fault {
        board: 0,
        kind,
        access,
        at: at(place),
    }
}

fn leave(place: u32) -> Entry {
    Entry::Leave {
        board: 0,
        at: at(place),
    }
}

fn page_out(place: u32) -> Entry {
    Entry::PageOut {
        board: 0,
        at: at(place),
    }
}

fn page_in(place: u32, frame: u32) -> Entry {
    Entry::PageIn {
        board: 0,
        at: at(place),
        frame,
    }
}

fn set_referenced(place: u32) -> Entry {
    Entry::SetRef {
        board: 0,
        at: at(place),
    }
}

fn set_dirty(place: u32) -> Entry {
    Entry::SetDirty {
        board: 0,
        at: at(place),
    }
}

fn clear_referenced(place: u32) -> Entry {
    Entry::ClearRef {
        board: 0,
        at: at(place),
    }
}

/// A refusal by the rule on allowed answers.
fn barred(wanted: u64, found: u64) -> Result<(), Illegal> {
    Err(Illegal {
        clause: Clause::Fault,
        wanted,
        found,
    })
}

/// A refusal by the rule on values.
fn misread(wanted: u64, found: u64) -> Result<(), Illegal> {
    Err(Illegal {
        clause: Clause::Answer,
        wanted,
        found,
    })
}

/// A refusal by the rule on the pager's entries.
fn unpaged(wanted: u64, found: u64) -> Result<(), Illegal> {
    Err(Illegal {
        clause: Clause::Pager,
        wanted,
        found,
    })
}

/// Applies entries one after the other, and compares the answers.
fn answers(rt: &impl Abort, flat: Flat, rows: &[(Entry, Result<(), Illegal>)])
    requires { IsValidFlat flat }
{
    let mut flat = flat;
    for (entry, want) in rows {
        assert_eq!(rt; flat.apply(entry), *want, "at {entry:?}");
    }
}

#[test]
fn walks(rt: HostRuntime) -> Result<(), Fail> {
    let flat = one_page(rt.alloc(), RESIDENT)?;
    for (place, entry) in [(66, Some(RESIDENT)), (4096, Some(0)), (0x400000, None)] {
        assert_eq!(rt; flat.walk(at(place)).map(Pte::word), entry, "at {place}");
    }
    Ok(())
}

#[test]
fn a_resident_page(rt: HostRuntime) -> Result<(), Fail> {
    let flat = one_page(rt.alloc(), RESIDENT)?;
    let rows = [
        (load(64, 41), Ok(())),
        (load(64, 40), misread(41, 40)),
        (load(66, 41), barred(1, 0)),
        (load(4096, 0), barred(2, 0)),
        (load(0x400000, 0), barred(2, 0)),
        (store(64, 42), Ok(())),
        (load(64, 42), Ok(())),
        (load(64, 41), misread(42, 41)),
        (fault(FaultKind::Align, AccessKind::Load, 66), Ok(())),
        (fault(FaultKind::Align, AccessKind::Load, 64), barred(0, 1)),
        (
            fault(FaultKind::Unmapped, AccessKind::Store, 0x400002),
            barred(1, 2),
        ),
        (
            fault(FaultKind::Unmapped, AccessKind::Store, 0x400000),
            Ok(()),
        ),
        (fault(FaultKind::Unmapped, AccessKind::Load, 4096), Ok(())),
        (
            fault(FaultKind::Protection, AccessKind::Store, 64),
            barred(0, 5),
        ),
    ];
    answers(&rt, flat, &rows);
    Ok(())
}

#[test]
fn a_test_and_set(rt: HostRuntime) -> Result<(), Fail> {
    let rows = [
        (test_and_set(64, 40), misread(41, 40)),
        (load(64, 41), Ok(())),
        (test_and_set(64, 41), Ok(())),
        (load(64, 1), Ok(())),
        (test_and_set(64, 0), misread(1, 0)),
        (test_and_set(64, 1), Ok(())),
        (store(64, 0), Ok(())),
        (test_and_set(64, 0), Ok(())),
        (load(64, 1), Ok(())),
        (load(68, 0), Ok(())),
        (test_and_set(66, 1), barred(1, 0)),
        (test_and_set(4096, 0), barred(2, 0)),
        (fault(FaultKind::Dirty, AccessKind::Tas, 64), barred(0, 7)),
    ];
    answers(&rt, one_page(rt.alloc(), RESIDENT)?, &rows);
    let rows = [
        (test_and_set(64, 41), barred(7, 0)),
        (test_and_set(64, 40), barred(7, 0)),
        (fault(FaultKind::Dirty, AccessKind::Tas, 64), Ok(())),
        (load(64, 41), Ok(())),
    ];
    answers(&rt, one_page(rt.alloc(), CLEAN)?, &rows);
    Ok(())
}

#[test]
fn a_test_and_set_that_is_barred(rt: HostRuntime) -> Result<(), Fail> {
    let rows = [
        (test_and_set(64, 41), barred(5, 0)),
        (fault(FaultKind::Protection, AccessKind::Tas, 64), Ok(())),
        (fault(FaultKind::Dirty, AccessKind::Tas, 64), barred(5, 7)),
        (load(64, 41), Ok(())),
    ];
    answers(&rt, one_page(rt.alloc(), READ_ONLY)?, &rows);
    let rows = [
        (test_and_set(64, 0), barred(3, 0)),
        (fault(FaultKind::Missing, AccessKind::Tas, 64), Ok(())),
    ];
    answers(&rt, one_page(rt.alloc(), SWAPPED)?, &rows);
    Ok(())
}

#[test]
fn a_protected_page(rt: HostRuntime) -> Result<(), Fail> {
    let rows = [
        (load(64, 41), Ok(())),
        (store(64, 42), barred(5, 0)),
        (fault(FaultKind::Protection, AccessKind::Store, 64), Ok(())),
        (
            fault(FaultKind::Protection, AccessKind::Load, 64),
            barred(0, 5),
        ),
        (fault(FaultKind::Dirty, AccessKind::Store, 64), barred(5, 7)),
    ];
    answers(&rt, one_page(rt.alloc(), READ_ONLY)?, &rows);
    let rows = [
        (load(64, 41), barred(5, 0)),
        (fault(FaultKind::Protection, AccessKind::Load, 64), Ok(())),
    ];
    answers(&rt, one_page(rt.alloc(), NO_ACCESS)?, &rows);
    Ok(())
}

#[test]
fn a_page_on_swap(rt: HostRuntime) -> Result<(), Fail> {
    let rows = [
        (load(64, 0), barred(3, 0)),
        (fault(FaultKind::Missing, AccessKind::Load, 64), Ok(())),
        (
            fault(FaultKind::Unmapped, AccessKind::Load, 64),
            barred(3, 2),
        ),
        (
            fault(FaultKind::Protection, AccessKind::Store, 64),
            barred(3, 5),
        ),
    ];
    answers(&rt, one_page(rt.alloc(), SWAPPED)?, &rows);
    Ok(())
}

#[test]
fn a_page_that_is_not_ready(rt: HostRuntime) -> Result<(), Fail> {
    let rows = [
        (load(64, 41), Ok(())),
        (fault(FaultKind::Reference, AccessKind::Load, 64), Ok(())),
        (fault(FaultKind::Dirty, AccessKind::Store, 64), barred(6, 7)),
    ];
    answers(&rt, one_page(rt.alloc(), NOT_REFERENCED)?, &rows);
    let rows = [
        (store(64, 42), barred(7, 0)),
        (fault(FaultKind::Dirty, AccessKind::Store, 64), Ok(())),
        (fault(FaultKind::Dirty, AccessKind::Load, 64), barred(0, 7)),
    ];
    answers(&rt, one_page(rt.alloc(), CLEAN)?, &rows);
    let rows = [
        (load(64, 41), Ok(())),
        (fault(FaultKind::Leaving, AccessKind::Store, 64), Ok(())),
        (
            fault(FaultKind::Reference, AccessKind::Load, 64),
            barred(4, 6),
        ),
        (fault(FaultKind::Dirty, AccessKind::Store, 64), barred(4, 7)),
    ];
    answers(&rt, one_page(rt.alloc(), LEAVING_UNUSED)?, &rows);
    Ok(())
}

#[test]
fn an_access_is_answered(rt: HostRuntime) -> Result<(), Fail> {
    let flat = one_page(rt.alloc(), CLEAN)?;
    assert_eq!(rt;
        flat.miss(AccessKind::Store, at(64)),
        Some(FaultKind::Dirty)
    );
    let place = at(64);
    match flat.miss(AccessKind::Load, place) {
        None => assert_eq!(rt; flat.word(place), 41),
        Some(kind) => panic!(rt; "{kind:?}"),
    }
    Ok(())
}

#[test]
fn a_dirty_page_goes_out_and_comes_in(rt: HostRuntime) -> Result<(), Fail> {
    let rows = [
        (page_out(64), unpaged(3, 0x41017)),
        (page_in(64, 65), unpaged(4, 0x41017)),
        (leave(64), Ok(())),
        // R stays as it was
        (leave(64), unpaged(2, 0x41057)),
        (clear_referenced(64), unpaged(8, 0x41057)),
        (page_in(64, 65), unpaged(4, 0x41057)),
        (store(64, 42), Ok(())),
        (page_out(64), Ok(())),
        (load(64, 42), barred(3, 0)),
        (page_out(64), unpaged(3, 0x30)),
        (leave(64), unpaged(2, 0x30)),
        (set_referenced(64), unpaged(6, 0x30)),
        (set_dirty(64), unpaged(7, 0x30)),
        (clear_referenced(64), unpaged(8, 0x30)),
        (page_in(64, 63), unpaged(5, 63)),
        (page_in(64, 64), unpaged(5, 64)),
        (page_in(64, 66), unpaged(5, 66)),
        (page_in(64, 0xffff_ffff), unpaged(5, 0xffff_ffff)),
        (page_in(64, 65), Ok(())),
        // valid and referenced, neither dirty nor leaving
        (page_in(64, 65), unpaged(4, 0x41013)),
        // the slot had been written
        (load(64, 42), Ok(())),
    ];
    answers(&rt, one_page(rt.alloc(), RESIDENT)?, &rows);
    Ok(())
}

#[test]
fn a_clean_page_leaves_its_slot_as_it_is(rt: HostRuntime) -> Result<(), Fail> {
    let rows = [
        (leave(64), Ok(())),
        (load(64, 41), Ok(())),
        (page_out(64), Ok(())),
        (page_in(64, 65), Ok(())),
        // slot 0 is of zeros
        (load(64, 0), Ok(())),
    ];
    answers(&rt, one_page(rt.alloc(), CLEAN)?, &rows);
    Ok(())
}

#[test]
fn bits_are_set_and_cleared(rt: HostRuntime) -> Result<(), Fail> {
    let rows = [
        (clear_referenced(64), unpaged(8, 0x41015)),
        (set_referenced(64), Ok(())),
        (set_referenced(64), unpaged(6, 0x41017)),
        (set_dirty(64), unpaged(7, 0x41017)),
        (clear_referenced(64), Ok(())),
        (clear_referenced(64), unpaged(8, 0x41015)),
    ];
    answers(&rt, one_page(rt.alloc(), NOT_REFERENCED)?, &rows);
    let rows = [
        (store(64, 42), barred(7, 0)),
        (set_dirty(64), Ok(())),
        (set_dirty(64), unpaged(7, 0x41017)),
        (store(64, 42), Ok(())),
    ];
    answers(&rt, one_page(rt.alloc(), CLEAN)?, &rows);
    let rows = [
        (set_dirty(64), unpaged(7, 0x4100b)),
        (leave(64), Ok(())),
        (page_out(64), Ok(())),
        // the protection goes with the page
        (page_out(64), unpaged(3, 0x28)),
        (page_in(64, 65), Ok(())),
        (set_dirty(64), unpaged(7, 0x4100b)),
    ];
    answers(&rt, one_page(rt.alloc(), CLEAN_READ_ONLY)?, &rows);
    let rows = [
        (leave(64), unpaged(2, 0x41051)),
        // a page that leaves may still be marked
        (set_referenced(64), Ok(())),
        (set_dirty(64), Ok(())),
        (clear_referenced(64), unpaged(8, 0x41057)),
    ];
    answers(&rt, one_page(rt.alloc(), LEAVING_UNUSED)?, &rows);
    Ok(())
}

#[test]
fn a_page_that_is_not_declared(rt: HostRuntime) -> Result<(), Fail> {
    let table = global(&[255, 255, 255, 255], 0);
    let rows = [
        (leave(4096), unpaged(1, 0)),
        (page_out(4096), unpaged(1, 0)),
        (page_in(4096, 65), unpaged(1, 0)),
        (set_referenced(4096), unpaged(1, 0)),
        (set_dirty(4096), unpaged(1, 0)),
        (clear_referenced(4096), unpaged(1, 0)),
        (leave(0x400000), unpaged(1, 0)),
        (
            Entry::PageIn {
                board: 0,
                at: table,
                frame: 65,
            },
            unpaged(1, 0),
        ),
        (
            Entry::Leave {
                board: 0,
                at: table,
            },
            unpaged(1, 0),
        ),
    ];
    answers(&rt, one_page(rt.alloc(), RESIDENT)?, &rows);
    Ok(())
}

#[test]
fn a_frame_has_one_page(rt: HostRuntime) -> Result<(), Fail> {
    let rows = [
        (page_in(4160, 65), Ok(())),
        (load(4160, 51), Ok(())),
        (page_in(64, 65), unpaged(5, 65)),
        (page_in(64, 67), unpaged(5, 67)),
        (page_in(64, 66), Ok(())),
        (load(64, 41), Ok(())),
        (load(4160, 51), Ok(())),
        // page 1 is written, and its words go to its own slot
        (set_dirty(4160), Ok(())),
        (store(4160, 52), Ok(())),
        (leave(4160), Ok(())),
        (leave(64), Ok(())),
        (page_out(64), Ok(())),
        (page_out(4160), Ok(())),
        (page_out(4160), unpaged(3, 0x1030)),
        // each may have the other frame
        (page_in(64, 65), Ok(())),
        (page_in(4160, 66), Ok(())),
        (load(64, 41), Ok(())),
        (load(4160, 52), Ok(())),
        (page_out(4160), unpaged(3, 0x42013)),
    ];
    answers(&rt, two_pages(rt.alloc())?, &rows);
    Ok(())
}

#[test]
fn entries_of_the_bus_are_taken_and_change_nothing(rt: HostRuntime) -> Result<(), Fail> {
    let place = at(64);
    let rows = [
        (
            Entry::Fill {
                board: 0,
                layer: Layer::UserBlock,
                need: Need::Write,
                at: place,
            },
            Ok(()),
        ),
        (
            Entry::Claim {
                board: 1,
                at: place,
            },
            Ok(()),
        ),
        (
            Entry::WriteBack {
                board: 2,
                at: place,
            },
            Ok(()),
        ),
        (
            Entry::Refresh {
                board: 3,
                at: place,
            },
            Ok(()),
        ),
        (
            Entry::BlockFlush {
                board: 0,
                holder: 1,
                at: place,
            },
            Ok(()),
        ),
        (load(64, 41), Ok(())),
        (page_out(64), unpaged(3, 0x41017)),
    ];
    answers(&rt, one_page(rt.alloc(), RESIDENT)?, &rows);
    Ok(())
}
