//! What no clause says: rows of worked examples, and that each call succeeds with ample memory.

ghost use Rattle.std.specs.Prelude.{◌≡◌, ◌≤◌, IfOk, length};
ghost use Rattle.std.specs.List.{All};
ghost use Rattle.spur_object.specs.Limits.{IsPage, IsUnit, IsWord};
ghost use Rattle.spur_loader.specs.Limits.{IsOptions};

use super::*;
use spur_addr::{GlobalAddr, Protection};
use spur_list::Items;
use spur_object::{BoardText, PageText, Unit, WordText};
use std::alloc::{AllocError, Global};
use std::test::Fail;

/// Options with so many frames of data.
fn with_frames(frames: u32) -> Options
    requires some { 1 ≤ frames }
    requires few { frames ≤ 3900 }
    ensures { IsOptions result }
{
    Options {
        frames,
        lines: 4096,
        budget: 100_000,
        ahead: 0,
    }
}

/// A page that may be read and written.
fn page(number: u32) -> PageText
    ensures { result.page ≡ number }
{
    PageText {
        page: number,
        prot: Protection::ReadWrite,
    }
}

/// A unit of one board without code.
fn unit(
    alloc: Global,
    segs: [u8; 4],
    pages: &[PageText],
    words: &[WordText],
) -> Result<Unit, AllocError>
    requires few_pages { length pages.now ≤ 2048 }
    requires pages { All IsPage pages.now }
    requires few_words { length words.now ≤ 65536 }
    requires words { All IsWord words.now }
    ensures { IfOk result IsUnit }
{
    let mut boards = Items::new(alloc);
    let board = BoardText {
        segs,
        code: Items::new(alloc),
    };
    boards.push(board)?;
    Ok(Unit {
        boards,
        pages: Items::from_vec(pages.to_vec(alloc)?),
        words: Items::from_vec(words.to_vec(alloc)?),
    })
}

/// Whether these words stand at these places.
fn has_words(words: &[u32], rows: &[(usize, u32)]) -> bool {
    rows.iter()
        .all(|row| words.get(row.0).copied() == Some(row.1))
}

#[test]
fn a_page_begins_on_swap_with_its_last_words(rt: HostRuntime) -> Result<(), Fail> {
    let at = GlobalAddr::of(64).ok_or("no address")?;
    let words = [WordText { at, value: 40 }, WordText { at, value: 41 }];
    let unit = unit(rt.alloc(), [0, 1, 2, 3], &[page(0)], &words)?;
    let opening = load(rt.alloc(), &unit, &with_frames(256))?;
    let flat = &opening.flat;
    assert_eq!(rt; flat.pages.as_slice(), [0u32].as_slice());
    assert_eq!(rt; (flat.tables, flat.frames), (1, 256));
    assert_eq!(rt; (flat.words.len(), flat.swap.len()), (321 * 1024, 1024));
    let rows = [
        (0, 0x0004_0017),
        (1, 0),
        (64 * 1024, 0x0000_0030),
        (64 * 1024 + 1, 0),
        (65 * 1024 + 16, 0),
    ];
    assert!(rt; has_words(flat.words.as_slice(), &rows));
    assert!(rt; has_words(flat.swap.as_slice(), &[(15, 0), (16, 41), (17, 0)]));
    assert_eq!(rt; opening.segs.as_slice(), [[0u8, 1, 2, 3]].as_slice());
    assert_eq!(rt; opening.code.len(), 1);
    Ok(())
}

#[test]
fn pages_of_the_table_ascend_and_slots_follow_the_lines(rt: HostRuntime) -> Result<(), Fail> {
    let pages = [
        page(0x1_2345),
        PageText {
            page: 5,
            prot: Protection::ReadOnly,
        },
    ];
    let words = [
        WordText {
            at: GlobalAddr::of(0x5004).ok_or("no address")?,
            value: 9,
        },
        WordText {
            at: GlobalAddr::of(0x1234_5ffc).ok_or("no address")?,
            value: 3,
        },
    ];
    let unit = unit(rt.alloc(), [0, 0, 0, 0], &pages, &words)?;
    let opening = load(rt.alloc(), &unit, &with_frames(1))?;
    let flat = &opening.flat;
    assert_eq!(rt; (flat.tables, flat.frames), (2, 1));
    let rows = [
        (0, 0x0004_0017),
        (72, 0x0004_1017),
        (64 * 1024 + 5, 0x0000_1028),
        (65 * 1024 + 837, 0x0000_0030),
    ];
    assert!(rt; has_words(flat.words.as_slice(), &rows));
    assert!(rt; has_words(flat.swap.as_slice(), &[(1023, 3), (1025, 9), (1, 0)]));
    Ok(())
}

#[test]
fn the_first_fault_is_answered(rt: HostRuntime) -> Result<(), Fail> {
    let outside = WordText {
        at: GlobalAddr::of(0x6008).ok_or("no address")?,
        value: 1,
    };
    let later = WordText {
        at: GlobalAddr::of(0x9000).ok_or("no address")?,
        value: 1,
    };
    let top = WordText {
        at: GlobalAddr::of(0x3f_c000_0000).ok_or("no address")?,
        value: 1,
    };
    let twice = [page(0), page(5), page(7), page(5), page(0)];
    let five_again = LoadFault::PageTwice(GlobalAddr::of(0x5000).ok_or("no address")?);
    let rows: [([u8; 4], &[PageText], &[WordText], LoadFault); 5] = [
        ([0, 0, 255, 0], &twice, &[], LoadFault::Segment255),
        (
            [0, 0, 0, 0],
            &[page(0x3fc_0000)],
            &[outside],
            LoadFault::Segment255,
        ),
        ([0, 0, 0, 0], &twice, &[outside, top], LoadFault::Segment255),
        ([0, 0, 0, 0], &twice, &[outside], five_again),
        (
            [254, 254, 254, 254],
            &[page(5)],
            &[outside, later],
            LoadFault::WordOutside(outside.at),
        ),
    ];
    for (segs, pages, words, fault) in rows {
        let unit = unit(rt.alloc(), segs, pages, words)?;
        assert_eq!(rt;
            load(rt.alloc(), &unit, &with_frames(3900)).err(),
            Some(fault)
        );
    }
    Ok(())
}

/// So many pages, each under a root entry of its own.
fn apart(alloc: Global, count: u32) -> Result<Vec<PageText>, AllocError>
    requires { count ≤ 2048 }
    ensures few { IfOk result (λ pages. length pages.items ≤ 2048) }
    ensures pages { IfOk result (λ pages. All IsPage pages.items) }
{
    let mut pages = Vec::new(alloc);
    for number in 0..count {
        pages.push(page(number * 1024))?;
    }
    Ok(pages)
}

#[test]
fn so_many_pages_of_the_table_have_room(rt: HostRuntime) -> Result<(), Fail> {
    for (count, fault) in [(132, None), (133, Some(LoadFault::NoRoom(4097)))] {
        let pages = apart(rt.alloc(), count)?;
        let unit = unit(rt.alloc(), [0, 0, 0, 0], &pages, &[])?;
        assert_eq!(rt; load(rt.alloc(), &unit, &with_frames(3900)).err(), fault);
    }
    Ok(())
}
