//! The tags of one and of two boards with 16 lines, over a machine of one page.
//!
//! The addresses are in segments 0 and 255. Among 16 lines the blocks of page 0's entry and of its root entry share line
//! 0, and the blocks at 40 and at 240 (in hexadecimal) share line 2.

ghost use Rattle.std.specs.Prelude.{◌≡◌, true, IfOk, length};
ghost use Rattle.spur_flat.specs.Blocks.{IsOfBoards};
ghost use Rattle.spur_snoop.specs.Size.{IsBoardCount};
ghost use Rattle.spur_flat.specs.Validity.{IsValidFlat};

use crate::one_page::one_page;
use crate::{Clause, Entry, Flat, Illegal, Layer, Tags};
use spur_addr::{GlobalAddr, global};
use spur_snoop::Need;
use std::alloc::{AllocError, Global};
use std::process::Abort;
use std::test::Fail;

/// Entries of page 0 in frame 65, which may be read and written. The first is referenced and dirty.
const RESIDENT: u32 = 0x41017;

const CLEAN: u32 = 0x41013;

const LEAVING: u32 = 0x41057;

/// Places of a word of page 0, of another one on the same line, of the page's entry, of an entry whose root entry is not
/// valid, and of the root entry of page 0.
const WORD: u32 = 0x40;

const OTHER: u32 = 0x240;

const TABLE: u32 = 0xc000_0000;

const NO_TABLE: u32 = 0xc000_1000;

const ROOT: u32 = 0xcff0_0000;

/// Boards with 16 lines that have nothing.
fn boards_of_nothing(alloc: Global, boards: u32) -> Result<Tags, AllocError>
    requires { IsBoardCount boards }
    ensures { IfOk result (λ tags. length tags ≡ boards) }
{
    Tags::new(alloc, boards, 16)
}

/// An address of segment 0, or of segment 255 where the process address is in its last quarter.
fn at(place: u32) -> GlobalAddr {
    global(&[0, 0, 0, 255], place)
}

/// A refusal by the rule on tags.
fn barred(wanted: u64, found: u64) -> Result<(), Illegal> {
    Err(Illegal {
        clause: Clause::Tags,
        wanted,
        found,
    })
}

fn load(board: u32, at: GlobalAddr) -> Entry {
    Entry::Load {
        board,
        at,
        value: 41,
    }
}

fn store(board: u32, at: GlobalAddr) -> Entry {
    Entry::Store {
        board,
        at,
        value: 42,
    }
}

fn fill(board: u32, layer: Layer, need: Need, at: GlobalAddr) -> Entry {
    Entry::Fill {
        board,
        layer,
        need,
        at,
    }
}

fn read(board: u32, at: GlobalAddr) -> Entry {
    fill(board, Layer::UserBlock, Need::Read, at)
}

fn read_owned(board: u32, at: GlobalAddr) -> Entry {
    fill(board, Layer::UserBlock, Need::Write, at)
}

fn read_table(board: u32, at: GlobalAddr) -> Entry {
    fill(board, Layer::PteBlock, Need::Read, at)
}

fn read_root(board: u32, at: GlobalAddr) -> Entry {
    fill(board, Layer::RootBlock, Need::Read, at)
}

fn claim(board: u32, at: GlobalAddr) -> Entry {
    Entry::Claim { board, at }
}

fn write_back(board: u32, at: GlobalAddr) -> Entry {
    Entry::WriteBack { board, at }
}

fn refresh(board: u32, at: GlobalAddr) -> Entry {
    Entry::Refresh { board, at }
}

fn flush(board: u32, holder: u32, at: GlobalAddr) -> Entry {
    Entry::BlockFlush { board, holder, at }
}

fn page_out(board: u32, at: GlobalAddr) -> Entry {
    Entry::PageOut { board, at }
}

fn set_dirty(board: u32, at: GlobalAddr) -> Entry {
    Entry::SetDirty { board, at }
}

/// Whether each board that an entry names is there.
fn is_of(entry: &Entry, boards: u32) -> bool
    ensures { result ≡ true → IsOfBoards boards entry.now }
{
    match entry {
        Entry::BlockFlush { board, holder, .. } => *board < boards && *holder < boards,
        Entry::Load { board, .. }
        | Entry::Store { board, .. }
        | Entry::Tas { board, .. }
        | Entry::Fault { board, .. }
        | Entry::Fill { board, .. }
        | Entry::Claim { board, .. }
        | Entry::WriteBack { board, .. }
        | Entry::Refresh { board, .. }
        | Entry::Leave { board, .. }
        | Entry::PageOut { board, .. }
        | Entry::PageIn { board, .. }
        | Entry::SetRef { board, .. }
        | Entry::SetDirty { board, .. }
        | Entry::ClearRef { board, .. } => *board < boards,
    }
}

/// Applies entries one after the other to the tags of this many boards, and compares the answers.
fn answers(
    rt: &impl Abort,
    flat: &Flat,
    boards: u32,
    tags: &mut Tags,
    rows: &[(Entry, Result<(), Illegal>)],
)
    requires valid { IsValidFlat flat.now }
    requires boards { length tags.old ≡ boards }
    ensures { length tags.new ≡ boards }
{
    for (entry, want) in rows {
        assert!(rt; is_of(entry, boards));
        assert_eq!(rt; tags.apply(flat, entry), *want, "at {entry:?}");
    }
}

/// Fills the blocks of the root entry and of the page's entry at a board, for reading.
fn climb(board: u32) -> [(Entry, Result<(), Illegal>); 2] {
    [
        (read_root(board, at(ROOT)), Ok(())),
        (read_table(board, at(TABLE)), Ok(())),
    ]
}

#[test]
fn nothing_is_held(rt: HostRuntime) -> Result<(), Fail> {
    let flat = one_page(rt.alloc(), RESIDENT)?;
    let mut tags = boards_of_nothing(rt.alloc(), 1)?;
    let rows = [
        (load(0, at(WORD)), barred(1, 0)),
        (claim(0, at(WORD)), barred(12, 0)),
        (read(0, at(WORD)), barred(8, 0)),
        (read(0, at(ROOT)), barred(5, 0)),
        (read_table(0, at(TABLE)), barred(9, 0)),
        (read_root(0, at(ROOT)), Ok(())),
    ];
    answers(&rt, &flat, 1, &mut tags, &rows);
    Ok(())
}

#[test]
fn a_board_climbs_to_a_word(rt: HostRuntime) -> Result<(), Fail> {
    let flat = one_page(rt.alloc(), RESIDENT)?;
    let mut tags = boards_of_nothing(rt.alloc(), 1)?;
    let word = at(WORD);
    let rows = [
        (read_root(0, at(ROOT)), Ok(())),
        (read_root(0, at(ROOT)), barred(6, 1)),
        (read_table(0, at(NO_TABLE)), barred(11, 0)),
        (read_table(0, at(TABLE)), Ok(())),
        (read_owned(0, word), Ok(())),
        (load(0, word), Ok(())),
        (store(0, word), Ok(())),
        (claim(0, word), barred(12, 3)),
        // the other block is on the line of this one, which is owned
        (read(0, at(OTHER)), barred(7, 3)),
        (write_back(0, word), Ok(())),
        (write_back(0, word), barred(13, 1)),
        (store(0, word), barred(2, 1)),
        (read(0, at(OTHER)), Ok(())),
        (load(0, word), barred(1, 0)),
    ];
    answers(&rt, &flat, 1, &mut tags, &rows);
    Ok(())
}

#[test]
fn a_clean_page_becomes_dirty(rt: HostRuntime) -> Result<(), Fail> {
    let clean = one_page(rt.alloc(), CLEAN)?;
    let dirty = one_page(rt.alloc(), RESIDENT)?;
    let mut tags = boards_of_nothing(rt.alloc(), 1)?;
    let word = at(WORD);
    answers(&rt, &clean, 1, &mut tags, &climb(0));
    let rows = [
        (read_owned(0, word), barred(10, 0x41013)),
        (read(0, word), Ok(())),
        (claim(0, word), Ok(())),
        (claim(0, word), barred(12, 3)),
        (store(0, word), barred(3, 0)),
        (refresh(0, word), barred(15, 0x41013)),
        (flush(0, 0, word), barred(17, 0x41013)),
        (set_dirty(0, at(0)), barred(4, 1)),
        (claim(0, at(TABLE)), Ok(())),
        (set_dirty(0, at(0)), Ok(())),
    ];
    answers(&rt, &clean, 1, &mut tags, &rows);
    let rows = [
        (refresh(0, word), Ok(())),
        (refresh(0, word), barred(14, 3)),
        (store(0, word), Ok(())),
    ];
    answers(&rt, &dirty, 1, &mut tags, &rows);
    Ok(())
}

#[test]
fn one_board_sees_another(rt: HostRuntime) -> Result<(), Fail> {
    let flat = one_page(rt.alloc(), RESIDENT)?;
    let mut tags = boards_of_nothing(rt.alloc(), 2)?;
    let word = at(WORD);
    answers(&rt, &flat, 2, &mut tags, &climb(0));
    answers(&rt, &flat, 2, &mut tags, &climb(1));
    let rows = [
        (read_owned(0, word), Ok(())),
        (load(1, word), barred(1, 0)),
        (read(1, word), Ok(())),
        (load(1, word), Ok(())),
        (store(0, word), barred(2, 2)),
        (claim(0, word), Ok(())),
        (store(0, word), Ok(())),
        (load(1, word), barred(1, 0)),
    ];
    answers(&rt, &flat, 2, &mut tags, &rows);
    Ok(())
}

#[test]
fn a_page_goes_out(rt: HostRuntime) -> Result<(), Fail> {
    let flat = one_page(rt.alloc(), RESIDENT)?;
    let leaving = one_page(rt.alloc(), LEAVING)?;
    let mut tags = boards_of_nothing(rt.alloc(), 2)?;
    let word = at(WORD);
    answers(&rt, &flat, 2, &mut tags, &climb(0));
    answers(&rt, &flat, 2, &mut tags, &climb(1));
    let rows = [(read(1, word), Ok(())), (claim(0, at(TABLE)), Ok(()))];
    answers(&rt, &flat, 2, &mut tags, &rows);
    let rows = [
        (read(0, word), barred(10, 0x41057)),
        (page_out(0, at(0)), barred(18, 1)),
        (page_out(1, at(0)), barred(4, 0)),
        (flush(0, 1, word), Ok(())),
        (flush(0, 1, word), barred(16, 0)),
        (page_out(0, at(0)), Ok(())),
    ];
    answers(&rt, &leaving, 2, &mut tags, &rows);
    Ok(())
}
