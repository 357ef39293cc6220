//! The reading of the parts of an object.

ghost use Rattle.std.specs.Prelude.{◌≡◌, ◌/◌, ◌≤◌, IfOk, IfErr, length, vec_capacity};
ghost use Rattle.spur_isa.specs.Ranges.{IsInstr};
ghost use Rattle.spur_object.specs.Fields.{board_fields, head_fields, instr_fields, page_fields, unit_fields, word_fields};
ghost use Rattle.spur_object.specs.Limits.{IsBoard, IsPage, IsUnit, IsWord};
ghost use Rattle.spur_object.specs.Reading.{AreCounts, Begins, IsCounted, IsStop, list_fields};

use crate::counts::Counts;
use crate::cursor::{Cursor, FIELD_BYTES};
use crate::fault::ObjKind;
use crate::stop::Stop;
use crate::unit::{BoardText, PageText, Unit, WordText};
use spur_addr::GlobalAddr;
use spur_isa::Instr;
use spur_list::Items;
use std::alloc::Global;

/// The number with which every object begins.
pub const MAGIC: u32 = 0x9353_5052;

/// The version of these bytes.
pub const VERSION: u32 = 1;

/// How many boards, pages and words there may be, and how many instructions a board may have.
const MAX_BOARDS: u32 = 12;

const MAX_PAGES: u32 = 2048;

const MAX_WORDS: u32 = 65_536;

const MAX_CODE: u32 = 4096;

/// The last page, and the last segment.
const LAST_PAGE: u32 = (1 << 26) - 1;

const LAST_SEGMENT: u32 = 255;

/// How many bytes a board without instructions has, a page and a word.
const BOARD_BYTES: usize = 2 * FIELD_BYTES;

const PAGE_BYTES: usize = 2 * FIELD_BYTES;

const WORD_BYTES: usize = 3 * FIELD_BYTES;

/// Reads what stands before the boards.
fn head(cursor: &mut Cursor<'_>) -> Result<Counts, Stop>
    ensures found { IfOk result (λ counts. Begins AreCounts head_fields cursor.old counts cursor.new) }
    ensures fault { IfErr result (λ stop. IsStop AreCounts head_fields cursor.old cursor.new stop) }
{
    let _magic = cursor.number(ObjKind::Magic, MAGIC, MAGIC)?;
    let _version = cursor.number(ObjKind::Version, VERSION, VERSION)?;
    let boards = cursor.number(ObjKind::Field, 1, MAX_BOARDS)?;
    let pages = cursor.number(ObjKind::Field, 0, MAX_PAGES)?;
    let words = cursor.number(ObjKind::Field, 0, MAX_WORDS)?;
    Ok(Counts {
        boards,
        pages,
        words,
    })
}

/// Reads so many instructions, for which room is taken once, for no more of them than the bytes that are left can hold.
fn code(alloc: Global, cursor: &mut Cursor<'_>, count: u32) -> Result<Vec<Instr>, Stop>
    ensures found { IfOk result (λ code.
        Begins (IsCounted IsInstr count) (list_fields instr_fields) cursor.old code.items cursor.new) }
    ensures fault { IfErr result (λ stop.
        IsStop (IsCounted IsInstr count) (list_fields instr_fields) cursor.old cursor.new stop) }
    ensures room { IfOk result (λ code. vec_capacity code ≤ length cursor.old / 4) }
{
    let count = count as usize;
    let mut code = Vec::with_capacity(alloc, count.min(cursor.left() / FIELD_BYTES))?;
    while code.len() < count {
        let instr = cursor.instr()?;
        code.push_reserved(instr);
    }
    Ok(code)
}

/// Reads a board.
fn board(alloc: Global, cursor: &mut Cursor<'_>) -> Result<BoardText, Stop>
    ensures found { IfOk result (λ board. Begins IsBoard board_fields cursor.old board cursor.new) }
    ensures fault { IfErr result (λ stop. IsStop IsBoard board_fields cursor.old cursor.new stop) }
{
    let segs = cursor.segments()?;
    let length = cursor.number(ObjKind::Field, 0, MAX_CODE)?;
    let code = code(alloc, cursor, length)?;
    Ok(BoardText {
        segs,
        code: Items::from_vec(code),
    })
}

/// Reads a page.
fn page(cursor: &mut Cursor<'_>) -> Result<PageText, Stop>
    ensures found { IfOk result (λ page. Begins IsPage page_fields cursor.old page cursor.new) }
    ensures fault { IfErr result (λ stop. IsStop IsPage page_fields cursor.old cursor.new stop) }
{
    let page = cursor.number(ObjKind::Field, 0, LAST_PAGE)?;
    let prot = cursor.protection()?;
    Ok(PageText { page, prot })
}

/// Reads a word.
fn word(cursor: &mut Cursor<'_>) -> Result<WordText, Stop>
    ensures found { IfOk result (λ word. Begins IsWord word_fields cursor.old word cursor.new) }
    ensures fault { IfErr result (λ stop. IsStop IsWord word_fields cursor.old cursor.new stop) }
{
    let segment = cursor.number(ObjKind::Field, 0, LAST_SEGMENT)?;
    let offset = cursor.offset()?;
    let value = cursor.number(ObjKind::Field, 0, u32::MAX)?;
    let at = GlobalAddr::of((u64::from(segment) << 30) + u64::from(offset)).unwrap();
    Ok(WordText { at, value })
}

/// Reads so many boards, for which room is taken once, for no more of them than the bytes that are left can hold.
fn boards(alloc: Global, cursor: &mut Cursor<'_>, count: u32) -> Result<Vec<BoardText>, Stop>
    ensures found { IfOk result (λ boards.
        Begins (IsCounted IsBoard count) (list_fields board_fields) cursor.old boards.items cursor.new) }
    ensures fault { IfErr result (λ stop.
        IsStop (IsCounted IsBoard count) (list_fields board_fields) cursor.old cursor.new stop) }
    ensures room { IfOk result (λ boards. vec_capacity boards ≤ length cursor.old / 8) }
{
    let count = count as usize;
    let mut boards = Vec::with_capacity(alloc, count.min(cursor.left() / BOARD_BYTES))?;
    while boards.len() < count {
        let board = board(alloc, cursor)?;
        boards.push_reserved(board);
    }
    Ok(boards)
}

/// Reads so many pages, for which room is taken once, for no more of them than the bytes that are left can hold.
fn pages(alloc: Global, cursor: &mut Cursor<'_>, count: u32) -> Result<Vec<PageText>, Stop>
    ensures found { IfOk result (λ pages.
        Begins (IsCounted IsPage count) (list_fields page_fields) cursor.old pages.items cursor.new) }
    ensures fault { IfErr result (λ stop.
        IsStop (IsCounted IsPage count) (list_fields page_fields) cursor.old cursor.new stop) }
    ensures room { IfOk result (λ pages. vec_capacity pages ≤ length cursor.old / 8) }
{
    let count = count as usize;
    let mut pages = Vec::with_capacity(alloc, count.min(cursor.left() / PAGE_BYTES))?;
    while pages.len() < count {
        let page = page(cursor)?;
        pages.push_reserved(page);
    }
    Ok(pages)
}

/// Reads so many words, for which room is taken once, for no more of them than the bytes that are left can hold.
fn words(alloc: Global, cursor: &mut Cursor<'_>, count: u32) -> Result<Vec<WordText>, Stop>
    ensures found { IfOk result (λ words.
        Begins (IsCounted IsWord count) (list_fields word_fields) cursor.old words.items cursor.new) }
    ensures fault { IfErr result (λ stop.
        IsStop (IsCounted IsWord count) (list_fields word_fields) cursor.old cursor.new stop) }
    ensures room { IfOk result (λ words. vec_capacity words ≤ length cursor.old / 12) }
{
    let count = count as usize;
    let mut words = Vec::with_capacity(alloc, count.min(cursor.left() / WORD_BYTES))?;
    while words.len() < count {
        let word = word(cursor)?;
        words.push_reserved(word);
    }
    Ok(words)
}

/// Reads a unit.
pub fn unit(alloc: Global, cursor: &mut Cursor<'_>) -> Result<Unit, Stop>
    ensures found { IfOk result (λ unit. Begins IsUnit unit_fields cursor.old unit cursor.new) }
    ensures fault { IfErr result (λ stop. IsStop IsUnit unit_fields cursor.old cursor.new stop) }
{
    let counts = head(cursor)?;
    let boards = boards(alloc, cursor, counts.boards)?;
    let pages = pages(alloc, cursor, counts.pages)?;
    let words = words(alloc, cursor, counts.words)?;
    Ok(Unit {
        boards: Items::from_vec(boards),
        pages: Items::from_vec(pages),
        words: Items::from_vec(words),
    })
}
