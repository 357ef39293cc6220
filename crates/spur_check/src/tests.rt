//! What histories are judged, worked out by hand: for each rule, and for each condition that has a number, one that is
//! refused by it, and some that are good.
//!
//! Each begins with so many entries of the first example: a board loads the word at 64 of a page that may be read and
//! written, adds 1 and stores it. The page behind that one may only be read.

ghost use Rattle.std.specs.Prelude.{◌≡◌, ◌<◌, ◌^◌, ◌≤◌, IfOk, IsTrue, length};
ghost use Rattle.std.specs.List.{All};
ghost use Rattle.spur_flat.specs.Blocks.{IsOfBoards};
ghost use Rattle.spur_object.specs.Limits.{IsUnit};
ghost use Rattle.spur_loader.specs.Limits.{IsOptions};
ghost use Rattle.spur_loader.specs.Opening.{board_count};
ghost use Rattle.spur_check.specs.Judged.{MayBeJudged};

use crate::{Verdict, check};
use spur_addr::{GlobalAddr, Protection};
use spur_flat::{AccessKind, Clause, Entry, FaultKind, Layer};
use spur_isa::{Instr, Reg};
use spur_list::Items;
use spur_loader::{Opening, Options, load};
use spur_object::{BoardText, PageText, Unit, WordText};
use spur_snoop::Need;
use std::alloc::{AllocError, Global};
use std::process::Abort;
use std::test::Fail;

/// The block with the page-table entries of the first pages.
const TABLE: u64 = 0x3f_c000_0000;

/// The block with the root entries by which those are found.
const ROOT: u64 = 0x3f_cff0_0000;

/// The page-table entry of the first page: on swap, and when it has come into frame 65 and nothing was written.
const SWAPPED: u64 = 0x30;

const CLEAN: u64 = 0x4_1013;

/// Whether the boards that an entry names are there.
fn is_of_boards(boards: u32, entry: &Entry) -> bool
    ensures { IsTrue result → IsOfBoards boards entry.now }
{
    match entry {
        Entry::BlockFlush { board, holder, .. } => *board < boards && *holder < boards,
        Entry::Load { board, .. }
        | Entry::Store { board, .. }
        | Entry::Tas { board, .. }
        | Entry::Fault { board, .. }
        | Entry::Fill { board, .. }
        | Entry::Claim { board, .. }
        | Entry::WriteBack { board, .. }
        | Entry::Refresh { board, .. }
        | Entry::Leave { board, .. }
        | Entry::PageOut { board, .. }
        | Entry::PageIn { board, .. }
        | Entry::SetRef { board, .. }
        | Entry::SetDirty { board, .. }
        | Entry::ClearRef { board, .. } => *board < boards,
    }
}

/// Whether all entries name boards that are there.
fn are_of_boards(boards: u32, entries: &[Entry]) -> bool
    ensures { IsTrue result → All (IsOfBoards boards) entries.now }
{
    for entry in entries {
        if !is_of_boards(boards, entry) {
            return false;
        }
    }
    true
}

/// So many boards without code, the first two pages, and the word 41 at 64.
fn unit(alloc: Global, count: u32) -> Result<Unit, AllocError>
    requires some { 1 ≤ count }
    requires few { count ≤ 12 }
    ensures unit { IfOk result IsUnit }
    ensures boards { IfOk result (λ unit. length unit.boards ≡ count) }
{
    let mut boards = Items::new(alloc);
    for _ in 0..count {
        boards.push(BoardText {
            segs: [0, 1, 2, 3],
            code: Items::new(alloc),
        })?;
    }
    let pages = [
        page(0, Protection::ReadWrite),
        page(1, Protection::ReadOnly),
    ];
    let words = [WordText {
        at: at(64),
        value: 41,
    }];
    Ok(Unit {
        boards,
        pages: Items::from_vec(pages.to_vec(alloc)?),
        words: Items::from_vec(words.to_vec(alloc)?),
    })
}

/// A page of segment 0.
fn page(number: u32, prot: Protection) -> PageText
    ensures { result.page ≡ number }
{
    PageText { page: number, prot }
}

/// 256 data frames, caches of 4096 lines, and this budget.
fn with_budget(budget: u32) -> Options
    requires some { 1 ≤ budget }
    requires few { budget ≤ 250000 }
    ensures { IsOptions result }
{
    Options {
        frames: 256,
        lines: 4096,
        budget,
        ahead: 0,
    }
}

/// The opening of so many boards with this code, 1 to 12, each with this budget, 1 to 250,000.
fn opening(alloc: Global, count: u32, code: &[Instr], budget: u32) -> Result<Opening, Fail>
    ensures judged { IfOk result MayBeJudged }
    ensures boards { IfOk result (λ opening. board_count opening ≡ count) }
{
    if count < 1 || count > 12 || budget < 1 || budget > 250_000 {
        return Err("boards and a budget".into());
    }
    let mut codes = Vec::new(alloc);
    for _ in 0..count {
        codes.push(Items::from_vec(code.to_vec(alloc)?))?;
    }
    let unit = unit(alloc, count)?;
    let opening = load(alloc, &unit, &with_budget(budget))?;
    Ok(Opening {
        code: Items::from_vec(codes),
        ..opening
    })
}

/// A history that begins with so many entries of the first example, and goes on with more.
fn history(alloc: Global, first: usize, more: &[Entry]) -> Result<Vec<Entry>, AllocError> {
    let mut entries = Vec::new(alloc);
    for (k, entry) in example().iter().enumerate() {
        if k < first {
            entries.push(*entry)?;
        }
    }
    for entry in more {
        entries.push(*entry)?;
    }
    Ok(entries)
}

/// What a history of so many boards with this code and this budget is judged.
fn judge(
    alloc: Global,
    count: u32,
    code: &[Instr],
    budget: u32,
    entries: &[Entry],
) -> Result<Verdict, Fail> {
    let opening = opening(alloc, count, code, budget)?;
    if !are_of_boards(count, entries) {
        return Err("the boards are there".into());
    }
    Ok(check(alloc, opening, entries)?)
}

/// What histories of such boards are judged: each begins with so many entries of the first example, and goes on with
/// more.
fn judges(
    rt: &impl Abort,
    alloc: Global,
    count: u32,
    code: &[Instr],
    budget: u32,
    rows: &[(usize, &[Entry], Verdict)],
) -> Result<(), Fail> {
    for (first, more, verdict) in rows {
        let entries = history(alloc, *first, more)?;
        assert_eq!(rt;
            judge(alloc, count, code, budget, &entries)?,
            *verdict,
            "after {first}: {more:?}"
        );
    }
    Ok(())
}

/// The address with this number, below 2^38.
fn at(number: u64) -> GlobalAddr
    requires { number < 2 ^ 38 }
    ensures { result ≡ number }
{
    let Some(at) = GlobalAddr::of(number) else {
        unreachable!();
    };
    at
}

fn fill_by(board: u32, layer: Layer, need: Need, number: u64) -> Entry
    requires { number < 2 ^ 38 }
{
    let at = at(number);
    Entry::Fill {
        board,
        layer,
        need,
        at,
    }
}

fn fill(layer: Layer, number: u64) -> Entry
    requires { number < 2 ^ 38 }
{
    fill_by(0, layer, Need::Read, number)
}

fn claim(number: u64) -> Entry
    requires { number < 2 ^ 38 }
{
    let at = at(number);
    Entry::Claim { board: 0, at }
}

fn load_by(board: u32, number: u64, value: u32) -> Entry
    requires { number < 2 ^ 38 }
{
    let at = at(number);
    Entry::Load { board, at, value }
}

fn load_at(number: u64, value: u32) -> Entry
    requires { number < 2 ^ 38 }
{
    load_by(0, number, value)
}

fn store_at(number: u64, value: u32) -> Entry
    requires { number < 2 ^ 38 }
{
    let at = at(number);
    Entry::Store {
        board: 0,
        at,
        value,
    }
}

fn fault(kind: FaultKind, access: AccessKind, number: u64) -> Entry
    requires { number < 2 ^ 38 }
{
    let at = at(number);
    Entry::Fault {
        board: 0,
        kind,
        access,
        at,
    }
}

/// A fault of the load of the first example.
fn load_fault(kind: FaultKind) -> Entry {
    fault(kind, AccessKind::Load, 64)
}

fn page_in(number: u64, frame: u32) -> Entry
    requires { number < 2 ^ 38 }
{
    let at = at(number);
    Entry::PageIn {
        board: 0,
        at,
        frame,
    }
}

fn write_back(number: u64) -> Entry
    requires { number < 2 ^ 38 }
{
    let at = at(number);
    Entry::WriteBack { board: 0, at }
}

fn refresh(number: u64) -> Entry
    requires { number < 2 ^ 38 }
{
    let at = at(number);
    Entry::Refresh { board: 0, at }
}

fn leave(number: u64) -> Entry
    requires { number < 2 ^ 38 }
{
    let at = at(number);
    Entry::Leave { board: 0, at }
}

fn page_out(number: u64) -> Entry
    requires { number < 2 ^ 38 }
{
    let at = at(number);
    Entry::PageOut { board: 0, at }
}

fn set_ref(number: u64) -> Entry
    requires { number < 2 ^ 38 }
{
    let at = at(number);
    Entry::SetRef { board: 0, at }
}

fn set_dirty(number: u64) -> Entry
    requires { number < 2 ^ 38 }
{
    let at = at(number);
    Entry::SetDirty { board: 0, at }
}

fn clear_ref(number: u64) -> Entry
    requires { number < 2 ^ 38 }
{
    let at = at(number);
    Entry::ClearRef { board: 0, at }
}

fn flush(number: u64) -> Entry
    requires { number < 2 ^ 38 }
{
    let at = at(number);
    Entry::BlockFlush {
        board: 0,
        holder: 0,
        at,
    }
}

/// The history of the first example.
fn example() -> [Entry; 12] {
    [
        fill(Layer::RootBlock, ROOT),
        fill(Layer::PteBlock, TABLE),
        fault(FaultKind::Missing, AccessKind::Load, 64),
        claim(TABLE),
        page_in(0, 65),
        fill(Layer::UserBlock, 64),
        load_at(64, 41),
        fault(FaultKind::Dirty, AccessKind::Store, 64),
        set_dirty(0),
        refresh(64),
        claim(64),
        store_at(64, 42),
    ]
}

/// The code of the first example.
fn example_code() -> Result<[Instr; 4], Fail> {
    let a = Reg::of(1).ok_or("register 1")?;
    let b = Reg::ZERO;
    Ok([
        Instr::Ld { a, b, i: 64 },
        Instr::AddI { a, b: a, i: 1 },
        Instr::St { a, b, i: 64 },
        Instr::Halt,
    ])
}

fn good(entries: u64) -> Verdict {
    Verdict::Good { entries }
}

fn bad(at: u64, clause: Clause, wanted: u64, found: u64) -> Verdict {
    Verdict::Bad {
        at,
        clause,
        wanted,
        found,
    }
}

#[test]
fn programs_are_followed_within_their_budgets(rt: HostRuntime) -> Result<(), Fail> {
    let code = example_code()?;
    let rows: [(usize, &[Entry], Verdict); 7] = [
        (12, &[], good(12)),
        (4, &[page_in(0, 300)], good(5)),
        (
            4,
            &[
                page_in(0, 300),
                clear_ref(0),
                fault(FaultKind::Reference, AccessKind::Load, 64),
                set_ref(0),
                leave(0),
                fault(FaultKind::Leaving, AccessKind::Load, 64),
                page_out(0),
            ],
            good(11),
        ),
        (7, &[load_at(64, 41)], bad(8, Clause::Program, 2, 1)),
        (6, &[load_at(68, 41)], bad(7, Clause::Program, 64, 68)),
        (11, &[store_at(64, 43)], bad(12, Clause::Program, 42, 43)),
        (12, &[load_at(64, 42)], bad(13, Clause::Program, 0, 1)),
    ];
    judges(&rt, rt.alloc(), 1, &code, 100_000, &rows)?;
    let spent: [(usize, &[Entry], Verdict); 1] = [(12, &[], bad(8, Clause::Program, 0, 2))];
    judges(&rt, rt.alloc(), 1, &code, 2, &spent)?;
    let met: [(usize, &[Entry], Verdict); 1] = [(12, &[], good(12))];
    judges(&rt, rt.alloc(), 1, &code, 3, &met)
}

#[test]
fn the_plain_machine_refuses(rt: HostRuntime) -> Result<(), Fail> {
    let rows: [(usize, &[Entry], Verdict); 20] = [
        // what an access may be answered
        (0, &[load_at(64, 41)], bad(1, Clause::Fault, 3, 0)),
        (7, &[store_at(64, 42)], bad(8, Clause::Fault, 7, 0)),
        (
            0,
            &[load_fault(FaultKind::Align)],
            bad(1, Clause::Fault, 3, 1),
        ),
        (
            0,
            &[load_fault(FaultKind::Unmapped)],
            bad(1, Clause::Fault, 3, 2),
        ),
        (
            5,
            &[load_fault(FaultKind::Missing)],
            bad(6, Clause::Fault, 0, 3),
        ),
        (
            0,
            &[load_fault(FaultKind::Leaving)],
            bad(1, Clause::Fault, 3, 4),
        ),
        (
            0,
            &[load_fault(FaultKind::Protection)],
            bad(1, Clause::Fault, 3, 5),
        ),
        (
            0,
            &[load_fault(FaultKind::Reference)],
            bad(1, Clause::Fault, 3, 6),
        ),
        (
            0,
            &[load_fault(FaultKind::Dirty)],
            bad(1, Clause::Fault, 3, 7),
        ),
        // what is read
        (6, &[load_at(64, 42)], bad(7, Clause::Answer, 41, 42)),
        // the pager
        (0, &[leave(8192)], bad(1, Clause::Pager, 1, 0)),
        (0, &[leave(0)], bad(1, Clause::Pager, 2, SWAPPED)),
        (0, &[page_out(0)], bad(1, Clause::Pager, 3, SWAPPED)),
        (5, &[page_in(0, 66)], bad(6, Clause::Pager, 4, CLEAN)),
        (0, &[page_in(0, 64)], bad(1, Clause::Pager, 5, 64)),
        (5, &[page_in(4096, 65)], bad(6, Clause::Pager, 5, 65)),
        (0, &[set_ref(0)], bad(1, Clause::Pager, 6, SWAPPED)),
        (0, &[set_dirty(0)], bad(1, Clause::Pager, 7, SWAPPED)),
        (
            2,
            &[claim(TABLE), page_in(4096, 65), set_dirty(4096)],
            bad(5, Clause::Pager, 7, 0x4_100b),
        ),
        (0, &[clear_ref(0)], bad(1, Clause::Pager, 8, SWAPPED)),
    ];
    judges(&rt, rt.alloc(), 1, &example_code()?, 100_000, &rows)
}

#[test]
fn the_accesses_of_other_programs_are_refused(rt: HostRuntime) -> Result<(), Fail> {
    let a = Reg::of(1).ok_or("register 1")?;
    let b = Reg::ZERO;
    let unaligned: [(usize, &[Entry], Verdict); 2] = [
        (0, &[load_at(2, 0)], bad(1, Clause::Fault, 1, 0)),
        (
            0,
            &[fault(FaultKind::Align, AccessKind::Load, 2), load_at(2, 0)],
            bad(2, Clause::Program, 0, 1),
        ),
    ];
    judges(
        &rt,
        rt.alloc(),
        1,
        &[Instr::Ld { a, b, i: 2 }],
        9,
        &unaligned,
    )?;
    let unmapped: [(usize, &[Entry], Verdict); 1] = [(
        0,
        &[load_at(8192, 0)],
        bad(1, Clause::Fault, 2, 0),
    )];
    judges(
        &rt,
        rt.alloc(),
        1,
        &[Instr::Ld { a, b, i: 8192 }],
        9,
        &unmapped,
    )?;
    let protected: [(usize, &[Entry], Verdict); 1] = [(
        2,
        &[claim(TABLE), page_in(4096, 65), store_at(4096, 0)],
        bad(5, Clause::Fault, 5, 0),
    )];
    judges(
        &rt,
        rt.alloc(),
        1,
        &[Instr::St { a, b, i: 4096 }],
        9,
        &protected,
    )?;
    let test_and_set: [(usize, &[Entry], Verdict); 1] = [(
        2,
        &[
            claim(TABLE),
            page_in(0, 65),
            set_dirty(0),
            fill_by(0, Layer::UserBlock, Need::Write, 64),
            Entry::Tas {
                board: 0,
                at: at(64),
                old: 42,
            },
        ],
        bad(7, Clause::Answer, 41, 42),
    )];
    judges(
        &rt,
        rt.alloc(),
        1,
        &[Instr::Tas { a, b, i: 64 }],
        9,
        &test_and_set,
    )
}

#[test]
fn the_lines_of_the_caches_refuse(rt: HostRuntime) -> Result<(), Fail> {
    let rows: [(usize, &[Entry], Verdict); 18] = [
        (5, &[load_at(64, 41)], bad(6, Clause::Tags, 1, 0)),
        (10, &[store_at(64, 42)], bad(11, Clause::Tags, 2, 1)),
        (
            9,
            &[claim(64), store_at(64, 42)],
            bad(11, Clause::Tags, 3, 0),
        ),
        (0, &[page_in(0, 65)], bad(1, Clause::Tags, 4, 0)),
        (0, &[fill(Layer::RootBlock, 64)], bad(1, Clause::Tags, 5, 0)),
        (
            1,
            &[fill(Layer::RootBlock, ROOT)],
            bad(2, Clause::Tags, 6, 1),
        ),
        (5, &[fill(Layer::UserBlock, 0)], bad(6, Clause::Tags, 7, 3)),
        (0, &[fill(Layer::UserBlock, 64)], bad(1, Clause::Tags, 8, 0)),
        (
            0,
            &[fill(Layer::PteBlock, TABLE)],
            bad(1, Clause::Tags, 9, 0),
        ),
        (
            2,
            &[fill(Layer::UserBlock, 64)],
            bad(3, Clause::Tags, 10, SWAPPED),
        ),
        (
            1,
            &[fill(Layer::PteBlock, TABLE + 4096)],
            bad(2, Clause::Tags, 11, 0),
        ),
        (0, &[claim(TABLE)], bad(1, Clause::Tags, 12, 0)),
        (2, &[write_back(TABLE)], bad(3, Clause::Tags, 13, 1)),
        (0, &[refresh(64)], bad(1, Clause::Tags, 14, 0)),
        (6, &[refresh(64)], bad(7, Clause::Tags, 15, CLEAN)),
        (0, &[flush(64)], bad(1, Clause::Tags, 16, 0)),
        (6, &[flush(64)], bad(7, Clause::Tags, 17, CLEAN)),
        (7, &[leave(0), page_out(0)], bad(9, Clause::Tags, 18, 0)),
    ];
    judges(&rt, rt.alloc(), 1, &example_code()?, 100_000, &rows)
}

/// The blocks of the root and of the page table that the first example fills first.
fn root() -> Entry {
    fill(Layer::RootBlock, ROOT)
}

fn table() -> Entry {
    fill(Layer::PteBlock, TABLE)
}

/// A block of other root entries, and that of the first example where it is filled to be owned.
fn other_root() -> Entry {
    fill(Layer::RootBlock, ROOT + 32)
}

fn owned_root() -> Entry {
    fill_by(0, Layer::RootBlock, Need::Write, ROOT)
}

#[test]
fn idle_entries_are_refused(rt: HostRuntime) -> Result<(), Fail> {
    let code = example_code()?;
    let rows: [(usize, &[Entry], Verdict); 3] = [
        (
            2,
            &[root(), table(), root(), table(), root()],
            bad(7, Clause::Needed, 1, 7),
        ),
        (
            1,
            &[other_root(), load_fault(FaultKind::Missing)],
            bad(3, Clause::Needed, 2, 2),
        ),
        (
            0,
            &[owned_root(), load_fault(FaultKind::Missing)],
            bad(2, Clause::Needed, 3, 1),
        ),
    ];
    judges(&rt, rt.alloc(), 1, &code, 100_000, &rows)
}

#[test]
fn histories_of_two_boards_are_refused(rt: HostRuntime) -> Result<(), Fail> {
    let code = example_code()?;
    let rows: [(usize, &[Entry], Verdict); 3] = [
        (
            0,
            &[
                fill_by(1, Layer::RootBlock, Need::Read, ROOT),
                other_root(),
                load_fault(FaultKind::Missing),
            ],
            bad(3, Clause::Needed, 2, 2),
        ),
        (
            0,
            &[
                fill_by(1, Layer::RootBlock, Need::Read, ROOT),
                owned_root(),
                load_fault(FaultKind::Missing),
            ],
            bad(3, Clause::Needed, 3, 2),
        ),
        (
            5,
            &[
                fill_by(1, Layer::RootBlock, Need::Read, ROOT),
                fill_by(1, Layer::PteBlock, Need::Read, TABLE),
                fill_by(1, Layer::UserBlock, Need::Read, 64),
                load_by(1, 64, 41),
                claim(TABLE),
                leave(0),
                page_out(0),
            ],
            bad(12, Clause::Tags, 18, 1),
        ),
    ];
    judges(&rt, rt.alloc(), 2, &code, 100_000, &rows)
}
