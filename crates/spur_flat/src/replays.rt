//! Whole histories that were worked out by hand, taken entry by entry by the flat memory and the tags.

ghost use Rattle.std.specs.Prelude.{◌≡◌, ◌<◌, ◌^◌, true, IfOk, length};
ghost use Rattle.spur_flat.specs.Blocks.{IsOfBoards};
ghost use Rattle.spur_flat.specs.Validity.{IsValidFlat};

use crate::{AccessKind, Clause, Entry, FaultKind, Flat, Illegal, Layer, Tags};
use spur_addr::{GlobalAddr, Protection, Pte};
use spur_list::Items;
use spur_snoop::Need;
use std::alloc::{AllocError, Global};
use std::process::Abort;
use std::test::Fail;

/// The address of the first word of the page table: of the entry of page 0 of segment 0.
const TABLE: u64 = 0x3f_c000_0000;

/// The address of the first word of the root: of the root entry of that page.
const ROOT: u64 = 0x3f_cff0_0000;

/// The pages 0, 1 and 2 of segment 0, each on its swap slot, under two data frames, 65 and 66. The page of the table
/// stands in frame 64, and the root's first word names it. All swapped words are 0 but one.
fn all_on_swap(
    alloc: Global,
    protection: Protection,
    place: usize,
    value: u32,
) -> Result<Flat, AllocError>
    requires { place < 3072 }
    ensures { IfOk result IsValidFlat }
{
    let mut words = Items::from_vec(vec![in alloc; 0u32; 68608]?);
    words.set(0, 0x40017);
    words.set(65536, Pte::swapped(0, protection).word());
    words.set(65537, Pte::swapped(1, protection).word());
    words.set(65538, Pte::swapped(2, protection).word());
    let mut swap = Items::from_vec(vec![in alloc; 0u32; 3072]?);
    swap.set(place, value);
    let mut pages = Items::from_vec(vec![in alloc; 0u32; 3]?);
    pages.set(1, 1);
    pages.set(2, 2);
    Ok(Flat {
        words,
        swap,
        pages,
        tables: 1,
        frames: 2,
    })
}

/// The tags of one board whose cache has 4096 lines.
fn wide(alloc: Global) -> Result<Tags, AllocError>
    ensures { IfOk result (λ tags. length tags ≡ 1) }
{
    Tags::new(alloc, 1, 4096)
}

/// The tags of one board whose cache has 16 lines.
fn narrow(alloc: Global) -> Result<Tags, AllocError>
    ensures { IfOk result (λ tags. length tags ≡ 1) }
{
    Tags::new(alloc, 1, 16)
}

/// The address with this number, below 2^38.
fn at(number: u64) -> GlobalAddr
    requires { number < 2 ^ 38 }
    ensures { result ≡ number }
{
    let Some(at) = GlobalAddr::of(number) else {
        unreachable!();
    };
    at
}

/// Whether board 0 makes the entry, and it names no other board.
fn is_of_board_zero(entry: &Entry) -> bool
    ensures { result ≡ true → IsOfBoards 1 entry.now }
{
    match entry {
        Entry::BlockFlush { board, holder, .. } => *board == 0 && *holder == 0,
        Entry::Load { board, .. }
        | Entry::Store { board, .. }
        | Entry::Tas { board, .. }
        | Entry::Fault { board, .. }
        | Entry::Fill { board, .. }
        | Entry::Claim { board, .. }
        | Entry::WriteBack { board, .. }
        | Entry::Refresh { board, .. }
        | Entry::Leave { board, .. }
        | Entry::PageOut { board, .. }
        | Entry::PageIn { board, .. }
        | Entry::SetRef { board, .. }
        | Entry::SetDirty { board, .. }
        | Entry::ClearRef { board, .. } => *board == 0,
    }
}

fn load(number: u64, value: u32) -> Entry
    requires { number < 2 ^ 38 }
{
    Entry::Load {
        board: 0,
        at: at(number),
        value,
    }
}

fn store(number: u64, value: u32) -> Entry
    requires { number < 2 ^ 38 }
{
    Entry::Store {
        board: 0,
        at: at(number),
        value,
    }
}

fn fault(kind: FaultKind, access: AccessKind, number: u64) -> Entry
    requires { number < 2 ^ 38 }
{
    Entry::Fault {
        board: 0,
        kind,
        access,
        at: at(number),
    }
}

fn fill(layer: Layer, need: Need, number: u64) -> Entry
    requires { number < 2 ^ 38 }
{
    Entry::Fill {
        board: 0,
        layer,
        need,
        at: at(number),
    }
}

/// The fills of the two tables' blocks, for reading.
fn fill_root() -> Entry {
    fill(Layer::RootBlock, Need::Read, ROOT)
}

fn fill_table() -> Entry {
    fill(Layer::PteBlock, Need::Read, TABLE)
}

/// The fills of a user's block.
fn fill_for_reading(number: u64) -> Entry
    requires { number < 2 ^ 38 }
{
    fill(Layer::UserBlock, Need::Read, number)
}

fn fill_for_writing(number: u64) -> Entry
    requires { number < 2 ^ 38 }
{
    fill(Layer::UserBlock, Need::Write, number)
}

fn claim(number: u64) -> Entry
    requires { number < 2 ^ 38 }
{
    Entry::Claim {
        board: 0,
        at: at(number),
    }
}

fn write_back(number: u64) -> Entry
    requires { number < 2 ^ 38 }
{
    Entry::WriteBack {
        board: 0,
        at: at(number),
    }
}

fn refresh(number: u64) -> Entry
    requires { number < 2 ^ 38 }
{
    Entry::Refresh {
        board: 0,
        at: at(number),
    }
}

fn flush(number: u64) -> Entry
    requires { number < 2 ^ 38 }
{
    Entry::BlockFlush {
        board: 0,
        holder: 0,
        at: at(number),
    }
}

fn leave(number: u64) -> Entry
    requires { number < 2 ^ 38 }
{
    Entry::Leave {
        board: 0,
        at: at(number),
    }
}

fn page_out(number: u64) -> Entry
    requires { number < 2 ^ 38 }
{
    Entry::PageOut {
        board: 0,
        at: at(number),
    }
}

fn page_in(number: u64, frame: u32) -> Entry
    requires { number < 2 ^ 38 }
{
    Entry::PageIn {
        board: 0,
        at: at(number),
        frame,
    }
}

fn set_referenced(number: u64) -> Entry
    requires { number < 2 ^ 38 }
{
    Entry::SetRef {
        board: 0,
        at: at(number),
    }
}

fn set_dirty(number: u64) -> Entry
    requires { number < 2 ^ 38 }
{
    Entry::SetDirty {
        board: 0,
        at: at(number),
    }
}

fn clear_referenced(number: u64) -> Entry
    requires { number < 2 ^ 38 }
{
    Entry::ClearRef {
        board: 0,
        at: at(number),
    }
}

/// Takes entries one after the other: the tags with the flat memory before the entry, then the flat memory. None of
/// them is refused.
fn replay(rt: &impl Abort, flat: &mut Flat, tags: &mut Tags, entries: &[Entry])
    requires valid { IsValidFlat flat.old }
    requires one_board { length tags.old ≡ 1 }
    ensures valid { IsValidFlat flat.new }
    ensures one_board { length tags.new ≡ 1 }
{
    for entry in entries {
        assert!(rt; is_of_board_zero(entry));
        assert_eq!(rt; tags.apply(flat, entry), Ok(()), "tags, at {entry:?}");
        assert_eq!(rt; flat.apply(entry), Ok(()), "memory, at {entry:?}");
    }
}

/// Brings page 0 into frame 65, since a load at 64 found it on swap.
fn first_page_in() -> [Entry; 5] {
    [
        fill_root(),
        fill_table(),
        fault(FaultKind::Missing, AccessKind::Load, 0x40),
        claim(TABLE),
        page_in(0, 65),
    ]
}

#[test]
fn a_load_and_a_store(rt: HostRuntime) -> Result<(), Fail> {
    let mut flat = all_on_swap(rt.alloc(), Protection::ReadWrite, 16, 41)?;
    let mut tags = wide(rt.alloc())?;
    replay(&rt, &mut flat, &mut tags, first_page_in().as_slice());
    let rest = [
        fill_for_reading(0x40),
        load(0x40, 41),
        fault(FaultKind::Dirty, AccessKind::Store, 0x40),
        set_dirty(0),
        refresh(0x40),
        claim(0x40),
        store(0x40, 42),
    ];
    replay(&rt, &mut flat, &mut tags, rest.as_slice());
    assert_eq!(rt; flat.walk(at(0x40)).map(Pte::word), Some(0x41017));
    Ok(())
}

#[test]
fn three_blocks_on_one_line(rt: HostRuntime) -> Result<(), Fail> {
    let mut flat = all_on_swap(rt.alloc(), Protection::ReadWrite, 0, 41)?;
    let mut tags = narrow(rt.alloc())?;
    let entries = [
        fill_root(),
        fill_table(),
        fault(FaultKind::Missing, AccessKind::Load, 0),
        claim(TABLE),
        page_in(0, 65),
        write_back(TABLE),
        fill_for_reading(0),
        load(0, 41),
        fill_root(),
        fill_table(),
        fault(FaultKind::Dirty, AccessKind::Store, 0),
        claim(TABLE),
        set_dirty(0),
        write_back(TABLE),
        fill_for_writing(0),
        store(0, 42),
    ];
    replay(&rt, &mut flat, &mut tags, entries.as_slice());
    Ok(())
}

#[test]
fn a_dirty_copy_is_refreshed(rt: HostRuntime) -> Result<(), Fail> {
    let mut flat = all_on_swap(rt.alloc(), Protection::ReadWrite, 16, 0)?;
    let mut tags = wide(rt.alloc())?;
    replay(&rt, &mut flat, &mut tags, first_page_in().as_slice());
    let rest = [
        fill_for_reading(0x40),
        load(0x40, 0),
        fill_for_reading(0x60),
        load(0x60, 0),
        fault(FaultKind::Dirty, AccessKind::Store, 0x60),
        set_dirty(0),
        refresh(0x60),
        claim(0x60),
        store(0x60, 0),
        refresh(0x40),
        claim(0x40),
        store(0x40, 0),
    ];
    replay(&rt, &mut flat, &mut tags, rest.as_slice());
    Ok(())
}

#[test]
fn a_clean_page_goes_out(rt: HostRuntime) -> Result<(), Fail> {
    let mut flat = all_on_swap(rt.alloc(), Protection::ReadOnly, 16, 0)?;
    let mut tags = wide(rt.alloc())?;
    replay(&rt, &mut flat, &mut tags, first_page_in().as_slice());
    let rest = [
        fill_for_reading(0x40),
        load(0x40, 0),
        fault(FaultKind::Missing, AccessKind::Load, 0x1040),
        page_in(0x1000, 66),
        fill_for_reading(0x1040),
        load(0x1040, 0),
        fault(FaultKind::Missing, AccessKind::Load, 0x2040),
        clear_referenced(0),
        clear_referenced(0x1000),
        leave(0),
        flush(0x40),
        page_out(0),
        page_in(0x2000, 65),
        fill_for_reading(0x2040),
        load(0x2040, 0),
        load(0x1040, 0),
        fault(FaultKind::Reference, AccessKind::Load, 0x1060),
        set_referenced(0x1000),
        fill_for_reading(0x1060),
        load(0x1060, 0),
    ];
    replay(&rt, &mut flat, &mut tags, rest.as_slice());
    assert_eq!(rt; flat.walk(at(0)).map(Pte::word), Some(0x28));
    Ok(())
}

#[test]
fn two_dirty_pages_go_out(rt: HostRuntime) -> Result<(), Fail> {
    let mut flat = all_on_swap(rt.alloc(), Protection::ReadWrite, 16, 0)?;
    let mut tags = wide(rt.alloc())?;
    let first = [
        fill_root(),
        fill_table(),
        fault(FaultKind::Missing, AccessKind::Store, 0x40),
        claim(TABLE),
        page_in(0, 65),
        fault(FaultKind::Dirty, AccessKind::Store, 0x40),
        set_dirty(0),
        fill_for_writing(0x40),
        store(0x40, 5),
    ];
    replay(&rt, &mut flat, &mut tags, first.as_slice());
    let second = [
        fault(FaultKind::Missing, AccessKind::Store, 0x1040),
        clear_referenced(0),
        leave(0),
        flush(0x40),
        page_out(0),
        page_in(0x1000, 65),
        fault(FaultKind::Dirty, AccessKind::Store, 0x1040),
        set_dirty(0x1000),
        fill_for_writing(0x1040),
        store(0x1040, 5),
    ];
    replay(&rt, &mut flat, &mut tags, second.as_slice());
    let third = [
        fault(FaultKind::Missing, AccessKind::Load, 0x40),
        clear_referenced(0x1000),
        leave(0x1000),
        flush(0x1040),
        page_out(0x1000),
        page_in(0, 65),
        fill_for_reading(0x40),
        load(0x40, 5),
    ];
    replay(&rt, &mut flat, &mut tags, third.as_slice());
    let swapped = [flat.swap.as_slice().get(16), flat.swap.as_slice().get(1040)];
    assert_eq!(rt; swapped, [Some(&5), Some(&5)]);
    Ok(())
}

/// A refusal.
fn refused(clause: Clause, wanted: u64, found: u64) -> Illegal {
    Illegal {
        clause,
        wanted,
        found,
    }
}

/// An entry is refused so, by the tags where the rule is theirs, and else by the flat memory.
fn refuses(rt: &impl Abort, flat: &mut Flat, tags: &mut Tags, entry: &Entry, why: Illegal)
    requires valid { IsValidFlat flat.old }
    requires one_board { length tags.old ≡ 1 }
    ensures valid { IsValidFlat flat.new }
    ensures one_board { length tags.new ≡ 1 }
{
    assert!(rt; is_of_board_zero(entry));
    let answer = match why.clause {
        Clause::Tags => tags.apply(flat, entry),
        _ => flat.apply(entry),
    };
    assert_eq!(rt; answer, Err(why), "at {entry:?}");
}

#[test]
fn nothing_may_come_first_but_the_root(rt: HostRuntime) -> Result<(), Fail> {
    let mut flat = all_on_swap(rt.alloc(), Protection::ReadWrite, 16, 41)?;
    let mut tags = wide(rt.alloc())?;
    let rows = [
        (load(0x40, 41), refused(Clause::Fault, 3, 0)),
        (
            fault(FaultKind::Reference, AccessKind::Load, 0x40),
            refused(Clause::Fault, 3, 6),
        ),
        (fill_for_reading(0x40), refused(Clause::Tags, 8, 0)),
        (fill_table(), refused(Clause::Tags, 9, 0)),
        (claim(ROOT), refused(Clause::Tags, 12, 0)),
        (flush(TABLE), refused(Clause::Tags, 16, 0)),
        (leave(ROOT), refused(Clause::Pager, 1, 0)),
        (page_in(0, 64), refused(Clause::Pager, 5, 64)),
        (page_in(0, 65), refused(Clause::Tags, 4, 0)),
    ];
    for (entry, why) in rows.as_slice() {
        refuses(&rt, &mut flat, &mut tags, entry, *why);
    }
    replay(&rt, &mut flat, &mut tags, [fill_root()].as_slice());
    Ok(())
}

#[test]
fn a_load_has_its_block_and_its_word(rt: HostRuntime) -> Result<(), Fail> {
    let mut flat = all_on_swap(rt.alloc(), Protection::ReadWrite, 16, 41)?;
    let mut tags = wide(rt.alloc())?;
    replay(&rt, &mut flat, &mut tags, first_page_in().as_slice());
    let without_block = refused(Clause::Tags, 1, 0);
    refuses(&rt, &mut flat, &mut tags, &load(0x40, 41), without_block);
    replay(
        &rt,
        &mut flat,
        &mut tags,
        [fill_for_reading(0x40)].as_slice(),
    );
    let another_word = refused(Clause::Answer, 41, 42);
    refuses(&rt, &mut flat, &mut tags, &load(0x40, 42), another_word);
    replay(&rt, &mut flat, &mut tags, [load(0x40, 41)].as_slice());
    Ok(())
}
