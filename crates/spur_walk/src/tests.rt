//! The walk on one cache, step by step.

ghost use Rattle.std.specs.Prelude.{◌≡◌, ◌<◌, ◌∷◌, [], IfOk, length, true};
ghost use Rattle.spur_addr.specs.Address.{table_start};
ghost use Rattle.spur_addr.specs.PageEntry.{is_valid};
ghost use Rattle.spur_cache.specs.Lens.{caches};
ghost use Rattle.spur_walk.specs.Begins.{may_begin};
ghost use Rattle.spur_walk.specs.Present.{MayWalk};
ghost use Rattle.spur_walk.specs.Tables.{logical_flat, root_at};

use crate::{Looked, Walked, advance, advance_entry, look};
use spur_addr::{GlobalAddr, Pte};
use spur_cache::{Cache, HasCache};
use spur_flat::{Entry, FaultKind, Layer};
use spur_phys::Phys;
use spur_snoop::{BlockState, Need};
use std::alloc::Global;
use std::process::Abort;
use std::test::Fail;

/// The root entry of the first page of the table, which stands in frame 64.
const ROOT_WORD: u32 = 0x40017;

/// The address of the first word of the root: of the root entry of page 0.
const ROOT: u64 = 0x3f_cff0_0000;

/// The address of the first word of the page table: of the entry of page 0.
const TABLE: u64 = 0x3f_c000_0000;

/// Whether a machine may have these two entries.
fn fits(root: u32, entry: Pte) -> bool
    ensures { result ≡ may_begin root entry }
{
    (root == 0 || root == ROOT_WORD) && (!entry.valid() || entry.number() == 65)
}

/// An empty cache, and a memory of 66 frames whose words are zero but for the root entry of page 0, at
/// physical byte 0, and the entry of page 0, at the first word of frame 64.
fn machine(alloc: Global, lines: u32, root: u32, entry: u32) -> Result<(Cache, Phys), Fail>
    ensures walk { IfOk result (λ made. MayWalk (made.0 ∷ []) made.1) }
    ensures root { IfOk result (λ made. root ≡ 262167 → is_valid (root_at (logical_flat (made.0 ∷ []) made.1) 0) ≡ true) }
{
    let Ok(entry) = Pte::read(entry) else {
        return Err(Fail::from("no entry"));
    };
    if !fits(root, entry) {
        return Err(Fail::from("other frames"));
    }
    let Ok(cache) = Cache::new(alloc, lines) else {
        return Err(Fail::from("no cache"));
    };
    let _ = cache.lines();
    let mut phys = Phys::new(alloc, 66)?;
    phys.set_word(0, root);
    phys.set_word(65536, entry.word());
    Ok((cache, phys))
}

/// The first four answers of `advance`.
fn follow<T: HasCache>(boards: &mut [T], phys: &mut Phys, at: GlobalAddr, need: Need) -> [Walked; 4]
    requires own { 0 < length boards.old }
    requires user { at < table_start }
    requires walk { MayWalk (caches T.lens boards.old) phys.old }
    ensures walk { MayWalk (caches T.lens boards.new) phys.new }
    ensures count { length boards.new ≡ length boards.old }
{
    let first = advance(boards, phys, 0, at, need);
    let second = advance(boards, phys, 0, at, need);
    let third = advance(boards, phys, 0, at, need);
    let fourth = advance(boards, phys, 0, at, need);
    [first, second, third, fourth]
}

/// The first four answers of `advance_entry`.
fn follow_entry<T: HasCache>(boards: &mut [T], phys: &mut Phys, page: GlobalAddr) -> [Walked; 4]
    requires own { 0 < length boards.old }
    requires user { page < table_start }
    requires walk { MayWalk (caches T.lens boards.old) phys.old }
    requires root { is_valid (root_at (logical_flat (caches T.lens boards.old) phys.old) page) ≡ true }
    ensures walk { MayWalk (caches T.lens boards.new) phys.new }
    ensures count { length boards.new ≡ length boards.old }
{
    let first = advance_entry(boards, phys, 0, page);
    let second = advance_entry(boards, phys, 0, page);
    let third = advance_entry(boards, phys, 0, page);
    let fourth = advance_entry(boards, phys, 0, page);
    [first, second, third, fourth]
}

/// Whether an answer is that a block was filled.
fn is_fill(answer: Walked, layer: Layer, need: Need, at: u64) -> bool {
    match GlobalAddr::of(at) {
        Some(at) => {
            answer
                == Walked::Moved(Entry::Fill {
                    board: 0,
                    layer,
                    need,
                    at,
                })
        }
        None => false,
    }
}

/// What an access of board 0 is told by its cache.
fn told<T: HasCache>(boards: &[T], at: GlobalAddr, need: Need) -> Looked {
    match boards.first() {
        Some(board) => look(board.cache(), at, need),
        None => Looked::Miss,
    }
}

/// The state of a block in the cache of board 0.
fn state<T: HasCache>(boards: &[T], at: GlobalAddr) -> BlockState {
    match boards.first() {
        Some(board) => match board.cache().find(at) {
            Some(line) => line.state,
            None => BlockState::Invalid,
        },
        None => BlockState::Invalid,
    }
}

#[test]
fn an_access_brings_the_root_block_the_entry_and_then_its_own_block(
    rt: HostRuntime,
) -> Result<(), Fail> {
    let at = GlobalAddr::of(0x40).ok_or("no address")?;
    // the entry of the page, the need, and the fault that follows the fills of the root block and of
    // the entry's; where there is none, the access's own block is filled, in this state
    let rows = [
        (0x41017, Need::Read, None, BlockState::UnOwned),
        (0x41017, Need::Write, None, BlockState::OwnedExclusive),
        (0x41013, Need::Read, None, BlockState::UnOwned),
        (
            0x41013,
            Need::Write,
            Some(FaultKind::Dirty),
            BlockState::Invalid,
        ),
        (
            0x41011,
            Need::Read,
            Some(FaultKind::Reference),
            BlockState::Invalid,
        ),
        (
            0x41057,
            Need::Read,
            Some(FaultKind::Leaving),
            BlockState::Invalid,
        ),
        (
            0x4100f,
            Need::Write,
            Some(FaultKind::Protection),
            BlockState::Invalid,
        ),
        (
            0x30,
            Need::Read,
            Some(FaultKind::Missing),
            BlockState::Invalid,
        ),
        (
            0,
            Need::Read,
            Some(FaultKind::Unmapped),
            BlockState::Invalid,
        ),
    ];
    for (entry, need, fault, held) in rows {
        let (cache, mut phys) = machine(rt.alloc(), 4096, ROOT_WORD, entry)?;
        let mut boards = [cache];
        let [first, second, third, fourth] = follow(&mut boards, &mut phys, at, need);
        assert!(rt; is_fill(first, Layer::RootBlock, Need::Read, ROOT));
        assert!(rt; is_fill(second, Layer::PteBlock, Need::Read, TABLE));
        match fault {
            Some(kind) => {
                assert_eq!(rt; third, Walked::Fault(kind));
                assert_eq!(rt; fourth, Walked::Fault(kind));
            }
            None => {
                assert!(rt; is_fill(third, Layer::UserBlock, need, 0x40));
                assert_eq!(rt; fourth, Walked::Ready);
            }
        }
        assert_eq!(rt; state(&boards, at), held);
    }
    Ok(())
}

#[test]
fn a_page_whose_root_entry_is_not_valid_is_unmapped(rt: HostRuntime) -> Result<(), Fail> {
    let at = GlobalAddr::of(0x40).ok_or("no address")?;
    let (cache, mut phys) = machine(rt.alloc(), 4096, 0, 0x41017)?;
    let mut boards = [cache];
    let [first, second, third, fourth] = follow(&mut boards, &mut phys, at, Need::Read);
    assert!(rt; is_fill(first, Layer::RootBlock, Need::Read, ROOT));
    assert_eq!(rt; second, Walked::Fault(FaultKind::Unmapped));
    assert_eq!(rt; third, Walked::Fault(FaultKind::Unmapped));
    assert_eq!(rt; fourth, Walked::Fault(FaultKind::Unmapped));
    Ok(())
}

#[test]
fn the_three_blocks_may_share_one_line(rt: HostRuntime) -> Result<(), Fail> {
    let at = GlobalAddr::of(0).ok_or("no address")?;
    let (cache, mut phys) = machine(rt.alloc(), 16, ROOT_WORD, 0x41017)?;
    let mut boards = [cache];
    let [first, second, third, fourth] = follow(&mut boards, &mut phys, at, Need::Read);
    assert!(rt; is_fill(first, Layer::RootBlock, Need::Read, ROOT));
    assert!(rt; is_fill(second, Layer::PteBlock, Need::Read, TABLE));
    assert!(rt; is_fill(third, Layer::UserBlock, Need::Read, 0));
    assert_eq!(rt; fourth, Walked::Ready);
    // each fill replaced the block before it
    let root = GlobalAddr::of(ROOT).ok_or("no address")?;
    let table = GlobalAddr::of(TABLE).ok_or("no address")?;
    assert_eq!(rt; state(&boards, root), BlockState::Invalid);
    assert_eq!(rt; state(&boards, table), BlockState::Invalid);
    assert_eq!(rt; state(&boards, at), BlockState::UnOwned);
    assert_eq!(rt; told(&boards, at, Need::Read), Looked::Hit);
    Ok(())
}

#[test]
fn a_write_after_a_read_claims_the_block_or_has_a_fault(rt: HostRuntime) -> Result<(), Fail> {
    let at = GlobalAddr::of(0x40).ok_or("no address")?;
    // the entry of the page, what the cache says of a write after a read, the fault of the write, and
    // the state of the block after it; where there is no fault, the block is claimed
    let rows = [
        (
            0x41017,
            Looked::NeedsClaim,
            None,
            BlockState::OwnedExclusive,
        ),
        (
            0x41013,
            Looked::NeedsDirty,
            Some(FaultKind::Dirty),
            BlockState::UnOwned,
        ),
        (
            0x4100b,
            Looked::Denied,
            Some(FaultKind::Protection),
            BlockState::UnOwned,
        ),
    ];
    for (entry, said, fault, held) in rows {
        let (cache, mut phys) = machine(rt.alloc(), 4096, ROOT_WORD, entry)?;
        let mut boards = [cache];
        assert_eq!(rt; told(&boards, at, Need::Read), Looked::Miss);
        let _ = follow(&mut boards, &mut phys, at, Need::Read);
        assert_eq!(rt; told(&boards, at, Need::Read), Looked::Hit);
        assert_eq!(rt; told(&boards, at, Need::Write), said);
        let [first, second, _, _] = follow(&mut boards, &mut phys, at, Need::Write);
        match fault {
            Some(kind) => {
                assert_eq!(rt; first, Walked::Fault(kind));
                assert_eq!(rt; second, Walked::Fault(kind));
            }
            None => {
                assert_eq!(rt; first, Walked::Moved(Entry::Claim { board: 0, at }));
                assert_eq!(rt; second, Walked::Ready);
            }
        }
        assert_eq!(rt; state(&boards, at), held);
    }
    Ok(())
}

#[test]
fn an_entry_that_is_owned_goes_back_before_its_line_is_filled(rt: HostRuntime) -> Result<(), Fail> {
    let at = GlobalAddr::of(0).ok_or("no address")?;
    let table = GlobalAddr::of(TABLE).ok_or("no address")?;
    let (cache, mut phys) = machine(rt.alloc(), 16, ROOT_WORD, 0x41017)?;
    let mut boards = [cache];
    let [first, second, third, fourth] = follow_entry(&mut boards, &mut phys, at);
    assert!(rt; is_fill(first, Layer::RootBlock, Need::Read, ROOT));
    assert!(rt; is_fill(second, Layer::PteBlock, Need::Write, TABLE));
    assert_eq!(rt; third, Walked::Ready);
    assert_eq!(rt; fourth, Walked::Ready);
    assert_eq!(rt; state(&boards, table), BlockState::OwnedExclusive);
    // the block of the entry stands on the line of the access's own
    let [first, second, third, _] = follow(&mut boards, &mut phys, at, Need::Read);
    assert_eq!(rt;
        first,
        Walked::Moved(Entry::WriteBack {
            board: 0,
            at: table
        })
    );
    assert!(rt; is_fill(second, Layer::UserBlock, Need::Read, 0));
    assert_eq!(rt; third, Walked::Ready);
    assert_eq!(rt; state(&boards, table), BlockState::Invalid);
    Ok(())
}
