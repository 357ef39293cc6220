//! The transactions on plain caches: what each cache and the memory has after each.

ghost use Rattle.std.specs.Prelude.{◌≡◌, ◌+◌, ◌*◌, ◌<◌, ◌≤◌, IfOk, None, get_or, length, replicate, true};
ghost use Rattle.spur_cache.specs.Lens.{caches};
ghost use Rattle.spur_cache.specs.Lines.{occupant};
ghost use Rattle.spur_flat.specs.TagLines.{block_state};
ghost use Rattle.spur_snoop.specs.Protocol.{is_alive};
ghost use Rattle.spur_flat.specs.TagRules.{may_claim};
ghost use Rattle.spur_bus.specs.Agrees.{Agrees, AgreesWithMemory};
ghost use Rattle.spur_bus.specs.Boards.{line_of_block};
ghost use Rattle.spur_bus.specs.Calls.{MayRead, line_tag};
ghost use Rattle.spur_bus.specs.Fits.{AllFit, EachFits, fits, may_go};

use crate::place::Place;
use crate::{block_flush, claim, read_owned, read_shared, write_back};
use spur_addr::{GlobalAddr, Protection};
use spur_cache::{Cache, HasCache, Line};
use spur_flat::{Entry, Layer};
use spur_phys::Phys;
use spur_snoop::{BlockState, Need};
use std::alloc::Global;
use std::test::Fail;

/// What a row of a test does.
#[derive(Clone, Copy, Debug, PartialEq, Eq)]
enum Call {
    /// A read of the board that shares the block.
    Share,
    /// A read of the board that takes the block.
    Take,
    /// A claim of the board.
    Claim,
    /// A write-back of the board.
    WriteBack,
    /// A flush of the board's line, for board 0.
    Flush,
    /// Nothing of the bus: the memory's words of a block that the board owns become zero.
    Clear,
}

/// Where every block of the tests is read from.
const PLACE: Place = Place {
    frame: 1,
    prot: Protection::ReadWrite,
    dirty: true,
};

/// The state of a block in a board's cache.
fn state<T: HasCache>(boards: &[T], b: u32, at: GlobalAddr) -> BlockState
    ensures { result ≡ block_state (line_tag (line_of_block (caches T.lens boards.now) b at)) }
{
    match boards.get(b as usize) {
        Some(board) => match board.cache().find(at) {
            Some(line) => line.state,
            None => BlockState::Invalid,
        },
        None => BlockState::Invalid,
    }
}

/// The word at `at` in a board's cache, and zero where it lacks the block.
fn word<T: HasCache>(boards: &[T], b: usize, at: GlobalAddr) -> u32 {
    match boards.get(b) {
        Some(board) => match board.cache().find(at) {
            Some(line) => line.words[at.word_in_block() as usize],
            None => 0,
        },
        None => 0,
    }
}

/// Whether a line is of the block exactly where it stands at the block's place.
fn line_fits(line: &Line, at: GlobalAddr, frame: u32) -> bool
    ensures { result ≡ fits at frame line.now }
{
    let at_place = line.frame == frame && line.tag % 128 == at.block() % 128;
    if line.tag == at.block() {
        at_place
    } else {
        !at_place
    }
}

/// Whether each line of a cache is so.
fn cache_fits(cache: &Cache, at: GlobalAddr, frame: u32) -> bool
    ensures { result ≡ true → EachFits cache.now at frame }
{
    for number in 0..cache.lines() {
        if let Some(line) = cache.line(number as u16) {
            if !line_fits(line, at, frame) {
                return false;
            }
        }
    }
    true
}

/// Whether each line of all caches is so.
fn all_fit<T: HasCache>(boards: &[T], at: GlobalAddr, frame: u32) -> bool
    ensures { result ≡ true → AllFit (caches T.lens boards.now) at frame }
{
    for board in boards {
        if !cache_fits(board.cache(), at, frame) {
            return false;
        }
    }
    true
}

/// Whether what stands on the line of a block may go.
fn may_replace(cache: &Cache, at: GlobalAddr) -> bool
    ensures { result ≡ may_go at (occupant cache.now at) }
{
    match cache.line((at.block() % cache.lines() as u64) as u16) {
        Some(line) => { line.tag != at.block() && !line.state.is_owned() }
        None => true,
    }
}

/// Whether a board may read a block from a frame.
fn may_read<T: HasCache>(boards: &[T], phys: &Phys, b: u32, at: GlobalAddr, frame: u32) -> bool
    requires own { b < length boards.now }
    ensures { result ≡ true → MayRead (caches T.lens boards.now) phys.now b at frame }
{
    if frame >= phys.frames() || !may_replace(boards[b as usize].cache(), at) {
        return false;
    }
    all_fit(boards, at, frame)
}

/// `read_shared`, where the board may read the block.
fn try_share<T: HasCache>(boards: &mut [T], phys: &Phys, b: u32, at: GlobalAddr) -> Option<Entry>
    requires own { b < length boards.old }
    requires agree { Agrees (caches T.lens boards.old) }
    requires serves { AgreesWithMemory (caches T.lens boards.old) phys.now }
    ensures agree { Agrees (caches T.lens boards.new) }
    ensures serves { AgreesWithMemory (caches T.lens boards.new) phys.now }
{
    if !may_read(boards, phys, b, at, PLACE.frame) {
        return None;
    }
    Some(read_shared(boards, phys, b, at, Layer::UserBlock, PLACE))
}

/// `read_owned`, where the board may read the block.
fn try_take<T: HasCache>(boards: &mut [T], phys: &Phys, b: u32, at: GlobalAddr) -> Option<Entry>
    requires own { b < length boards.old }
    requires agree { Agrees (caches T.lens boards.old) }
    requires serves { AgreesWithMemory (caches T.lens boards.old) phys.now }
    ensures agree { Agrees (caches T.lens boards.new) }
    ensures serves { AgreesWithMemory (caches T.lens boards.new) phys.now }
{
    if !may_read(boards, phys, b, at, PLACE.frame) {
        return None;
    }
    Some(read_owned(boards, phys, b, at, Layer::UserBlock, PLACE))
}

/// `claim`, where the board has the block and not exclusive.
fn try_claim<T: HasCache>(boards: &mut [T], phys: &Phys, b: u32, at: GlobalAddr) -> Option<Entry>
    requires own { b < length boards.old }
    requires agree { Agrees (caches T.lens boards.old) }
    requires serves { AgreesWithMemory (caches T.lens boards.old) phys.now }
    ensures agree { Agrees (caches T.lens boards.new) }
    ensures serves { AgreesWithMemory (caches T.lens boards.new) phys.now }
{
    if !can_claim(state(boards, b, at)) {
        return None;
    }
    Some(claim(boards, b, at))
}

/// `write_back`, where the board owns the block.
fn try_write_back<T: HasCache>(
    boards: &mut [T],
    phys: &mut Phys,
    b: u32,
    at: GlobalAddr,
) -> Option<Entry>
    requires own { b < length boards.old }
    requires agree { Agrees (caches T.lens boards.old) }
    requires serves { AgreesWithMemory (caches T.lens boards.old) phys.old }
    ensures agree { Agrees (caches T.lens boards.new) }
    ensures serves { AgreesWithMemory (caches T.lens boards.new) phys.new }
{
    if !state(boards, b, at).is_owned() {
        return None;
    }
    Some(write_back(boards, phys, b, at))
}

/// `block_flush` for board 0, where the board has the block.
fn try_flush<T: HasCache>(
    boards: &mut [T],
    phys: &mut Phys,
    holder: u32,
    at: GlobalAddr,
) -> Option<Entry>
    requires own { holder < length boards.old }
    requires agree { Agrees (caches T.lens boards.old) }
    requires serves { AgreesWithMemory (caches T.lens boards.old) phys.old }
    ensures agree { Agrees (caches T.lens boards.new) }
    ensures serves { AgreesWithMemory (caches T.lens boards.new) phys.new }
{
    if !state(boards, holder, at).is_valid() {
        return None;
    }
    Some(block_flush(boards, phys, 0, holder, at))
}

/// Whether a block in this state may be claimed.
fn can_claim(state: BlockState) -> bool
    ensures { result ≡ may_claim state }
{
    matches!(state, BlockState::UnOwned | BlockState::OwnedNonExclusive)
}

/// Makes the memory's words of a block that a board owns zero.
fn clear<T: HasCache>(boards: &[T], phys: &mut Phys, b: u32, at: GlobalAddr)
    requires own { b < length boards.now }
    requires agree { Agrees (caches T.lens boards.now) }
    requires serves { AgreesWithMemory (caches T.lens boards.now) phys.old }
    ensures { AgreesWithMemory (caches T.lens boards.now) phys.new }
{
    if let Some(line) = boards[b as usize].cache().find(at) {
        if line.state.is_owned() {
            phys.write_block(line.frame, at, &[0; 8]);
        }
    }
}

/// Does what a row says, where that may be done. Caches and memory still agree.
fn run<T: HasCache>(
    boards: &mut [T],
    phys: &mut Phys,
    call: Call,
    b: u32,
    at: GlobalAddr,
) -> Option<Entry>
    requires agree { Agrees (caches T.lens boards.old) }
    requires serves { AgreesWithMemory (caches T.lens boards.old) phys.old }
    ensures agree { Agrees (caches T.lens boards.new) }
    ensures serves { AgreesWithMemory (caches T.lens boards.new) phys.new }
{
    if b as usize >= boards.len() {
        return None;
    }
    match call {
        Call::Share => try_share(boards, phys, b, at),
        Call::Take => try_take(boards, phys, b, at),
        Call::Claim => try_claim(boards, phys, b, at),
        Call::WriteBack => try_write_back(boards, phys, b, at),
        Call::Flush => try_flush(boards, phys, b, at),
        Call::Clear => {
            clear(boards, phys, b, at);
            None
        }
    }
}

/// A cache of 16 lines that hold nothing.
fn cache(alloc: Global) -> Result<Cache, Fail>
    ensures { IfOk result (λ cache. cache ≡ replicate 16 None) }
{
    match Cache::new(alloc, 16) {
        Ok(cache) => Ok(cache),
        Err(_) => Err(Fail::from("no cache")),
    }
}

/// The entry of what a row does. Its address is that of the block's first byte.
fn entry_of(call: Call, board: u32, at: GlobalAddr) -> Option<Entry> {
    let at = GlobalAddr::of(at.block() * 32)?;
    match call {
        Call::Share => Some(fill_of(board, Need::Read, at)),
        Call::Take => Some(fill_of(board, Need::Write, at)),
        Call::Claim => Some(Entry::Claim { board, at }),
        Call::WriteBack => Some(Entry::WriteBack { board, at }),
        Call::Flush => Some(Entry::BlockFlush {
            board: 0,
            holder: board,
            at,
        }),
        Call::Clear => None,
    }
}

/// The entry of a read.
fn fill_of(board: u32, need: Need, at: GlobalAddr) -> Entry {
    Entry::Fill {
        board,
        layer: Layer::UserBlock,
        need,
        at,
    }
}

/// The states of a block in the first three caches.
fn states(boards: &[Cache], at: GlobalAddr) -> [BlockState; 3] {
    [
        state(boards, 0, at),
        state(boards, 1, at),
        state(boards, 2, at),
    ]
}

/// The words at `at` in the first three caches.
fn words(boards: &[Cache], at: GlobalAddr) -> [u32; 3] {
    [
        word(boards, 0, at),
        word(boards, 1, at),
        word(boards, 2, at),
    ]
}

/// The memory's word at `at`.
fn memory_word(phys: &Phys, at: GlobalAddr) -> u32 {
    if PLACE.frame >= phys.frames() {
        return 0;
    }
    phys.read_block(PLACE.frame, at)[at.word_in_block() as usize]
}

#[test]
fn every_call_moves_states_and_words(rt: HostRuntime) -> Result<(), Fail> {
    // the second word of block 2, and that of block 18, which has the same line
    let at = GlobalAddr::of(0x44).ok_or("no address")?;
    let far = GlobalAddr::of(0x244).ok_or("no address")?;
    let no = BlockState::Invalid;
    let shared = BlockState::UnOwned;
    let owned = BlockState::OwnedNonExclusive;
    let alone = BlockState::OwnedExclusive;
    // what is done by which board, whether it may be done, the states and the word in the three
    // caches after it, and the memory's word
    let rows = [
        (Call::Take, 0, at, true, [alone, no, no], [7, 0, 0], 7),
        (Call::Clear, 0, at, false, [alone, no, no], [7, 0, 0], 0),
        // the owner supplies, stays the owner, and is not exclusive any more
        (Call::Share, 1, at, true, [owned, shared, no], [7, 7, 0], 0),
        (Call::Claim, 1, at, true, [no, alone, no], [0, 7, 0], 0),
        (Call::Claim, 1, at, false, [no, alone, no], [0, 7, 0], 0),
        (Call::Share, 2, at, true, [no, owned, shared], [0, 7, 7], 0),
        (Call::Share, 2, at, false, [no, owned, shared], [0, 7, 7], 0),
        (
            Call::WriteBack,
            2,
            at,
            false,
            [no, owned, shared],
            [0, 7, 7],
            0,
        ),
        (
            Call::WriteBack,
            1,
            at,
            true,
            [no, shared, shared],
            [0, 7, 7],
            7,
        ),
        // no cache owns the block: memory supplies
        (Call::Take, 0, at, true, [alone, no, no], [7, 0, 0], 7),
        (Call::Clear, 0, at, false, [alone, no, no], [7, 0, 0], 0),
        // the owner supplies, and goes
        (Call::Take, 2, at, true, [no, no, alone], [0, 0, 7], 0),
        // an owned block goes to memory, and one that is not owned does not
        (Call::Flush, 2, at, true, [no, no, no], [0, 0, 0], 7),
        (Call::Share, 1, at, true, [no, shared, no], [0, 7, 0], 7),
        (Call::Flush, 1, at, true, [no, no, no], [0, 0, 0], 7),
        (Call::Flush, 1, at, false, [no, no, no], [0, 0, 0], 7),
        // an owned block may not be replaced, and one that is not owned may
        (Call::Take, 1, at, true, [no, alone, no], [0, 7, 0], 7),
        (Call::Share, 1, far, false, [no, no, no], [0, 0, 0], 9),
        (Call::WriteBack, 1, at, true, [no, shared, no], [0, 7, 0], 7),
        (Call::Share, 1, far, true, [no, shared, no], [0, 9, 0], 9),
        (Call::Flush, 1, at, false, [no, no, no], [0, 0, 0], 7),
    ];
    let mut phys = Phys::new(rt.alloc(), 2)?;
    phys.set_word(1041, 7);
    phys.set_word(1169, 9);
    let mut boards = [cache(rt.alloc())?, cache(rt.alloc())?, cache(rt.alloc())?];
    for (call, board, at, done, after, held, memory) in rows {
        let entry = run(&mut boards, &mut phys, call, board, at);
        assert_eq!(rt;
            entry,
            if done {
                entry_of(call, board, at)
            } else {
                None
            }
        );
        assert_eq!(rt; states(&boards, at), after);
        assert_eq!(rt; words(&boards, at), held);
        assert_eq!(rt; memory_word(&phys, at), memory);
    }
    Ok(())
}
