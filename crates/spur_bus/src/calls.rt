//! The transactions.

ghost use Rattle.std.specs.Prelude.{◌≡◌, ◌≢◌, ◌+◌, ◌*◌, ◌<◌, ◌≤◌, ◌^◌, IsSome, Some, length};
ghost use Rattle.spur_addr.specs.Address.{block_start_of};
ghost use Rattle.spur_snoop.specs.declared.BlockState.TheVariants as state_is;
ghost use Rattle.spur_snoop.specs.declared.Need.TheVariants as need;
ghost use Rattle.spur_snoop.specs.Protocol.{is_owned, is_alive};
ghost use Rattle.spur_phys.specs.Blocks.{block_at, block_place};
ghost use Rattle.spur_cache.specs.Lens.{OnlyLines, caches};
ghost use Rattle.spur_flat.specs.declared.entry.Entry.TheVariants as entry;
ghost use Rattle.spur_flat.specs.TagRules.{may_claim};
ghost use Rattle.spur_bus.specs.Boards.{dropped, line_of_block, restated, supplier, turned, words_or};
ghost use Rattle.spur_bus.specs.Logical.{logical_block, logical_of};
ghost use Rattle.spur_bus.specs.Agrees.{Agrees, AgreesWithMemory};
ghost use Rattle.spur_bus.specs.Calls.{HasLine, KeepsAllWords, MayRead, MovesTags, MovesTagsAs, claimed, flushed};
ghost use Rattle.spur_bus.specs.Calls.{line_count, read_caches, read_line, shared_again, words_of, written_back};

use crate::place::Place;
use crate::snoop::{tell_others, words_for};
use spur_addr::GlobalAddr;
use spur_cache::{HasCache, Line};
use spur_flat::{Entry, Layer};
use spur_phys::Phys;
use spur_snoop::{BlockState, BusKind, Need};

/// Brings a block that the cache of board `b` lacks into it, to be read, while other caches keep theirs.
///
/// The words come from the block's owner, who stays the owner and is not exclusive any more, or else
/// from memory, which does not change. The new line is UnOwned. No owned block may stand on the line.
/// The place's frame is one of the memory's and that of the block's valid lines in other caches, and no
/// valid line of another block stands at that place. The caches agree before and after.
pub fn read_shared<T: HasCache>(
    boards: &mut [T],
    phys: &Phys,
    b: u32,
    at: GlobalAddr,
    layer: Layer,
    place: Place,
) -> Entry
    requires own { b < length boards.old }
    requires agree { Agrees (caches T.lens boards.old) }
    requires serves { AgreesWithMemory (caches T.lens boards.old) phys.now }
    requires may { MayRead (caches T.lens boards.old) phys.now b at place.frame }
    ensures entry { result ≡ entry.Fill b layer need.Read (block_start_of at) }
    ensures change { caches T.lens boards.new ≡ read_caches (caches T.lens boards.old) phys.now b need.Read at place }
    ensures lens { OnlyLines T.lens boards.old boards.new }
    ensures agree { Agrees (caches T.lens boards.new) }
    ensures serves { AgreesWithMemory (caches T.lens boards.new) phys.now }
    ensures logical { logical_of T.lens boards.new phys.now ≡ logical_of T.lens boards.old phys.now }
    ensures words { words_of (line_of_block (caches T.lens boards.new) b at)
        ≡ logical_block (caches T.lens boards.old) phys.now place.frame at }
    ensures lines { line_count (caches T.lens boards.new) ≡ line_count (caches T.lens boards.old) }
    ensures tags { MovesTagsAs (caches T.lens boards.old) (caches T.lens boards.new)
        result layer need.Read (block_start_of at) place }
{
    let words = read_words(boards, phys, at, BusKind::ReadShared, place.frame);
    let line = new_line(at, BlockState::UnOwned, place, words);
    fill(boards, b as usize, at, BusKind::ReadShared, line);
    Entry::Fill {
        board: b,
        layer,
        need: Need::Read,
        at: at.block_start(),
    }
}

/// Brings a block that the cache of board `b` lacks into it, to be written: no other cache keeps it.
///
/// The words come from the block's owner or else from memory, which does not change. The new line is
/// OwnedExclusive. No owned block may stand on the line. The place's frame is one of the memory's and
/// that of the block's valid lines in other caches, and no valid line of another block stands at that
/// place. The caches agree before and after.
pub fn read_owned<T: HasCache>(
    boards: &mut [T],
    phys: &Phys,
    b: u32,
    at: GlobalAddr,
    layer: Layer,
    place: Place,
) -> Entry
    requires own { b < length boards.old }
    requires agree { Agrees (caches T.lens boards.old) }
    requires serves { AgreesWithMemory (caches T.lens boards.old) phys.now }
    requires may { MayRead (caches T.lens boards.old) phys.now b at place.frame }
    ensures entry { result ≡ entry.Fill b layer need.Write (block_start_of at) }
    ensures change { caches T.lens boards.new ≡ read_caches (caches T.lens boards.old) phys.now b need.Write at place }
    ensures lens { OnlyLines T.lens boards.old boards.new }
    ensures agree { Agrees (caches T.lens boards.new) }
    ensures serves { AgreesWithMemory (caches T.lens boards.new) phys.now }
    ensures logical { logical_of T.lens boards.new phys.now ≡ logical_of T.lens boards.old phys.now }
    ensures words { words_of (line_of_block (caches T.lens boards.new) b at)
        ≡ logical_block (caches T.lens boards.old) phys.now place.frame at }
    ensures lines { line_count (caches T.lens boards.new) ≡ line_count (caches T.lens boards.old) }
    ensures tags { MovesTagsAs (caches T.lens boards.old) (caches T.lens boards.new)
        result layer need.Write (block_start_of at) place }
{
    let words = read_words(boards, phys, at, BusKind::ReadOwned, place.frame);
    let line = new_line(at, BlockState::OwnedExclusive, place, words);
    fill(boards, b as usize, at, BusKind::ReadOwned, line);
    Entry::Fill {
        board: b,
        layer,
        need: Need::Write,
        at: at.block_start(),
    }
}

/// Makes board `b` the only holder of a block that its cache has and that is not exclusive there yet:
/// its line becomes OwnedExclusive, and all other copies go. No word moves.
pub fn claim<T: HasCache>(boards: &mut [T], b: u32, at: GlobalAddr) -> Entry
    requires own { b < length boards.old }
    requires agree { Agrees (caches T.lens boards.old) }
    requires there { HasLine (caches T.lens boards.old) b at may_claim }
    ensures entry { result ≡ entry.Claim b (block_start_of at) }
    ensures change { caches T.lens boards.new ≡ claimed (caches T.lens boards.old) b at }
    ensures lens { OnlyLines T.lens boards.old boards.new }
    ensures agree { Agrees (caches T.lens boards.new) }
    ensures words { KeepsAllWords (caches T.lens boards.old) (caches T.lens boards.new) }
    ensures lines { line_count (caches T.lens boards.new) ≡ line_count (caches T.lens boards.old) }
    ensures tags { MovesTags (caches T.lens boards.old) (caches T.lens boards.new) result }
{
    restate(
        boards,
        b as usize,
        at,
        BusKind::Claim,
        BlockState::OwnedExclusive,
    );
    Entry::Claim {
        board: b,
        at: at.block_start(),
    }
}

/// Writes a block that board `b` owns to memory, to the frame that its line has: the line becomes
/// UnOwned, and other copies stay as they are.
pub fn write_back<T: HasCache>(boards: &mut [T], phys: &mut Phys, b: u32, at: GlobalAddr) -> Entry
    requires own { b < length boards.old }
    requires agree { Agrees (caches T.lens boards.old) }
    requires serves { AgreesWithMemory (caches T.lens boards.old) phys.old }
    requires there { HasLine (caches T.lens boards.old) b at is_owned }
    ensures entry { result ≡ entry.WriteBack b (block_start_of at) }
    ensures memory { phys.new ≡ written_back phys.old at (line_of_block (caches T.lens boards.old) b at) }
    ensures size { length phys.new ≡ length phys.old }
    ensures change { caches T.lens boards.new ≡ shared_again (caches T.lens boards.old) b at }
    ensures lens { OnlyLines T.lens boards.old boards.new }
    ensures agree { Agrees (caches T.lens boards.new) }
    ensures serves { AgreesWithMemory (caches T.lens boards.new) phys.new }
    ensures logical { logical_of T.lens boards.new phys.new ≡ logical_of T.lens boards.old phys.old }
    ensures lines { line_count (caches T.lens boards.new) ≡ line_count (caches T.lens boards.old) }
    ensures tags { MovesTags (caches T.lens boards.old) (caches T.lens boards.new) result }
{
    save(boards, phys, b as usize, at);
    restate(
        boards,
        b as usize,
        at,
        BusKind::WriteBack,
        BlockState::UnOwned,
    );
    Entry::WriteBack {
        board: b,
        at: at.block_start(),
    }
}

/// Drops a block that the cache of board `holder` has, for board `b`. It is written to memory first
/// where it is owned.
pub fn block_flush<T: HasCache>(
    boards: &mut [T],
    phys: &mut Phys,
    b: u32,
    holder: u32,
    at: GlobalAddr,
) -> Entry
    requires own { b < length boards.old }
    requires holder { holder < length boards.old }
    requires agree { Agrees (caches T.lens boards.old) }
    requires serves { AgreesWithMemory (caches T.lens boards.old) phys.old }
    requires there { HasLine (caches T.lens boards.old) holder at is_alive }
    ensures entry { result ≡ entry.BlockFlush b holder (block_start_of at) }
    ensures memory { phys.new ≡ flushed phys.old at (line_of_block (caches T.lens boards.old) holder at) }
    ensures size { length phys.new ≡ length phys.old }
    ensures change { caches T.lens boards.new ≡ dropped (caches T.lens boards.old) holder at }
    ensures lens { OnlyLines T.lens boards.old boards.new }
    ensures agree { Agrees (caches T.lens boards.new) }
    ensures serves { AgreesWithMemory (caches T.lens boards.new) phys.new }
    ensures logical { logical_of T.lens boards.new phys.new ≡ logical_of T.lens boards.old phys.old }
    ensures lines { line_count (caches T.lens boards.new) ≡ line_count (caches T.lens boards.old) }
    ensures tags { MovesTags (caches T.lens boards.old) (caches T.lens boards.new) result }
{
    save_owned(boards, phys, holder as usize, at);
    drop_block(boards, holder as usize, at);
    Entry::BlockFlush {
        board: b,
        holder,
        at: at.block_start(),
    }
}

/// The words of a block that is read: a board supplies them, or else the memory has them.
fn read_words<T: HasCache>(
    boards: &[T],
    phys: &Phys,
    at: GlobalAddr,
    kind: BusKind,
    frame: u32,
) -> [u32; 8]
    requires { frame * 1024 + 1024 ≤ length phys.now }
    ensures { result ≡ words_or (supplier (caches T.lens boards.now) at kind) (block_at phys.now (block_place frame at)) }
{
    words_for(boards, at, kind, phys.read_block(frame, at))
}

/// The line that a read puts in a cache.
fn new_line(at: GlobalAddr, state: BlockState, place: Place, words: [u32; 8]) -> Line
    ensures value { result ≡ read_line at state place words }
    ensures small { result.tag < 2 ^ 33 }
{
    Line {
        tag: at.block(),
        state,
        frame: place.frame,
        prot: place.prot,
        dirty: place.dirty,
        words,
    }
}

/// Puts a line into the cache of board `own`, and lets the others see the transaction.
fn fill<T: HasCache>(boards: &mut [T], own: usize, at: GlobalAddr, kind: BusKind, line: Line)
    requires own { own < length boards.old }
    requires valid { line.state ≢ state_is.Invalid }
    requires tag { line.tag < 2 ^ 33 }
    ensures change { caches T.lens boards.new ≡ turned (caches T.lens boards.old) own at kind line }
    ensures lens { OnlyLines T.lens boards.old boards.new }
{
    boards[own].fill_line(line);
    tell_others(boards, own, at, kind);
}

/// Puts a block's line in the cache of board `own` in another state, and lets the others see the
/// transaction.
fn restate<T: HasCache>(
    boards: &mut [T],
    own: usize,
    at: GlobalAddr,
    kind: BusKind,
    state: BlockState,
)
    requires own { own < length boards.old }
    requires there { IsSome (line_of_block (caches T.lens boards.old) own at) }
    requires valid { state ≢ state_is.Invalid }
    ensures change { caches T.lens boards.new ≡ restated (caches T.lens boards.old) own at kind state }
    ensures lens { OnlyLines T.lens boards.old boards.new }
{
    boards[own].set_line_state(at, state);
    tell_others(boards, own, at, kind);
}

/// Writes a board's line of a block to memory.
fn save<T: HasCache>(boards: &[T], phys: &mut Phys, b: usize, at: GlobalAddr)
    requires own { b < length boards.now }
    requires serves { AgreesWithMemory (caches T.lens boards.now) phys.old }
    ensures { phys.new ≡ written_back phys.old at (line_of_block (caches T.lens boards.now) b at) }
{
    if let Some(line) = boards[b].cache().find(at) {
        put_line(phys, line, at);
    }
}

/// Writes a board's line of a block to memory, where it is owned.
fn save_owned<T: HasCache>(boards: &[T], phys: &mut Phys, b: usize, at: GlobalAddr)
    requires own { b < length boards.now }
    requires serves { AgreesWithMemory (caches T.lens boards.now) phys.old }
    ensures { phys.new ≡ flushed phys.old at (line_of_block (caches T.lens boards.now) b at) }
{
    if let Some(line) = boards[b].cache().find(at) {
        if line.state.is_owned() {
            put_line(phys, line, at);
        }
    }
}

/// Writes the words of a line, which is of the block of `at`, to its own frame.
fn put_line(phys: &mut Phys, line: &Line, at: GlobalAddr)
    requires { line.now.frame * 1024 + 1024 ≤ length phys.old }
    ensures { phys.new ≡ written_back phys.old at (Some line.now) }
{
    phys.write_block(line.frame, at, &line.words);
}

/// Drops a board's line of a block.
fn drop_block<T: HasCache>(boards: &mut [T], holder: usize, at: GlobalAddr)
    requires own { holder < length boards.old }
    requires there { IsSome (line_of_block (caches T.lens boards.old) holder at) }
    ensures change { caches T.lens boards.new ≡ dropped (caches T.lens boards.old) holder at }
    ensures lens { OnlyLines T.lens boards.old boards.new }
{
    boards[holder].set_line_state(at, BlockState::Invalid);
}
