//! What the other boards do when one makes a transaction.

ghost use Rattle.std.specs.Prelude.{◌≡◌};
ghost use Rattle.spur_cache.specs.Lens.{OnlyLines, caches};
ghost use Rattle.spur_bus.specs.Boards.{changed_board, supplier, snooped_lines, snooped_unless, words_or};
ghost use Rattle.spur_flat.specs.TagLines.{each_from};

use spur_addr::GlobalAddr;
use spur_cache::HasCache;
use spur_snoop::{BusKind, snooped};

/// Lets all boards but `own` see its transaction on the block of `at`. Each has one line that may
/// change.
pub(crate) fn tell_others<T: HasCache>(boards: &mut [T], own: usize, at: GlobalAddr, kind: BusKind)
    ensures change { caches T.lens boards.new ≡ each_from (snooped_unless own at kind) 0 (caches T.lens boards.old) }
    ensures lens { OnlyLines T.lens boards.old boards.new }
{
    for (k, board) in boards.iter_mut().enumerate() {
        tell_board(board, k, own, at, kind);
    }
}

/// Lets board `k` see the transaction, unless it is its own.
fn tell_board<T: HasCache>(board: &mut T, k: usize, own: usize, at: GlobalAddr, kind: BusKind)
    ensures { board.new ≡ changed_board T.lens (snooped_unless own at kind) k board.old }
{
    if k != own {
        tell(board, at, kind);
    }
}

/// Lets a board see another's transaction: its own line of the block does as the protocol's table says.
fn tell<T: HasCache>(board: &mut T, at: GlobalAddr, kind: BusKind)
    ensures { board.new ≡ T.lens.with_lines board.old (snooped_lines (T.lens.lines_of board.old) at kind) }
{
    if let Some(line) = board.cache().find(at) {
        let (state, _) = snooped(line.state, kind);
        board.set_line_state(at, state);
    }
}

/// The words of a block that a board supplies to a transaction, or else the memory's.
pub(crate) fn words_for<T: HasCache>(
    boards: &[T],
    at: GlobalAddr,
    kind: BusKind,
    memory: [u32; 8],
) -> [u32; 8]
    ensures { result ≡ words_or (supplier (caches T.lens boards.now) at kind) memory }
{
    match supplied(boards, at, kind) {
        Some(words) => words,
        None => memory,
    }
}

/// The words of a block that a board supplies to a transaction.
fn supplied<T: HasCache>(boards: &[T], at: GlobalAddr, kind: BusKind) -> Option<[u32; 8]>
    ensures { result ≡ supplier (caches T.lens boards.now) at kind }
{
    for board in boards {
        if let Some(line) = board.cache().find(at) {
            if snooped(line.state, kind).1 {
                return Some(line.words);
            }
        }
    }
    None
}
