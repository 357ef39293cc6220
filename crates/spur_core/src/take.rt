//! The access in hand of a board's turn on the bus.

ghost use Rattle.std.specs.Prelude.{◌≡◌, ◌<◌, ◌≤◌, ◌+◌, ◌++◌, ◌∷◌, [], IsSome, false, length, true};
ghost use Rattle.spur_addr.specs.Address.{is_aligned, table_start};
ghost use Rattle.spur_board.specs.Boards.{HasDone, IsGoing, done_lines, done_value};
ghost use Rattle.spur_cache.specs.Lines.{found, word_in};
ghost use Rattle.spur_cpu.specs.Meaning.{WantsAccess};
ghost use Rattle.spur_pager.specs.Reserve.{turn_room};
ghost use Rattle.spur_pager.specs.Stand.{IsServable};
ghost use Rattle.spur_walk.specs.Laws.{done_entry, need_of};
ghost use Rattle.spur_core.specs.Boards.{view_in};
ghost use Rattle.spur_core.specs.Takes.{IsAsking, TakesAccess};

use crate::reach::{Reached, reach};
use spur_addr::GlobalAddr;
use spur_board::Board;
use spur_cpu::Cpu;
use spur_flat::{AccessKind, Entry, FaultKind, History};
use spur_pager::Store;
use spur_swap::Backing;

/// Does an access in the board's own cache, appends it, and completes its instruction.
fn complete<C: Cpu>(
    board: &mut Board<C>,
    history: &mut History,
    b: u32,
    kind: AccessKind,
    at: GlobalAddr,
    value: u32,
)
    requires going { IsGoing C.meaning C.state C.room board.old }
    requires access { WantsAccess (C.meaning.wants (C.state board.old.cpu)) }
    requires there { IsSome (found board.old.cache at) }
    requires room { 1 ≤ history.old.room }
    ensures done { HasDone C.meaning C.state C.room (record board.old { cache = done_lines kind board.old.cache at value })
        (done_value kind (word_in (found board.old.cache at) at) value) board.new }
    ensures entry { history.new.entries
        ≡ history.old.entries ++ done_entry kind b at (word_in (found board.old.cache at) at) value ∷ [] }
    ensures room { history.new.room + 1 ≡ history.old.room }
{
    let word = board.cache.word(at);
    match kind {
        AccessKind::Load => {
            history.append(Entry::Load {
                board: b,
                at,
                value: word,
            });
            board.done(word);
        }
        AccessKind::Store => {
            board.cache.set_word(at, value);
            history.append(Entry::Store {
                board: b,
                at,
                value,
            });
            board.done(value);
        }
        AccessKind::Tas => {
            board.cache.set_word(at, 1);
            history.append(Entry::Tas {
                board: b,
                at,
                old: word,
            });
            board.done(word);
        }
    }
}

/// Takes the access of board `b` to its end. Its address is aligned.
fn take_aligned<C: Cpu, B: Backing>(
    boards: &mut [Board<C>],
    store: &mut Store<B>,
    b: u32,
    kind: AccessKind,
    at: GlobalAddr,
    value: u32,
)
    requires own { b < length boards.old }
    requires user { at < table_start }
    requires aligned { is_aligned at ≡ true }
    requires asking { IsAsking C.meaning C.state C.room boards.old b kind at value }
    requires stands { IsServable (view_in B.meaning store.old boards.old) }
    requires room { turn_room (view_in B.meaning store.old boards.old) b at (need_of kind) ≤ store.old.history.room }
    ensures takes { TakesAccess C.meaning C.state C.room b at kind (view_in B.meaning store.old boards.old)
        (view_in B.meaning store.new boards.new) boards.old boards.new }
{
    match reach(boards, store, b, at, kind) {
        Reached::Ready => complete(
            &mut boards[b as usize],
            &mut store.history,
            b,
            kind,
            at,
            value,
        ),
        Reached::Ends(fault) => boards[b as usize].faulted(fault, at),
        Reached::SwapFault => boards[b as usize].swap_failed(),
    }
}

/// Ends board `b` by its access, whose address is not aligned.
fn misalign<C: Cpu, B: Backing>(
    boards: &mut [Board<C>],
    store: &mut Store<B>,
    b: u32,
    kind: AccessKind,
    at: GlobalAddr,
    value: u32,
)
    requires own { b < length boards.old }
    requires user { at < table_start }
    requires unaligned { is_aligned at ≡ false }
    requires asking { IsAsking C.meaning C.state C.room boards.old b kind at value }
    requires stands { IsServable (view_in B.meaning store.old boards.old) }
    requires room { 1 ≤ store.old.history.room }
    ensures takes { TakesAccess C.meaning C.state C.room b at kind (view_in B.meaning store.old boards.old)
        (view_in B.meaning store.new boards.new) boards.old boards.new }
{
    let _ = value;
    store.history.append(Entry::Fault {
        board: b,
        kind: FaultKind::Align,
        access: kind,
        at,
    });
    boards[b as usize].faulted(FaultKind::Align, at);
}

/// Whether an address is that of a word.
fn is_aligned(at: GlobalAddr) -> bool
    ensures { result ≡ is_aligned at }
{
    at.number() % 4 == 0
}

/// Takes the access that board `b` wants to its end: it is done, or the board ends.
pub(crate) fn take<C: Cpu, B: Backing>(
    boards: &mut [Board<C>],
    store: &mut Store<B>,
    b: u32,
    kind: AccessKind,
    at: GlobalAddr,
    value: u32,
)
    requires own { b < length boards.old }
    requires user { at < table_start }
    requires asking { IsAsking C.meaning C.state C.room boards.old b kind at value }
    requires stands { IsServable (view_in B.meaning store.old boards.old) }
    requires room { turn_room (view_in B.meaning store.old boards.old) b at (need_of kind) ≤ store.old.history.room }
    ensures takes { TakesAccess C.meaning C.state C.room b at kind (view_in B.meaning store.old boards.old)
        (view_in B.meaning store.new boards.new) boards.old boards.new }
{
    if is_aligned(at) {
        take_aligned(boards, store, b, kind, at, value);
    } else {
        misalign(boards, store, b, kind, at, value);
    }
}
