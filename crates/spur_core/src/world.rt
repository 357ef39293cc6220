//! A world, with its beginning.

ghost use Rattle.std.specs.Prelude.{◌≡◌};

use spur_board::Board;
use spur_flat::Entry;
use spur_loader::Opening;
use spur_pager::Store;
use std::snapshot::Snapshot;

/// A world's beginning, which contracts alone see: it has no bytes. No call changes it.
pub struct Beginning<C, B> {
    /// With what the run began: memory, registers and options.
    pub opening: Snapshot<Opening>,
    /// The processors, before their first instruction.
    pub cpus: Snapshot<Vec<C>>,
    /// The swap object, as it was when all slots had been filled.
    pub backing: Snapshot<B>,
}

impl<C, B> Drop for Beginning<C, B> {
    fn drop(self) {
        let Self {
            opening: _,
            cpus: _,
            backing: _,
        } = self;
    }
}

/// The boards, and what they share.
///
/// Between two calls a world is good (`IsGoodWorld`): the history, followed by the boards' logs, is one that the flat
/// memory of the opening, the ownership rules and the boards' programs allow, and all that stands in caches, memory,
/// frame table, swap and processors is what it leads to.
#[derive(Drop)]
pub struct World<C, B> {
    /// What the boards share.
    pub store: Store<B>,
    /// The boards, each at the place of its number.
    pub boards: Vec<Board<C>>,
    /// The world's beginning.
    pub beginning: Beginning<C, B>,
}

impl<C, B> World<C, B> {
    /// The history: the entries of all boards but for those that still stand in logs.
    pub fn history(&self) -> &[Entry]
        ensures { result.now ≡ self.now.store.history.entries }
    {
        self.store.history.entries()
    }

    /// The store and the boards, as they stand. Takes no memory.
    pub fn into_parts(self) -> (Store<B>, Vec<Board<C>>)
        ensures store { result.0 ≡ self.store }
        ensures boards { result.1 ≡ self.boards }
    {
        let World {
            store,
            boards,
            beginning: _,
        } = self;
        (store, boards)
    }
}
