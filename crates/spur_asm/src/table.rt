//! The table of a text's labels. A label is found in a time that grows with the logarithm of their number, whatever
//! their names.
ghost use Rattle.std.specs.Prelude.{◌≡◌, ◌<◌, map, take, length, IfOk, IfSome};
ghost use Rattle.std.specs.List.{position_from};
ghost use Rattle.spur_asm.specs.Context.{has_label, is_label, place_named, placed_of};
ghost use Rattle.spur_asm.specs.Table.{NumbersFirst};

use crate::label::{Key, Label};
use std::alloc::{AllocError, Global};
use std::collections::BTreeMap;
use std::marker::Model;

/// The labels of all lines of a text. Contracts see them in their order.
#[derive(Drop)]
pub struct Labels<'a> {
    all: Vec<Label<'a>>,

    /// The number of the first label of a board with a name, counted from 0.
    first: BTreeMap<Key<'a>, usize>,
}

impl<'a> Model for Labels<'a> {
    ghost use Rattle.std.specs.Prelude.{List, map};
    ghost use Rattle.spur_asm.specs.Context.{Placed, placed_of};
    ghost use Rattle.spur_asm.specs.Table.{NumbersFirst};

    ghost Value = { List Placed };

    ghost view = { λ t. map placed_of t.all.items };

    ghost invariant = { λ t. NumbersFirst t.first (map placed_of t.all.items) };
}

/// For each board and name among these labels, the number of the first label that has them.
fn numbers<'a>(alloc: Global, labels: &[Label<'a>]) -> Result<BTreeMap<Key<'a>, usize>, AllocError>
    ensures { IfOk result (λ first. NumbersFirst first (map placed_of labels.now)) }
{
    let mut first = BTreeMap::new(alloc);
    let mut number = labels.len();
    // from the last label back to the first, which stays where several have one board and name
    while number > 0 {
        number -= 1;
        let label = labels[number];
        let key = Key {
            board: label.board,
            name: label.name,
        };
        first.insert(key, number)?;
    }
    Ok(first)
}

impl<'a> Labels<'a> {
    /// The table of these labels.
    pub fn of(alloc: Global, all: Vec<Label<'a>>) -> Result<Labels<'a>, AllocError>
        ensures { IfOk result (λ labels. labels ≡ map placed_of all.entry.items) }
    {
        let first = numbers(alloc, all.as_slice())?;
        Ok(Labels { all, first })
    }

    /// The number of the first label of this board with this name, counted from 0. `None` where there is none.
    fn number_of(&self, board: usize, name: &'a [u8]) -> Option<usize>
        ensures number { result ≡ position_from (is_label board name.now) 0 self.now }
        ensures within { IfSome result (λ number. number < length self.now) }
    {
        self.first.get(&Key { board, name }).copied()
    }

    /// Whether one of the first `count` labels is this board's and has this name.
    pub fn has_before(&self, count: usize, board: usize, name: &'a [u8]) -> bool
        ensures { result ≡ has_label (take count self.now) board name.now }
    {
        match self.number_of(board, name) {
            Some(number) => number < count,
            None => false,
        }
    }

    /// The place of the first label of this board with this name. `None` where there is none.
    pub fn place_named(&self, board: usize, name: &'a [u8]) -> Option<usize>
        ensures { result ≡ place_named self.now board name.now }
    {
        let number = self.number_of(board, name)?;
        Some(self.all[number].place)
    }
}
