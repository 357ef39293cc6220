//! The table of words and slots, and what a seat knows of it.
//!
//! With `m` places the table has `m + 2` words and `m + 1` slots. Word 0 is the bus (0 free, 1 taken), word 1 counts
//! the commits and nothing rests on it, and word `2 + i` is place `i` (0 free, 1 taken by its own seat, 2 taken for the
//! bus). Slot 0 is for the bus and slot `1 + i` for place `i`; a slot is `None` while its value is out.

use crate::pact::Pact;
use atomic_table::{Seat, Shared, Table, TableRule};
use std::alloc::Global;
use std::collections::LinkedList;
use std::marker::PhantomData;

/// What lies in a slot.
pub enum Item<T, P> {
    Bus(T),
    Place(P),
}

/// A bus with an empty list that has room for all places. The list travels with the bus, so that who takes every place
/// needs no memory for them.
pub struct Stowed<B, P> {
    pub bus: B,
    pub room: Vec<P>,
}

/// What a seat knows of the table. No value of it is made: it exists in the proofs alone.
pub struct View<T, P, N> {
    pub number: u64,
    /// Whether the seat is there. One that was joined into seat 0 is not any more.
    pub live: bool,
    /// How many seats are live. Seat 0 alone knows it.
    pub seats: u64,
    /// Whether the first values were put in. Seat 0 alone knows it.
    pub opened: bool,
    /// The name of the bus, once the first values were put in.
    pub name: Option<N>,
    /// What it holds of the bus's slots, the last taken first: nothing, or the bus and the first places.
    pub stock: LinkedList<Option<Item<T, P>>>,
    /// Its own place, where it holds that one by itself.
    pub own: Option<P>,
    /// How often a try for its own place found the place taken for the bus.
    pub met: u64,
    /// The names of the seats that were joined into this one.
    pub joined: LinkedList<Option<N>>,
}

/// The bus of a pact, as it lies in its slot.
pub type Load<P> = Stowed<<P as Pact>::Bus, <P as Pact>::Place>;

/// What a slot of a pact's table holds.
pub type Held<P> = Option<Item<Load<P>, <P as Pact>::Place>>;

/// What a seat of a pact's table knows.
pub type Known<P> = View<Load<P>, <P as Pact>::Place, <P as Pact>::Name>;

/// The rule of a pact's table.
pub struct LockRule<P> {
    pact: PhantomData<P>,
}

impl<P: Pact> TableRule<Held<P>, Known<P>, ()> for LockRule<P> {
    ghost use Rattle.spur_turns.specs.Views.{first_view};
    ghost use Rattle.spur_turns.specs.Rule.{IsKept};
    ghost use Rattle.spur_turns.specs.Room.{IsGoodWithRoom, name_with_room};

    ghost holds = { λ _. IsKept (IsGoodWithRoom P.good) (name_with_room P.name) };

    ghost first = { λ _. first_view };
}

/// The table of a pact as its seats see it.
pub type SharedTable<P> = Shared<Held<P>, Known<P>, (), LockRule<P>>;

/// The table of a pact, which owns its memory.
pub type OwnedTable<P> = Table<Held<P>, Known<P>, (), LockRule<P>, Global>;

/// A seat of a pact's table.
pub type TableSeat<P> = Seat<Held<P>, Known<P>>;
