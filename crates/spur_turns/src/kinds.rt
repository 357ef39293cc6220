//! The kinds of atomic step, and what each tells the seat that makes it.
ghost use Rattle.std.specs.Prelude.{◌∷◌, ◌+◌, ◌-◌};

use crate::pact::Pact;
use crate::table::{Held, Item, Known, View};
use atomic_table::{Join, Play, Split};
use std::marker::PhantomData;

/// A try for the seat's own place.
pub struct TakeOwn<P> {
    pact: PhantomData<P>,
}

impl<P: Pact> Play<Held<P>, Known<P>> for TakeOwn<P> {
    ghost use Rattle.spur_turns.specs.Kinds.{TriedOwn};

    ghost then = { TriedOwn P.own_step };
}

/// The seat's own place is given back.
pub struct GiveOwn;

impl<T, P, N> Play<Option<Item<T, P>>, View<T, P, N>> for GiveOwn {
    ghost use Rattle.spur_turns.specs.Kinds.{GaveOwn};

    ghost then = { GaveOwn };
}

/// A try for the bus.
pub struct TakeBus<P> {
    pact: PhantomData<P>,
}

impl<P: Pact> Play<Held<P>, Known<P>> for TakeBus<P> {
    ghost use Rattle.spur_turns.specs.Kinds.{TriedBus};
    ghost use Rattle.spur_turns.specs.Room.{IsGoodWithRoom};

    ghost then = { TriedBus (IsGoodWithRoom P.good) };
}

/// A try for the next place, by the seat that holds the bus.
pub struct TakePlace<P> {
    pact: PhantomData<P>,
}

impl<P: Pact> Play<Held<P>, Known<P>> for TakePlace<P> {
    ghost use Rattle.spur_turns.specs.Kinds.{TriedPlace};
    ghost use Rattle.spur_turns.specs.Room.{IsGoodWithRoom, name_with_room};

    ghost then = { TriedPlace (IsGoodWithRoom P.good) (name_with_room P.name) };
}

/// The values in hand become the current ones.
pub struct Commit;

impl<T, P, N> Play<Option<Item<T, P>>, View<T, P, N>> for Commit {
    ghost use Rattle.spur_turns.specs.Kinds.{Committed};

    ghost then = { Committed };
}

/// The values in hand become the first ones.
pub struct Open<P> {
    pact: PhantomData<P>,
}

impl<P: Pact> Play<Held<P>, Known<P>> for Open<P> {
    ghost use Rattle.spur_turns.specs.Kinds.{Opened};
    ghost use Rattle.spur_turns.specs.Room.{name_with_room};

    ghost then = { Opened (name_with_room P.name) };
}

/// What was taken last goes back, the bus after every place.
pub struct GiveBack;

impl<T, P, N> Play<Option<Item<T, P>>, View<T, P, N>> for GiveBack {
    ghost use Rattle.spur_turns.specs.Kinds.{GaveBack};

    ghost then = { GaveBack };
}

/// A seat is split off seat 0.
pub struct SplitOff;

impl<T, P, N> Split<View<T, P, N>> for SplitOff {
    ghost use Rattle.spur_turns.specs.Views.{new_view};

    ghost left = { λ v. record v { seats = v.seats + 1 } };

    ghost right = { new_view };
}

/// The seat of the greatest number is joined into seat 0.
pub struct JoinIn;

impl<T, P, N> Join<View<T, P, N>> for JoinIn {
    ghost use Rattle.spur_turns.specs.Views.{joined_view, spent_view};

    ghost both = { joined_view };

    ghost spent = { spent_view };
}
