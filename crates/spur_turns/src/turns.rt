//! Places and a bus: the calls.
ghost use Rattle.std.specs.Prelude.{◌≡◌, ℕ, ◌+◌, ◌<◌, length, slice_get, Some, None, IfOk, IfErr};
ghost use Rattle.spur_turns.specs.declared.shown.Holding.TheVariants.{Everything, Nothing, Own as HoldsOwn};
ghost use Rattle.spur_turns.specs.Answers.{IfBusy, IfGot};
ghost use Rattle.spur_turns.specs.Seats.{AreAllIdle, AreNamed, HaveMetNone};

use crate::closing::{front, join_all, take_out};
use crate::giving::give_all;
use crate::opening::{open, seat_all};
use crate::own::{give_own, take_own};
use crate::pact::Pact;
use crate::seat::BoardSeat;
use crate::table::{OwnedTable, TableSeat};
use crate::taking::{All, take_all};
use crate::waiting::wake_for_bus;
use atomic_table::Table;
use std::alloc::Global;
use std::marker::Model;
use std::sync::Wait;
use std::sync::atomic::AtomicU64;

/// The answer of a try for a seat's own place.
#[derive(Drop)]
pub enum Own<T> {
    /// The place is the seat's until it gives it back.
    Got(T),
    /// A seat holds the bus, and has taken the place.
    Busy,
}

/// There was no memory. Bus and places come back.
pub struct NewRefused<P: Pact> {
    pub bus: P::Bus,
    pub places: Vec<P::Place>,
}

/// A bus and places, which seats take in turn. Each seat takes its own place alone by one compare and exchange, and one
/// seat at a time takes the bus and every place.
///
/// It can be shared between threads. What it holds comes out by `close` alone.
pub struct Turns<P: Pact> {
    pub(crate) table: OwnedTable<P>,
    /// How many seats park on the word of the bus. No clause rests on it.
    pub(crate) parkers: AtomicU64,
}

impl<P: Pact> Model for Turns<P> {
    ghost use Rattle.std.specs.Prelude.{◌<◌};
    ghost use Rattle.spur_turns.specs.Shown.{TurnsView, turns_view, turns_view_coded};

    ghost Value = { TurnsView };

    ghost view = { λ t. turns_view t.table.shared.table_id };

    ghost invariant = { λ t. 1 < t.table.shared.table_id.slots };
}

impl<P: Pact> Turns<P> {
    /// A table with these values, and one seat for each place, in the order of the places.
    ///
    /// There are 1 to 12 places, and bus and places are good. All memory is taken first, before the values are put in,
    /// and no other call takes any. The one refusal is want of memory, and hands both arguments back.
    pub fn new(
        alloc: Global,
        bus: P::Bus,
        places: Vec<P::Place>,
    ) -> Result<(Turns<P>, Vec<BoardSeat<P>>), NewRefused<P>>
        requires some_places { 0 < length places.items }
        requires few { length places.items < 13 }
        requires good { P.good bus places.items }
        ensures places { IfOk result (λ made. made.0.places ≡ length places.items) }
        ensures idle { IfOk result (λ made. AreAllIdle made.0 made.1.items) }
        ensures named { IfOk result (λ made. AreNamed (P.name bus) made.1.items) }
        ensures new { IfOk result (λ made. HaveMetNone made.1.items) }
        ensures refused { IfErr result (λ back. (back.bus ≡ bus) × (back.places ≡ places)) }
    {
        let count = places.len();
        let Ok(seats) = Vec::with_capacity(alloc, count) else {
            return Err(NewRefused { bus, places });
        };
        let zeros = [0u64; 14];
        let made: Result<(OwnedTable<P>, TableSeat<P>), _> = Table::vacant(
            alloc,
            &zeros[..count + 2],
            count + 1,
            &(),
        );
        let Ok((table, mut first)) = made else {
            seats.destroy_empty();
            return Err(NewRefused { bus, places });
        };
        open::<P>(&table.shared, &mut first, bus, places);
        let seats = seat_all::<P>(&table.shared, first, seats, count as u32);
        let turns = Turns {
            table,
            parkers: AtomicU64::new(0),
        };
        Ok((turns, seats))
    }

    /// Tries for the seat's own place, by one compare and exchange. It does not wait.
    ///
    /// `Busy` comes exactly where the try found the place taken for the bus, which means that a seat holds the bus; the
    /// seat's `met` counts these. The place that comes is an own step after itself.
    pub fn take_own(&self, seat: &mut BoardSeat<P>) -> Own<P::Place>
        requires table { seat.old.table ≡ self.now.table }
        requires idle { seat.old.holds ≡ Nothing }
        ensures got { IfGot result (λ p. seat.new ≡ record seat.old { holds = HoldsOwn p }) }
        ensures rests { IfGot result (λ p. P.own_step seat.old.number p p) }
        ensures busy { IfBusy result (seat.new ≡ record seat.old { met = seat.old.met + 1 }) }
    {
        let number = seat.number as usize;
        match take_own::<P>(&self.table.shared, &mut seat.seat, number) {
            Some(place) => Own::Got(place),
            None => Own::Busy,
        }
    }

    /// Gives the seat's own place back, an own step after the one that was got. It does not wait.
    ///
    /// Where a seat has the bus it is woken on this place, and gets a bounded time to take it.
    pub fn give_own(&self, seat: &mut BoardSeat<P>, place: P::Place)
        requires table { seat.old.table ≡ self.now.table }
        requires step { (p : P.Place) × (seat.old.holds ≡ HoldsOwn p) × P.own_step seat.old.number p place }
        ensures gave { seat.new ≡ record seat.old { holds = Nothing } }
    {
        let number = seat.number as usize;
        give_own::<P>(&self.table.shared, &mut seat.seat, number, place);
    }

    /// Takes the bus, and then every place in the order of their numbers. It may wait.
    ///
    /// What comes is good, has as many places as `new` was given, and its bus has the seat's name.
    pub fn take_all<R: Wait>(&self, rt: &R, seat: &mut BoardSeat<P>) -> All<P>
        requires table { seat.old.table ≡ self.now.table }
        requires idle { seat.old.holds ≡ Nothing }
        ensures took { seat.new ≡ record seat.old { holds = Everything } }
        ensures good { P.good result.bus result.places.items }
        ensures many { length result.places.items ≡ self.now.places }
        ensures name { seat.old.name ≡ Some (P.name result.bus) }
    {
        let inner = &mut seat.seat;
        let count = self.table.slot_count() - 1;
        take_all::<P, R>(rt, &self.table.shared, &self.parkers, inner, count)
    }

    /// Gives the bus and every place, with new values: good ones, as many places, and a bus of the same name.
    ///
    /// One of the seats that park on the bus is woken, where any does.
    pub fn give_all(&self, seat: &mut BoardSeat<P>, all: All<P>)
        requires table { seat.old.table ≡ self.now.table }
        requires holds { seat.old.holds ≡ Everything }
        requires many { length all.places.items ≡ self.now.places }
        requires good { P.good all.bus all.places.items }
        requires name { seat.old.name ≡ Some (P.name all.bus) }
        ensures gave { seat.new ≡ record seat.old { holds = Nothing } }
    {
        give_all::<P>(&self.table.shared, &mut seat.seat, all);
        wake_for_bus(&self.table.shared, &self.parkers);
    }

    /// The bus and the places, in their order, once all seats are back: seat `i` at position `i`, each holding nothing.
    ///
    /// They are good, as many as `new` was given, and the bus has the name of every seat.
    pub fn close(self, seats: Vec<BoardSeat<P>>) -> (P::Bus, Vec<P::Place>)
        requires seats { AreAllIdle self seats.items }
        ensures good { P.good result.0 result.1.items }
        ensures many { length result.1.items ≡ self.places }
        ensures named { AreNamed (P.name result.0) seats.items }
    {
        let Turns { table, parkers: _ } = self;
        let (first, others) = front::<P>(&table.shared, seats);
        let first = join_all::<P>(&table.shared, first, others);
        let closed = table.close_with(first);
        let All { bus, places } = take_out::<P>(closed);
        (bus, places)
    }
}
