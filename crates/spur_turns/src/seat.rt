//! Seats.
ghost use Rattle.std.specs.Prelude.{◌≡◌};

use crate::pact::Pact;
use crate::table::TableSeat;
use std::marker::Model;

/// One of the seats of a table: the right to take the place of its number, and in turn the bus and every place.
///
/// A seat knows which table is its own, and the calls of another refuse it by their conditions. It can go to a thread
/// of its own.
pub struct BoardSeat<P: Pact> {
    pub(crate) number: u32,
    pub(crate) seat: TableSeat<P>,
}

impl<P: Pact> Model for BoardSeat<P> {
    ghost use Rattle.spur_turns.specs.Shown.{SeatView, seat_view, seat_view_coded};

    ghost Value = { SeatView P.Place P.Name };

    ghost use Rattle.spur_turns.specs.Seats.{IsSeatKept};

    ghost view = { λ s. seat_view s.seat.table_id s.seat.me.0 };

    ghost invariant = { λ s. IsSeatKept s.number s.seat.table_id s.seat.me.0 s.seat.me.1 };
}

impl<P: Pact> BoardSeat<P> {
    /// The seat's number, which is that of its place, counted from 0.
    pub fn number(&self) -> u32
        ensures { result ≡ self.now.number }
    {
        self.number
    }
}
