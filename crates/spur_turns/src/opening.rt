//! The first values are put in, and each place gets its seat.
ghost use Rattle.std.specs.Prelude.{◌≡◌, ℕ, true, [], ◌∷◌, ◌+◌, ◌<◌, ◌≤◌, length, Some, None, vec_capacity};
ghost use Rattle.spur_turns.specs.Views.{first_view, new_view};
ghost use Rattle.spur_turns.specs.Hands.{HoldsFirst, IsFree, SameButStock};
ghost use Rattle.spur_turns.specs.Seats.{AreAllIdle, AreNamed, HaveMetNone};
ghost use Rattle.spur_turns.specs.Shown.{turns_view};

use crate::giving::{give_back, put_in};
use crate::kinds::{Open, SplitOff, TakeBus, TakePlace};
use crate::pact::Pact;
use crate::seat::BoardSeat;
use crate::table::{SharedTable, TableSeat};

/// Seat 0 takes all slots, which are empty.
fn take_empty<P: Pact>(table: &SharedTable<P>, seat: &mut TableSeat<P>, count: usize)
    requires of_table { seat.old.table_id ≡ table.now.table_id }
    requires words { table.now.table_id.words ≡ table.now.table_id.slots + 1 }
    requires count { count + 1 ≡ table.now.table_id.slots }
    requires few { count < 13 }
    requires first { seat.old.me ≡ (first_view, []) }
    ensures of_table { seat.new.table_id ≡ seat.old.table_id }
    ensures held { HoldsFirst (count + 1) seat.new.me }
    ensures view { SameButStock first_view seat.new.me.0 }
{
    table.compare_exchange::<TakeBus<P>>(seat, 0, 0, 1);
    for next in 0..count {
        table.compare_exchange::<TakePlace<P>>(seat, next + 2, 0, 2);
    }
}

/// The first values come in, and all goes home.
pub(crate) fn open<P: Pact>(
    table: &SharedTable<P>,
    seat: &mut TableSeat<P>,
    bus: P::Bus,
    places: Vec<P::Place>,
)
    requires of_table { seat.old.table_id ≡ table.now.table_id }
    requires words { table.now.table_id.words ≡ table.now.table_id.slots + 1 }
    requires count { length places.items + 1 ≡ table.now.table_id.slots }
    requires few { length places.items < 13 }
    requires first { seat.old.me ≡ (first_view, []) }
    requires good { P.good bus places.items }
    ensures of_table { seat.new.table_id ≡ seat.old.table_id }
    ensures opened { seat.new.me ≡ (record first_view { opened = true; name = Some (P.name bus) }, []) }
{
    let count = places.len();
    take_empty::<P>(table, seat, count);
    put_in::<P>(table, seat, bus, places);
    table.fetch_add::<Open<P>>(seat, 1, 1);
    give_back::<P>(table, seat, count);
}

/// One more seat is split off seat 0.
fn another<P: Pact>(table: &SharedTable<P>, first: &mut TableSeat<P>) -> TableSeat<P>
    requires of_table { first.old.table_id ≡ table.now.table_id }
    requires words { table.now.table_id.words ≡ table.now.table_id.slots + 1 }
    requires free { IsFree first.old.me }
    requires first { first.old.me.0.number ≡ 0 }
    requires named { (x : P.Name) × (first.old.me.0.name ≡ Some x) }
    ensures of_table { (first.new.table_id ≡ first.old.table_id) × (result.table_id ≡ first.old.table_id) }
    ensures first { first.new.me ≡ (record first.old.me.0 { seats = first.old.me.0.seats + 1 }, first.old.me.1) }
    ensures new { result.me ≡ (new_view first.old.me.0, []) }
{
    table.split_seat::<SplitOff>(first)
}

/// One seat for each place, all split off seat 0, which comes first.
pub(crate) fn seat_all<P: Pact>(
    table: &SharedTable<P>,
    mut first: TableSeat<P>,
    mut seats: Vec<BoardSeat<P>>,
    count: u32,
) -> Vec<BoardSeat<P>>
    requires of_table { first.table_id ≡ table.now.table_id }
    requires words { table.now.table_id.words ≡ table.now.table_id.slots + 1 }
    requires count { count + 1 ≡ table.now.table_id.slots }
    requires some_places { 0 < count }
    requires few { count < 13 }
    requires first { (x : P.Name) × (first.me ≡ (record first_view { opened = true; name = Some x }, [])) }
    requires empty { seats.items ≡ [] }
    requires room { count ≤ vec_capacity seats }
    ensures idle { AreAllIdle (turns_view table.now.table_id) result.items }
    ensures named { (x : P.Name) → first.me.0.name ≡ Some x → AreNamed x result.items }
    ensures new { HaveMetNone result.items }
{
    for number in 1..count {
        let seat = another::<P>(table, &mut first);
        let pushed = seats.push(BoardSeat { number, seat });
        let Ok(()) = pushed else { unreachable!() };
    }
    let first = BoardSeat {
        number: 0,
        seat: first,
    };
    let inserted = seats.insert(0, first);
    let Ok(()) = inserted else { unreachable!() };
    seats
}
