//! All seats are joined, and the values come out.
ghost use Rattle.std.specs.Prelude.{◌≡◌, ℕ, false, [], ◌∷◌, ◌+◌, ◌-◌, ◌<◌, ◌++◌, length, map, slice_get, Some, None, IsTrue, slice_index_or, slice_set};
ghost use Rattle.std.specs.Mem.Slots.{slots_items, slots_filled, slots_len, IsFull};
ghost use mathlib.Core.Option.{some};
ghost use lib.ListN.{get_elem?};
ghost use Rattle.spur_turns.specs.declared.table.Item.TheVariants.{Bus, Place};
ghost use Rattle.spur_turns.specs.Views.{joined_view};
ghost use Rattle.spur_turns.specs.Hands.{IsFree};
ghost use Rattle.spur_turns.specs.Seats.{AreAllIdle, AreLastOf, AreOthers, IsFront};
ghost use Rattle.spur_turns.specs.Shown.{names_of, turns_view};

use crate::kinds::JoinIn;
use crate::pact::Pact;
use crate::seat::BoardSeat;
use crate::table::{Held, Item, Load, SharedTable, Stowed, TableSeat};
use crate::taking::All;
use atomic_table::Closed;
use std::alloc::Global;

/// The seat of the greatest number is joined into seat 0.
fn join<P: Pact>(table: &SharedTable<P>, first: &mut TableSeat<P>, last: TableSeat<P>)
    requires first_of_table { first.old.table_id ≡ table.now.table_id }
    requires last_of_table { last.table_id ≡ table.now.table_id }
    requires words { table.now.table_id.words ≡ table.now.table_id.slots + 1 }
    requires free { IsFree first.old.me × IsFree last.me }
    requires first { first.old.me.0.number ≡ 0 }
    requires last { last.me.0.number + 1 ≡ first.old.me.0.seats }
    requires named { (x : P.Name) × (first.old.me.0.name ≡ Some x) }
    ensures of_table { first.new.table_id ≡ first.old.table_id }
    ensures joined { first.new.me ≡ (joined_view first.old.me.0 last.me.0, first.old.me.1) }
{
    table.join_seat::<JoinIn>(first, last);
}

/// Seat 0, apart from the others, which stand behind it.
pub(crate) fn front<P: Pact>(
    table: &SharedTable<P>,
    mut seats: Vec<BoardSeat<P>>,
) -> (TableSeat<P>, Vec<BoardSeat<P>>)
    requires some_places { 1 < table.now.table_id.slots }
    requires idle { AreAllIdle (turns_view table.now.table_id) seats.items }
    ensures { IsFront table.now.table_id seats.items result.0.table_id result.0.me result.1.items }
{
    let BoardSeat { number: _, seat } = seats.remove(0);
    (seat, seats)
}

/// All other seats are joined into seat 0, the last one first.
pub(crate) fn join_all<P: Pact>(
    table: &SharedTable<P>,
    mut first: TableSeat<P>,
    mut seats: Vec<BoardSeat<P>>,
) -> TableSeat<P>
    requires of_table { first.table_id ≡ table.now.table_id }
    requires words { table.now.table_id.words ≡ table.now.table_id.slots + 1 }
    requires free { IsFree first.me }
    requires first { first.me.0.number ≡ 0 }
    requires seats { first.me.0.seats ≡ length seats.items + 1 }
    requires none_joined { first.me.0.joined ≡ [] }
    requires named { (x : P.Name) × (first.me.0.name ≡ Some x) }
    requires others { AreOthers table.now.table_id seats.items }
    ensures of_table { result.table_id ≡ first.table_id }
    ensures joined { result.me ≡ (record first.me.0 { seats = 1; joined = names_of seats.items }, []) }
{
    while let Some(last) = seats.pop() {
        let BoardSeat { number: _, seat } = last;
        join::<P>(table, &mut first, seat);
    }
    seats.destroy_empty();
    first
}

/// The bus that lies in a slot.
fn bus_at<P: Pact>(closed: &mut Closed<Held<P>, Global>, slot: usize) -> Load<P>
    requires slot { slot < slots_len closed.old.slots }
    requires there { IsTrue (slice_index_or (slots_filled closed.old.slots) slot false) }
    requires value { (t : _) × (get_elem? (slots_items closed.old.slots) slot ≡ some (Some (Bus t))) }
    ensures value { get_elem? (slots_items closed.old.slots) slot ≡ some (Some (Bus result)) }
    ensures items { slots_items closed.new.slots ≡ slots_items closed.old.slots }
    ensures taken { slots_filled closed.new.slots ≡ slice_set (slots_filled closed.old.slots) slot false }
    ensures len { slots_len closed.new.slots ≡ slots_len closed.old.slots }
{
    match closed.take(slot) {
        Some(Item::Bus(load)) => load,
        _ => unreachable!(),
    }
}

/// The place that lies in a slot.
fn place_at<P: Pact>(closed: &mut Closed<Held<P>, Global>, slot: usize) -> P::Place
    requires slot { slot < slots_len closed.old.slots }
    requires there { IsTrue (slice_index_or (slots_filled closed.old.slots) slot false) }
    requires value { (p : _) × (get_elem? (slots_items closed.old.slots) slot ≡ some (Some (Place p))) }
    ensures value { get_elem? (slots_items closed.old.slots) slot ≡ some (Some (Place result)) }
    ensures items { slots_items closed.new.slots ≡ slots_items closed.old.slots }
    ensures taken { slots_filled closed.new.slots ≡ slice_set (slots_filled closed.old.slots) slot false }
    ensures len { slots_len closed.new.slots ≡ slots_len closed.old.slots }
{
    match closed.take(slot) {
        Some(Item::Place(place)) => place,
        _ => unreachable!(),
    }
}

/// The bus and the places that lie in the slots, in the order of the places.
pub(crate) fn take_out<P: Pact>(mut closed: Closed<Held<P>, Global>) -> All<P>
    requires full { IsFull closed.slots }
    requires some_places { 1 < slots_len closed.slots }
    requires last { (x : P.Name) × AreLastOf P.good P.name (slots_items closed.slots) x }
    ensures good { P.good result.bus result.places.items }
    ensures many { length result.places.items + 1 ≡ slots_len closed.slots }
    ensures name { (x : P.Name) → AreLastOf P.good P.name (slots_items closed.slots) x → P.name result.bus ≡ x }
{
    let count = closed.slot_count() - 1;
    let Stowed { bus, room } = bus_at::<P>(&mut closed, 0);
    let mut places = room;
    for next in 0..count {
        let place = place_at::<P>(&mut closed, next + 1);
        let pushed = places.push(place);
        let Ok(()) = pushed else { unreachable!() };
    }
    closed.free();
    All { bus, places }
}
