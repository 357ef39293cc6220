//! A seat gives the bus and every place, with new values.
ghost use Rattle.std.specs.Prelude.{◌≡◌, ℕ, [], ◌∷◌, ◌+◌, ◌<◌, ◌++◌, length, Some, None};
ghost use Rattle.atomic_table.specs.Table.{rest};
ghost use Rattle.spur_turns.specs.Hands.{CanCommit, HoldsFirst, IsFilled, IsReady, SameButStock, emptied};

use crate::kinds::{Commit, GiveBack};
use crate::pact::Pact;
use crate::table::{Item, Load, SharedTable, Stowed, TableSeat};
use crate::taking::All;

/// Puts a value into the slot in front, which goes behind the others.
fn put<P: Pact>(
    table: &SharedTable<P>,
    seat: &mut TableSeat<P>,
    slot: usize,
    value: Item<Load<P>, P::Place>,
)
    requires of_table { seat.old.table_id ≡ table.now.table_id }
    requires hand { seat.old.me.1 ≡ (slot, None) ∷ rest seat.old.me.1 }
    ensures of_table { seat.new.table_id ≡ seat.old.table_id }
    ensures view { seat.new.me.0 ≡ seat.old.me.0 }
    ensures hand { seat.new.me.1 ≡ rest seat.old.me.1 ++ (slot, Some value) ∷ [] }
{
    let taken_out = table.exchange(seat, slot, Some(value));
    let None = taken_out else { unreachable!() };
    seat.turn();
}

/// Puts all values into the slots in hand.
pub(crate) fn put_in<P: Pact>(
    table: &SharedTable<P>,
    seat: &mut TableSeat<P>,
    bus: P::Bus,
    mut places: Vec<P::Place>,
)
    requires of_table { seat.old.table_id ≡ table.now.table_id }
    requires hand { seat.old.me.1 ≡ emptied (length places.items + 1) }
    requires few { length places.items < 13 }
    ensures of_table { seat.new.table_id ≡ seat.old.table_id }
    ensures view { seat.new.me.0 ≡ seat.old.me.0 }
    ensures hand { IsFilled bus places.items seat.new.me.1 }
{
    while let Some(place) = places.pop() {
        let slot = places.len() + 1;
        put::<P>(table, seat, slot, Item::Place(place));
    }
    put::<P>(table, seat, 0, Item::Bus(Stowed { bus, room: places }));
}

/// The values in hand, which are good and have the name, become the current ones.
fn commit<P: Pact>(table: &SharedTable<P>, seat: &mut TableSeat<P>)
    requires of_table { seat.old.table_id ≡ table.now.table_id }
    requires words { table.now.table_id.words ≡ table.now.table_id.slots + 1 }
    requires ready { CanCommit P.good P.name table.now.table_id.slots seat.old.me }
    ensures of_table { seat.new.table_id ≡ seat.old.table_id }
    ensures view { SameButStock seat.old.me.0 seat.new.me.0 }
    ensures ready { IsReady table.now.table_id.slots seat.new.me }
{
    table.fetch_add::<Commit>(seat, 1, 1);
}

/// All that is held goes home, the last place first and the bus at the end.
pub(crate) fn give_back<P: Pact>(table: &SharedTable<P>, seat: &mut TableSeat<P>, count: usize)
    requires of_table { seat.old.table_id ≡ table.now.table_id }
    requires words { table.now.table_id.words ≡ table.now.table_id.slots + 1 }
    requires count { count + 1 ≡ table.now.table_id.slots }
    requires few { count < 13 }
    requires ready { IsReady table.now.table_id.slots seat.old.me }
    ensures of_table { seat.new.table_id ≡ seat.old.table_id }
    ensures gave { seat.new.me ≡ (record seat.old.me.0 { stock = [] }, []) }
{
    let mut left = count;
    while left > 0 {
        table.store::<GiveBack>(seat, left + 1, 0);
        left -= 1;
    }
    table.store::<GiveBack>(seat, 0, 0);
}

/// The values become these, and all goes home.
pub(crate) fn give_all<P: Pact>(table: &SharedTable<P>, seat: &mut TableSeat<P>, all: All<P>)
    requires of_table { seat.old.table_id ≡ table.now.table_id }
    requires words { table.now.table_id.words ≡ table.now.table_id.slots + 1 }
    requires count { length all.places.items + 1 ≡ table.now.table_id.slots }
    requires few { length all.places.items < 13 }
    requires held { HoldsFirst (length all.places.items + 1) seat.old.me }
    requires good { P.good all.bus all.places.items }
    requires named { seat.old.me.0.name ≡ Some (P.name all.bus) }
    ensures of_table { seat.new.table_id ≡ seat.old.table_id }
    ensures gave { seat.new.me ≡ (record seat.old.me.0 { stock = [] }, []) }
{
    let All { bus, places } = all;
    let count = places.len();
    put_in::<P>(table, seat, bus, places);
    commit::<P>(table, seat);
    give_back::<P>(table, seat, count);
}
