//! A seat takes its own place, and gives it back.
ghost use Rattle.std.specs.Prelude.{◌≡◌, ℕ, true, [], ◌∷◌, ◌+◌, ◌<◌, Some, None, IfSome, IfNone};
ghost use Rattle.spur_turns.specs.Hands.{IsFree};

use crate::kinds::{GiveOwn, TakeOwn};
use crate::pact::Pact;
use crate::table::{Item, SharedTable, TableSeat};
use crate::waiting::let_bus_pass;

/// One compare and exchange. `None` where the bus has the place.
pub(crate) fn take_own<P: Pact>(
    table: &SharedTable<P>,
    seat: &mut TableSeat<P>,
    number: usize,
) -> Option<P::Place>
    requires of_table { seat.old.table_id ≡ table.now.table_id }
    requires words { table.now.table_id.words ≡ table.now.table_id.slots + 1 }
    requires low { number + 1 < table.now.table_id.slots }
    requires few { number < 12 }
    requires free { IsFree seat.old.me }
    requires number { seat.old.me.0.number ≡ number }
    requires named { (x : P.Name) × (seat.old.me.0.name ≡ Some x) }
    ensures of_table { seat.new.table_id ≡ seat.old.table_id }
    ensures got { IfSome result (λ p. seat.new.me ≡ (record seat.old.me.0 { own = Some p }, (number + 1, None) ∷ [])) }
    ensures rests { IfSome result (λ p. P.own_step number p p) }
    ensures busy { IfNone result (seat.new.me ≡ (record seat.old.me.0 { met = seat.old.me.0.met + 1 }, [])) }
{
    let found = table.compare_exchange::<TakeOwn<P>>(seat, number + 2, 0, 1);
    if found != 0 {
        return None;
    }
    match table.exchange(seat, number + 1, None) {
        Some(Item::Place(place)) => Some(place),
        _ => unreachable!(),
    }
}

/// The place goes home, an own step after what was taken.
pub(crate) fn give_own<P: Pact>(
    table: &SharedTable<P>,
    seat: &mut TableSeat<P>,
    number: usize,
    place: P::Place,
)
    requires of_table { seat.old.table_id ≡ table.now.table_id }
    requires words { table.now.table_id.words ≡ table.now.table_id.slots + 1 }
    requires low { number + 1 < table.now.table_id.slots }
    requires few { number < 12 }
    requires live { seat.old.me.0.live ≡ true }
    requires number { seat.old.me.0.number ≡ number }
    requires holds { seat.old.me.1 ≡ (number + 1, None) ∷ [] }
    requires step { (p : P.Place) × (seat.old.me.0.own ≡ Some p) × P.own_step number p place }
    requires named { (x : P.Name) × (seat.old.me.0.name ≡ Some x) }
    ensures of_table { seat.new.table_id ≡ seat.old.table_id }
    ensures gave { seat.new.me ≡ (record seat.old.me.0 { own = None }, []) }
{
    let taken_out = table.exchange(seat, number + 1, Some(Item::Place(place)));
    let None = taken_out else { unreachable!() };
    table.store::<GiveOwn>(seat, number + 2, 0);
    let_bus_pass(table, number + 2);
}
