//! A seat takes the bus, and then every place.
ghost use Rattle.std.specs.Prelude.{◌≡◌, ℕ, [], ◌∷◌, ◌+◌, ◌<◌, Some, None, IfSome, IfNone, IfOk, IfErr, OnErr};
ghost use Rattle.spur_turns.specs.declared.table.Stowed.{Stowed};
ghost use Rattle.spur_turns.specs.Hands.{HasTaken, HoldsFirst, IsFree, TookBus, TookPlace};

use crate::kinds::{TakeBus, TakePlace};
use crate::pact::Pact;
use crate::table::{Item, Load, SharedTable, Stowed, TableSeat};
use crate::waiting::{is_soon_free, park_for_bus};
use std::sync::Wait;
use std::sync::atomic::AtomicU64;

/// A bus and all places.
pub struct All<P: Pact> {
    pub bus: P::Bus,
    /// The places in the order of their numbers.
    pub places: Vec<P::Place>,
}

/// Takes the bus, if it is free.
fn try_bus<P: Pact>(table: &SharedTable<P>, seat: &mut TableSeat<P>) -> Option<Load<P>>
    requires of_table { seat.old.table_id ≡ table.now.table_id }
    requires words { table.now.table_id.words ≡ table.now.table_id.slots + 1 }
    requires free { IsFree seat.old.me }
    requires named { (x : P.Name) × (seat.old.me.0.name ≡ Some x) }
    ensures of_table { seat.new.table_id ≡ seat.old.table_id }
    ensures got { IfSome result (λ t. TookBus table.now.table_id.slots t seat.old.me seat.new.me) }
    ensures missed { IfNone result (seat.new.me ≡ seat.old.me) }
{
    let found = table.compare_exchange::<TakeBus<P>>(seat, 0, 0, 1);
    if found != 0 {
        return None;
    }
    match table.exchange(seat, 0, None) {
        Some(Item::Bus(load)) => Some(load),
        _ => unreachable!(),
    }
}

/// Takes the next place, if it is free. The error is what its word was.
fn try_place<P: Pact>(
    table: &SharedTable<P>,
    seat: &mut TableSeat<P>,
    next: usize,
) -> Result<P::Place, u32>
    requires of_table { seat.old.table_id ≡ table.now.table_id }
    requires words { table.now.table_id.words ≡ table.now.table_id.slots + 1 }
    requires low { next + 1 < table.now.table_id.slots }
    requires few { next < 12 }
    requires held { HoldsFirst (next + 1) seat.old.me }
    requires named { (x : P.Name) × (seat.old.me.0.name ≡ Some x) }
    ensures of_table { seat.new.table_id ≡ seat.old.table_id }
    ensures got { IfOk result (λ p. TookPlace P.good P.name table.now.table_id.slots next p seat.old.me seat.new.me) }
    ensures missed { OnErr result (seat.new.me ≡ seat.old.me) }
{
    let found = table.compare_exchange::<TakePlace<P>>(seat, next + 2, 0, 2);
    if found != 0 {
        return Err(found as u32);
    }
    match table.exchange(seat, next + 1, None) {
        Some(Item::Place(place)) => Ok(place),
        _ => unreachable!(),
    }
}

/// Takes the bus, and waits for it where another seat has it.
fn take_bus<P: Pact, R: Wait>(
    rt: &R,
    table: &SharedTable<P>,
    parkers: &AtomicU64,
    seat: &mut TableSeat<P>,
) -> Load<P>
    requires of_table { seat.old.table_id ≡ table.now.table_id }
    requires words { table.now.table_id.words ≡ table.now.table_id.slots + 1 }
    requires free { IsFree seat.old.me }
    requires named { (x : P.Name) × (seat.old.me.0.name ≡ Some x) }
    ensures of_table { seat.new.table_id ≡ seat.old.table_id }
    ensures got { TookBus table.now.table_id.slots result seat.old.me seat.new.me }
{
    for _ in rt.forever() {
        if let Some(load) = try_bus::<P>(table, seat) {
            return load;
        }
        if !is_soon_free(table, 0) {
            park_for_bus(rt, table, parkers);
        }
    }
    unreachable!()
}

/// Takes the next place, and waits for it where its own seat has it.
fn take_place<P: Pact, R: Wait>(
    rt: &R,
    table: &SharedTable<P>,
    seat: &mut TableSeat<P>,
    next: usize,
) -> P::Place
    requires of_table { seat.old.table_id ≡ table.now.table_id }
    requires words { table.now.table_id.words ≡ table.now.table_id.slots + 1 }
    requires low { next + 1 < table.now.table_id.slots }
    requires few { next < 12 }
    requires held { HoldsFirst (next + 1) seat.old.me }
    requires named { (x : P.Name) × (seat.old.me.0.name ≡ Some x) }
    ensures of_table { seat.new.table_id ≡ seat.old.table_id }
    ensures got { TookPlace P.good P.name table.now.table_id.slots next result seat.old.me seat.new.me }
{
    for _ in rt.forever() {
        match try_place::<P>(table, seat, next) {
            Ok(place) => return place,
            Err(found) => {
                if !is_soon_free(table, next + 2) {
                    table.park(rt, next + 2, found);
                }
            }
        }
    }
    unreachable!()
}

/// Takes the bus, and then every place in the order of their numbers.
pub(crate) fn take_all<P: Pact, R: Wait>(
    rt: &R,
    table: &SharedTable<P>,
    parkers: &AtomicU64,
    seat: &mut TableSeat<P>,
    count: usize,
) -> All<P>
    requires of_table { seat.old.table_id ≡ table.now.table_id }
    requires words { table.now.table_id.words ≡ table.now.table_id.slots + 1 }
    requires count { count + 1 ≡ table.now.table_id.slots }
    requires some_places { 0 < count }
    requires few { count < 13 }
    requires free { IsFree seat.old.me }
    requires named { (x : P.Name) × (seat.old.me.0.name ≡ Some x) }
    ensures of_table { seat.new.table_id ≡ seat.old.table_id }
    ensures got { HasTaken P.good P.name (count + 1) count result.bus result.places seat.old.me seat.new.me }
{
    let Stowed { bus, room } = take_bus(rt, table, parkers, seat);
    let mut places = room;
    for next in 0..count {
        let place = take_place(rt, table, seat, next);
        let pushed = places.push(place);
        let Ok(()) = pushed else { unreachable!() };
    }
    All { bus, places }
}
