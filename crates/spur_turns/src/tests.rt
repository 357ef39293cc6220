//! Seats that take turns, one after another and on threads of their own.
ghost use Rattle.std.specs.Prelude.{◌≡◌, ℕ, ◌<◌, All as AllOf, length, slice_index_or};
ghost use Rattle.spur_turns.specs.declared.shown.Holding.TheVariants.{Nothing};
ghost use Rattle.spur_turns.specs.Evens.{AddsEven, IsDouble};
ghost use Rattle.spur_turns.specs.Seats.{AreAllIdle};
ghost use Rattle.spur_turns.specs.Turned.{CanTurn, HasTurned};

use crate::ledger::{EvenLedger, Ledger, add_alone, take_turns};
use crate::{All, BoardSeat, NewRefused, Own, Pact, Turns};
use std::sync::Wait;
use std::test::Fail;
use std::thread;
use std::thread::Threads;

/// How many turns of each kind a seat makes on its thread.
const TURNS: u32 = 300;

/// The pact of the row: bus and places are even numbers, an own step adds an even one, and every bus has the name 0.
struct Even;

impl Pact for Even {
    ghost use Rattle.spur_turns.specs.Evens.{AddsEven, AreEven, adds_none, keeps_even};

    type Bus = u64;

    type Place = u64;

    type Name = u64;

    ghost good = { AreEven };

    ghost own_step = { λ _ before after. AddsEven before after };

    ghost name = { λ _. 0 };

    ghost rests = { adds_none };

    ghost keeps = { keeps_even };
}

/// A seat may go to another thread, and a table may be shared, where bus and places may go.
fn may_cross<P: Pact>(turns: &Turns<P>, seat: &BoardSeat<P>)
where
    P::Bus: Send,
    P::Place: Send,
{
    is_shared(turns);
    is_sent(seat);
}

fn is_shared<T: Sync>(_value: &T) {}

fn is_sent<T: Send>(_value: &T) {}

/// The sum with an even number, where it is one of 64 bits, and else the first number.
fn sum_or_first(n: u64, more: u64) -> u64
    requires { IsDouble more }
    ensures { AddsEven n result }
{
    match n.checked_add(more) {
        Some(sum) => sum,
        None => n,
    }
}

/// The own place, given back with an even number more, where that is a number. `None` where the bus has it.
fn own_turn(turns: &Turns<Even>, seat: &mut BoardSeat<Even>, more: u64) -> Option<u64>
    requires table { seat.old.table ≡ turns.now.table }
    requires idle { seat.old.holds ≡ Nothing }
    requires even { IsDouble more }
    ensures { HasTurned seat.old seat.new }
{
    match turns.take_own(seat) {
        Own::Got(own) => {
            turns.give_own(seat, sum_or_first(own, more));
            Some(own)
        }
        Own::Busy => None,
    }
}

/// Turns of two seats in a row: whether each finds what the ones before it left.
fn find_in_turn<R: Wait>(
    rt: &R,
    turns: &Turns<Even>,
    first: &mut BoardSeat<Even>,
    second: &mut BoardSeat<Even>,
) -> bool
    requires first { (first.old.table ≡ turns.now.table) × (first.old.holds ≡ Nothing) }
    requires second { (second.old.table ≡ turns.now.table) × (second.old.holds ≡ Nothing) }
    ensures first { HasTurned first.old first.new }
    ensures second { HasTurned second.old second.new }
{
    let begun = own_turn(turns, first, 4);
    let All { bus, places } = turns.take_all(rt, second);
    let whole = bus == 0 && places[..] == [4, 0];
    let busy = own_turn(turns, first, 2);
    turns.give_all(second, All { bus: 4, places });
    let ended = own_turn(turns, first, 2);
    begun == Some(0) && whole && busy == None && ended == Some(4)
}

#[test]
fn two_seats_take_turns(rt: HostRuntime) -> Result<(), Fail> {
    let places = vec![in rt.alloc(); 0u64, 0]?;
    let (turns, mut seats) = match Turns::<Even>::new(rt.alloc(), 0, places) {
        Ok(made) => made,
        Err(NewRefused { bus: _, places: _ }) => return Err(Fail::from("memory")),
    };
    let mut second = seats.pop().unwrap();
    let mut first = seats.pop().unwrap();
    may_cross(&turns, &first);
    assert!(rt; first.number() == 0 && second.number() == 1);
    assert!(rt; find_in_turn(&rt, &turns, &mut first, &mut second));
    let pushed = seats.push(first);
    let Ok(()) = pushed else { unreachable!() };
    let pushed = seats.push(second);
    let Ok(()) = pushed else { unreachable!() };
    let (bus, places) = turns.close(seats);
    assert!(rt; bus == 4 && places[..] == [6, 0]);
    Ok(())
}

/// The own place, tried for again for as long as the bus has it.
fn add_alone_at_last<R: Wait>(rt: &R, turns: &Turns<EvenLedger>, seat: &mut BoardSeat<EvenLedger>)
    requires table { seat.old.table ≡ turns.now.table }
    requires idle { seat.old.holds ≡ Nothing }
    ensures { HasTurned seat.old seat.new }
{
    for _ in rt.forever() {
        if add_alone(turns, seat) {
            return;
        }
    }
    unreachable!()
}

/// A seat's turns: as many own ones as whole ones, an own one that met the bus after the whole one.
fn make_turns<R: Wait>(rt: &R, turns: &Turns<EvenLedger>, seat: &mut BoardSeat<EvenLedger>)
    requires table { seat.old.table ≡ turns.now.table }
    requires idle { seat.old.holds ≡ Nothing }
    ensures { HasTurned seat.old seat.new }
{
    for _ in 0..TURNS {
        if !take_turns(rt, turns, seat).got {
            add_alone_at_last(rt, turns, seat);
        }
    }
}

/// All seats make their turns, each on a thread of its own.
fn run_each<R: Threads + Wait + Sync>(
    rt: &R,
    turns: &Turns<EvenLedger>,
    seats: &mut [BoardSeat<EvenLedger>],
)
    requires each { AllOf (CanTurn turns.now.table) seats.old }
    ensures { (i : ℕ) (d : _) → i < length seats.old → HasTurned (slice_index_or seats.old i d) (slice_index_or seats.new i d) }
{
    thread::for_each_mut(rt, seats, 3, &|_, seat| make_turns(rt, turns, seat));
}

/// The same of all seats of the table, which are then all there as before.
fn run<R: Threads + Wait + Sync>(
    rt: &R,
    turns: &Turns<EvenLedger>,
    seats: &mut [BoardSeat<EvenLedger>],
)
    requires { AreAllIdle turns.now seats.old }
    ensures { AreAllIdle turns.now seats.new }
{
    run_each(rt, turns, seats);
}

#[test]
fn three_seats_take_turns_on_threads(rt: HostRuntime) -> Result<(), Fail> {
    let amounts = vec![in rt.alloc(); 0u64, 0, 0]?;
    let ledger = Ledger { name: 7, total: 0 };
    let (turns, mut seats) = match Turns::<EvenLedger>::new(rt.alloc(), ledger, amounts) {
        Ok(made) => made,
        Err(NewRefused { bus: _, places: _ }) => return Err(Fail::from("memory")),
    };
    run(&rt, &turns, seats.as_mut_slice());
    let (ledger, amounts) = turns.close(seats);
    // each seat added two, 300 times to its own amount and 300 times to the total
    let ended = Ledger {
        name: 7,
        total: 1800,
    };
    assert_eq!(rt; ledger, ended);
    assert!(rt; amounts[..] == [600, 600, 600]);
    Ok(())
}
