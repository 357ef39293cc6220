//! A pact in small: seats with even amounts, and a ledger with an even total.
//!
//! It shows how the calls go together, and that what a seat gives has to be good.
ghost use Rattle.std.specs.Prelude.{◌≡◌, ◌+◌, Some, MatchBool};
ghost use Rattle.spur_turns.specs.Ledgers.{IsEvenNumber, StaysEven};
ghost use Rattle.spur_turns.specs.declared.shown.Holding.TheVariants.{Nothing};

use crate::pact::Pact;
use crate::seat::BoardSeat;
use crate::taking::All;
use crate::turns::{Own, Turns};
use std::sync::Wait;

/// A total, under a name that never changes.
#[derive(Clone, Copy, Debug, PartialEq, Eq)]
pub struct Ledger {
    pub name: u64,
    pub total: u64,
}

/// The pact of a ledger and of one amount a seat: total and amounts are even.
pub struct EvenLedger;

impl Pact for EvenLedger {
    ghost use Rattle.spur_turns.specs.Ledgers.{IsEvenLedger, StaysEven, even_keeps, even_rests};

    type Bus = Ledger;

    type Place = u64;

    type Name = u64;

    ghost good = { IsEvenLedger };

    ghost own_step = { λ _ before after. StaysEven before after };

    ghost name = { λ ledger. ledger.name };

    ghost rests = { even_rests };

    ghost keeps = { even_keeps };
}

/// A number two above, modulo 2^64.
fn two_more(n: u64) -> u64
    ensures { StaysEven n result }
{
    n.wrapping_add(2)
}

/// Adds two to the seat's own amount, without the bus. `false` where the bus has it.
pub(crate) fn add_alone(turns: &Turns<EvenLedger>, seat: &mut BoardSeat<EvenLedger>) -> bool
    requires table { seat.old.table ≡ turns.now.table }
    requires idle { seat.old.holds ≡ Nothing }
    ensures { MatchBool result (seat.new ≡ seat.old) (seat.new ≡ record seat.old { met = seat.old.met + 1 }) }
{
    match turns.take_own(seat) {
        Own::Got(amount) => {
            turns.give_own(seat, two_more(amount));
            true
        }
        Own::Busy => false,
    }
}

/// Adds two to the total, with the bus and every amount in hand. The answer is the ledger as it was found.
fn add_with_bus<R: Wait>(
    rt: &R,
    turns: &Turns<EvenLedger>,
    seat: &mut BoardSeat<EvenLedger>,
) -> Ledger
    requires table { seat.old.table ≡ turns.now.table }
    requires idle { seat.old.holds ≡ Nothing }
    ensures stays { seat.new ≡ seat.old }
    ensures name { seat.old.name ≡ Some result.name }
    ensures even { IsEvenNumber result.total }
{
    let All { bus, places } = turns.take_all(rt, seat);
    let total = two_more(bus.total);
    let raised = Ledger {
        name: bus.name,
        total,
    };
    turns.give_all(
        seat,
        All {
            bus: raised,
            places,
        },
    );
    bus
}

/// What a seat found in its turns: whether it got its own amount, and the ledger.
#[derive(Clone, Copy, Debug, PartialEq, Eq)]
pub struct Found {
    pub got: bool,
    pub ledger: Ledger,
}

/// Takes the seat's own amount and gives it on, two above; then takes everything and gives it back, with a total two
/// above.
///
/// Says whether the own amount was got: where it was not, the seat has met the bus once more. The ledger is the one that
/// was found, which has the seat's name and an even total.
pub fn take_turns<R: Wait>(
    rt: &R,
    turns: &Turns<EvenLedger>,
    seat: &mut BoardSeat<EvenLedger>,
) -> Found
    requires table { seat.old.table ≡ turns.now.table }
    requires idle { seat.old.holds ≡ Nothing }
    ensures met { MatchBool result.got (seat.new ≡ seat.old) (seat.new ≡ record seat.old { met = seat.old.met + 1 }) }
    ensures name { seat.old.name ≡ Some result.ledger.name }
    ensures even { IsEvenNumber result.ledger.total }
{
    let got = add_alone(turns, seat);
    let ledger = add_with_bus(rt, turns, seat);
    Found { got, ledger }
}
