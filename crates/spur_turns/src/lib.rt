//! Places and a bus, which seats take in turn.
//!
//! Each seat has a place of its own, which it takes by one compare and exchange, without the bus. One seat at a time
//! takes the bus and every place. The lock is generic in a `Pact`: what bus and places are, which of them fit together,
//! and what a seat may do to its own place alone. What fits together when the values are put in does so whenever a
//! seat has everything, and at the end.
#![tactic(auto)]

mod closing;
mod giving;
mod kinds;
mod ledger;
mod opening;
mod own;
mod pact;
mod seat;
mod shown;
mod table;
mod taking;
mod turns;
mod waiting;

pub use ledger::{EvenLedger, Found, Ledger, take_turns};
pub use pact::Pact;
pub use seat::BoardSeat;
pub use taking::All;
pub use turns::{NewRefused, Own, Turns};

#[cfg(test)]
mod tests;
