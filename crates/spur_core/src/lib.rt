//! The core: the world of the boards and of what they share, and its calls.
//!
//! A world is good between two calls. Its history, followed by the boards' logs, tells all that was done, in an order
//! that the flat memory, the ownership rules and each board's program allow.
#![tactic(auto)]

mod approach;
mod begin;
mod begin_laws;
mod fill;
mod finish;
mod laws;
mod make;
mod merge;
mod own;
mod own_laws;
mod part;
mod reach;
mod take;
mod turn;
mod world;

pub use begin::{BeginFault, BeginRefused};
pub use begin_laws::loaded_may_begin;
pub use laws::good_has_its_parts;
pub use own_laws::{own_events_are_steps, own_steps_keep_good};
pub use part::Bus;
pub use world::{Beginning, World};
