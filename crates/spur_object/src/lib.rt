//! A program as one unit: the code of each board, the declared pages and the words that they hold at first; and the
//! object, a unit as bytes.
//!
//! A unit is what an assembly text says. Its form and that of its object are this project's own, and no statement about
//! SPUR.
#![tactic(auto)]

mod counts;
mod cursor;
mod fault;
mod laws;
mod parts;
mod read;
mod stop;
#[cfg(test)]
mod tests;
mod unit;
mod write;

pub use fault::{ObjFault, ObjKind};
pub use laws::{
    no_object_of_two, objects_are_small, objects_have_no_fault, one_fault, places_are_judged,
};
pub use read::read_object;
pub use unit::{BoardText, PageText, Unit, WordText};
pub use write::write_object;
