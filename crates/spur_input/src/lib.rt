//! What is read: a program as a text or as an object, or a program's text with a trace behind it; why an input is
//! refused, and the line that says so.
//!
//! The forms and the limits are this project's own.
#![tactic(auto)]

mod answers;
mod cut;
mod laws;
mod reading;
mod refusal;
#[cfg(test)]
mod tests;
mod writing;

pub use answers::{judge, object_of, program_opening};
pub use laws::{
    accepted_is_not_refused, cut_at_trace, one_is_accepted, one_refusal, texts_are_answered,
};
pub use refusal::{NotAccepted, Refusal};
pub use writing::refusal_line;
