//! What the texts of this project share: numbers in digits, the words for faults and accesses, and bytes that are put
//! at the end of a text.
//!
//! The forms are this project's own. Digits above 9 are in lower case, and decimal numbers have no leading zeros.
#![tactic(auto)]

mod digits;
#[cfg(test)]
mod tests;
mod text;
mod words;

pub use digits::{address_digits, word_digits};
pub use text::{Text, put};
pub use words::{access_word, fault_word};
