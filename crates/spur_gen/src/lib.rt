//! The generator: from three numbers to the text of a program that shares pages between boards, of any size.
#![tactic(auto)]

mod fault;
mod lines;
#[cfg(test)]
mod tests;

pub use fault::GenFault;
pub use lines::generate;
