//! Where pages are that are not in memory.
//!
//! A `Backing` keeps one page of 1024 words in each of its slots. A pager writes a page that was changed there before
//! it gives the page's frame to another, and reads it from there when the page is wanted again. A
//! call may fail, and each failure is counted, so that whoever handed the object in can tell a fault
//! of theirs from one of the program's own.
#![tactic(auto)]

mod backing;
mod failing;
mod memory;
mod pages;

pub use backing::{Backing, PrepareFault};
pub use failing::SwapTest;
pub use memory::SwapMemory;

#[cfg(test)]
mod tests;
