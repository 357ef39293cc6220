//! The loader: from a program's unit and the options of a run to the memory, the registers and the code with which the
//! run begins, or the first of the faults for which there is none.
#![tactic(auto)]

mod fault;
mod laws;
mod loading;
mod opening;
mod segment;
mod tables;
#[cfg(test)]
mod tests;

pub use fault::LoadFault;
pub use laws::{
    accepted_may_begin, first_page_again, first_word_outside, nothing_is_resident,
    opening_is_valid, opening_reads, table_segment_is_named,
};
pub use loading::load;
pub use opening::{Opening, Options};
