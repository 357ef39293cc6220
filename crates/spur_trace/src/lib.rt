//! The text of a trace, both ways: a line for its header, and a line for each entry of a history.
//!
//! The form is this project's own. A text that is written is read again as it was, each line stands for one entry, and
//! a text that is no trace is refused by its first line that is none.
#![tactic(auto)]

mod cursor;
mod fault;
mod head;
mod laws;
mod line;
mod read;
mod room;
#[cfg(test)]
mod tests;
mod words;
mod write;

pub use fault::{TraceFault, TraceKind};
pub use head::TraceHead;
pub use laws::{
    each_is_one_line, no_entry_in_front, no_line_of_two, no_text_of_two, one_fault, one_header,
    room_is_enough, trace_has_header, traces_have_no_fault,
};
pub use read::{read_head, read_trace};
pub use room::trace_room;
pub use write::{put_trace, write_trace};
