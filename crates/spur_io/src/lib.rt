//! Where a program's input comes from, and where its output goes.
//!
//! A `Source` gives bytes and a `Sink` takes them, a piece at a call. A call may fail, and each
//! failure is counted, so that whoever handed the object in can tell a fault of theirs from one of
//! the program's own. `read_all` and `put_all` move a whole input and a whole text.
#![tactic(auto)]

mod adapters;
mod memory;
mod script;
mod stream;
mod sure;
mod whole;

pub use adapters::{SinkStd, SourceStd};
pub use memory::{SinkMemory, SourceMemory};
pub use script::Script;
pub use stream::{Failed, Sink, Source};
pub use sure::{SinkSure, SourceSure};
pub use whole::{PutAll, ReadAll, put_all, read_all};

#[cfg(test)]
mod tests;
