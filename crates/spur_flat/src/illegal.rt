//! Why an entry is refused.

use thiserror::Error;

/// The rule that a refused entry breaks.
#[derive(Clone, Copy, Debug, PartialEq, Eq)]
pub enum Clause {
    /// The entry is not what its board's program does next: WANTED and FOUND are the program's and the entry's number of
    /// an access (0 none, 1 a load, 2 a store, 3 a test-and-set), or else their addresses, or else their stored values.
    /// A checker of histories tells it; no call of the plain machine does, since it knows no program.
    Program,
    /// The access may not be answered so: WANTED is the number of an answer that it should have had,
    /// and FOUND that of the entry's, 0 for an access that was done.
    Fault,
    /// A load or a test-and-set read another word: WANTED is the word that stands in memory, and FOUND the entry's.
    Answer,
    /// An entry of the pager may not stand: WANTED is the number of the first condition that fails (1 the page is
    /// declared, 5 the frame is free, the others on the page's page-table entry), and FOUND that entry's word, 0 for
    /// condition 1 and the frame for condition 5.
    Pager,
    /// What the boards' cache lines hold forbids the entry: WANTED is the number, from 1 to 18, of the first condition
    /// that fails, and FOUND the state of the block that the condition names, or what the condition says.
    Tags,
    /// An entry of the bus was idle: WANTED is 1 where it is one too many, 2 where its block serves nothing, 3 where it
    /// asks to own what is only read. FOUND is 7 for the first, else the number, counted from 1, of the idle entry.
    Needed,
}

/// Why an entry is refused: the rule that it breaks, and the two numbers that differ.
#[derive(Clone, Copy, Debug, PartialEq, Eq, Error)]
#[error("an entry breaks the rule {clause:?}: wanted {wanted}, found {found}")]
pub struct Illegal {
    /// The rule.
    pub clause: Clause,
    /// What the rule asks for.
    pub wanted: u64,
    /// What the entry has.
    pub found: u64,
}
