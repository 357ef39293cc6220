//! What came of a run.

use spur_board::Ending;
use spur_flat::Entry;
use spur_list::Items;
use spur_probe::ProbeLine;
use spur_trace::TraceHead;

/// What a report says of one board.
#[derive(Debug, Drop)]
pub struct BoardReport {
    /// The board's ending. It has none only where a probe stopped the run before its end.
    pub ending: Option<Ending>,
    /// How many instructions it completed, `halt` among them. A faulting one does not count.
    pub retired: u32,
    /// Its registers 0 to 15 at its end.
    pub registers: [u32; 16],
    /// The values that it showed, in the order of time.
    pub shown: Items<u32>,
}

/// What came of a run.
#[derive(Debug, Drop)]
pub struct Report {
    /// A report for each board, in the order of the board numbers.
    pub boards: Items<BoardReport>,
    /// The entries of all boards, in the order of time.
    pub history: Items<Entry>,
    /// The words of memory at the end, when every cache was written back: frames 0 to 63 hold the root table, then come
    /// the pages of the page table, and then the data frames. What the swap holds at the end stays in the swap object.
    pub last: Items<u32>,
    /// Where a probe stopped the run: the number of the entry at which it wished that, counted from 1, and the place of the
    /// probe in the list of those that were handed in, from 0. A place above 2^32 - 1 is told as 2^32 - 1.
    pub stopped: Option<(u64, u32)>,
    /// What each probe tells, in the order of that list.
    pub lines: Items<ProbeLine>,
    /// What a trace of the history says of itself in its first line.
    pub head: TraceHead,
}

/// What the text of a report has besides the rows of the boards.
#[derive(Clone, Copy, Debug, PartialEq, Eq)]
pub struct Flags {
    /// How many entries of each kind the history has.
    pub counts: bool,
    /// The trace of the history.
    pub trace: bool,
}
