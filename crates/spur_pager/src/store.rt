//! What the boards share.

use spur_flat::History;
use spur_frames::FrameTable;
use spur_phys::Phys;

/// What the boards share but for their caches: the memory, which page stands in which frame, the swap, and the history
/// of all that was done.
#[derive(Debug, Drop)]
pub struct Store<B> {
    /// The memory.
    pub phys: Phys,
    /// The data frames, and the page that each of them holds.
    pub frames: FrameTable,
    /// Where pages are that stand in no frame: the page of a slot in each.
    pub backing: B,
    /// The history.
    pub history: History,
    /// How many lines of a leaving page a step ahead of need flushes, at most. Where it is 0, nothing is done ahead.
    pub ahead: u32,
}
