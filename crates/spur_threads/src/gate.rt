//! A gate: what is called around a board's turns, for tests and tools.

use spur_cache::Cache;

/// What is called around each turn of a board. Nothing is asked of it, and nothing rests on it: it may wait, and it may
/// count.
///
/// `board` is the board's number, from 0, and `retired` is how many instructions it had completed after its last turn,
/// or with which the run began.
pub trait Gate {
    /// Called before the turn, while the board holds neither its place nor the bus.
    fn outside(&self, board: u32, retired: u32);

    /// Called at the turn's begin, while the board holds its own place alone, with its own cache. Of a turn after the
    /// threads the whole world is the board's.
    fn inside(&self, board: u32, retired: u32, cache: &Cache);
}

/// A gate that does nothing.
pub struct NoGate;

impl Gate for NoGate {
    fn outside(&self, _board: u32, _retired: u32) {}

    fn inside(&self, _board: u32, _retired: u32, _cache: &Cache) {}
}
