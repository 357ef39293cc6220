//! How many parts a unit has.

/// How many boards, pages and words a unit has, as the head of its object says.
#[derive(Clone, Copy, Debug, PartialEq, Eq)]
pub struct Counts {
    pub boards: u32,
    pub pages: u32,
    pub words: u32,
}
