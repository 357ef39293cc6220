//! How an own turn ends.

/// Why a board needs the bus for its next instruction.
#[derive(Clone, Copy, Debug, PartialEq, Eq)]
pub enum BusReason {
    /// It is an access that its own cache neither can do nor denies.
    Access,
    /// It is an access, and the log is full.
    FullLog,
}

/// How an own turn ends.
#[derive(Clone, Copy, Debug, PartialEq, Eq)]
pub enum Turn {
    /// As many instructions were completed as the turn was given, and the board has not ended.
    Again,
    /// The board needs the bus.
    NeedsBus(BusReason),
    /// The board has ended.
    Ended,
}
