//! Why a board has ended.

use spur_addr::GlobalAddr;
use spur_flat::FaultKind;

/// Why a board has ended.
#[derive(Clone, Copy, Debug, PartialEq, Eq)]
pub enum Ending {
    /// Its program has halted.
    Halted,
    /// An access had this fault at the address: Align, Unmapped or Protection.
    Faulted { kind: FaultKind, at: GlobalAddr },
    /// It has completed as many instructions as its budget allows.
    Spent,
    /// The swap failed where a page that its access needs was to be brought in.
    SwapFault,
}
