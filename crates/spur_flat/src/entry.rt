//! The entries of a history.

use crate::access::{AccessKind, FaultKind};
use spur_addr::GlobalAddr;
use spur_snoop::Need;

/// What a block of memory is of. This project's own choice: the page table and its root stand in segment 255.
#[derive(Clone, Copy, Debug, PartialEq, Eq)]
pub enum Layer {
    /// A block of the root table: of the entries of the page table's own pages.
    RootBlock,
    /// A block of the page table: of eight page-table entries.
    PteBlock,
    /// A block of a page of the user's, below segment 255.
    UserBlock,
}

/// One event of a history. The entries are this project's own.
///
/// `board` is the number, from 0, of the board that makes the entry. `at` is a global byte address: of an access that
/// of its word (of any byte where it is not aligned), of a block that of the block's first byte, of a page that of the page's first byte.
#[derive(Clone, Copy, Debug, PartialEq, Eq)]
pub enum Entry {
    /// A load that read `value`.
    Load {
        board: u32,
        at: GlobalAddr,
        value: u32,
    },
    /// A store that wrote `value`.
    Store {
        board: u32,
        at: GlobalAddr,
        value: u32,
    },
    /// A test-and-set that read `old` and made the word 1: one entry reads and writes, so that no
    /// other stands between the two.
    Tas {
        board: u32,
        at: GlobalAddr,
        old: u32,
    },
    /// An access of the kind `access` that was answered by the fault `kind`.
    Fault {
        board: u32,
        kind: FaultKind,
        access: AccessKind,
        at: GlobalAddr,
    },
    /// A block was brought into the board's cache, for reading or for writing.
    Fill {
        board: u32,
        layer: Layer,
        need: Need,
        at: GlobalAddr,
    },
    /// The board became the only holder and the owner of a block that its cache had.
    Claim {
        board: u32,
        at: GlobalAddr,
    },
    /// The board wrote a block that it owned to memory, and owns it no more.
    WriteBack {
        board: u32,
        at: GlobalAddr,
    },
    /// The dirty copy of a block's line was set, since the page's entry has its dirty bit set.
    Refresh {
        board: u32,
        at: GlobalAddr,
    },
    /// A block left the cache of board `holder`, and went to memory first where it was owned.
    BlockFlush {
        board: u32,
        holder: u32,
        at: GlobalAddr,
    },
    /// A page was marked as leaving its frame.
    Leave {
        board: u32,
        at: GlobalAddr,
    },
    /// A page left its frame for its swap slot.
    PageOut {
        board: u32,
        at: GlobalAddr,
    },
    /// A page came from its swap slot into the frame with the number `frame`.
    PageIn {
        board: u32,
        at: GlobalAddr,
        frame: u32,
    },
    /// A page's referenced bit was set.
    SetRef {
        board: u32,
        at: GlobalAddr,
    },
    /// A page's dirty bit was set.
    SetDirty {
        board: u32,
        at: GlobalAddr,
    },
    /// A page's referenced bit was cleared.
    ClearRef {
        board: u32,
        at: GlobalAddr,
    },
}
