//! The entries of a history in short, as the tables of the tests have them.

use spur_flat::{AccessKind, Entry, FaultKind, Layer};
use spur_snoop::Need;

/// The block of the root table with the root entries of the first pages of segment 0.
pub(crate) const ROOT: u64 = 0x3f_cff0_0000;

/// The block of the page table with the entries of the pages 0 to 7 of segment 0. It has the line of the root's block.
pub(crate) const TABLE: u64 = 0x3f_c000_0000;

/// An entry without its board: its kind, its global byte address, and its number where it has one.
#[derive(Clone, Copy, Debug, PartialEq, Eq)]
pub(crate) enum Line {
    Load(u64, u32),
    Store(u64, u32),
    Tas(u64, u32),
    Fault(FaultKind, AccessKind, u64),
    /// A block of the root, of the page table, or of the user's is filled to be read.
    FillRoot(u64),
    FillTable(u64),
    Read(u64),
    /// A block of the page table, or of the user's, is filled to be written.
    OwnTable(u64),
    Write(u64),
    Claim(u64),
    WriteBack(u64),
    Refresh(u64),
    /// The holder's number stands behind the address.
    Flush(u64, u32),
    Leave(u64),
    Out(u64),
    /// The frame's number stands behind the address.
    In(u64, u32),
    SetRef(u64),
    SetDirty(u64),
    ClearRef(u64),
}

/// The root's block is filled.
pub(crate) const FILL_ROOT: Line = Line::FillRoot(ROOT);

/// The page table's block is filled to be read.
pub(crate) const FILL_TABLE: Line = Line::FillTable(TABLE);

/// The page table's block is claimed.
pub(crate) const CLAIM_TABLE: Line = Line::Claim(TABLE);

/// What a fill is in short. No block of the root is filled to be written.
fn fill_of(layer: Layer, need: Need, at: u64) -> Option<Line> {
    match (layer, need) {
        (Layer::RootBlock, Need::Read) => Some(Line::FillRoot(at)),
        (Layer::RootBlock, Need::Write) => None,
        (Layer::PteBlock, Need::Read) => Some(Line::FillTable(at)),
        (Layer::PteBlock, Need::Write) => Some(Line::OwnTable(at)),
        (Layer::UserBlock, Need::Read) => Some(Line::Read(at)),
        (Layer::UserBlock, Need::Write) => Some(Line::Write(at)),
    }
}

/// An entry in short, if it is one of the board `by`.
pub(crate) fn line_of(entry: &Entry, by: u32) -> Option<Line> {
    let (board, line) = match entry {
        Entry::Load { board, at, value } => (*board, Line::Load(at.number(), *value)),
        Entry::Store { board, at, value } => (*board, Line::Store(at.number(), *value)),
        Entry::Tas { board, at, old } => (*board, Line::Tas(at.number(), *old)),
        Entry::Fault {
            board,
            kind,
            access,
            at,
        } => (*board, Line::Fault(*kind, *access, at.number())),
        Entry::Fill {
            board,
            layer,
            need,
            at,
        } => (*board, fill_of(*layer, *need, at.number())?),
        Entry::Claim { board, at } => (*board, Line::Claim(at.number())),
        Entry::WriteBack { board, at } => (*board, Line::WriteBack(at.number())),
        Entry::Refresh { board, at } => (*board, Line::Refresh(at.number())),
        Entry::BlockFlush { board, holder, at } => (*board, Line::Flush(at.number(), *holder)),
        Entry::Leave { board, at } => (*board, Line::Leave(at.number())),
        Entry::PageOut { board, at } => (*board, Line::Out(at.number())),
        Entry::PageIn { board, at, frame } => (*board, Line::In(at.number(), *frame)),
        Entry::SetRef { board, at } => (*board, Line::SetRef(at.number())),
        Entry::SetDirty { board, at } => (*board, Line::SetDirty(at.number())),
        Entry::ClearRef { board, at } => (*board, Line::ClearRef(at.number())),
    };
    if board == by { Some(line) } else { None }
}
