//! The reading of one line, from the front of what is left of a text.

ghost use Rattle.std.specs.Prelude.{◌≡◌, ◌<◌};
ghost use Rattle.spur_trace.specs.Reading.{Reads, access_at, entry_at, fault_at, fields_at, fill_at, flush_at, header_at, in_at, place_at};

use crate::cursor::Cursor;
use crate::head::{HEADER_WORD, RANGES, TraceHead};
use crate::words::{self, Verb};
use spur_addr::GlobalAddr;
use spur_flat::Entry;

/// How many bytes a word has.
const WORD_BYTES: u64 = 4;

/// How many bytes a block has.
const BLOCK_BYTES: u64 = 32;

/// How many bytes a page has.
const PAGE_BYTES: u64 = 4096;

/// How many frames memory may have.
const MAX_FRAMES: u32 = 4096;

/// The fields `B G V` of an access.
#[tactic(auto, unfolding(crate::specs::Reading::access_at))]
fn access(rest: &mut Cursor<'_>, boards: u32) -> Option<(u32, GlobalAddr, u32)>
    ensures { Reads (access_at boards rest.old) result rest.new }
{
    let board = rest.below(boards, b' ')?;
    let at = rest.address(WORD_BYTES, b' ')?;
    let value = rest.value()?;
    Some((board, at, value))
}

/// The fields `B KIND ACCESS G` of a fault.
#[tactic(auto, unfolding(crate::specs::Reading::fault_at))]
fn fault(rest: &mut Cursor<'_>, boards: u32) -> Option<Entry>
    ensures { Reads (fault_at boards rest.old) result rest.new }
{
    let board = rest.below(boards, b' ')?;
    let kind = words::take_fault_kind(rest)?;
    let access = words::take_access_kind(rest)?;
    let at = rest.address(1, b'\n')?;
    Some(Entry::Fault {
        board,
        kind,
        access,
        at,
    })
}

/// The fields `B LAYER NEED G` of a fill.
#[tactic(auto, unfolding(crate::specs::Reading::fill_at))]
fn fill(rest: &mut Cursor<'_>, boards: u32) -> Option<Entry>
    ensures { Reads (fill_at boards rest.old) result rest.new }
{
    let board = rest.below(boards, b' ')?;
    let layer = words::take_layer(rest)?;
    let need = words::take_need(rest)?;
    let at = rest.address(BLOCK_BYTES, b'\n')?;
    Some(Entry::Fill {
        board,
        layer,
        need,
        at,
    })
}

/// The fields `B H G` of a flush.
#[tactic(auto, unfolding(crate::specs::Reading::flush_at))]
fn flush(rest: &mut Cursor<'_>, boards: u32) -> Option<Entry>
    ensures { Reads (flush_at boards rest.old) result rest.new }
{
    let board = rest.below(boards, b' ')?;
    let holder = rest.below(boards, b' ')?;
    let at = rest.address(BLOCK_BYTES, b'\n')?;
    Some(Entry::BlockFlush { board, holder, at })
}

/// The fields `B G F` of a page that comes in.
#[tactic(auto, unfolding(crate::specs::Reading::in_at))]
fn page_in(rest: &mut Cursor<'_>, boards: u32) -> Option<Entry>
    ensures { Reads (in_at boards rest.old) result rest.new }
{
    let board = rest.below(boards, b' ')?;
    let at = rest.address(PAGE_BYTES, b' ')?;
    let frame = rest.below(MAX_FRAMES, b'\n')?;
    Some(Entry::PageIn { board, at, frame })
}

/// The fields `B G` of an entry of a block or of a page.
#[tactic(auto, unfolding(crate::specs::Reading::place_at))]
fn place(rest: &mut Cursor<'_>, boards: u32, multiple: u64) -> Option<(u32, GlobalAddr)>
    requires { 0 < multiple }
    ensures { Reads (place_at boards multiple rest.old) result rest.new }
{
    let board = rest.below(boards, b' ')?;
    let at = rest.address(multiple, b'\n')?;
    Some((board, at))
}

/// An entry, behind the first word of its line.
fn fields(rest: &mut Cursor<'_>, boards: u32, verb: Verb) -> Option<Entry>
    ensures { Reads (fields_at boards verb rest.old) result rest.new }
{
    match verb {
        Verb::Load => {
            let (board, at, value) = access(rest, boards)?;
            Some(Entry::Load { board, at, value })
        }
        Verb::Store => {
            let (board, at, value) = access(rest, boards)?;
            Some(Entry::Store { board, at, value })
        }
        Verb::Tas => {
            let (board, at, old) = access(rest, boards)?;
            Some(Entry::Tas { board, at, old })
        }
        Verb::Fault => fault(rest, boards),
        Verb::Fill => fill(rest, boards),
        Verb::Claim => {
            let (board, at) = place(rest, boards, BLOCK_BYTES)?;
            Some(Entry::Claim { board, at })
        }
        Verb::WriteBack => {
            let (board, at) = place(rest, boards, BLOCK_BYTES)?;
            Some(Entry::WriteBack { board, at })
        }
        Verb::Refresh => {
            let (board, at) = place(rest, boards, BLOCK_BYTES)?;
            Some(Entry::Refresh { board, at })
        }
        Verb::Flush => flush(rest, boards),
        Verb::Leave => {
            let (board, at) = place(rest, boards, PAGE_BYTES)?;
            Some(Entry::Leave { board, at })
        }
        Verb::Out => {
            let (board, at) = place(rest, boards, PAGE_BYTES)?;
            Some(Entry::PageOut { board, at })
        }
        Verb::In => page_in(rest, boards),
        Verb::SetRef => {
            let (board, at) = place(rest, boards, PAGE_BYTES)?;
            Some(Entry::SetRef { board, at })
        }
        Verb::SetDirty => {
            let (board, at) = place(rest, boards, PAGE_BYTES)?;
            Some(Entry::SetDirty { board, at })
        }
        Verb::ClearRef => {
            let (board, at) = place(rest, boards, PAGE_BYTES)?;
            Some(Entry::ClearRef { board, at })
        }
    }
}

/// The entry whose line stands in front.
#[tactic(auto, unfolding(crate::specs::Reading::entry_at))]
pub fn entry(rest: &mut Cursor<'_>, boards: u32) -> Option<Entry>
    ensures { Reads (entry_at boards rest.old) result rest.new }
{
    let verb = words::take_verb(rest)?;
    fields(rest, boards, verb)
}

/// The header whose line stands in front.
#[tactic(auto, unfolding(crate::specs::Reading::header_at))]
pub fn header(rest: &mut Cursor<'_>) -> Option<TraceHead>
    ensures { Reads (header_at rest.old) result rest.new }
{
    if !rest.eat(HEADER_WORD) {
        return None;
    }
    let [version, boards, frames, lines] = RANGES;
    rest.within(version, b' ')?;
    let boards = rest.within(boards, b' ')?;
    let frames = rest.within(frames, b' ')?;
    let lines = rest.within(lines, b'\n')?;
    if !lines.is_power_of_two() {
        return None;
    }
    Some(TraceHead {
        boards,
        frames,
        lines,
    })
}
