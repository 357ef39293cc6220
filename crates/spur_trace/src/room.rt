//! How much room the text of a trace is written into.

ghost use Rattle.std.specs.Prelude.{◌≡◌, ◌≤◌, ◌^◌, IfNone, IfSome};
ghost use Rattle.spur_trace.specs.Room.{line_room, trace_room};

use spur_flat::Entry;

/// No line of a header has more bytes.
const HEADER_ROOM: usize = 22;

/// At least the length of an entry's line, and at most twice that, where there are 12 boards at most.
fn line_room(entry: &Entry) -> usize
    ensures value { result ≡ line_room entry.now }
    ensures small { result ≤ 37 }
{
    match entry {
        Entry::Fault { .. } => 37,
        Entry::Load { .. } | Entry::Store { .. } | Entry::Tas { .. } | Entry::Fill { .. } => 30,
        _ => 24,
    }
}

/// How many bytes the text of a trace of these entries has room in: at least its length, and at most twice that. `None`
/// where a number of 64 bits is too small for it, and so is any memory.
pub fn trace_room(entries: &[Entry]) -> Option<usize>
    ensures room { IfSome result (λ room. room ≡ trace_room entries.now) }
    ensures too_large { IfNone result (2 ^ 64 ≤ trace_room entries.now) }
{
    let mut room = HEADER_ROOM;
    for entry in entries {
        room = room.checked_add(line_room(entry))?;
    }
    Some(room)
}
