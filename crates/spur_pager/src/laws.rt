//! Laws of the pager, each shown by a function that does nothing.

ghost use Rattle.spur_pager.specs.Laws.{PageLinesAreFew, RoomIsBounded};

/// Serving one fault never needs more room in the history than the numbers of frames and of caches say (`room`), since a
/// cache has at most 128 lines of a page (`lines`), and the clock clears at most one bit for each frame.
///
/// After a Leaving fault was served a frame is free, so that a Missing one needs the room for one change of an entry
/// alone. So the faults of one access, each kind at most once, need little more together than one does.
pub fn room_is_bounded()
    ensures room { RoomIsBounded }
    ensures lines { PageLinesAreFew }
{}
