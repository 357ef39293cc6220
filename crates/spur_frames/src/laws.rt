//! Laws of the frame table and of its clock, each shown by a function that does nothing.

ghost use Rattle.spur_frames.specs.Laws.{ClearLeaves, ClearedAreFew, FirstClearLeaves, FirstLeavesWhereAllAreSet, HandDoesTheList, NewIsFree, NoneBelowIsFree, NoneIsFree, NoneIsTaken, ReleasingIsOfOne, SetBitsAreFew, SetBitsFall, SetIsClearedAndPassed, TakingIsOfOne, TurnBegins, TurnEnds, TurnGoesOn};

/// No frame below the one that `free_one` gives is free, and it gives none exactly where all are
/// taken.
pub fn free_one_is_the_least()
    ensures least { NoneBelowIsFree }
    ensures none { NoneIsFree }
{}

/// `look_next` gives none exactly where all frames are free.
pub fn look_next_finds_any()
    ensures { NoneIsTaken }
{}

/// A new table has as many frames as were asked for, and all of them are free.
pub fn a_new_table_is_free()
    ensures { NewIsFree }
{}

/// A frame that is taken or released changes alone: every other holds what it held, and one that was
/// leaving still leaves after another was released. The number of frames stays.
pub fn a_frame_changes_alone()
    ensures taken { TakingIsOfOne }
    ensures released { ReleasingIsOfOne }
{}

/// The clock is one list: the taken frames in ascending order from the hand, going round, with the R
/// bits of their pages. Where the first clear bit stands at a position of the list, the bits of the
/// positions before it are cleared and the page there leaves (`clear`). Where none is clear, all are
/// cleared and the page at the first position leaves (`set`). The hand is then on the frame after the
/// one that leaves, going round.
///
/// A hand that moves does what the list says, for any function from pages to bits and where no page
/// stands in two frames. The hand looks at the frame of `look_next`. Where the bit of its page is set
/// the bit is cleared, the hand passes, and it looks again; else the page leaves, and the hand passes.
/// Where all bits are set, the second round finds the first position clear.
///
/// `moving` says it of the whole way of the hand, which looks at one frame more than there are, at
/// most. The others say it step by step, for a loop: `cleared` of a set bit, `left` of a clear one,
/// `falls` and `few` of the number of set bits, which falls with each step, and `short` of the number
/// of pages that are cleared. This clock is this project's own choice.
pub fn clock_is_a_list()
    ensures clear { FirstClearLeaves }
    ensures set { FirstLeavesWhereAllAreSet }
    ensures moving { HandDoesTheList }
    ensures cleared { SetIsClearedAndPassed }
    ensures left { ClearLeaves }
    ensures falls { SetBitsFall }
    ensures few { SetBitsAreFew }
    ensures short { ClearedAreFew }
{}

/// A turn of the clock as a loop has it: what was cleared so far, and the turn of what is there now,
/// are the turn as a whole. It begins with nothing cleared, goes on with each set bit that is cleared
/// and passed, and ends with the first clear one, when only the hand of the table has moved.
pub fn clock_is_a_loop()
    ensures begins { TurnBegins }
    ensures more { TurnGoesOn }
    ensures ends { TurnEnds }
{}
