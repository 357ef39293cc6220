//! Laws of the opening and of its faults, each shown by a function that does nothing.

ghost use Rattle.spur_loader.specs.FaultLaws.{AgainIsFirst, NoneAgain, NoneNamesTableSegment, NoneOutside, OutsideIsFirst, TableSegmentIsNamed};
ghost use Rattle.spur_loader.specs.Laws.{AcceptedMayBegin, NothingIsResident, OpeningIsValid, OpeningReads};

/// What stands where in an opening.
pub fn opening_reads()
    ensures { OpeningReads }
{}

/// The flat state of an opening for which no fault applies is valid.
pub fn opening_is_valid()
    ensures { OpeningIsValid }
{}

/// No page of an opening has a valid entry.
pub fn nothing_is_resident()
    ensures { NothingIsResident }
{}

/// A run may begin with an opening for which no fault applies: moreover no segment register names segment 255, and the
/// options and the number of boards are in their ranges.
pub fn accepted_may_begin()
    ensures { AcceptedMayBegin }
{}

/// The fault of segment 255 applies exactly where a segment register, a page or a word names it (`named`), and does not
/// exactly where all of them are below it (`none`).
pub fn table_segment_is_named()
    ensures named { TableSegmentIsNamed }
    ensures none { NoneNamesTableSegment }
{}

/// The page that is declared again has its number from a page before it, and the pages before it differ (`first`). None
/// is declared again exactly where all differ (`none`).
pub fn first_page_again()
    ensures first { AgainIsFirst }
    ensures none { NoneAgain }
{}

/// No declared page has the word that is outside, and the pages of the words before it are declared (`first`). No word
/// is outside exactly where the page of each is declared (`none`).
pub fn first_word_outside()
    ensures first { OutsideIsFirst }
    ensures none { NoneOutside }
{}
