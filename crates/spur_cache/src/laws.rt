//! Laws of the lines of a cache, each shown by a function that does nothing.

ghost use Rattle.spur_cache.specs.Laws.{FoundHasTheBlock, FoundWhereItStands, PageLinesAscend, PageLinesHoldIt};

/// A block is found exactly where one of the lines, at whichever place, holds it.
pub fn find_is_complete()
    ensures stands { FoundWhereItStands }
    ensures block { FoundHasTheBlock }
{}

/// The places told for a page are those at which a line of the page stands, in ascending order.
pub fn page_lines_are_those_of_the_page()
    ensures hold { PageLinesHoldIt }
    ensures ascend { PageLinesAscend }
{}
