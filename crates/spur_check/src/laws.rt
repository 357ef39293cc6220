//! What a verdict means, each law shown by a function that does nothing.

ghost use Rattle.spur_check.specs.Laws.{BadMeans, BadWhereItTurns, GoodHasLength, GoodMeans, GoodWhereItFits, InPieces};
ghost use Rattle.spur_check.specs.Laws.{LoadedMayBeJudged, NumbersAreTheirs, TracedIsGood};

use spur_cpu::Cpu;

/// A history is judged good exactly where it is legal, tagged and needed and for each board there is a number of
/// completed instructions to which the board's own entries lead its program. `Good` has the history's length.
pub fn good_means()
    ensures { GoodMeans }
{}

/// A history is bad at an entry exactly where the entries before it are judged good and those up to it are not. So what
/// follows never changes a verdict.
pub fn bad_means()
    ensures { BadMeans }
{}

/// A history that is legal, tagged and needed, has well-formed entries, and in which each board has followed its
/// program from its beginning within the budget, is judged good: so what a run traces is.
pub fn traced_is_good()
    ensures { TracedIsGood }
{}

/// A history of a loaded program may be judged.
pub fn loaded_may_be_judged()
    ensures { LoadedMayBeJudged }
{}

/// The numbers that are kept beside a board's open entries are those of these entries in the history, one by one.
pub fn numbers_are_theirs()
    ensures { NumbersAreTheirs }
{}

/// Two pieces of a history are judged one after the other, over boards with any kind of processor. What `Good` and
/// `Bad` mean is said of such boards, too, from wherever the judging has come.
pub fn judged_in_pieces<C: Cpu>()
    ensures pieces { InPieces C.meaning }
    ensures good { GoodWhereItFits C.meaning }
    ensures length { GoodHasLength C.meaning }
    ensures bad { BadWhereItTurns C.meaning }
{}
