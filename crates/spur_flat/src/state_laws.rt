//! Laws of the state that stands after a history, each shown by a function that does nothing.

ghost use Rattle.spur_flat.specs.StateLaws.{FollowsInPieces, FollowWhereEach, LeadToEach, LegalButValuesInPieces, NeededInPieces, OneIsCarried, PiecesJoin, QuietMayFollow, StateInPieces, TaggedInPieces, UntoldFromOneJoin, UntoldPiecesJoin, RefusedUnlessFollows};
ghost use Rattle.spur_flat.specs.Worked.{ManyLinesAreNeeded, OneLineIsNeeded, OtherRootIsRefused, OtherRootIsUseless, OwnedRootIsGreedy, OwnedRootIsRefused, SeventhIsRefused, SeventhIsTooMany, SixthIsNot, ClaimedEntryIsGreedy, ClaimedEntryIsRefused, OtherLineIsRefused, OtherLineIsUseless};

/// All entries of a history may follow exactly where it is legal, tagged and needed, and the state after it has the flat
/// state, the tags and the open entries after it.
pub fn state_is_each()
    ensures follow { FollowWhereEach }
    ensures lead { LeadToEach }
{}

/// Nothing of a history is refused exactly where all of it may follow, whatever the numbers of its entries.
pub fn refused_unless_follows()
    ensures { RefusedUnlessFollows }
{}

/// A history in two pieces: all of it may follow where the first piece may, and the second from where the first leads.
/// The same is said of a tagged history, of a needed one, and of one that is legal but for the values that it read.
pub fn state_in_pieces()
    ensures follows { FollowsInPieces }
    ensures state { StateInPieces }
    ensures tagged { TaggedInPieces }
    ensures needed { NeededInPieces }
    ensures legal_but_values { LegalButValuesInPieces }
{}

/// Where one piece is carried to the state from which the next is, both together are carried, with the swap told or
/// not; and where it is not told, from one flat state too.
pub fn pieces_join()
    ensures told { PiecesJoin }
    ensures untold { UntoldPiecesJoin }
    ensures untold_from_one { UntoldFromOneJoin }
{}

/// A piece of one entry is carried to the state after it exactly where the entry may follow.
pub fn one_is_carried()
    ensures { OneIsCarried }
{}

/// Accesses of boards that have nothing open may follow where they are legal and the tags allow each of them, and they
/// change the flat state alone.
pub fn quiet_may_follow()
    ensures { QuietMayFollow }
{}

/// Two histories of one board, each of which brings a page in, loads a word of it and stores it: one with 4096 lines,
/// where each block has its own, and one with 16, where the three blocks share one. All their entries are needed.
pub fn worked_histories_are_needed()
    ensures many_lines { ManyLinesAreNeeded }
    ensures one_line { OneLineIsNeeded }
{}

/// What is not needed: a block that serves nothing, a write-back on a line that serves nothing, a block that is owned and
/// only read, whether filled so or claimed, and a seventh open entry. Each is refused by its condition, with its numbers.
pub fn idle_entries_are_refused()
    ensures useless { OtherRootIsUseless }
    ensures useless_refused { OtherRootIsRefused }
    ensures greedy { OwnedRootIsGreedy }
    ensures greedy_refused { OwnedRootIsRefused }
    ensures useless_line { OtherLineIsUseless }
    ensures useless_line_refused { OtherLineIsRefused }
    ensures greedy_claim { ClaimedEntryIsGreedy }
    ensures greedy_claim_refused { ClaimedEntryIsRefused }
    ensures sixth { SixthIsNot }
    ensures seventh { SeventhIsTooMany }
    ensures seventh_refused { SeventhIsRefused }
{}
