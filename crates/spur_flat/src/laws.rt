//! Laws of the plain machine, each shown by a function that does nothing.

ghost use Rattle.spur_flat.specs.Clean.{LegalStaysClean, NoneValidIsClean, StaysClean};
ghost use Rattle.spur_flat.specs.Laws.{AfterInPieces, DoneMayBeRead, LegalInPieces, LegalStaysValid, MissIsAllowed, MissIsNeverRefused, MissUnderEntry, OwnInPieces, ReadyIsDone, RefusedUnlessAllowed, StaysValid, WalkFindsEntry};
ghost use Rattle.spur_flat.specs.WellFormed.{AllowedIsWellFormed, LegalButValues, LegalIsWellFormed};

/// The walk to an address finds the entry of its page, of which validity speaks by the page's number.
pub fn walk_finds_entry()
    ensures { WalkFindsEntry }
{}

/// An entry is refused exactly where it is not allowed: an access or a fault by the table of allowed answers and
/// the word in memory, an entry of the pager by its conditions. Those of the bus are always allowed here.
pub fn refused_unless_allowed()
    ensures { RefusedUnlessAllowed }
{}

/// The miss answer of an access is always an allowed answer, and the entry of it is never refused. Where the page has
/// an entry it is Align, or the first fault of an aligned access under that entry.
pub fn miss_is_allowed()
    ensures allowed { MissIsAllowed }
    ensures never_refused { MissIsNeverRefused }
    ensures under_entry { MissUnderEntry }
{}

/// Where an access may be done, a load may be done too: so `Flat::word` gives the word that a
/// test-and-set reads there.
pub fn done_may_be_read()
    ensures { DoneMayBeRead }
{}

/// Where the page's entry is valid, referenced, not leaving, allows the access and is dirty for a write,
/// an aligned access has no answer but that it is done.
pub fn ready_is_done()
    ensures { ReadyIsDone }
{}

/// An allowed entry, each of the fifteen, keeps a flat state valid, and so does a legal history.
pub fn stays_valid()
    ensures entry { StaysValid }
    ensures history { LegalStaysValid }
{}

/// An allowed entry keeps the clean pages of a valid flat state clean, and so does a legal history: each valid page that
/// is not dirty has the words of its swap slot. Where no page is valid, that is so.
pub fn stays_clean()
    ensures entry { StaysClean }
    ensures history { LegalStaysClean }
    ensures none_valid { NoneValidIsClean }
{}

/// What a history in two pieces leads to, where it is legal, and which entries in it are a board's own.
pub fn history_in_pieces()
    ensures after { AfterInPieces }
    ensures legal { LegalInPieces }
    ensures own { OwnInPieces }
{}

/// An entry that is of boards that are there, at a global address and at the first byte of its block or page, is well
/// formed, whole, where it is allowed in a valid flat state, whatever value it read: an access that is done is at the first
/// byte of a word, and a page comes into one of 4096 frames. So is each entry of a history that is legal but for the values
/// that it read, and a legal history is one.
pub fn legal_is_well_formed()
    ensures entry { AllowedIsWellFormed }
    ensures history { LegalIsWellFormed }
    ensures but_values { LegalButValues }
{}
