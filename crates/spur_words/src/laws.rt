//! Laws of the addresses that are watched. Nothing runs here: the function stands for what its contract says of every
//! line.

ghost use Rattle.spur_words.specs.Watched.{EachIsWatched, FewAreWatched, GlobalAreWatched};

/// Where the words of a line are of the table there are as many addresses as words `--watch`. There are at most 8, and
/// each is below 2^38.
pub fn each_watch_has_its_address()
    ensures each { EachIsWatched }
    ensures few { FewAreWatched }
    ensures small { GlobalAreWatched }
{}
