//! What ties the reading of texts to what they say. Nothing runs here: each function stands for what its contract says
//! of every text.
ghost use Rattle.spur_asm.specs.FaultLaws.{CountsLines, CutsEachLine, FindsTheFault, FindsThePieces, HasOneFault, PlacesOfFaults, SaysWithoutFault, TellsTheFirstFault};
ghost use Rattle.spur_asm.specs.Laws.{ReadsWhatIsSaid, SaysAUnit, SaysOnce};

/// The unit that is read of a text is the one that the text says, and where a text says none, none is read. What a text
/// says is told by spelling alone: by which bytes each token is spelled, by which tokens each label and statement, and in
/// which order they stand.
pub fn reads_what_is_said()
    ensures { ReadsWhatIsSaid }
{}

/// A text says one unit at most.
pub fn says_once()
    ensures { SaysOnce }
{}

/// The unit that a text says is within the limits of a unit: registers are below 16, immediates have 16 bits, words stand
/// at multiples of 4 and have values of 32 bits, and the parts are as few as a unit's limits say.
pub fn says_a_unit()
    ensures { SaysAUnit }
{}

/// Each line is cut into names, numbers and single bytes in one way: they stand in order with only blanks between them,
/// and each is as long as bytes of its sort go on.
pub fn cuts_each_line()
    ensures { CutsEachLine }
{}

/// The tokens that are read of a line are its pieces: each is the token that its piece writes, or has the fault that the
/// piece has by itself.
pub fn finds_the_pieces()
    ensures { FindsThePieces }
{}

/// A line has one fault at most.
pub fn has_one_fault()
    ensures { HasOneFault }
{}

/// A line is refused exactly where it has a fault, by that fault and at its place. The faults of a line are told by its
/// pieces, by the shapes of statements, and by counts over the lines around it.
pub fn finds_the_fault()
    ensures { FindsTheFault }
{}

/// A line has a fault at one of its pieces exactly where the line can be gone on with up to that piece, to one without a
/// fault in the same surroundings, and not one piece further; and at its end exactly where it has a fault and can be gone
/// on with behind all its pieces. This is said where no board has begun, the line begins one, or the board has a label.
pub fn places_of_faults()
    ensures { PlacesOfFaults }
{}

/// What reading carries from line to line are these counts.
pub fn counts_lines()
    ensures { CountsLines }
{}

/// Of a text that fault is told which has the least line, and then the least column; none is told exactly where the
/// text has none.
pub fn tells_the_first_fault()
    ensures { TellsTheFirstFault }
{}

/// A text has no fault exactly where it says a unit.
pub fn says_without_fault()
    ensures { SaysWithoutFault }
{}
