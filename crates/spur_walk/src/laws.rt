//! Laws of the walk, each shown by a function that does nothing.

ghost use Rattle.spur_walk.specs.Laws.{AccessIsServed, EmptyMayWalk, FaultIsStill, FaultMayStand, FoundEntryIsTheTables, LikeHasTables, OwnBlockHits, PageHasNoFault, PageIsServed, PageReadyIsExclusive, PageStepsAreFew, PageStepsFall, ReadyHasTheWord, ReadyIsHit, ReadyIsStill, ReadyMayStand, ServedFaultFindsEntry, StepIsCarried, StepIsCarriedUntold, StepsAreFew, StepsFall, ValidHasTables};

/// The answers Ready and Fault change nothing.
pub fn ready_and_fault_are_still()
    ensures ready { ReadyIsStill }
    ensures fault { FaultIsStill }
{}

/// `advance` answers Ready exactly where `look` answers Hit.
pub fn ready_is_hit()
    ensures { ReadyIsHit }
{}

/// `advance_entry` answers Ready exactly where the board has the entry's block for itself, and it never
/// answers Fault.
pub fn page_is_ready_where_exclusive()
    ensures ready { PageReadyIsExclusive }
    ensures no_fault { PageHasNoFault }
{}

/// The fault that `advance` answers may stand in the history as the fault of the access.
pub fn fault_may_stand()
    ensures { FaultMayStand }
{}

/// Where `advance` answers Ready, the access itself may stand in the history, with the word that the
/// logical memory has, and this is the word of the line.
pub fn ready_may_stand()
    ensures stands { ReadyMayStand }
    ensures word { ReadyHasTheWord }
{}

/// Where `advance` answers a fault that is served, the block of the page's entry is in the board's cache.
/// Wherever it is, its line has the word that the tables of the logical memory have for the page.
pub fn served_fault_finds_entry()
    ensures found { ServedFaultFindsEntry }
    ensures word { FoundEntryIsTheTables }
{}

/// After the access's own block was claimed, or filled for a write, `look` answers Hit.
pub fn own_block_hits()
    ensures { OwnBlockHits }
{}

/// The entry of a step is carried from the state that stands before the step to the state after it, where
/// the open entries need it: where the swap tells its pages, and where it does not.
pub fn steps_are_carried()
    ensures told { StepIsCarried }
    ensures untold { StepIsCarriedUntold }
{}

/// Each entry that the two calls make serves the access or the page.
pub fn entries_serve()
    ensures access { AccessIsServed }
    ensures page { PageIsServed }
{}

/// Without a served fault, a caller who repeats `advance` is done after at most six steps, of which at
/// most three are fills or claims.
pub fn steps_are_few()
    ensures few { StepsAreFew }
    ensures fall { StepsFall }
{}

/// A caller who repeats `advance_entry` is done after at most four steps.
pub fn page_steps_are_few()
    ensures few { PageStepsAreFew }
    ensures fall { PageStepsFall }
{}

/// The tables of a valid flat state can be walked, and a flat state that is like it has the same tables.
pub fn valid_states_have_tables()
    ensures valid { ValidHasTables }
    ensures like { LikeHasTables }
{}

/// With empty caches, and a memory with the words of a valid flat state, the walk may begin.
pub fn empty_caches_may_walk()
    ensures { EmptyMayWalk }
{}
