//! Laws that a turn of the bus needs of the walk, each shown by a function that does nothing.

ghost use Rattle.spur_walk.specs.Answered.{AccessIsCarried, AlignMayStand, StoresLeaveBy};
ghost use Rattle.spur_walk.specs.Asked.{FoundPlanIsTheTables, LookIsTheTables, PagePlanIsTheTables, PlanIsTheTables};
ghost use Rattle.spur_walk.specs.Brought.{PageStepBringsStaying, StepBringsStaying};
ghost use Rattle.spur_walk.specs.Fetches.{FoundStepsAreFew, MovedIsModest, ServedFaultLeavesFetch};
ghost use Rattle.spur_walk.specs.Made.{AccessIsMade, PageIsMade};
ghost use Rattle.spur_walk.specs.Stores.{HitStores};

/// Where `look` answers Hit for a write, a word that is written in the board's own line changes one word of
/// the logical memory, and all that the walk needs stays: tags, tables, present pages. A write hits again.
pub fn hit_stores()
    ensures { HitStores }
{}

/// Each entry of the two calls names boards that are there, is of its own board, and has an address below
/// 2^38 that is the first byte of a block.
pub fn entries_are_made()
    ensures access { AccessIsMade }
    ensures page { PageIsMade }
{}

/// Where `advance` answers Moved, the entry is no fetch that owns a block, or the next `look` answers Hit.
pub fn moved_is_modest()
    ensures { MovedIsModest }
{}

/// An access or a fault that may stand, and that the open entries of its board need, is carried from the state
/// with them to the state with its board's list emptied, the swap told or not. A hit that writes leaves what
/// the store or the test-and-set leaves. The fault of an address that is not aligned may stand anywhere, and
/// needs no more than that nothing is open.
pub fn answers_are_carried()
    ensures carried { AccessIsCarried }
    ensures stores { StoresLeaveBy }
    ensures align { AlignMayStand }
{}

/// Where `advance` answers a fault that is served, a fill or a claim was left; and where the block of the page's
/// entry is found, at most two steps are.
pub fn served_faults_leave_few()
    ensures fetch { ServedFaultLeavesFetch }
    ensures found { FoundStepsAreFew }
{}

/// A step brings in no line of a page that is leaving or not valid.
pub fn steps_bring_staying_pages()
    ensures access { StepBringsStaying }
    ensures page { PageStepBringsStaying }
{}

/// What `look` answers where only the block's state decides, and what the plans of the two calls ask of the bus
/// for the block that they are made for, is what the protocol's table says for the state of the board's own
/// line: nothing where it is ready, a claim where it is claimed, and a read of the one or the other kind where
/// it is filled. The step makes that transaction, after which the table asks nothing more.
pub fn plans_ask_as_the_table()
    ensures look { LookIsTheTables }
    ensures access { PlanIsTheTables }
    ensures found { FoundPlanIsTheTables }
    ensures page { PagePlanIsTheTables }
{}
