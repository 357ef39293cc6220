//! Laws of a board's turn on the bus: what holds again after its steps, and how much of it is left. Each is shown by a
//! function that does nothing.

ghost use Rattle.spur_pager.specs.Ahead.{AheadFits};
ghost use Rattle.spur_pager.specs.Again.{SameHasStepped, SameStandsAgain, StepHasStepped};
ghost use Rattle.spur_pager.specs.Again.{StepStandsAgain, StepsAddUp, StepsStandAgain};
ghost use Rattle.spur_pager.specs.Faults.{MovedFalls, PastIsNoFault, ServedFaultFalls, SteppedKeepsFaults};
ghost use Rattle.spur_pager.specs.Few.{LeavingLinesStayFew, ServedLeavesFew};
ghost use Rattle.spur_pager.specs.Opened.{AccessIsCarriedIn, NothingIsOpen, StepIsCarriedIn};
ghost use Rattle.spur_pager.specs.Opening.{LayoutStands, OpeningStands};
ghost use Rattle.spur_pager.specs.Reserve.{AheadLeavesRoom, FaultHasRoom, MovedLeavesRoom, ServedLeavesRoom};
ghost use Rattle.spur_pager.specs.Reserve.{StepsLeaveRoom, TurnRoomIsBounded};
ghost use Rattle.spur_pager.specs.Stored.{HitStandsAgain};

/// With empty caches, a frame table that has the frames of the valid pages, and clean pages as their slots the state
/// stands, and it is the one before anything was done (`layout`). So it is where no page's entry is valid and all
/// frames are free (`opening`).
pub fn opening_stands()
    ensures layout { LayoutStands }
    ensures opening { OpeningStands }
{}

/// After a step of the walk the state stands again, with the same flat state (`step`); so it does after several
/// (`steps`), and in a view that shows the same (`same`). That steps led from one view to another is known of one step
/// (`one`), of none (`none`), and of steps after steps (`more`), so that a loop can keep it.
pub fn stands_again()
    ensures step { StepStandsAgain }
    ensures steps { StepsStandAgain }
    ensures same { SameStandsAgain }
    ensures one { StepHasStepped }
    ensures none { SameHasStepped }
    ensures more { StepsAddUp }
{}

/// Where `look` answers Hit for a write, and a word is written in the board's own line, the state stands again, and its
/// flat state is the one after the entry of the store.
pub fn hit_stands_again()
    ensures { HitStandsAgain }
{}

/// While boards have open entries the state that stands is the one with them: where none has any, it is the one that
/// stands at a call (`nothing`). The entry of a step towards an access is carried to the one with the entry open too,
/// where the open entries need it (`step`); and what is answered then, to the one with the board's emptied (`access`).
pub fn open_entries_are_carried()
    ensures nothing { NothingIsOpen }
    ensures step { StepIsCarriedIn }
    ensures access { AccessIsCarriedIn }
{}

/// A fault of an access that was served leaves fewer that may be, and its kind and those that were past are past
/// (`served`). A kind that is past does not answer (`past`), so each is served at most once in a turn. Steps leave as
/// many faults, and the same kinds past (`stepped`), and with each one towards the access fewer are left (`moved`).
pub fn faults_fall()
    ensures served { ServedFaultFalls }
    ensures past { PastIsNoFault }
    ensures stepped { SteppedKeepsFaults }
    ensures moved { MovedFalls }
{}

/// What the rest of a turn may still append is one number. Where a fault answers that is served, it has room for the
/// fault's entry and for serving it (`fault`), and then for the rest (`served`); a step lowers it by one (`moved`), and
/// several by as many as they are (`steps`), since none of them brings in a line of a leaving page. It is never more than
/// the numbers of frames and of caches say (`bounded`).
///
/// A step ahead of need uses no more than what may be appended so that a page leaves (`fits`), which falls by what it
/// uses. It leaves room for the rest of the turn, where there was room for both (`ahead`).
pub fn turn_has_room()
    ensures fault { FaultHasRoom }
    ensures served { ServedLeavesRoom }
    ensures moved { MovedLeavesRoom }
    ensures steps { StepsLeaveRoom }
    ensures bounded { TurnRoomIsBounded }
    ensures fits { AheadFits }
    ensures ahead { AheadLeavesRoom }
{}

/// After a fault of an access was served, at most two steps towards it are left, and not more fills and claims of its
/// own than before (`served`). A step that brings in no line of a page that is leaving or not valid leaves not more of
/// them (`leaving`).
pub fn few_are_left()
    ensures served { ServedLeavesFew }
    ensures leaving { LeavingLinesStayFew }
{}
