//! The law of commuting: what a board does alone may be put before what other boards did alone.
//!
//! A board that goes on alone logs accesses and their faults, and touches only words of blocks that its own cache has:
//! to be written, blocks that no other cache has. So no entry of one board's log writes a word that one of another's
//! reads or writes, and they may change places. The logs stand behind the history in board order, and an entry that is
//! put at the end of one of them stands before the logs of the boards behind it: by this law the whole is carried as if
//! the entry were the last.
//! The laws are said with the swap told and untold, over flat memory, tags and open entries alone; each is shown by a
//! function that does nothing.
#![tactic(auto)]

ghost use Rattle.spur_commute.specs.Commute.{AccessCommutes, NeighboursCommute};
ghost use Rattle.spur_commute.specs.Exclusive.{ExclusiveCommutes, TagsAllowEach, TagsKeepApart};
ghost use Rattle.spur_commute.specs.Logs.{LogsAreAllowed, MergeIsSame, OwnStepIsCarried, OwnStepIsLast, OwnStepKeepsLogs, OwnStepLeadsUntold};
ghost use Rattle.spur_commute.specs.Needs.{PagesNeedTheirFrames, StoresNeedToBeLegal};

/// An access and a list of accesses of other boards commute in a valid state, where none of these writes a word that it
/// touches, and it writes none that they touch.
pub fn access_commutes()
    ensures neighbours { NeighboursCommute }
    ensures list { AccessCommutes }
{}

/// Accesses that the tags allow are so apart, where each block has one owner and an exclusive one is at no other board.
/// So there they commute. The tags stay what they are under accesses, and allow each of a list of them.
pub fn exclusive_commutes()
    ensures apart { TagsKeepApart }
    ensures each { TagsAllowEach }
    ensures commutes { ExclusiveCommutes }
{}

/// An entry that is carried after the history and all logs is carried, too, where it is put at the end of its board's
/// log. Each board's own entries are then as if it were the last, and the logs are still logs of their boards. What
/// logs hold is allowed by the tags that stand, and a merge of all logs leaves the whole as it is.
pub fn own_step_is_carried()
    ensures told { OwnStepIsCarried }
    ensures untold { OwnStepLeadsUntold }
    ensures last { OwnStepIsLast }
    ensures kept { OwnStepKeepsLogs }
    ensures allowed { LogsAreAllowed }
    ensures merged { MergeIsSame }
{}

/// What the law needs: entries that are legal, and pages with frames of their own.
pub fn law_has_needs()
    ensures legal { StoresNeedToBeLegal }
    ensures frames { PagesNeedTheirFrames }
{}
