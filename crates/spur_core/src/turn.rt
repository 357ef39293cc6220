//! A turn of a board on the bus.

ghost use Rattle.std.specs.Prelude.{◌≡◌, ◌<◌, ◌≤◌, ◌+◌, ◌*◌, OnErr, OnOk, length};
ghost use Rattle.spur_flat.specs.declared.access.FaultKind.{FaultKind};
ghost use Rattle.spur_core.specs.Boards.{LogsAreEmpty, whole};
ghost use Rattle.spur_core.specs.Step.{IsStepped};
ghost use Rattle.spur_core.specs.Tally.{access_fetches, fault_count};
ghost use Rattle.spur_core.specs.Turn.{GoesOnOrEnds, GrowsByTurn, HasActed, HasTurnRoom, IsIdleAt, IsWantingAt, MergesAhead, OthersStay};
ghost use Rattle.spur_core.specs.Turn.{StepsAhead, SwapEndsByFailing, TurnsAhead, behind_logs};
ghost use Rattle.spur_core.specs.World.{IsGoodWorld};

use crate::take::take;
use crate::world::World;
use spur_addr::global;
use spur_board::Board;
use spur_cpu::{Cpu, Want};
use spur_pager::ahead_step;
use spur_swap::Backing;
use std::alloc::AllocError;

/// How many boards there are.
fn board_count<C>(boards: &[Board<C>]) -> usize
    requires { length boards.now ≤ 12 }
    ensures value { result ≡ length boards.now }
    ensures few { result ≤ 12 }
{
    boards.len()
}

impl<C: Cpu, B: Backing> World<C, B> {
    /// Does, for board `b`, what may be done ahead of need so that a page leaves. All logs are empty, and the history has
    /// room for a turn. Then it has room for the rest of it.
    fn step_ahead(&mut self, b: u32)
        requires good { IsGoodWorld C.meaning C.state C.room B.meaning self.old }
        requires empty { LogsAreEmpty self.old.boards.items }
        requires board { b < length self.old.boards.items }
        requires room { 5 * length self.old.store.frames.held + 128 * length self.old.boards.items + 65
            ≤ self.old.store.history.room }
        ensures good { IsGoodWorld C.meaning C.state C.room B.meaning self.new }
        ensures beginning { self.new.beginning ≡ self.old.beginning }
        ensures steps { StepsAhead B.meaning b self.old self.new }
        ensures empty { LogsAreEmpty self.new.boards.items }
        ensures room { HasTurnRoom B.meaning b self.new }
    {
        ahead_step(&mut self.boards, &mut self.store, b);
        // so that the check knows the frame table to be one
        let _ = self.store.frames.frames();
    }

    /// Takes the access that board `b` wants to its end, where it has not ended and wants one. All logs are empty, and
    /// the history has room for the turn.
    fn access(&mut self, b: u32)
        requires good { IsGoodWorld C.meaning C.state C.room B.meaning self.old }
        requires empty { LogsAreEmpty self.old.boards.items }
        requires board { b < length self.old.boards.items }
        requires room { HasTurnRoom B.meaning b self.old }
        ensures good { IsGoodWorld C.meaning C.state C.room B.meaning self.new }
        ensures beginning { self.new.beginning ≡ self.old.beginning }
        ensures acted { HasActed C.meaning C.state C.room B.meaning b self.old self.new }
        ensures empty { LogsAreEmpty self.new.boards.items }
    {
        if self.boards[b as usize].ended.is_some() {
            return;
        }
        let Want::Access { kind, va, value } = self.boards[b as usize].cpu.want() else {
            return;
        };
        let at = global(&self.boards[b as usize].segs, va);
        take(&mut self.boards, &mut self.store, b, kind, at, value);
        // so that the check knows the frame table to be one
        let _ = self.store.frames.frames();
    }

    /// A turn of board `b` on the bus: the boards' logs are merged into the history; what may be done ahead of need so that
    /// a page leaves is done; and then the access that the board wants is taken to its end. Where the board has ended, or
    /// wants no access, the turn is over before that.
    ///
    /// Where the store's `ahead` is at least 1 and there are two data frames or more, the first `ahead` lines of a leaving
    /// page are flushed, or all where there are fewer, and where none is left then, the page goes out, unless the swap object
    /// fails to write it; where no page is leaving and no frame is free, the clock has one leave. Of the entries that do such
    /// things, just these stand before the turn's first fault. A failed write ends no board: the page stays leaving.
    ///
    /// An access whose address is not a multiple of 4 ends its board by the fault Align. Else the blocks that it needs
    /// are fetched, one step at a time, until it is done, or has a fault. Missing, Leaving, Reference and Dirty are
    /// served by the pager, each kind at most once in a turn, and the access is tried again; where the swap object
    /// fails in that, the board ends as SwapFault. The other faults end it as Faulted. An access that is done completes
    /// its instruction. All that is done is appended to the history, in the order in which it is done.
    ///
    /// Room is made first, for the logs and for `8 * (frames + 1) + 128 * boards + 64` entries more, which suffice:
    /// `AllocError` comes only for want of it, and all is as it was then. The cost is that of the merge, of a fixed
    /// number of steps, each of which looks at one line of each cache, and of serving the faults; and that of what is done
    /// ahead, which with `ahead` 0 is none.
    pub fn bus_turn(&mut self, b: u32) -> Result<(), AllocError>
        requires good { IsGoodWorld C.meaning C.state C.room B.meaning self.old }
        requires board { b < length self.old.boards.items }
        ensures good { IsGoodWorld C.meaning C.state C.room B.meaning self.new }
        ensures beginning { self.new.beginning ≡ self.old.beginning }
        ensures err { OnErr result (self.new ≡ self.old) }

        // what every turn leaves
        ensures grows { OnOk result (GrowsByTurn b self.old self.new) }
        ensures empty { OnOk result (LogsAreEmpty self.new.boards.items) }
        ensures others { OnOk result (OthersStay b self.old.boards.items self.new.boards.items) }

        // a turn of a board that wants no access, and one of a board that does
        ensures idle { OnOk result (IsIdleAt C.meaning C.state self.old.boards.items b
            → MergesAhead B.meaning b self.old self.new) }
        ensures moved { OnOk result (GoesOnOrEnds C.meaning C.state b self.old.boards.items self.new.boards.items) }
        ensures stepped { OnOk result (IsWantingAt C.meaning C.state self.old.boards.items b
            → IsStepped C.meaning C.state b (whole self.old.store self.old.boards.items) self.new.store.history.entries
            self.old.boards.items self.new.boards.items) }

        // what is done ahead of need
        ensures ahead { OnOk result (TurnsAhead B.meaning b self.old self.new (behind_logs self.old self.new)) }

        // what is counted in it
        ensures once { OnOk result ((kind : FaultKind) → fault_count kind (behind_logs self.old self.new) ≤ 1) }
        ensures fetches { OnOk result (access_fetches (behind_logs self.old self.new) ≤ 3) }
        ensures swapped { OnOk result (SwapEndsByFailing C.meaning C.state C.room B.meaning b self.old self.new) }
    {
        let frames = self.store.frames.frames() as usize;
        let boards = board_count(&self.boards);
        self.merge_with(8 * (frames + 1) + 128 * boards + 64)?;
        self.step_ahead(b);
        self.access(b);
        Ok(())
    }
}
