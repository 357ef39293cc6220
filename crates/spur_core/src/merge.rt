//! The boards' logs are merged into the history.

ghost use Rattle.std.specs.Prelude.{◌≡◌, ◌≤◌, ◌+◌, ◌*◌, ◌^◌, ◌++◌, IsOk, OnErr, OnOk, length, map};
ghost use Rattle.spur_commute.specs.Logs.{joined_logs};
ghost use Rattle.spur_core.specs.Boards.{AreBoardLogs, emptied, logs_of};
ghost use Rattle.spur_core.specs.World.{IsGoodWorld, IsMerged, IsRoomier};

use crate::world::World;
use spur_board::Board;
use spur_cpu::Cpu;
use spur_flat::History;
use spur_swap::Backing;
use std::alloc::AllocError;

/// How many entries a board's log may have.
const LOG_ENTRIES: usize = 1024;

/// How many entries there are in all logs.
fn logged<C>(boards: &[Board<C>]) -> usize
    requires logs { AreBoardLogs boards.now }
    requires few { length boards.now ≤ 12 }
    ensures count { result ≡ length (joined_logs (logs_of boards.now)) }
    ensures few { result ≤ 12288 }
{
    let mut count = 0usize;
    for board in boards {
        count += board.log.entries().len();
    }
    count
}

/// Appends all logs in board order to a history that has room for them, and empties them.
fn pour<C>(boards: &mut [Board<C>], history: &mut History)
    requires room { length (joined_logs (logs_of boards.old)) ≤ history.old.room }
    ensures boards { boards.new ≡ map emptied boards.old }
    ensures poured { history.new.entries ≡ history.old.entries ++ joined_logs (logs_of boards.old) }
    ensures left { history.new.room + length (joined_logs (logs_of boards.old)) ≡ history.old.room }
{
    for board in boards {
        history.append_all(&mut board.log);
    }
}

impl<C: Cpu, B: Backing> World<C, B> {
    /// Merges the logs, with room in the history for `more` entries behind them. `AllocError` comes only for want of
    /// memory, and all is as it was then.
    pub(crate) fn merge_with(&mut self, more: usize) -> Result<(), AllocError>
        requires good { IsGoodWorld C.meaning C.state C.room B.meaning self.old }
        requires some { more ≤ 2 ^ 32 }
        ensures good { IsGoodWorld C.meaning C.state C.room B.meaning self.new }
        ensures beginning { self.new.beginning ≡ self.old.beginning }
        ensures merged { OnOk result (IsMerged self.old self.new) }
        ensures room { OnOk result (more ≤ self.new.store.history.room) }
        ensures there { length (joined_logs (logs_of self.old.boards.items)) + more ≤ self.old.store.history.room
            → IsOk result }
        ensures err { OnErr result (self.new ≡ self.old) }
    {
        let count = logged(&self.boards);
        self.store.history.reserve(count + more)?;
        pour(&mut self.boards, &mut self.store.history);
        Ok(())
    }

    /// Appends the boards' logs to the history, in board order, and empties them: their room stays with them. Nothing
    /// else is changed. `AllocError` comes only for want of memory, and all is as it was then; it never comes where the
    /// history has room for all entries of the logs.
    ///
    /// The cost is that of the entries that are merged and of the boards; the history's memory grows by doubling.
    pub fn merge(&mut self) -> Result<(), AllocError>
        requires good { IsGoodWorld C.meaning C.state C.room B.meaning self.old }
        ensures good { IsGoodWorld C.meaning C.state C.room B.meaning self.new }
        ensures beginning { self.new.beginning ≡ self.old.beginning }
        ensures merged { OnOk result (IsMerged self.old self.new) }
        ensures there { length (joined_logs (logs_of self.old.boards.items)) ≤ self.old.store.history.room
            → IsOk result }
        ensures err { OnErr result (self.new ≡ self.old) }
    {
        self.merge_with(0)
    }

    /// Makes room in the history for 1024 entries of each board's log, so that a merge is not refused for want of it.
    /// Nothing else is changed. `AllocError` comes only for want of memory, and all is as it was then; it never comes
    /// where the room is there already.
    ///
    /// The cost is that of moving the history where it grows. Room beyond what is asked for may come with it.
    pub fn make_room(&mut self) -> Result<(), AllocError>
        requires good { IsGoodWorld C.meaning C.state C.room B.meaning self.old }
        ensures good { IsGoodWorld C.meaning C.state C.room B.meaning self.new }
        ensures beginning { self.new.beginning ≡ self.old.beginning }
        ensures only { IsRoomier self.old self.new }
        ensures room { OnOk result (1024 * length self.new.boards.items ≤ self.new.store.history.room) }
        ensures there { 1024 * length self.old.boards.items ≤ self.old.store.history.room → IsOk result }
        ensures err { OnErr result (self.new ≡ self.old) }
    {
        self.store.history.reserve(LOG_ENTRIES * self.boards.len())?;
        Ok(())
    }
}
