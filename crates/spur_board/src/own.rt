//! A board's own turn: what it does alone, with its own cache and log.

ghost use Rattle.std.specs.Prelude.{◌≡◌, ◌≤◌, IsSome, None, true};
ghost use Rattle.spur_cache.specs.Lines.{found};
ghost use Rattle.spur_cpu.specs.Meaning.{WantsAccess, is_ending};
ghost use Rattle.spur_walk.specs.Laws.{need_of};

use crate::board::{Board, LOG_ENTRIES};
use crate::turn::{BusReason, Turn};
use spur_addr::{GlobalAddr, global};
use spur_cpu::{Cpu, Want};
use spur_flat::{AccessKind, Entry, FaultKind};
use spur_walk::{Looked, look, need_for};

impl<C: Cpu> Board<C> {
    ghost use Rattle.spur_board.specs.Boards.{Asks, IsGoing, IsSound};
    ghost use Rattle.spur_board.specs.Own.{HasFallen, HasHit, HasEvent, HasTurned};

    /// Does an access that hits, where the word stands, and logs it.
    fn hit(&mut self, kind: AccessKind, at: GlobalAddr, value: u32)
        requires going { IsGoing C.meaning C.state C.room self.old }
        requires access { WantsAccess (C.meaning.wants (C.state self.old.cpu)) }
        requires there { IsSome (found self.old.cache at) }
        requires room { 1 ≤ self.old.log.room }
        ensures { HasHit C.meaning C.state C.room kind at value self.old self.new }
    {
        let board = self.number;
        let old = self.cache.word(at);
        match kind {
            AccessKind::Load => {
                self.log_entry(Entry::Load {
                    board,
                    at,
                    value: old,
                });
                self.done(old);
            }
            AccessKind::Store => {
                self.cache.set_word(at, value);
                self.log_entry(Entry::Store { board, at, value });
                self.done(value);
            }
            AccessKind::Tas => {
                self.cache.set_word(at, 1);
                self.log_entry(Entry::Tas { board, at, old });
                self.done(old);
            }
        }
    }

    /// Logs the fault of an access, which ends the board.
    fn fall(&mut self, why: FaultKind, kind: AccessKind, at: GlobalAddr)
        requires going { IsGoing C.meaning C.state C.room self.old }
        requires access { WantsAccess (C.meaning.wants (C.state self.old.cpu)) }
        requires ending { is_ending why ≡ true }
        requires room { 1 ≤ self.old.log.room }
        ensures { HasFallen C.meaning C.state C.room why kind at self.old self.new }
    {
        self.log_entry(Entry::Fault {
            board: self.number,
            kind: why,
            access: kind,
            at,
        });
        self.faulted(why, at);
    }

    /// Does the access that its next instruction wants, where the board can do it alone; else says why not.
    ///
    /// The log is looked at first, then the alignment, and then the cache, whose order is that of [`look`].
    fn access(&mut self, kind: AccessKind, at: GlobalAddr, value: u32) -> Option<BusReason>
        requires sound { IsSound C.meaning C.state C.room self.old }
        requires asks { Asks C.meaning C.state C.room self.old.number kind at value self.old }
        ensures { HasEvent C.meaning C.state C.room self.old result self.new }
    {
        if self.log.entries().len() == LOG_ENTRIES {
            return Some(BusReason::FullLog);
        }
        if at.number() % 4 != 0 {
            self.fall(FaultKind::Align, kind, at);
            return None;
        }
        match look(&self.cache, at, need_for(kind)) {
            Looked::Hit => {
                self.hit(kind, at, value);
                None
            }
            Looked::Denied => {
                self.fall(FaultKind::Protection, kind, at);
                None
            }
            Looked::NeedsDirty | Looked::NeedsClaim | Looked::Miss => Some(BusReason::Access),
        }
    }

    /// Does the next instruction, where the board can do it alone; else says why not.
    fn step(&mut self) -> Option<BusReason>
        requires sound { IsSound C.meaning C.state C.room self.old }
        requires going { self.old.ended ≡ None }
        ensures { HasEvent C.meaning C.state C.room self.old result self.new }
    {
        match self.cpu.want() {
            Want::Local => {
                self.local();
                None
            }
            Want::Access { kind, va, value } => {
                let at = global(&self.segs, va);
                self.access(kind, at, value)
            }
            Want::Ended => unreachable!(),
        }
    }

    /// Goes on alone for at most so many instructions: until the board has ended, or needs the bus, or they are
    /// completed.
    ///
    /// An ending is looked at first, then `at_most`, and then the next instruction. An access that hits in the board's
    /// own cache is done, and one that is not aligned or that its line denies faults and ends the board; each has its
    /// entry in the log. For any other access, and for one that finds the log with 1024 entries, the board needs the
    /// bus, and nothing is changed. Each instruction that is completed counts one in `retired`, `halt` too; one that
    /// faults counts nothing. A board whose `retired` meets its budget ends as Spent, unless it has halted. It takes no
    /// memory.
    pub fn own_turn(&mut self, at_most: u32) -> Turn
        requires sound { IsSound C.meaning C.state C.room self.old }
        ensures { HasTurned C.meaning C.state C.room at_most self.old result self.new }
    {
        for _ in 0..at_most {
            if self.ended.is_some() {
                return Turn::Ended;
            }
            if let Some(reason) = self.step() {
                return Turn::NeedsBus(reason);
            }
        }
        if self.ended.is_some() {
            Turn::Ended
        } else {
            Turn::Again
        }
    }
}
