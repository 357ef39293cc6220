//! One board, and one instruction of it.

ghost use Rattle.std.specs.Prelude.{◌≡◌, ◌≢◌, ◌<◌, ◌≤◌, ◌↔◌, ◌⊎◌, Err, IfErr, IfOk, None, Some, true};
ghost use Rattle.spur_cache.specs.declared.fault.CacheFault.TheVariants.{BadLines, NoMemory};
ghost use Rattle.spur_cpu.specs.Meaning.{WantsAccess, is_ending};
ghost use Rattle.spur_cpu.specs.declared.cpu.Want.TheVariants as want;
ghost use Rattle.spur_snoop.specs.Size.{IsLineCount};
ghost use Rattle.spur_board.specs.declared.ending.Ending.TheVariants as ending;

use crate::ending::Ending;
use spur_addr::GlobalAddr;
use spur_cache::{Cache, CacheFault, HasCache, Line};
use spur_cpu::{Answer, Cpu, Want};
use spur_flat::{Entry, FaultKind, History};
use spur_snoop::BlockState;
use std::alloc::Global;

/// How many entries a board's log may have.
pub(crate) const LOG_ENTRIES: usize = 1024;

/// A board: its cache, its processor, and the log of what it has done alone.
#[derive(Debug, Drop)]
pub struct Board<C> {
    /// Its number, from 0.
    pub number: u32,
    /// Its own cache.
    pub cache: Cache,
    /// Its processor.
    pub cpu: C,
    /// Its four segment registers.
    pub segs: [u8; 4],
    /// The entries of what it has done alone, which are not in the history yet: 1024 at most.
    pub log: History,
    /// How many instructions it has completed.
    pub retired: u32,
    /// How many instructions it may complete.
    pub budget: u32,
    /// Its ending, if it has one.
    pub ended: Option<Ending>,
}

/// Each change of its cache changes nothing else of a board.
impl<C> HasCache for Board<C> {
    ghost lens = { record { lines_of = λ board. board.cache; with_lines = λ board lines. record board { cache = lines } } };

    ghost use Rattle.std.specs.Prelude.{refl};

    ghost lawful = { record { kept = λ _. refl; set = λ _ _. refl; twice = λ _ _ _. refl } };

    fn cache(&self) -> &Cache {
        // so that the check knows the lines to be those of a cache
        let _ = self.cache.lines();
        &self.cache
    }

    fn fill_line(&mut self, line: Line) {
        self.cache.fill(line);
    }

    fn set_line_state(&mut self, at: GlobalAddr, state: BlockState) {
        self.cache.set_state(at, state);
    }

    fn set_line_dirty(&mut self, at: GlobalAddr) {
        self.cache.set_dirty(at);
    }

    fn set_line_word(&mut self, at: GlobalAddr, value: u32) {
        self.cache.set_word(at, value);
    }
}

impl<C: Cpu> Board<C> {
    ghost use Rattle.spur_board.specs.Boards.{CarriesLocally, HasDone, HasFaulted, HasLogged, HasRan, IsGoing, IsNew, IsSound, retired};

    /// A board at its beginning, with so many empty cache lines. `number` is its number from 0, and `budget` is how
    /// many instructions it may complete.
    ///
    /// Room for 1024 entries in its log is made now, and it stays when the log is emptied. The answer is `BadLines`
    /// with the number exactly where `lines` is no power of two from 16 to 4096, and else `NoMemory` only for want of
    /// memory.
    pub fn new(
        alloc: Global,
        number: u32,
        cpu: C,
        segs: [u8; 4],
        lines: u32,
        budget: u32,
    ) -> Result<Board<C>, CacheFault>
        requires number { number < 12 }
        requires budget { 1 ≤ budget }
        requires running { C.meaning.wants (C.state cpu) ≢ want.Ended }
        ensures begun { IfOk result (IsNew number cpu segs lines budget) }
        ensures sound { budget ≤ C.room cpu → IfOk result (IsSound C.meaning C.state C.room) }
        ensures bad_lines { (result ≡ Err (BadLines lines)) ↔ (IsLineCount lines → ⊥) }
        ensures faults { IfErr result (λ fault. (fault ≡ BadLines lines) ⊎ (fault ≡ NoMemory)) }
    {
        let cache = Cache::new(alloc, lines)?;
        // so that the check knows the lines to be those of a cache
        let _ = cache.lines();
        let mut log = History::new(alloc);
        log.reserve(LOG_ENTRIES)?;
        Ok(Board {
            number,
            cache,
            cpu,
            segs,
            log,
            retired: 0,
            budget,
            ended: None,
        })
    }

    /// Counts an instruction that is completed. Where the processor wants nothing more, the board has halted; else one
    /// that has met its budget has spent it.
    fn retire(&mut self)
        requires left { self.old.retired < self.old.budget }
        requires ended { self.old.ended ≡ None }
        ensures { self.new ≡ retired C.meaning C.state self.old }
    {
        self.retired += 1;
        if let Want::Ended = self.cpu.want() {
            self.ended = Some(Ending::Halted);
        } else if self.retired == self.budget {
            self.ended = Some(Ending::Spent);
        }
    }

    /// Does an instruction without an access.
    pub fn local(&mut self)
        requires going { IsGoing C.meaning C.state C.room self.old }
        requires local { C.meaning.wants (C.state self.old.cpu) ≡ want.Local }
        ensures carried { CarriesLocally C.meaning C.state self.old self.new }
        ensures ran { HasRan C.meaning C.state C.room self.old self.new }
    {
        self.cpu.local();
        self.retire();
    }

    /// Completes the instruction of an access that is done. `value` is the word that a load or a test-and-set read; a
    /// processor doesn't look at a store's.
    pub fn done(&mut self, value: u32)
        requires going { IsGoing C.meaning C.state C.room self.old }
        requires access { WantsAccess (C.meaning.wants (C.state self.old.cpu)) }
        ensures { HasDone C.meaning C.state C.room self.old value self.new }
    {
        self.cpu.answer(Answer::Done(value));
        self.retire();
    }

    /// Takes the fault that ends the board: Align, Unmapped or Protection. No instruction is completed by it.
    pub fn faulted(&mut self, kind: FaultKind, at: GlobalAddr)
        requires going { IsGoing C.meaning C.state C.room self.old }
        requires access { WantsAccess (C.meaning.wants (C.state self.old.cpu)) }
        requires ending { is_ending kind ≡ true }
        ensures { HasFaulted C.meaning C.state C.room self.old kind at self.new }
    {
        self.cpu.answer(Answer::Faulted(kind));
        self.ended = Some(Ending::Faulted { kind, at });
    }

    /// Ends the board, for the swap failed where its access needed a page.
    pub fn swap_failed(&mut self)
        ensures { self.new ≡ record self.old { ended = Some ending.SwapFault } }
    {
        self.ended = Some(Ending::SwapFault);
    }

    /// Puts an entry, for which there is room, at the end of the board's log.
    pub fn log_entry(&mut self, entry: Entry)
        requires { 1 ≤ self.old.log.room }
        ensures stays { self.new ≡ record self.old { log = self.new.log } }
        ensures logged { HasLogged self.old entry self.new }
    {
        self.log.append(entry);
    }
}
