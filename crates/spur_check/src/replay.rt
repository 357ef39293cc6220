//! One board's program, done again along the entries of a history.

ghost use Rattle.std.specs.Prelude.{◌≡◌, ◌<◌, true, None, IfOk, OnOk, option_map};
ghost use Rattle.spur_flat.specs.Refused.{result_of};
ghost use Rattle.spur_cpu.specs.After.{ending_at, wants_local};
ghost use Rattle.spur_cpu.specs.Meaning.{is_ending};
ghost use Rattle.spur_cpu.specs.Plain.{plain, plain_wants};
ghost use Rattle.spur_cpu.specs.PlainCpus.{plain_of};
ghost use Rattle.spur_check.specs.Judged.{first_replay};
ghost use Rattle.spur_check.specs.Replays.{after_local, at_access, next_access, program_refusal, taken};
ghost use Rattle.spur_check.specs.Endings.{stop_of};

use crate::next_access::{NextAccess, judge_access};
use spur_addr::{GlobalAddr, global};
use spur_cpu::{Answer, Cpu, PlainCpu, Want};
use spur_flat::{Entry, FaultKind, Illegal};
use spur_isa::Instr;
use spur_list::Items;
use std::alloc::{AllocError, Global};
use std::marker::Model;

/// Why a board's program has ended.
#[derive(Clone, Copy, Debug, PartialEq, Eq)]
pub(crate) enum Ending {
    /// Its processor wants nothing more.
    Halted,
    /// An access was answered by a fault that ends the board.
    Faulted { kind: FaultKind, at: GlobalAddr },
    /// Its budget is spent.
    Spent,
}

/// A board's program on a processor of its own, where the entries of a history have led it.
#[derive(Drop)]
pub(crate) struct Replay {
    cpu: PlainCpu,
    segs: [u8; 4],
    budget: u32,
    retired: u32,
    ended: Option<Ending>,
}

impl Model for Replay {
    ghost use Rattle.spur_cpu.specs.Plain.{Plain};
    ghost use Rattle.spur_cpu.specs.PlainCpus.{room_of};
    ghost use Rattle.spur_check.specs.Replays.{Replayed};
    ghost use Rattle.spur_check.specs.Endings.{MayGoOn, replayed_of};

    ghost Value = { Replayed Plain };

    ghost view = { λ r. replayed_of r.segs r.budget r.cpu r.retired r.ended };

    ghost invariant = { λ r. MayGoOn r.budget r.retired (room_of r.cpu) r.ended };
}

impl Replay {
    /// A board at the beginning of its code. `budget` is how many instructions it may complete.
    pub fn new(
        alloc: Global,
        segs: [u8; 4],
        code: Items<Instr>,
        budget: u32,
    ) -> Result<Replay, AllocError>
        requires { 0 < budget }
        ensures { IfOk result (λ replay. replay ≡ first_replay budget segs code) }
    {
        let cpu = PlainCpu::new(alloc, code, budget)?;
        Ok(Replay {
            cpu,
            segs,
            budget,
            retired: 0,
            ended: None,
        })
    }

    /// Says why an access or a fault of one is not of the program's next access, or takes it. In both cases the board
    /// is carried on to that access first.
    pub fn judge(&mut self, entry: &Entry) -> Result<(), Illegal>
        ensures exact { result ≡ result_of (program_refusal (next_access plain (at_access plain self.old)) entry.now) }
        ensures ok { OnOk result (self.new ≡ taken plain (at_access plain self.old) entry.now) }
    {
        self.carry_on();
        judge_access(&self.next(), entry)?;
        self.take(entry);
        Ok(())
    }

    /// Carries the board on to its next access, within its budget.
    fn carry_on(&mut self)
        ensures { self.new ≡ at_access plain self.old }
    {
        for _at in self.retired..self.budget {
            if !self.wants_local() {
                return;
            }
            self.local();
        }
    }

    /// Whether the board has not ended and wants a local instruction.
    fn wants_local(&self) -> bool
        ensures { result ≡ wants_local plain self.now.segs self.now.budget self.now.course }
    {
        self.ended.is_none() && matches!(self.cpu.want(), Want::Local)
    }

    /// Does a local instruction.
    fn local(&mut self)
        requires { wants_local plain self.old.segs self.old.budget self.old.course ≡ true }
        ensures { self.new ≡ after_local plain self.old }
    {
        self.cpu.local();
        self.retired += 1;
        self.ended = ended_by(&self.cpu, self.retired, self.budget);
    }

    /// The access that the board wants now.
    fn next(&self) -> Option<NextAccess>
        ensures { result ≡ next_access plain self.now }
    {
        if self.ended.is_some() {
            return None;
        }
        match self.cpu.want() {
            Want::Access { kind, va, value } => Some(NextAccess {
                kind,
                at: global(&self.segs, va),
                value,
            }),
            _ => None,
        }
    }

    /// Takes an entry that is of the access that the board wants now.
    fn take(&mut self, entry: &Entry)
        requires next { program_refusal (next_access plain self.old) entry.now ≡ None }
        ensures { self.new ≡ taken plain self.old entry.now }
    {
        match entry {
            Entry::Load { value, .. } | Entry::Store { value, .. } => {
                self.cpu.answer(Answer::Done(*value));
                self.retired += 1;
                self.ended = ended_by(&self.cpu, self.retired, self.budget);
            }
            Entry::Tas { old, .. } => {
                self.cpu.answer(Answer::Done(*old));
                self.retired += 1;
                self.ended = ended_by(&self.cpu, self.retired, self.budget);
            }
            Entry::Fault { kind, at, .. } => {
                if is_ending(*kind) {
                    self.cpu.answer(Answer::Faulted(*kind));
                    self.ended = Some(Ending::Faulted {
                        kind: *kind,
                        at: *at,
                    });
                }
            }
            _ => {}
        }
    }
}

/// The ending of a board that has completed so many instructions, if that is its end.
fn ended_by(cpu: &PlainCpu, retired: u32, budget: u32) -> Option<Ending>
    ensures { option_map stop_of result ≡ ending_at (plain_wants (plain_of cpu.now)) budget retired }
{
    if let Want::Ended = cpu.want() {
        Some(Ending::Halted)
    } else if retired == budget {
        Some(Ending::Spent)
    } else {
        None
    }
}

/// Whether a fault ends its board. Any other leaves the access standing.
fn is_ending(kind: FaultKind) -> bool
    ensures { result ≡ is_ending kind }
{
    matches!(
        kind,
        FaultKind::Align | FaultKind::Unmapped | FaultKind::Protection
    )
}
