//! A world begins.

use crate::fill::fill_swap;
use crate::make::make_parts;
use crate::world::{Beginning, World};
use spur_cpu::Cpu;
use spur_flat::History;
use spur_io::Failed;
use spur_loader::Opening;
use spur_pager::Store;
use spur_swap::{Backing, PrepareFault};
use std::alloc::Global;
use std::snapshot::Snapshot;
use thiserror::Error;

/// Why a world did not begin.
#[derive(Clone, Copy, Debug, PartialEq, Eq, Error)]
pub enum BeginFault {
    /// The swap failed.
    #[error("the swap cannot be filled")]
    Swap,
    /// Want of memory.
    #[error("out of memory")]
    NoMemory,
}

/// A swap object that was not prepared.
impl From<PrepareFault> for BeginFault {
    ghost use Rattle.std.specs.Prelude.{◌≡◌};
    ghost use Rattle.spur_core.specs.Filled.{begin_fault};

    ghost from_gives = { λ why fault. fault ≡ begin_fault why };

    fn from(why: PrepareFault) -> BeginFault {
        match why {
            PrepareFault::Failed => BeginFault::Swap,
            PrepareFault::NoMemory => BeginFault::NoMemory,
        }
    }
}

/// A write of a page that failed.
impl From<Failed> for BeginFault {
    ghost use Rattle.std.specs.Prelude.{◌≡◌};
    ghost use Rattle.spur_core.specs.declared.begin.BeginFault.TheVariants as fault_is;

    ghost from_gives = { λ _ fault. fault ≡ fault_is.Swap };

    fn from(_: Failed) -> BeginFault {
        BeginFault::Swap
    }
}

/// A world that did not begin; the swap object is handed back.
#[derive(Drop)]
pub struct BeginRefused<B> {
    /// Why it did not begin.
    pub fault: BeginFault,
    /// The swap object, some of whose pages may have been written.
    pub backing: B,
}

impl<C: Cpu, B: Backing> World<C, B> {
    ghost use Rattle.std.specs.Prelude.{◌≡◌, ◌<◌, ◌≤◌, IfErr, IfOk, length};
    ghost use Rattle.spur_swap.specs.Meaning.{SameButFaults};
    ghost use Rattle.spur_core.specs.Begin.{AreNewBoards, IsBeginning, IsNewStore, KeepsBeginning};
    ghost use Rattle.spur_core.specs.Boards.{LogsAreEmpty};
    ghost use Rattle.spur_core.specs.Filled.{filled_with};
    ghost use Rattle.spur_core.specs.World.{IsGoodWorld};
    ghost use Rattle.spur_core.specs.declared.begin.BeginFault.TheVariants as fault_is;

    /// The world of an opening, with a processor for each board, and a swap object.
    ///
    /// The swap gets one slot for each declared page, in the place of all that it had, and the pages that are not all zeros
    /// are written into it, in slot order; none is read. Memory is moved and not copied, all caches, logs and frames are
    /// empty, and so is the history.
    ///
    /// The refusal `Swap` comes only where the swap's count of faults rose in this call, and `NoMemory` only for want of
    /// memory. A refusal hands the swap object back and drops the rest. The time is nearly linear in the words of the pages
    /// and the lines of the caches.
    pub fn begin(
        alloc: Global,
        opening: Opening,
        cpus: Vec<C>,
        backing: B,
    ) -> Result<World<C, B>, BeginRefused<B>>
        requires { IsBeginning C.meaning C.state C.room opening cpus.items }
        ensures good { IfOk result (IsGoodWorld C.meaning C.state C.room B.meaning) }
        ensures beginning { IfOk result (λ w. KeepsBeginning opening cpus.items w.store.backing w.beginning) }
        ensures store { IfOk result (λ w. IsNewStore opening w.store) }
        ensures boards { IfOk result (λ w. AreNewBoards opening.segs opening.options.lines opening.options.budget
            cpus.items w.boards.items) }
        ensures empty { IfOk result (λ w. LogsAreEmpty w.boards.items) }
        ensures filled { IfOk result (λ w. SameButFaults
            (filled_with (B.meaning backing) (length opening.flat.pages) opening.flat.swap) (B.meaning w.store.backing)) }
        ensures later { IfOk result (λ w. (B.meaning backing).faults ≤ (B.meaning w.store.backing).faults) }

        ensures unread { IfErr result (λ r. (B.meaning r.backing).reads ≡ (B.meaning backing).reads) }
        ensures cause { IfErr result (λ r. r.fault ≡ fault_is.Swap
            → (B.meaning backing).faults < (B.meaning r.backing).faults) }
    {
        let mut backing = backing;
        let slots = opening.flat.pages.len() as u32;
        if let Err(fault) = fill_swap(&mut backing, slots, opening.flat.swap.as_slice()) {
            return Err(BeginRefused { fault, backing });
        }
        let beginning = Beginning {
            opening: Snapshot::of(&opening),
            cpus: Snapshot::of(&cpus),
            backing: Snapshot::of(&backing),
        };
        let ahead = opening.options.ahead;
        match make_parts(alloc, opening, cpus) {
            Ok(parts) => {
                let store = Store {
                    phys: parts.phys,
                    frames: parts.frames,
                    backing,
                    history: History::new(alloc),
                    ahead,
                };
                Ok(World {
                    store,
                    boards: parts.boards,
                    beginning,
                })
            }
            Err(_) => Err(BeginRefused {
                fault: BeginFault::NoMemory,
                backing,
            }),
        }
    }
}
