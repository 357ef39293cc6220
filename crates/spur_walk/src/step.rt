//! A planned step is done.

ghost use Rattle.std.specs.Prelude.{◌≡◌, ◌<◌, IsSome, length};
ghost use Rattle.spur_addr.specs.Address.{block_start_of};
ghost use Rattle.spur_cache.specs.Lens.{OnlyLines, caches};
ghost use Rattle.spur_flat.specs.declared.entry.Entry.TheVariants as entry;
ghost use Rattle.spur_bus.specs.Agrees.{Agrees, AgreesWithMemory};
ghost use Rattle.spur_bus.specs.Boards.{line_of_block};
ghost use Rattle.spur_bus.specs.Logical.{logical_of};
ghost use Rattle.spur_bus.specs.Calls.{MayRead, MovesTagsAs, line_count, read_caches};
ghost use Rattle.spur_walk.specs.Present.{MayWalk};
ghost use Rattle.spur_walk.specs.Steps.{MayTakeStep, Steps, answer_of, dirtied_in};

use crate::plan::Plan;
use spur_addr::GlobalAddr;
use spur_bus::{Place, claim, read_owned, read_shared, write_back};
use spur_cache::HasCache;
use spur_flat::{Entry, FaultKind, Layer};
use spur_phys::Phys;
use spur_snoop::Need;

/// The answer of one step.
#[derive(Clone, Copy, Debug, PartialEq, Eq)]
pub enum Walked {
    /// What is wanted can be done in the cache, and nothing was changed.
    Ready,
    /// One step was done, which made this entry of the history.
    Moved(Entry),
    /// The access has this fault, and nothing was changed.
    Fault(FaultKind),
}

/// Does a planned step of board `b` towards `at`.
pub(crate) fn perform<T: HasCache>(
    boards: &mut [T],
    phys: &mut Phys,
    b: u32,
    at: GlobalAddr,
    plan: Plan,
) -> Walked
    requires own { b < length boards.old }
    requires walk { MayWalk (caches T.lens boards.old) phys.old }
    requires may { MayTakeStep (caches T.lens boards.old) phys.old b at plan }
    ensures answer { result ≡ answer_of b at plan }
    ensures lens { OnlyLines T.lens boards.old boards.new }
    ensures steps { Steps (caches T.lens boards.old) phys.old b at plan (caches T.lens boards.new) phys.new }
{
    match plan {
        Plan::Ready => Walked::Ready,
        Plan::Fault(kind) => Walked::Fault(kind),
        Plan::Refresh => Walked::Moved(refresh(boards, b, at)),
        Plan::Claim => Walked::Moved(claim(boards, b, at)),
        Plan::WriteBack(block) => Walked::Moved(write_back(boards, phys, b, block)),
        Plan::Fill {
            layer,
            need,
            at: block,
            place,
        } => Walked::Moved(read(boards, phys, b, layer, need, block, place)),
    }
}

/// Sets the dirty copy of a block that the cache of board `b` has.
fn refresh<T: HasCache>(boards: &mut [T], b: u32, at: GlobalAddr) -> Entry
    requires own { b < length boards.old }
    requires there { IsSome (line_of_block (caches T.lens boards.old) b at) }
    ensures entry { result ≡ entry.Refresh b (block_start_of at) }
    ensures change { caches T.lens boards.new ≡ dirtied_in (caches T.lens boards.old) b at }
    ensures lens { OnlyLines T.lens boards.old boards.new }
{
    boards[b as usize].set_line_dirty(at);
    Entry::Refresh {
        board: b,
        at: at.block_start(),
    }
}

/// Reads a block that the cache of board `b` lacks, for a read or for a write.
fn read<T: HasCache>(
    boards: &mut [T],
    phys: &Phys,
    b: u32,
    layer: Layer,
    need: Need,
    at: GlobalAddr,
    place: Place,
) -> Entry
    requires own { b < length boards.old }
    requires agree { Agrees (caches T.lens boards.old) }
    requires serves { AgreesWithMemory (caches T.lens boards.old) phys.now }
    requires may { MayRead (caches T.lens boards.old) phys.now b at place.frame }
    ensures entry { result ≡ entry.Fill b layer need (block_start_of at) }
    ensures change { caches T.lens boards.new ≡ read_caches (caches T.lens boards.old) phys.now b need at place }
    ensures lens { OnlyLines T.lens boards.old boards.new }
    ensures agree { Agrees (caches T.lens boards.new) }
    ensures serves { AgreesWithMemory (caches T.lens boards.new) phys.now }
    ensures logical { logical_of T.lens boards.new phys.now ≡ logical_of T.lens boards.old phys.now }
    ensures lines { line_count (caches T.lens boards.new) ≡ line_count (caches T.lens boards.old) }
    ensures tags { MovesTagsAs (caches T.lens boards.old) (caches T.lens boards.new)
        result layer need (block_start_of at) place }
{
    match need {
        Need::Read => read_shared(boards, phys, b, at, layer, place),
        Need::Write => read_owned(boards, phys, b, at, layer, place),
    }
}
