//! Worlds that begin with a text, and tables of calls on them.

ghost use Rattle.std.specs.Prelude.{◌≡◌, IfOk};
ghost use Rattle.spur_core.specs.Boards.{LogsAreEmpty};
ghost use Rattle.spur_core.specs.Loaded.{AreAtBeginning};
ghost use Rattle.spur_core.specs.World.{IsGoodWorld};
ghost use Rattle.spur_cpu.specs.Plain.{plain};
ghost use Rattle.spur_cpu.specs.PlainCpus.{plain_of, room_of};
ghost use Rattle.spur_loader.specs.Limits.{IsOptions};

use crate::lines::{Line, line_of};
use spur_addr::{GlobalAddr, Protection};
use spur_asm::assemble;
use spur_board::{Board, Ending, Turn};
use spur_core::World;
use spur_cpu::PlainCpu;
use spur_flat::Entry;
use spur_isa::Instr;
use spur_list::Items;
use spur_loader::{Options, load};
use spur_phys::Phys;
use spur_snoop::BlockState;
use spur_swap::Backing;
use std::alloc::{AllocError, Global};
use std::test::Fail;

/// A call on a world.
pub(crate) enum Call {
    /// An own turn of a board, of at most so many instructions, and its answer.
    Own(u32, u32, Turn),
    /// A turn of a board on the bus.
    Bus(u32),
    /// The logs are merged.
    Merge,
}

/// What a cache line says of its block, but for the words: the block's state, its page's frame, and the copies of the page's
/// protection and of its dirty bit.
#[derive(Clone, Copy, Debug, PartialEq, Eq)]
pub(crate) struct Tag {
    pub(crate) state: BlockState,
    pub(crate) frame: u32,
    pub(crate) prot: Protection,
    pub(crate) dirty: bool,
}

/// What a board's cache has of the block of a global byte address. The board's number stands first, and then the address.
pub(crate) enum Cached {
    /// No line.
    None(u32, u64),
    /// A line with this tag, whose word at the address is this one.
    Line(u32, u64, Tag, u32),
}

/// Whether a board has ended, and by what.
#[derive(Clone, Copy, Debug, PartialEq, Eq)]
pub(crate) enum Course {
    /// It has not ended.
    Going,
    /// By a `halt`.
    Halted,
    /// By the swap.
    BySwap,
}

/// How a world of two boards stands, as far as a table looks at it.
pub(crate) struct Stand {
    /// How many instructions each board has completed, and whether it has ended.
    pub(crate) boards: [(u32, Course); 2],
    /// What the caches have.
    pub(crate) caches: &'static [Cached],
    /// Words of the memory, each behind its number.
    pub(crate) words: &'static [(u32, u32)],
}

/// A call, the entries by which the history grows, each behind its board's number, and how the world stands then.
pub(crate) struct Step {
    pub(crate) call: Call,
    pub(crate) entries: &'static [(u32, Line)],
    pub(crate) stand: Stand,
}

/// One data frame, 16 cache lines, and 5000 instructions a board, which fill a log more than once.
fn options() -> Options
    ensures { IsOptions result }
{
    Options {
        frames: 1,
        lines: 16,
        budget: 5000,
        ahead: 0,
    }
}

/// A processor at the beginning of each code, with room for as many shown values as the budget has instructions.
fn processors(
    alloc: Global,
    codes: &[Items<Instr>],
    budget: u32,
) -> Result<Vec<PlainCpu>, AllocError>
    ensures { IfOk result (λ cpus. AreAtBeginning codes.now budget cpus.items) }
{
    let mut cpus = Vec::new(alloc);
    for code in codes {
        let code = Items::from_vec(code.as_slice().to_vec(alloc)?);
        cpus.push(PlainCpu::new(alloc, code, budget)?)?;
    }
    Ok(cpus)
}

/// The world that begins with a text: with one data frame, caches of 16 lines, and this swap object.
pub(crate) fn world_of<B: Backing + Drop>(
    alloc: Global,
    text: &[u8],
    backing: B,
) -> Result<World<PlainCpu, B>, Fail>
    ensures good { IfOk result (IsGoodWorld plain plain_of room_of B.meaning) }
    ensures empty { IfOk result (λ world. LogsAreEmpty world.boards.items) }
{
    world_under(alloc, text, options(), backing)
}

/// The world that begins with a text, under these options, with this swap object.
pub(crate) fn world_under<B: Backing + Drop>(
    alloc: Global,
    text: &[u8],
    options: Options,
    backing: B,
) -> Result<World<PlainCpu, B>, Fail>
    requires { IsOptions options }
    ensures good { IfOk result (IsGoodWorld plain plain_of room_of B.meaning) }
    ensures empty { IfOk result (λ world. LogsAreEmpty world.boards.items) }
{
    if text.len() > 1_048_576 {
        return Err(Fail::from("a text that is no longer than the program takes"));
    }
    let unit = assemble(alloc, text)?;
    let opening = load(alloc, &unit, &options)?;
    let cpus = processors(alloc, opening.code.as_slice(), options.budget)?;
    match World::begin(alloc, opening, cpus, backing) {
        Ok(world) => Ok(world),
        Err(_) => Err(Fail::from("a world")),
    }
}

/// Makes a call, of a board that is there. Whether it answers as the table says.
fn make<B: Backing>(world: &mut World<PlainCpu, B>, call: &Call) -> Result<bool, AllocError>
    requires good { IsGoodWorld plain plain_of room_of B.meaning world.old }
    ensures good { IsGoodWorld plain plain_of room_of B.meaning world.new }
{
    let count = world.boards.len();
    match call {
        Call::Own(board, at_most, answer) => {
            if *board as usize >= count {
                return Ok(false);
            }
            Ok(world.own(*board, *at_most) == *answer)
        }
        Call::Bus(board) => {
            if *board as usize >= count {
                return Ok(false);
            }
            world.bus_turn(*board)?;
            Ok(true)
        }
        Call::Merge => {
            world.merge()?;
            Ok(true)
        }
    }
}

/// The place of the first step of a table after which the history has not grown, or the world does not stand, as it says.
pub(crate) fn first_wrong<B: Backing>(
    world: &mut World<PlainCpu, B>,
    steps: &[Step],
) -> Result<Option<usize>, AllocError>
    requires good { IsGoodWorld plain plain_of room_of B.meaning world.old }
    ensures good { IsGoodWorld plain plain_of room_of B.meaning world.new }
{
    for (i, step) in steps.iter().enumerate() {
        let before = world.history().len();
        let answered = make(world, &step.call)?;
        if !answered
            || !has_grown(world.history(), before, step.entries)
            || !stands(world, &step.stand)
        {
            return Ok(Some(i));
        }
    }
    Ok(None)
}

/// Merges what stands in the logs, and ends the run: all caches are written back to memory, and have no line.
pub(crate) fn finish<B: Backing>(world: &mut World<PlainCpu, B>) -> Result<(), AllocError>
    requires good { IsGoodWorld plain plain_of room_of B.meaning world.old }
{
    world.merge()?;
    world.finish();
    Ok(())
}

/// Whether a history has these entries behind so many, and no more.
pub(crate) fn has_grown(history: &[Entry], before: usize, lines: &[(u32, Line)]) -> bool {
    if history.len() < before {
        return false;
    }
    let new = &history[before..];
    new.len() == lines.len()
        && new
            .iter()
            .zip(lines.iter())
            .all(|(entry, row)| line_of(entry, row.0) == Some(row.1))
}

/// Whether a world of two boards stands so.
pub(crate) fn stands<B>(world: &World<PlainCpu, B>, stand: &Stand) -> bool {
    let [first, second] = world.boards.as_slice() else {
        return false;
    };
    has_come(first, stand.boards[0])
        && has_come(second, stand.boards[1])
        && stand.caches.iter().all(|row| is_cached(&world.boards, row))
        && stand
            .words
            .iter()
            .all(|row| word_at(&world.store.phys, row.0) == Some(row.1))
}

/// Whether a board has completed so many instructions, and has not ended or has ended so.
fn has_come(board: &Board<PlainCpu>, row: (u32, Course)) -> bool {
    let course = match board.ended {
        None => Course::Going,
        Some(Ending::Halted) => Course::Halted,
        Some(Ending::SwapFault) => Course::BySwap,
        Some(_) => return false,
    };
    (board.retired, course) == row
}

/// The word of a memory with this number, if there is one.
fn word_at(phys: &Phys, number: u32) -> Option<u32> {
    if (number as u64) < phys.frames() as u64 * 1024 {
        Some(phys.word(number))
    } else {
        None
    }
}

/// Whether a board's cache has what a table says.
fn is_cached(boards: &[Board<PlainCpu>], row: &Cached) -> bool {
    let (number, at) = match row {
        Cached::None(number, at) => (*number, *at),
        Cached::Line(number, at, _, _) => (*number, *at),
    };
    let (Some(board), Some(at)) = (boards.get(number as usize), GlobalAddr::of(at)) else {
        return false;
    };
    match (board.cache.find(at), row) {
        (None, Cached::None(_, _)) => true,
        (Some(line), Cached::Line(_, _, tag, word)) => {
            let found = Tag {
                state: line.state,
                frame: line.frame,
                prot: line.prot,
                dirty: line.dirty,
            };
            found == *tag && line.words[at.word_in_block() as usize] == *word
        }
        _ => false,
    }
}
