//! The parts of a new world: its memory, its frame table and its boards.

ghost use Rattle.std.specs.Prelude.{◌≡◌, ◌≢◌, ◌≤◌, ◌<◌, IfOk, length};
ghost use Rattle.std.specs.List.{All};
ghost use Rattle.spur_cpu.specs.declared.cpu.Want.TheVariants.{Ended};
ghost use Rattle.spur_snoop.specs.Size.{IsLineCount};
ghost use Rattle.spur_board.specs.Boards.{IsNew};
ghost use Rattle.spur_core.specs.Begin.{AreNewBoards, IsBeginning};
ghost use Rattle.spur_core.specs.Made.{AreParts};

use spur_addr::ROOT_FRAMES;
use spur_board::Board;
use spur_cache::CacheFault;
use spur_cpu::Cpu;
use spur_frames::FrameTable;
use spur_loader::Opening;
use spur_phys::Phys;
use std::alloc::{AllocError, Global};

/// What a new world is made of, but for its swap and its history.
#[derive(Drop)]
pub(crate) struct Parts<C> {
    /// The memory.
    pub(crate) phys: Phys,
    /// The frame table.
    pub(crate) frames: FrameTable,
    /// The boards.
    pub(crate) boards: Vec<Board<C>>,
}

/// Memory with the opening's words, which are moved and not copied, a table of free frames, and a board for each processor.
pub(crate) fn make_parts<C: Cpu>(
    alloc: Global,
    opening: Opening,
    cpus: Vec<C>,
) -> Result<Parts<C>, AllocError>
    requires { IsBeginning C.meaning C.state C.room opening cpus.items }
    ensures { IfOk result (AreParts opening cpus.items) }
{
    let options = opening.options;
    let boards = make_boards(
        alloc,
        opening.segs.as_slice(),
        options.lines,
        options.budget,
        cpus,
    )?;
    let frames = FrameTable::new(
        alloc,
        ROOT_FRAMES + opening.flat.tables,
        opening.flat.frames,
    )?;
    Ok(Parts {
        phys: Phys::from_words(opening.flat.words.into_vec()),
        frames,
        boards,
    })
}

/// A new board for each processor, with the number of its place.
fn make_boards<C: Cpu>(
    alloc: Global,
    segs: &[[u8; 4]],
    lines: u32,
    budget: u32,
    cpus: Vec<C>,
) -> Result<Vec<Board<C>>, AllocError>
    requires few { length cpus.items ≤ 12 }
    requires segs { length segs.now ≡ length cpus.items }
    requires lines { IsLineCount lines }
    requires budget { 1 ≤ budget }
    requires running { All (λ cpu. C.meaning.wants (C.state cpu) ≢ Ended) cpus.items }
    ensures { IfOk result (λ boards. AreNewBoards segs.now lines budget cpus.items boards.items) }
{
    let mut boards = Vec::new(alloc);
    let mut number = 0u32;
    for cpu in cpus {
        let board = make_board(alloc, number, cpu, segs[number as usize], lines, budget)?;
        boards.push(board)?;
        number += 1;
    }
    Ok(boards)
}

/// A new board. `AllocError` comes only for want of memory.
fn make_board<C: Cpu>(
    alloc: Global,
    number: u32,
    cpu: C,
    segs: [u8; 4],
    lines: u32,
    budget: u32,
) -> Result<Board<C>, AllocError>
    requires number { number < 12 }
    requires lines { IsLineCount lines }
    requires budget { 1 ≤ budget }
    requires running { C.meaning.wants (C.state cpu) ≢ Ended }
    ensures { IfOk result (IsNew number cpu segs lines budget) }
{
    match Board::new(alloc, number, cpu, segs, lines, budget) {
        Ok(board) => Ok(board),
        Err(CacheFault::NoMemory) => Err(AllocError),
        Err(CacheFault::BadLines(_)) => unreachable!(),
    }
}
