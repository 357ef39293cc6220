//! From a unit and options to the opening.

ghost use Rattle.std.specs.Prelude.{◌≡◌, ◌+◌, ◌≤◌, IfOk, IfErr, None, length, map};
ghost use Rattle.std.specs.List.{All};
ghost use Rattle.spur_flat.specs.Validity.{IsValidFlat};
ghost use Rattle.spur_object.specs.Limits.{IsPage, IsUnit};
ghost use Rattle.spur_loader.specs.Faults.{IsFault, load_fault_of};
ghost use Rattle.spur_loader.specs.Limits.{IsOptions};
ghost use Rattle.spur_loader.specs.Opening.{IsNothingResident, opening_flat, opening_of, page_numbers};
ghost use Rattle.spur_loader.specs.Parts.{ArePageTables, AreRoots, HoldsPages};

use crate::fault::LoadFault;
use crate::opening::{Opening, Options};
use crate::segment::names_table_segment;
use crate::tables::{enter_pages, needed_roots, root_table, swap_slots};
use spur_addr::{PAGE_WORDS, ROOT_FRAMES};
use spur_flat::Flat;
use spur_isa::Instr;
use spur_list::Items;
use spur_object::{BoardText, PageText, Unit};
use std::alloc::{AllocError, Global};

/// How many frames there may be in all.
const MAX_FRAMES: u32 = 4096;

/// The opening of a unit with these options: with what a run begins.
///
/// The root table stands in the frames 0 to 63, and behind it a page of the page table for each root entry that a
/// declared page needs, in ascending order. Then come the data frames, as many as the options say, which are empty. Each
/// declared page is in the swap slot of its line's number, which holds its words: of the lines that name a place the last
/// one counts, and a place that no line names is zero. No page is in a frame.
///
/// All of this is the project's own profile. The error is the first fault that applies, in the order of `LoadFault`, or
/// want of memory. The root entries that the pages need are sorted, and each page and word is looked up by a search among
/// them and one read of the page table, so that nothing is scanned for each word.
pub fn load(alloc: Global, unit: &Unit, options: &Options) -> Result<Opening, LoadFault>
    requires unit { IsUnit unit.now }
    requires options { IsOptions options.now }
    ensures opening { IfOk result (λ opening. opening ≡ opening_of unit.now options.now) }
    ensures valid { IfOk result (λ opening. IsValidFlat opening.flat) }
    ensures absent { IfOk result (λ opening. IsNothingResident opening.flat) }
    ensures accepted { IfOk result (λ opening. load_fault_of unit.now options.now ≡ None) }
    ensures refused { IfErr result (IsFault (load_fault_of unit.now options.now)) }
{
    if names_table_segment(unit) {
        return Err(LoadFault::Segment255);
    }
    let pages = unit.pages.as_slice();
    let roots = needed_roots(alloc, pages)?;
    let wanted = ROOT_FRAMES + roots.len() as u32 + options.frames;
    let mut memory = root_table(alloc, &roots, wanted)?;
    enter_pages(&mut memory, &roots, pages)?;
    let swap = swap_slots(alloc, &roots, &memory, pages, unit.words.as_slice())?;
    if wanted > MAX_FRAMES {
        return Err(LoadFault::NoRoom(wanted));
    }
    let flat = flat(alloc, &roots, memory, swap, unit, options)?;
    let boards = unit.boards.as_slice();
    let segs = registers(alloc, boards)?;
    let code = codes(alloc, boards)?;
    Ok(Opening {
        flat,
        segs: Items::from_vec(segs),
        code: Items::from_vec(code),
        options: *options,
    })
}

/// The flat memory: the tables with empty data frames behind them, and the swap slots.
fn flat(
    alloc: Global,
    roots: &[u32],
    mut memory: Vec<u32>,
    swap: Vec<u32>,
    unit: &Unit,
    options: &Options,
) -> Result<Flat, AllocError>
    requires pages { All IsPage unit.now.pages }
    requires needed { AreRoots unit.now.pages roots.now }
    requires few { 64 + length roots.now + options.now.frames ≤ 4096 }
    requires tables { ArePageTables roots.now unit.now.pages memory.items }
    requires swap { HoldsPages unit.now.pages unit.now.words swap.items }
    ensures { IfOk result (λ flat. flat ≡ opening_flat unit.now options.now) }
{
    memory.resize(memory.len() + options.frames as usize * PAGE_WORDS, 0)?;
    Ok(Flat {
        words: Items::from_vec(memory),
        swap: Items::from_vec(swap),
        pages: Items::from_vec(numbers(alloc, unit.pages.as_slice())?),
        tables: roots.len() as u32,
        frames: options.frames,
    })
}

/// The numbers of the pages.
fn numbers(alloc: Global, pages: &[PageText]) -> Result<Vec<u32>, AllocError>
    ensures { IfOk result (λ numbers. numbers.items ≡ page_numbers pages.now) }
{
    pages.iter().map(|page| page.page).collect(alloc)
}

/// The segment registers of each board.
fn registers(alloc: Global, boards: &[BoardText]) -> Result<Vec<[u8; 4]>, AllocError>
    ensures { IfOk result (λ segs. segs.items ≡ map (λ board. board.segs) boards.now) }
{
    let mut registers = Vec::with_capacity(alloc, boards.len())?;
    for board in boards {
        registers.push(board.segs)?;
    }
    Ok(registers)
}

/// The code of each board.
fn codes(alloc: Global, boards: &[BoardText]) -> Result<Vec<Items<Instr>>, AllocError>
    ensures { IfOk result (λ codes. codes.items ≡ map (λ board. board.code) boards.now) }
{
    let mut codes = Vec::with_capacity(alloc, boards.len())?;
    for board in boards {
        codes.push(Items::from_vec(board.code.as_slice().to_vec(alloc)?))?;
    }
    Ok(codes)
}
