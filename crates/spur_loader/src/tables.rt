//! The parts of an opening's memory: the root table, the page table, and the swap slots.

ghost use Rattle.std.specs.Prelude.{◌≡◌, ◌+◌, ◌*◌, ◌/◌, ◌%◌, ◌^◌, ◌<◌, ◌≤◌, IfOk, IfErr, OnOk, IsTrue, None, Some, length};
ghost use Rattle.std.specs.List.{All, Contains};
ghost use Rattle.std.specs.List.Sorted.{IsStrictlyIncreasing};
ghost use Rattle.spur_addr.specs.Address.{page_address};
ghost use Rattle.spur_addr.specs.PageEntry.{is_readable};
ghost use Rattle.spur_object.specs.Limits.{IsPage, IsWord};
ghost use Rattle.spur_loader.specs.Opening.{first_entry_of, root_entry_of};
ghost use Rattle.spur_loader.specs.Faults.{IsFault, again_fault, outside_fault};
ghost use Rattle.spur_loader.specs.Parts.{ArePageTables, AreRoots, AreZeros, HoldsPages, IsEntryPlace, IsRootTable, found_slot, slot_in_entry};

use crate::fault::LoadFault;
use spur_addr::{GlobalAddr, PAGE_WORDS, Protection, Pte, ROOT_FRAMES};
use spur_object::{PageText, WordText};
use std::alloc::{AllocError, Global};

/// How many pages have their entries in one page of the page table: the pages of one root entry.
const PAGES_PER_ROOT_ENTRY: u32 = 1024;

/// How many bytes a page has.
const PAGE_BYTES: u64 = 4096;

/// The root entries that the pages need, each once and in ascending order.
pub(crate) fn needed_roots(alloc: Global, pages: &[PageText]) -> Result<Vec<u32>, AllocError>
    ensures needed { IfOk result (λ roots. AreRoots pages.now roots.items) }
    ensures few { IfOk result (λ roots. length roots.items ≤ length pages.now) }
{
    let mut roots: Vec<u32> = pages
        .iter()
        .map(|page| page.page / PAGES_PER_ROOT_ENTRY)
        .collect(alloc)?;
    roots.sort_unstable();
    roots.dedup();
    Ok(roots)
}

/// The words of the root table and of the pages of the page table: the needed root entries name these pages, which are
/// empty, and all others are zero. There is room for the words of `frames` frames.
pub(crate) fn root_table(alloc: Global, roots: &[u32], frames: u32) -> Result<Vec<u32>, AllocError>
    requires ascending { IsStrictlyIncreasing roots.now }
    requires within { All (λ r. r < 65536) roots.now }
    requires few { length roots.now ≤ 2048 }
    ensures { IfOk result (λ words. IsRootTable roots.now words.items) }
{
    let count = entry_frame(roots.len()) * PAGE_WORDS;
    let mut words = zeros(alloc, count, frames as usize * PAGE_WORDS)?;
    for (table, root) in roots.iter().enumerate() {
        words[*root as usize] = root_entry(entry_frame(table));
    }
    Ok(words)
}

/// Enters the pages into the page table, whose words stand behind those of the root table and are zero at first: the
/// entry of each page names its swap slot.
///
/// The error is the first page that is declared again. Then some of the pages were entered.
pub(crate) fn enter_pages(
    words: &mut [u32],
    roots: &[u32],
    pages: &[PageText],
) -> Result<(), LoadFault>
    requires pages { All IsPage pages.now }
    requires few { length pages.now ≤ 2048 }
    requires needed { AreRoots pages.now roots.now }
    requires few_roots { length roots.now ≤ length pages.now }
    requires empty { IsRootTable roots.now words.old }
    ensures entered { OnOk result (ArePageTables roots.now pages.now words.new) }
    ensures once { OnOk result (again_fault pages.now ≡ None) }
    ensures again { IfErr result (λ fault. again_fault pages.now ≡ Some fault) }
{
    for (slot, page) in pages.iter().enumerate() {
        let place = entry_place(roots, page.page);
        if words[place] != 0 {
            return Err(LoadFault::PageTwice(first_byte(page.page)));
        }
        words[place] = first_entry(slot, page);
    }
    Ok(())
}

/// The words of the swap slots, in the order of the pages' lines: what the words' lines say, and else zero.
///
/// The error is the first word whose page is not declared, or want of memory.
pub(crate) fn swap_slots(
    alloc: Global,
    roots: &[u32],
    tables: &[u32],
    pages: &[PageText],
    words: &[WordText],
) -> Result<Vec<u32>, LoadFault>
    requires few { length pages.now ≤ 2048 }
    requires once { again_fault pages.now ≡ None }
    requires words { All IsWord words.now }
    requires needed { AreRoots pages.now roots.now }
    requires few_roots { length roots.now ≤ length pages.now }
    requires tables { ArePageTables roots.now pages.now tables.now }
    ensures held { IfOk result (λ held. HoldsPages pages.now words.now held.items) }
    ensures inside { IfOk result (λ held. outside_fault pages.now words.now ≡ None) }
    ensures outside { IfErr result (IsFault (outside_fault pages.now words.now)) }
{
    let count = pages.len() * PAGE_WORDS;
    let mut held = zeros(alloc, count, count)?;
    for word in words {
        let Some(slot) = slot_of_page(roots, tables, word.at.page()) else {
            return Err(LoadFault::WordOutside(word.at));
        };
        held[slot * PAGE_WORDS + place_in_page(word.at)] = word.value;
    }
    Ok(held)
}

/// So many words, all zero, with room for `room` words in all.
fn zeros(alloc: Global, count: usize, room: usize) -> Result<Vec<u32>, AllocError>
    ensures { IfOk result (λ words. AreZeros count words.items) }
{
    let mut words = Vec::with_capacity(alloc, room)?;
    words.resize(count, 0)?;
    Ok(words)
}

/// The frame of the page of the page table with this position, from 0.
fn entry_frame(table: usize) -> usize
    requires { table ≤ 2048 }
    ensures { result ≡ 64 + table }
{
    ROOT_FRAMES as usize + table
}

/// The place of a page's entry in memory. The page's root entry is one of those that are needed.
fn entry_place(roots: &[u32], page: u32) -> usize
    requires ascending { IsStrictlyIncreasing roots.now }
    requires needed { Contains roots.now (page / 1024) }
    requires few { length roots.now ≤ 2048 }
    ensures { IsEntryPlace roots.now page result }
{
    match roots.binary_search(&(page / PAGES_PER_ROOT_ENTRY)) {
        Ok(table) => place_in_table(table, page),
        Err(_) => unreachable!(),
    }
}

/// The place in memory of a page's entry, in the page of the page table with this position.
fn place_in_table(table: usize, page: u32) -> usize
    requires { table ≤ 2048 }
    ensures { result ≡ (64 + table) * 1024 + page % 1024 }
{
    entry_frame(table) * PAGE_WORDS + (page % PAGES_PER_ROOT_ENTRY) as usize
}

/// The swap slot that the tables give a page; `None` where they give none.
fn slot_of_page(roots: &[u32], tables: &[u32], page: u32) -> Option<usize>
    requires ascending { IsStrictlyIncreasing roots.now }
    requires few { length roots.now ≤ 2048 }
    requires size { length tables.now ≡ 1024 * (64 + length roots.now) }
    requires readable { All (λ e. IsTrue (is_readable e)) tables.now }
    ensures { result ≡ found_slot roots.now tables.now page }
{
    let Ok(table) = roots.binary_search(&(page / PAGES_PER_ROOT_ENTRY)) else {
        return None;
    };
    slot_in(tables[place_in_table(table, page)])
}

/// The swap slot that an entry names; `None` where it names none.
fn slot_in(entry: u32) -> Option<usize>
    requires { IsTrue (is_readable entry) }
    ensures { result ≡ slot_in_entry entry }
{
    let Ok(entry) = Pte::read(entry) else {
        unreachable!();
    };
    if entry.on_swap() {
        Some(entry.number() as usize)
    } else {
        None
    }
}

/// The word of the entry of a page of the page table in this frame.
fn root_entry(frame: usize) -> u32
    requires { frame < 2 ^ 20 }
    ensures { result ≡ root_entry_of frame }
{
    Pte::resident(frame as u32, Protection::ReadWrite)
        .with_dirty(true)
        .word()
}

/// The word of the entry with which a declared page begins.
fn first_entry(slot: usize, page: &PageText) -> u32
    requires { slot < 2 ^ 20 }
    ensures { result ≡ first_entry_of slot page.now }
{
    Pte::swapped(slot as u32, page.prot).word()
}

/// The address of the first byte of the page with this number.
fn first_byte(page: u32) -> GlobalAddr
    requires { page < 2 ^ 26 }
    ensures { result ≡ page_address page }
{
    let Some(at) = GlobalAddr::of(page as u64 * PAGE_BYTES) else {
        unreachable!();
    };
    at
}

/// The place of a word among the words of its page.
fn place_in_page(at: GlobalAddr) -> usize
    ensures { result ≡ at / 4 % 1024 }
{
    (at.number() / 4) as usize % PAGE_WORDS
}
