//! A direct-mapped cache.

ghost use Rattle.std.specs.Prelude.{◌≡◌, ◌≢◌, ◌<◌, ◌^◌, ◌↔◌, ◌⊎◌, Err, IfErr, IfOk, IsSome, None, Some, length, option_copied, replicate, slice_set, true};
ghost use Rattle.std.specs.Option.{option_map};
ghost use Rattle.spur_addr.specs.Address.{block_of, page_of};
ghost use Rattle.spur_cache.specs.Lines.{IsCache, IsHeld, IsSpan, dirtied, found, line_at, filled, in_live_state, page_lines_of, index_of, victim_of, with_dirty, with_line, with_state, with_word, word_in, written};
ghost use Rattle.spur_snoop.specs.Size.{IsLineCount};
ghost use Rattle.spur_cache.specs.declared.fault.CacheFault.TheVariants.{BadLines, NoMemory};
ghost use Rattle.spur_snoop.specs.declared.BlockState.TheVariants.{Invalid};

use crate::fault::CacheFault;
use crate::line::Line;
use arrayvec::ArrayVec;
use spur_addr::{GlobalAddr, PAGE_BLOCKS};
use spur_snoop::BlockState;
use std::alloc::Global;
use std::marker::Model;

/// The fewest lines that a cache may have.
const MIN_LINES: u32 = 16;

/// The most lines that a cache may have.
const MAX_LINES: u32 = 4096;

/// The lines of a direct-mapped cache, each on its place.
///
/// Contracts see the list of its places, 16 to 4096 and a power of two of them, with the valid line
/// that stands there or nothing. As in SPUR the place of a block is its number modulo the number of
/// lines, so a block is looked for at one place; the bounds on the number of lines are this project's
/// own choice.
#[derive(Debug, Drop)]
pub struct Cache {
    lines: Vec<Option<Line>>,
}

impl Model for Cache {
    ghost use Rattle.std.specs.Prelude.{List, Option};
    ghost use Rattle.spur_cache.specs.declared.line.Line.{Line};
    ghost use Rattle.spur_cache.specs.Lines.{IsCache};

    ghost Value = { List (Option Line) };

    ghost view = { λ a. a.lines.items };

    ghost invariant = { λ a. IsCache a.lines.items };
}

impl Cache {
    /// A cache of so many lines, none of them valid.
    ///
    /// The answer is `BadLines` with the number exactly where it is no power of two from 16 to 4096,
    /// and else `NoMemory` only for want of memory.
    pub fn new(alloc: Global, lines: u32) -> Result<Cache, CacheFault>
        ensures empty { IfOk result (λ cache. cache ≡ replicate lines None) }
        ensures bad_lines { (result ≡ Err (BadLines lines)) ↔ (IsLineCount lines → ⊥) }
        ensures faults { IfErr result (λ fault. (fault ≡ BadLines lines) ⊎ (fault ≡ NoMemory)) }
    {
        if !is_line_count(lines) {
            return Err(CacheFault::BadLines(lines));
        }
        let lines = vec![in alloc; None; lines as usize]?;
        Ok(Cache { lines })
    }

    /// How many lines there are: a power of two from 16 to 4096.
    pub fn lines(&self) -> u32
        ensures value { result ≡ length self.now }
        ensures cache { IsCache self.now }
    {
        self.lines.len() as u32
    }

    /// The line of the block of `at`; `None` exactly where the cache does not hold the block.
    pub fn find(&self, at: GlobalAddr) -> Option<&Line>
        ensures { option_copied result ≡ found self.now at }
    {
        match &self.lines[self.slot(at.block())] {
            Some(line) if line.tag == at.block() => Some(line),
            _ => None,
        }
    }

    /// The line that has to go before the block of `at` can come: one of another block that stands at
    /// its place.
    pub fn victim(&self, at: GlobalAddr) -> Option<&Line>
        ensures { option_copied result ≡ victim_of self.now at }
    {
        match &self.lines[self.slot(at.block())] {
            Some(line) if line.tag != at.block() => Some(line),
            _ => None,
        }
    }

    /// Puts a line in its place. What stood there is gone; an Invalid line leaves nothing there.
    ///
    /// The line's tag is a block's number, below 2^33.
    pub fn fill(&mut self, line: Line)
        requires tag { line.tag < 2 ^ 33 }
        ensures { self.new ≡ filled self.old line }
    {
        match line.state {
            BlockState::Invalid => self.clear(line.tag),
            BlockState::UnOwned | BlockState::OwnedNonExclusive | BlockState::OwnedExclusive => {
                self.put(line);
            }
        }
    }

    /// Changes the state of a block that the cache holds. `Invalid` drops it.
    pub fn set_state(&mut self, at: GlobalAddr, state: BlockState)
        requires { IsSome (found self.old at) }
        ensures { self.new ≡ with_state self.old at state }
    {
        if let BlockState::Invalid = state {
            self.drop_line(at);
        } else {
            let slot = self.slot(at.block());
            put_state(&mut self.lines[slot], state);
        }
    }

    /// Sets the dirty copy of a block that the cache holds.
    pub fn set_dirty(&mut self, at: GlobalAddr)
        requires { IsSome (found self.old at) }
        ensures { self.new ≡ with_dirty self.old at }
    {
        let slot = self.slot(at.block());
        put_dirty(&mut self.lines[slot]);
    }

    /// The word at `at`, of a block that the cache holds.
    pub fn word(&self, at: GlobalAddr) -> u32
        requires { IsSome (found self.now at) }
        ensures { result ≡ word_in (found self.now at) at }
    {
        self.held(at).words[at.word_in_block() as usize]
    }

    /// Writes the word at `at`, of a block that the cache holds.
    pub fn set_word(&mut self, at: GlobalAddr, value: u32)
        requires { IsSome (found self.old at) }
        ensures { self.new ≡ with_word self.old at value }
    {
        let slot = self.slot(at.block());
        put_word(&mut self.lines[slot], at.word_in_block(), value);
    }

    /// The numbers of the lines that hold a block of the page of `at`, ascending. A page has 128
    /// blocks, and at most 128 lines are looked at.
    pub fn lines_of_page(&self, at: GlobalAddr) -> ArrayVec<u16, 128>
        ensures { result.items ≡ page_lines_of self.now at }
    {
        let page = at.page();
        let (start, end) = self.span(page);
        let mut numbers = ArrayVec::new();
        for number in start..end {
            if let Some(line) = &self.lines[number] {
                if line.tag / PAGE_BLOCKS as u64 == page as u64 {
                    numbers.push(number as u16);
                }
            }
        }
        numbers
    }

    /// The line that stands at a place, which is below the number of lines; `None` exactly where no
    /// valid line does.
    pub fn line(&self, number: u16) -> Option<&Line>
        requires { number < length self.now }
        ensures { option_copied result ≡ line_at self.now number }
    {
        self.lines[number as usize].as_ref()
    }

    /// The line of a block that the cache holds.
    fn held(&self, at: GlobalAddr) -> &Line
        requires { IsSome (found self.now at) }
        ensures { found self.now at ≡ Some result.now }
    {
        match self.find(at) {
            Some(line) => line,
            None => unreachable!(),
        }
    }

    /// Puts a valid line in its place.
    fn put(&mut self, line: Line)
        requires valid { line.state ≢ Invalid }
        requires tag { line.tag < 2 ^ 33 }
        ensures { self.new ≡ with_line self.old line }
    {
        count_words(&line.words);
        let slot = self.slot(line.tag);
        self.lines[slot] = Some(line);
    }

    /// Leaves nothing at the place of the block with this number.
    fn clear(&mut self, block: u64)
        ensures { self.new ≡ slice_set self.old (index_of self.old block) None }
    {
        let slot = self.slot(block);
        self.lines[slot] = None;
    }

    /// Drops a block that the cache holds.
    fn drop_line(&mut self, at: GlobalAddr)
        requires { IsSome (found self.old at) }
        ensures { self.new ≡ with_state self.old at Invalid }
    {
        self.clear(at.block());
    }

    /// The place of the block with this number.
    fn slot(&self, block: u64) -> usize
        ensures value { result ≡ index_of self.now block }
        ensures within { result < length self.now }
        ensures cache { IsCache self.now }
    {
        (block & (self.lines.len() as u64 - 1)) as usize
    }

    /// Where lines of a page may stand: from the first number on, and before the second.
    ///
    /// The blocks of a page have 128 consecutive numbers, so their places are consecutive, too, where
    /// there are more than 128 lines.
    fn span(&self, page: u32) -> (usize, usize)
        requires { page < 2 ^ 26 }
        ensures { IsSpan self.now page result.0 result.1 }
    {
        let lines = self.lines() as usize;
        if lines <= PAGE_BLOCKS {
            (0, lines)
        } else {
            let start = page as usize * PAGE_BLOCKS % lines;
            (start, start + PAGE_BLOCKS)
        }
    }
}

/// Whether a cache may have so many lines.
fn is_line_count(lines: u32) -> bool
    ensures { (result ≡ true) ↔ IsLineCount lines }
{
    match lines {
        MIN_LINES..=MAX_LINES => lines.is_power_of_two(),
        _ => false,
    }
}

/// Changes the state of the line at a place, where there is one.
fn put_state(place: &mut Option<Line>, state: BlockState)
    ensures { place.new ≡ option_map (in_live_state state) place.old }
{
    if let Some(line) = place {
        line.state = state;
    }
}

/// Sets the dirty copy of the line at a place, where there is one.
fn put_dirty(place: &mut Option<Line>)
    ensures { place.new ≡ option_map dirtied place.old }
{
    if let Some(line) = place {
        line.dirty = true;
    }
}

/// Writes a word, counted from 0, of the line at a place, where there is one.
fn put_word(place: &mut Option<Line>, word: u32, value: u32)
    requires { word < 8 }
    ensures { place.new ≡ option_map (written word value) place.old }
{
    if let Some(line) = place {
        line.words[word as usize] = value;
    }
}

/// Tells the check that the words of a block are eight.
fn count_words(words: &[u32; 8])
    ensures { length words.now ≡ 8 }
{
    let _ = words;
}
