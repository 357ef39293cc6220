//! Words of memory in frames.

ghost use Rattle.std.specs.Prelude.{◌≡◌, ◌+◌, ◌*◌, ◌/◌, ◌<◌, ◌≤◌, IfOk, length, replicate, slice_index, slice_set};
ghost use Rattle.spur_addr.specs.Pages.{page_at, with_page};
ghost use Rattle.spur_list.specs.Parts.{with_part};
ghost use Rattle.spur_phys.specs.Blocks.{block_at, block_place, with_block};
ghost use Rattle.spur_phys.specs.Memory.{IsMemory};

use spur_addr::{BLOCK_WORDS, GlobalAddr, PAGE_BLOCKS, PAGE_WORDS};
use std::alloc::{AllocError, Global};
use std::marker::Model;

/// A physical memory of 1 to 4096 frames.
///
/// Contracts see the list of its words, in the order of their numbers. A frame is
/// 1024 words, and frame `f` starts at word `1024 * f`. The sizes of a page and a block are SPUR's;
/// the bound of 4096 frames is this project's own choice.
#[derive(Debug, Drop)]
pub struct Phys {
    words: Vec<u32>,
}

impl Model for Phys {
    ghost use Rattle.std.specs.Prelude.{List, ℕ};
    ghost use Rattle.spur_phys.specs.Memory.{IsMemory};

    ghost Value = { List ℕ };

    ghost view = { λ a. a.words.items };

    ghost invariant = { λ a. IsMemory a.words.items };
}

impl Phys {
    /// A memory of so many frames, all of its words zero. The answer is `AllocError` only for want of
    /// memory.
    pub fn new(alloc: Global, frames: u32) -> Result<Phys, AllocError>
        requires some_frames { 1 ≤ frames }
        requires few_frames { frames ≤ 4096 }
        ensures { IfOk result (λ phys. phys ≡ replicate (1024 * frames) 0) }
    {
        let words = vec![in alloc; 0u32; frames as usize * PAGE_WORDS]?;
        Ok(Phys { words })
    }

    /// A memory of these words, which are moved and not copied: whole frames, from 1 to 4096 of them.
    pub fn from_words(words: Vec<u32>) -> Phys
        requires { IsMemory words.items }
        ensures { result ≡ words.items }
    {
        Phys { words }
    }

    /// How many frames there are, from 1 to 4096.
    pub fn frames(&self) -> u32
        ensures value { result ≡ length self.now / 1024 }
        ensures whole { 1024 * result ≡ length self.now }
        ensures memory { IsMemory self.now }
    {
        (self.words.len() / PAGE_WORDS) as u32
    }

    /// The word with this number.
    pub fn word(&self, place: u32) -> u32
        requires { place < length self.now }
        ensures { result ≡ slice_index self.now place }
    {
        self.words[place as usize]
    }

    /// Makes the word with this number `value`, and leaves all others.
    pub fn set_word(&mut self, place: u32, value: u32)
        requires { place < length self.old }
        ensures { self.new ≡ slice_set self.old place value }
    {
        self.words[place as usize] = value;
    }

    /// The eight words that the block of `at` has in a frame.
    pub fn read_block(&self, frame: u32, at: GlobalAddr) -> [u32; 8]
        requires { frame * 1024 + 1024 ≤ length self.now }
        ensures { result ≡ block_at self.now (block_place frame at) }
    {
        let place = block_start(frame, at);
        let mut words = [0; BLOCK_WORDS];
        words.copy_from_slice(&self.words[place..place + BLOCK_WORDS]);
        words
    }

    /// Puts the eight words of the block of `at` into a frame, and leaves all other words.
    pub fn write_block(&mut self, frame: u32, at: GlobalAddr, words: &[u32; 8])
        requires { frame * 1024 + 1024 ≤ length self.old }
        ensures { self.new ≡ with_block self.old (block_place frame at) words.now }
    {
        put_block(&mut self.words, block_start(frame, at), words);
    }

    /// Copies the words of a frame into `into`.
    pub fn read_page(&self, frame: u32, into: &mut [u32; 1024])
        requires { frame * 1024 + 1024 ≤ length self.now }
        ensures { into.new ≡ page_at self.now frame }
    {
        let place = frame as usize * PAGE_WORDS;
        into.copy_from_slice(&self.words[place..place + PAGE_WORDS]);
    }

    /// Makes the words of a frame those of `from`, and leaves all others.
    pub fn write_page(&mut self, frame: u32, from: &[u32; 1024])
        requires { frame * 1024 + 1024 ≤ length self.old }
        ensures { self.new ≡ with_page self.old frame from.now }
    {
        put_page(&mut self.words, frame as usize * PAGE_WORDS, from);
    }

    /// The words of all frames, moved and not copied.
    pub fn into_words(self) -> Vec<u32>
        ensures { result.items ≡ self }
    {
        self.words
    }
}

/// The word at which the block of an address starts in a frame.
fn block_start(frame: u32, at: GlobalAddr) -> usize
    ensures value { result ≡ block_place frame at }
    ensures within { result + 8 ≤ frame * 1024 + 1024 }
{
    frame as usize * PAGE_WORDS + (at.block() % PAGE_BLOCKS as u64) as usize * BLOCK_WORDS
}

/// Puts the words of a block into memory from word `place` on.
fn put_block(memory: &mut [u32], place: usize, words: &[u32; 8])
    requires { place + 8 ≤ length memory.old }
    ensures { memory.new ≡ with_block memory.old place words.now }
{
    for k in 0..BLOCK_WORDS {
        memory[place + k] = words[k];
    }
}

/// Puts the words of a page into memory from word `place` on.
fn put_page(memory: &mut [u32], place: usize, words: &[u32; 1024])
    requires { place + 1024 ≤ length memory.old }
    ensures { memory.new ≡ with_part memory.old place words.now 1024 }
{
    memory[place..place + PAGE_WORDS].copy_from_slice(words);
}

#[cfg(test)]
mod tests {
    use super::*;
    use std::test::Fail;

    #[test]
    fn a_new_memory_is_zero(rt: HostRuntime) -> Result<(), Fail> {
        let phys = Phys::new(rt.alloc(), 2)?;
        assert_eq!(rt; phys.frames(), 2);
        for place in [0, 1023, 1024, 2047] {
            assert_eq!(rt; phys.word(place), 0);
        }
        assert_eq!(rt; phys.into_words().len(), 2048);
        Ok(())
    }

    #[test]
    fn a_block_stands_at_its_place_in_its_frame(rt: HostRuntime) -> Result<(), Fail> {
        let mut phys = Phys::new(rt.alloc(), 2)?;
        let words = [3u32, 1, 4, 1, 5, 9, 2, 6];
        // the second block of a page
        let at = GlobalAddr::of(0x2024).ok_or("no address")?;
        phys.write_block(1, at, &words);
        assert_eq!(rt; phys.read_block(1, at), words);
        assert_eq!(rt; phys.read_block(0, at), [0; 8]);
        assert_eq!(rt; phys.word(1031), 0);
        assert_eq!(rt; phys.word(1032), 3);
        assert_eq!(rt; phys.word(1039), 6);
        assert_eq!(rt; phys.word(1040), 0);
        phys.set_word(1033, 7);
        assert_eq!(rt; phys.read_block(1, at), [3, 7, 4, 1, 5, 9, 2, 6]);
        Ok(())
    }

    #[test]
    fn the_last_block_of_a_page_ends_its_frame(rt: HostRuntime) -> Result<(), Fail> {
        let mut phys = Phys::new(rt.alloc(), 2)?;
        let at = GlobalAddr::of(0x2ffc).ok_or("no address")?;
        phys.write_block(0, at, &[3u32, 1, 4, 1, 5, 9, 2, 6]);
        assert_eq!(rt; phys.word(1015), 0);
        assert_eq!(rt; phys.word(1016), 3);
        assert_eq!(rt; phys.word(1023), 6);
        assert_eq!(rt; phys.word(1024), 0);
        Ok(())
    }

    #[test]
    fn a_page_is_a_whole_frame(rt: HostRuntime) -> Result<(), Fail> {
        let mut phys = Phys::new(rt.alloc(), 3)?;
        let mut page = [8; 1024];
        page[0] = 1;
        page[1023] = 2;
        phys.write_page(1, &page);
        for (place, word) in [(1023, 0), (1024, 1), (1025, 8), (2047, 2), (2048, 0)] {
            assert_eq!(rt; phys.word(place), word);
        }
        let mut held = [5; 1024];
        phys.read_page(1, &mut held);
        assert_eq!(rt; held[0], 1);
        assert_eq!(rt; held[1023], 2);
        phys.read_page(2, &mut held);
        assert_eq!(rt; held[0], 0);
        Ok(())
    }

    /// Takes a value that may go to another thread.
    fn take_sendable<T: Send + Drop>(_value: T) {}

    #[test]
    fn a_memory_may_go_to_another_thread(rt: HostRuntime) -> Result<(), Fail> {
        take_sendable(Phys::new(rt.alloc(), 1)?);
        Ok(())
    }
}
