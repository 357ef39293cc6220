//! Caches of 16 and of 256 lines, call by call.

ghost use Rattle.std.specs.Prelude.{◌≡◌, ◌<◌, IsOk, IsSome, length};
ghost use Rattle.spur_cache.specs.Lines.{found};

use crate::{Cache, CacheFault, HasCache, Line};
use spur_addr::{GlobalAddr, Protection};
use spur_snoop::BlockState;
use std::process::Abort;
use std::test::Fail;

/// A line whose first word is the number of its block, and whose others are zero.
fn line(tag: u32, state: BlockState) -> Line
    ensures tag { result.tag ≡ tag }
    ensures state { result.state ≡ state }
{
    Line {
        tag: tag as u64,
        state,
        frame: 7,
        prot: Protection::ReadWrite,
        dirty: false,
        words: [tag, 0, 0, 0, 0, 0, 0, 0],
    }
}

/// The address of a word of a block.
fn word_of(block: u32, word: u32) -> Result<GlobalAddr, Fail>
    requires { word < 8 }
{
    let at = GlobalAddr::of(block as u64 * 32 + word as u64 * 4).ok_or("no address")?;
    Ok(at)
}

#[test]
fn a_number_of_lines_that_is_no_power_of_two_from_16_to_4096_is_bad(
    rt: HostRuntime,
) -> Result<(), Fail> {
    for lines in [0, 1, 8, 24, 255, 4095, 8192] {
        match Cache::new(rt.alloc(), lines) {
            Ok(_) => return Err(Fail::from("a cache")),
            Err(fault) => assert_eq!(rt; fault, CacheFault::BadLines(lines)),
        }
    }
    for lines in [16, 32, 64, 128, 256, 512, 1024, 2048, 4096] {
        let cache = Cache::new(rt.alloc(), lines)?;
        assert_eq!(rt; cache.lines(), lines);
    }
    Ok(())
}

#[test]
fn a_new_cache_holds_nothing(rt: HostRuntime) -> Result<(), Fail> {
    let cache = Cache::new(rt.alloc(), 16)?;
    for number in 0..16u16 {
        assert_eq!(rt; cache.line(number), None);
    }
    let at = word_of(0x123, 0)?;
    assert_eq!(rt; cache.find(at), None);
    assert_eq!(rt; cache.victim(at), None);
    assert_eq!(rt; cache.lines_of_page(at).len(), 0);
    Ok(())
}

/// That the cache holds a block, as the calls that change its line ask.
fn has(cache: &Cache, at: GlobalAddr) -> Result<(), Fail>
    ensures { IsOk result → IsSome (found cache.now at) }
{
    match cache.find(at) {
        Some(_) => Ok(()),
        None => Err(Fail::from("no line")),
    }
}

/// A block that comes to an empty cache and stands at a place, a rival that has the same place and
/// comes then, and a block of another place.
fn comes_and_goes(rt: &impl Abort, cache: Cache, place: u16, blocks: [u32; 3]) -> Result<(), Fail>
    requires { place < length cache }
{
    let mut cache = cache;
    let [block, rival, other] = blocks;
    let at = word_of(block, 0)?;
    let rival_at = word_of(rival, 0)?;
    let other_at = word_of(other, 0)?;
    cache.fill(line(block, BlockState::UnOwned));
    let held = Some(line(block, BlockState::UnOwned));
    assert_eq!(rt; cache.line(place).copied(), held);
    assert_eq!(rt; cache.find(at).copied(), held);
    assert_eq!(rt; cache.victim(at), None);
    assert_eq!(rt; cache.find(rival_at), None);
    assert_eq!(rt; cache.victim(rival_at).copied(), held);
    assert_eq!(rt; cache.find(other_at), None);
    assert_eq!(rt; cache.victim(other_at), None);
    cache.fill(line(rival, BlockState::OwnedExclusive));
    let held = Some(line(rival, BlockState::OwnedExclusive));
    assert_eq!(rt; cache.line(place).copied(), held);
    assert_eq!(rt; cache.find(rival_at).copied(), held);
    assert_eq!(rt; cache.find(at), None);
    assert_eq!(rt; cache.victim(at).copied(), held);
    Ok(())
}

#[test]
fn a_block_gives_way_to_another_of_its_place(rt: HostRuntime) -> Result<(), Fail> {
    comes_and_goes(&rt, Cache::new(rt.alloc(), 16)?, 3, [0x123, 0x133, 0x124])?;
    comes_and_goes(
        &rt,
        Cache::new(rt.alloc(), 256)?,
        0x23,
        [0x123, 0x223, 0x133],
    )
}

#[test]
fn a_line_changes_its_state_its_dirty_copy_and_its_words(rt: HostRuntime) -> Result<(), Fail> {
    for lines in [16, 256] {
        let mut cache = Cache::new(rt.alloc(), lines)?;
        let at = word_of(0x123, 5)?;
        cache.fill(line(0x123, BlockState::UnOwned));
        has(&cache, at)?;
        cache.set_state(at, BlockState::OwnedExclusive);
        has(&cache, at)?;
        cache.set_dirty(at);
        has(&cache, at)?;
        cache.set_word(at, 9);
        has(&cache, at)?;
        assert_eq!(rt; cache.word(at), 9);
        let mut want = line(0x123, BlockState::OwnedExclusive);
        want.dirty = true;
        want.words = [0x123, 0, 0, 0, 0, 9, 0, 0];
        assert_eq!(rt; cache.find(at).copied(), Some(want));
        cache.set_state(at, BlockState::Invalid);
        assert_eq!(rt; cache.find(at), None);
        assert_eq!(rt; cache.line(3), None);
    }
    Ok(())
}

#[test]
fn the_lines_of_a_page_are_told_in_order(rt: HostRuntime) -> Result<(), Fail> {
    // page 3 has the blocks 384 to 511, and page 2 those before it
    for (lines, of_third, of_second) in [
        (16, [0, 6, 15], 5),
        (128, [0, 6, 127], 5),
        (256, [128, 134, 255], 5),
    ] {
        let mut cache = Cache::new(rt.alloc(), lines)?;
        for block in [511, 261, 384, 390] {
            cache.fill(line(block, BlockState::UnOwned));
        }
        let third = cache.lines_of_page(word_of(400, 1)?);
        assert_eq!(rt; third.as_slice(), of_third.as_slice());
        let second = cache.lines_of_page(word_of(383, 7)?);
        assert_eq!(rt; second.as_slice(), [of_second].as_slice());
        assert_eq!(rt; cache.lines_of_page(word_of(512, 0)?).len(), 0);
    }
    Ok(())
}

/// A value that has a cache and something else.
#[derive(Drop)]
struct Board {
    cache: Cache,
    number: u32,
}

impl HasCache for Board {
    ghost lens = { record { lines_of = λ board. board.cache; with_lines = λ board lines. record board { cache = lines } } };

    ghost use Rattle.std.specs.Prelude.{refl};

    ghost lawful = { record { kept = λ _. refl; set = λ _ _. refl; twice = λ _ _ _. refl } };

    fn cache(&self) -> &Cache {
        let _ = self.cache.lines();
        &self.cache
    }

    fn fill_line(&mut self, line: Line) {
        self.cache.fill(line);
    }

    fn set_line_state(&mut self, at: GlobalAddr, state: BlockState) {
        self.cache.set_state(at, state);
    }

    fn set_line_dirty(&mut self, at: GlobalAddr) {
        self.cache.set_dirty(at);
    }

    fn set_line_word(&mut self, at: GlobalAddr, value: u32) {
        self.cache.set_word(at, value);
    }
}

#[test]
fn a_board_changes_its_cache_alone(rt: HostRuntime) -> Result<(), Fail> {
    let cache = Cache::new(rt.alloc(), 16)?;
    let mut board = Board { cache, number: 11 };
    let at = word_of(0x123, 5)?;
    board.fill_line(line(0x123, BlockState::OwnedExclusive));
    has(board.cache(), at)?;
    board.set_line_word(at, 9);
    assert_eq!(rt; board.cache().find(at).map(|line| line.words[5]), Some(9));
    assert_eq!(rt; board.number, 11);
    Ok(())
}

/// Takes a value that may go to another thread.
fn take_sendable<T: Send + Drop>(_value: T) {}

#[test]
fn a_cache_may_go_to_another_thread(rt: HostRuntime) -> Result<(), Fail> {
    take_sendable(Cache::new(rt.alloc(), 16)?);
    Ok(())
}
