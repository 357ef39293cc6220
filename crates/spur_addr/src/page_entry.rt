//! Page-table entries: words of 32 bits that say where a page is and what may be done with it.

ghost use Rattle.std.specs.Prelude.{⊤, ◌≡◌, ◌*◌, ◌<◌, ◌^◌, [], ◌∷◌, IsTrue, codes};
ghost use Rattle.spur_addr.specs.PageEntry.{is_dirty, is_leaving, is_on_swap, is_readable, is_referenced, is_valid, number_of, protection_number, protection_of, read_of, resident_of, swapped_of, with_bit};

use bitflags::{Flag, Flags, bitflag_items};
use std::marker::Model;
use thiserror::Error;

/// The named bits of an entry, below its number.
#[derive(Clone, Copy, Debug, PartialEq, Eq)]
struct EntryBits(u32);

bitflag_items! {
    impl EntryBits: u32 {
        const VALID = 1;
        const REFERENCED = 2;
        const DIRTY = 4;
        const READ_ONLY = 8;
        const READ_WRITE = 16;
        const ON_SWAP = 32;
        const LEAVING = 64;
    }
}

impl Flags for EntryBits {
    type Bits = u32;

    ghost exact = { ⊤ };

    ghost table = { (codes "VALID", 1) ∷ (codes "REFERENCED", 2) ∷ (codes "DIRTY", 4)
        ∷ (codes "READ_ONLY", 8) ∷ (codes "READ_WRITE", 16) ∷ (codes "ON_SWAP", 32)
        ∷ (codes "LEAVING", 64) ∷ [] };

    ghost set_of = { λ p. p.0 };

    fn flags<'a>() -> &'a [Flag<EntryBits>] {
        EntryBits::FLAGS
    }

    fn bits(&self) -> u32 {
        self.0
    }

    fn from_bits_retain(bits: u32) -> EntryBits {
        EntryBits(bits)
    }
}

/// What a page may be used for.
#[derive(Clone, Copy, Debug, PartialEq, Eq)]
pub enum Protection {
    /// No access at all.
    Nothing,
    /// Loads alone.
    ReadOnly,
    /// Loads, stores and test-and-sets.
    ReadWrite,
}

/// Why a word is no page-table entry.
#[derive(Clone, Copy, Debug, PartialEq, Eq, Error)]
pub enum PteFault {
    /// One of the bits 7 to 11 is set, or both protection bits are. The word is handed back.
    #[error("the word {0:08x} has reserved bits set")]
    Reserved(u32),
}

/// A page-table entry.
///
/// Contracts see its word. From the lowest bit: 0 valid (the page is in a frame), 1 referenced,
/// 2 dirty, 3 and 4 the protection (0 nothing, 1 read, 2 read and write), 5 on swap, 6 leaving (the
/// page is about to give up its frame), 7 to 11 zero, 12 to 31 the number of the frame, or of the
/// swap slot where the page is on swap and not valid. The layout is this project's profile, and no
/// statement about SPUR.
#[derive(Clone, Copy, Debug, PartialEq, Eq)]
pub struct Pte {
    word: u32,
}

impl Model for Pte {
    ghost use Rattle.std.specs.Prelude.{ℕ, IsTrue};
    ghost use Rattle.spur_addr.specs.PageEntry.{is_readable};

    ghost Value = { ℕ };

    ghost view = { λ a. a.word };

    ghost invariant = { λ a. IsTrue (is_readable a.word) };

    ghost inverse = { λ n. record { word = n } };
}

impl Pte {
    /// The entry that a word of memory is.
    ///
    /// The answer is `Reserved` with that word exactly where one of the bits 7 to 11 is set or the
    /// protection is 3.
    pub fn read(word: u32) -> Result<Pte, PteFault>
        ensures { result ≡ read_of word }
    {
        let reserved = (word >> 7) & 0x1f;
        let protection = (word >> 3) & 3;
        if reserved == 0 && protection != 3 {
            Ok(Pte { word })
        } else {
            Err(PteFault::Reserved(word))
        }
    }

    /// The word that stands in memory for the entry. `Pte::read` takes it back.
    pub fn word(self) -> u32
        ensures value { result ≡ self }
        ensures small { self < 2 ^ 32 }
        ensures readable { IsTrue (is_readable self) }
    {
        self.word
    }

    /// Whether the page is in the frame of the entry's number.
    pub fn valid(self) -> bool
        ensures { result ≡ is_valid self }
    {
        EntryBits(self.word).contains(EntryBits::VALID)
    }

    /// Whether the page counts as used since the bit was last cleared.
    pub fn referenced(self) -> bool
        ensures { result ≡ is_referenced self }
    {
        EntryBits(self.word).contains(EntryBits::REFERENCED)
    }

    /// Whether the page may have been written since it came into its frame.
    pub fn dirty(self) -> bool
        ensures { result ≡ is_dirty self }
    {
        EntryBits(self.word).contains(EntryBits::DIRTY)
    }

    /// Whether the page is in the swap slot of the entry's number.
    pub fn on_swap(self) -> bool
        ensures { result ≡ is_on_swap self }
    {
        EntryBits(self.word).contains(EntryBits::ON_SWAP)
    }

    /// Whether the page is about to give up its frame.
    pub fn leaving(self) -> bool
        ensures { result ≡ is_leaving self }
    {
        EntryBits(self.word).contains(EntryBits::LEAVING)
    }

    /// What the page may be used for.
    pub fn protection(self) -> Protection
        ensures { result ≡ protection_of self }
    {
        match (self.word >> 3) & 3 {
            0 => Protection::Nothing,
            1 => Protection::ReadOnly,
            // 2, since the protection of an entry is never 3
            _ => Protection::ReadWrite,
        }
    }

    /// The number in bits 12 to 31, below 2^20: a frame, or a swap slot.
    pub fn number(self) -> u32
        ensures value { result ≡ number_of self }
        ensures small { number_of self < 2 ^ 20 }
    {
        self.word >> 12
    }

    /// The entry with the referenced bit, bit 1, set or cleared, and all else as it is.
    pub fn with_referenced(self, to: bool) -> Pte
        ensures { result ≡ with_bit self 1 to }
    {
        let mut bits = EntryBits(self.word);
        bits.set(EntryBits::REFERENCED, to);
        Pte { word: bits.0 }
    }

    /// The entry with the dirty bit, bit 2, set or cleared, and all else as it is.
    pub fn with_dirty(self, to: bool) -> Pte
        ensures { result ≡ with_bit self 2 to }
    {
        let mut bits = EntryBits(self.word);
        bits.set(EntryBits::DIRTY, to);
        Pte { word: bits.0 }
    }

    /// The entry with the leaving bit, bit 6, set or cleared, and all else as it is.
    pub fn with_leaving(self, to: bool) -> Pte
        ensures { result ≡ with_bit self 6 to }
    {
        let mut bits = EntryBits(self.word);
        bits.set(EntryBits::LEAVING, to);
        Pte { word: bits.0 }
    }

    /// The entry of a page that has just come into a frame: valid and referenced, and neither dirty
    /// nor leaving. The frame's number is below 2^20.
    pub fn resident(frame: u32, protection: Protection) -> Pte
        requires { frame < 2 ^ 20 }
        ensures { result ≡ resident_of frame protection }
    {
        let low = EntryBits::VALID
            .union(EntryBits::REFERENCED)
            .union(protection_bits(protection));
        Pte {
            word: (frame << 12) | low.0,
        }
    }

    /// The entry of the same page where it has just come into a frame: it keeps the protection alone. The frame's
    /// number is below 2^20.
    pub fn brought_in(self, frame: u32) -> Pte
        requires { frame < 2 ^ 20 }
        ensures { result ≡ resident_of frame (protection_of self) }
    {
        Pte::resident(frame, self.protection())
    }

    /// The entry of a page that is in a swap slot and in no frame. The slot's number is below 2^20.
    pub fn swapped(slot: u32, protection: Protection) -> Pte
        requires { slot < 2 ^ 20 }
        ensures { result ≡ swapped_of slot protection }
    {
        let low = EntryBits::ON_SWAP.union(protection_bits(protection));
        Pte {
            word: (slot << 12) | low.0,
        }
    }
}

/// The bits that say a protection.
fn protection_bits(protection: Protection) -> EntryBits
    ensures { result.0 ≡ protection_number protection * 2 ^ 3 }
{
    match protection {
        Protection::Nothing => EntryBits(0),
        Protection::ReadOnly => EntryBits::READ_ONLY,
        Protection::ReadWrite => EntryBits::READ_WRITE,
    }
}

#[cfg(test)]
mod tests {
    use super::*;
    use std::test::Fail;

    #[test]
    fn a_word_has_its_flags_its_protection_and_its_number(rt: HostRuntime) -> Result<(), Fail> {
        let rows = [
            (
                0x0004_0017,
                [true, true, true, false, false],
                Protection::ReadWrite,
                64,
            ),
            (
                0x0000_0030,
                [false, false, false, true, false],
                Protection::ReadWrite,
                0,
            ),
            (
                0x0004_1013,
                [true, true, false, false, false],
                Protection::ReadWrite,
                65,
            ),
            (
                0x0004_104b,
                [true, true, false, false, true],
                Protection::ReadOnly,
                65,
            ),
            (
                0xffff_f000,
                [false, false, false, false, false],
                Protection::Nothing,
                0xf_ffff,
            ),
        ];
        for (word, [valid, referenced, dirty, on_swap, leaving], protection, number) in rows {
            let entry = Pte::read(word)?;
            assert_eq!(rt; entry.word(), word);
            assert_eq!(rt; entry.valid(), valid);
            assert_eq!(rt; entry.referenced(), referenced);
            assert_eq!(rt; entry.dirty(), dirty);
            assert_eq!(rt; entry.on_swap(), on_swap);
            assert_eq!(rt; entry.leaving(), leaving);
            assert_eq!(rt; entry.protection(), protection);
            assert_eq!(rt; entry.number(), number);
        }
        Ok(())
    }

    #[test]
    fn a_word_with_reserved_bits_is_refused_with_the_word(rt: HostRuntime) {
        for word in [0x80, 0x100, 0x200, 0x400, 0x800, 0x18, 0xffff_ffff] {
            assert_eq!(rt; Pte::read(word), Err(PteFault::Reserved(word)));
        }
    }

    #[test]
    fn made_and_changed_entries_have_these_words(rt: HostRuntime) {
        let root = Pte::resident(64, Protection::ReadWrite).with_dirty(true);
        let entry = Pte::resident(65, Protection::ReadWrite);
        assert_eq!(rt; root.word(), 0x0004_0017);
        assert_eq!(rt; entry.word(), 0x0004_1013);
        assert_eq!(rt; entry.with_dirty(true).word(), 0x0004_1017);
        assert_eq!(rt; entry.with_referenced(false).word(), 0x0004_1011);
        assert_eq!(rt; entry.with_leaving(true).word(), 0x0004_1053);
        assert_eq!(rt; Pte::swapped(0, Protection::ReadWrite).word(), 0x0000_0030);
    }
}
