//! Global virtual addresses, and where the page-table entry of an address stands.

ghost use Rattle.std.specs.Prelude.{◌≡◌, ◌+◌, ◌<◌, ◌^◌, ◌↔◌, IfSome, IsSome};
ghost use Rattle.spur_addr.specs.Address.{block_of, block_start_of, entry_address_of, global_of, page_of, root_place_of, root_start, word_in_block_of};

use crate::sizes::TABLE_START;
use std::marker::Model;

/// One past the last global virtual address.
const END: u64 = 1 << 38;

/// The part of a process address that stays as it is: its place within the segment.
const WITHIN_SEGMENT: u32 = 0x3fff_ffff;

/// A global virtual address: the number of a byte, below 2^38.
///
/// Contracts see the number. As in SPUR one space of these addresses serves all processes: it has
/// 256 segments of 2^30 bytes, pages of 4096 bytes and blocks of 32 bytes. A word has 4 bytes.
#[derive(Clone, Copy, Debug, PartialEq, Eq)]
pub struct GlobalAddr {
    number: u64,
}

impl Model for GlobalAddr {
    ghost use Rattle.std.specs.Prelude.{ℕ, ◌<◌, ◌^◌};

    ghost Value = { ℕ };

    ghost view = { λ a. a.number };

    ghost invariant = { λ a. a.number < 2 ^ 38 };

    ghost inverse = { λ n. record { number = n } };
}

impl GlobalAddr {
    /// The address of the byte with this number; `None` exactly at 2^38 and above.
    pub fn of(number: u64) -> Option<GlobalAddr>
        ensures exact { IsSome result ↔ (number < 2 ^ 38) }
        ensures value { IfSome result (λ at. at ≡ number) }
    {
        if number < END {
            Some(GlobalAddr { number })
        } else {
            None
        }
    }

    /// The number of the byte, below 2^38.
    pub fn number(self) -> u64
        ensures value { result ≡ self }
        ensures small { self < 2 ^ 38 }
    {
        self.number
    }

    /// The number of the page of 4096 bytes that the byte is in, below 2^26.
    pub fn page(self) -> u32
        ensures value { result ≡ page_of self }
        ensures small { page_of self < 2 ^ 26 }
    {
        (self.number >> 12) as u32
    }

    /// The number of the block of 32 bytes that the byte is in, below 2^33: what a cache line holds.
    pub fn block(self) -> u64
        ensures value { result ≡ block_of self }
        ensures small { block_of self < 2 ^ 33 }
    {
        self.number >> 5
    }

    /// The address of the first byte of the block that the byte is in.
    pub fn block_start(self) -> GlobalAddr
        ensures value { result ≡ block_start_of self }
        ensures small { block_start_of self < 2 ^ 38 }
    {
        GlobalAddr {
            number: self.block() << 5,
        }
    }

    /// Which of its block's eight words the byte is in, from 0 to 7.
    pub fn word_in_block(self) -> u32
        ensures value { result ≡ word_in_block_of self }
        ensures small { word_in_block_of self < 8 }
    {
        ((self.number >> 2) & 7) as u32
    }
}

/// The global address of the process address `va` under four segment registers.
///
/// As in SPUR the top two bits of `va` choose a register, and the number of its segment takes their
/// place; the low 30 bits stay.
pub fn global(segs: &[u8; 4], va: u32) -> GlobalAddr
    ensures value { result ≡ global_of segs.now va }
    ensures small { global_of segs.now va < 2 ^ 38 }
{
    let segment = segs[(va >> 30) as usize];
    GlobalAddr {
        number: ((segment as u64) << 30) | (va & WITHIN_SEGMENT) as u64,
    }
}

/// The address of the page-table entry of the page that `at` is in.
///
/// As in SPUR the entry has 4 bytes, at a global virtual address that is computed from the page's
/// number. This project's profile puts the table at the start of segment 255, its entries in the
/// order of the pages; so the entries of the table's own pages, its root, are a part of it too.
pub fn pte_of(at: GlobalAddr) -> GlobalAddr
    ensures value { result ≡ entry_address_of at }
    ensures small { entry_address_of at < 2 ^ 38 }
{
    GlobalAddr {
        number: TABLE_START | ((at.number >> 12) << 2),
    }
}

/// The physical byte at which the root entry of `at` stands, below 2^18 and a multiple of 4.
///
/// This is the entry of that page of the table which holds the entry of `at`. As in SPUR the root is
/// wired at a known physical place, which is the start of the memory in this project's profile. So
/// the place is also the distance of the root entry's address from the root's.
pub fn root_place(at: GlobalAddr) -> u32
    ensures value { result ≡ root_place_of at }
    ensures small { root_place_of at < 2 ^ 18 }
    ensures in_root { entry_address_of (entry_address_of at) ≡ root_start + root_place_of at }
{
    ((at.number >> 22) << 2) as u32
}

#[cfg(test)]
mod tests {
    use super::*;
    use std::test::Fail;

    #[test]
    fn an_address_has_a_page_a_block_a_word_and_its_entries(rt: HostRuntime) -> Result<(), Fail> {
        let rows = [
            (0x40, 0, 2, 0x40, 0, 0x3f_c000_0000, 0x3f_cff0_0000, 0),
            (
                0x1234_5678,
                0x1_2345,
                0x91_a2b3,
                0x1234_5660,
                6,
                0x3f_c004_8d14,
                0x3f_cff0_0120,
                0x120,
            ),
            (
                0x3f_ffff_ffff,
                0x3ff_ffff,
                0x1_ffff_ffff,
                0x3f_ffff_ffe0,
                7,
                0x3f_cfff_fffc,
                0x3f_cff3_fffc,
                0x3_fffc,
            ),
        ];
        for (number, page, block, start, word, entry, root_entry, place) in rows {
            let at = GlobalAddr::of(number).ok_or("no address")?;
            assert_eq!(rt; at.number(), number);
            assert_eq!(rt; at.page(), page);
            assert_eq!(rt; at.block(), block);
            assert_eq!(rt; at.block_start().number(), start);
            assert_eq!(rt; at.word_in_block(), word);
            assert_eq!(rt; pte_of(at).number(), entry);
            assert_eq!(rt; pte_of(pte_of(at)).number(), root_entry);
            assert_eq!(rt; root_place(at), place);
        }
        assert_eq!(rt; GlobalAddr::of(0x40_0000_0000), None);
        Ok(())
    }

    #[test]
    fn a_segment_register_takes_the_place_of_the_top_two_bits(rt: HostRuntime) {
        let rows = [
            (0x40, 0x4000_0040),
            (0x7fff_ffff, 0xbfff_ffff),
            (0x8000_0000, 0x1_0000_0000),
            (0xc000_0044, 0x3f_c000_0044),
        ];
        for (va, number) in rows {
            assert_eq!(rt; global(&[1, 2, 4, 255], va).number(), number);
        }
    }
}
