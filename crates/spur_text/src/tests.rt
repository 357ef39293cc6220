//! Digits, words and decimals as they are written.

use super::*;
use spur_addr::GlobalAddr;
use spur_flat::{AccessKind, FaultKind};
use std::alloc::{AllocError, Global};
use std::test::Fail;

/// A number in decimal, the same in 8 digits, and an address in 10.
#[tactic(auto, using(std::proofs::lemmas::Grind::common_steps, crate::proofs::TextFacts::ten_digits, crate::proofs::TextFacts::word_length))]
fn written(alloc: Global, word: u32, at: GlobalAddr) -> Result<Vec<u8>, AllocError> {
    let mut text = Text::new(alloc, 40)?;
    text.put_number(word);
    text.put(b" ");
    text.put_word(word);
    text.put(b" ");
    text.put_address(at);
    Ok(text.into_bytes())
}

#[test]
fn writes_digits(rt: HostRuntime) -> Result<(), Fail> {
    let rows = [
        (0, 0, "0 00000000 0000000000"),
        (41, 0x40, "41 00000029 0000000040"),
        (100000, 0x39_abcd_ef02, "100000 000186a0 39abcdef02"),
        (u32::MAX, 0x3f_ffff_ffff, "4294967295 ffffffff 3fffffffff"),
    ];
    for (word, at, want) in rows {
        let at = GlobalAddr::of(at).ok_or("below 2^38")?;
        let text = written(rt.alloc(), word, at)?;
        assert_eq!(rt; text.as_slice(), want.as_bytes());
    }
    Ok(())
}

#[test]
fn writes_words(rt: HostRuntime) -> Result<(), Fail> {
    let faults = [
        (FaultKind::Align, "align"),
        (FaultKind::Unmapped, "unmapped"),
        (FaultKind::Missing, "missing"),
        (FaultKind::Leaving, "leaving"),
        (FaultKind::Protection, "protection"),
        (FaultKind::Reference, "reference"),
        (FaultKind::Dirty, "dirty"),
    ];
    for (kind, want) in faults {
        assert_eq!(rt; fault_word(kind), want.as_bytes());
    }
    let accesses = [
        (AccessKind::Load, "load"),
        (AccessKind::Store, "store"),
        (AccessKind::Tas, "tas"),
    ];
    let mut text = Vec::new(rt.alloc());
    for (kind, want) in accesses {
        assert_eq!(rt; access_word(kind), want.as_bytes());
        put(&mut text, access_word(kind))?;
    }
    assert_eq!(rt; text.as_slice(), b"loadstoretas".as_slice());
    Ok(())
}
