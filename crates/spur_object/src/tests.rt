//! Objects of units, and bytes that are none.

use crate::{BoardText, ObjFault, ObjKind, PageText, Unit, WordText, read_object, write_object};
use spur_addr::{GlobalAddr, Protection};
use spur_isa::{Instr, Reg};
use spur_list::Items;
use std::alloc::Global;
use std::process::Abort;
use std::test::Fail;

/// The object of the first example, which loads a word, adds 1, stores it and halts.
const EXAMPLE: [u8; 64] = [
    0x93, 0x53, 0x50, 0x52, 0, 0, 0, 1, 0, 0, 0, 1, 0, 0, 0, 1, 0, 0, 0, 1, // head
    0, 1, 2, 3, 0, 0, 0, 4, // board
    0x3c, 0x40, 0, 0x40, 0x14, 0x44, 0, 1, 0x40, 0x40, 0, 0x40, 4, 0, 0, 0, // code
    0, 0, 0, 0, 0, 0, 0, 2, // page
    0, 0, 0, 0, 0, 0, 0, 0x40, 0, 0, 0, 0x29, // word
];

/// The code of the first example.
fn example_code() -> Result<[Instr; 4], Fail> {
    let r1 = Reg::of(1).ok_or("no register")?;
    let r0 = Reg::ZERO;
    Ok([
        Instr::Ld {
            a: r1,
            b: r0,
            i: 64,
        },
        Instr::AddI { a: r1, b: r1, i: 1 },
        Instr::St {
            a: r1,
            b: r0,
            i: 64,
        },
        Instr::Halt,
    ])
}

#[test]
fn an_object_is_written_and_read_again(rt: HostRuntime) -> Result<(), Fail> {
    let alloc = rt.alloc();
    let unit = read_object(alloc, &EXAMPLE).map_err(|_| "refused")?;
    let [board] = unit.boards.as_slice() else {
        return Err(Fail::from("one board"));
    };
    assert_eq!(rt; board.segs, [0, 1, 2, 3]);
    assert_eq!(rt; board.code.as_slice(), example_code()?.as_slice());
    let page = PageText {
        page: 0,
        prot: Protection::ReadWrite,
    };
    assert_eq!(rt; unit.pages.as_slice(), [page].as_slice());
    let at = GlobalAddr::of(64).ok_or("no address")?;
    assert_eq!(rt;
        unit.words.as_slice(),
        [WordText { at, value: 41 }].as_slice()
    );
    assert_eq!(rt; write_object(alloc, &unit)?.as_slice(), EXAMPLE.as_slice());
    Ok(())
}

/// The example's object with other bytes at some places.
fn example_with(changes: &[(usize, u8)]) -> [u8; 64] {
    let mut bytes = EXAMPLE;
    for (place, byte) in changes {
        if let Some(at) = bytes.get_mut(*place) {
            *at = *byte;
        }
    }
    bytes
}

/// What is wrong with these bytes, and where.
fn fault_of(alloc: Global, bytes: &[u8]) -> Option<ObjFault> {
    read_object(alloc, bytes).err()
}

#[test]
fn a_front_of_an_object_is_short_at_the_field_that_is_not_whole(rt: HostRuntime) {
    let alloc = rt.alloc();
    for length in 0..64usize {
        let front = EXAMPLE.get(..length).unwrap_or(&[]);
        let byte = 4 * (length / 4) as u32;
        let short = ObjFault::Bad {
            kind: ObjKind::Short,
            byte,
        };
        assert_eq!(rt; fault_of(alloc, front), Some(short));
    }
}

#[test]
fn a_wrong_field_is_told_at_its_first_byte(rt: HostRuntime) {
    let alloc = rt.alloc();
    let rows: [(&[(usize, u8)], ObjKind, u32); 14] = [
        (&[(0, 0x92)], ObjKind::Magic, 0),
        (&[(3, 0x53)], ObjKind::Magic, 0),
        (&[(7, 2)], ObjKind::Version, 4),
        // no board, and 13 of them
        (&[(11, 0)], ObjKind::Field, 8),
        (&[(11, 13)], ObjKind::Field, 8),
        // 2049 pages, 65,537 words, and a board of 4097 instructions
        (&[(14, 8)], ObjKind::Field, 12),
        (&[(17, 1)], ObjKind::Field, 16),
        (&[(26, 16), (27, 1)], ObjKind::Field, 24),
        // the operation 26
        (&[(32, 0x68)], ObjKind::BadWord, 32),
        // the page 2^26, and the protection 3
        (&[(44, 4)], ObjKind::Field, 44),
        (&[(51, 3)], ObjKind::Field, 48),
        // the segment 256; an offset inside a word, and one behind the segment
        (&[(54, 1)], ObjKind::Field, 52),
        (&[(59, 0x42)], ObjKind::Field, 56),
        (&[(56, 0x40)], ObjKind::Field, 56),
    ];
    for (changes, kind, byte) in rows {
        let bytes = example_with(changes);
        assert_eq!(rt; fault_of(alloc, &bytes), Some(ObjFault::Bad { kind, byte }));
    }
}

#[test]
fn a_wrong_field_is_answered_before_the_bytes_end(rt: HostRuntime) {
    let alloc = rt.alloc();
    let rows: [(&[u8], ObjKind, u32); 5] = [
        (b"x", ObjKind::Short, 0),
        (b"xxxx", ObjKind::Magic, 0),
        (&[0x93, 0x53, 0x50], ObjKind::Short, 0),
        (&[0x93, 0x53, 0x50, 0x53, 0], ObjKind::Magic, 0),
        (&[0x93, 0x53, 0x50, 0x52, 0, 0, 0, 2], ObjKind::Version, 4),
    ];
    for (bytes, kind, byte) in rows {
        assert_eq!(rt; fault_of(alloc, bytes), Some(ObjFault::Bad { kind, byte }));
    }
}

#[test]
fn a_byte_behind_the_last_field_is_trailing(rt: HostRuntime) -> Result<(), Fail> {
    let alloc = rt.alloc();
    let mut bytes = EXAMPLE.to_vec(alloc)?;
    bytes.push(0)?;
    let trailing = ObjFault::Bad {
        kind: ObjKind::Trailing,
        byte: 64,
    };
    assert_eq!(rt; fault_of(alloc, &bytes), Some(trailing));
    Ok(())
}
