//! Whole texts, and what they are assembled to.

use crate::{AsmFault, AsmKind, assemble};
use spur_addr::Protection;
use spur_isa::encode;
use spur_object::{BoardText, PageText, Unit};
use std::alloc::{AllocError, Global};
use std::test::Fail;

/// A program with one board, which adds 1 to the word at 64.
const ADDS_ONE: &[u8] =
    b".page 0 0 rw\n.word 0 64 41\n.board\nld r1, 64(r0)\naddi r1, r1, 1\nst r1, 64(r0)\nhalt\n";

/// The words of its instructions.
const ADDS_ONE_CODE: [u32; 4] = [0x3c40_0040, 0x1444_0001, 0x4040_0040, 0x0400_0000];

/// A producer and a consumer, who pass words through a mailbox: lock at 0, full at 64, item at 96.
const MAILBOX: &[u8] =
    b"; mailbox: lock at 0, full at 64, item at 96\n.page 0 0 rw\n.page 0 1 ro\n.page 1 0 rw\n.word 0 4096 3\n.word 0 4100 5\n.word 0 4104 7\n.board\nli r1, 4096\nli r2, 3\nnext: ld r3, 0(r1)\nwait: tas r4, 0(r0)\nbne r4, r0, wait\nld r5, 64(r0)\nbeq r5, r0, put\nst r0, 0(r0)\njmp wait\nput: st r3, 96(r0)\nli r5, 1\nst r5, 64(r0)\nst r0, 0(r0)\naddi r1, r1, 4\naddi r2, r2, -1\nbne r2, r0, next\nhalt\n.board\n.seg 0 1 2 3\nlih r6, 16384\nli r2, 3\nli r7, 0\nmore: tas r4, 0(r0)\nbne r4, r0, more\nld r5, 64(r0)\nbne r5, r0, got\nst r0, 0(r0)\njmp more\ngot: ld r3, 96(r0)\nst r0, 64(r0)\nst r0, 0(r0)\nadd r7, r7, r3\nst r7, 0(r6)\naddi r6, r6, 4\naddi r2, r2, -1\nbne r2, r0, more\nshow r7\nhalt\n";

/// The words of a board's instructions.
fn code_of(alloc: Global, board: &BoardText) -> Result<Vec<u32>, AllocError> {
    let mut words = Vec::new(alloc);
    for instr in board.code.as_slice() {
        words.push(encode(instr))?;
    }
    Ok(words)
}

/// The segment registers of all boards of a unit.
fn segs_of(alloc: Global, unit: &Unit) -> Result<Vec<[u8; 4]>, AllocError> {
    let mut segs = Vec::new(alloc);
    for board in unit.boards.as_slice() {
        segs.push(board.segs)?;
    }
    Ok(segs)
}

/// This line as often as told.
fn repeated(alloc: Global, line: &[u8], count: usize) -> Result<Vec<u8>, AllocError> {
    let mut text = Vec::new(alloc);
    for _ in 0..count {
        text.extend_from_slice(line)?;
    }
    Ok(text)
}

/// A text of two parts.
fn joined(alloc: Global, one: &[u8], other: &[u8]) -> Result<Vec<u8>, AllocError> {
    let mut text = Vec::from_slice(alloc, one)?;
    text.extend_from_slice(other)?;
    Ok(text)
}

/// The unit of a text that is not too long for a place to have 32 bits.
fn assembled(alloc: Global, text: &[u8]) -> Result<Unit, AsmFault> {
    if text.len() > 10_000_000 {
        return Err(AsmFault::NoMemory);
    }
    assemble(alloc, text)
}

/// Asks that a text has this fault first.
fn has_fault(alloc: Global, text: &[u8], fault: (AsmKind, u32, u32)) -> Result<(), Fail> {
    match assembled(alloc, text) {
        Err(AsmFault::Bad { kind, line, column }) if (kind, line, column) == fault => Ok(()),
        Err(AsmFault::Bad { .. }) => Err(Fail::from("another fault")),
        Err(AsmFault::NoMemory) => Err(Fail::from("memory is wanting")),
        Ok(_) => Err(Fail::from("a text was understood")),
    }
}

#[test]
fn texts_of_one_meaning_give_one_unit(rt: HostRuntime) -> Result<(), Fail> {
    let texts = [
        ADDS_ONE,
        b".page 0 0 rw\n.word 0 64 41\n.board\nld r1, 64(r0)\naddi r1, r1, 1\nst r1, 64(r0)\nhalt".as_slice(),
        b"; sum \x7f\n\t.page 0  0 rw ; page\r\n  .word 0 0x40 0x29\r\n\r\n.board;x\r\nx_1 :ld r1 ,64 ( r0 )\r\naddi r1,r1,0x1\nst r1, 64(r0)\r\nhalt\r\n".as_slice(),
    ];
    for text in texts {
        let unit = assemble(rt.alloc(), text)?;
        let [board] = unit.boards.as_slice() else {
            return Err(Fail::from("one board"));
        };
        assert_eq!(rt; board.segs, [0, 1, 2, 3]);
        assert_eq!(rt;
            code_of(rt.alloc(), board)?.as_slice(),
            ADDS_ONE_CODE.as_slice()
        );
        let page = PageText {
            page: 0,
            prot: Protection::ReadWrite,
        };
        assert_eq!(rt; unit.pages.as_slice(), [page].as_slice());
        let [word] = unit.words.as_slice() else {
            return Err(Fail::from("one word"));
        };
        assert_eq!(rt; word.at.number(), 64);
        assert_eq!(rt; word.value, 41);
    }
    Ok(())
}

#[test]
fn a_program_of_two_boards(rt: HostRuntime) -> Result<(), Fail> {
    let unit = assemble(rt.alloc(), MAILBOX)?;
    let [producer, consumer] = unit.boards.as_slice() else {
        return Err(Fail::from("two boards"));
    };
    let produces = [
        0x0c40_1000u32,
        0x0c80_0003,
        0x3cc4_0000,
        0x4500_0000,
        0x4d00_fffe,
        0x3d40_0040,
        0x4940_0002,
        0x4000_0000,
        0x5800_fffa,
        0x40c0_0060,
        0x0d40_0001,
        0x4140_0040,
        0x4000_0000,
        0x1444_0004,
        0x1488_ffff,
        0x4c80_fff2,
        0x0400_0000,
    ];
    let consumes = [
        0x1180_4000u32,
        0x0c80_0003,
        0x0dc0_0000,
        0x4500_0000,
        0x4d00_fffe,
        0x3d40_0040,
        0x4d40_0002,
        0x4000_0000,
        0x5800_fffa,
        0x3cc0_0060,
        0x4000_0040,
        0x4000_0000,
        0x19dc_c000,
        0x41d8_0000,
        0x1598_0004,
        0x1488_ffff,
        0x4c80_fff2,
        0x65c0_0000,
        0x0400_0000,
    ];
    assert_eq!(rt;
        code_of(rt.alloc(), producer)?.as_slice(),
        produces.as_slice()
    );
    assert_eq!(rt;
        code_of(rt.alloc(), consumer)?.as_slice(),
        consumes.as_slice()
    );
    let pages = [
        PageText {
            page: 0,
            prot: Protection::ReadWrite,
        },
        PageText {
            page: 1,
            prot: Protection::ReadOnly,
        },
        PageText {
            page: 262144,
            prot: Protection::ReadWrite,
        },
    ];
    assert_eq!(rt; unit.pages.as_slice(), pages.as_slice());
    let [three, five, seven] = unit.words.as_slice() else {
        return Err(Fail::from("three words"));
    };
    for (word, at, value) in [(three, 4096, 3), (five, 4100, 5), (seven, 4104, 7)] {
        assert_eq!(rt; word.at.number(), at);
        assert_eq!(rt; word.value, value);
    }
    Ok(())
}

#[test]
fn each_instruction_is_this(rt: HostRuntime) -> Result<(), Fail> {
    // the statement, and of its word the operation, the registers a and b and the bits below them
    let rows = [
        (b"halt".as_slice(), 1u32, 0u32, 0u32, 0u32),
        (b"nop".as_slice(), 2, 0, 0, 0),
        (b"li r15, -0x8000".as_slice(), 3, 15, 0, 0x8000),
        (b"lih r10, 0xFfFf".as_slice(), 4, 10, 0, 0xffff),
        (b"addi r1,r2,-00001".as_slice(), 5, 1, 2, 0xffff),
        (b"add r1, r2, r3".as_slice(), 6, 1, 2, 3 << 14),
        (b"sub r1, r2, r3".as_slice(), 7, 1, 2, 3 << 14),
        (b"and r1, r2, r3".as_slice(), 8, 1, 2, 3 << 14),
        (b"or r1, r2, r3".as_slice(), 9, 1, 2, 3 << 14),
        (b"xor r1, r2, r3".as_slice(), 10, 1, 2, 3 << 14),
        (b"shl r1, r2, r3".as_slice(), 11, 1, 2, 3 << 14),
        (b"shr r1, r2, r3".as_slice(), 12, 1, 2, 3 << 14),
        (b"slt r1, r2, r3".as_slice(), 13, 1, 2, 3 << 14),
        (b"sltu r1, r2, r3".as_slice(), 14, 1, 2, 3 << 14),
        (b"ld r4, -5(r6)".as_slice(), 15, 4, 6, 0xfffb),
        (b"st r4, 5(r6)".as_slice(), 16, 4, 6, 5),
        (b"tas r4 , 0 ( r0 )".as_slice(), 17, 4, 0, 0),
        (b"beq r1, r2, before".as_slice(), 18, 1, 2, 0xffff),
        (b"bne r1, r2, here".as_slice(), 19, 1, 2, 0xffff),
        (b"blt r1, r2, behind".as_slice(), 20, 1, 2, 1),
        (b"bge r1, r2, behind".as_slice(), 21, 1, 2, 1),
        (b"jmp first".as_slice(), 22, 0, 0, 0xfffe),
        (b"call r14, behind".as_slice(), 23, 14, 0, 1),
        (b"jr r14".as_slice(), 24, 14, 0, 0),
        (b"show r9".as_slice(), 25, 9, 0, 0),
    ];
    for (statement, operation, a, b, low) in rows {
        let text = joined(
            rt.alloc(),
            b".board\nfirst: nop\nbefore:\nhere: ",
            statement,
        )?;
        let text = joined(rt.alloc(), text.as_slice(), b"\nnop\nbehind: .board\n")?;
        let unit = assembled(rt.alloc(), text.as_slice())?;
        let [board, _] = unit.boards.as_slice() else {
            return Err(Fail::from("two boards"));
        };
        let code = code_of(rt.alloc(), board)?;
        let word = (operation << 26) | (a << 22) | (b << 18) | low;
        assert_eq!(rt;
            code.as_slice(),
            [0x0800_0000, word, 0x0800_0000].as_slice()
        );
    }
    Ok(())
}

#[test]
fn segments_pages_and_words_stand_anywhere(rt: HostRuntime) -> Result<(), Fail> {
    let text =
        b".word 2 8 -1\n.board\n.seg 1 2 0xfe 4\n.page 2 0 none\n.board\n.word 2 12 4294967295";
    let unit = assemble(rt.alloc(), text)?;
    let segs = segs_of(rt.alloc(), &unit)?;
    assert_eq!(rt;
        segs.as_slice(),
        [[1u8, 2, 254, 4], [0, 1, 2, 3]].as_slice()
    );
    let page = PageText {
        page: 524288,
        prot: Protection::Nothing,
    };
    assert_eq!(rt; unit.pages.as_slice(), [page].as_slice());
    let [one, other] = unit.words.as_slice() else {
        return Err(Fail::from("two words"));
    };
    for (word, at) in [(one, 2147483656), (other, 2147483660)] {
        assert_eq!(rt; word.at.number(), at);
        assert_eq!(rt; word.value, 0xffff_ffff);
    }
    Ok(())
}

/// A text of so many of these lines, and then of these.
fn behind(alloc: Global, line: &[u8], count: usize, rest: &[u8]) -> Result<Vec<u8>, AllocError> {
    let lines = repeated(alloc, line, count)?;
    joined(alloc, lines.as_slice(), rest)
}

#[test]
fn limits_are_reached_and_not_passed(rt: HostRuntime) -> Result<(), Fail> {
    // a line, how often it may stand, what stands behind it, and the place of the fault where it stands once more
    let rows = [
        (
            b".board\n".as_slice(),
            12,
            b"x: .board 5\n".as_slice(),
            13u32,
            4u32,
        ),
        (
            b".page 255 0 rw\n".as_slice(),
            2048,
            b"\t.page @\n.board\n".as_slice(),
            2049,
            2,
        ),
        (
            b".word 0 0 0\n".as_slice(),
            65536,
            b".word 1 4 5\n.board\n".as_slice(),
            65537,
            1,
        ),
    ];
    for (line, most, once_more, number, column) in rows {
        let full = behind(rt.alloc(), line, most, b".board\n")?;
        let begins_board = line == b".board\n".as_slice();
        assert_eq!(rt;
            assembled(rt.alloc(), full.as_slice()).is_ok(),
            !begins_board
        );
        let past = behind(rt.alloc(), line, most, once_more)?;
        has_fault(
            rt.alloc(),
            past.as_slice(),
            (AsmKind::Limit, number, column),
        )?;
    }
    let boards = repeated(rt.alloc(), b".board\n", 12)?;
    assert_eq!(rt; assembled(rt.alloc(), boards.as_slice())?.boards.len(), 12);
    let nops = repeated(rt.alloc(), b"nop\n", 4096)?;
    let full = joined(rt.alloc(), b".board\n", nops.as_slice())?;
    assert_eq!(rt; assembled(rt.alloc(), full.as_slice())?.boards.len(), 1);
    let past = joined(rt.alloc(), full.as_slice(), b"y: halt 5\nfoo\n")?;
    has_fault(rt.alloc(), past.as_slice(), (AsmKind::Limit, 4098, 4))?;
    for (length, fits) in [(64, true), (65, false)] {
        let name = repeated(rt.alloc(), b"n", length)?;
        let text = joined(rt.alloc(), b".board\n", name.as_slice())?;
        let text = joined(rt.alloc(), text.as_slice(), b": halt")?;
        assert_eq!(rt; assembled(rt.alloc(), text.as_slice()).is_ok(), fits);
    }
    Ok(())
}

#[test]
fn the_first_fault_is_told(rt: HostRuntime) -> Result<(), Fail> {
    // a text, and the line and the column of its first fault
    let bad_bytes = [
        (b".board\nhalt \x80\n".as_slice(), 2u32, 6u32),
        (b".board\n\x01x: halt\njmp x\n".as_slice(), 2, 1),
    ];
    for (text, line, column) in bad_bytes {
        has_fault(rt.alloc(), text, (AsmKind::BadByte, line, column))?;
    }
    let bad_tokens = [
        // before the first board
        (b"x:\n.board\n".as_slice(), 1u32, 1u32),
        (b"x: .board\njmp x\n".as_slice(), 1, 1),
        (b"\n; only\n halt\n.board\n".as_slice(), 3, 2),
        (b" \t.seg 0 1 2 3\n.board\n".as_slice(), 1, 3),
        (b"$ .board\nhalt\n".as_slice(), 1, 1),
        // another token, or none, is wanted
        (b".board\nld r1 64(r0)\n".as_slice(), 2, 7),
        (b".board\nld r1, (r0)\n".as_slice(), 2, 8),
        (b".board\nadd 5, r1, r1\n".as_slice(), 2, 5),
        (b".board\nbeq r1, 0, x\n".as_slice(), 2, 9),
        (b".board\nli-5\n".as_slice(), 2, 3),
        (b".board\nx:: halt\n".as_slice(), 2, 3),
        (b".board\nhalt @\n".as_slice(), 2, 6),
        (b".board\nnop # c\n".as_slice(), 2, 5),
        (b".board\nli r1, 5_\n".as_slice(), 2, 9),
        // the line ends too early
        (b".board\nli r1,\n".as_slice(), 2, 7),
        (b".board\nli r1 ; 5\n".as_slice(), 2, 7),
        (b".board\nadd r1, r2".as_slice(), 2, 11),
        // a blank is wanting
        (b".board\n.word 0 4-3\n".as_slice(), 2, 10),
    ];
    for (text, line, column) in bad_tokens {
        has_fault(rt.alloc(), text, (AsmKind::BadToken, line, column))?;
    }
    let bad_numbers = [
        (b".board\nli r1, 40000\n".as_slice(), 2u32, 8u32),
        (b".board\nli r1, 0x10000\n".as_slice(), 2, 8),
        (b".board\nli r1, 00000000001\n".as_slice(), 2, 8),
        (b".board\nli r1, 0x000000001\n".as_slice(), 2, 8),
        (b".board\nli r1, 0X1\n".as_slice(), 2, 8),
        (b".board\nli r1, --5\n".as_slice(), 2, 8),
        (b".word 0 6 1\n.board\n".as_slice(), 1, 9),
        (b".page 0 0rw\n.board\n".as_slice(), 1, 9),
        (b".board\nli 5x, 1\n".as_slice(), 2, 4),
        (b".board\nnop 5x\n".as_slice(), 2, 5),
    ];
    for (text, line, column) in bad_numbers {
        has_fault(rt.alloc(), text, (AsmKind::BadNumber, line, column))?;
    }
    Ok(())
}

#[test]
fn names_and_boards_are_told(rt: HostRuntime) -> Result<(), Fail> {
    let unknown = [
        (b".board\nli r16, 1\n".as_slice(), 2u32, 4u32),
        (b".board\nli r01, 1\n".as_slice(), 2, 4),
        (b".board\nli R1, 4\n".as_slice(), 2, 4),
        (b".board\nLd r1, 4(r0)\n".as_slice(), 2, 1),
        (b".board\nloop halt\n".as_slice(), 2, 1),
        (b"foo\n.board\n".as_slice(), 1, 1),
        (b".board\n.x: halt\n".as_slice(), 2, 1),
        (b".board\nx: y: halt\n".as_slice(), 2, 4),
        (b".page 0 0 RW\n.board\n".as_slice(), 1, 11),
        // two faults in a line, and another in the next
        (b".board\n\nli r16, 40000 @\njmp x\n".as_slice(), 3, 4),
    ];
    for (text, line, column) in unknown {
        has_fault(rt.alloc(), text, (AsmKind::UnknownName, line, column))?;
    }
    let twice = [
        (b".board\nx:\n x: halt 5\n".as_slice(), 3u32, 2u32),
        (b".board\nx:\nx: .board\n".as_slice(), 3, 1),
        (b".board\n.seg 0 1 2 3\nx: .seg 0\n".as_slice(), 3, 4),
    ];
    for (text, line, column) in twice {
        has_fault(rt.alloc(), text, (AsmKind::Twice, line, column))?;
    }
    let no_label = [
        (b".board\njmp x\n.board\nx:\n".as_slice(), 2u32, 5u32),
        (b".board\njmp.x\n".as_slice(), 2, 4),
        (b".board\nx: .board\njmp x\n".as_slice(), 3, 5),
    ];
    for (text, line, column) in no_label {
        has_fault(rt.alloc(), text, (AsmKind::NoLabel, line, column))?;
    }
    for text in [b"".as_slice(), b".page 0 0 rw\n; only\n".as_slice()] {
        has_fault(rt.alloc(), text, (AsmKind::NoBoard, 1, 1))?;
    }
    // seventeen pages and a fault behind them; a label on a board's line; a word before its page
    let pages = behind(rt.alloc(), b".page 0 0 rw\n", 17, b"halt\n")?;
    has_fault(rt.alloc(), pages.as_slice(), (AsmKind::BadToken, 18, 1))?;
    let fine = [
        b".board\njmp y\ny: .board\n".as_slice(),
        b".word 0 0 1\n.page 0 0 rw\n.board\n".as_slice(),
    ];
    for text in fine {
        assert_eq!(rt; assembled(rt.alloc(), text).is_ok(), true);
    }
    Ok(())
}
