//! The first example in each of its forms, why other inputs are refused, and the lines that say so. The expected values
//! are worked out by hand.

ghost use Rattle.std.specs.Prelude.{◌≡◌};
ghost use Rattle.spur_loader.specs.Limits.{IsOptions};

use crate::{NotAccepted, Refusal, judge, object_of, program_opening, refusal_line};
use spur_addr::GlobalAddr;
use spur_asm::AsmKind;
use spur_check::Verdict;
use spur_flat::Clause;
use spur_isa::Instr;
use spur_loader::{LoadFault, Opening, Options};
use spur_object::ObjKind;
use spur_trace::TraceKind;
use std::alloc::Global;
use std::process::Abort;
use std::test::Fail;

/// A board loads the word at 64, adds 1, stores it and halts.
const TEXT: &str = ".page 0 0 rw\n\
    .word 0 64 41\n\
    .board\n\
    ld r1, 64(r0)\n\
    addi r1, r1, 1\n\
    st r1, 64(r0)\n\
    halt\n";

/// The object of that text.
const OBJECT: [u8; 64] = [
    0x93, 0x53, 0x50, 0x52, 0, 0, 0, 1, 0, 0, 0, 1, 0, 0, 0, 1, 0, 0, 0, 1, // head
    0, 1, 2, 3, 0, 0, 0, 4, // board
    0x3c, 0x40, 0, 0x40, 0x14, 0x44, 0, 1, 0x40, 0x40, 0, 0x40, 4, 0, 0, 0, // code
    0, 0, 0, 0, 0, 0, 0, 2, // page
    0, 0, 0, 0, 0, 0, 0, 0x40, 0, 0, 0, 0x29, // word
];

/// The history of its run.
const TRACE: &str = "%trace 1 1 256 4096\n\
    fill 0 root read 3fcff00000\n\
    fill 0 pte read 3fc0000000\n\
    fault 0 missing load 0000000040\n\
    claim 0 3fc0000000\n\
    in 0 0000000000 65\n\
    fill 0 data read 0000000040\n\
    load 0 0000000040 00000029\n\
    fault 0 dirty store 0000000040\n\
    setdirty 0 0000000000\n\
    refresh 0 0000000040\n\
    claim 0 0000000040\n\
    store 0 0000000040 0000002a\n";

/// The options of a run that names none.
fn usual_options() -> Options
    ensures range { IsOptions result }
    ensures ahead { result.ahead ≡ 0 }
{
    Options {
        frames: 256,
        lines: 4096,
        budget: 100000,
        ahead: 0,
    }
}

/// The opening of a short program.
fn opening(alloc: Global, input: &[u8]) -> Result<Opening, NotAccepted> {
    let most = 1048576;
    if input.len() > most {
        return Err(NotAccepted::NoMemory);
    }
    program_opening(alloc, input, &usual_options())
}

/// What a short trace behind a program's text is judged, or why it is not, with a budget of 1 to 250,000.
fn verdict(alloc: Global, program: &str, trace: &str, budget: u32) -> Result<Verdict, NotAccepted> {
    let mut input = program.as_bytes().to_vec(alloc)?;
    input.extend_from_slice(trace.as_bytes())?;
    let most = 67108864;
    if input.len() > most || budget == 0 || budget > 250000 {
        return Err(NotAccepted::NoMemory);
    }
    judge(alloc, input.as_slice(), budget)
}

/// Why a short program is not run.
fn refusal_to_run(alloc: Global, input: &[u8]) -> Option<NotAccepted> {
    match opening(alloc, input) {
        Ok(_opening) => None,
        Err(why) => Some(why),
    }
}

/// The opening of a short program that is accepted.
fn opened(alloc: Global, input: &[u8]) -> Option<Opening> {
    match opening(alloc, input) {
        Ok(opening) => Some(opening),
        Err(_why) => None,
    }
}

/// The object of a short text, or why there is none.
fn object(alloc: Global, text: &[u8]) -> Result<Vec<u8>, NotAccepted> {
    let most = 1048576;
    if text.len() > most {
        return Err(NotAccepted::NoMemory);
    }
    object_of(alloc, text)
}

/// Whether a text has this object.
fn has_object(alloc: Global, text: &[u8], want: &[u8]) -> bool {
    match object(alloc, text) {
        Ok(bytes) => bytes.as_slice() == want,
        Err(_why) => false,
    }
}

/// Why a short text is not assembled.
fn refusal_to_assemble(alloc: Global, text: &[u8]) -> Option<NotAccepted> {
    match object(alloc, text) {
        Ok(_bytes) => None,
        Err(why) => Some(why),
    }
}

/// A trace with this fault.
fn bad_trace(kind: TraceKind, line: u32) -> Refusal {
    Refusal::Trace { kind, line }
}

#[test]
fn a_text_and_its_object_have_openings(rt: HostRuntime) -> Result<(), Fail> {
    let alloc = rt.alloc();
    for input in [TEXT.as_bytes(), OBJECT.as_slice()] {
        let opening = opened(alloc, input).ok_or("refused")?;
        assert_eq!(rt; opening.segs.as_slice(), [[0, 1, 2, 3]].as_slice());
        let [code] = opening.code.as_slice() else {
            return Err(Fail::from("one board"));
        };
        assert_eq!(rt; code.as_slice().last(), Some(&Instr::Halt));
        assert_eq!(rt; opening.options, usual_options());
    }
    Ok(())
}

#[test]
fn objects_are_told_by_their_first_byte(rt: HostRuntime) -> Result<(), Fail> {
    let alloc = rt.alloc();
    let rows = [
        (&OBJECT[..63], ObjKind::Short, 60),
        (&OBJECT[..1], ObjKind::Short, 0),
        (&[0x93, 0x53, 0x50, 0x51], ObjKind::Magic, 0),
    ];
    for (input, kind, byte) in rows {
        let want = NotAccepted::Refused(Refusal::Object { kind, byte });
        assert_eq!(rt; refusal_to_run(alloc, input), Some(want));
    }
    let want = NotAccepted::Refused(Refusal::Text {
        kind: AsmKind::BadByte,
        line: 1,
        column: 1,
    });
    assert_eq!(rt; refusal_to_run(alloc, &[0x92]), Some(want));
    Ok(())
}

#[test]
fn texts_alone_are_assembled(rt: HostRuntime) -> Result<(), Fail> {
    let alloc = rt.alloc();
    assert!(rt; has_object(alloc, TEXT.as_bytes(), &OBJECT));
    let want = NotAccepted::Refused(Refusal::Text {
        kind: AsmKind::BadByte,
        line: 1,
        column: 1,
    });
    assert_eq!(rt; refusal_to_assemble(alloc, &OBJECT), Some(want));
    Ok(())
}

#[test]
fn traces_are_judged_within_the_budget(rt: HostRuntime) -> Result<(), Fail> {
    let alloc = rt.alloc();
    let good = Verdict::Good { entries: 12 };
    assert_eq!(rt; verdict(alloc, TEXT, TRACE, 100000), Ok(good));
    let spent = Verdict::Bad {
        at: 8,
        clause: Clause::Program,
        wanted: 0,
        found: 2,
    };
    assert_eq!(rt; verdict(alloc, TEXT, TRACE, 2), Ok(spent));
    let commented = "; not at\t% the front, nor here: %\n.board\nhalt\n";
    let good = Verdict::Good { entries: 0 };
    assert_eq!(rt; verdict(alloc, commented, "%trace 1 1 1 16\n", 1), Ok(good));
    Ok(())
}

#[test]
fn causes_are_asked_in_their_order(rt: HostRuntime) -> Result<(), Fail> {
    let alloc = rt.alloc();
    let twice = ".page 0 1 ro\n.page 0 1 ro\n.board\nhalt\n";
    let page = GlobalAddr::of(4096).ok_or("below 2^38")?;
    let no_text = Refusal::Text {
        kind: AsmKind::BadToken,
        line: 2,
        column: 1,
    };
    let rows = [
        ("\nhalt\n", "%\n", no_text),
        (
            twice,
            "%trace 1 1 256\n",
            bad_trace(TraceKind::BadHeader, 1),
        ),
        (twice, "", bad_trace(TraceKind::BadHeader, 1)),
        (
            twice,
            "%trace 1 2 256 4096\n%\n",
            bad_trace(TraceKind::Boards, 1),
        ),
        (
            twice,
            "%trace 1 1 256 4096\n%\n",
            Refusal::Load(LoadFault::PageTwice(page)),
        ),
        (
            TEXT,
            "%trace 1 1 256 4096\nclaim 0 3fc0000000\nclaim 1 3fc0000000\n",
            bad_trace(TraceKind::BadLine, 3),
        ),
    ];
    for (program, trace, why) in rows {
        assert_eq!(rt;
            verdict(alloc, program, trace, 1),
            Err(NotAccepted::Refused(why))
        );
    }
    Ok(())
}

#[test]
fn refusals_are_written(rt: HostRuntime) -> Result<(), Fail> {
    let at = GlobalAddr::of(0x39_abcd_ef02).ok_or("below 2^38")?;
    let rows = [
        (
            Refusal::TooLong { most: 1048576 },
            "refused: more than 1048576 bytes\n",
        ),
        (
            Refusal::TooLong { most: 67108864 },
            "refused: more than 67108864 bytes\n",
        ),
        (
            Refusal::Text {
                kind: AsmKind::Twice,
                line: 12,
                column: 4294967295,
            },
            "refused: line 12 column 4294967295: name twice\n",
        ),
        (
            Refusal::Object {
                kind: ObjKind::BadWord,
                byte: 28,
            },
            "refused: byte 28: bad instruction\n",
        ),
        (
            Refusal::Trace {
                kind: TraceKind::BadLine,
                line: 10,
            },
            "refused: trace line 10: bad line\n",
        ),
        (
            Refusal::Load(LoadFault::Segment255),
            "refused: load: segment 255\n",
        ),
        (
            Refusal::Load(LoadFault::PageTwice(at)),
            "refused: load: page twice 39abcdef02\n",
        ),
        (
            Refusal::Load(LoadFault::WordOutside(at)),
            "refused: load: word outside 39abcdef02\n",
        ),
        (
            Refusal::Load(LoadFault::NoRoom(4097)),
            "refused: load: no room 4097\n",
        ),
    ];
    for (refusal, want) in rows {
        let line = refusal_line(rt.alloc(), refusal)?;
        assert_eq!(rt; line.as_slice(), want.as_bytes());
    }
    Ok(())
}
