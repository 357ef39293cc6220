//! Traces as texts: what is written and read, and what is refused.

use super::*;
use spur_addr::GlobalAddr;
use spur_flat::{AccessKind, Entry, FaultKind, Layer};
use spur_snoop::Need;
use std::test::Fail;

const HEADER: &[u8] = b"%trace 1 12 256 4096\n";

fn at(number: u64) -> GlobalAddr {
    GlobalAddr::of(number).unwrap_or(GlobalAddr::of(0).unwrap())
}

/// Each line of the form, with its entry.
fn lines() -> [(&'static [u8], Entry); 16] {
    [
        (
            b"load 0 0000000040 00000029\n",
            Entry::Load {
                board: 0,
                at: at(0x40),
                value: 0x29,
            },
        ),
        (
            b"store 1 3ffffffffc fedcba98\n",
            Entry::Store {
                board: 1,
                at: at(0x3f_ffff_fffc),
                value: 0xfedc_ba98,
            },
        ),
        (
            b"tas 11 0000000044 00000001\n",
            Entry::Tas {
                board: 11,
                at: at(0x44),
                old: 1,
            },
        ),
        (
            b"fault 10 protection store 0000000041\n",
            Entry::Fault {
                board: 10,
                kind: FaultKind::Protection,
                access: AccessKind::Store,
                at: at(0x41),
            },
        ),
        (
            b"fill 0 root read 3fcff00000\n",
            Entry::Fill {
                board: 0,
                layer: Layer::RootBlock,
                need: Need::Read,
                at: at(0x3f_cff0_0000),
            },
        ),
        (
            b"fill 0 data write 0000000040\n",
            Entry::Fill {
                board: 0,
                layer: Layer::UserBlock,
                need: Need::Write,
                at: at(0x40),
            },
        ),
        (
            b"claim 0 0000000020\n",
            Entry::Claim {
                board: 0,
                at: at(0x20),
            },
        ),
        (
            b"writeback 0 0000000060\n",
            Entry::WriteBack {
                board: 0,
                at: at(0x60),
            },
        ),
        (
            b"refresh 0 0000000080\n",
            Entry::Refresh {
                board: 0,
                at: at(0x80),
            },
        ),
        (
            b"flush 0 11 00000000a0\n",
            Entry::BlockFlush {
                board: 0,
                holder: 11,
                at: at(0xa0),
            },
        ),
        (
            b"leave 0 0000001000\n",
            Entry::Leave {
                board: 0,
                at: at(0x1000),
            },
        ),
        (
            b"out 0 0000001000\n",
            Entry::PageOut {
                board: 0,
                at: at(0x1000),
            },
        ),
        (
            b"in 0 0000001000 4095\n",
            Entry::PageIn {
                board: 0,
                at: at(0x1000),
                frame: 4095,
            },
        ),
        (
            b"setref 0 0000000000\n",
            Entry::SetRef {
                board: 0,
                at: at(0),
            },
        ),
        (
            b"setdirty 0 0000000000\n",
            Entry::SetDirty {
                board: 0,
                at: at(0),
            },
        ),
        (
            b"clearref 0 0000000000\n",
            Entry::ClearRef {
                board: 0,
                at: at(0),
            },
        ),
    ]
}

#[test]
fn lines_are_read_and_written(rt: HostRuntime) -> Result<(), Fail> {
    let mut text = Vec::from_slice(rt.alloc(), HEADER)?;
    let mut entries = Vec::new(rt.alloc());
    for (line, entry) in lines() {
        text.extend_from_slice(line)?;
        entries.push(entry)?;
    }
    let Ok(head) = read_head(text.as_slice()) else {
        return Err(Fail::from("no header"));
    };
    let want = TraceHead {
        boards: 12,
        frames: 256,
        lines: 4096,
    };
    assert_eq!(rt; head, want);
    let Ok(read) = read_trace(rt.alloc(), text.as_slice()) else {
        return Err(Fail::from("no trace"));
    };
    assert_eq!(rt; read.as_slice(), entries.as_slice());
    let written = write_trace(rt.alloc(), &head, read.as_slice())?;
    assert_eq!(rt; written.as_slice(), text.as_slice());
    Ok(())
}

#[test]
fn lines_are_refused(rt: HostRuntime) -> Result<(), Fail> {
    let rows: [&[u8]; 30] = [
        b"\n",
        b"load 0 0000000040 00000029\r\n",
        b"load 0  0000000040 00000029\n",
        b"load 0 0000000040  00000029\n",
        b" load 0 0000000040 00000029\n",
        b"load 0 0000000040 00000029 \n",
        b"load 00 0000000040 00000029\n",
        b"load 12 0000000040 00000029\n",
        b"load 4294967296 0000000040 00000029\n",
        b"load 0 4000000000 00000029\n",
        b"load 0 000000040 00000029\n",
        b"load 0 00000000040 00000029\n",
        b"load 0 0000000040 000000029\n",
        b"load 0 0000000042 00000029\n",
        b"load 0 000000004C 00000029\n",
        b"load 0 0000000040 0000002A\n",
        b"load 0 0000000040 00000029",
        b"LOAD 0 0000000040 00000029\n",
        b"load 0 0000000040\n",
        b"claim 0 0000000030\n",
        b"out 0 0000000800\n",
        b"in 0 0000001000 4096\n",
        b"in 0 0000001000 4294967361\n",
        b"in 0 0000001000 007\n",
        b"flush 0 12 00000000a0\n",
        b"fault 0 align 0000000041\n",
        b"fault 0 read load 0000000040\n",
        b"fill 0 root 0000000040\n",
        b"setreference 0 0000000000\n",
        b"%trace 1 12 256 4096\n",
    ];
    for row in rows {
        let mut text = Vec::from_slice(rt.alloc(), HEADER)?;
        text.extend_from_slice(b"out 0 0000001000\n")?;
        text.extend_from_slice(row)?;
        let want = TraceFault::Bad {
            kind: TraceKind::BadLine,
            line: 3,
        };
        match read_trace(rt.alloc(), text.as_slice()) {
            Ok(_) => return Err(Fail::from("a line was taken")),
            Err(fault) => assert_eq!(rt; fault, want),
        }
    }
    Ok(())
}

#[test]
fn headers_are_refused(rt: HostRuntime) -> Result<(), Fail> {
    let rows: [&[u8]; 20] = [
        b"",
        b"\n",
        b"%trace 1 0 256 4096\n",
        b"%trace 1 13 256 4096\n",
        b"%trace 1 4294967297 256 4096\n",
        b"%trace 1 1 0 4096\n",
        b"%trace 1 1 3901 4096\n",
        b"%trace 1 1 4294967552 4096\n",
        b"%trace 1 1 256 24\n",
        b"%trace 1 1 256 8\n",
        b"%trace 1 1 256 8192\n",
        b"%trace 1 1 256 4294971392\n",
        b"%trace 2 1 256 4096\n",
        b"%trace 01 1 256 4096\n",
        b"%trace 1 01 256 4096\n",
        b"%trace 1 1 256 4096 \n",
        b"%trace 1 1 256 4096",
        b"%trace 1 1 256 4096\r\n",
        b"%trace  1 1 256 4096\n",
        b"out 0 0000001000\n",
    ];
    let want = TraceFault::Bad {
        kind: TraceKind::BadHeader,
        line: 1,
    };
    for row in rows {
        match read_head(row) {
            Ok(_) => return Err(Fail::from("a header was taken")),
            Err(fault) => assert_eq!(rt; fault, want),
        }
        match read_trace(rt.alloc(), row) {
            Ok(_) => return Err(Fail::from("a header was taken")),
            Err(fault) => assert_eq!(rt; fault, want),
        }
    }
    Ok(())
}
