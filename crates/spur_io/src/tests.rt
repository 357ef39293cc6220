//! Whole inputs and texts, through each kind of source and sink.
use super::*;
use std::alloc::{AllocError, Global};
use std::io;
use std::io::{ErrorKind, Read, Write};
use std::test::Fail;

const TEXT: &[u8] = b"0123456789";

/// A first read of the text, four bytes a call, and what a second read finds.
#[derive(Drop)]
struct Reading {
    fail: &'static [u32],
    limit: u32,
    first: Result<&'static [u8], ReadAll>,
    then: &'static [u8],
}

fn reads(alloc: Global, row: &Reading) -> Result<bool, AllocError> {
    let mut source = SourceMemory::new(TEXT.to_vec(alloc)?, 4, row.fail.to_vec(alloc)?);
    let first = read_all(alloc, &mut source, row.limit.min(64));
    let then = read_all(alloc, &mut source, 64);
    let is_first = match (&first, &row.first) {
        (Ok(bytes), Ok(wanted)) => bytes.as_slice() == *wanted,
        (Err(cause), Err(wanted)) => *cause == *wanted,
        _ => false,
    };
    Ok(is_first && then.is_ok_and(|rest| rest.as_slice() == row.then))
}

#[test]
fn a_source_is_read_to_its_end_or_to_a_fault(rt: HostRuntime) -> Result<(), Fail> {
    let reading = |fail, limit, first, then| Reading {
        fail,
        limit,
        first,
        then,
    };
    let rows = [
        reading(&[], 64, Ok(TEXT), b""),
        reading(&[], 10, Ok(TEXT), b""),
        reading(&[], 9, Err(ReadAll::TooLong), b""),
        reading(&[], 6, Err(ReadAll::TooLong), b"789"),
        reading(&[1], 64, Err(ReadAll::ReadFault), TEXT),
        reading(&[2], 64, Err(ReadAll::ReadFault), b"456789"),
        reading(&[4], 64, Err(ReadAll::ReadFault), b""),
        reading(&[0, 6], 64, Ok(TEXT), b""),
    ];
    for (i, row) in rows.iter().enumerate() {
        assert!(rt; reads(rt.alloc(), row)?, "row {i}");
    }
    Ok(())
}

/// The text put, three bytes a call, and what is kept of it.
#[derive(Drop)]
struct Writing {
    fail: &'static [u32],
    room: u32,
    answer: Result<(), PutAll>,
    kept: &'static [u8],
}

#[test]
fn a_sink_gets_the_text_or_its_front(rt: HostRuntime) -> Result<(), Fail> {
    let writing = |fail, room, answer, kept| Writing {
        fail,
        room,
        answer,
        kept,
    };
    let rows = [
        writing(&[], 10, Ok(()), TEXT),
        writing(&[5], 64, Ok(()), TEXT),
        writing(&[], 4, Ok(()), b"0123"),
        writing(&[], 0, Ok(()), b""),
        writing(&[1], 64, Err(PutAll::WriteFault), b""),
        writing(&[2], 64, Err(PutAll::WriteFault), b"012"),
        writing(&[4], 64, Err(PutAll::WriteFault), b"012345678"),
        writing(&[4], 7, Err(PutAll::WriteFault), b"0123456"),
    ];
    for (i, row) in rows.iter().enumerate() {
        let alloc = rt.alloc();
        let mut sink = SinkMemory::new(alloc, row.room, 3, row.fail.to_vec(alloc)?)?;
        assert_eq!(rt; put_all(&mut sink, TEXT), row.answer, "row {i}");
        assert_eq!(rt; sink.bytes(), row.kept, "row {i}");
    }
    Ok(())
}

#[test]
fn sure_objects_do_not_fail(rt: HostRuntime) -> Result<(), Fail> {
    let mut source = SourceSure::new(TEXT.to_vec(rt.alloc())?);
    let text = read_all(rt.alloc(), &mut source, 10)?;
    assert_eq!(rt; text.as_slice(), TEXT);
    let mut roomy = SinkSure::new(rt.alloc(), 10)?;
    put_all(&mut roomy, &text)?;
    assert_eq!(rt; roomy.bytes(), TEXT);
    let mut small = SinkSure::new(rt.alloc(), 3)?;
    put_all(&mut small, &text)?;
    put_all(&mut small, &text)?;
    assert_eq!(rt; small.bytes(), b"012".as_slice());
    Ok(())
}

/// A reader that fails, and a writer that takes nothing.
#[derive(Drop)]
struct Stuck;

impl Read for Stuck {
    fn read(&mut self, _buf: &mut [u8]) -> io::Result<usize> {
        Err(io::Error::from(ErrorKind::Other))
    }
}

impl Write for Stuck {
    fn write(&mut self, _buf: &[u8]) -> io::Result<usize> {
        Ok(0)
    }

    fn flush(&mut self) -> io::Result<()> {
        Ok(())
    }
}

#[test]
fn adapters_pass_bytes_and_faults_on(rt: HostRuntime) -> Result<(), Fail> {
    let text = read_all(rt.alloc(), &mut SourceStd::new(TEXT), 10)?;
    assert_eq!(rt; text.as_slice(), TEXT);
    let mut written = Vec::new(rt.alloc());
    put_all(&mut SinkStd::new(&mut written), &text)?;
    assert_eq!(rt; written.as_slice(), TEXT);
    let unread = read_all(rt.alloc(), &mut SourceStd::new(Stuck), 10);
    assert_eq!(rt; unread.err(), Some(ReadAll::ReadFault));
    let mut stuck = SinkStd::new(Stuck);
    assert_eq!(rt; put_all(&mut stuck, TEXT), Err(PutAll::WriteFault));
    assert_eq!(rt; put_all(&mut stuck, b""), Ok(()));
    Ok(())
}
