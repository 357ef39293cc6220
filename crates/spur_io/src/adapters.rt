//! A source over std's reader and a sink over std's writer.
ghost use Rattle.std.specs.Prelude.{◌≡◌, None};
ghost use Rattle.std.specs.Io.{ReadsAtMost, WritesAtMost};
ghost use Rattle.std.specs.Io.KnownBytes.{ReadConsumes, WriteAppends};
ghost use Rattle.spur_io.specs.Faults.{HasCause, counted};
ghost use Rattle.spur_io.specs.Told.{Puts, Takes};

use crate::stream::{Failed, Sink, Source};
use std::io::{Read, Write};

/// Bytes of a reader. It never tells what is left: a reader may begin to tell, and a source that
/// does not tell must not.
#[derive(Drop)]
pub struct SourceStd<R> {
    reader: R,
    faults: u64,
}

impl<R: Read> SourceStd<R> {
    ghost use Rattle.spur_io.specs.Adapters.{read_faults, reader_of};

    /// A source over `reader`, with no fault so far. Takes no memory.
    pub fn new(reader: R) -> SourceStd<R>
        ensures reader { reader_of result ≡ reader }
        ensures faults { read_faults result ≡ 0 }
    {
        SourceStd { reader, faults: 0 }
    }
}

impl<R: Read> Source for SourceStd<R> {
    ghost use Rattle.spur_io.specs.Adapters.{read_faults, reader_of};

    ghost left = { λ s. None };

    ghost faults = { λ s. read_faults s };

    /// What one read of the reader gives. Each of its errors is a fault, and the count stays at
    /// 2^64 - 1, its last value.
    fn take(&mut self, into: &mut [u8]) -> Result<usize, Failed>
        ensures bound { ReadsAtMost result into.new }
        ensures bytes { Takes None None result into.new }
        ensures cause { HasCause (read_faults self.old) (read_faults self.new) result }

        ensures counted { read_faults self.new ≡ counted (read_faults self.old) result }
        ensures reader { ReadConsumes (R.remaining (reader_of self.old)) (R.remaining (reader_of self.new)) result
            into.new }
    {
        match self.reader.read(into) {
            Ok(n) => Ok(n),
            Err(_) => {
                self.faults = self.faults.saturating_add(1);
                Err(Failed)
            }
        }
    }
}

/// A writer. It never tells what was put.
#[derive(Drop)]
pub struct SinkStd<W> {
    writer: W,
    faults: u64,
}

impl<W: Write> SinkStd<W> {
    ghost use Rattle.spur_io.specs.Adapters.{write_faults, writer_of};

    /// A sink over `writer`, with no fault so far. Takes no memory.
    pub fn new(writer: W) -> SinkStd<W>
        ensures writer { writer_of result ≡ writer }
        ensures faults { write_faults result ≡ 0 }
    {
        SinkStd { writer, faults: 0 }
    }
}

impl<W: Write> Sink for SinkStd<W> {
    ghost use Rattle.spur_io.specs.Adapters.{write_faults, writer_of};

    ghost written = { λ s. None };

    ghost faults = { λ s. write_faults s };

    /// What one write of the writer does. Each of its errors is a fault, and so is that it takes
    /// nothing of a piece that is not empty. The count stays at 2^64 - 1, its last value.
    fn put(&mut self, piece: &[u8]) -> Result<usize, Failed>
        ensures bound { WritesAtMost result piece.now }
        ensures bytes { Puts None None result piece.now }
        ensures cause { HasCause (write_faults self.old) (write_faults self.new) result }

        ensures counted { write_faults self.new ≡ counted (write_faults self.old) result }
        ensures writer { WriteAppends (W.contents (writer_of self.old)) (W.contents (writer_of self.new)) result
            piece.now }
    {
        match self.writer.write(piece) {
            Ok(n) if n > 0 || piece.is_empty() => Ok(n),
            _ => {
                self.faults = self.faults.saturating_add(1);
                Err(Failed)
            }
        }
    }
}
