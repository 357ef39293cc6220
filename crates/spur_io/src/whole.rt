//! A whole input, and a whole text.
ghost use Rattle.std.specs.Prelude.{◌≡◌, ◌+◌, ◌-◌, ◌^◌, ◌<◌, ◌≤◌, Err, IfOk, OnErr, OnOk, vec_len};
ghost use Rattle.spur_io.specs.Faults.{Rose};
ghost use Rattle.spur_io.specs.Told.{Gains, GainsFront, IsAtEnd, Loses, LosesAtMost, LosesCount};

use crate::stream::{Failed, Sink, Source};
use std::alloc::Global;
use thiserror::Error;

/// Why an input was not read to its end.
#[derive(Clone, Copy, Debug, PartialEq, Eq, Error)]
pub enum ReadAll {
    /// A call of the source failed.
    #[error("the input cannot be read")]
    ReadFault,
    /// The input has more bytes than the limit.
    #[error("the input is too long")]
    TooLong,
    /// Want of memory for the bytes.
    #[error("out of memory")]
    NoMemory,
}

/// Why a text was not put to its end.
#[derive(Clone, Copy, Debug, PartialEq, Eq, Error)]
pub enum PutAll {
    /// A call of the sink failed.
    #[error("the text cannot be written")]
    WriteFault,
}

/// The most bytes that one call of a source is asked for.
const PIECE: usize = 4096;

/// Reads an input of at most `limit` bytes to its end.
///
/// `ReadFault` comes only where the source's count of faults rose. `TooLong` comes where more than
/// `limit` bytes were read, and `limit + 1` bytes were then taken. `NoMemory` may come at any call.
/// After each of them what was taken is a front of the bytes that were left, of at most `limit + 1`.
pub fn read_all<S: Source>(alloc: Global, source: &mut S, limit: u32) -> Result<Vec<u8>, ReadAll>
    requires { limit < 2 ^ 32 - 1 }
    ensures whole { IfOk result (λ bytes. Loses (S.left source.old) (S.left source.new) bytes.items) }
    ensures end { OnOk result (IsAtEnd (S.left source.new)) }
    ensures within { IfOk result (λ bytes. vec_len bytes ≤ limit) }

    ensures too_long { result ≡ Err ReadAll.TooLong → LosesCount (S.left source.old) (S.left source.new) (limit + 1) }
    ensures fault { result ≡ Err ReadAll.ReadFault → Rose (S.faults source.old) (S.faults source.new) }
    ensures front { OnErr result (LosesAtMost (S.left source.old) (S.left source.new) (limit + 1)) }

    ensures later { S.faults source.old ≤ S.faults source.new }
{
    let most = limit as usize + 1;
    let mut all = Vec::new(alloc);
    let mut piece = [0u8; PIECE];
    while all.len() < most {
        let room = (most - all.len()).min(PIECE);
        match source.take(&mut piece[..room]) {
            Err(Failed) => return Err(ReadAll::ReadFault),
            Ok(0) => return Ok(all),
            Ok(n) => all
                .extend_from_slice(&piece[..n])
                .map_err(|_| ReadAll::NoMemory)?,
        }
    }
    Err(ReadAll::TooLong)
}

/// Puts all of a text.
///
/// `WriteFault` comes only where the sink's count of faults rose, and a front of the text was then
/// put. Takes no memory of its own.
pub fn put_all<K: Sink>(sink: &mut K, text: &[u8]) -> Result<(), PutAll>
    ensures whole { OnOk result (Gains (K.written sink.old) (K.written sink.new) text.now) }
    ensures front { OnErr result (GainsFront (K.written sink.old) (K.written sink.new) text.now) }
    ensures fault { OnErr result (Rose (K.faults sink.old) (K.faults sink.new)) }
    ensures later { K.faults sink.old ≤ K.faults sink.new }
{
    let mut rest = text;
    while !rest.is_empty() {
        match sink.put(rest) {
            Err(Failed) => return Err(PutAll::WriteFault),
            Ok(n) => rest = &rest[n..],
        }
    }
    Ok(())
}
