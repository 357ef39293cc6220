//! A source and a sink in memory that never fail.
ghost use Rattle.std.specs.Prelude.{◌≡◌, ◌++◌, [], Ok, Some, true, IfOk, drop, length, min, take};
ghost use Rattle.std.specs.Io.{ReadsAtMost, WritesAtMost};
ghost use Rattle.spur_io.specs.Faults.{HasCause};
ghost use Rattle.spur_io.specs.Store.{after_put, told_bytes};
ghost use Rattle.spur_io.specs.Told.{Puts, Takes};

use crate::stream::{Failed, Sink, Source};
use std::alloc::{AllocError, Global};
use std::marker::Model;

/// Bytes in memory that are read without a fault. It tells the bytes that are left, and contracts
/// see it as the list of them.
#[derive(Drop)]
pub struct SourceSure {
    bytes: Vec<u8>,
    at: usize,
}

impl Model for SourceSure {
    ghost use Rattle.std.specs.Prelude.{◌≤◌, ℕ, List, drop, vec_len};

    ghost Value = { List ℕ };

    ghost view = { λ s. drop s.at s.bytes.items };

    ghost invariant = { λ s. s.at ≤ vec_len s.bytes };
}

impl SourceSure {
    /// All of `bytes` are left. Takes no memory.
    pub fn new(bytes: Vec<u8>) -> SourceSure
        ensures { result ≡ bytes.items }
    {
        SourceSure { bytes, at: 0 }
    }
}

impl Source for SourceSure {
    ghost left = { λ s. Some s };

    ghost faults = { λ s. 0 };

    /// Never fails, and moves as many bytes as are left and fit. The rest of `into` stays. Takes no
    /// memory.
    fn take(&mut self, into: &mut [u8]) -> Result<usize, Failed>
        ensures bound { ReadsAtMost result into.new }
        ensures bytes { Takes (Some self.old) (Some self.new) result into.new }
        ensures cause { HasCause 0 0 result }

        ensures count { result ≡ Ok (min (length self.old) (length into.old)) }
        ensures given { into.new ≡ take (length into.old) self.old ++ drop (length self.old) into.old }
        ensures rest { self.new ≡ drop (length into.old) self.old }
    {
        let n = into.len().min(self.bytes.len() - self.at);
        into[..n].copy_from_slice(&self.bytes[self.at..self.at + n]);
        self.at += n;
        Ok(n)
    }
}

/// Room in memory for bytes that are put without a fault. It keeps those that fit, drops later
/// ones, and tells its bytes as long as all of them fit. Contracts see a record of
/// `specs/Store.antt`.
#[derive(Drop)]
pub struct SinkSure {
    kept: Vec<u8>,
    fits: bool,
    room: u32,
}

impl Model for SinkSure {
    ghost use Rattle.std.specs.Prelude.{◌≤◌, vec_capacity, vec_len};
    ghost use Rattle.spur_io.specs.Store.{Store};

    ghost Value = { Store };

    ghost view = { λ s. record { kept = s.kept.items; fits = s.fits; room = s.room } };

    ghost invariant = { λ s. (vec_len s.kept ≤ s.room) × (s.room ≤ vec_capacity s.kept) };
}

impl SinkSure {
    /// Nothing was put, and there is room for `room` bytes. `AllocError` is want of memory for them.
    pub fn new(alloc: Global, room: u32) -> Result<SinkSure, AllocError>
        ensures { IfOk result (λ s. s ≡ record { kept = []; fits = true; room = room }) }
    {
        Ok(SinkSure {
            kept: Vec::with_capacity(alloc, room as usize)?,
            fits: true,
            room,
        })
    }

    /// What was put, as far as it fits the room.
    pub fn bytes(&self) -> &[u8]
        ensures { result.now ≡ self.now.kept }
    {
        &self.kept
    }
}

impl Sink for SinkSure {
    ghost written = { λ s. told_bytes s };

    ghost faults = { λ s. 0 };

    /// Never fails, and moves all of `piece`. Takes no memory.
    fn put(&mut self, piece: &[u8]) -> Result<usize, Failed>
        ensures bound { WritesAtMost result piece.now }
        ensures bytes { Puts (told_bytes self.old) (told_bytes self.new) result piece.now }
        ensures cause { HasCause 0 0 result }

        ensures count { result ≡ Ok (length piece.now) }
        ensures stored { self.new ≡ after_put self.old piece.now }
    {
        let kept = piece.len().min(self.room as usize - self.kept.len());
        self.kept.extend_from_slice(&piece[..kept]).unwrap();
        self.fits &= kept == piece.len();
        Ok(piece.len())
    }
}
