//! A source and a sink in memory that move small pieces, and whose calls fail as a list says.
ghost use Rattle.std.specs.Prelude.{◌≡◌, ◌<◌, ◌++◌, ◌^◌, [], Some, true, IfOk, OnErr, OnOk, drop, is_err, length, min, take};
ghost use Rattle.std.specs.Io.{ReadsAtMost, WritesAtMost};
ghost use Rattle.spur_io.specs.Calls.{after_call, after_fault, fails_next};
ghost use Rattle.spur_io.specs.Faults.{HasCause};
ghost use Rattle.spur_io.specs.Store.{after_put, told_bytes};
ghost use Rattle.spur_io.specs.Told.{Puts, Takes};

use crate::script::Script;
use crate::stream::{Failed, Sink, Source};
use crate::sure::{SinkSure, SourceSure};
use std::alloc::{AllocError, Global};
use std::marker::Model;

/// Bytes in memory. It tells the bytes that are left. Contracts see a record of
/// `specs/Memory.antt`.
#[derive(Drop)]
pub struct SourceMemory {
    rest: SourceSure,
    piece: u32,
    script: Script,
}

impl Model for SourceMemory {
    ghost use Rattle.std.specs.Prelude.{◌<◌};
    ghost use Rattle.spur_io.specs.Memory.{Supply};

    ghost Value = { Supply };

    ghost view = { λ s. record { left = s.rest; piece = s.piece; calls = s.script } };

    ghost invariant = { λ s. 0 < s.piece };
}

impl SourceMemory {
    /// All of `bytes` are left, no call was made and none failed. A call moves at most `piece`
    /// bytes, and the calls whose numbers, counted from 1, stand in `fail` are to fail. Takes no
    /// memory.
    pub fn new(bytes: Vec<u8>, piece: u32, fail: Vec<u32>) -> SourceMemory
        requires { 0 < piece }
        ensures left { result.left ≡ bytes.items }
        ensures piece { result.piece ≡ piece }
        ensures calls { result.calls ≡ record { fail = fail.items; made = 0; faults = 0 } }
    {
        SourceMemory {
            rest: SourceSure::new(bytes),
            piece,
            script: Script::new(fail),
        }
    }
}

impl Source for SourceMemory {
    ghost left = { λ s. Some s.left };

    ghost faults = { λ s. s.calls.faults };

    /// Fails exactly where this call is to fail: then `into` and what is left stay, and one more
    /// fault is counted. Else it moves as many bytes as are left, fit and stand in a piece, and the
    /// rest of `into` stays. The count of faults is below 2^32, so it never stands at the last value
    /// of a source's count. Takes no memory.
    fn take(&mut self, into: &mut [u8]) -> Result<usize, Failed>
        ensures bound { ReadsAtMost result into.new }
        ensures bytes { Takes (Some self.old.left) (Some self.new.left) result into.new }
        ensures cause { HasCause self.old.calls.faults self.new.calls.faults result }

        ensures failed { is_err result ≡ fails_next self.old.calls }
        ensures count { IfOk result (λ n. n ≡ min (length self.old.left) (min self.old.piece (length into.old))) }
        ensures given { IfOk result (λ n. into.new ≡ take n self.old.left ++ drop n into.old) }
        ensures rest { IfOk result (λ n. self.new.left ≡ drop n self.old.left) }
        ensures passed { OnOk result (self.new.calls ≡ after_call self.old.calls) }

        ensures kept { OnErr result (into.new ≡ into.old) }
        ensures stays { OnErr result (self.new.left ≡ self.old.left) }
        ensures fault { OnErr result (self.new.calls ≡ after_fault self.old.calls) }

        ensures piece { self.new.piece ≡ self.old.piece }
        ensures few { self.new.calls.faults < 2 ^ 32 }
    {
        self.script.count_call()?;
        let most = into.len().min(self.piece as usize);
        self.rest.take(&mut into[..most])
    }
}

/// Room in memory. It keeps the bytes that fit, drops later ones, and tells its bytes as long as
/// all of them fit. Contracts see a record of `specs/Memory.antt`.
#[derive(Drop)]
pub struct SinkMemory {
    store: SinkSure,
    piece: u32,
    script: Script,
}

impl Model for SinkMemory {
    ghost use Rattle.std.specs.Prelude.{◌<◌};
    ghost use Rattle.spur_io.specs.Memory.{Room};

    ghost Value = { Room };

    ghost view = { λ s. record { store = s.store; piece = s.piece; calls = s.script } };

    ghost invariant = { λ s. 0 < s.piece };
}

impl SinkMemory {
    /// Nothing was put, there is room for `room` bytes, no call was made and none failed. A call
    /// moves at most `piece` bytes, and the calls whose numbers, counted from 1, stand in `fail` are
    /// to fail. `AllocError` is want of memory for the room.
    pub fn new(
        alloc: Global,
        room: u32,
        piece: u32,
        fail: Vec<u32>,
    ) -> Result<SinkMemory, AllocError>
        requires { 0 < piece }
        ensures store { IfOk result (λ s. s.store ≡ record { kept = []; fits = true; room = room }) }
        ensures piece { IfOk result (λ s. s.piece ≡ piece) }
        ensures calls { IfOk result (λ s. s.calls ≡ record { fail = fail.items; made = 0; faults = 0 }) }
    {
        Ok(SinkMemory {
            store: SinkSure::new(alloc, room)?,
            piece,
            script: Script::new(fail),
        })
    }

    /// What was put, as far as it fits the room.
    pub fn bytes(&self) -> &[u8]
        ensures { result.now ≡ self.now.store.kept }
    {
        self.store.bytes()
    }
}

impl Sink for SinkMemory {
    ghost written = { λ s. told_bytes s.store };

    ghost faults = { λ s. s.calls.faults };

    /// Fails exactly where this call is to fail: then the bytes stay, and one more fault is
    /// counted. Else it moves as many bytes of `piece` as stand in a piece of this sink. The count
    /// of faults is below 2^32, so it never stands at the last value of a sink's count. Takes no
    /// memory.
    fn put(&mut self, piece: &[u8]) -> Result<usize, Failed>
        ensures bound { WritesAtMost result piece.now }
        ensures bytes { Puts (told_bytes self.old.store) (told_bytes self.new.store) result piece.now }
        ensures cause { HasCause self.old.calls.faults self.new.calls.faults result }

        ensures failed { is_err result ≡ fails_next self.old.calls }
        ensures count { IfOk result (λ n. n ≡ min self.old.piece (length piece.now)) }
        ensures stored { IfOk result (λ n. self.new.store ≡ after_put self.old.store (take n piece.now)) }
        ensures passed { OnOk result (self.new.calls ≡ after_call self.old.calls) }

        ensures stays { OnErr result (self.new.store ≡ self.old.store) }
        ensures fault { OnErr result (self.new.calls ≡ after_fault self.old.calls) }

        ensures piece { self.new.piece ≡ self.old.piece }
        ensures few { self.new.calls.faults < 2 ^ 32 }
    {
        self.script.count_call()?;
        let most = piece.len().min(self.piece as usize);
        self.store.put(&piece[..most])
    }
}
