//! Calls that are counted, and that fail as a list says.
ghost use Rattle.std.specs.Prelude.{◌≡◌, ◌<◌, ◌^◌, is_err};
ghost use Rattle.spur_io.specs.Calls.{after_next, fails_next};

use crate::stream::Failed;
use std::marker::Model;

/// The calls of one kind: those that are to fail, how many there were, and how many of them failed. Objects for tests
/// of faults stand over it. Contracts see a record of `specs/Calls.antt`.
#[derive(Drop)]
pub struct Script {
    fail: Vec<u32>,
    made: u32,
    faults: u32,
}

impl Model for Script {
    ghost use Rattle.std.specs.Prelude.{◌≤◌};
    ghost use Rattle.spur_io.specs.Calls.{Calls};

    ghost Value = { Calls };

    ghost view = { λ s. record { fail = s.fail.items; made = s.made; faults = s.faults } };

    ghost invariant = { λ s. s.faults ≤ s.made };
}

impl Script {
    /// No call was made, and the calls whose numbers, counted from 1, stand in `fail` are to fail.
    /// Takes no memory.
    pub fn new(fail: Vec<u32>) -> Script
        ensures { result ≡ record { fail = fail.items; made = 0; faults = 0 } }
    {
        Script {
            fail,
            made: 0,
            faults: 0,
        }
    }

    /// How many calls there were, at most 2^32 - 1.
    pub fn made(&self) -> u32
        ensures { result ≡ self.now.made }
    {
        self.made
    }

    /// Counts a call. `Failed` is the answer exactly where it is one that is to fail, and the fault
    /// is counted too. The count of calls stays at 2^32 - 1, and calls past that do not fail.
    pub fn count_call(&mut self) -> Result<(), Failed>
        ensures failed { is_err result ≡ fails_next self.old }
        ensures calls { self.new ≡ after_next self.old }
        ensures few { self.new.faults < 2 ^ 32 }
    {
        if self.made == u32::MAX {
            return Ok(());
        }
        self.made += 1;
        if self.fail.contains(&self.made) {
            self.faults += 1;
            return Err(Failed);
        }
        Ok(())
    }
}
