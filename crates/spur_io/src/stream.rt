//! What a source and a sink of bytes promise. These rules are this project's own.
ghost use Rattle.std.specs.Prelude.{List, ℕ};
ghost use Rattle.std.specs.Io.{ReadsAtMost, WritesAtMost};
ghost use Rattle.std.specs.declared.option.Option.{Option};
ghost use Rattle.spur_io.specs.Faults.{HasCause};
ghost use Rattle.spur_io.specs.Told.{Puts, Takes};

use thiserror::Error;

/// A call of a source or a sink that moved nothing and was counted as a fault.
#[derive(Clone, Copy, Debug, PartialEq, Eq, Error)]
#[error("the call failed")]
pub struct Failed;

/// Bytes to read.
pub trait Source {
    /// The bytes that are left, where the source tells them. One that tells goes on telling, and
    /// one that does not tell does not begin to.
    ghost left: { Self → Option (List ℕ) };

    /// How many faults there were. The count never falls, and 2^64 - 1 is its last value.
    ghost faults: { Self → ℕ };

    /// Takes bytes from the front of what is left into the front of `into`, and answers how many:
    /// at most the length of `into`. Where `into` is not empty, `Ok(0)` is the end of the input.
    ///
    /// `Failed` comes only where the count of faults rose in this call, or stands at its last value.
    /// Nothing was taken then, and what `into` holds is open.
    fn take(&mut self, into: &mut [u8]) -> Result<usize, Failed>
        ensures bound { ReadsAtMost result into.new }
        ensures bytes { Takes (left self.old) (left self.new) result into.new }
        ensures cause { HasCause (faults self.old) (faults self.new) result };
}

/// A place for bytes.
pub trait Sink {
    /// The bytes put so far, where the sink tells them. A sink may cease to tell, and one that
    /// tells after a call told before it.
    ghost written: { Self → Option (List ℕ) };

    /// How many faults there were. The count never falls, and 2^64 - 1 is its last value.
    ghost faults: { Self → ℕ };

    /// Puts bytes from the front of `piece` behind those put so far, and answers how many: at most
    /// the length of `piece`, and at least 1 where it is not empty.
    ///
    /// `Failed` comes only where the count of faults rose in this call, or stands at its last value.
    /// Nothing was put then.
    fn put(&mut self, piece: &[u8]) -> Result<usize, Failed>
        ensures bound { WritesAtMost result piece.now }
        ensures bytes { Puts (written self.old) (written self.new) result piece.now }
        ensures cause { HasCause (faults self.old) (faults self.new) result };
}
