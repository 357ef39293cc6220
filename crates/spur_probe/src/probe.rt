//! What a probe promises.

ghost use Rattle.std.specs.Prelude.{◌≡◌};

use spur_flat::Entry;

/// What a probe wishes after an entry.
#[derive(Clone, Copy, Debug, PartialEq, Eq)]
pub enum Wish {
    /// That the run goes on.
    GoOn,
    /// That the run stops.
    Stop,
}

/// What a report tells of a probe.
#[derive(Clone, Copy, Debug, PartialEq, Eq)]
pub struct ProbeLine {
    /// The probe's number.
    pub number: u64,
}

/// What is shown the entries of a history, one after another, in the history's order.
pub trait Probe: Drop {
    ghost use Rattle.std.specs.Prelude.{ℕ, List};
    ghost use Rattle.spur_probe.specs.Rules.{Rule};

    /// What the probe has kept of the entries that it was shown, as a list of numbers. Where it keeps an address, that is
    /// one of them.
    ghost kept: { Self → List ℕ };

    /// The state after an entry, and the probe's wish, by the state before. No call changes it.
    ghost rule: { Self → Rule };

    /// The number that is told, read off the state. No call changes how it is read.
    ghost reads: { Self → List ℕ → ℕ };

    /// Shows the probe one entry. Takes no memory.
    fn saw(&mut self, entry: &Entry) -> Wish
        ensures moved { (kept self.new, result) ≡ rule self.old (kept self.old) entry.now }
        ensures same_rule { rule self.new ≡ rule self.old }
        ensures same_reading { reads self.new ≡ reads self.old };

    /// What a report tells of the probe.
    fn line(&self) -> ProbeLine
        ensures { result.number ≡ reads self.now (kept self.now) };
}
