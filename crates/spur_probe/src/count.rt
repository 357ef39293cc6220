//! A probe that counts entries.

ghost use Rattle.std.specs.Prelude.{◌≡◌};

use crate::probe::{Probe, ProbeLine, Wish};
use spur_flat::Entry;
use std::marker::Model;

/// Counts the entries that it is shown, up to 2^64 - 1, and wishes no stop. Its number is their count. Contracts see the
/// count.
#[derive(Drop)]
pub struct CountProbe {
    seen: u64,
}

impl Model for CountProbe {
    ghost use Rattle.std.specs.Prelude.{ℕ};

    ghost Value = { ℕ };

    ghost view = { λ p. p.seen };
}

impl CountProbe {
    ghost use Rattle.std.specs.Prelude.{[], ◌∷◌};
    ghost use Rattle.spur_probe.specs.Rules.{counts, first_number};

    /// A probe that has seen nothing.
    pub fn new() -> CountProbe
        ensures seen { result ≡ 0 }
        ensures kept { ⟦<CountProbe as Probe>⟧.kept result ≡ 0 ∷ [] }
        ensures rule { ⟦<CountProbe as Probe>⟧.rule result ≡ counts }
        ensures reading { ⟦<CountProbe as Probe>⟧.reads result ≡ first_number }
    {
        CountProbe { seen: 0 }
    }
}

impl Probe for CountProbe {
    ghost use Rattle.std.specs.Prelude.{[], ◌∷◌};
    ghost use Rattle.spur_probe.specs.Rules.{counts, first_number};

    ghost kept = { λ seen. seen ∷ [] };

    ghost rule = { λ _. counts };

    ghost reads = { λ _. first_number };

    fn saw(&mut self, _entry: &Entry) -> Wish {
        self.seen = self.seen.saturating_add(1);
        Wish::GoOn
    }

    fn line(&self) -> ProbeLine {
        ProbeLine { number: self.seen }
    }
}
