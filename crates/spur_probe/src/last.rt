//! A probe that follows the stores to a word.

ghost use Rattle.std.specs.Prelude.{◌≡◌};
ghost use Rattle.spur_probe.specs.Rules.{stored_word};

use crate::probe::{Probe, ProbeLine, Wish};
use spur_addr::GlobalAddr;
use spur_flat::Entry;
use std::marker::Model;

/// Keeps the value that was last stored to the word of an address, by any board, and wishes no stop. Its number is that value,
/// and 0 before the first store. Test-and-sets are not followed. Contracts see the address and the value.
#[derive(Drop)]
pub struct LastProbe {
    at: GlobalAddr,
    value: u32,
}

impl Model for LastProbe {
    ghost use Rattle.spur_probe.specs.Rules.{AtAddress};

    ghost Value = { AtAddress };

    ghost view = { λ p. record { at = p.at; number = p.value } };
}

impl LastProbe {
    ghost use Rattle.std.specs.Prelude.{[], ◌∷◌};
    ghost use Rattle.spur_probe.specs.Rules.{follows, second_number};

    /// A probe for the word of a global byte address, which was shown no store to it.
    pub fn new(at: GlobalAddr) -> LastProbe
        ensures value { result ≡ record { at = at; number = 0 } }
        ensures kept { ⟦<LastProbe as Probe>⟧.kept result ≡ at ∷ 0 ∷ [] }
        ensures rule { ⟦<LastProbe as Probe>⟧.rule result ≡ follows }
        ensures reading { ⟦<LastProbe as Probe>⟧.reads result ≡ second_number }
    {
        LastProbe { at, value: 0 }
    }
}

impl Probe for LastProbe {
    ghost use Rattle.spur_probe.specs.Rules.{follows, pair_of, second_number};

    ghost kept = { pair_of };

    ghost rule = { λ _. follows };

    ghost reads = { λ _. second_number };

    fn saw(&mut self, entry: &Entry) -> Wish {
        if let Some(value) = stored(entry, self.at) {
            self.value = value;
        }
        Wish::GoOn
    }

    fn line(&self) -> ProbeLine {
        ProbeLine {
            number: u64::from(self.value),
        }
    }
}

/// The value that an entry stores to the word of an address, where it is a store to it.
fn stored(entry: &Entry, at: GlobalAddr) -> Option<u32>
    ensures { result ≡ stored_word at entry.now }
{
    match *entry {
        Entry::Store {
            at: place,
            value,
            ..
        } if place.number() / 4 == at.number() / 4 => Some(value),
        _ => None,
    }
}
