//! A probe that stops at the claims of a block.

ghost use Rattle.std.specs.Prelude.{◌≡◌};
ghost use Rattle.spur_probe.specs.Rules.{claims_block};

use crate::probe::{Probe, ProbeLine, Wish};
use spur_addr::GlobalAddr;
use spur_flat::Entry;
use std::marker::Model;

/// Wishes a stop at each claim of the block of an address, by any board. Its number is the count of such claims that it was
/// shown, up to 2^64 - 1. A block that is brought in for writing is not claimed by that, and so not stopped at then.
/// Contracts see the address and the count.
#[derive(Drop)]
pub struct WatchProbe {
    at: GlobalAddr,
    claims: u64,
}

impl Model for WatchProbe {
    ghost use Rattle.spur_probe.specs.Rules.{AtAddress};

    ghost Value = { AtAddress };

    ghost view = { λ p. record { at = p.at; number = p.claims } };
}

impl WatchProbe {
    ghost use Rattle.std.specs.Prelude.{[], ◌∷◌};
    ghost use Rattle.spur_probe.specs.Rules.{second_number, watches};

    /// A probe for the block of a global byte address, which was shown no claim of it.
    pub fn new(at: GlobalAddr) -> WatchProbe
        ensures claims { result ≡ record { at = at; number = 0 } }
        ensures kept { ⟦<WatchProbe as Probe>⟧.kept result ≡ at ∷ 0 ∷ [] }
        ensures rule { ⟦<WatchProbe as Probe>⟧.rule result ≡ watches }
        ensures reading { ⟦<WatchProbe as Probe>⟧.reads result ≡ second_number }
    {
        WatchProbe { at, claims: 0 }
    }
}

impl Probe for WatchProbe {
    ghost use Rattle.spur_probe.specs.Rules.{pair_of, second_number, watches};

    ghost kept = { pair_of };

    ghost rule = { λ _. watches };

    ghost reads = { λ _. second_number };

    fn saw(&mut self, entry: &Entry) -> Wish {
        if !is_claim_of(entry, self.at) {
            return Wish::GoOn;
        }
        self.claims = self.claims.saturating_add(1);
        Wish::Stop
    }

    fn line(&self) -> ProbeLine {
        ProbeLine {
            number: self.claims,
        }
    }
}

/// Whether an entry is a claim of the block of an address.
fn is_claim_of(entry: &Entry, at: GlobalAddr) -> bool
    ensures { result ≡ claims_block at entry.now }
{
    match *entry {
        Entry::Claim { at: claimed, .. } => claimed.block() == at.block(),
        _ => false,
    }
}
