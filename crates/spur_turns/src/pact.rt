//! What those who share places and a bus agree on.
/// An agreement on a bus and its places, which the lock keeps without ever looking into one of them.
///
/// The two relations and the name are all that the lock knows of its values, and the two laws are all that its proof
/// uses of these.
pub trait Pact {
    ghost use Rattle.std.specs.Prelude.{ℕ, List};
    ghost use Rattle.spur_turns.specs.Pacts.{KeepsGood, Rests};

    /// What one seat at a time has, together with all places.
    type Bus;

    /// What each seat has one of.
    type Place;

    /// What a bus keeps for ever. Contracts alone see a value of it.
    type Name;

    /// Whether a bus and the places, in the order of their numbers, fit together.
    ghost good: { Self.Bus → List Self.Place → Type 0 };

    /// Whether the seat of a number may leave its place changed so, without the bus.
    ghost own_step: { ℕ → Self.Place → Self.Place → Type 0 };

    /// The name of a bus.
    ghost name: { Self.Bus → Self.Name };

    /// Each place of a good state is an own step after itself.
    ghost rests: { Rests good own_step };

    /// An own step of one place keeps what is good, whatever the other places are.
    ghost keeps: { KeepsGood good own_step };
}
