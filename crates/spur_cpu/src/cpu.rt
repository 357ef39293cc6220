//! What a processor is: what it wants, what it is answered, and its calls.

ghost use Rattle.std.specs.Prelude.{◌≡◌, ℕ, ◌≤◌, ◌+◌, true};

use spur_flat::{AccessKind, FaultKind};
use spur_isa::Reg;

/// What a processor wants to do next.
#[derive(Clone, Copy, Debug, PartialEq, Eq)]
pub enum Want {
    /// An instruction that needs no memory.
    Local,
    /// An access at the process address `va`, in bytes. `value` is the word that it writes: what a store stores, 1 for a
    /// test-and-set, and 0 for a load, which writes none.
    Access {
        kind: AccessKind,
        va: u32,
        value: u32,
    },
    /// Nothing more.
    Ended,
}

/// What an access is answered.
#[derive(Clone, Copy, Debug, PartialEq, Eq)]
pub enum Answer {
    /// It is done. The word is the one that a load or a test-and-set read; a processor doesn't look at a store's.
    Done(u32),
    /// A fault that ends the board: Align, Unmapped or Protection. The other faults are no answers: they leave the
    /// access to be tried again.
    Faulted(FaultKind),
}

/// A processor: what runs on a board, one instruction at a time.
///
/// Each type has a meaning of its own: the type of its states, what is read of a state, what a state wants, and the
/// states after a local instruction and after an answer. A processor's state is what it is now. Beside the state it has
/// room for so many values that it may still show, and none of its calls takes memory.
pub trait Cpu: Drop {
    ghost use Rattle.spur_cpu.specs.Meaning.{WantsAccess, IsLawful, MayAnswer, Meaning};
    ghost use Rattle.spur_cpu.specs.declared.cpu.Want.TheVariants.{Local};

    ghost State: { Type 0 };

    ghost state: { Self → State };

    ghost room: { Self → ℕ };

    ghost meaning: { Meaning State };

    /// What the processor wants to do next.
    fn want(&self) -> Want
        ensures { result ≡ meaning.wants (state self.now) };

    /// Does an instruction that needs no memory. One that shows a value needs room for it; no other needs room, and
    /// none takes more than one.
    fn local(&mut self)
        requires local { meaning.wants (state self.old) ≡ Local }
        requires room { meaning.shows (state self.old) ≡ true → 1 ≤ room self.old }
        ensures state { state self.new ≡ meaning.local (state self.old) }
        ensures room { room self.old ≤ room self.new + 1 };

    /// Takes the answer of the access that the processor wants. It takes no room.
    fn answer(&mut self, answer: Answer)
        requires access { WantsAccess (meaning.wants (state self.old)) }
        requires ending { MayAnswer answer }
        ensures state { state self.new ≡ meaning.answer (state self.old) answer }
        ensures room { room self.new ≡ room self.old };

    /// The word of a register.
    fn register(&self, reg: Reg) -> u32
        ensures { result ≡ meaning.register (state self.now) reg };

    /// The place in its program, counted in instructions from 0.
    fn place(&self) -> u32
        ensures { result ≡ meaning.place (state self.now) };

    /// The values that it has shown, in the order of time.
    fn shown(&self) -> &[u32]
        ensures { result.now ≡ meaning.shown (state self.now) };

    ghost lawful: { IsLawful meaning };
}
