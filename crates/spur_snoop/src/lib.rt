//! The table of the Berkeley Ownership protocol, by which the boards' caches of SPUR agree.
//!
//! A cache has a block in one of four states. The table says what a board asks of the bus before it
//! may read or write a word of the block, and what every other board does with its own copy when it
//! sees that transaction on the bus.
#![tactic(auto)]

ghost use Rattle.std.specs.Prelude.{◌≡◌};
ghost use Rattle.spur_snoop.specs.Protocol.{OwnersSupplyReads, asked_of, is_alive, is_exclusive, is_owned, snooped_of, supplies};

/// The state of a block in one cache: the four states of the Berkeley Ownership protocol.
#[derive(Clone, Copy, Debug, PartialEq, Eq)]
pub enum BlockState {
    /// The cache does not have the block.
    Invalid,
    /// The cache has the block, which may be read, and does not own it: it neither supplies it nor writes
    /// it back. Others may have it.
    UnOwned,
    /// The cache owns the block: it supplies it to others, and writes it back before it gives it up, since
    /// memory may be old. Others may have it too.
    OwnedNonExclusive,
    /// The cache owns the block, and no other cache has it: it may be written without the bus.
    OwnedExclusive,
}

impl BlockState {
    /// Whether the cache has the block at all.
    pub fn is_valid(self) -> bool
        ensures { result ≡ is_alive self }
    {
        !matches!(self, BlockState::Invalid)
    }

    /// Whether the cache owns the block, so that the block has to go to memory before the cache loses it.
    pub fn is_owned(self) -> bool
        ensures { result ≡ is_owned self }
    {
        matches!(
            self,
            BlockState::OwnedNonExclusive | BlockState::OwnedExclusive
        )
    }

    /// Whether the cache owns the block and no other cache has it, so that it may be written without the bus.
    pub fn is_exclusive(self) -> bool
        ensures { result ≡ is_exclusive self }
    {
        matches!(self, BlockState::OwnedExclusive)
    }
}

/// What a board wants to do with a block.
#[derive(Clone, Copy, Debug, PartialEq, Eq)]
pub enum Need {
    /// To read a word of it.
    Read,
    /// To write a word of it.
    Write,
}

/// What a board asks of the bus before it does what it needs.
#[derive(Clone, Copy, Debug, PartialEq, Eq)]
pub enum BusWant {
    /// Nothing: its copy is good enough.
    Nothing,
    /// The block, to read it, while others keep theirs.
    ReadShared,
    /// The block, to write it, so that no other keeps it.
    ReadOwned,
    /// That no other keeps the block, which the board has.
    Claim,
}

/// What a board sees another do on the bus.
#[derive(Clone, Copy, Debug, PartialEq, Eq)]
pub enum BusKind {
    /// The other reads the block.
    ReadShared,
    /// The other reads the block and becomes its only holder.
    ReadOwned,
    /// The other has the block already and becomes its only holder.
    Claim,
    /// The other, the block's owner, writes it to memory.
    WriteBack,
}

/// What a board asks of the bus for a block that it has in this state.
///
/// The rule is the Berkeley Ownership protocol's: a read wants any copy, and a write wants ownership
/// that no other cache shares.
pub fn asked(state: BlockState, need: Need) -> BusWant
    ensures { result ≡ asked_of state need }
{
    match (state, need) {
        (BlockState::Invalid, Need::Read) => BusWant::ReadShared,
        (BlockState::Invalid, Need::Write) => BusWant::ReadOwned,
        (BlockState::UnOwned | BlockState::OwnedNonExclusive, Need::Write) => BusWant::Claim,
        (BlockState::OwnedExclusive, Need::Write) | (_, Need::Read) => BusWant::Nothing,
    }
}

/// What a board's own copy becomes when it sees a transaction of another board on the same block, and
/// whether it supplies the block's words.
///
/// The rule is the Berkeley Ownership protocol's: the owner supplies what is read and stays the owner
/// while the reader only shares it, and a copy dies where another becomes the only holder.
pub fn snooped(state: BlockState, kind: BusKind) -> (BlockState, bool)
    ensures state { result.0 ≡ snooped_of state kind }
    ensures supplies { result.1 ≡ supplies state kind }
{
    let owned = state.is_owned();
    match kind {
        BusKind::ReadShared => match state {
            BlockState::OwnedExclusive => (BlockState::OwnedNonExclusive, true),
            _ => (state, owned),
        },
        BusKind::ReadOwned => (BlockState::Invalid, owned),
        BusKind::Claim => (BlockState::Invalid, false),
        BusKind::WriteBack => (state, false),
    }
}

/// A block is supplied exactly where it is read and its copy is owned.
pub fn owners_supply_reads()
    ensures { OwnersSupplyReads }
{}

#[cfg(test)]
mod tests {
    use super::*;

    #[test]
    fn a_state_is_tested_as_the_table_says(rt: HostRuntime) {
        let rows = [
            (BlockState::Invalid, false, false, false),
            (BlockState::UnOwned, true, false, false),
            (BlockState::OwnedNonExclusive, true, true, false),
            (BlockState::OwnedExclusive, true, true, true),
        ];
        for (state, valid, owned, exclusive) in rows {
            assert_eq!(rt; state.is_valid(), valid);
            assert_eq!(rt; state.is_owned(), owned);
            assert_eq!(rt; state.is_exclusive(), exclusive);
        }
    }

    #[test]
    fn a_board_asks_as_the_table_says(rt: HostRuntime) {
        let rows = [
            (BlockState::Invalid, BusWant::ReadShared, BusWant::ReadOwned),
            (BlockState::UnOwned, BusWant::Nothing, BusWant::Claim),
            (
                BlockState::OwnedNonExclusive,
                BusWant::Nothing,
                BusWant::Claim,
            ),
            (
                BlockState::OwnedExclusive,
                BusWant::Nothing,
                BusWant::Nothing,
            ),
        ];
        for (state, read, write) in rows {
            assert_eq!(rt; asked(state, Need::Read), read);
            assert_eq!(rt; asked(state, Need::Write), write);
        }
    }

    #[test]
    fn a_board_snoops_as_the_table_says(rt: HostRuntime) {
        let kinds = [
            BusKind::ReadShared,
            BusKind::ReadOwned,
            BusKind::Claim,
            BusKind::WriteBack,
        ];
        let rows = [
            (
                BlockState::Invalid,
                [
                    (BlockState::Invalid, false),
                    (BlockState::Invalid, false),
                    (BlockState::Invalid, false),
                    (BlockState::Invalid, false),
                ],
            ),
            (
                BlockState::UnOwned,
                [
                    (BlockState::UnOwned, false),
                    (BlockState::Invalid, false),
                    (BlockState::Invalid, false),
                    (BlockState::UnOwned, false),
                ],
            ),
            (
                BlockState::OwnedNonExclusive,
                [
                    (BlockState::OwnedNonExclusive, true),
                    (BlockState::Invalid, true),
                    (BlockState::Invalid, false),
                    (BlockState::OwnedNonExclusive, false),
                ],
            ),
            (
                BlockState::OwnedExclusive,
                [
                    (BlockState::OwnedNonExclusive, true),
                    (BlockState::Invalid, true),
                    (BlockState::Invalid, false),
                    (BlockState::OwnedExclusive, false),
                ],
            ),
        ];
        for (state, wanted) in rows {
            for k in 0..4 {
                assert_eq!(rt; snooped(state, kinds[k]), wanted[k]);
            }
        }
    }
}
