//! A history with spare room.

ghost use Rattle.std.specs.Prelude.{◌≡◌, ◌≤◌, ◌+◌, ◌-◌, ◌++◌, ◌∷◌, [], IsOk, OnErr, OnOk, length, vec_capacity, vec_len};

use crate::entry::Entry;
use std::alloc::{AllocError, Global};
use std::marker::Model;

/// The entries of a history, with room for more of them.
///
/// Contracts see the list of entries, and how many more can be appended before memory is needed. Only `append` and
/// `append_all` make the room less.
#[derive(Debug, Drop)]
pub struct History {
    entries: Vec<Entry>,
}

impl Model for History {
    ghost use Rattle.std.specs.Prelude.{◌-◌, vec_capacity, vec_len};
    ghost use Rattle.spur_flat.specs.Past.{Past};

    ghost Value = { Past };

    ghost view = { λ h. record { entries = h.entries.items; room = vec_capacity h.entries - vec_len h.entries } };
}

impl History {
    /// A history with no entries. This takes no memory; `reserve` does.
    pub fn new(alloc: Global) -> History
        ensures { result.entries ≡ [] }
    {
        History {
            entries: Vec::new(alloc),
        }
    }

    /// A history with these entries, moved and not copied.
    pub fn from_vec(entries: Vec<Entry>) -> History
        ensures entries { result.entries ≡ entries.items }
        ensures room { result.room ≡ vec_capacity entries - vec_len entries }
    {
        History { entries }
    }

    /// The entries, moved and not copied.
    pub fn into_vec(self) -> Vec<Entry>
        ensures entries { result.items ≡ self.entries }
        ensures room { vec_capacity result - vec_len result ≡ self.room }
    {
        self.entries
    }

    /// The entries.
    pub fn entries(&self) -> &[Entry]
        ensures { result.now ≡ self.now.entries }
    {
        self.entries.as_slice()
    }

    /// Makes room for `more` entries beside those that there are. `AllocError` comes only for want of memory, and all is
    /// as it was then; it never comes where the room is there already.
    pub fn reserve(&mut self, more: usize) -> Result<(), AllocError>
        ensures kept { self.new.entries ≡ self.old.entries }
        ensures room { OnOk result (more ≤ self.new.room) }
        ensures never_less { self.old.room ≤ self.new.room }
        ensures there { more ≤ self.old.room → IsOk result }
        ensures as_was { OnErr result (self.new ≡ self.old) }
    {
        self.entries.reserve(more)?;
        Ok(())
    }

    /// Appends an entry, for which there is room.
    pub fn append(&mut self, entry: Entry)
        requires { 1 ≤ self.old.room }
        ensures entry { self.new.entries ≡ self.old.entries ++ entry ∷ [] }
        ensures room { self.new.room + 1 ≡ self.old.room }
    {
        self.entries.push_reserved(entry);
    }

    /// Appends all entries of another history, for which there is room, and empties that one, whose memory stays its
    /// own: its room grows by as much as this one's shrinks.
    pub fn append_all(&mut self, other: &mut History)
        requires { length other.old.entries ≤ self.old.room }
        ensures entries { self.new.entries ≡ self.old.entries ++ other.old.entries }
        ensures room { self.new.room + length other.old.entries ≡ self.old.room }
        ensures emptied { other.new.entries ≡ [] }
        ensures other_room { other.new.room ≡ other.old.room + length other.old.entries }
    {
        self.append_each(&other.entries);
        other.entries.clear();
    }

    /// Appends entries for which there is room.
    fn append_each(&mut self, entries: &[Entry])
        requires { length entries.now ≤ self.old.room }
        ensures entries { self.new.entries ≡ self.old.entries ++ entries.now }
        ensures room { self.new.room + length entries.now ≡ self.old.room }
    {
        for entry in entries {
            self.append(*entry);
        }
    }
}

#[cfg(test)]
mod tests {
    use super::*;
    use spur_addr::global;
    use std::test::Fail;

    /// A claim of the block at this address of segment 0.
    fn claim(at: u32) -> Entry {
        Entry::Claim {
            board: 0,
            at: global(&[0, 0, 0, 0], at),
        }
    }

    #[test]
    fn entries_are_appended(rt: HostRuntime) -> Result<(), Fail> {
        let mut history = History::from_vec(vec![in rt.alloc(); claim(32)]?);
        history.reserve(2)?;
        // the room is there
        history.reserve(1)?;
        history.append(claim(64));
        history.append(claim(96));
        let wanted = [claim(32), claim(64), claim(96)];
        assert_eq!(rt; history.entries(), wanted.as_slice());
        assert_eq!(rt; history.into_vec().as_slice(), wanted.as_slice());
        Ok(())
    }

    #[test]
    fn one_history_moves_into_another(rt: HostRuntime) -> Result<(), Fail> {
        let mut all = History::new(rt.alloc());
        all.reserve(3)?;
        let mut own = History::new(rt.alloc());
        own.reserve(2)?;
        own.append(claim(32));
        own.append(claim(64));
        all.append_all(&mut own);
        assert_eq!(rt; own.entries().len(), 0);
        // its own room is there again
        own.append(claim(96));
        assert_eq!(rt; own.entries().len(), 1);
        all.append_all(&mut own);
        let wanted = [claim(32), claim(64), claim(96)];
        assert_eq!(rt; all.entries(), wanted.as_slice());
        Ok(())
    }

    /// Takes a value that may go to another thread.
    fn take_sendable<T: Send + Drop>(_value: T) {}

    #[test]
    fn it_may_go_to_another_thread(rt: HostRuntime) {
        take_sendable(History::new(rt.alloc()));
    }
}
