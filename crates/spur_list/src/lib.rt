//! A growable list that contracts see as the list of its members, and as nothing else.
//!
//! A `Vec` in a contract has a place and a capacity beside its members, so two structs that hold equal members need not
//! be equal. A struct with public fields holds an `Items` instead, and a clause compares it with a definition's value.
#![tactic(auto)]

ghost use Rattle.std.specs.Prelude.{◌≡◌, ◌==◌, ◌+◌, ◌<◌, ◌≤◌, ◌++◌, ◌∷◌, [], length, slice_set, OnOk, OnErr};
ghost use Rattle.spur_list.specs.Parts.{part_at, with_part};

use std::alloc::{AllocError, Global};
use std::marker::Model;

/// A growable list, seen by contracts as the list of its members.
#[derive(Drop, Debug)]
pub struct Items<T> {
    items: Vec<T>,
}

impl<T> Model for Items<T> {
    ghost use Rattle.std.specs.Prelude.{List};

    ghost Value = { List T };

    ghost view = { λ a. a.items.items };
}

impl<T> Items<T> {
    /// The empty list, which takes no memory yet.
    pub fn new(alloc: Global) -> Items<T>
        ensures { result ≡ [] }
    {
        Items {
            items: Vec::new(alloc),
        }
    }

    /// The members of a vector, moved and not copied.
    pub fn from_vec(items: Vec<T>) -> Items<T>
        ensures { result ≡ items.items }
    {
        Items { items }
    }

    /// The members as a vector, moved and not copied.
    pub fn into_vec(self) -> Vec<T>
        ensures { result.items ≡ self }
    {
        self.items
    }

    /// The members.
    pub fn as_slice(&self) -> &[T]
        ensures { result.now ≡ self.now }
    {
        self.items.as_slice()
    }

    /// How many members there are.
    pub fn len(&self) -> usize
        ensures { result ≡ length self.now }
    {
        self.items.len()
    }

    /// Whether there is no member.
    pub fn is_empty(&self) -> bool
        ensures { result ≡ (length self.now == 0) }
    {
        self.items.is_empty()
    }

    /// Puts a member at the end. Where memory is wanting, the list is as it was and the member is dropped.
    pub fn push(&mut self, item: T) -> Result<(), AllocError>
    where
        T: Drop,
        ensures ok { OnOk result (self.new ≡ self.old ++ item ∷ []) }
        ensures err { OnErr result (self.new ≡ self.old) }
    {
        self.items.push(item)?;
        Ok(())
    }

    /// Puts another member at a position, which is below the length.
    pub fn set(&mut self, position: usize, item: T)
    where
        T: Drop,
        requires { position < length self.old }
        ensures { self.new ≡ slice_set self.old position item }
    {
        self.items[position] = item;
    }

    /// Puts `count` members of another list, from its position `at` on, in the place of as many from position `to` on.
    /// Both lists have so many members there.
    pub fn copy_part(&mut self, to: usize, other: &Items<T>, at: usize, count: usize)
    where
        T: Copy,
        requires there { to + count ≤ length self.old }
        requires here { at + count ≤ length other.now }
        ensures { self.new ≡ with_part self.old to (part_at other.now at count) count }
    {
        copy_members(&mut self.items, to, &other.items, at, count);
    }
}

/// Puts `count` members of `from`, from position `at` on, in the place of as many of `members` from position `to` on.
fn copy_members<T>(members: &mut [T], to: usize, from: &[T], at: usize, count: usize)
where
    T: Copy,
    requires there { to + count ≤ length members.old }
    requires here { at + count ≤ length from.now }
    ensures { members.new ≡ with_part members.old to (part_at from.now at count) count }
{
    members[to..to + count].copy_from_slice(&from[at..at + count]);
}

#[cfg(test)]
mod tests {
    use super::*;
    use std::test::Fail;

    #[test]
    fn pushes_and_sets(rt: HostRuntime) -> Result<(), Fail> {
        let mut list = Items::new(rt.alloc());
        assert!(rt; list.is_empty());
        for member in [3u32, 5, 8] {
            list.push(member)?;
        }
        assert_eq!(rt; list.len(), 3);
        list.set(1, 7);
        assert_eq!(rt; list.as_slice(), [3u32, 7, 8].as_slice());
        assert_eq!(rt; list.into_vec().as_slice(), [3u32, 7, 8].as_slice());
        Ok(())
    }

    #[test]
    fn copies_a_part(rt: HostRuntime) -> Result<(), Fail> {
        let mut list = Items::new(rt.alloc());
        let mut other = Items::new(rt.alloc());
        for member in [1u32, 2, 3, 4, 5] {
            list.push(member)?;
            other.push(member * 10)?;
        }
        if other.len() != 5 || list.len() != 5 {
            return Err(Fail::from("five members were pushed"));
        }
        list.copy_part(1, &other, 2, 3);
        assert_eq!(rt; list.as_slice(), [1u32, 30, 40, 50, 5].as_slice());
        assert_eq!(rt; other.as_slice(), [10u32, 20, 30, 40, 50].as_slice());
        list.copy_part(5, &other, 0, 0);
        assert_eq!(rt; list.as_slice(), [1u32, 30, 40, 50, 5].as_slice());
        Ok(())
    }

    /// Takes a value that may go to another thread.
    fn take_sendable<T: Send + Drop>(_value: T) {}

    #[test]
    fn a_list_may_go_to_another_thread(rt: HostRuntime) {
        take_sendable::<Items<u32>>(Items::new(rt.alloc()));
    }
}
