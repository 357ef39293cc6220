//! Flat memory with its page table.

ghost use Rattle.std.specs.Prelude.{◌≡◌, ◌^◌, ◌<◌, ◌≤◌, true, None, Some, IfOk, OnOk, OnErr, length, slice_index};
ghost use Rattle.spur_flat.specs.Access.{may, miss_of};
ghost use Rattle.spur_flat.specs.Table.{data_word, place_in, place_of, table_words, walk_of};
ghost use Rattle.spur_flat.specs.Validity.{IsValidFlat};
ghost use Rattle.spur_flat.specs.Refusal.{done_refusal, fault_refusal, read_refusal, refusal_of};
ghost use Rattle.spur_flat.specs.Refused.{place_or, result_of};
ghost use Rattle.spur_flat.specs.History.{on, with_word_at};

use crate::access::{AccessKind, FaultKind, admit, may_fault, miss};
use crate::entry::Entry;
use crate::illegal::{Clause, Illegal};
use spur_addr::{GlobalAddr, PAGE_WORDS, Pte};
use spur_list::Items;

/// The plain machine's state: memory, swap, and which pages are declared.
///
/// Memory is in frames of 1024 words. Frames 0 to 63 hold the root table, the next `tables` frames
/// the pages of the page table, and the next `frames` frames the data. That the root stands there,
/// and that the pages of the table never move, is this project's profile.
#[derive(Debug, Drop)]
pub struct Flat {
    /// The words of all frames, in the order of their places.
    pub words: Items<u32>,
    /// The words of all swap slots, 1024 a slot.
    pub swap: Items<u32>,
    /// The numbers of the declared pages, each below `255 * 2^18`. The slot of a page is its position
    /// here.
    pub pages: Items<u32>,
    /// How many frames hold pages of the page table.
    pub tables: u32,
    /// How many frames hold data.
    pub frames: u32,
}

impl Flat {
    /// The page-table entry of the page that `at` is in; `None` exactly where its root entry is not
    /// valid.
    ///
    /// As in SPUR there are two levels: the root entry names the frame of the table's page, and the
    /// entry stands there.
    pub fn walk(&self, at: GlobalAddr) -> Option<Pte>
        requires { IsValidFlat self.now }
        ensures { result ≡ walk_of self.now at }
    {
        let root = self.entry(at.number() as usize >> 22);
        if root.valid() {
            let place = root.number() as usize * PAGE_WORDS + at.page() as usize % PAGE_WORDS;
            Some(self.entry(place))
        } else {
            None
        }
    }

    /// The entry that a word of the root or of the page table is: each of them is readable.
    pub(crate) fn entry(&self, place: usize) -> Pte
        requires valid { IsValidFlat self.now }
        requires in_tables { place < table_words self.now.tables }
        ensures { result ≡ slice_index self.now.words place }
    {
        let Ok(entry) = Pte::read(self.words.as_slice()[place]) else {
            unreachable!();
        };
        entry
    }

    /// The miss answer of an access: the first fault that applies to it, in the order of `FaultKind`,
    /// or `None` where none does and the access may be done.
    ///
    /// It is always an allowed answer of the access. The order is this project's profile.
    pub fn miss(&self, access: AccessKind, at: GlobalAddr) -> Option<FaultKind>
        requires { IsValidFlat self.now }
        ensures { result ≡ miss_of (walk_of self.now at) access at }
    {
        miss(self.walk(at), access, at)
    }

    /// The word at `at`, as a load there reads it.
    ///
    /// A load has to be an access that may be done there, as it is where `miss` answers `None`.
    pub fn word(&self, at: GlobalAddr) -> u32
        requires valid { IsValidFlat self.now }
        requires allowed { may (walk_of self.now at) AccessKind.Load at None ≡ true }
        ensures { result ≡ data_word self.now at }
    {
        let Some(entry) = self.walk(at) else {
            unreachable!();
        };
        self.words.as_slice()[place_under(entry, at)]
    }

    /// Takes an entry: makes the change that it makes, or says why it is refused and changes nothing.
    ///
    /// A load, a store or a test-and-set is refused by the rule `Fault` where one of the faults Align,
    /// Unmapped, Missing, Protection and Dirty applies to it: WANTED is the first of these, FOUND is
    /// 0. A load or a test-and-set is then refused by the rule `Answer` where it read another word
    /// than the one that stands in memory: WANTED is that word, FOUND the entry's. A fault is refused
    /// by the rule `Fault` where the access may not have it: WANTED is the miss answer (0 where there
    /// is none), FOUND the entry's fault. A store makes the word its value, and a test-and-set makes
    /// it 1; a load and a fault change nothing.
    ///
    /// The entries of the bus, from `Fill` to `BlockFlush`, are never refused here and change nothing:
    /// what they ask of the boards' lines is not a matter of the plain machine.
    ///
    /// An entry of the pager is refused by the rule `Pager` where one of its conditions fails: WANTED
    /// is the number of the first that does.
    ///
    /// | no. | entry | condition | FOUND |
    /// |---|---|---|---|
    /// | 1 | all six | the page is declared | 0 |
    /// | 2 | `Leave` | the page's entry is valid, and not leaving | the entry's word |
    /// | 3 | `PageOut` | it is valid and leaving | the entry's word |
    /// | 4 | `PageIn` | it is on swap, and not valid | the entry's word |
    /// | 5 | `PageIn` | the frame is one of the data, and no declared page is in it | the frame |
    /// | 6 | `SetRef` | it is valid, and not referenced | the entry's word |
    /// | 7 | `SetDirty` | it is valid and not dirty, and the page may be written | the entry's word |
    /// | 8 | `ClearRef` | it is valid and referenced, and not leaving | the entry's word |
    ///
    /// Four of them set or clear one bit of the page's entry: `Leave` sets leaving, `SetRef` and
    /// `ClearRef` set and clear referenced, and `SetDirty` sets dirty. A `PageOut` puts the words of the
    /// page's frame into its swap slot where the page is dirty, and makes the entry that of a page on
    /// swap. A `PageIn` puts the words of the slot into the frame, and makes the entry valid and
    /// referenced, with no other bit. Both keep the protection.
    pub fn apply(&mut self, entry: &Entry) -> Result<(), Illegal>
        requires { IsValidFlat self.old }
        ensures exact { result ≡ result_of (refusal_of self.old entry.now) }
        ensures ok { OnOk result (self.new ≡ on self.old entry.now) }
        ensures err { OnErr result (self.new ≡ self.old) }
        ensures valid { IsValidFlat self.new }
    {
        match entry {
            Entry::Load { at, value, .. } => self.load(*at, *value),
            Entry::Store { at, value, .. } => self.store(*at, *value),
            Entry::Tas { at, old, .. } => self.test_and_set(*at, *old),
            Entry::Fault {
                kind,
                access,
                at,
                ..
            } => self.fault(*kind, *access, *at),
            Entry::Fill { .. }
            | Entry::Claim { .. }
            | Entry::WriteBack { .. }
            | Entry::Refresh { .. }
            | Entry::BlockFlush { .. } => Ok(()),
            Entry::Leave { at, .. } => self.leave(*at),
            Entry::PageOut { at, .. } => self.page_out(*at),
            Entry::PageIn { at, frame, .. } => self.page_in(*at, *frame),
            Entry::SetRef { at, .. } => self.set_referenced(*at),
            Entry::SetDirty { at, .. } => self.set_dirty(*at),
            Entry::ClearRef { at, .. } => self.clear_referenced(*at),
        }
    }

    /// Takes a load.
    fn load(&self, at: GlobalAddr, value: u32) -> Result<(), Illegal>
        requires { IsValidFlat self.now }
        ensures { result ≡ result_of (read_refusal self.now AccessKind.Load at value) }
    {
        self.read(AccessKind::Load, at, value)?;
        Ok(())
    }

    /// Takes a store.
    fn store(&mut self, at: GlobalAddr, value: u32) -> Result<(), Illegal>
        requires { IsValidFlat self.old }
        ensures exact { result ≡ result_of (done_refusal self.old AccessKind.Store at) }
        ensures ok { OnOk result (self.new ≡ with_word_at self.old (place_of self.old at) value) }
        ensures err { OnErr result (self.new ≡ self.old) }
        ensures valid { IsValidFlat self.new }
    {
        let place = self.place(AccessKind::Store, at)?;
        self.words.set(place, value);
        Ok(())
    }

    /// Takes a test-and-set.
    fn test_and_set(&mut self, at: GlobalAddr, old: u32) -> Result<(), Illegal>
        requires { IsValidFlat self.old }
        ensures exact { result ≡ result_of (read_refusal self.old AccessKind.Tas at old) }
        ensures ok { OnOk result (self.new ≡ with_word_at self.old (place_of self.old at) 1) }
        ensures err { OnErr result (self.new ≡ self.old) }
        ensures valid { IsValidFlat self.new }
    {
        let place = self.read(AccessKind::Tas, at, old)?;
        self.words.set(place, 1);
        Ok(())
    }

    /// Takes a fault of an access.
    fn fault(&self, kind: FaultKind, access: AccessKind, at: GlobalAddr) -> Result<(), Illegal>
        requires { IsValidFlat self.now }
        ensures { result ≡ result_of (fault_refusal (walk_of self.now at) access at kind) }
    {
        if may_fault(self.walk(at), access, at, kind) {
            Ok(())
        } else {
            Err(Illegal {
                clause: Clause::Fault,
                wanted: self.miss(access, at).map_or(0, FaultKind::number),
                found: kind.number(),
            })
        }
    }

    /// Where the word that an access read stands, or why it may not have read this value there.
    fn read(&self, access: AccessKind, at: GlobalAddr, value: u32) -> Result<usize, Illegal>
        requires { IsValidFlat self.now }
        ensures exact { result ≡ place_or (read_refusal self.now access at value) (place_of self.now at) }
        ensures data { IfOk result (λ place. table_words self.now.tables ≤ place) }
        ensures within { IfOk result (λ place. place < length self.now.words) }
    {
        let place = self.place(access, at)?;
        let word = self.words.as_slice()[place];
        if word == value {
            Ok(place)
        } else {
            Err(Illegal {
                clause: Clause::Answer,
                wanted: word as u64,
                found: value as u64,
            })
        }
    }

    /// Where the word of an access stands, or why the access may not be done.
    fn place(&self, access: AccessKind, at: GlobalAddr) -> Result<usize, Illegal>
        requires { IsValidFlat self.now }
        ensures exact { result ≡ place_or (done_refusal self.now access at) (place_of self.now at) }
        ensures data { IfOk result (λ place. table_words self.now.tables ≤ place) }
        ensures within { IfOk result (λ place. place < length self.now.words) }
    {
        match admit(self.walk(at), access, at) {
            Ok(entry) => Ok(place_under(entry, at)),
            Err(fault) => Err(Illegal {
                clause: Clause::Fault,
                wanted: fault.number(),
                found: 0,
            }),
        }
    }
}

/// Where the word of an address stands under the entry of its page.
fn place_under(entry: Pte, at: GlobalAddr) -> usize
    ensures value { result ≡ place_in (Some entry) at }
    ensures small { at < 2 ^ 38 }
{
    entry.number() as usize * PAGE_WORDS + (at.number() >> 2) as usize % PAGE_WORDS
}
