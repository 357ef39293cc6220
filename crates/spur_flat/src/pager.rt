//! The pager's entries: when they may stand, and what they change.

ghost use Rattle.std.specs.Prelude.{◌≡◌, ◌<◌, ◌^◌, true, false, None, OnOk, OnErr, length};
ghost use Rattle.std.specs.List.{list_any};
ghost use Rattle.spur_addr.specs.PageEntry.{is_valid};
ghost use Rattle.spur_flat.specs.Refused.{result_of, unless};
ghost use Rattle.spur_flat.specs.Refusal.{in_refusal};
ghost use Rattle.spur_flat.specs.Pager.{come_in, gone_out, has_frame, is_declared, is_free_frame, page_loaded, may_clear_referenced, may_come_in, may_go_out, may_leave, may_set_dirty, may_set_referenced, or_zero, paged, position_in, saved, swap_slot_of, with_entry, with_entry_bit, word_of};
ghost use Rattle.spur_flat.specs.Validity.{IsValidFlat};

use crate::flat::Flat;
use crate::illegal::{Clause, Illegal};
use spur_addr::{GlobalAddr, PAGE_WORDS, Protection, Pte, ROOT_FRAMES};

impl Flat {
    /// Takes `Leave`: marks a page as leaving its frame.
    pub(crate) fn leave(&mut self, at: GlobalAddr) -> Result<(), Illegal>
        requires { IsValidFlat self.old }
        ensures exact { result ≡ result_of (paged self.old at may_leave 2 None) }
        ensures ok { OnOk result (self.new ≡ with_entry_bit self.old at 6 true) }
        ensures err { OnErr result (self.new ≡ self.old) }
        ensures valid { IsValidFlat self.new }
    {
        let entry = self.page_entry(at);
        self.judge(at, entry, may_mark_leaving(entry), 2)?;
        self.set_entry(at, entry.with_leaving(true));
        Ok(())
    }

    /// Takes `SetRef`: sets a page's referenced bit.
    pub(crate) fn set_referenced(&mut self, at: GlobalAddr) -> Result<(), Illegal>
        requires { IsValidFlat self.old }
        ensures exact { result ≡ result_of (paged self.old at may_set_referenced 6 None) }
        ensures ok { OnOk result (self.new ≡ with_entry_bit self.old at 1 true) }
        ensures err { OnErr result (self.new ≡ self.old) }
        ensures valid { IsValidFlat self.new }
    {
        let entry = self.page_entry(at);
        self.judge(at, entry, may_mark_referenced(entry), 6)?;
        self.set_entry(at, entry.with_referenced(true));
        Ok(())
    }

    /// Takes `SetDirty`: sets a page's dirty bit.
    pub(crate) fn set_dirty(&mut self, at: GlobalAddr) -> Result<(), Illegal>
        requires { IsValidFlat self.old }
        ensures exact { result ≡ result_of (paged self.old at may_set_dirty 7 None) }
        ensures ok { OnOk result (self.new ≡ with_entry_bit self.old at 2 true) }
        ensures err { OnErr result (self.new ≡ self.old) }
        ensures valid { IsValidFlat self.new }
    {
        let entry = self.page_entry(at);
        self.judge(at, entry, may_mark_dirty(entry), 7)?;
        self.set_entry(at, entry.with_dirty(true));
        Ok(())
    }

    /// Takes `ClearRef`: clears a page's referenced bit.
    pub(crate) fn clear_referenced(&mut self, at: GlobalAddr) -> Result<(), Illegal>
        requires { IsValidFlat self.old }
        ensures exact { result ≡ result_of (paged self.old at may_clear_referenced 8 None) }
        ensures ok { OnOk result (self.new ≡ with_entry_bit self.old at 1 false) }
        ensures err { OnErr result (self.new ≡ self.old) }
        ensures valid { IsValidFlat self.new }
    {
        let entry = self.page_entry(at);
        self.judge(at, entry, may_unmark_referenced(entry), 8)?;
        self.set_entry(at, entry.with_referenced(false));
        Ok(())
    }

    /// Takes `PageOut`: saves a page in its slot where it is dirty, and puts it out of its frame.
    pub(crate) fn page_out(&mut self, at: GlobalAddr) -> Result<(), Illegal>
        requires { IsValidFlat self.old }
        ensures exact { result ≡ result_of (paged self.old at may_go_out 3 None) }
        ensures ok { OnOk result (self.new ≡ gone_out self.old at (word_of self.old at)) }
        ensures err { OnErr result (self.new ≡ self.old) }
        ensures valid { IsValidFlat self.new }
    {
        let entry = self.page_entry(at);
        self.judge(at, entry, may_page_out(entry), 3)?;
        let slot = self.slot(at);
        self.save(at, entry, slot);
        self.set_entry(at, Pte::swapped(slot, entry.protection()));
        Ok(())
    }

    /// Takes `PageIn`: loads a page from its slot into a free frame.
    pub(crate) fn page_in(&mut self, at: GlobalAddr, frame: u32) -> Result<(), Illegal>
        requires { IsValidFlat self.old }
        ensures exact { result ≡ result_of (in_refusal self.old at frame) }
        ensures ok { OnOk result (self.new ≡ come_in self.old at (word_of self.old at) frame) }
        ensures err { OnErr result (self.new ≡ self.old) }
        ensures valid { IsValidFlat self.new }
    {
        let entry = self.page_entry(at);
        self.judge(at, entry, may_page_in(entry), 4)?;
        held(self.is_free(frame), 5, frame as u64)?;
        self.load_page(at, frame);
        self.set_entry(at, entry.brought_in(frame));
        Ok(())
    }

    /// The entry of the page of an address, and the zero word where it has none: that one passes no condition.
    fn page_entry(&self, at: GlobalAddr) -> Pte
        requires { IsValidFlat self.now }
        ensures { result ≡ word_of self.now at }
    {
        entry_or_zero(self.walk(at))
    }

    /// Whether the page of an address is declared, and then whether its entry passed the condition of this number.
    /// The entry is the page's: it tells by itself whether the page is declared.
    fn judge(&self, at: GlobalAddr, entry: Pte, passes: bool, number: u64) -> Result<(), Illegal>
        requires valid { IsValidFlat self.now }
        requires entry { entry ≡ word_of self.now at }
        ensures exact { result ≡ result_of (unless Clause.Pager (is_declared self.now at) 1 0
            (unless Clause.Pager passes number entry None)) }
        ensures declared { OnOk result (is_declared self.now at ≡ true) }
        ensures passes { OnOk result (passes ≡ true) }
        ensures small { at < 2 ^ 38 }
    {
        held(self.declared(at, entry), 1, 0)?;
        held(passes, number, entry.word() as u64)
    }

    /// Whether the page of an address is declared: exactly there its entry is valid or on swap.
    fn declared(&self, at: GlobalAddr, entry: Pte) -> bool
        requires valid { IsValidFlat self.now }
        requires entry { entry ≡ word_of self.now at }
        ensures value { result ≡ is_declared self.now at }
        ensures small { at < 2 ^ 38 }
    {
        // the address is read for its range alone
        let _number = at.number();
        entry.valid() || entry.on_swap()
    }

    /// The number of a declared page's swap slot: the page's position.
    fn slot(&self, at: GlobalAddr) -> u32
        requires valid { IsValidFlat self.now }
        requires declared { is_declared self.now at ≡ true }
        ensures value { result ≡ swap_slot_of self.now at }
        ensures within { swap_slot_of self.now at < length self.now.pages }
        ensures small { at < 2 ^ 38 }
    {
        position(self.pages.as_slice(), at.page()) as u32
    }

    /// Whether a page may come into a frame: it is one of the data, and no page is in it.
    fn is_free(&self, frame: u32) -> bool
        requires { IsValidFlat self.now }
        ensures { result ≡ is_free_frame self.now frame }
    {
        let first = ROOT_FRAMES + self.tables;
        first <= frame && frame < first + self.frames && !self.is_taken(frame)
    }

    /// Whether a declared page is in a frame.
    fn is_taken(&self, frame: u32) -> bool
        requires { IsValidFlat self.now }
        ensures { result ≡ list_any (has_frame self.now frame) self.now.pages }
    {
        let pages = self.pages.as_slice();
        for page in pages {
            if self.is_in(*page, frame) {
                return true;
            }
        }
        false
    }

    /// Whether a page is in a frame.
    fn is_in(&self, page: u32, frame: u32) -> bool
        requires valid { IsValidFlat self.now }
        requires small { page < 2 ^ 26 }
        ensures { result ≡ has_frame self.now frame page }
    {
        let Some(at) = GlobalAddr::of(page as u64 * 4096) else {
            unreachable!();
        };
        let entry = self.page_entry(at);
        entry.valid() && entry.number() == frame
    }

    /// Gives a declared page another entry.
    fn set_entry(&mut self, at: GlobalAddr, entry: Pte)
        requires valid { IsValidFlat self.old }
        requires declared { is_declared self.old at ≡ true }
        ensures { self.new ≡ with_entry self.old at entry }
    {
        let root = self.entry(at.number() as usize >> 22);
        let place = root.number() as usize * PAGE_WORDS + at.page() as usize % PAGE_WORDS;
        self.words.set(place, entry.word());
    }

    /// Puts the words of a declared page's frame into its slot, where the page is dirty.
    fn save(&mut self, at: GlobalAddr, entry: Pte, slot: u32)
        requires valid { IsValidFlat self.old }
        requires declared { is_declared self.old at ≡ true }
        requires entry { entry ≡ word_of self.old at }
        requires resident { is_valid entry ≡ true }
        requires slot { slot ≡ swap_slot_of self.old at }
        requires small { at < 2 ^ 38 }
        ensures change { self.new ≡ saved self.old at entry }
        ensures valid { IsValidFlat self.new }
    {
        if entry.dirty() {
            let from = entry.number() as usize * PAGE_WORDS;
            let to = slot as usize * PAGE_WORDS;
            self.swap.copy_part(to, &self.words, from, PAGE_WORDS);
        }
    }

    /// Puts the words of a declared page's slot into a data frame.
    fn load_page(&mut self, at: GlobalAddr, frame: u32)
        requires valid { IsValidFlat self.old }
        requires declared { is_declared self.old at ≡ true }
        requires free { is_free_frame self.old frame ≡ true }
        ensures change { self.new ≡ page_loaded self.old at frame }
        ensures valid { IsValidFlat self.new }
    {
        let from = self.slot(at) as usize * PAGE_WORDS;
        let to = frame as usize * PAGE_WORDS;
        self.words.copy_part(to, &self.swap, from, PAGE_WORDS);
    }
}

/// Nothing where a condition holds, else a refusal by its number.
fn held(test: bool, number: u64, found: u64) -> Result<(), Illegal>
    ensures exact { result ≡ result_of (unless Clause.Pager test number found None) }
    ensures passes { OnOk result (test ≡ true) }
{
    if test {
        Ok(())
    } else {
        Err(Illegal {
            clause: Clause::Pager,
            wanted: number,
            found,
        })
    }
}

/// The entry of a page, and the zero word where it has none.
fn entry_or_zero(entry: Option<Pte>) -> Pte
    ensures { result ≡ or_zero entry }
{
    if let Some(entry) = entry {
        return entry;
    }
    let Ok(zero) = Pte::read(0) else {
        unreachable!();
    };
    zero
}

/// Whether a page may be marked as leaving.
fn may_mark_leaving(entry: Pte) -> bool
    ensures { result ≡ may_leave entry }
{
    entry.valid() && !entry.leaving()
}

/// Whether a page may go out.
fn may_page_out(entry: Pte) -> bool
    ensures { result ≡ may_go_out entry }
{
    entry.valid() && entry.leaving()
}

/// Whether a page may come in.
fn may_page_in(entry: Pte) -> bool
    ensures { result ≡ may_come_in entry }
{
    !entry.valid() && entry.on_swap()
}

/// Whether a page may be marked as referenced.
fn may_mark_referenced(entry: Pte) -> bool
    ensures { result ≡ may_set_referenced entry }
{
    entry.valid() && !entry.referenced()
}

/// Whether a page may be marked as dirty.
fn may_mark_dirty(entry: Pte) -> bool
    ensures { result ≡ may_set_dirty entry }
{
    entry.valid() && !entry.dirty() && matches!(entry.protection(), Protection::ReadWrite)
}

/// Whether a page's mark as referenced may be taken off.
fn may_unmark_referenced(entry: Pte) -> bool
    ensures { result ≡ may_clear_referenced entry }
{
    entry.valid() && entry.referenced() && !entry.leaving()
}

/// The position of a page in a list, and the list's length where it is not there.
fn position(pages: &[u32], page: u32) -> usize
    ensures { result ≡ position_in pages.now page }
{
    let mut place = 0;
    while place < pages.len() && pages[place] != page {
        place += 1;
    }
    place
}
