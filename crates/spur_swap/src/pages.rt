//! Pages in memory.
ghost use Rattle.std.specs.Prelude.{◌≡◌, ◌+◌, ◌<◌, ◌≤◌, OnErr, OnOk, [], length};
ghost use Rattle.spur_addr.specs.Pages.{page_at, with_page};
ghost use Rattle.spur_list.specs.Parts.{with_part};
ghost use Rattle.spur_swap.specs.Pages.{AreWholePages, slots_of, zero_pages};

use spur_addr::PAGE_WORDS;
use std::alloc::{AllocError, Global};
use std::marker::Model;

/// The pages of all slots. Contracts see the list of their words.
#[derive(Drop)]
pub(crate) struct Pages {
    words: Vec<u32>,
}

impl Model for Pages {
    ghost use Rattle.std.specs.Prelude.{List, ℕ};
    ghost use Rattle.spur_swap.specs.Pages.{AreWholePages};

    ghost Value = { List ℕ };

    ghost view = { λ a. a.words.items };

    ghost invariant = { λ a. AreWholePages a.words.items };
}

impl Pages {
    /// No slots. Takes no memory yet.
    pub(crate) fn new(alloc: Global) -> Pages
        ensures { result ≡ [] }
    {
        Pages {
            words: Vec::new(alloc),
        }
    }

    /// So many slots, each with a page of zeros. After `AllocError` all is as it was.
    pub(crate) fn prepare(&mut self, slots: u32) -> Result<(), AllocError>
        ensures zeros { OnOk result (self.new ≡ zero_pages slots) }
        ensures stay { OnErr result (self.new ≡ self.old) }
        ensures whole { AreWholePages self.new }
    {
        self.words.resize(slots as usize * PAGE_WORDS, 0)?;
        self.words.fill(0);
        Ok(())
    }

    /// Copies the page of a slot into `into`.
    pub(crate) fn read(&self, slot: u32, into: &mut [u32; 1024])
        requires { slot < slots_of self.now }
        ensures page { into.new ≡ page_at self.now slot }
        ensures whole { AreWholePages self.now }
    {
        let at = slot as usize * PAGE_WORDS;
        into.copy_from_slice(&self.words[at..at + PAGE_WORDS]);
    }

    /// Makes the page of a slot that of `from`, and leaves all others.
    pub(crate) fn write(&mut self, slot: u32, from: &[u32; 1024])
        requires { slot < slots_of self.old }
        ensures page { self.new ≡ with_page self.old slot from.now }
        ensures long { length self.new ≡ length self.old }
        ensures whole { AreWholePages self.new }
    {
        put(&mut self.words, slot as usize * PAGE_WORDS, from);
    }
}

/// Puts the words of a page in from word `at` on.
fn put(words: &mut [u32], at: usize, page: &[u32; 1024])
    requires { at + 1024 ≤ length words.old }
    ensures { words.new ≡ with_part words.old at page.now 1024 }
{
    words[at..at + PAGE_WORDS].copy_from_slice(page);
}
