//! The open entries of a board, with their numbers in the history.

ghost use Rattle.std.specs.Prelude.{◌≡◌, ◌==◌, ◌%◌, ◌<◌, IfSome, OnOk, Some, None, [], length};
ghost use Rattle.std.specs.List.{list_any};
ghost use Rattle.spur_addr.specs.Address.{block_of};
ghost use Rattle.spur_flat.specs.Blocks.{Serves, access_blocks, entry_block, pager_blocks, role_of};
ghost use Rattle.spur_flat.specs.Needed.{first_not, is_modest, is_of_use};
ghost use Rattle.spur_flat.specs.Refused.{result_of};
ghost use Rattle.spur_check.specs.Numbered.{idle_refusal, none_open, noted};

use spur_addr::{GlobalAddr, pte_of};
use spur_flat::{Clause, Entry, Illegal};
use spur_snoop::Need;
use std::alloc::{AllocError, Global};
use std::marker::Model;

/// How many entries of a board may be open.
const OPEN_ENTRIES: usize = 6;

/// The open entries of a board: its fills, claims and write-backs since its last entry that such entries serve. Beside
/// each stands its number, counted from 1 over the whole history.
#[derive(Drop)]
pub(crate) struct OpenEntries {
    entries: Vec<Entry>,
    numbers: Vec<u64>,
}

impl Model for OpenEntries {
    ghost use Rattle.std.specs.Prelude.{◌≡◌, length};
    ghost use Rattle.spur_check.specs.Numbered.{Numbered};

    ghost Value = { Numbered };

    ghost view = { λ o. record { entries = o.entries.items; numbers = o.numbers.items } };

    ghost invariant = { λ o. length o.numbers.items ≡ length o.entries.items };
}

impl OpenEntries {
    /// No open entry.
    pub fn new(alloc: Global) -> OpenEntries
        ensures { result ≡ none_open }
    {
        OpenEntries {
            entries: Vec::new(alloc),
            numbers: Vec::new(alloc),
        }
    }

    /// Says why an entry of the board is idle, or which open one it shows to be so. `lines` is the number of lines of a
    /// cache.
    pub fn judge(&self, lines: u32, entry: &Entry) -> Result<(), Illegal>
        requires { 0 < lines }
        ensures { result ≡ result_of (idle_refusal lines self.now (role_of entry.now)) }
    {
        match entry {
            Entry::Fill { .. } | Entry::Claim { .. } | Entry::WriteBack { .. } => {
                if self.entries.len() < OPEN_ENTRIES {
                    Ok(())
                } else {
                    Err(idle(1, 7))
                }
            }
            Entry::Refresh { .. } | Entry::BlockFlush { .. } => Ok(()),
            Entry::Load { at, .. } | Entry::Fault { at, .. } => self.judge_read(lines, *at),
            Entry::Store { at, .. } | Entry::Tas { at, .. } => self.judge_write(lines, *at),
            Entry::Leave { at, .. }
            | Entry::PageOut { at, .. }
            | Entry::PageIn { at, .. }
            | Entry::SetRef { at, .. }
            | Entry::SetDirty { at, .. }
            | Entry::ClearRef { at, .. } => self.judge_pager(lines, *at),
        }
    }

    /// Which open entry doesn't serve a load, or a fault.
    fn judge_read(&self, lines: u32, at: GlobalAddr) -> Result<(), Illegal>
        requires { 0 < lines }
        ensures { result ≡ result_of (idle_refusal lines self.now (Serves (access_blocks at) None)) }
    {
        self.judge_served(lines, &access_blocks(at), None)
    }

    /// Which open entry doesn't serve a store, or a test-and-set.
    fn judge_write(&self, lines: u32, at: GlobalAddr) -> Result<(), Illegal>
        requires { 0 < lines }
        ensures { result ≡ result_of (idle_refusal lines self.now (Serves (access_blocks at) (Some (block_of at)))) }
    {
        self.judge_served(lines, &access_blocks(at), Some(at.block()))
    }

    /// Which open entry doesn't serve an entry of the pager.
    fn judge_pager(&self, lines: u32, at: GlobalAddr) -> Result<(), Illegal>
        requires { 0 < lines }
        ensures { result ≡ result_of (idle_refusal lines self.now (Serves (pager_blocks at) (Some (entry_block at)))) }
    {
        self.judge_served(lines, &pager_blocks(at), Some(pte_of(at).block()))
    }

    /// Which open entry doesn't serve an entry that uses these blocks, and may need to own this one of them.
    fn judge_served(&self, lines: u32, blocks: &[u64], owned: Option<u64>) -> Result<(), Illegal>
        requires { 0 < lines }
        ensures { result ≡ result_of (idle_refusal lines self.now (Serves blocks.now owned)) }
    {
        if let Some(k) = first_useless(lines, blocks, &self.entries) {
            return Err(idle(2, self.numbers[k]));
        }
        if let Some(k) = first_greedy(owned, &self.entries) {
            return Err(idle(3, self.numbers[k]));
        }
        Ok(())
    }

    /// Takes an entry of the board with its number: it is one more open entry, or the open ones were for it, or it has
    /// nothing to do with them.
    pub fn note(&mut self, entry: &Entry, number: u64) -> Result<(), AllocError>
        ensures { OnOk result (self.new ≡ noted self.old entry.now number) }
    {
        match entry {
            Entry::Fill { .. } | Entry::Claim { .. } | Entry::WriteBack { .. } => {
                self.entries.reserve(1)?;
                self.numbers.reserve(1)?;
                self.entries.push_reserved(*entry);
                self.numbers.push_reserved(number);
            }
            Entry::Refresh { .. } | Entry::BlockFlush { .. } => {}
            _ => {
                self.entries.clear();
                self.numbers.clear();
            }
        }
        Ok(())
    }
}

/// The refusal of an idle entry: by the condition with this number.
fn idle(wanted: u64, found: u64) -> Illegal
    ensures { result ≡ record { clause = Clause.Needed; wanted = wanted; found = found } }
{
    Illegal {
        clause: Clause::Needed,
        wanted,
        found,
    }
}

/// The numbers of the blocks that an access uses: its own, that of its page's entry, and that of the root entry above.
fn access_blocks(at: GlobalAddr) -> [u64; 3]
    ensures { result ≡ access_blocks at }
{
    let entry = pte_of(at);
    [at.block(), entry.block(), pte_of(entry).block()]
}

/// The numbers of the blocks that an entry of the pager uses: that of its page's entry, and that of the root entry
/// above.
fn pager_blocks(at: GlobalAddr) -> [u64; 2]
    ensures { result ≡ pager_blocks at }
{
    let entry = pte_of(at);
    [entry.block(), pte_of(entry).block()]
}

/// The place of the first open entry that is of no use to an entry that uses these blocks.
fn first_useless(lines: u32, blocks: &[u64], entries: &[Entry]) -> Option<usize>
    requires { 0 < lines }
    ensures first { result ≡ first_not (is_of_use lines blocks.now) 0 entries.now }
    ensures within { IfSome result (λ k. k < length entries.now) }
{
    for (k, entry) in entries.iter().enumerate() {
        if !is_of_use(lines, blocks, entry) {
            return Some(k);
        }
    }
    None
}

/// The place of the first open entry that asks to own another block than the one that may need to be owned.
fn first_greedy(owned: Option<u64>, entries: &[Entry]) -> Option<usize>
    ensures first { result ≡ first_not (is_modest owned) 0 entries.now }
    ensures within { IfSome result (λ k. k < length entries.now) }
{
    for (k, entry) in entries.iter().enumerate() {
        if !is_modest(owned, entry) {
            return Some(k);
        }
    }
    None
}

/// Whether an open entry is of one of these blocks, or is a write-back on the line of one.
fn is_of_use(lines: u32, blocks: &[u64], entry: &Entry) -> bool
    requires { 0 < lines }
    ensures { result ≡ is_of_use lines blocks.now entry.now }
{
    match entry {
        Entry::Fill { at, .. } | Entry::Claim { at, .. } => is_one_of(blocks, at.block()),
        Entry::WriteBack { at, .. } => is_on_line_of_one(lines, blocks, at.block()),
        _ => true,
    }
}

/// Whether a block is one of these.
fn is_one_of(blocks: &[u64], block: u64) -> bool
    ensures { result ≡ list_any (λ used. used == block) blocks.now }
{
    blocks.iter().any(|used| *used == block)
}

/// Whether a block is on the line of one of these.
fn is_on_line_of_one(lines: u32, blocks: &[u64], block: u64) -> bool
    requires { 0 < lines }
    ensures { result ≡ list_any (λ used. used % lines == block % lines) blocks.now }
{
    let lines = lines as u64;
    let line = block % lines;
    blocks.iter().any(|used| *used % lines == line)
}

/// Whether an open entry asks to own no block, or the one that may need to be owned.
fn is_modest(owned: Option<u64>, entry: &Entry) -> bool
    ensures { result ≡ is_modest owned entry.now }
{
    match entry {
        Entry::Fill {
            need: Need::Write,
            at,
            ..
        }
        | Entry::Claim { at, .. } => owned == Some(at.block()),
        _ => true,
    }
}
