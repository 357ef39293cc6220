//! What the cache lines of all boards are known to hold: the tag checker.

ghost use Rattle.std.specs.Prelude.{◌≡◌, ◌<◌, IfOk, OnErr, OnOk, length};
ghost use Rattle.spur_addr.specs.Address.{block_of};
ghost use Rattle.spur_flat.specs.Blocks.{IsOfBoards};
ghost use Rattle.spur_flat.specs.Refused.{result_of};
ghost use Rattle.spur_snoop.specs.Size.{IsBoardCount, IsLineCount};
ghost use Rattle.spur_flat.specs.TagLines.{IsOfBlock, bus_on, dirtied_tag, each_from, lines_at, no_tags, restated_tag, snooped_board, standing_tag, tag_at, tags_on, with_tag_at};
ghost use Rattle.spur_flat.specs.TagRules.{entry_state, holder_from, tags_refusal, unheld};
ghost use Rattle.spur_flat.specs.Validity.{IsValidFlat};

use crate::entry::Entry;
use crate::flat::Flat;
use crate::illegal::{Clause, Illegal};
use crate::tag::Tag;
use crate::tag_lines::TagLines;
use crate::tag_rules as rules;
use spur_addr::{GlobalAddr, pte_of};
use spur_snoop::{BlockState, BusKind};
use std::alloc::{AllocError, Global};
use std::marker::Model;

/// What the lines of each board's cache are known to hold, by the entries of a history.
///
/// Contracts see a list of the boards, each a list of its lines: nothing, or a block with its state, its frame and the
/// line's copies of the page's protection and dirty bit. There is no data. The states, and how a transaction of one board
/// moves the others, are those of the Berkeley Ownership protocol; the copies are this
/// project's own choice.
#[derive(Debug, Drop)]
pub struct Tags {
    boards: Vec<TagLines>,
}

impl Model for Tags {
    ghost use Rattle.std.specs.Prelude.{List, Option};
    ghost use Rattle.spur_flat.specs.declared.tag.Tag.{Tag};

    ghost Value = { List (List (Option Tag)) };

    ghost view = { λ a. a.boards.items };
}

impl Tags {
    /// The tags of an opening: every line of every board has nothing.
    ///
    /// There are 1 to 12 boards, and the lines of each are a power of two from 16 to 4096: both are this project's
    /// profile. The one failure is that memory is wanting.
    pub fn new(alloc: Global, boards: u32, lines: u32) -> Result<Tags, AllocError>
        requires boards { IsBoardCount boards }
        requires lines { IsLineCount lines }
        ensures { IfOk result (λ tags. tags ≡ no_tags boards lines) }
    {
        let mut all = Vec::new(alloc);
        for _ in 0..boards {
            all.push(TagLines::new(alloc, lines)?)?;
        }
        Ok(Tags { boards: all })
    }

    /// Takes an entry: makes the change that it makes, or says why it is refused and changes nothing.
    ///
    /// `flat` is the plain machine before the entry. Each board that the entry names is one of these. A refusal is by the
    /// rule `Tags`: WANTED is the number, from 1 to 18, of the first condition that fails, and FOUND the state of the
    /// block that it names (0 Invalid, 1 UnOwned, 2 OwnedNonExclusive, 3 OwnedExclusive), at the board that it names.
    /// FOUND is 0 for the conditions 3 and 5, the page's entry for 10, 15 and 17 and the root entry for 11 (0 where there
    /// is none), and the number of a board for 18. No memory is taken.
    #[tactic(auto, using(crate::proofs::TagFacts::length_tags_on))]
    pub fn apply(&mut self, flat: &Flat, entry: &Entry) -> Result<(), Illegal>
        requires valid { IsValidFlat flat.now }
        requires boards { IsOfBoards (length self.old) entry.now }
        ensures exact { result ≡ result_of (tags_refusal flat.now self.old entry.now) }
        ensures ok { OnOk result (self.new ≡ tags_on flat.now self.old entry.now) }
        ensures err { OnErr result (self.new ≡ self.old) }
        ensures boards { length self.new ≡ length self.old }
    {
        self.judge(flat, entry)?;
        self.change(flat, entry);
        Ok(())
    }

    /// Says why an entry is refused, if it is.
    fn judge(&self, flat: &Flat, entry: &Entry) -> Result<(), Illegal>
        requires valid { IsValidFlat flat.now }
        requires boards { IsOfBoards (length self.now) entry.now }
        ensures { result ≡ result_of (tags_refusal flat.now self.now entry.now) }
    {
        match entry {
            Entry::Load { board, at, .. } => rules::judge_load(self.tag(*board, *at)),
            Entry::Store { board, at, .. } | Entry::Tas { board, at, .. } => {
                rules::judge_write(self.tag(*board, *at))
            }
            Entry::Fault { .. } => Ok(()),
            Entry::Fill {
                board,
                layer,
                need,
                at,
            } => rules::judge_fill(
                flat,
                *layer,
                *need,
                *at,
                self.tag(*board, *at),
                self.standing(*board, *at),
                self.tag(*board, pte_of(*at)),
            ),
            Entry::Claim { board, at } => rules::judge_claim(rules::state(self.tag(*board, *at))),
            Entry::WriteBack { board, at } => {
                rules::judge_write_back(rules::state(self.tag(*board, *at)))
            }
            Entry::Refresh { board, at } => rules::judge_refresh(
                flat,
                *at,
                self.tag(*board, *at),
                self.entry_state(*board, *at),
            ),
            Entry::BlockFlush { holder, at, .. } => {
                rules::judge_flush(flat, *at, rules::state(self.tag(*holder, *at)))
            }
            Entry::PageOut { board, at } => {
                rules::judge_pager(self.entry_state(*board, *at))?;
                self.judge_unheld(at.page())
            }
            Entry::Leave { board, at }
            | Entry::PageIn { board, at, .. }
            | Entry::SetRef { board, at }
            | Entry::SetDirty { board, at }
            | Entry::ClearRef { board, at } => rules::judge_pager(self.entry_state(*board, *at)),
        }
    }

    /// Condition 18: no board holds a block of a page that goes out. FOUND is the first board that does.
    fn judge_unheld(&self, page: u32) -> Result<(), Illegal>
        ensures { result ≡ result_of (unheld (holder_from page 0 self.now)) }
    {
        match holder(&self.boards, page) {
            Some(board) => Err(Illegal {
                clause: Clause::Tags,
                wanted: 18,
                found: board as u64,
            }),
            None => Ok(()),
        }
    }

    /// Makes the change of an entry.
    fn change(&mut self, flat: &Flat, entry: &Entry)
        requires valid { IsValidFlat flat.now }
        requires boards { IsOfBoards (length self.old) entry.now }
        ensures { self.new ≡ tags_on flat.now self.old entry.now }
    {
        match entry {
            Entry::Fill {
                board,
                layer,
                need,
                at,
            } => {
                let fresh = rules::fresh(flat, *layer, *need, *at);
                self.transact(*board, at.block(), rules::kind(*need), Some(fresh));
            }
            Entry::Claim { board, at } => {
                let mine = restated(self.tag(*board, *at), BlockState::OwnedExclusive);
                self.transact(*board, at.block(), BusKind::Claim, mine);
            }
            Entry::WriteBack { board, at } => {
                let mine = restated(self.tag(*board, *at), BlockState::UnOwned);
                self.transact(*board, at.block(), BusKind::WriteBack, mine);
            }
            Entry::Refresh { board, at } => {
                let mine = dirtied(self.tag(*board, *at));
                self.put(*board, at.block(), mine);
            }
            Entry::BlockFlush { holder, at, .. } => self.put(*holder, at.block(), None),
            Entry::Load { .. }
            | Entry::Store { .. }
            | Entry::Tas { .. }
            | Entry::Fault { .. }
            | Entry::Leave { .. }
            | Entry::PageOut { .. }
            | Entry::PageIn { .. }
            | Entry::SetRef { .. }
            | Entry::SetDirty { .. }
            | Entry::ClearRef { .. } => {}
        }
    }

    /// A board's tag of the block of an address.
    fn tag(&self, board: u32, at: GlobalAddr) -> Option<Tag>
        requires { board < length self.now }
        ensures { result ≡ tag_at self.now board (block_of at) }
    {
        self.boards[board as usize].tag(at.block())
    }

    /// What stands on a board's line of the block of an address.
    fn standing(&self, board: u32, at: GlobalAddr) -> Option<Tag>
        requires { board < length self.now }
        ensures { result ≡ standing_tag (lines_at self.now board) (block_of at) }
    {
        self.boards[board as usize].standing(at.block())
    }

    /// A board's state of the block of the entry of an address's page.
    fn entry_state(&self, board: u32, at: GlobalAddr) -> BlockState
        requires { board < length self.now }
        ensures { result ≡ entry_state self.now board at }
    {
        rules::state(self.tag(board, pte_of(at)))
    }

    /// Puts a tag, or nothing, on a board's line of a block.
    fn put(&mut self, board: u32, block: u64, tag: Option<Tag>)
        requires board { board < length self.old }
        requires block { IsOfBlock block tag }
        ensures { self.new ≡ with_tag_at self.old board block tag }
    {
        self.boards[board as usize].put(block, tag);
    }

    /// Board `own` makes a transaction on a block, and then has `mine` on its line.
    fn transact(&mut self, own: u32, block: u64, kind: BusKind, mine: Option<Tag>)
        requires { IsOfBlock block mine }
        ensures { self.new ≡ bus_on self.old own block kind mine }
    {
        see_all(&mut self.boards, own as usize, block, kind, mine);
    }
}

/// All boards, where board `own` made a transaction.
fn see_all(boards: &mut [TagLines], own: usize, block: u64, kind: BusKind, mine: Option<Tag>)
    requires { IsOfBlock block mine }
    ensures { boards.new ≡ each_from (snooped_board own block kind mine) 0 boards.old }
{
    for (k, lines) in boards.iter_mut().enumerate() {
        see(lines, k, own, block, kind, mine);
    }
}

/// Board `k`, where board `own` made a transaction: the own board puts its tag, each other one sees the transaction.
fn see(lines: &mut TagLines, k: usize, own: usize, block: u64, kind: BusKind, mine: Option<Tag>)
    requires { IsOfBlock block mine }
    ensures { lines.new ≡ snooped_board own block kind mine k lines.old }
{
    if k == own {
        lines.put(block, mine);
    } else {
        lines.see(block, kind);
    }
}

/// The first board that holds a block of a page.
fn holder(boards: &[TagLines], page: u32) -> Option<usize>
    ensures { result ≡ holder_from page 0 boards.now }
{
    for (k, lines) in boards.iter().enumerate() {
        if lines.holds(page) {
            return Some(k);
        }
    }
    None
}

/// A tag in another state that is not Invalid.
fn restated(tag: Option<Tag>, state: BlockState) -> Option<Tag>
    ensures { result ≡ restated_tag tag state }
{
    match tag {
        Some(tag) => Some(Tag { state, ..tag }),
        None => None,
    }
}

/// A tag with its dirty copy set.
fn dirtied(tag: Option<Tag>) -> Option<Tag>
    ensures { result ≡ dirtied_tag tag }
{
    match tag {
        Some(tag) => Some(Tag { dirty: true, ..tag }),
        None => None,
    }
}
