//! The ownership rules on cache lines: eighteen conditions, by their numbers.
//!
//! That a block is written where it is owned alone, and that others are told, are rules of the Berkeley Ownership
//! protocol. That a line has copies of the page's protection and dirty bit, the conditions' numbers, and the order in which
//! they are tried, are this project's own choice.

ghost use Rattle.std.specs.Prelude.{◌≡◌, IsTrue, None, slice_index};
ghost use Rattle.spur_addr.specs.PageEntry.{is_readable};
ghost use Rattle.spur_flat.specs.Refused.{result_of};
ghost use Rattle.spur_flat.specs.Blocks.{is_layer, layer_of, root_word_of};
ghost use Rattle.spur_flat.specs.Pager.{word_of};
ghost use Rattle.spur_flat.specs.TagLines.{filled_state, fresh_tag, kind_of, block_state};
ghost use Rattle.spur_flat.specs.TagRules.{claim_refusal, dirty_copy, fill_refusal, flush_refusal, tag_condition, load_refusal, may_fill, pager_refusal, refresh_refusal, state_number, table_refusal, write_back_refusal, write_refusal};
ghost use Rattle.spur_flat.specs.Validity.{IsValidFlat};

use crate::access::{AccessKind, allowed};
use crate::entry::Layer;
use crate::flat::Flat;
use crate::illegal::{Clause, Illegal};
use crate::tag::Tag;
use spur_addr::{GlobalAddr, Protection, Pte, TABLE_START};
use spur_snoop::{BlockState, BusKind, Need};

/// The first address of the root, which is in the page table.
const ROOT_START: u64 = TABLE_START + (255 << 20);

/// One past the last address of the root.
const ROOT_END: u64 = ROOT_START + (1 << 18);

/// The number of a state in a refusal.
pub fn number(state: BlockState) -> u64
    ensures { result ≡ state_number state }
{
    match state {
        BlockState::Invalid => 0,
        BlockState::UnOwned => 1,
        BlockState::OwnedNonExclusive => 2,
        BlockState::OwnedExclusive => 3,
    }
}

/// The state of a block with this tag: Invalid where there is none.
pub fn state(tag: Option<Tag>) -> BlockState
    ensures { result ≡ block_state tag }
{
    match tag {
        Some(tag) => tag.state,
        None => BlockState::Invalid,
    }
}

/// The dirty copy of a line: clear where it holds nothing.
fn dirty(tag: Option<Tag>) -> bool
    ensures { result ≡ dirty_copy tag }
{
    match tag {
        Some(tag) => tag.dirty,
        None => false,
    }
}

/// A condition, by its number: it holds, or FOUND is this.
fn condition(test: bool, number: u64, found: u64) -> Result<(), Illegal>
    ensures { result ≡ result_of (tag_condition test number found None) }
{
    if test {
        Ok(())
    } else {
        Err(Illegal {
            clause: Clause::Tags,
            wanted: number,
            found,
        })
    }
}

/// Condition 1: a load has its block, whose tag this is.
pub fn judge_load(own: Option<Tag>) -> Result<(), Illegal>
    ensures { result ≡ result_of (load_refusal own) }
{
    condition(state(own).is_valid(), 1, number(state(own)))
}

/// Conditions 2 and 3: a store or a test-and-set owns its block alone, and the dirty copy is set.
pub fn judge_write(own: Option<Tag>) -> Result<(), Illegal>
    ensures { result ≡ result_of (write_refusal own) }
{
    condition(state(own).is_exclusive(), 2, number(state(own)))?;
    condition(dirty(own), 3, 0)
}

/// Condition 4: an entry of the pager owns alone the block of its page's entry, whose state this is.
pub fn judge_pager(above: BlockState) -> Result<(), Illegal>
    ensures { result ≡ result_of (pager_refusal above None) }
{
    condition(above.is_exclusive(), 4, number(above))
}

/// Conditions 5 to 11: a fill is of its address's layer, of a block that the board lacks, and replaces no owned block;
/// and the tables let it.
///
/// `own` is the tag of the block, `there` what stands on its line, and `above` the tag of the block of the entry of its
/// page.
pub fn judge_fill(
    flat: &Flat,
    layer: Layer,
    need: Need,
    at: GlobalAddr,
    own: Option<Tag>,
    there: Option<Tag>,
    above: Option<Tag>,
) -> Result<(), Illegal>
    requires { IsValidFlat flat.now }
    ensures { result ≡ result_of (fill_refusal flat.now layer need at own there above) }
{
    condition(is_of_layer(at, layer), 5, 0)?;
    condition(!state(own).is_valid(), 6, number(state(own)))?;
    condition(!state(there).is_owned(), 7, number(state(there)))?;
    judge_tables(flat, layer, need, at, state(above))
}

/// Conditions 8 to 11: what a fill needs of the tables, by its layer. `above` is the state of the block of the entry of
/// its page: for a block of the page table that of the root entry.
fn judge_tables(
    flat: &Flat,
    layer: Layer,
    need: Need,
    at: GlobalAddr,
    above: BlockState,
) -> Result<(), Illegal>
    requires { IsValidFlat flat.now }
    ensures { result ≡ result_of (table_refusal flat.now layer need at above) }
{
    match layer {
        Layer::UserBlock => {
            let entry = page_entry(flat, at);
            condition(above.is_valid(), 8, number(above))?;
            condition(fills(entry, need), 10, entry.word() as u64)
        }
        Layer::PteBlock => {
            let entry = root_entry(flat, at);
            condition(above.is_valid(), 9, number(above))?;
            condition(entry.valid(), 11, entry.word() as u64)
        }
        Layer::RootBlock => Ok(()),
    }
}

/// Condition 12: a claimed block is there and not yet owned alone.
pub fn judge_claim(own: BlockState) -> Result<(), Illegal>
    ensures { result ≡ result_of (claim_refusal own) }
{
    condition(own.is_valid() && !own.is_exclusive(), 12, number(own))
}

/// Condition 13: a block that is written back is owned.
pub fn judge_write_back(own: BlockState) -> Result<(), Illegal>
    ensures { result ≡ result_of (write_back_refusal own) }
{
    condition(own.is_owned(), 13, number(own))
}

/// Conditions 14 and 15: a block that is refreshed is there with its dirty copy clear, the block of its page's entry is
/// there, and that entry is dirty and not leaving.
///
/// `own` is the tag of the block, and `above` the state of the block of the entry.
pub fn judge_refresh(
    flat: &Flat,
    at: GlobalAddr,
    own: Option<Tag>,
    above: BlockState,
) -> Result<(), Illegal>
    requires { IsValidFlat flat.now }
    ensures { result ≡ result_of (refresh_refusal (word_of flat.now at) own above) }
{
    let entry = page_entry(flat, at);
    let stale = state(own).is_valid() && !dirty(own);
    condition(stale && above.is_valid(), 14, number(above))?;
    condition(entry.dirty() && !entry.leaving(), 15, entry.word() as u64)
}

/// Conditions 16 and 17: a block that is flushed is there, and its page is leaving.
pub fn judge_flush(flat: &Flat, at: GlobalAddr, own: BlockState) -> Result<(), Illegal>
    requires { IsValidFlat flat.now }
    ensures { result ≡ result_of (flush_refusal (word_of flat.now at) own) }
{
    let entry = page_entry(flat, at);
    condition(own.is_valid(), 16, number(own))?;
    condition(entry.valid() && entry.leaving(), 17, entry.word() as u64)
}

/// Whether a user's block may be filled under the entry of its page.
fn fills(entry: Pte, need: Need) -> bool
    ensures { result ≡ may_fill entry need }
{
    let common = entry.valid() && entry.referenced() && !entry.leaving();
    match need {
        Need::Read => common && allowed(entry, AccessKind::Load),
        Need::Write => common && allowed(entry, AccessKind::Store) && entry.dirty(),
    }
}

/// Whether an address is of a layer.
fn is_of_layer(at: GlobalAddr, layer: Layer) -> bool
    ensures { result ≡ is_layer (layer_of at) layer }
{
    let at = at.number();
    match layer {
        Layer::UserBlock => at < TABLE_START,
        Layer::PteBlock => TABLE_START <= at && at < ROOT_START,
        Layer::RootBlock => ROOT_START <= at && at < ROOT_END,
    }
}

/// The entry of the page of an address; the word 0, which no condition takes, where there is none.
fn page_entry(flat: &Flat, at: GlobalAddr) -> Pte
    requires { IsValidFlat flat.now }
    ensures { result ≡ word_of flat.now at }
{
    match flat.walk(at) {
        Some(entry) => entry,
        None => readable(0),
    }
}

/// The root entry of the page of an address of the page table.
fn root_entry(flat: &Flat, at: GlobalAddr) -> Pte
    requires { IsValidFlat flat.now }
    ensures { result ≡ slice_index flat.now.words (root_word_of at) }
{
    readable(flat.words.as_slice()[at.page() as usize % 65536])
}

/// The entry that a readable word is.
fn readable(word: u32) -> Pte
    requires { IsTrue (is_readable word) }
    ensures { result ≡ word }
{
    let Ok(entry) = Pte::read(word) else {
        unreachable!();
    };
    entry
}

/// The tag that a fill gives.
///
/// A user's block has frame, protection and dirty copy of the entry of its page; a block of the page table the frame of
/// the root entry; a block of the root the frame in which it is wired. That these two may be written, or read alone, and
/// have the dirty copy set, is this project's own choice.
pub fn fresh(flat: &Flat, layer: Layer, need: Need, at: GlobalAddr) -> Tag
    requires { IsValidFlat flat.now }
    ensures { result ≡ fresh_tag flat.now layer need at }
{
    let block = at.block();
    let state = filled(need);
    match layer {
        Layer::UserBlock => {
            let entry = page_entry(flat, at);
            Tag {
                block,
                state,
                frame: entry.number(),
                prot: entry.protection(),
                dirty: entry.dirty(),
            }
        }
        Layer::PteBlock => Tag {
            block,
            state,
            frame: root_entry(flat, at).number(),
            prot: Protection::ReadWrite,
            dirty: true,
        },
        Layer::RootBlock => Tag {
            block,
            state,
            frame: at.page() % 64,
            prot: Protection::ReadOnly,
            dirty: true,
        },
    }
}

/// The state in which a block is filled.
fn filled(need: Need) -> BlockState
    ensures { result ≡ filled_state need }
{
    match need {
        Need::Read => BlockState::UnOwned,
        Need::Write => BlockState::OwnedExclusive,
    }
}

/// The transaction of the bus that fills a block.
pub fn kind(need: Need) -> BusKind
    ensures { result ≡ kind_of need }
{
    match need {
        Need::Read => BusKind::ReadShared,
        Need::Write => BusKind::ReadOwned,
    }
}
