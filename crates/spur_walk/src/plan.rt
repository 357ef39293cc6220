//! The first step that applies: it is planned from the board's own lines, and nothing is changed.

ghost use Rattle.std.specs.Prelude.{◌≡◌, ◌<◌, ◌*◌, ◌^◌, IsSome, IsTrue};
ghost use Rattle.spur_addr.specs.Address.{entry_address_of, table_start};
ghost use Rattle.spur_addr.specs.PageEntry.{is_readable};
ghost use Rattle.spur_cache.specs.Lines.{IsCache};
ghost use Rattle.spur_flat.specs.declared.entry.Layer.TheVariants as layer;
ghost use Rattle.spur_flat.specs.TagRules.{access_of};
ghost use Rattle.spur_walk.specs.Plan.{IsReadableIn, climb, dirty_plan, filling, cached_word, own_page_plan, own_plan};
ghost use Rattle.spur_walk.specs.Plan.{page_climb, root_plan, table_place, table_plan, user_plan};
ghost use Rattle.spur_walk.specs.Tables.{block_address};

use crate::looked::{Looked, look};
use spur_addr::{GlobalAddr, Protection, Pte, ROOT_FRAMES, pte_of};
use spur_bus::Place;
use spur_cache::Cache;
use spur_flat::{AccessKind, FaultKind, Layer, first_fault};
use spur_snoop::Need;

/// The first step that applies towards an access, or towards the block of a page's entry.
#[derive(Clone, Copy, Debug, PartialEq, Eq)]
pub enum Plan {
    /// There is nothing to do.
    Ready,
    /// The access has this fault.
    Fault(FaultKind),
    /// The dirty copy of the line is set.
    Refresh,
    /// The block is taken from all others.
    Claim,
    /// An owned block, of this address, is written back: it stands where another is wanted.
    WriteBack(GlobalAddr),
    /// A block is filled from a place.
    Fill {
        /// What the block is of.
        layer: Layer,
        /// What it is filled for.
        need: Need,
        /// An address of the block.
        at: GlobalAddr,
        /// Where it is filled from.
        place: Place,
    },
}

/// The first step towards an access, by the lines of the board's own cache.
pub(crate) fn access_step(own: &Cache, at: GlobalAddr, need: Need) -> Plan
    requires cache { IsCache own.now }
    requires entry { IsReadableIn own.now (entry_address_of at) }
    requires root { IsReadableIn own.now (entry_address_of (entry_address_of at)) }
    ensures { result ≡ own_plan own.now at need }
{
    match look(own, at, need) {
        Looked::Hit => Plan::Ready,
        Looked::Denied => Plan::Fault(FaultKind::Protection),
        Looked::NeedsClaim => Plan::Claim,
        Looked::NeedsDirty => match held_entry(own, pte_of(at)) {
            Some(entry) => dirty_step(entry),
            None => climb_step(own, at),
        },
        Looked::Miss => match held_entry(own, pte_of(at)) {
            Some(entry) => user_step(own, at, need, entry),
            None => climb_step(own, at),
        },
    }
}

/// The first step towards the block of a page's entry, which is to be written.
pub(crate) fn page_step(own: &Cache, page: GlobalAddr) -> Plan
    requires cache { IsCache own.now }
    requires root { IsReadableIn own.now (entry_address_of (entry_address_of page)) }
    ensures { result ≡ own_page_plan own.now page }
{
    match own.find(pte_of(page)) {
        Some(line) => {
            if line.state.is_exclusive() {
                Plan::Ready
            } else {
                Plan::Claim
            }
        }
        None => page_climb_step(own, page),
    }
}

/// A page-table entry, where the cache has the block of its address.
fn held_entry(own: &Cache, at: GlobalAddr) -> Option<Pte>
    requires { IsReadableIn own.now at }
    ensures { result ≡ cached_word own.now at }
{
    match own.find(at) {
        Some(line) => Some(entry(line.words[at.word_in_block() as usize])),
        None => None,
    }
}

/// The entry that a readable word is.
fn entry(word: u32) -> Pte
    requires { IsTrue (is_readable word) }
    ensures { result ≡ word }
{
    match Pte::read(word) {
        Ok(entry) => entry,
        Err(_) => unreachable!(),
    }
}

/// The step of a write whose line has a clear dirty copy, by the entry of its page.
fn dirty_step(entry: Pte) -> Plan
    ensures { result ≡ dirty_plan entry }
{
    if entry.leaving() {
        Plan::Fault(FaultKind::Leaving)
    } else if entry.dirty() {
        Plan::Refresh
    } else {
        Plan::Fault(FaultKind::Dirty)
    }
}

/// The step of an access whose block is not there, by the entry of its page.
fn user_step(own: &Cache, at: GlobalAddr, need: Need, entry: Pte) -> Plan
    requires cache { IsCache own.now }
    ensures { result ≡ user_plan own.now at need entry }
{
    match first_fault(entry, access(need)) {
        Some(kind) => Plan::Fault(kind),
        None => {
            let place = Place {
                frame: entry.number(),
                prot: entry.protection(),
                dirty: entry.dirty(),
            };
            fill_step(own, Layer::UserBlock, need, at, place)
        }
    }
}

/// The access that stands for all of a need.
fn access(need: Need) -> AccessKind
    ensures { result ≡ access_of need }
{
    match need {
        Need::Read => AccessKind::Load,
        Need::Write => AccessKind::Store,
    }
}

/// The step of an access where the block of its page's entry is not there.
fn climb_step(own: &Cache, at: GlobalAddr) -> Plan
    requires cache { IsCache own.now }
    requires root { IsReadableIn own.now (entry_address_of (entry_address_of at)) }
    ensures { result ≡ climb own.now at (cached_word own.now (entry_address_of (entry_address_of at))) }
{
    match held_entry(own, pte_of(pte_of(at))) {
        Some(root) => table_step(own, at, root),
        None => root_step(own, at),
    }
}

/// The step that brings the block of a page's entry to be written, where it is not there.
fn page_climb_step(own: &Cache, page: GlobalAddr) -> Plan
    requires cache { IsCache own.now }
    requires root { IsReadableIn own.now (entry_address_of (entry_address_of page)) }
    ensures { result ≡ page_climb own.now page (cached_word own.now (entry_address_of (entry_address_of page))) }
{
    match held_entry(own, pte_of(pte_of(page))) {
        Some(root) => table_fill(own, page, Need::Write, root),
        None => root_step(own, page),
    }
}

/// The step that brings the block of a page's entry, by its root entry.
fn table_step(own: &Cache, at: GlobalAddr, root: Pte) -> Plan
    requires cache { IsCache own.now }
    ensures { result ≡ table_plan own.now at root }
{
    if root.valid() {
        table_fill(own, at, Need::Read, root)
    } else {
        Plan::Fault(FaultKind::Unmapped)
    }
}

/// The fill of the block of a page's entry, from the frame that its root entry names. This project's
/// profile has the page table readable and writable, and always dirty.
fn table_fill(own: &Cache, at: GlobalAddr, need: Need, root: Pte) -> Plan
    requires cache { IsCache own.now }
    ensures { result ≡ filling own.now layer.PteBlock need (entry_address_of at) (table_place root) }
{
    let place = Place {
        frame: root.number(),
        prot: Protection::ReadWrite,
        dirty: true,
    };
    fill_step(own, Layer::PteBlock, need, pte_of(at), place)
}

/// The step that brings the block of a root entry. As in SPUR the root is wired, at the start of the
/// memory in this project's profile, and is only read.
fn root_step(own: &Cache, at: GlobalAddr) -> Plan
    requires cache { IsCache own.now }
    ensures { result ≡ root_plan own.now at }
{
    let root = pte_of(pte_of(at));
    let place = Place {
        frame: root.page() % ROOT_FRAMES,
        prot: Protection::ReadOnly,
        dirty: true,
    };
    fill_step(own, Layer::RootBlock, Need::Read, root, place)
}

/// The fill of a block, or first the write-back of an owned block that stands on its line.
fn fill_step(own: &Cache, layer: Layer, need: Need, at: GlobalAddr, place: Place) -> Plan
    requires cache { IsCache own.now }
    ensures { result ≡ filling own.now layer need at place }
{
    match own.victim(at) {
        Some(line) if line.state.is_owned() => Plan::WriteBack(block_start(line.tag)),
        _ => Plan::Fill {
            layer,
            need,
            at,
            place,
        },
    }
}

/// The first byte of the block with this number.
fn block_start(block: u64) -> GlobalAddr
    requires { block < 2 ^ 33 }
    ensures { result ≡ block_address block }
{
    match GlobalAddr::of(block * 32) {
        Some(at) => at,
        None => unreachable!(),
    }
}
