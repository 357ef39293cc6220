//! What is known after the entries that were judged.

ghost use Rattle.std.specs.Prelude.{◌≡◌, ◌<◌, IfOk, OnOk, length, replicate};
ghost use Rattle.spur_flat.specs.Blocks.{IsOfBoards, board_of};
ghost use Rattle.spur_flat.specs.History.{on};
ghost use Rattle.spur_flat.specs.Needed.{lack_of, needed_refusal, numbers_at, numbers_on, open_on};
ghost use Rattle.spur_flat.specs.Refusal.{refusal_of};
ghost use Rattle.spur_flat.specs.Refused.{or_else, result_of};
ghost use Rattle.spur_flat.specs.TagLines.{tags_on};
ghost use Rattle.spur_flat.specs.TagRules.{tags_refusal};
ghost use Rattle.spur_flat.specs.Validity.{IsValidFlat};
ghost use Rattle.spur_cpu.specs.Plain.{plain};
ghost use Rattle.spur_loader.specs.Opening.{board_count};
ghost use Rattle.spur_check.specs.Judged.{MayBeJudged, entry_refusal, first_progress, first_replays, progress_on};
ghost use Rattle.spur_check.specs.Replays.{replay_refusal, replays_on};
ghost use Rattle.spur_check.specs.Numbered.{entries_of, none_open, numbers_of};
ghost use Rattle.spur_check.specs.Kept.{IsJudged, IsNoted, IsSound, progress_of};

use crate::open_entries::OpenEntries;
use crate::replay::Replay;
use spur_flat::{Entry, Flat, Illegal, Tags};
use spur_isa::Instr;
use spur_list::Items;
use spur_loader::Opening;
use std::alloc::{AllocError, Global};

/// What is known after the entries that were judged: the flat memory, the tags, and of each board its open entries and
/// where its program has come.
#[derive(Drop)]
pub(crate) struct Checker {
    pub flat: Flat,
    pub tags: Tags,
    pub lists: Vec<OpenEntries>,
    pub replays: Vec<Replay>,
    pub lines: u32,
}

impl Checker {
    /// What is known before all entries.
    pub fn begin(alloc: Global, opening: Opening) -> Result<Checker, AllocError>
        requires { MayBeJudged opening }
        ensures progress { IfOk result (λ checker. progress_of 0 checker ≡ first_progress opening) }
        ensures sound { IfOk result (IsSound (board_count opening)) }
    {
        let Opening {
            flat,
            segs,
            code,
            options,
        } = opening;
        let boards = segs.len() as u32;
        let tags = Tags::new(alloc, boards, options.lines)?;
        let lists = nothing_open(alloc, boards)?;
        let replays = replays(alloc, segs.as_slice(), code, options.budget)?;
        Ok(Checker {
            flat,
            tags,
            lists,
            replays,
            lines: options.lines,
        })
    }

    /// Says why an entry may not follow, by the first rule that it breaks. Where it may, all but the open entries is as
    /// it is after it; where it may not, nothing is said of what is known then.
    pub fn judge(&mut self, entry: &Entry) -> Result<(), Illegal>
        requires sound { IsSound (length self.old.replays.items) self.old }
        requires boards { IsOfBoards (length self.old.replays.items) entry.now }
        ensures exact { result ≡ result_of (entry_refusal plain (progress_of 0 self.old) entry.now) }
        ensures ok { OnOk result (IsJudged self.old entry.now self.new) }
    {
        judge_program(&mut self.replays, entry)?;
        judge_memory(&mut self.flat, &mut self.tags, entry)?;
        judge_open(&self.lists, self.lines, entry)
    }

    /// Takes an entry that may follow, with its number, among the open entries of its board.
    pub fn note(&mut self, entry: &Entry, number: u64) -> Result<(), AllocError>
        requires boards { board_of entry.now < length self.old.lists.items }
        ensures ok { OnOk result (IsNoted self.old entry.now number self.new) }
    {
        note_open(&mut self.lists, entry, number)
    }
}

/// Nothing open at so many boards.
fn nothing_open(alloc: Global, boards: u32) -> Result<Vec<OpenEntries>, AllocError>
    ensures { IfOk result (λ lists. lists.items ≡ replicate boards none_open) }
{
    let mut lists = Vec::new(alloc);
    for _ in 0..boards {
        lists.push(OpenEntries::new(alloc))?;
    }
    Ok(lists)
}

/// The boards at the beginning of their programs.
fn replays(
    alloc: Global,
    segs: &[[u8; 4]],
    codes: Items<Items<Instr>>,
    budget: u32,
) -> Result<Vec<Replay>, AllocError>
    requires budget { 0 < budget }
    requires codes { length codes ≡ length segs.now }
    ensures { IfOk result (λ replays. replays.items ≡ first_replays budget segs.now codes) }
{
    let mut replays = Vec::new(alloc);
    let mut board = 0;
    for code in codes.into_vec() {
        replays.push(Replay::new(alloc, segs[board], code, budget)?)?;
        board += 1;
    }
    Ok(replays)
}

/// Says why an access is not the next one of its board's program, or carries the board on.
fn judge_program(replays: &mut [Replay], entry: &Entry) -> Result<(), Illegal>
    requires { IsOfBoards (length replays.old) entry.now }
    ensures exact { result ≡ result_of (replay_refusal plain replays.old entry.now) }
    ensures ok { OnOk result (replays.new ≡ replays_on plain replays.old entry.now) }
    ensures boards { length replays.new ≡ length replays.old }
{
    match entry {
        Entry::Load { board, .. }
        | Entry::Store { board, .. }
        | Entry::Tas { board, .. }
        | Entry::Fault { board, .. } => replays[*board as usize].judge(entry),
        _ => Ok(()),
    }
}

/// Says why an entry may not stand in the flat memory, or else why not in the tags, or makes its change in both.
fn judge_memory(flat: &mut Flat, tags: &mut Tags, entry: &Entry) -> Result<(), Illegal>
    requires valid { IsValidFlat flat.old }
    requires boards { IsOfBoards (length tags.old) entry.now }
    ensures exact { result ≡ result_of
        (or_else (refusal_of flat.old entry.now) (tags_refusal flat.old tags.old entry.now)) }
    ensures flat { OnOk result (flat.new ≡ on flat.old entry.now) }
    ensures tags { OnOk result (tags.new ≡ tags_on flat.old tags.old entry.now) }
    ensures valid { IsValidFlat flat.new }
    ensures boards { length tags.new ≡ length tags.old }
{
    // the tags look at the flat memory before the entry, and answer after it
    let tagged = tags.apply(flat, entry);
    flat.apply(entry)?;
    tagged
}

/// Says why an entry is idle, or which open one of its board it shows to be so.
fn judge_open(lists: &[OpenEntries], lines: u32, entry: &Entry) -> Result<(), Illegal>
    requires lines { 0 < lines }
    requires boards { board_of entry.now < length lists.now }
    ensures { result ≡ result_of (needed_refusal (numbers_at (numbers_of lists.now) (board_of entry.now))
        (lack_of lines (entries_of lists.now) entry.now)) }
{
    lists[board_of(entry) as usize].judge(lines, entry)
}

/// Takes an entry, with its number, among the open ones of its board.
fn note_open(lists: &mut [OpenEntries], entry: &Entry, number: u64) -> Result<(), AllocError>
    requires boards { board_of entry.now < length lists.old }
    ensures entries { OnOk result (entries_of lists.new ≡ open_on (entries_of lists.old) entry.now) }
    ensures numbers { OnOk result (numbers_of lists.new ≡ numbers_on (numbers_of lists.old) number entry.now) }
    ensures boards { length lists.new ≡ length lists.old }
{
    lists[board_of(entry) as usize].note(entry, number)
}

/// The number of the board that makes an entry.
fn board_of(entry: &Entry) -> u32
    ensures { result ≡ board_of entry.now }
{
    match entry {
        Entry::Load { board, .. }
        | Entry::Store { board, .. }
        | Entry::Tas { board, .. }
        | Entry::Fault { board, .. }
        | Entry::Fill { board, .. }
        | Entry::Claim { board, .. }
        | Entry::WriteBack { board, .. }
        | Entry::Refresh { board, .. }
        | Entry::BlockFlush { board, .. }
        | Entry::Leave { board, .. }
        | Entry::PageOut { board, .. }
        | Entry::PageIn { board, .. }
        | Entry::SetRef { board, .. }
        | Entry::SetDirty { board, .. }
        | Entry::ClearRef { board, .. } => *board,
    }
}
