//! The writing of whole traces, into room that was taken at first.

ghost use Rattle.std.specs.Prelude.{◌≡◌, ◌+◌, ◌*◌, ◌^◌, ◌<◌, ◌≤◌, [], ◌∷◌, ◌++◌, codes, IfOk, length, vec_capacity};
ghost use Rattle.std.specs.Fmt.{decimal};
ghost use Rattle.std.specs.List.{All};
ghost use Rattle.spur_flat.specs.WellFormed.{HasWord, IsWellFormed};
ghost use Rattle.spur_text.specs.Digits.{address_digits, word_digits};
ghost use Rattle.spur_text.specs.Line.{line_of};
ghost use Rattle.spur_text.specs.Written.{onto};
ghost use Rattle.spur_trace.specs.Line.{entry_line, header_line, trace_text};
ghost use Rattle.spur_trace.specs.Formed.{IsHead};
ghost use Rattle.spur_trace.specs.Faults.{IsTrace};
ghost use Rattle.spur_trace.specs.Reading.{verb_word};
ghost use Rattle.spur_trace.specs.Room.{line_room, trace_room};

use crate::head::{HEADER_WORD, TraceHead, VERSION};
use crate::room::trace_room;
use crate::words::{Verb, layer_word, need_word, verb_word};
use spur_addr::GlobalAddr;
use spur_flat::Entry;
use spur_text::{Text, access_word, fault_word};
use std::alloc::{AllocError, Global};

/// Puts a first word and a number, each with a space behind it.
#[tactic(auto, using(std::proofs::lemmas::Grind::common_steps, spur_text::proofs::TextFacts::two_digits))]
fn put_begin(out: &mut Text, word: &[u8], number: u32)
    requires number { number < 100 }
    requires fits { length out.old.items + (length word.now + 4) ≤ out.old.room }
    ensures { out.new ≡ onto out.old (word.now ++ 32 ∷ decimal number ++ 32 ∷ []) }
{
    out.put(word);
    out.put(b" ");
    out.put_number(number);
    out.put(b" ")
}

/// Puts the first word of an entry's line and its board, each with a space behind it.
fn put_verb(out: &mut Text, verb: Verb, board: u32)
    requires board { board < 100 }
    requires fits { length out.old.items + (length (verb_word verb) + 4) ≤ out.old.room }
    ensures { out.new ≡ onto out.old (verb_word verb ++ 32 ∷ decimal board ++ 32 ∷ []) }
{
    put_begin(out, verb_word(verb), board)
}

/// Puts the line of an access that was done.
#[tactic(auto, using(std::proofs::lemmas::Grind::common_steps, spur_text::proofs::TextFacts::two_digits, spur_text::proofs::TextFacts::address_length, spur_text::proofs::TextFacts::word_length))]
fn put_access(out: &mut Text, verb: Verb, board: u32, at: GlobalAddr, value: u32)
    requires board { board < 100 }
    requires fits { length out.old.items + (length (verb_word verb) + 24) ≤ out.old.room }
    ensures line { out.new ≡ onto out.old
        (line_of (verb_word verb ∷ decimal board ∷ address_digits at ∷ word_digits value ∷ [])) }
    ensures word { value < 2 ^ 32 }
{
    put_verb(out, verb, board);
    out.put_address(at);
    out.put(b" ");
    out.put_word(value);
    out.put(b"\n")
}

/// Puts the line of a block or a page.
#[tactic(auto, using(std::proofs::lemmas::Grind::common_steps, spur_text::proofs::TextFacts::two_digits, spur_text::proofs::TextFacts::address_length))]
fn put_place(out: &mut Text, verb: Verb, board: u32, at: GlobalAddr)
    requires board { board < 100 }
    requires fits { length out.old.items + (length (verb_word verb) + 15) ≤ out.old.room }
    ensures { out.new ≡ onto out.old (line_of (verb_word verb ∷ decimal board ∷ address_digits at ∷ [])) }
{
    put_verb(out, verb, board);
    out.put_address(at);
    out.put(b"\n")
}

/// Puts a line that has two words before its address.
#[tactic(auto, using(std::proofs::lemmas::Grind::common_steps, spur_text::proofs::TextFacts::two_digits, spur_text::proofs::TextFacts::address_length))]
fn put_words(out: &mut Text, verb: Verb, board: u32, first: &[u8], second: &[u8], at: GlobalAddr)
    requires board { board < 100 }
    requires fits { length out.old.items + (length (verb_word verb) + length first.now + length second.now + 17)
        ≤ out.old.room }
    ensures { out.new ≡ onto out.old
        (line_of (verb_word verb ∷ decimal board ∷ first.now ∷ second.now ∷ address_digits at ∷ [])) }
{
    put_verb(out, verb, board);
    out.put(first);
    out.put(b" ");
    out.put(second);
    out.put(b" ");
    out.put_address(at);
    out.put(b"\n")
}

/// Puts the line of a block that left the cache of its holder.
#[tactic(auto, using(std::proofs::lemmas::Grind::common_steps, spur_text::proofs::TextFacts::two_digits, spur_text::proofs::TextFacts::address_length))]
fn put_flush(out: &mut Text, board: u32, holder: u32, at: GlobalAddr)
    requires board { board < 100 }
    requires holder { holder < 100 }
    requires fits { length out.old.items + 23 ≤ out.old.room }
    ensures { out.new ≡ onto out.old
        (line_of (codes "flush" ∷ decimal board ∷ decimal holder ∷ address_digits at ∷ [])) }
{
    put_verb(out, Verb::Flush, board);
    out.put_number(holder);
    out.put(b" ");
    out.put_address(at);
    out.put(b"\n")
}

/// Puts the line of a page that came into a frame.
#[tactic(auto, using(std::proofs::lemmas::Grind::common_steps, spur_text::proofs::TextFacts::two_digits, spur_text::proofs::TextFacts::four_digits, spur_text::proofs::TextFacts::address_length))]
fn put_in(out: &mut Text, board: u32, at: GlobalAddr, frame: u32)
    requires board { board < 100 }
    requires frame { frame < 10000 }
    requires fits { length out.old.items + 22 ≤ out.old.room }
    ensures { out.new ≡ onto out.old (line_of (codes "in" ∷ decimal board ∷ address_digits at ∷ decimal frame ∷ [])) }
{
    put_verb(out, Verb::In, board);
    out.put_address(at);
    out.put(b" ");
    out.put_number(frame);
    out.put(b"\n")
}

/// Puts the line of an entry.
#[tactic(auto, unfolding(crate::specs::Line::entry_line))]
fn put_entry(out: &mut Text, entry: &Entry)
    requires formed { IsWellFormed 12 entry.now }
    requires fits { length out.old.items + line_room entry.now ≤ out.old.room }
    ensures line { out.new ≡ onto out.old (entry_line entry.now) }
    ensures word { HasWord entry.now }
{
    match *entry {
        Entry::Load { board, at, value } => put_access(out, Verb::Load, board, at, value),
        Entry::Store { board, at, value } => put_access(out, Verb::Store, board, at, value),
        Entry::Tas { board, at, old } => put_access(out, Verb::Tas, board, at, old),
        Entry::Fault {
            board,
            kind,
            access,
            at,
        } => put_words(
            out,
            Verb::Fault,
            board,
            fault_word(kind),
            access_word(access),
            at,
        ),
        Entry::Fill {
            board,
            layer,
            need,
            at,
        } => put_words(
            out,
            Verb::Fill,
            board,
            layer_word(layer),
            need_word(need),
            at,
        ),
        Entry::Claim { board, at } => put_place(out, Verb::Claim, board, at),
        Entry::WriteBack { board, at } => put_place(out, Verb::WriteBack, board, at),
        Entry::Refresh { board, at } => put_place(out, Verb::Refresh, board, at),
        Entry::BlockFlush { board, holder, at } => put_flush(out, board, holder, at),
        Entry::Leave { board, at } => put_place(out, Verb::Leave, board, at),
        Entry::PageOut { board, at } => put_place(out, Verb::Out, board, at),
        Entry::PageIn { board, at, frame } => put_in(out, board, at, frame),
        Entry::SetRef { board, at } => put_place(out, Verb::SetRef, board, at),
        Entry::SetDirty { board, at } => put_place(out, Verb::SetDirty, board, at),
        Entry::ClearRef { board, at } => put_place(out, Verb::ClearRef, board, at),
    }
}

/// Puts the line of a header.
#[tactic(auto, using(std::proofs::lemmas::Grind::common_steps, spur_text::proofs::TextFacts::two_digits, spur_text::proofs::TextFacts::four_digits), unfolding(crate::specs::Line::header_line))]
fn put_header(out: &mut Text, head: &TraceHead)
    requires is_head { IsHead head.now }
    requires fits { length out.old.items + 22 ≤ out.old.room }
    ensures { out.new ≡ onto out.old (header_line head.now) }
{
    put_begin(out, HEADER_WORD, VERSION);
    out.put_number(head.boards);
    out.put(b" ");
    out.put_number(head.frames);
    out.put(b" ");
    out.put_number(head.lines);
    out.put(b"\n")
}

/// Puts the text of a trace at the end of another, which has room for it.
pub fn put_trace(out: &mut Text, head: &TraceHead, entries: &[Entry])
    requires head { IsHead head.now }
    requires entries { All (IsWellFormed head.now.boards) entries.now }
    requires fits { length out.old.items + trace_room entries.now ≤ out.old.room }
    ensures text { out.new ≡ onto out.old (trace_text head.now entries.now) }
    ensures words { All HasWord entries.now }
{
    put_header(out, head);
    for entry in entries {
        put_entry(out, entry);
    }
}

/// No bytes yet, with room for the text of a trace of these entries.
fn blank(alloc: Global, entries: &[Entry]) -> Result<Text, AllocError>
    ensures { IfOk result (λ text. text ≡ record { items = []; room = trace_room entries.now }) }
{
    let room = trace_room(entries).ok_or(AllocError)?;
    let text = Text::new(alloc, room)?;
    Ok(text)
}

/// The text of a trace: the line of its header, and a line for each entry.
///
/// The head is in its ranges, and the entries are well formed for its boards. What is written is read again as it was
/// by `read_trace`. The answer is an error only for want of memory, which is taken once, for at most twice as many bytes
/// as the text has.
pub fn write_trace(
    alloc: Global,
    head: &TraceHead,
    entries: &[Entry],
) -> Result<Vec<u8>, AllocError>
    requires head { IsHead head.now }
    requires entries { All (IsWellFormed head.now.boards) entries.now }
    ensures text { IfOk result (λ text. text.items ≡ trace_text head.now entries.now) }
    ensures trace { IfOk result (λ text. IsTrace text.items head.now entries.now) }
    ensures room { IfOk result (λ text. vec_capacity text ≤ 2 * length text.items) }
{
    let mut out = blank(alloc, entries)?;
    put_trace(&mut out, head, entries);
    Ok(out.into_bytes())
}
