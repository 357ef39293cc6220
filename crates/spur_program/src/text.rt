//! The lines that the program itself writes: the refusal of a word, and a verdict. Their form is this project's own.

ghost use Rattle.std.specs.Prelude.{◌≡◌, ◌++◌, IfOk, OnOk};
ghost use Rattle.spur_input.specs.Texts.{number_text};
ghost use Rattle.spur_program.specs.Texts.{clause_word, entry_place, numbers_text, verdict_line, words_line};

use spur_check::Verdict;
use spur_flat::Clause;
use spur_text::put;
use std::alloc::{AllocError, Global};

/// The line that refuses a word of the command line, by its number, counted from 1.
pub fn words_line(alloc: Global, number: usize) -> Result<Vec<u8>, AllocError>
    ensures { IfOk result (λ line. line.items ≡ words_line number) }
{
    let line = format!(in alloc; "refused: word {number}\n")?;
    Ok(line.into_bytes())
}

/// The line of a verdict: `good` with the number of entries; or `bad` with the number of the first entry that is
/// refused, counted from 1, the word for the rule that it breaks, and the rule's two numbers.
pub fn verdict_line(alloc: Global, verdict: Verdict) -> Result<Vec<u8>, AllocError>
    ensures { IfOk result (λ line. line.items ≡ verdict_line verdict) }
{
    let mut out = Vec::new(alloc);
    match verdict {
        Verdict::Good { entries } => put_number(alloc, &mut out, b"good ", entries)?,
        Verdict::Bad {
            at,
            clause,
            wanted,
            found,
        } => {
            put_place(alloc, &mut out, at, clause)?;
            put_numbers(alloc, &mut out, wanted, found)?;
        }
    }
    put(&mut out, b"\n")?;
    Ok(out)
}

/// Writes which entry is refused, and the rule that it breaks.
#[tactic(auto, unfolding(crate::specs::Texts::entry_place))]
fn put_place(alloc: Global, out: &mut Vec<u8>, at: u64, clause: Clause) -> Result<(), AllocError>
    ensures { OnOk result (out.new.items ≡ out.old.items ++ entry_place at clause) }
{
    put_number(alloc, out, b"bad ", at)?;
    put(out, b" ")?;
    put(out, clause_word(clause))
}

/// Writes the two numbers of a rule.
#[tactic(auto, unfolding(crate::specs::Texts::numbers_text))]
fn put_numbers(alloc: Global, out: &mut Vec<u8>, wanted: u64, found: u64) -> Result<(), AllocError>
    ensures { OnOk result (out.new.items ≡ out.old.items ++ numbers_text wanted found) }
{
    put_number(alloc, out, b" ", wanted)?;
    put_number(alloc, out, b" ", found)
}

/// Writes a number behind bytes.
#[tactic(auto, unfolding(spur_input::specs::Texts::number_text))]
fn put_number(
    alloc: Global,
    out: &mut Vec<u8>,
    before: &[u8],
    number: u64,
) -> Result<(), AllocError>
    ensures { OnOk result (out.new.items ≡ out.old.items ++ number_text before.now number) }
{
    put(out, before)?;
    let digits = format!(in alloc; "{number}")?;
    put(out, digits.as_bytes())
}

/// The word for a rule.
fn clause_word(clause: Clause) -> &'static [u8]
    ensures { result.now ≡ clause_word clause }
{
    match clause {
        Clause::Program => b"program",
        Clause::Answer => b"answer",
        Clause::Fault => b"fault",
        Clause::Pager => b"pager",
        Clause::Tags => b"tags",
        Clause::Needed => b"needed",
    }
}
