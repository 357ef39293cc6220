//! Whole texts.
ghost use Rattle.std.specs.Prelude.{◌≡◌, ◌-◌, ◌<◌, ◌^◌, ℕ, length, Err, IfOk};
ghost use Rattle.spur_asm.specs.Context.{first_context};
ghost use Rattle.spur_asm.specs.Draft.{empty_draft};
ghost use Rattle.spur_asm.specs.Faults.{IsFirstFault};
ghost use Rattle.spur_asm.specs.Says.{Says};
ghost use Rattle.spur_asm.specs.Text.{draft_from, lines_of, unit_of};
ghost use Rattle.spur_asm.specs.Told.{answer_of, told_at, told_from, told_of, GivesDraft, GivesUnit};
ghost use Rattle.spur_asm.specs.declared.fault.AsmKind.{AsmKind as kinds};
ghost use Rattle.spur_object.specs.Limits.{IsUnit};
ghost use Rattle.spur_object.specs.declared.unit.Unit as units;

use crate::draft::Draft;
use crate::fault::{AsmFault, AsmKind, Misfit};
use crate::statement::Context;
use crate::table::Labels;
use crate::{cursor, line, lines};
use spur_object::Unit;
use std::alloc::Global;

/// The fault of a text that has no other, and no board.
const NO_BOARD: AsmFault = AsmFault::Bad {
    kind: AsmKind::NoBoard,
    line: 1,
    column: 1,
};

/// The fault of the line with this number, counted from 1. Its column is one more than the number of bytes before it.
fn fault_in(number: usize, line: &[u8], misfit: Misfit) -> AsmFault
    requires number { number < 2 ^ 32 }
    requires short { length line.now < 2 ^ 32 - 1 }
    ensures { result ≡ answer_of (told_at number line.now misfit) }
{
    let before = cursor::body(line).len().saturating_sub(misfit.left);
    AsmFault::Bad {
        kind: misfit.kind,
        line: number as u32,
        column: (before + 1) as u32,
    }
}

/// What the lines of a text say, in their order, in the light of the labels of them all; or the first fault, where a line
/// does not fit or there is no board.
fn draft_of<'a>(alloc: Global, labels: &Labels<'a>, text: &'a [u8]) -> Result<Draft, AsmFault>
    requires { length text.now < 2 ^ 32 - 1 }
    ensures { GivesDraft result (draft_from labels.now first_context empty_draft (lines_of text.now))
        (told_from labels.now first_context 1 (lines_of text.now)) }
{
    let mut draft = Draft::new(alloc);
    let mut context = Context::first();
    let mut number = 1;
    let mut rest = text;
    while !rest.is_empty() {
        let (first, behind) = lines::split_line(rest);
        let (statement, next) = match line::step(labels, context, first) {
            Ok(read) => read,
            Err(misfit) => return Err(fault_in(number, first, misfit)),
        };
        draft.add_line(alloc, statement)?;
        context = next;
        number += 1;
        rest = behind;
    }
    if context.boards == 0 {
        return Err(NO_BOARD);
    }
    Ok(draft)
}

/// The unit of a text, as the definitions read it.
#[tactic(auto, unfolding(crate::specs::Text::unit_of))]
fn read(alloc: Global, text: &[u8]) -> Result<Unit, AsmFault>
    requires { length text.now < 2 ^ 32 - 1 }
    ensures exact { GivesUnit result (unit_of text.now) (told_of text.now) }
{
    let labels = Labels::of(alloc, lines::labels(alloc, text)?)?;
    let draft = draft_of(alloc, &labels, text)?;
    let unit = draft.into_unit()?;
    Ok(unit)
}

/// Assembles a program's text, in this project's own form. Each line has an optional label, which is a name without a
/// leading `.` and `:`, and an optional statement: one of the 25 instructions, or `.page S P W` (segment, page of it,
/// protection), `.word S O V` (segment, byte offset in it, value), `.board` or `.seg A B C D` (the board's segment
/// registers, which are 0, 1, 2 and 3 without it). A `;` begins a comment. There are 1 to 12 boards, at most 4096
/// instructions a board, at most 2048 pages and at most 65536 words. The text has fewer than 2^32 - 1 bytes.
///
/// `Bad` where the text has a fault: of its faults that with the least line, and then the least column. `NoMemory` where
/// memory is wanting.
pub fn assemble(alloc: Global, text: &[u8]) -> Result<Unit, AsmFault>
    requires { length text.now < 2 ^ 32 - 1 }
    ensures ok { IfOk result (λ unit. Says text.now unit) }
    ensures limits { IfOk result IsUnit }
    ensures first { (kind : kinds) (line column : ℕ) → result ≡ Err (AsmFault.Bad kind line column)
        → IsFirstFault text.now line column kind }
    ensures nothing_said { (kind : kinds) (line column : ℕ) → result ≡ Err (AsmFault.Bad kind line column)
        → (unit : units.Unit) → Says text.now unit → ⊥ }
{
    let answer = read(alloc, text);
    answer
}
