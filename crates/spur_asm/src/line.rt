//! A line in the light of what stands before it and of all labels.
ghost use Rattle.std.specs.Prelude.{◌≡◌, ◌^◌, ◌+◌, ◌-◌, ℕ, IfOk, Result};
ghost use Rattle.std.specs.Option.{option_copied};
ghost use Rattle.spur_asm.specs.Context.{immediate_of, IsWithin};
ghost use Rattle.spur_asm.specs.Lexeme.{token_in};
ghost use Rattle.spur_asm.specs.Line.{head_fault};
ghost use Rattle.spur_asm.specs.Step.{begun_with, step_at};

use crate::cursor::Cursor;
use crate::fault::{AsmKind, Misfit};
use crate::statement::{Context, Sort, Statement};
use crate::table::Labels;
use crate::token::Lexeme;
use crate::{head, statements};

/// The fault of the label of a line, if it has one that may not stand here.
fn head_fault<'a>(labels: &Labels<'a>, context: Context, label: Option<&'a [u8]>) -> Option<AsmKind>
    ensures { result ≡ head_fault labels.now context (option_copied label.entry) }
{
    match label {
        Some(name) => context.label_fault(labels, name),
        None => None,
    }
}

/// The statement that begins with the token `first`, behind which the cursor stands, and its sort. A statement that is
/// not known or may not stand here has its fault at that token.
fn begun<'a>(
    labels: &Labels<'a>,
    context: Context,
    first: &Lexeme<'a>,
    line: &mut Cursor<'a>,
) -> Result<(Statement, Sort), Misfit>
    ensures { result ≡ begun_with (immediate_of labels.now context) context
        (token_in first.now.token) first.now.left line.old }
{
    match head::sort(first.token) {
        Err(kind) => Err(first.misfit(kind)),
        Ok(sort) => match context.misplacement(sort) {
            Some(kind) => Err(first.misfit(kind)),
            None => {
                let statement = statements::statement(labels, context, sort, line)?;
                Ok((statement, sort))
            }
        },
    }
}

/// The statement of a line that stands in this context, if it has one, and the context of the line behind it. `labels`
/// are those of all lines, in their order. A label that may not stand here has its fault at the line's first token,
/// before all that follows.
#[tactic(auto, unfolding(crate::specs::Line::statement_of_line))]
pub fn step<'a>(
    labels: &Labels<'a>,
    context: Context,
    line: &'a [u8],
) -> Result<(Option<Statement>, Context), Misfit>
    requires { IsWithin (2 ^ 64 - 2) context }
    ensures step { result ≡ step_at labels.now context line.now }
    ensures within { IfOk result (λ next. (k : ℕ) → IsWithin k context → IsWithin (k + 1) next.1) }
{
    let mut cursor = Cursor::new(line);
    let label = cursor.label_at_head();
    if let Some(kind) = head_fault(labels, context, label) {
        return Err(Cursor::new(line).misfit_here(kind));
    }
    let Some(first) = cursor.next() else {
        return Ok((None, context.after(label, None)));
    };
    let (statement, sort) = begun(labels, context, &first, &mut cursor)?;
    Ok((Some(statement), context.after(label, Some(sort))))
}
