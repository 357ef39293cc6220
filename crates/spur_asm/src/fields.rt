//! The fields of a statement. Each reader takes one token, or says in which way the line does not fit: by the token's
//! own fault, as `BadToken` where the line ends, and last as `BadToken` where a blank is wanting before the token.
ghost use Rattle.std.specs.Prelude.{◌≡◌, ◌≤ℤ◌, ◌≤◌, IfOk, List, Ok, Result, ℤ, pos};
ghost use Rattle.spur_asm.specs.Context.{immediate_of};
ghost use Rattle.spur_asm.specs.Lexeme as specs;
ghost use Rattle.spur_asm.specs.Lexeme.{lexeme_of, token_in};
ghost use Rattle.spur_asm.specs.Fields.{end_at, immediate_at, label_at, label_in, mark_at, misfit, natural_at, number_at, offset_at, protection_at, register_at, taken, token_value, Passes, Reads};

use crate::cursor::Cursor;
use crate::fault::{AsmKind, Misfit};
use crate::operand;
use crate::statement::Context;
use crate::table::Labels;
use crate::token::{Lexeme, Token};
use spur_addr::Protection;
use spur_isa::Reg;

impl Lexeme<'_> {
    /// The fault of this token.
    pub fn misfit(&self, kind: AsmKind) -> Misfit
        ensures { result ≡ misfit kind self.now.left }
    {
        Misfit {
            kind,
            left: self.left,
        }
    }

    /// The value that this token stands for. A fault of its own comes first, and then that it is glued to the token
    /// before.
    fn taken<T: Drop>(&self, value: Result<T, AsmKind>) -> Result<T, Misfit>
        ensures reads { (rest : List specs.Lexeme) → Reads result rest (taken (lexeme_of self.now) value rest) }
        ensures same { IfOk result (λ v. value ≡ Ok v) }
    {
        match value {
            Err(kind) => Err(self.misfit(kind)),
            Ok(_) if self.glued => Err(self.misfit(AsmKind::BadToken)),
            Ok(value) => Ok(value),
        }
    }
}

/// The fault of a line that ends too early.
const END: Misfit = Misfit {
    kind: AsmKind::BadToken,
    left: 0,
};

impl<'a> Cursor<'a> {
    /// Takes the mark `c`.
    pub fn mark(&mut self, c: u8) -> Result<(), Misfit>
        ensures { Passes c result self.new (mark_at c self.old) }
    {
        let Some(lexeme) = self.next() else {
            return Err(END);
        };
        lexeme.taken(operand::mark(lexeme.token, c))?;
        Ok(())
    }

    /// Takes a register, `r0` to `r15`. `UnknownName` where the name here is none.
    pub fn register(&mut self) -> Result<Reg, Misfit>
        ensures { Reads result self.new (register_at self.old) }
    {
        let Some(lexeme) = self.next() else {
            return Err(END);
        };
        lexeme.taken(operand::register(lexeme.token))
    }

    /// Takes a protection, `none`, `ro` or `rw`. `UnknownName` where the name here is none.
    pub fn protection(&mut self) -> Result<Protection, Misfit>
        ensures { Reads result self.new (protection_at self.old) }
    {
        let Some(lexeme) = self.next() else {
            return Err(END);
        };
        lexeme.taken(operand::protection(lexeme.token))
    }

    /// Takes a number from `low` to `high`. `BadNumber` where the number here is none of these.
    pub fn number(&mut self, low: i64, high: i64) -> Result<i64, Misfit>
        ensures value { Reads result self.new (number_at low high self.old) }
        ensures range { IfOk result (λ z. (low ≤ℤ z) × (z ≤ℤ high)) }
    {
        let Some(lexeme) = self.next() else {
            return Err(END);
        };
        lexeme.taken(operand::number(lexeme.token, low, high))
    }

    /// Takes an immediate, a number from -32768 to 32767. `BadNumber` where the number here is none of these.
    pub fn immediate(&mut self) -> Result<i16, Misfit>
        ensures { Reads result self.new (immediate_at self.old) }
    {
        let i = self.number(-32768, 32767)?;
        Ok(i as i16)
    }

    /// Takes a number from 0 to `high`. `BadNumber` where the number here is none of these.
    pub fn natural(&mut self, high: u32) -> Result<u32, Misfit>
        ensures value { Reads result self.new (natural_at high self.old) }
        ensures range { IfOk result (λ n. n ≤ high) }
    {
        let Some(lexeme) = self.next() else {
            return Err(END);
        };
        lexeme.taken(operand::natural(lexeme.token, high))
    }

    /// Takes the offset of a word in its segment, in bytes: a multiple of 4 from 0 to 1073741820. `BadNumber` where the
    /// number here is none of these.
    pub fn offset(&mut self) -> Result<u32, Misfit>
        ensures value { Reads result self.new (offset_at self.old) }
        ensures range { IfOk result (λ n. n ≤ 1073741820) }
    {
        let Some(lexeme) = self.next() else {
            return Err(END);
        };
        lexeme.taken(operand::offset(lexeme.token, 1073741820))
    }

    /// Takes the name of a label of the board, as the immediate that leads from the instruction of this line to it.
    /// `NoLabel` where the board has none of this name.
    pub fn label(&mut self, labels: &Labels<'a>, context: Context) -> Result<i16, Misfit>
        ensures { Reads result self.new (label_at (immediate_of labels.now context) self.old) }
    {
        let Some(lexeme) = self.next() else {
            return Err(END);
        };
        lexeme.taken(led_to(lexeme.token, labels, context))
    }

    /// Gives the value back at the end of the line. `BadToken` where a token is left, or its own fault.
    pub fn end<T: Drop>(&mut self, value: T) -> Result<T, Misfit>
        ensures { result ≡ end_at value self.old }
    {
        match self.next() {
            None => Ok(value),
            Some(lexeme) => Err(lexeme.misfit(match lexeme.token {
                Err(kind) => kind,
                Ok(_) => AsmKind::BadToken,
            })),
        }
    }
}

/// The immediate that leads from the instruction of this line to the label that the token names. `BadToken` where it
/// is no name, `NoLabel` where the board has no label of this name.
fn led_to<'a>(
    token: Result<Token<'a>, AsmKind>,
    labels: &Labels<'a>,
    context: Context,
) -> Result<i16, AsmKind>
    ensures { result ≡ token_value (token_in token.entry) (label_in (immediate_of labels.now context)) }
{
    match token? {
        Token::Name(name) => context.immediate(labels, name).ok_or(AsmKind::NoLabel),
        _ => Err(AsmKind::BadToken),
    }
}
