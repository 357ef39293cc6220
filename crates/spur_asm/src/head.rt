//! The head of a line: its label, and the name of its statement.
ghost use Rattle.std.specs.Prelude.{◌≡◌};
ghost use Rattle.std.specs.Option.{option_copied};
ghost use Rattle.spur_asm.specs.Token.{is_dotted};
ghost use Rattle.spur_asm.specs.Lexeme.{lexemes_of, token_in};
ghost use Rattle.spur_asm.specs.Context.{behind_label, label_of_two, leading_label, sort_in};
ghost use Rattle.spur_asm.specs.Fields.{misfit, token_value};
ghost use Rattle.spur_asm.specs.Line.{left_of};
ghost use Rattle.spur_asm.specs.Step.{sort_of_name};

use crate::cursor::Cursor;
use crate::fault::{AsmKind, Misfit};
use crate::statement::Sort;
use crate::token::{Lexeme, Token};

/// Whether a name begins with `.`, as no label does.
fn is_dotted(name: &[u8]) -> bool
    ensures { result ≡ is_dotted name.now }
{
    match name {
        [b, ..] => *b == b'.',
        [] => false,
    }
}

/// The name of the label that two tokens are: a name without a leading `.`, and `:`.
fn label_of_two<'a>(
    one: Result<Token<'a>, AsmKind>,
    other: Result<Token<'a>, AsmKind>,
) -> Option<&'a [u8]>
    ensures { option_copied result ≡ label_of_two (token_in one.entry) (token_in other.entry) }
{
    match (one, other) {
        (Ok(Token::Name(name)), Ok(Token::Mark(mark))) if mark == b':' && !is_dotted(name) => {
            Some(name)
        }
        _ => None,
    }
}

/// The sort of the statements that begin with this token. `BadToken` where it is no name, `UnknownName` where no
/// statement has this name.
pub fn sort(token: Result<Token<'_>, AsmKind>) -> Result<Sort, AsmKind>
    ensures { result ≡ token_value (token_in token.entry) sort_of_name }
{
    match token? {
        Token::Name(name) => Sort::named(name).ok_or(AsmKind::UnknownName),
        _ => Err(AsmKind::BadToken),
    }
}

impl<'a> Cursor<'a> {
    /// Takes the label with which the line begins, whatever follows it. `None` where it begins with none.
    pub fn label_at_head(&mut self) -> Option<&'a [u8]>
        ensures label { option_copied result ≡ leading_label self.old }
        ensures rest { self.new ≡ behind_label self.old }
    {
        let mut ahead = self.again();
        let one = ahead.next()?;
        let other = ahead.next()?;
        let name = label_of_two(one.token, other.token)?;
        *self = ahead;
        Some(name)
    }

    /// The sort of the statement that begins here, whatever follows its name. `None` where none begins here.
    fn sort_here(&mut self) -> Option<Sort>
        ensures { result ≡ sort_in self.old }
    {
        match self.next()?.token {
            Ok(Token::Name(name)) => Sort::named(name),
            _ => None,
        }
    }

    /// The fault of the first token that is left, or of the end of the line.
    pub fn misfit_here(&mut self, kind: AsmKind) -> Misfit
        ensures { result ≡ misfit kind (left_of self.old) }
    {
        match self.next() {
            Some(first) => first.misfit(kind),
            None => Misfit { kind, left: 0 },
        }
    }
}

/// The label of a line and the sort of its statement, whatever stands behind them.
pub fn head(line: &[u8]) -> (Option<&[u8]>, Option<Sort>)
    ensures label { option_copied result.0 ≡ leading_label (lexemes_of line.now) }
    ensures sort { result.1 ≡ sort_in (behind_label (lexemes_of line.now)) }
{
    let mut cursor = Cursor::new(line);
    let label = cursor.label_at_head();
    let sort = cursor.sort_here();
    (label, sort)
}
