//! The token at the front of bytes.
ghost use Rattle.std.specs.Prelude.{◌≡◌};
ghost use Rattle.spur_asm.specs.Lexeme.{begins_word, named, numbered, token_in};
ghost use Rattle.spur_asm.specs.Front.{behind_front, front_token, single};
ghost use Rattle.spur_asm.specs.Number.{numeral_value};

use crate::fault::AsmKind;
use crate::token::Token;
use crate::{bytes, number as numbers};

/// Whether a name or a number begins with this byte.
pub fn begins_word(b: u8) -> bool
    ensures { result ≡ begins_word b }
{
    bytes::is_name_start(b) || bytes::is_number_start(b)
}

/// The name that this text is. `BadToken` where it has more than 64 bytes.
fn name(text: &[u8]) -> Result<Token<'_>, AsmKind>
    ensures { token_in result ≡ named text.now }
{
    if text.len() > 64 {
        Err(AsmKind::BadToken)
    } else {
        Ok(Token::Name(text))
    }
}

/// The number that this text is. `BadNumber` where it is not well formed.
fn number(text: &[u8]) -> Result<Token<'_>, AsmKind>
    ensures { token_in result ≡ numbered (numeral_value text.now) }
{
    match numbers::number(text) {
        Some(value) => Ok(Token::Number(value)),
        None => Err(AsmKind::BadNumber),
    }
}

/// The token of this one byte, which begins no name and no number. `BadToken` where it is no mark, and `BadByte` where
/// it stands in no token at all.
fn single<'a>(b: u8) -> Result<Token<'a>, AsmKind>
    ensures { token_in result ≡ single b }
{
    if bytes::is_mark(b) {
        Ok(Token::Mark(b))
    } else if b.is_ascii_graphic() {
        Err(AsmKind::BadToken)
    } else {
        Err(AsmKind::BadByte)
    }
}

/// The token at the front of bytes that begin with no blank, and the bytes behind it. `BadToken` where there is none.
pub fn front(bytes: &[u8]) -> (Result<Token<'_>, AsmKind>, &[u8])
    ensures token { token_in result.0 ≡ front_token bytes.now }
    ensures rest { result.1.now ≡ behind_front bytes.now }
{
    match bytes {
        [] => (Err(AsmKind::BadToken), bytes),
        [b, more @ ..] => {
            if bytes::is_name_start(*b) {
                let (text, rest) = bytes.split_at(bytes::name_bytes(more) + 1);
                (name(text), rest)
            } else if bytes::is_number_start(*b) {
                let (text, rest) = bytes.split_at(bytes::number_bytes(more) + 1);
                (number(text), rest)
            } else {
                (single(*b), more)
            }
        }
    }
}
