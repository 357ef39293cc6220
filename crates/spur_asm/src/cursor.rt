//! A line, read from its left, token by token. Each reader takes what it reads, or says in which way the line does not
//! fit.
ghost use Rattle.std.specs.Prelude.{◌≡◌, ◌&&◌, ◌==◌};
ghost use Rattle.std.specs.List.{before_first, position};
ghost use Rattle.spur_asm.specs.Bytes.{is_semicolon};
ghost use Rattle.spur_asm.specs.Lexeme.{lexemes_of, TakesLexeme};

use crate::fault::AsmKind;
use crate::token::Lexeme;
use crate::{bytes, front};
use std::marker::Model;

/// The place of the first `;`. `None` where there is none.
fn first_semicolon(line: &[u8]) -> Option<usize>
    ensures { result ≡ position is_semicolon line.now }
{
    line.iter().position(|b| *b == b';')
}

/// The bytes before the first `;`, which begins a comment.
pub fn body(line: &[u8]) -> &[u8]
    ensures { result.now ≡ before_first is_semicolon line.now }
{
    match first_semicolon(line) {
        Some(end) => &line[..end],
        None => line,
    }
}

/// Whether a name or a number follows one before it, with no blank between.
fn is_glued(behind_word: bool, blanks: usize, is_word: bool) -> bool
    ensures { result ≡ (behind_word && (blanks == 0) && is_word) }
{
    behind_word && blanks == 0 && is_word
}

/// What is left of a line. Contracts see its tokens.
#[derive(Drop)]
pub struct Cursor<'a> {
    rest: &'a [u8],

    /// Whether a name or a number ends just before.
    behind_word: bool,
}

impl<'a> Model for Cursor<'a> {
    ghost use Rattle.std.specs.Prelude.{List};
    ghost use Rattle.spur_asm.specs.Lexeme.{Lexeme, lexemes_from};

    ghost Value = { List Lexeme };

    ghost view = { λ c. lexemes_from 0 c.behind_word c.rest.now };
}

impl<'a> Cursor<'a> {
    /// At the beginning of a line, without its comment.
    pub fn new(line: &'a [u8]) -> Cursor<'a>
        ensures { result ≡ lexemes_of line.now }
    {
        Cursor {
            rest: body(line),
            behind_word: false,
        }
    }

    /// Another cursor at this place.
    pub fn again(&self) -> Cursor<'a>
        ensures { result ≡ self.now }
    {
        Cursor {
            rest: self.rest,
            behind_word: self.behind_word,
        }
    }

    /// Takes the next token. `None` at the end of the line.
    pub fn next(&mut self) -> Option<Lexeme<'a>>
        ensures { TakesLexeme result self.old self.new }
    {
        let skipped = bytes::blanks(self.rest);
        let (_, bytes) = self.rest.split_at(skipped);
        let [b, ..] = bytes else {
            return None;
        };
        let is_word = front::begins_word(*b);
        let glued = is_glued(self.behind_word, skipped, is_word);
        let (token, rest) = front::front(bytes);
        self.rest = rest;
        self.behind_word = is_word;
        Some(Lexeme {
            token,
            glued,
            left: bytes.len(),
        })
    }
}
