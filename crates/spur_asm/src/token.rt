//! What a line is made of.

use crate::fault::AsmKind;

/// A token: a name, a number, or one of the marks `,` `:` `(` `)`.
#[derive(Clone, Copy)]
pub enum Token<'a> {
    Name(&'a [u8]),
    Number(i64),
    Mark(u8),
}

/// A token as it stands in its line, or what is wrong with it by itself.
#[derive(Clone, Copy)]
pub struct Lexeme<'a> {
    pub token: Result<Token<'a>, AsmKind>,

    /// Whether it is a name or a number, and no blank parts it from the name or the number before.
    pub glued: bool,

    /// How many bytes of the line are left from its first byte on, not counting the comment.
    pub left: usize,
}
