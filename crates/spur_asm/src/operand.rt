//! What a token stands for where a statement wants it.
ghost use Rattle.std.specs.Prelude.{◌≡◌, ◌≤ℤ◌, ◌≤◌, IfOk, Ok, Err, ℤ, pos};
ghost use Rattle.spur_asm.specs.Lexeme.{token_in};
ghost use Rattle.spur_asm.specs.Fields.{mark_in, named_protection, named_register, natural_in, number_in, offset_in, protection_in, register_in, token_value};

use crate::fault::AsmKind;
use crate::token::Token;
use spur_addr::Protection;
use spur_isa::Reg;

/// The mark `wanted`. `BadToken` where the token is another one.
pub fn mark(token: Result<Token<'_>, AsmKind>, wanted: u8) -> Result<u8, AsmKind>
    ensures { result ≡ token_value (token_in token.entry) (mark_in wanted) }
{
    match token? {
        Token::Mark(mark) if mark == wanted => Ok(wanted),
        _ => Err(AsmKind::BadToken),
    }
}

/// The register with this name, `r0` to `r15`. `None` for any other name.
fn register_named(name: &[u8]) -> Option<Reg>
    ensures { result ≡ named_register name.now }
{
    match name {
        [b'r', d] if d.is_ascii_digit() => Reg::of(*d - b'0'),
        [b'r', b'1', d] if d.is_ascii_digit() && *d < b'6' => Reg::of(10 + (*d - b'0')),
        _ => None,
    }
}

/// A register, `r0` to `r15`. `BadToken` where the token is no name, `UnknownName` where it is another one.
pub fn register(token: Result<Token<'_>, AsmKind>) -> Result<Reg, AsmKind>
    ensures { result ≡ token_value (token_in token.entry) register_in }
{
    match token? {
        Token::Name(name) => register_named(name).ok_or(AsmKind::UnknownName),
        _ => Err(AsmKind::BadToken),
    }
}

/// The protection with this name: `none`, `ro` or `rw`. `None` for any other name.
fn protection_named(name: &[u8]) -> Option<Protection>
    ensures { result ≡ named_protection name.now }
{
    if name == b"none".as_slice() {
        Some(Protection::Nothing)
    } else if name == b"ro".as_slice() {
        Some(Protection::ReadOnly)
    } else if name == b"rw".as_slice() {
        Some(Protection::ReadWrite)
    } else {
        None
    }
}

/// A protection, `none`, `ro` or `rw`. `BadToken` where the token is no name, `UnknownName` where it is another one.
pub fn protection(token: Result<Token<'_>, AsmKind>) -> Result<Protection, AsmKind>
    ensures { result ≡ token_value (token_in token.entry) protection_in }
{
    match token? {
        Token::Name(name) => protection_named(name).ok_or(AsmKind::UnknownName),
        _ => Err(AsmKind::BadToken),
    }
}

/// A number from `low` to `high`. `BadToken` where the token is no number, `BadNumber` where it is another one.
pub fn number(token: Result<Token<'_>, AsmKind>, low: i64, high: i64) -> Result<i64, AsmKind>
    ensures value { result ≡ token_value (token_in token.entry) (number_in low high) }
    ensures range { IfOk result (λ z. (low ≤ℤ z) × (z ≤ℤ high)) }
{
    match token? {
        Token::Number(z) if z < low || high < z => Err(AsmKind::BadNumber),
        Token::Number(z) => Ok(z),
        _ => Err(AsmKind::BadToken),
    }
}

/// A number from 0 to `high`. `BadToken` where the token is no number, `BadNumber` where it is another one.
pub fn natural(token: Result<Token<'_>, AsmKind>, high: u32) -> Result<u32, AsmKind>
    ensures value { result ≡ token_value (token_in token.entry) (natural_in high) }
    ensures range { IfOk result (λ n. n ≤ high) }
{
    let z = number(token, 0, i64::from(high))?;
    Ok(z as u32)
}

/// A multiple of 4 from 0 to `high`. `BadToken` where the token is no number, `BadNumber` where it is another one.
pub fn offset(token: Result<Token<'_>, AsmKind>, high: u32) -> Result<u32, AsmKind>
    ensures value { result ≡ token_value (token_in token.entry) (offset_in high) }
    ensures range { IfOk result (λ n. n ≤ high) }
{
    let n = natural(token, high)?;
    if n % 4 == 0 {
        Ok(n)
    } else {
        Err(AsmKind::BadNumber)
    }
}
