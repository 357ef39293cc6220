//! How a word writes a number: an address in hexadecimal digits, and all else in decimal ones.

ghost use Rattle.std.specs.Prelude.{◌≡◌, ◌^◌, ◌<◌, IfSome};
ghost use Rattle.spur_words.specs.Words.{decimal_of, hexadecimal_digit, hexadecimal_of, number_in};

use crate::table::Field;

/// The most decimal digits of a number.
const MOST_DIGITS: usize = 20;

/// The most hexadecimal digits of an address.
const MOST_ADDRESS_DIGITS: usize = 10;

/// The number that 1 to 20 decimal digits write; the first may be zeros. `None` where the text is none of these.
fn decimal_of(text: &[u8]) -> Option<u128>
    ensures value { result ≡ decimal_of text.now }
    ensures below { IfSome result (λ n. n < 10 ^ 20) }
{
    if text.is_empty() || text.len() > MOST_DIGITS {
        return None;
    }
    let mut n = 0u128;
    for c in text {
        if !c.is_ascii_digit() {
            return None;
        }
        n = n * 10 + u128::from(*c - b'0');
    }
    Some(n)
}

/// The value of a lower-case hexadecimal digit. `None` where the byte is none.
fn hexadecimal_digit(byte: u8) -> Option<u128>
    ensures value { result ≡ hexadecimal_digit byte }
    ensures small { IfSome result (λ digit. digit < 16) }
{
    match byte {
        b'0'..=b'9' => Some(u128::from(byte - b'0')),
        b'a'..=b'f' => Some(u128::from(byte - b'a') + 10),
        _ => None,
    }
}

/// The number that 1 to 10 lower-case hexadecimal digits write; the first may be zeros. `None` where the text is none
/// of these.
fn hexadecimal_of(text: &[u8]) -> Option<u128>
    ensures value { result ≡ hexadecimal_of text.now }
    ensures below { IfSome result (λ n. n < 16 ^ 10) }
{
    if text.is_empty() || text.len() > MOST_ADDRESS_DIGITS {
        return None;
    }
    let mut n = 0u128;
    for c in text {
        let digit = hexadecimal_digit(*c)?;
        n = n * 16 + digit;
    }
    Some(n)
}

impl Field {
    /// The number that a word writes in this field, whether or not it may fill it. `None` where the word writes none.
    pub(crate) fn number_in(self, word: &[u8]) -> Option<u128>
        ensures { result ≡ number_in self word.now }
    {
        match self {
            Field::Watch => hexadecimal_of(word),
            Field::Start
            | Field::Number
            | Field::Boards
            | Field::Pages
            | Field::Frames
            | Field::Lines
            | Field::Budget
            | Field::Ahead => decimal_of(word),
        }
    }
}
