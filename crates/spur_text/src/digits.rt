//! Numbers in hexadecimal digits.

ghost use Rattle.std.specs.Prelude.{◌≡◌, ◌%◌};
ghost use Rattle.std.specs.Char.{digit_char};
ghost use Rattle.spur_text.specs.Digits.{address_digits, word_digits};

use spur_addr::GlobalAddr;

/// A word in 8 lower-case hexadecimal digits.
#[tactic(auto, unfolding(crate::specs::Digits::word_digits))]
pub fn word_digits(word: u32) -> [u8; 8]
    ensures { result ≡ word_digits word }
{
    let word = u64::from(word);
    [
        digit(word >> 28),
        digit(word >> 24),
        digit(word >> 20),
        digit(word >> 16),
        digit(word >> 12),
        digit(word >> 8),
        digit(word >> 4),
        digit(word),
    ]
}

/// A global address in 10 lower-case hexadecimal digits.
#[tactic(auto, unfolding(crate::specs::Digits::address_digits))]
pub fn address_digits(at: GlobalAddr) -> [u8; 10]
    ensures { result ≡ address_digits at }
{
    let number = at.number();
    [
        digit(number >> 36),
        digit(number >> 32),
        digit(number >> 28),
        digit(number >> 24),
        digit(number >> 20),
        digit(number >> 16),
        digit(number >> 12),
        digit(number >> 8),
        digit(number >> 4),
        digit(number),
    ]
}

/// The lower-case hexadecimal digit of a number's low four bits.
fn digit(number: u64) -> u8
    ensures { result ≡ digit_char (number % 16) }
{
    match (number % 16) as u8 {
        low @ 0..=9 => b'0' + low,
        high => b'a' + (high - 10),
    }
}
