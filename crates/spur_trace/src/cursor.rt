//! What is left of a text, read from its front, field by field.

ghost use Rattle.std.specs.Prelude.{◌≡◌, ◌==◌, ◌<◌, ◌≤◌, ◌^◌, ◌++◌, ◌∷◌, [], false, length, IfNone, IfSome};
ghost use Rattle.spur_trace.specs.Reading.{Reads, Skips, address_at, below_at, digit_at, digits_on, hex_digit_at, hex_at, hex_value, mark_at, number_at, value_at, within_at};

use crate::head::FieldRange;
use spur_addr::GlobalAddr;
use std::marker::Model;

/// What is left of a text. Contracts see its bytes.
#[derive(Drop)]
pub struct Cursor<'a> {
    rest: &'a [u8],
}

impl<'a> Model for Cursor<'a> {
    ghost use Rattle.std.specs.Prelude.{List, ℕ};

    ghost Value = { List ℕ };

    ghost view = { λ c. c.rest.now };
}

/// The value of a lower-case hexadecimal digit.
fn hex_value(byte: u8) -> Option<u64>
    ensures value { result ≡ hex_value byte }
    ensures small { IfSome result (λ digit. digit < 16) }
{
    match byte {
        b'0'..=b'9' => Some(u64::from(byte - b'0')),
        b'a'..=b'f' => Some(u64::from(byte - b'a') + 10),
        _ => None,
    }
}

impl<'a> Cursor<'a> {
    /// At the beginning of a text.
    pub fn new(text: &'a [u8]) -> Cursor<'a>
        ensures { result ≡ text.now }
    {
        Cursor { rest: text }
    }

    /// Whether nothing is left.
    pub fn is_empty(&self) -> bool
        ensures { result ≡ (length self.now == 0) }
    {
        self.rest.is_empty()
    }

    /// Takes a word and the space behind it, if they stand in front.
    pub fn eat(&mut self, word: &[u8]) -> bool
        ensures skips { Skips (word.now ++ 32 ∷ []) self.old result self.new }
        ensures stays { result ≡ false → self.new ≡ self.old }
    {
        let Some(behind) = self.rest.strip_prefix(word) else {
            return false;
        };
        let Some(rest) = behind.strip_prefix(b" ") else {
            return false;
        };
        self.rest = rest;
        true
    }

    /// Takes this byte.
    fn mark(&mut self, byte: u8) -> Option<()>
        ensures { Reads (mark_at byte self.old) result self.new }
    {
        let [first, rest @ ..] = self.rest else {
            return None;
        };
        if *first != byte {
            return None;
        }
        self.rest = rest;
        Some(())
    }

    /// Takes a decimal digit, if one stands in front.
    fn digit(&mut self) -> Option<u32>
        ensures reads { Reads (digit_at self.old) result self.new }
        ensures stays { IfNone result (self.new ≡ self.old) }
        ensures small { IfSome result (λ digit. digit < 10) }
    {
        let [first, rest @ ..] = self.rest else {
            return None;
        };
        if !first.is_ascii_digit() {
            return None;
        }
        self.rest = rest;
        Some(u32::from(*first - b'0'))
    }

    /// The number that the digits of `number` and those in front write, up to nine of them.
    fn digits(&mut self, number: u32) -> u32
        requires { number < 10 ^ 9 }
        ensures { digits_on number self.old ≡ (result, self.new) }
    {
        let mut number = number;
        while number < 100_000_000 {
            let Some(digit) = self.digit() else {
                return number;
            };
            number = number * 10 + digit;
        }
        number
    }

    /// A decimal number without leading zeros, of up to nine digits.
    #[tactic(auto, unfolding(crate::specs::Reading::number_at))]
    fn number(&mut self) -> Option<u32>
        ensures { Reads (number_at self.old) result self.new }
    {
        match self.digit()? {
            0 => Some(0),
            first => Some(self.digits(first)),
        }
    }

    /// A decimal number below a limit, and the byte behind it.
    #[tactic(auto, unfolding(crate::specs::Reading::below_at))]
    pub fn below(&mut self, limit: u32, mark: u8) -> Option<u32>
        ensures { Reads (below_at limit mark self.old) result self.new }
    {
        let number = self.number()?;
        self.mark(mark)?;
        if number < limit { Some(number) } else { None }
    }

    /// A decimal number in a range, and the byte behind it.
    #[tactic(auto, unfolding(crate::specs::Reading::within_at))]
    pub fn within(&mut self, range: FieldRange, mark: u8) -> Option<u32>
        requires { range.most < 10000 }
        ensures { Reads (within_at range.least range.most mark self.old) result self.new }
    {
        let number = self.below(range.most + 1, mark)?;
        if range.least <= number {
            Some(number)
        } else {
            None
        }
    }

    /// Takes a lower-case hexadecimal digit.
    fn hex_digit(&mut self) -> Option<u64>
        ensures reads { Reads (hex_digit_at self.old) result self.new }
        ensures small { IfSome result (λ digit. digit < 16) }
    {
        let [first, rest @ ..] = self.rest else {
            return None;
        };
        let digit = hex_value(*first)?;
        self.rest = rest;
        Some(digit)
    }

    /// The number that so many lower-case hexadecimal digits write.
    #[tactic(auto, unfolding(crate::specs::Reading::hex_at))]
    fn hex(&mut self, count: u32) -> Option<u64>
        requires { count ≤ 10 }
        ensures reads { Reads (hex_at count self.old) result self.new }
        ensures small { IfSome result (λ number. number < 16 ^ count) }
    {
        let mut number = 0;
        for _i in 0..count {
            number = number * 16 + self.hex_digit()?;
        }
        Some(number)
    }

    /// A global address that is a multiple of a number, in 10 digits, and the byte behind it.
    #[tactic(auto, unfolding(crate::specs::Reading::address_at))]
    pub fn address(&mut self, multiple: u64, mark: u8) -> Option<GlobalAddr>
        requires { 0 < multiple }
        ensures { Reads (address_at multiple mark self.old) result self.new }
    {
        let number = self.hex(10)?;
        self.mark(mark)?;
        let at = GlobalAddr::of(number)?;
        if number % multiple == 0 {
            Some(at)
        } else {
            None
        }
    }

    /// A word in 8 digits, at the end of its line.
    #[tactic(auto, unfolding(crate::specs::Reading::value_at))]
    pub fn value(&mut self) -> Option<u32>
        ensures { Reads (value_at self.old) result self.new }
    {
        let value = self.hex(8)?;
        self.mark(b'\n')?;
        Some(value as u32)
    }
}
