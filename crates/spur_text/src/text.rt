//! Bytes that are put at the end of a text.

ghost use Rattle.std.specs.Prelude.{◌≡◌, ◌+◌, ◌≤◌, ◌++◌, [], IfOk, OnOk, length, vec_capacity};
ghost use Rattle.std.specs.Fmt.{decimal};
ghost use Rattle.spur_text.specs.Digits.{address_digits, word_digits};
ghost use Rattle.spur_text.specs.Written.{onto};

use crate::digits;
use spur_addr::GlobalAddr;
use std::alloc::{AllocError, Global};
use std::marker::Model;

/// Puts bytes at the end of a text, and takes memory for them where it has no room left.
pub fn put(out: &mut Vec<u8>, bytes: &[u8]) -> Result<(), AllocError>
    ensures { OnOk result (out.new.items ≡ out.old.items ++ bytes.now) }
{
    out.extend_from_slice(bytes)
}

/// A text that is written into room which was taken for it at first, so that no later call can want memory.
///
/// Contracts see its bytes, and how many it has room for: that never changes, and each call that puts bytes asks for
/// room.
#[derive(Drop)]
pub struct Text {
    bytes: Vec<u8>,
}

impl Model for Text {
    ghost use Rattle.std.specs.Prelude.{vec_capacity};
    ghost use Rattle.spur_text.specs.Written.{Written};

    ghost Value = { Written };

    ghost view = { λ t. record { items = t.bytes.items; room = vec_capacity t.bytes } };
}

impl Text {
    /// No bytes yet, with room for so many.
    pub fn new(alloc: Global, room: usize) -> Result<Text, AllocError>
        ensures { IfOk result (λ text. text ≡ record { items = []; room = room }) }
    {
        let bytes = Vec::with_capacity(alloc, room)?;
        Ok(Text { bytes })
    }

    /// The bytes, in the room that was taken for them.
    pub fn into_bytes(self) -> Vec<u8>
        ensures items { result.items ≡ self.items }
        ensures room { vec_capacity result ≡ self.room }
    {
        self.bytes
    }

    /// Puts bytes at the end.
    pub fn put(&mut self, bytes: &[u8])
        requires { length self.old.items + length bytes.now ≤ self.old.room }
        ensures { self.new ≡ onto self.old bytes.now }
    {
        for byte in bytes {
            self.bytes.push_reserved(*byte);
        }
    }

    /// Puts a number at the end, in decimal.
    #[tactic(auto, using(std::proofs::lemmas::Grind::common_steps, crate::proofs::TextFacts::one_digit, crate::proofs::TextFacts::more_digits))]
    pub fn put_number(&mut self, number: u32)
        requires { length self.old.items + length (decimal number) ≤ self.old.room }
        ensures { self.new ≡ onto self.old (decimal number) }
    {
        if number < 10 {
            return self.put(&[b'0' + number as u8]);
        }
        self.put_number(number / 10);
        self.put(&[b'0' + (number % 10) as u8])
    }

    /// Puts a word at the end, in 8 lower-case hexadecimal digits.
    #[tactic(auto, using(std::proofs::lemmas::Grind::common_steps, crate::proofs::TextFacts::word_length))]
    pub fn put_word(&mut self, word: u32)
        requires { length self.old.items + 8 ≤ self.old.room }
        ensures { self.new ≡ onto self.old (word_digits word) }
    {
        self.put(&digits::word_digits(word))
    }

    /// Puts a global address at the end, in 10 lower-case hexadecimal digits.
    #[tactic(auto, using(std::proofs::lemmas::Grind::common_steps, crate::proofs::TextFacts::address_length))]
    pub fn put_address(&mut self, at: GlobalAddr)
        requires { length self.old.items + 10 ≤ self.old.room }
        ensures { self.new ≡ onto self.old (address_digits at) }
    {
        self.put(&digits::address_digits(at))
    }
}
