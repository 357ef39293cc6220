//! Numbers as they are written.
ghost use Rattle.std.specs.Prelude.{◌≡◌, ◌^◌, ◌<◌, ◌≤◌, IfSome};
ghost use Rattle.spur_asm.specs.Number.{digits_of, magnitude_of, numeral_value};
ghost use Rattle.spur_asm.specs.Section.{low_word};

/// The number that 1 to `most` digits of this radix write; letters of either case stand for 10 and above, and the
/// first digits may be zeros. `None` where the text is none of these.
fn digits(text: &[u8], radix: u32, most: usize) -> Option<u64>
    requires radix { (2 ≤ radix) × (radix ≤ 16) }
    requires most { most ≤ 10 }
    ensures value { result ≡ digits_of radix most text.now }
    ensures below { IfSome result (λ n. n < 16 ^ 10) }
{
    if text.is_empty() || text.len() > most {
        return None;
    }
    let mut n = 0u64;
    for c in text {
        let digit = char::from(*c).to_digit(radix)?;
        n = n * u64::from(radix) + u64::from(digit);
    }
    Some(n)
}

/// The number that `0x` and 1 to 8 hexadecimal digits write, or 1 to 10 decimal digits. `None` where the text is
/// neither.
fn magnitude(text: &[u8]) -> Option<u64>
    ensures value { result ≡ magnitude_of text.now }
    ensures below { IfSome result (λ n. n < 16 ^ 10) }
{
    match text {
        [b'0', b'x', rest @ ..] => digits(rest, 16, 8),
        _ => digits(text, 10, 10),
    }
}

/// The number that an optional minus and a magnitude write, as this project spells numbers. `None` where the text is
/// no such number.
pub fn number(text: &[u8]) -> Option<i64>
    ensures { result ≡ numeral_value text.now }
{
    match text {
        [b'-', rest @ ..] => {
            let n = magnitude(rest)?;
            Some(-(n as i64))
        }
        _ => {
            let n = magnitude(text)?;
            Some(n as i64)
        }
    }
}

/// A number modulo 2^32, which is what a word of 32 bits holds of it.
pub fn low_word(z: i64) -> u32
    ensures { result ≡ low_word z }
{
    z.rem_euclid(1 << 32) as u32
}
