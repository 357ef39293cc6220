//! A register's number.
ghost use Rattle.std.specs.Prelude.{◌≡◌, ◌<◌, ◌%◌, ◌↔◌, IsSome, IfSome};

use std::marker::Model;

/// One of a board's 16 registers. Contracts see its number, from 0 to 15.
#[derive(Clone, Copy, Debug, PartialEq, Eq)]
pub struct Reg {
    number: u8,
}

impl Model for Reg {
    ghost use Rattle.std.specs.Prelude.{ℕ, ◌<◌};

    ghost Value = { ℕ };

    ghost view = { λ r. r.number };

    ghost invariant = { λ r. r.number < 16 };

    ghost inverse = { λ n. record { number = n } };
}

impl Reg {
    /// Register 0, which is always 0: a write to it is dropped.
    pub const ZERO: Reg = Reg { number: 0 };

    /// The register with this number; `None` exactly at 16 and above.
    pub fn of(n: u8) -> Option<Reg>
        ensures found { IsSome result ↔ (n < 16) }
        ensures value { IfSome result (λ r. r ≡ n) }
    {
        if n < 16 {
            Some(Reg { number: n })
        } else {
            None
        }
    }

    /// The register's number, below 16.
    pub fn number(self) -> u8
        ensures value { result ≡ self }
        ensures below { result < 16 }
    {
        self.number
    }

    /// The register whose number stands in the low four bits of a word.
    pub(crate) fn in_low_bits(word: u32) -> Reg
        ensures { result ≡ word % 16 }
    {
        Reg {
            number: (word % 16) as u8,
        }
    }
}

#[cfg(test)]
mod tests {
    use super::*;
    use std::test::Fail;

    #[test]
    fn there_are_16_registers(rt: HostRuntime) -> Result<(), Fail> {
        assert_eq!(rt; Reg::of(0), Some(Reg::ZERO));
        let last = Reg::of(15).ok_or("no register")?;
        assert_eq!(rt; last.number(), 15);
        for n in [16, 17, 255] {
            assert_eq!(rt; Reg::of(n), None);
        }
        Ok(())
    }
}
