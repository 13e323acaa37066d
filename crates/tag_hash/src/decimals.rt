//! Decimal texts that take no memory.
ghost use Rattle.std.specs.Prelude.{◌≡◌, ℕ, ◌<◌, ◌≤◌, List, drop};
ghost use Rattle.tag_hash.specs.Decimal.{decimal_text};

use std::marker::Model;

/// The digits of the greatest number of 64 bits.
const MOST_DIGITS: usize = 20;

/// The decimal text of a number: its digits in ASCII, without leading zeros.
#[derive(Drop)]
pub struct Decimal {
    digits: [u8; MOST_DIGITS],
    start: usize,
}

impl Model for Decimal {
    ghost Value = { List ℕ };

    ghost view = { λ text. drop text.start text.digits };

    ghost invariant = { λ text. text.start ≤ 20 };
}

impl Decimal {
    /// The decimal text of `number`, of at most 20 bytes.
    pub fn new(number: u64) -> Self
        ensures { result ≡ decimal_text number }
    {
        let mut digits = [0u8; MOST_DIGITS];
        let mut start = MOST_DIGITS - 1;
        let mut rest = number;
        while rest >= 10 {
            digits[start] = b'0' + (rest % 10) as u8;
            start -= 1;
            rest /= 10;
        }
        digits[start] = b'0' + rest as u8;
        Decimal { digits, start }
    }

    /// The bytes of the text.
    pub fn as_bytes(&self) -> &[u8]
        ensures { result.now ≡ self.now }
    {
        &self.digits[self.start..]
    }
}
