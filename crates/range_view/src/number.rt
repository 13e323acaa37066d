//! Numbers of any length.
ghost use Rattle.std.specs.Prelude.{◌≡◌, ◌==◌, ◌+◌, ◌*◌, ◌&&◌, not, true, length, min, nat_lt, unwrap_or, if◌then◌else◌, Some, None};
ghost use Rattle.std.specs.Char.{is_ascii_digit};
ghost use Rattle.std.specs.List.{list_all};
ghost use Rattle.std.specs.Str.Parse.{digits_value};
ghost use Rattle.range_view.specs.Asked.{digits_number, past};

use octets::is_all_digits;
use std::marker::Model;

/// A number, where all that fit no u64 count as one that is greater than those that do.
#[derive(Drop)]
pub struct Number {
    fits: Option<u64>,
}

impl Model for Number {
    ghost use Rattle.std.specs.Prelude.{ℕ, ◌≤◌, unwrap_or};
    ghost use Rattle.range_view.specs.Asked.{past};

    ghost Value = { ℕ };

    ghost view = { λ n. unwrap_or n.fits past };

    ghost invariant = { λ n. unwrap_or n.fits past ≤ past };
}

impl Number {
    /// Whether it is 0.
    pub fn is_zero(&self) -> bool
        ensures { result ≡ (self.now == 0) }
    {
        match self.fits {
            Some(number) => number == 0,
            None => false,
        }
    }

    /// Whether it is below another.
    pub fn is_below(&self, other: &Number) -> bool
        ensures { result ≡ nat_lt self.now other.now }
    {
        match self.fits {
            Some(number) => match other.fits {
                Some(limit) => number < limit,
                None => true,
            },
            None => false,
        }
    }

    /// The number, where it is below a limit.
    pub fn below(&self, limit: u64) -> Option<u64>
        ensures { result ≡ (if nat_lt self.now limit then Some self.now else None) }
    {
        match self.fits {
            Some(number) if number < limit => Some(number),
            _ => None,
        }
    }
}

/// The number that one or more digits write, `None` for any other text.
pub fn number_of(text: &[u8]) -> Option<Number>
    ensures { result ≡ digits_number text.now }
{
    if !is_number(text) {
        return None;
    }
    Some(Number {
        fits: number_in_u64(text),
    })
}

/// Whether the text is one or more digits.
fn is_number(text: &[u8]) -> bool
    ensures { result ≡ (not (length text.now == 0) && list_all is_ascii_digit text.now) }
{
    !text.is_empty() && is_all_digits(text)
}

/// The number that digits write, unless it is past u64.
fn number_in_u64(digits: &[u8]) -> Option<u64>
    requires { list_all is_ascii_digit digits.now ≡ true }
    ensures { unwrap_or result past ≡ min (digits_value 10 digits.now) past }
{
    let mut number: u64 = 0;
    for digit in digits {
        let Some(more) = with_digit(number, *digit - b'0') else {
            return None;
        };
        number = more;
    }
    Some(number)
}

/// The number with one more digit, unless it is past u64.
fn with_digit(number: u64, digit: u8) -> Option<u64>
    ensures { let more = number * 10 + digit in
        result ≡ (if nat_lt more past then Some more else None) }
{
    number.checked_mul(10)?.checked_add(u64::from(digit))
}
