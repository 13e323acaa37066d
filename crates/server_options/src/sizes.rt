//! Sizes in bytes.
ghost use Rattle.std.specs.Prelude.{◌≡◌};
ghost use Rattle.server_options.specs.Size.{bytes_of_unit, size_in, written_size};

use octets::read_number;

/// How many bytes a text says: digits without leading zeros, and behind them `K`, `M`, `G`, `T` or nothing. A `K` is
/// 1,024 bytes, and each of the others 1,024 times the one before it. `None` where it says none, or 2^64 or more.
pub fn read_size(text: &str) -> Option<u64>
    ensures { result ≡ written_size text.now }
{
    let text = text.as_bytes();
    let Some((letter, digits)) = text.split_last() else {
        return None;
    };
    match bytes_of_unit(*letter) {
        Some(unit) => read_in(digits, unit),
        None => read_in(text, 1),
    }
}

/// How many bytes a unit is, by its letter.
fn bytes_of_unit(letter: u8) -> Option<u64>
    ensures { result ≡ bytes_of_unit letter }
{
    match letter {
        b'K' => Some(1 << 10),
        b'M' => Some(1 << 20),
        b'G' => Some(1 << 30),
        b'T' => Some(1 << 40),
        _ => None,
    }
}

/// How many bytes so many units of so many bytes are.
fn read_in(digits: &[u8], unit: u64) -> Option<u64>
    ensures { result ≡ size_in unit digits.now }
{
    match read_number(digits, u64::MAX) {
        Some(number) => number.checked_mul(unit),
        None => None,
    }
}
