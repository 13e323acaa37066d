//! Numbers in decimal.
ghost use Rattle.std.specs.Prelude.{◌≡◌, ◌≤◌, IfSome};
ghost use Rattle.std.specs.Char.{is_ascii_digit};
ghost use Rattle.std.specs.List.{list_all};
ghost use Rattle.octets.specs.Decimal.{is_decimal, number_to};

/// The number that a text writes in decimal without leading zeros, or `None` where it writes none that is at most
/// `most`.
pub fn read_number(text: &[u8], most: u64) -> Option<u64>
    ensures number { result ≡ number_to most text.now }
    ensures bound { IfSome result (λ number. number ≤ most) }
{
    if !is_decimal_text(text) {
        return None;
    }
    let Ok(digits) = str::from_utf8(text) else {
        return None;
    };
    match digits.parse::<u64>() {
        Ok(number) if number <= most => Some(number),
        _ => None,
    }
}

/// Whether a text is all digits, the first of which is no zero unless it stands alone.
fn is_decimal_text(text: &[u8]) -> bool
    ensures { result ≡ is_decimal text.now }
{
    is_all_digits(text) && !text.is_empty() && (text.len() == 1 || text[0] != b'0')
}

/// Whether each byte is a decimal digit in ASCII, as of no bytes each is.
pub fn is_all_digits(text: &[u8]) -> bool
    ensures { result ≡ list_all is_ascii_digit text.now }
{
    text.iter().all(|byte| byte.is_ascii_digit())
}
