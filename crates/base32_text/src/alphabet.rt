//! The letters and what they stand for.
ghost use Rattle.std.specs.Prelude.{◌≡◌, ◌<◌, MatchOption, true, false};
ghost use Rattle.base32_text.specs.Alphabet.{is_letter, value_of, letter_of};

/// The letter that stands for a value below 32.
pub fn letter(value: u32) -> u8
    requires { value < 32 }
    ensures { result ≡ letter_of value }
{
    let value = value as u8;
    if value < 26 {
        b'a' + value
    } else {
        b'2' + (value - 26)
    }
}

/// What a letter stands for, None at any other byte.
pub fn value(byte: u8) -> Option<u32>
    ensures { MatchOption result (is_letter byte ≡ false)
        (λ value. (is_letter byte ≡ true) × (value ≡ value_of byte) × (value < 32)) }
{
    match byte {
        b'a'..=b'z' => Some(u32::from(byte - b'a')),
        b'2'..=b'7' => Some(u32::from(byte - b'2') + 26),
        _ => None,
    }
}
