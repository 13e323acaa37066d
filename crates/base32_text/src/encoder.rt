//! From bytes to the text that spells them.
ghost use Rattle.std.specs.Prelude.{◌≡◌, ℕ, ◌+◌, ◌<◌, ◌≤◌, List, [], ◌∷◌, ◌++◌, length, IfOk, OnOk, OnErr, string_bytes};
ghost use Rattle.base32_text.specs.Bits.{bits_of};
ghost use Rattle.base32_text.specs.Alphabet.{letter_of};
ghost use Rattle.base32_text.specs.Base32.{Spells, HasMore, spelling};

use crate::alphabet::letter;
use crate::waiting::Waiting;
use std::alloc::{AllocError, Global};

/// The one text that spells the bytes: 8 letters for 5 bytes, and none for none.
pub fn encode(alloc: Global, bytes: &[u8]) -> Result<String, AllocError>
    ensures { IfOk result (λ text. Spells (string_bytes text) bytes.now) }
{
    let mut text = String::new(alloc);
    push_encoded(&mut text, bytes)?;
    Ok(text)
}

/// Writes the text that spells the bytes after a text, which stays as it was where memory is refused.
pub fn push_encoded(text: &mut String, bytes: &[u8]) -> Result<(), AllocError>
    ensures ok { OnOk result (string_bytes text.new ≡ string_bytes text.old ++ spelling bytes.now) }
    ensures err { OnErr result (string_bytes text.new ≡ string_bytes text.old) }
{
    let before = text.len();
    let outcome = push_letters(text, bytes);
    if outcome.is_err() {
        text.truncate(before);
    }
    outcome
}

/// Writes the same, or, where memory is refused, a beginning of it.
fn push_letters(text: &mut String, bytes: &[u8]) -> Result<(), AllocError>
    ensures ok { OnOk result (string_bytes text.new ≡ string_bytes text.old ++ spelling bytes.now) }
    ensures err { OnErr result (HasMore (string_bytes text.old) (string_bytes text.new)) }
{
    text.reserve(bytes.len() / 5 * 8 + 8)?;
    let mut waiting = Waiting::new();
    for byte in bytes {
        waiting.put(8, u32::from(*byte));
        push_group(text, &mut waiting)?;
        if waiting.len() >= 5 {
            push_group(text, &mut waiting)?;
        }
    }
    let left = waiting.len();
    if left > 0 {
        waiting.put(5 - left, 0);
        push_group(text, &mut waiting)?;
    }
    Ok(())
}

/// Writes the letter of the first five bits that wait.
fn push_group(text: &mut String, waiting: &mut Waiting) -> Result<(), AllocError>
    requires { 5 ≤ length waiting.old }
    ensures ok { OnOk result ((value : ℕ) × (value < 32)
        × (waiting.old ≡ bits_of 5 value ++ waiting.new)
        × (string_bytes text.new ≡ string_bytes text.old ++ letter_of value ∷ [])) }
    ensures err { OnErr result (string_bytes text.new ≡ string_bytes text.old) }
{
    let value = waiting.take(5);
    text.push(char::from(letter(value)))
}
