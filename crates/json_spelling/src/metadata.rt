//! Metadata, and their one spelling.
ghost use Rattle.std.specs.Prelude.{◌≡◌, ℕ, List, Some, IfOk};
ghost use Rattle.json_spelling.specs.Metadata.{spelling_of};

use crate::spelling::{Keys, spell_text};
use octets::Text;
use std::alloc::{AllocError, Global};

/// The one spelling of the metadata that bytes are, made at once, with a guess of how keys come in them. None where they
/// are none.
///
/// # Errors
/// `AllocError` where memory is refused, and never for what the bytes say.
pub fn spell_bytes(alloc: Global, bytes: &[u8], guess: Keys) -> Result<Option<Text>, AllocError>
    ensures { IfOk result (λ spelled. spelled ≡ spelling_of bytes.now) }
{
    if bytes == b"{}".as_slice() {
        return Ok(Some(Text::from_string(String::from_str(alloc, "{}")?)));
    }
    let Ok(text) = str::from_utf8(bytes) else {
        return Ok(None);
    };
    let Some(spelling) = spell_text(alloc, text, guess)? else {
        return Ok(None);
    };
    Ok(Some(Text::from_string(spelling)))
}

/// A spelling of metadata is the spelling of itself.
pub fn spelling_is_kept(spelled: &Text)
    ensures { (bytes : List ℕ) → spelling_of bytes ≡ Some spelled.now
        → spelling_of spelled.now ≡ Some spelled.now }
{
    // It is UTF-8, whatever the bytes are.
    let _text = spelled.as_str();
}
