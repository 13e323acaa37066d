//! Settings as a text.
ghost use Rattle.std.specs.Prelude.{◌≡◌, ℕ, List, length, IfOk, IfSome, Some};
ghost use Rattle.folder_shelf.specs.SettingsText.{settings_text_as, AreSettings};
ghost use Rattle.folder_shelf.specs.declared.settings.StoreSettings.{StoreSettings};

use crate::StoreSettings;
use crate::file_text::seal_of;
use std::alloc::{AllocError, Global};

/// How many bytes the text has.
pub const TEXT: usize = 64;

/// Settings as a text of 64 bytes, under the name of its format. `Err` only where memory is refused.
pub fn settings_text_as(
    alloc: Global,
    format: &[u8; 16],
    settings: &StoreSettings,
) -> Result<Vec<u8>, AllocError>
    ensures { IfOk result (λ text. text.items ≡ settings_text_as format.now settings.now) }
{
    let mut text = Vec::with_capacity(alloc, TEXT)?;
    text.extend_from_slice(format)?;
    text.extend_from_slice(&settings.place.to_be_bytes())?;
    text.extend_from_slice(&settings.servers.to_be_bytes())?;
    text.extend_from_slice(&settings.needed.to_be_bytes())?;
    text.extend_from_slice(&settings.made.to_be_bytes())?;
    text.extend_from_slice(&settings.secret)?;
    let seal = seal_of(&text);
    text.extend_from_slice(&seal)?;
    Ok(text)
}

/// The settings whose text under that name this is, and `None` where it is of none: what [`settings_text_as`] gives is
/// read back, and nothing else is read. `Err` only where memory is refused.
pub fn read_settings_as(
    alloc: Global,
    format: &[u8; 16],
    text: &[u8],
) -> Result<Option<StoreSettings>, AllocError>
    ensures written { IfOk result (λ found. IfSome found (λ s.
        text.now ≡ settings_text_as format.now s)) }
    ensures reads { (s : StoreSettings) → AreSettings s → text.now ≡ settings_text_as format.now s
        → IfOk result (λ found. found ≡ Some s) }
{
    if text.len() != TEXT {
        return Ok(None);
    }
    let found = fields_of(text);
    let written = settings_text_as(alloc, format, &found)?;
    if written.as_slice() == text {
        Ok(Some(found))
    } else {
        Ok(None)
    }
}

/// The settings at their places in a text, which may be of none.
fn fields_of(text: &[u8]) -> StoreSettings
    requires { length text.now ≡ 64 }
    ensures { (format : List ℕ) (s : StoreSettings) → length format ≡ 16 → AreSettings s
        → text.now ≡ settings_text_as format s → result ≡ s }
{
    let mut secret = [0; 32];
    secret.copy_from_slice(&text[24..56]);
    StoreSettings {
        place: u16::from_be_bytes([text[16], text[17]]),
        servers: u16::from_be_bytes([text[18], text[19]]),
        needed: u16::from_be_bytes([text[20], text[21]]),
        made: u16::from_be_bytes([text[22], text[23]]),
        secret,
    }
}
