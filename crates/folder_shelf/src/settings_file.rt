//! The text of a settings file.
ghost use Rattle.std.specs.Prelude.{◌≡◌, IfOk, IfSome, Some, MatchResult};
ghost use Rattle.folder_shelf.specs.SettingsText.{settings_text, AreSettings};
ghost use Rattle.folder_shelf.specs.Refusals.{RefusesSettings};
ghost use Rattle.folder_shelf.specs.declared.settings.StoreSettings.{StoreSettings};

use crate::sealed_settings::{read_settings_as, settings_text_as};
use crate::{FolderFault, StoreSettings};
use std::alloc::{AllocError, Global};

/// The format's name: its last character is its version.
const FORMAT: &[u8; 16] = b"wozhinnam shelf2";

/// The text of a settings file, 64 bytes. `Err` only where memory is refused.
pub fn settings_text(alloc: Global, settings: &StoreSettings) -> Result<Vec<u8>, AllocError>
    ensures { IfOk result (λ text. text.items ≡ settings_text settings.now) }
{
    settings_text_as(alloc, FORMAT, settings)
}

/// The settings whose text this is, and `None` where it is of none: what [`settings_text`] gives is read back, and
/// nothing else is read. `Err` only where memory is refused.
pub fn read_settings(alloc: Global, text: &[u8]) -> Result<Option<StoreSettings>, AllocError>
    ensures written { IfOk result (λ found. IfSome found (λ s. text.now ≡ settings_text s)) }
    ensures reads { (s : StoreSettings) → AreSettings s → text.now ≡ settings_text s
        → IfOk result (λ found. found ≡ Some s) }
{
    read_settings_as(alloc, FORMAT, text)
}

/// Whether a settings file's text is that of these settings. `SettingsRotten` where it is of none, `OtherPlace` where
/// it is of another server of the grid, `OtherGrid` where more differs than the place, `NoMemory` where memory is
/// refused.
pub fn check_settings(
    alloc: Global,
    text: &[u8],
    settings: &StoreSettings,
) -> Result<(), FolderFault>
    ensures { MatchResult result (λ _. text.now ≡ settings_text settings.now)
        (λ fault. RefusesSettings fault text.now settings.now) }
{
    let Some(found) = read_settings(alloc, text)? else {
        return Err(FolderFault::SettingsRotten);
    };
    if found == *settings {
        return Ok(());
    }
    let moved = StoreSettings {
        place: settings.place,
        ..found
    };
    if moved == *settings {
        Err(FolderFault::OtherPlace(found.place))
    } else {
        Err(FolderFault::OtherGrid)
    }
}
