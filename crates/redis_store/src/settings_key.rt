//! The text that says whose a server is.
ghost use Rattle.std.specs.Prelude.{◌≡◌, ◌↔◌, IsTrue, IfOk, IfSome, Some, MatchResult};
ghost use Rattle.folder_shelf.specs.SettingsText.{AreSettings};
ghost use Rattle.folder_shelf.specs.declared.settings.StoreSettings.{StoreSettings};
ghost use Rattle.redis_store.specs.GridText.{grid_text};
ghost use Rattle.redis_store.specs.Strange.{IsStrange, HasNumbersOf};

use crate::ServerFault;
use folder_shelf::{StoreSettings, read_settings_as, settings_text_as};
use std::alloc::{AllocError, Global};

/// The format's name: its last character is its version.
const FORMAT: &[u8; 16] = b"wozhinnam redis1";

/// The text that says that a server is of these settings, 64 bytes. `Err` only where memory is refused.
#[tactic(auto, unfolding(crate::specs::GridText::grid_text))]
pub fn grid_text(alloc: Global, settings: &StoreSettings) -> Result<Vec<u8>, AllocError>
    ensures { IfOk result (λ text. text.items ≡ grid_text settings.now) }
{
    settings_text_as(alloc, FORMAT, settings)
}

/// The settings whose text this is, and `None` where it is of none: what [`grid_text`] gives is read back, and nothing
/// else is read. `Err` only where memory is refused.
#[tactic(auto, unfolding(crate::specs::GridText::grid_text))]
pub fn read_grid(alloc: Global, text: &[u8]) -> Result<Option<StoreSettings>, AllocError>
    ensures written { IfOk result (λ found. IfSome found (λ s. text.now ≡ grid_text s)) }
    ensures reads { (s : StoreSettings) → AreSettings s → text.now ≡ grid_text s
        → IfOk result (λ found. found ≡ Some s) }
{
    read_settings_as(alloc, FORMAT, text)
}

/// Whether the text that stands on a server is that of these settings. Else what differs: `SettingsRotten` where it
/// is of none, `OtherGrid` where the numbers of servers or shares are others, `OtherSecret` where these are the same
/// and the secret isn't, `OtherPlace` where the place alone differs. `NoMemory` where memory is refused.
pub fn check_grid(alloc: Global, text: &[u8], settings: &StoreSettings) -> Result<(), ServerFault>
    ensures { MatchResult result (λ _. text.now ≡ grid_text settings.now)
        (λ fault. IsStrange fault text.now settings.now) }
{
    let Some(found) = read_grid(alloc, text)? else {
        return Err(ServerFault::SettingsRotten);
    };
    if found == *settings {
        return Ok(());
    }
    let moved = StoreSettings {
        place: settings.place,
        ..found
    };
    if moved == *settings {
        return Err(ServerFault::OtherPlace(found.place));
    }
    if has_numbers_of(&found, settings) {
        return Err(ServerFault::OtherSecret);
    }
    Err(ServerFault::OtherGrid)
}

/// Whether two grids have as many servers and shares.
fn has_numbers_of(found: &StoreSettings, settings: &StoreSettings) -> bool
    ensures { IsTrue result ↔ HasNumbersOf found.now settings.now }
{
    found.servers == settings.servers
        && found.needed == settings.needed
        && found.made == settings.made
}
