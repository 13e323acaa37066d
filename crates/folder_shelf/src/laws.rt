//! What holds of names and texts of files, whatever they are of.
ghost use Rattle.std.specs.Prelude.{◌≡◌, ℕ, List, length};
ghost use Rattle.std.specs.List.{concat};
ghost use Rattle.folder_shelf.specs.Names.{file_name, IsKeyInRange};
ghost use Rattle.folder_shelf.specs.Sealed.{four_parts, sealed};
ghost use Rattle.folder_shelf.specs.SettingsText.{settings_text, AreSettings};
ghost use Rattle.folder_shelf.specs.declared.settings.StoreSettings.{StoreSettings};

/// Two shares whose files have one name are one share.
pub fn names_are_told_apart()
    ensures { (index other : List ℕ) (number another : ℕ) → IsKeyInRange index number → IsKeyInRange other another
        → file_name index number ≡ file_name other another → (index ≡ other) × (number ≡ another) }
{}

/// Bytes with one text are the same bytes, and settings with one text the same settings.
pub fn texts_are_told_apart()
    ensures shares { (bytes other : List ℕ) → sealed bytes ≡ sealed other → bytes ≡ other }
    ensures settings { (s t : StoreSettings) → AreSettings s → AreSettings t
        → settings_text s ≡ settings_text t → s ≡ t }
{}

/// The parts whose hashes make a seal are four, and put together they are the bytes: none is left out of it.
pub fn every_byte_is_sealed()
    ensures four { (bytes : List ℕ) → length (four_parts bytes) ≡ 4 }
    ensures all { (bytes : List ℕ) → concat (four_parts bytes) ≡ bytes }
{}
