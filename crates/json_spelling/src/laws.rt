//! What holds of spellings.
ghost use Rattle.std.specs.Prelude.{◌≡◌, ◌≤◌, ℕ, false, List, Some};
ghost use Rattle.serde_json.specs.Data.{Data, depth};
ghost use Rattle.serde_json.specs.Read.{read};
ghost use Rattle.serde_json.specs.Written.{has_float, compact_text};
ghost use Rattle.json_spelling.specs.Sound.{IsSound};
ghost use Rattle.json_spelling.specs.Metadata.{metadata_of, spelling_of};

/// The metadata that an entry keeps are those that its text was read to: a spelling that spells itself stands for the
/// same value as each text that it is the spelling of.
pub fn spellings_stand_for_metadata()
    ensures { (text kept : List ℕ) → spelling_of text ≡ Some kept → spelling_of kept ≡ Some kept
        → metadata_of kept ≡ metadata_of text }
{}

/// `serde_json`'s compact text of a value whose numbers are whole ones of 64 bits is read as that value, up to the levels that its
/// reader goes down.
pub fn whole_values_are_read_back()
    ensures { (value : Data) → IsSound value → has_float value ≡ false → depth value ≤ 127
        → read (compact_text value) ≡ Some value }
{}
