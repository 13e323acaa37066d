//! What holds of the replies.
ghost use Rattle.std.specs.Prelude.{◌≡◌, ◌<◌, ◌^◌, ℕ, true, List, [], ◌∷◌, ◌++◌, length, codes, Some};
ghost use Rattle.std.specs.List.{list_all};
ghost use Rattle.json.specs.Print.{escape};
ghost use Rattle.serde_json.specs.Read.{read};
ghost use Rattle.serde_json.specs.Written.{compact_text};
ghost use Rattle.caps.specs.declared.cap.Cap.{Cap};
ghost use Rattle.dir_codec.specs.Entries.{IsEntry, IsDirectory};
ghost use Rattle.dir_codec.specs.declared.entry.Entry.{Entry};
ghost use Rattle.json_view.specs.Strings.{quoted, needs_no_escape};
ghost use Rattle.json_view.specs.Nodes.{file_text, dir_text};
ghost use Rattle.json_view.specs.Values.{file_value, file_size, metadata_value, dir_value};

use caps::laws::reading_is_decided;
use json_spelling::laws::whole_values_are_read_back;

/// What stands in a JSON string for a quote, a backslash and control characters. Every other byte stands for itself. For
/// two texts, one after the other, stands what does for the first, and then what does for the second.
pub fn strings_have_their_escapes()
    ensures quote { quoted (codes "a\"b\\c") ≡ codes "\"a\\\"b\\\\c\"" }
    ensures control { quoted (0 ∷ 1 ∷ 8 ∷ 9 ∷ 10 ∷ 12 ∷ 13 ∷ 31 ∷ [])
        ≡ codes "\"\\u0000\\u0001\\b\\t\\n\\f\\r\\u001f\"" }
    ensures plain { (text : List ℕ) → list_all needs_no_escape text ≡ true
        → quoted text ≡ 34 ∷ (text ++ 34 ∷ []) }
    ensures joined { (first second : List ℕ)
        → quoted (first ++ second) ≡ 34 ∷ (escape first ++ (escape second ++ 34 ∷ [])) }
{}

/// The JSON of a file is `serde_json`'s compact text of a value with four members at most, and its reader reads it as
/// that value.
pub fn files_are_read_back()
    ensures written { (cap : Cap) → file_text cap ≡ compact_text (file_value cap) }
    ensures read { (cap : Cap) → file_size cap < 2 ^ 64
        → read (file_text cap) ≡ Some (file_value cap) }
{
    whole_values_are_read_back();
}

/// The JSON of a directory is `serde_json`'s compact text of a value with each child under its name, whose metadata are
/// the value that the directory's text of them is read as. Its reader reads it as that value where it is shorter than
/// 2^64 bytes, as each text in memory is.
pub fn directories_are_read_back()
    ensures metadata { (entry : Entry) → IsEntry entry
        → read entry.metadata ≡ Some (metadata_value entry) }
    ensures written { (cap : Cap) (entries : List Entry) → IsDirectory entries
        → dir_text cap entries ≡ compact_text (dir_value cap entries) }
    ensures read { (cap : Cap) (entries : List Entry) → IsDirectory entries → file_size cap < 2 ^ 64
        → length (dir_text cap entries) < 2 ^ 64
        → read (dir_text cap entries) ≡ Some (dir_value cap entries) }
{
    whole_values_are_read_back();
    reading_is_decided();
}
