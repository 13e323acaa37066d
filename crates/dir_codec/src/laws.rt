//! What holds of directory texts.
ghost use Rattle.std.specs.Prelude.{◌≡◌, ◌↔◌, ◌<◌, ◌^◌, ℕ, List, length, Ok, Err, Some, None};
ghost use Rattle.dir_codec.specs.Entries.{IsDirectory};
ghost use Rattle.dir_codec.specs.DirectoryText.{IsDirectoryText, directory_text};
ghost use Rattle.dir_codec.specs.Reading.{reading_after, directory_reading, children};
ghost use Rattle.dir_codec.specs.Sought.{cap_of_child, sought_of, sought_in};
ghost use Rattle.dir_codec.specs.Faults.{RefusesDirectory};
ghost use Rattle.dir_codec.specs.declared.entry.Entry.{Entry};
ghost use Rattle.dir_codec.specs.declared.fault.DirFault.{DirFault};
ghost use Rattle.dir_codec.specs.declared.finder.Sought.TheVariants.{NoDirectory};

use caps::laws::reading_is_decided;
use tag_hash::laws::netstrings_are_read_back;

/// A text is read as a list of entries exactly when they belong together. Those of a text are its children.
pub fn texts_and_entries_belong_together()
    ensures read { (entries : List Entry) (text : List ℕ) → length text < 2 ^ 64
        → IsDirectoryText entries text → directory_reading text ≡ Ok entries }
    ensures only { (entries : List Entry) (text : List ℕ) → directory_reading text ≡ Ok entries
        → IsDirectoryText entries text }
    ensures children { (entries : List Entry) (text : List ℕ)
        → ((children text ≡ Some entries) ↔ (directory_reading text ≡ Ok entries)) }
{
    netstrings_are_read_back();
    reading_is_decided();
}

/// A text is refused for the first fault of the first entry that has one.
pub fn texts_are_refused_for_the_first_fault()
    ensures { (fault : DirFault) (text : List ℕ) → length text < 2 ^ 64
        → directory_reading text ≡ Err fault → RefusesDirectory fault text }
{
    netstrings_are_read_back();
    reading_is_decided();
}

/// What stands behind an entry is a directory's text by itself, with the same entries.
pub fn ends_of_texts_are_texts()
    ensures { (last text : List ℕ) (entries : List Entry) → reading_after last text ≡ Ok entries
        → directory_reading text ≡ Ok entries }
{
    netstrings_are_read_back();
}

/// What is sought in a text is decided by its children: the first of that name, and no directory where there are none.
pub fn children_decide_what_is_sought()
    ensures child { (name text : List ℕ) (entries : List Entry) → children text ≡ Some entries
        → sought_in name text ≡ sought_of (cap_of_child name entries) }
    ensures none { (name text : List ℕ) → children text ≡ None → sought_in name text ≡ NoDirectory }
{}

/// The text that is written for a directory belongs to it, so it is read back.
pub fn written_directories_are_read_back()
    ensures text { (entries : List Entry) → IsDirectory entries
        → IsDirectoryText entries (directory_text entries) }
    ensures read { (entries : List Entry) → IsDirectory entries
        → length (directory_text entries) < 2 ^ 64 → directory_reading (directory_text entries) ≡ Ok entries }
{
    netstrings_are_read_back();
    reading_is_decided();
}
