//! Directories.
ghost use Rattle.std.specs.Prelude.{◌≡◌, None, MatchOption, option_map};
ghost use Rattle.std.specs.Ordering.{nat_cmp};
ghost use Rattle.std.specs.Cmp.Lexicographic.{slice_cmp};
ghost use Rattle.dir_codec.specs.Entries.{IsDirectory};
ghost use Rattle.dir_codec.specs.Find.{child_named, IsFoundAt};

use crate::entry::Entry;
use std::cmp::Ordering;
use std::marker::Model;

/// A directory: entries in strictly rising order of the bytes of their names. Each name is UTF-8, not empty and in NFC,
/// each cap reads a file or a directory that can't change, and all metadata are within their limits.
#[derive(Drop)]
pub struct Directory {
    entries: Vec<Entry>,
}

impl Model for Directory {
    ghost use Rattle.std.specs.Prelude.{List};
    ghost use Rattle.dir_codec.specs.Entries.{IsDirectory};
    ghost use Rattle.dir_codec.specs.declared.entry.Entry.{Entry};

    ghost Value = { List Entry };

    ghost view = { λ d. d.entries.items };

    ghost invariant = { λ d. IsDirectory d.entries.items };
}

impl Directory {
    /// The directory of these entries.
    pub fn from_entries(entries: Vec<Entry>) -> Self
        requires { IsDirectory entries.items }
        ensures { result ≡ entries.items }
    {
        Directory { entries }
    }

    /// The entries, in order of their names.
    pub fn entries(&self) -> &[Entry]
        ensures same { result.now ≡ self.now }
        ensures kept { IsDirectory self.now }
    {
        self.entries.as_slice()
    }

    /// The entry of this name, None where there is none. It is looked for by halves.
    pub fn find(&self, name: &str) -> Option<&Entry>
        ensures { option_map (λ entry. entry.now) result ≡ child_named name.now self.now }
    {
        let place = place_of(&self.entries, name)?;
        Some(&self.entries[place])
    }

    /// The same entry, moved out. The others are dropped.
    pub fn into_found(self, name: &str) -> Option<Entry>
        ensures { result ≡ child_named name.now self }
    {
        let Directory { mut entries } = self;
        let place = place_of(&entries, name)?;
        Some(entries.swap_remove(place))
    }
}

/// The place of the entry of this name.
fn place_of(entries: &[Entry], name: &str) -> Option<usize>
    requires { IsDirectory entries.now }
    ensures { MatchOption result (child_named name.now entries.now ≡ None)
        (λ place. IsFoundAt name.now entries.now place) }
{
    let compared = |entry: &Entry| -> Ordering
        ensures { result ≡ slice_cmp nat_cmp entry.now.name name.entry.now }
    { entry.name.as_str().cmp(name) };
    entries.binary_search_by(compared).ok()
}
