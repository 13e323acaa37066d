//! Directories of what can't change (Tahoe-LAFS's dirnodes document): their texts.
#![tactic(auto)]

/// Directories.
mod directory;
/// Entries of a directory.
mod entry;
/// Why there is no directory.
mod fault;
/// From a text to the directory whose text it is.
mod decoder;
/// The entries of a directory text, one at a time.
mod entries;
/// Looking a name up in a directory text, some entries at a time.
mod finder;
/// From a directory to its text.
mod encoder;
/// The four texts of an entry.
mod parts;

/// What holds of directory texts.
pub mod laws;

pub use decoder::{decode, read_cap};
pub use directory::Directory;
pub use encoder::{encode, push_entry};
pub use entries::{first_metadata, read_first, read_spelled};
pub use entry::Entry;
pub use fault::{DirFault, is_memory};
pub use finder::{Finder, Finding, Sought, find_child};
