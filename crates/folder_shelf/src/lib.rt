//! A shelf in a folder of files.
//!
//! Each share is a file of its own: its bytes, and then their seal, 8 bytes of a hash. A share that is put is
//! written under `new/`, synced, renamed to its name, and the folder of that name is synced: so it is there whole or
//! not at all, whenever a crash comes, and there for good once the call answered `Ok`. What a crash left under `new/`
//! is taken away where the shelf is opened. A settings file says whose the folder is. No contract says what files give, so
//! the shelf claims nothing: it isn't honest. What its files have in them is proved: names, seals and settings are read
//! back, and nothing else is read.
#![tactic(auto)]

/// Whose a folder is.
mod settings;
/// Why a folder can't be opened.
mod fault;
/// Names of files.
mod names;
/// What stands in a file.
mod file_text;
/// Settings as a text.
mod sealed_settings;
/// The text of a settings file.
mod settings_file;
/// Calls of a file system.
mod files;
/// The files of shares.
mod share_files;
/// How a folder is opened.
mod opening;
/// What stands in a folder's folders.
mod listing;
/// The shelf.
mod folder_shelf;
/// What holds of names and texts of files, whatever they are of.
pub mod laws;

pub use fault::FolderFault;
pub use file_text::{seal_of, share_in, unsealed};
pub use files::{Disk, FileDisk, LONGEST_FILE, LONGEST_SHARE, Paths, read_file};
pub use folder_shelf::{FileShelf, FolderShelf};
pub use names::{name_of, read_name};
pub use opening::FolderLock;
pub use sealed_settings::{TEXT as SETTINGS_TEXT, read_settings_as, settings_text_as};
pub use settings::StoreSettings;
pub use settings_file::{check_settings, read_settings, settings_text};
pub use share_files::{Unread, path_of, paths_of, read_share};
