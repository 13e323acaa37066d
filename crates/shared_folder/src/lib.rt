//! A store in a folder of files that many processes may use at the same time.
//!
//! It has no index: each call asks the file system. A share is written under a name of this process alone, and gets its
//! own name once it is whole, so what one process was answered every other finds at once. The folder is one of a
//! `folder_shelf`: its files, names, seals and settings are the same.
#![tactic(auto)]

/// Why the folder gave no answer.
mod fault;
/// Names of unfinished files.
mod tag;
/// The store.
mod shared_folder;
/// What holds of the names of unfinished files.
pub mod laws;

pub use fault::SharedFault;
pub use shared_folder::{FileFolder, SharedFolder, SharedOpening};
