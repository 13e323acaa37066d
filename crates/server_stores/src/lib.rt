//! The stores of a server: in memory, in folders, on disks and on Redis servers.
#![tactic(auto)]

/// Why the program ended before it was stopped.
mod fault;
/// How many files and sockets the program may have open.
pub mod handles;
/// A shelf that this process alone uses.
pub mod locked_shelf;
/// A store of any of the kinds that a server may have.
pub mod any_store;
/// In what the settings of a folder are others than those that are wanted.
pub mod difference;
/// Folders of servers.
pub mod folders;
/// What is seen of the folders of a grid before one is opened.
pub mod folder_look;
/// Files of a few bytes.
pub mod small_files;
/// Stores on Redis servers.
pub mod redis_stores;
/// Folders that other processes serve at the same time.
mod shared_folders;
/// The stores of the gateway.
mod stores;
/// A store whose shares are out of reach.
mod missing_store;

pub use fault::ProgramFault;
pub use missing_store::unreachable_store;
pub use stores::{ServerStore, open_stores};
