//! What `woz` does: it puts and gets files and folders, lists, checks and repairs what caps are of, over a gateway that it
//! trusts in nothing.
#![tactic(auto)]

/// Why a task isn't done.
mod fault;
/// The gateway: its URL, and connections to it.
mod gateway;
/// For how long it may be slow.
mod patience;
/// How many connections to it there are at once.
mod jobs;
/// Caps and paths as they are given.
mod given;
/// What a put tells the next put of the same folder, as text.
mod state;
/// Files that a put skips because they were stored before.
mod journal;
/// What is told on standard error: lines in which no cap is.
mod messages;
/// What is printed of what was put: its cap.
mod printed;
/// What is told of files that pass.
mod progress;
/// Folders and files on a disk.
mod disk;
/// Writing what caps are of.
mod getting;
/// Storing files and folders.
mod putting;
/// Listing directories.
mod listing;
/// Checking and repairing.
mod checking;
/// Reading the words, and doing what they ask for.
mod tasks;

/// Laws about what is told.
pub mod laws;

pub use fault::TaskFault;
pub use messages::tell_fault;
pub use tasks::{Terminals, run};
