//! The JSON replies of Tahoe-LAFS's webapi document for files and directories, byte for byte: compact, with keys in the
//! order of their bytes, and with texts as `serde_json` writes them.
#![tactic(auto)]

/// Nodes: files, and directories with their children.
mod node;
/// The spellings of long metadata that a count keeps for the listing.
mod kept_spelling;
/// Counting the JSON of a directory's children, some entries at a time.
mod counting;
/// The JSON of directories that is made as it is taken.
mod listing;

/// Pieces of text, put after one another.
pub mod text;
/// What holds of the replies.
pub mod laws;

pub use counting::{Count, Counted, Counting};
pub use listing::Listing;
pub use node::{dir_json, file_json};
