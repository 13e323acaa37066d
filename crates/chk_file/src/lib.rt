//! Files that are stored in a grid: what an upload leaves there, what a read cap finds, and how healthy a file is.
//!
//! An upload of more than 55 bytes is encrypted under a key that its bytes and a secret give, cut into `n` shares of
//! which any `k` give it back, and put under the storage index of the key (Tahoe-LAFS, file encoding). A read takes
//! nothing on trust from the stores: it looks for `k` shares that the read cap tells to be good, and answers bytes that
//! are bound to the cap, or none.
#![tactic(auto)]

/// Uploads.
mod uploader;
/// Directories that are prepared: the text of the directory that children JSON names.
mod directory_ahead;
/// Files that were read and are kept, and what is prepared.
mod cache;
/// What was found under names in directories.
mod steps;
/// Directories that are looked through for a name.
mod looking;
/// Looking names up in directories.
mod look_ahead;
/// Directories whose listing is prepared.
mod listed;
/// Preparing listings, and reading directories to be listed.
mod listing_ahead;
/// Files that the cache has.
mod held;
/// Reading files.
mod reader;
/// Reading long files.
mod long_reader;
/// Preparing long files to be read.
mod gathering;
/// What the stores have of a file, verified.
mod verify;
/// Checks of long files that are prepared.
mod check_ahead;
/// Checking files.
mod checker;
/// Laws of the definitions.
pub mod laws;

pub use cache::Cache;
pub use checker::check;
pub use directory_ahead::directory_text_of;
pub use file_shares::{Download, Health, ReadFault};
pub use gathering::lends;
pub use listing_ahead::read_counted;
pub use look_ahead::sought;
pub use reader::{begin, read};
pub use uploader::upload;
