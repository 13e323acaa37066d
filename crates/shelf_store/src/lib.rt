//! Stores of more shares than memory holds: lengths in memory, bytes on a shelf.
//!
//! A [`ShelfStore`] keeps in memory which shares stand, and how long each is, and asks its shelf for their bytes. It is
//! honest where its shelf is, and it fails where its shelf does.
#![tactic(auto)]

// Which shares stand, how long each is, and how much room is left.
mod share_sizes;
// A change that a shelf may have done or not.
mod doubt;
// The store.
mod shelf_store;
// Stores opened over shelves that hold shares.
mod opened;

pub use shelf_store::ShelfStore;
