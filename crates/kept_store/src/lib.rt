//! Stores that outlive the process.
//!
//! A [`KeptStore`] answers from memory and keeps each share on a shelf beside it. So it is honest whatever the shelf
//! does, and goes down for good, for changes, once the shelf failed. Opened over the shelf that a crash left, it has
//! the shares of the calls that were answered, and at most the one more that was under way.
#![tactic(auto)]

// A store in memory with a shelf beside it.
mod kept_store;
// Calls of a store that change it, and runs of them.
mod calls;
// Stores opened over shelves that hold shares.
mod opened;

pub use calls::Call;
pub use kept_store::KeptStore;
