//! The shares of some stores, laid among another number of stores.
//!
//! A grid places each share by its storage index, its number and how many servers there are. So a grid that gets more
//! servers, or fewer, wants its shares elsewhere. Here each is put where an upload at a grid of so many servers puts it.
#![tactic(auto)]

/// Why shares aren't moved.
mod fault;
/// Moving them.
mod moving;
/// What is among shares that were moved and isn't one of them.
mod strangers;
/// What holds of the definitions.
pub mod laws;

pub use fault::MoveFault;
pub use moving::{Moved, move_shares};
pub use strangers::{Stranger, first_stranger};
