//! What a run finds in a grid whose shares were laid into another number of servers.
//!
//! A share's place among the servers is named by its storage index, its number and how many servers there are. So shares
//! that a run left among some servers, moved as [`share_moves::move_shares`] moves them, are those that the same uploads
//! leave among another number of them.
#![tactic(auto)]

/// Laws, each on a function that does nothing.
pub mod laws;
