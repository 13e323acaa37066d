//! What a crash costs: laws that join the run that it ends to the run that comes after it.
//!
//! A crash is losses by the operator: what is left is left by a run of the items that were carried out, with the one
//! under way done and some of its shares lost, or not begun. So the gateway that starts over it goes on from the world of
//! a run, and what holds of callers in one run holds over restarts.
#![tactic(auto)]

/// Laws, each on a function that does nothing.
pub mod laws;
