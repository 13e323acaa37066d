//! What is put is got again: laws that join what a client promises over any gateway to what the gateway promises.
#![tactic(auto)]

/// Laws, each on a function that does nothing.
pub mod laws;
