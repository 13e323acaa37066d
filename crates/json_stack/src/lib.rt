//! JSON read a token at a time: a machine with a stack, which reads what the recursive grammar reads.
#![tactic(auto)]

/// Laws, each on a function that does nothing.
pub mod laws;
