//! A JSON value that is read a token at a time, its objects' keys in any order, and then written as its one compact text and
//! let go of some values at a time, so that no call takes long however large it is.
#![tactic(auto)]

/// Why a token was not taken.
mod fault;

/// Numbers as `serde_json` reads them.
mod number;

/// A value under construction.
mod builder;

/// The text of a key, and of a value that is one token.
mod text;

/// Memory that was given back.
mod freed;

/// What is left to be written of an array or object.
mod rest;

/// The compact text of a value, written some values at a time.
mod writer;

/// Values that are let go of, some at a time.
mod remains;

/// What holds of a builder that took tokens from the first on.
pub mod laws;

pub use builder::TreeBuilder;
pub use fault::TreeFault;
pub use remains::Remains;
pub use writer::{TextWriter, Writing, Written};
