//! Paths below caps: the names that a path is made of.
//!
//! [`names`] cuts what follows `/uri/` in a target's path into the text of a cap and the names below it. No store is
//! known here, so what reads requests stands on no storage.
#![tactic(auto)]

/// A list of names.
mod name_list;
/// Why a path was refused.
mod fault;
/// The segments of a path.
mod segments;
/// The cap's text and the names below it.
mod path;
/// What paths say, computed on small texts.
pub mod laws;

pub use fault::PathFault;
pub use name_list::Names;
pub use path::names;
