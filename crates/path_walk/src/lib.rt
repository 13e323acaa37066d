//! Walks from a cap down the names of a path.
//!
//! [`walk`] goes from a cap down names, through directories that it reads from a grid. [`names`] of `path_names`, which
//! is passed on, cuts what follows `/uri/` in a target's path into the text of a cap and the names below it.
#![tactic(auto)]

/// Why a walk stopped.
mod fault;
/// From a cap down the names.
mod walker;
/// Walks that are prepared.
mod ahead;
/// What holds of walks.
pub mod laws;

pub use ahead::{Ahead, walk_ahead};
pub use fault::WalkFault;
pub use path_names::{Names, PathFault, names};
pub use walker::walk;
