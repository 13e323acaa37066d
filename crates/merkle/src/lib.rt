//! Hash trees over lists of leaves, and the chains that lead from a leaf to the root.
//!
//! The leaves are padded with leaves of their own to a power of two, and each inner node is the tagged
//! hash of the pair of both halves' roots (Tahoe-LAFS, file encoding). A leaf is a hash of 32 bytes.
#![tactic(auto)]

// How high a tree is.
mod heights;
// The root of a tree.
mod trees;
// The chain of a leaf, and whether it leads to a root.
mod chains;
// A tree whose nodes are kept.
mod kept;
// Laws of roots and chains.
pub mod laws;

pub use chains::{chain, check};
pub use heights::height;
pub use kept::Tree;
pub use trees::root;
