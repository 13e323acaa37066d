//! Repair of files by their shares alone, without a cap and without a key.
//!
//! A share says of itself which file it is a share of, in its URI extension block: the file's numbers and the roots of
//! its two hash trees (Tahoe-LAFS, file encoding). So whoever keeps shares can tell those that are good by what they say
//! themselves from those that aren't, decode k of one file to its crypttext, and code that again.
#![tactic(auto)]

/// What a share says of its file.
mod label;
/// The shares of a file, made again of k of them.
mod making;
/// The numbers in a URI extension block.
mod extension;
/// What bytes begin with.
mod netstring;
/// The crypttext that shares are of.
mod decoding;
/// Why shares aren't made again.
mod fault;
/// What stands under a storage index, judged.
mod judging;
/// Which file it is, and what of it is missing.
mod choosing;
/// The files of a grid, looked at and repaired.
mod mending;
/// What holds of the definitions.
pub mod laws;

pub use fault::RepairFault;
pub use label::{Label, label_of};
pub use making::repaired;
pub use mending::{Outcome, repair};
