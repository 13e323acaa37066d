//! Caps of immutable files and directories (Tahoe-LAFS's uri document): their texts, and the verify caps that they can
//! be weakened to.
#![tactic(auto)]

/// Caps.
mod cap;
/// What the caps of stored bytes hold.
mod fields;
/// The kinds of caps.
mod kind;
/// Why a text is no cap's.
mod fault;
/// From a text to the cap whose text it is.
mod parser;
/// How cap texts begin.
mod beginning;
/// Fields parted by `:`.
mod parts;
/// The fields of caps of stored bytes.
mod stored;
/// From a cap to its text.
mod printer;
/// Storage indexes.
mod index;
/// From a cap to the one that verifies what it reads.
mod weakening;
/// What holds of caps and their texts.
pub mod laws;

pub use cap::{Cap, VerifyCap, copy_cap, is_verify_cap};
pub use fault::CapFault;
pub use fields::{ReadFields, VerifyFields};
pub use index::storage_index;
pub use kind::Kind;
pub use parser::{parse, parse_bytes};
pub use printer::print;
pub use weakening::weaken;
