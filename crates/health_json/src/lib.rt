//! The JSON replies of Tahoe-LAFS's webapi document for checks, byte for byte: compact, with keys in the order of their
//! bytes, and with texts as `serde_json` writes them.
#![tactic(auto)]

/// Checks.
mod report;

/// What holds of the replies.
pub mod laws;

pub use report::{check_json, literal_check_json, mapped_check_json};
