//! Where the text of a JSON object may be cut between its members, so that each part is an object of its own.
#![tactic(auto)]

/// Finding the commas between members.
mod scanner;

/// What holds of an object that is cut.
pub mod laws;

pub use scanner::MemberScanner;
