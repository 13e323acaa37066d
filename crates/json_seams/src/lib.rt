//! Where a JSON text may be cut, so that each part is read alone.
#![tactic(auto)]

/// Finding the commas outside strings.
mod scanner;

/// What holds of a text that is cut.
pub mod laws;

pub use scanner::Scanner;
