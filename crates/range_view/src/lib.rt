//! Ranges of a file's bytes (RFC 9110, section 14): which part of a file the value of a Range field asks for.
//!
//! [`resolve`] takes no memory, and answers for any value and any size.
#![tactic(auto)]

/// Which part of a file is asked for.
mod range;
/// The parts of a Range field's value.
mod value;
/// Numbers of any length.
mod number;
/// What values come to, on small texts.
pub mod laws;

pub use range::{Resolved, resolve};
