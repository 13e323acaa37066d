//! The field GF(256) of the erasure code: bytes as polynomials over bits, modulo x^8 + x^4 + x^3 + x^2 + 1.
//!
//! Two bytes are added by `^`. No call here takes memory.
#![tactic(auto)]

// Products, inverses and powers of two.
mod arithmetic;
// Products of one element with 32 at once.
mod lanes;
// What holds in the field, whatever the elements.
pub mod laws;

pub use arithmetic::{exp, inv, mul};
pub use lanes::mul_lanes;

#[cfg(test)]
mod tests;
