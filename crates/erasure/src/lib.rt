//! A k-of-n erasure code over GF(256): n blocks are made of k primary ones, and any k of the n give these back.
//!
//! Byte by byte the n blocks are the values of one polynomial, of degree below k, at the evaluation points 0, 1, 2, 4, 8
//! and so on by powers of 2; the first k blocks are the primary ones.
#![tactic(auto)]

/// The code: encoding a block, and decoding.
mod code;
/// What can be wrong with the blocks that are given to be decoded.
mod given;
/// Blocks that are known, and the primary blocks that are made of them.
mod known;
/// The value of a polynomial at one point from its values at others, over whole blocks.
mod interpolation;
/// The loops over the bytes of blocks.
mod kernel;
/// Products of 32 bytes at a time.
mod lanes;
/// What a call can refuse.
mod fault;
/// What holds of the definitions.
pub mod laws;

pub use code::Code;
pub use fault::CodeFault;
pub use kernel::mul_add;
