//! Netstrings, and the tagged hashes that stand on them.
//!
//! A tagged hash is SHA-256 of SHA-256 (FIPS 180-4) of the netstring of a tag and of a value after it, as
//! in Tahoe-LAFS's file encoding: the tag keeps hashes for different purposes apart, and the second
//! round keeps a digest from being extended. The pieces are hashed where they lie, so that no call but
//! `netstring` and `push_netstring` takes memory.
#![tactic(auto)]

/// Decimal texts that take no memory.
mod decimals;
/// Netstrings: how they are written and read.
mod netstrings;
/// Tagged hashes.
mod hashes;
/// SHA-256 of several messages at once.
mod messages;
/// Its compression, in the lanes of vectors.
mod lanes;
/// Vectors of words.
mod words;
/// Tagged hashes of many values under one tag.
mod batch;
/// What holds of the definitions.
pub mod laws;

pub use batch::{tagged_all, tagged_four};
pub use decimals::Decimal;
pub use hashes::{TagHasher, pair, tagged, tagged16};
pub use netstrings::{NetFault, Span, netstring, push_netstring, read_netstring};
