//! HMAC with SHA-256 (RFC 2104; FIPS 198-1): 32 bytes that whoever has the key can make of a message, and nobody
//! else. The message is hashed where it lies, and no call takes memory.
#![tactic(auto)]

/// The key's blocks and the two hashes.
mod keyed_hash;

pub use keyed_hash::hmac;
