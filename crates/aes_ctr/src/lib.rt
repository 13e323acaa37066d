//! AES-128 in counter mode (FIPS 197; SP 800-38A, section 6.5), from any byte of the keystream on.
//!
//! A [`Key`] is made of 16 bytes. [`Key::apply`] adds its keystream to bytes in place, from any offset on, so it
//! both encrypts and decrypts, whole or piece by piece. No call takes memory.
#![tactic(auto)]

// SubBytes as a circuit.
mod circuit;
// A key, and its keystream added to bytes.
mod key;
// The keystream, sixteen blocks at a time.
mod keystream;
// What holds of bytes under a keystream.
pub mod laws;
// The other steps of a round, on sixteen states bit by bit.
mod planes;
// The cipher's rounds on sixteen blocks.
mod rounds;
// The round keys of a key.
mod schedule;
// Sixteen blocks bit by bit, and back.
mod transposition;

pub use key::Key;

#[cfg(test)]
mod tests;
