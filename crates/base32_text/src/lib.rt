//! Base32 in lower case and without padding (RFC 4648, section 6): the text that spells given bytes, and the bytes
//! that a text spells. Bytes have one text, and a text has one meaning: a character that is no letter, a length that
//! no bytes have and unused bits that are not zero are refused.
#![tactic(auto)]

/// From bytes to the text that spells them.
mod encoder;
/// From a text to the bytes that it spells.
mod decoder;
/// Why a text spells no bytes.
mod fault;
/// The letters and what they stand for.
mod alphabet;
/// Bits that were read and are not yet written.
mod waiting;
/// What holds of base32, whatever the bytes and the text.
pub mod laws;

pub use decoder::decode;
pub use encoder::{encode, push_encoded};
pub use fault::B32Fault;
