//! Bytes and the small things that every layer does with them: owned bytes, owned text, decimal numbers, the white space
//! around a value, cutting at a byte, writing whole, and the one test of how many shares are enough of how many.
#![tactic(auto)]

/// Owned bytes.
mod bytes;
/// Owned text.
mod text;
/// The spaces and tabs around a text.
mod blanks;
/// Cutting at a byte.
mod cut;
/// Decimal numbers.
mod number;
/// How many shares are enough of how many.
mod sharing;
/// Writing whole.
mod writing;
/// Why not all was written.
mod fault;
/// What holds of the definitions.
pub mod laws;
/// Bytes, and readers and writers that fail, for tests.
pub mod fakes;

pub use blanks::without_blanks;
pub use bytes::Bytes;
pub use cut::split_at_byte;
pub use fault::WriteFault;
pub use number::{is_all_digits, read_number};
pub use sharing::is_sharing;
pub use text::Text;
pub use writing::write_whole;
