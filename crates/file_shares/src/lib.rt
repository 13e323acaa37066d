//! A file's shares without a grid and without a cache: they are made of its bytes step by step, judged, and decoded again.
//!
//! Bytes that are uploaded are encrypted under a key that they and a secret give, and cut into `n` shares of which any `k`
//! give them back (Tahoe-LAFS, file encoding). Of strings that stores gave, wherever they come from, the `k` shares are found
//! that the fields of a read cap tell to be good, and they give bytes that are bound to the cap, or none. What these steps need
//! can be prepared, a step of some milliseconds at a time.
#![tactic(auto)]

/// How bytes become a cap and shares.
mod encode;
/// Uploads that are prepared.
mod preparation;
/// Uploads that are awaited.
mod awaited;
/// Bytes that are copied and hashed.
mod hashing;
/// Shares that are made of them.
mod coding;
/// The shares of bytes under a key, made step by step.
mod encoder;
/// What was made.
mod made;
/// Strings that are gathered, verified.
mod verify;
/// Of how many numbers something stands, and of how many a good share.
mod tally;
/// How healthy a file is.
mod health;
/// What was gathered or told, number by number.
mod rows;
/// Which of the shares that were gathered are read.
mod chosen;
/// The crypttext that good shares are of.
mod crypttext;
/// Segments that are decoded.
mod segment;
/// Bytes under a key.
mod cipher;
/// Strings of a long file that stores gave.
mod kept_strings;
/// Long files that are prepared to be read.
mod read_ahead;
/// Strings that stores lent or gave, while they are hashed.
mod readings;
/// Strings that are judged as shares of them.
mod judging;
/// Good shares of them.
mod picked;
/// Good shares that are decoded.
mod decoding;
/// Crypttexts whose root is compared.
mod root_check;
/// Files that are prepared.
mod ready;
/// Downloads.
mod download;
/// Bytes that are held whole.
mod whole;
/// Files of which shares are held.
mod share_reader;
/// Why a file isn't read.
mod fault;
/// Laws of the definitions.
pub mod laws;

pub use awaited::next_piece;
pub use cipher::apply_keystream;
pub use download::Download;
pub use encode::encrypt_and_share;
pub use fault::ReadFault;
pub use health::Health;
pub use judging::has_each;
pub use kept_strings::Gathered;
pub use picked::file_params;
pub use preparation::Preparation;
pub use read_ahead::ReadAhead;
pub use readings::Readings;
pub use ready::Ready;
pub use rows::{Rows, ServerRows};
pub use share_reader::ShareReader;
pub use tally::{judge_each, standing};
pub use verify::verify_found;
pub use whole::Whole;
