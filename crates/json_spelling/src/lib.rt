//! The one spelling of JSON whose numbers are whole ones of 64 bits: written while its tokens are read, at once or some
//! of a text at a time.
#![tactic(auto)]

/// How deep JSON nests, and whether all its numbers are whole.
mod extent;
/// The one spelling of JSON, written while its tokens are read.
mod spelling;
/// Metadata, and their one spelling.
mod metadata;
/// Finding a comma outside strings, some bytes of a text at a time.
mod comma_search;
/// Pushes the tokens of a piece of a JSON text into what takes them one at a time.
mod token_pieces;
/// Reading JSON a piece of its text at a time.
mod piece_reader;
/// The one spelling of JSON whose keys rise, written while its tokens come one at a time.
mod speller;
/// A tree takes the tokens of pieces.
mod tree_tokens;
/// Spelling long metadata, some of their text at a time.
mod metadata_speller;
/// Judging JSON whose tokens come one at a time.
mod judge;
/// Judging long metadata, some of their text at a time.
pub mod judging;
/// What holds of spellings.
pub mod laws;

pub use comma_search::{CommaSearch, STEP_BYTES};
pub use extent::Extent;
pub use metadata::{spell_bytes, spelling_is_kept};
pub use metadata_speller::{MetadataSpeller, MetadataSpelling};
pub use speller::Speller;
pub use spelling::{Keys, READ_LEVELS, Spelled, Stop, opens_object, spell_items, spell_token};
pub use token_pieces::{TakesTokens, push_tokens};
pub use tree_tokens::tree_in_object;
