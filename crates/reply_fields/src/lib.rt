//! Fields by which browsers keep, name and show files: entity tags with the conditions on them, Content-Disposition, and
//! a type that is guessed (RFC 9110, RFC 6266).
#![tactic(auto)]

/// Entity tags of stored files, and the conditions on them.
mod tag;
/// What a request names the file that it reads.
mod naming;
/// What a file is taken for by the end of its name.
mod guess;

pub use guess::{Guess, guess_of};
pub use naming::{Naming, disposition_of, naming_of};
pub use tag::{entity_tag, is_had, range_if};
