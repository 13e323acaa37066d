//! Command lines whose first word is a verb, as `clap` reads them: what they are made of, and what was given.
//!
//! [`program_of`] makes one of its options and of verbs, which [`verb`] makes of their arguments. [`find_word`],
//! [`word_of`], [`words_of`] and [`has_flag`] read what was given.
#![tactic(auto)]

/// Options, flags and words by their place.
mod arguments;
/// Verbs, and programs of them.
mod commands;
/// What was given under a name.
mod given;

pub use arguments::{flag, needed_place, place, valued};
pub use commands::{add_verb, program_of, verb};
pub use given::{find_word, has_flag, word_of, words_of};
