//! A file of options: a TOML text whose keys are the names of a command line's options, and the words that it stands for.
//!
//! [`file_words`] reads one.
#![tactic(auto)]

/// Why a text gives no words.
mod fault;
/// The words of a text's options.
mod words;

pub use fault::OptionFault;
pub use words::file_words;
