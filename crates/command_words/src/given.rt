//! What was given under a name.

ghost use Rattle.std.specs.Prelude.{◌≡◌, IfOk, map, option_map};
ghost use Rattle.clap.specs.Words.{first_of};
ghost use Rattle.command_words.specs.Given.{given_rows, is_set, word_of, words_of};

use clap::ArgMatches;
use std::alloc::{AllocError, Global};

/// The word under a name, if one was given.
pub fn find_word<'a>(given: &ArgMatches<'a>, name: &str) -> Option<&'a str>
    ensures { option_map (λ s. s.now) result ≡ first_of name.now (given_rows given.now) }
{
    given.get_str(name)
}

/// The word under a name, or an empty one.
pub fn word_of<'a>(given: &ArgMatches<'a>, name: &str) -> &'a str
    ensures { result.now ≡ word_of name.now (given_rows given.now) }
{
    match find_word(given, name) {
        Some(word) => word,
        None => "",
    }
}

/// All words under a name, in their order.
pub fn words_of<'a>(
    alloc: Global,
    given: &ArgMatches<'a>,
    name: &str,
) -> Result<Vec<&'a str>, AllocError>
    ensures { IfOk result (λ words. map (λ s. s.now) words.items
        ≡ words_of name.now (given_rows given.now)) }
{
    let mut words = Vec::new(alloc);
    if let Some(values) = given.get_strs(name) {
        words.extend_from_slice(values)?;
    }
    Ok(words)
}

/// Whether a flag is set.
pub fn has_flag(given: &ArgMatches<'_>, name: &str) -> bool
    ensures { result ≡ is_set name.now (given_rows given.now) }
{
    match find_word(given, name) {
        Some(word) => word == "true",
        None => false,
    }
}
