//! The words of a text's options.
ghost use Rattle.std.specs.Prelude.{◌≡◌, ◌≢◌, ℕ, [], ◌∷◌, ◌++◌, List, Ok, Err, Some, None, IfOk, if◌then◌else◌, ◌≤◌, length, map, option_map, string_bytes};
ghost use Rattle.std.specs.List.{list_any};
ghost use Rattle.toml.specs.declared.de.error.Error.{Error};
ghost use Rattle.toml.specs.Errors.{span_start, IsMemory, IsWithin};
ghost use Rattle.toml.specs.Parse.{parse_document};
ghost use Rattle.toml.specs.View.{array_view, table_view, view};
ghost use Rattle.option_file.specs.Words.{is_given, is_option, items_words, line_at, option_name, option_words, table_words, value_text, valued_word, words_beside};

use crate::fault::OptionFault;
use itoa::Buffer;
use octets::Text;
use std::alloc::{AllocError, Global};
use toml::value::Array;
use toml::{Table, Value, table_from_str};

/// The words that a TOML text stands for beside those of a command line: for each key, in the order of their bytes,
/// `--KEY=VALUE` for a text or a whole number, the same once for each element of an array, `--KEY` for true and nothing for
/// false. A key that the command line has as an option is left out. A key with another value is refused.
pub fn file_words(alloc: Global, text: &str, given: &[String]) -> Result<Vec<String>, OptionFault>
    ensures words { IfOk result (λ words.
        option_map (table_words (map string_bytes given.now)) (parse_document text.now)
        ≡ Some (Ok (map string_bytes words.items))) }
    ensures other_kind { (key : List ℕ) → result ≡ Err (OptionFault.OtherKind key) →
        option_map (table_words (map string_bytes given.now)) (parse_document text.now)
        ≡ Some (Err key) }
    ensures not_toml { (line : ℕ) (error : Error) →
        result ≡ Err (OptionFault.NotToml line error) → (parse_document text.now ≡ None)
        × (line ≡ line_at text.now (span_start error)) }
{
    let table = match table_from_str(alloc, text) {
        Ok(table) => table,
        Err(error) => return Err(fault_of(text, error)),
    };
    words_of_table(alloc, &table, given)
}

/// Why a text that `toml` refuses gives no words.
fn fault_of(text: &str, error: toml::de::Error) -> OptionFault
    requires { IsWithin text.now error }
    ensures memory { IsMemory error → result ≡ OptionFault.NoMemory }
    ensures place { ¬ IsMemory error →
        result ≡ OptionFault.NotToml (line_at text.now (span_start error)) error }
{
    match error.span() {
        Some(span) => OptionFault::NotToml(line_at(text.as_bytes(), span.start), error),
        None => OptionFault::NoMemory,
    }
}

/// The line, from 1, in which a place of a text is.
fn line_at(text: &[u8], place: usize) -> usize
    requires { place ≤ length text.now }
    ensures { result ≡ line_at text.now place }
{
    1 + text[..place].iter().filter(|byte| **byte == b'\n').count()
}

/// The words of a table beside those of a command line.
fn words_of_table(
    alloc: Global,
    table: &Table,
    given: &[String],
) -> Result<Vec<String>, OptionFault>
    ensures words { IfOk result (λ words. table_words (map string_bytes given.now)
        (table_view table.now) ≡ Ok (map string_bytes words.items)) }
    ensures other_kind { (key : List ℕ) → result ≡ Err (OptionFault.OtherKind key) →
        table_words (map string_bytes given.now) (table_view table.now) ≡ Err key }
    ensures is_toml { (line : ℕ) (error : Error) →
        result ≢ Err (OptionFault.NotToml line error) }
{
    let mut words = Vec::new(alloc);
    'options: for (key, value) in table.iter() {
        if !push_beside(alloc, &mut words, given, key.as_str(), value)? {
            return Err(other_kind(alloc, key.as_str())?);
        }
    }
    Ok(words)
}

/// That the value of this key is of another kind than options have.
fn other_kind(alloc: Global, key: &str) -> Result<OptionFault, AllocError>
    ensures { IfOk result (λ fault. fault ≡ OptionFault.OtherKind key.now) }
{
    Ok(OptionFault::OtherKind(Text::from_string(String::from_str(alloc, key)?)))
}

/// Adds the words of an option, but for one that the command line has. False where its value is of another kind than
/// options have.
fn push_beside(
    alloc: Global,
    words: &mut Vec<String>,
    given: &[String],
    key: &str,
    value: &Value,
) -> Result<bool, AllocError>
    ensures { IfOk result (λ fits. option_map (λ more. map string_bytes words.old.items ++ more)
        (words_beside (map string_bytes given.now) key.now (view value.now))
        ≡ (if fits then Some (map string_bytes words.new.items) else None)) }
{
    let name = name_of(alloc, key)?;
    if is_given(given, &name) {
        return Ok(true);
    }
    push_option(alloc, words, &name, value)
}

/// An option as a word.
fn name_of(alloc: Global, key: &str) -> Result<String, AllocError>
    ensures { IfOk result (λ name. string_bytes name ≡ option_name key.now) }
{
    let mut name = String::from_str(alloc, "--")?;
    name.push_str(key)?;
    Ok(name)
}

/// Whether a command line has the option of this name.
fn is_given(given: &[String], name: &str) -> bool
    ensures { result ≡ list_any (is_option name.now) (map string_bytes given.now) }
{
    for word in given {
        if is_option(word.as_bytes(), name.as_bytes()) {
            return true;
        }
    }
    false
}

/// Whether a word is the option of this name.
fn is_option(word: &[u8], name: &[u8]) -> bool
    ensures { result ≡ is_option name.now word.now }
{
    word.starts_with(name) && (word.len() == name.len() || word[name.len()] == b'=')
}

/// Adds the words of an option. False where its value is of another kind than options have.
fn push_option(
    alloc: Global,
    words: &mut Vec<String>,
    name: &str,
    value: &Value,
) -> Result<bool, AllocError>
    ensures { (key : List ℕ) → name.now ≡ option_name key → IfOk result (λ fits.
        option_map (λ more. map string_bytes words.old.items ++ more)
        (option_words key (view value.now))
        ≡ (if fits then Some (map string_bytes words.new.items) else None)) }
{
    match value {
        Value::Boolean(true) => {
            words.push(String::from_str(alloc, name)?)?;
            Ok(true)
        }
        Value::Boolean(false) => Ok(true),
        Value::Array(values) => push_values(alloc, words, name, values),
        Value::String(_) => push_value(alloc, words, name, value),
        Value::Integer(_) => push_value(alloc, words, name, value),
        Value::Float(_) => Ok(false),
        Value::Datetime(_) => Ok(false),
        Value::Table(_) => Ok(false),
    }
}

/// Adds an option once for each of these values. False where one of them is none that an option has.
fn push_values(
    alloc: Global,
    words: &mut Vec<String>,
    name: &str,
    values: &Array,
) -> Result<bool, AllocError>
    ensures { (key : List ℕ) → name.now ≡ option_name key → IfOk result (λ fits.
        option_map (λ more. map string_bytes words.old.items ++ more)
        (items_words key (array_view values.now))
        ≡ (if fits then Some (map string_bytes words.new.items) else None)) }
{
    for value in values {
        if !push_value(alloc, words, name, value)? {
            return Ok(false);
        }
    }
    Ok(true)
}

/// Adds an option with a value. False where the value is none that an option has.
fn push_value(
    alloc: Global,
    words: &mut Vec<String>,
    name: &str,
    value: &Value,
) -> Result<bool, AllocError>
    ensures { (key : List ℕ) → name.now ≡ option_name key → IfOk result (λ fits.
        option_map (λ text. map string_bytes words.old.items ++ valued_word key text ∷ [])
        (value_text (view value.now))
        ≡ (if fits then Some (map string_bytes words.new.items) else None)) }
{
    match value {
        Value::String(text) => {
            words.push(valued_word(alloc, name, text)?)?;
            Ok(true)
        }
        Value::Integer(number) => {
            let mut buffer = Buffer::new();
            words.push(valued_word(alloc, name, buffer.format(*number))?)?;
            Ok(true)
        }
        _ => Ok(false),
    }
}

/// An option with a value, as a word.
fn valued_word(alloc: Global, name: &str, text: &str) -> Result<String, AllocError>
    ensures { (key : List ℕ) → name.now ≡ option_name key → IfOk result (λ word.
        string_bytes word ≡ valued_word key text.now) }
{
    let mut word = String::from_str(alloc, name)?;
    word.push_str("=")?;
    word.push_str(text)?;
    Ok(word)
}
