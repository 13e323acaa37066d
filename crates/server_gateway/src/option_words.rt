//! The file of options.
ghost use Rattle.std.specs.Prelude.{◌≡◌, ◌≤◌, length, map, string_bytes, Some, Ok, IfOk, OnOk, option_map};
ghost use Rattle.toml.specs.Parse.{parse_document};
ghost use Rattle.option_file.specs.Words.{table_words};

use option_file::{OptionFault, file_words};
use server_options::{Refusal, read_config};
use server_stores::ProgramFault;
use server_stores::small_files::read_at_most;
use std::fs::File;
use std::rt::Files;
use std::str;

/// How many bytes a file of options may have.
const MOST_OPTIONS: usize = 1_048_576;

/// The words that the file of options stands for beside those of the command line, and none where these name no file. Of
/// words that are refused nothing is told yet: they are read again with those of the file.
pub fn words_of_file<R: Eprint + AllocGlobal + Files<File = File>>(
    rt: &R,
    words: &[String],
) -> Result<Vec<String>, ProgramFault> {
    match read_config(rt.alloc(), words) {
        Ok(Some(path)) => words_in(rt, path, words),
        Ok(None) => Ok(Vec::new(rt.alloc())),
        Err(Refusal::Words(error)) => {
            if error.kind() == clap::error::ErrorKind::OutOfMemory {
                return Err(ProgramFault::NoMemory);
            }
            Ok(Vec::new(rt.alloc()))
        }
        Err(_) => Ok(Vec::new(rt.alloc())),
    }
}

/// The words that the file of this path stands for beside those of the command line.
fn words_in<R: Eprint + AllocGlobal + Files<File = File>>(
    rt: &R,
    path: &str,
    words: &[String],
) -> Result<Vec<String>, ProgramFault> {
    let Ok(bytes) = read_at_most(rt, path, MOST_OPTIONS) else {
        let _ = eprintln!(rt; "wozhinnam: {path}: the file of options can't be read");
        return Err(ProgramFault::OptionsUnread);
    };
    words_of_bytes(rt, path, &bytes, words)
}

/// The words that a file of options with these bytes stands for beside those of the command line, and else told what is
/// wrong with it, under its path.
fn words_of_bytes<R: Eprint + AllocGlobal>(
    rt: &R,
    path: &str,
    bytes: &[u8],
    words: &[String],
) -> Result<Vec<String>, ProgramFault>
    ensures words { IfOk result (λ more.
        option_map (table_words (map string_bytes words.now)) (parse_document bytes.now)
        ≡ Some (Ok (map string_bytes more.items))) }
    ensures limit { OnOk result (length bytes.now ≤ 1_048_576) }
{
    if bytes.len() > MOST_OPTIONS {
        let _ = eprintln!(rt; "wozhinnam: {path}: it has more than {MOST_OPTIONS} bytes");
        return Err(ProgramFault::Options);
    }
    let Ok(text) = str::from_utf8(bytes) else {
        let _ = eprintln!(rt; "wozhinnam: {path}: it is no UTF-8");
        return Err(ProgramFault::Options);
    };
    match file_words(rt.alloc(), text, words) {
        Ok(more) => Ok(more),
        Err(OptionFault::NoMemory) => Err(ProgramFault::NoMemory),
        Err(fault) => {
            let _ = eprintln!(rt; "wozhinnam: {path}: {fault}");
            Err(ProgramFault::Options)
        }
    }
}

/// Tells the name of the file of options that these words name, before what is wrong with its words.
pub fn name_file(rt: &(impl Eprint + AllocGlobal), words: &[String]) {
    if let Ok(Some(path)) = read_config(rt.alloc(), words) {
        let _ = eprintln!(rt; "wozhinnam: with the options of {path}:");
    }
}
