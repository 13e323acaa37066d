//! What the client is asked for.

ghost use Rattle.std.specs.Prelude.{IfOk, map, string_bytes};
ghost use Rattle.clap.specs.Faults.{fault_of};
ghost use Rattle.clap.specs.Kinds.{FailsBy};
ghost use Rattle.clap.specs.Words.{subcommand_rows_of};
ghost use Rattle.command_words.specs.Given.{given_rows};
ghost use Rattle.client_options.specs.Asked.{AreOptionsOf, IsNodeOf, IsTask};
ghost use Rattle.client_options.specs.CommandLine.{woz};

use crate::arguments::program;
use clap::{ArgMatches, Error};
use command_words::{find_word, has_flag, word_of, words_of};
use std::alloc::{AllocError, Global};

/// What the client is asked for, and of whom.
#[derive(Drop)]
pub struct Options<'a> {
    /// The gateway's URL, if it was given.
    pub gateway: Option<&'a str>,
    /// For how many seconds the gateway may be slow, if that was given.
    pub patience: Option<&'a str>,
    /// Whether no progress is told.
    pub quiet: bool,
    /// What is to be done.
    pub task: Task<'a>,
}

/// A cap as it was given, and the path below it.
#[derive(Clone, Copy)]
pub struct Node<'a> {
    /// The cap's text, or `@` and the name of the file that it stands in.
    pub cap: &'a str,
    /// The names below it, parted by `/`.
    pub path: &'a str,
}

/// What is to be done.
#[derive(Drop)]
pub enum Task<'a> {
    /// To store a file or a folder.
    Put {
        what: &'a str,
        recursive: bool,
        jobs: Option<&'a str>,
        /// The file that tells what was stored before.
        state: Option<&'a str>,
        /// Whether what was stored before is held against its caps.
        verified: bool,
    },
    /// To write what a cap is of.
    Get {
        node: Node<'a>,
        file: Option<&'a str>,
        recursive: bool,
        jobs: Option<&'a str>,
    },
    /// To list a directory.
    List {
        node: Node<'a>,
        json: bool,
    },
    /// To check shares.
    Check {
        node: Node<'a>,
        verify: bool,
        read: bool,
        recursive: bool,
    },
    /// To put missing shares back.
    Repair {
        node: Node<'a>,
        recursive: bool,
    },
    /// To make a directory.
    Mkdir(Vec<&'a str>),
}

/// Reads the words of a command line, the program's name first.
pub fn read_words<'a>(alloc: Global, words: &'a [String]) -> Result<Options<'a>, Error>
    ensures refused { FailsBy (fault_of woz (map string_bytes words.now)) result }
    ensures read { IfOk result (AreOptionsOf (map string_bytes words.now)) }
{
    let matches = program(alloc)?.try_get_matches_from(words)?;
    let task = read_task(alloc, &matches)?;
    Ok(Options {
        gateway: find_word(&matches, "gateway"),
        patience: find_word(&matches, "patience"),
        quiet: has_flag(&matches, "quiet"),
        task,
    })
}

/// Reads what is to be done.
fn read_task<'a>(alloc: Global, matches: &ArgMatches<'a>) -> Result<Task<'a>, AllocError>
    ensures { IfOk result (IsTask (subcommand_rows_of matches.now)) }
{
    if let Some(given) = matches.subcommand_matches("put") {
        Ok(Task::Put {
            what: word_of(given, "what"),
            recursive: has_flag(given, "recursive"),
            jobs: find_word(given, "jobs"),
            state: find_word(given, "skip-existing"),
            verified: has_flag(given, "verify"),
        })
    } else if let Some(given) = matches.subcommand_matches("get") {
        Ok(Task::Get {
            node: node_of(given),
            file: find_word(given, "file"),
            recursive: has_flag(given, "recursive"),
            jobs: find_word(given, "jobs"),
        })
    } else if let Some(given) = matches.subcommand_matches("ls") {
        Ok(Task::List {
            node: node_of(given),
            json: has_flag(given, "json"),
        })
    } else if let Some(given) = matches.subcommand_matches("check") {
        Ok(Task::Check {
            node: node_of(given),
            verify: has_flag(given, "verify"),
            read: has_flag(given, "read"),
            recursive: has_flag(given, "recursive"),
        })
    } else if let Some(given) = matches.subcommand_matches("repair") {
        Ok(Task::Repair {
            node: node_of(given),
            recursive: has_flag(given, "recursive"),
        })
    } else if let Some(given) = matches.subcommand_matches("mkdir") {
        Ok(Task::Mkdir(words_of(alloc, given, "children")?))
    } else {
        // `clap` takes no words without a verb.
        Err(AllocError)
    }
}

/// The cap, and what follows its first `/`.
fn node_of<'a>(given: &ArgMatches<'a>) -> Node<'a>
    ensures { IsNodeOf (given_rows given.now) result }
{
    let text = word_of(given, "node");
    match text.split_once('/') {
        Some((cap, path)) => Node { cap, path },
        None => Node {
            cap: text,
            path: "",
        },
    }
}
