//! Reading the words, and doing what they ask for.
ghost use Rattle.std.specs.Prelude.{◌≡◌, IsTrue, IfOk, IfSome, MatchResult, string_bytes};
ghost use Rattle.client_tasks.specs.Had.{IsEndOf, IsReadAt};
ghost use Rattle.client_tasks.specs.State.{AreSkips};

use crate::checking::{check, read_all, repair};
use crate::fault::TaskFault;
use crate::gateway::read_url;
use crate::getting::{get_to_file, get_to_folder, get_to_output};
use crate::given::{read_cap, read_names};
use crate::jobs::lanes_of;
use crate::listing::{list, list_json};
use crate::messages::{Tell, tell_lines};
use crate::patience::patience_of;
use crate::putting::{make_folder, put_folder, put_one};
use caps::Cap;
use clap::Error;
use clap::error::ErrorKind;
use client_core::{Exchange, walk};
use client_link::{Dial, Lanes};
use client_options::{Node, Options, Task, read_words};
use std::env;
use std::env::VarError;
use std::net::Net;
use std::random::RandomSource;
use std::rt::{Clock, Env, Files};

/// Where a gateway is that isn't named.
const DEFAULT_URL: &str = "http://127.0.0.1:3456";

/// Which of a program's streams are terminals.
#[derive(Clone, Copy)]
pub struct Terminals {
    /// Standard output.
    pub output: bool,
    /// Standard error.
    pub error: bool,
}

impl Terminals {
    /// The same for a program that is to be quiet: it has none to tell its progress on.
    fn unless(self, quiet: bool) -> Terminals {
        Terminals {
            output: self.output,
            error: self.error && !quiet,
        }
    }
}

/// Does what the words of the command line ask for, up to the first fault. Progress is told where standard error is a
/// terminal, but for a file that is written on standard output where that is a terminal too.
pub fn run<
    R: Env + Print + Tell + Input + AllocGlobal + Files + Net + Clock + RandomSource + Clone + Drop,
>(rt: &R, terminals: Terminals) -> Result<(), TaskFault> {
    let words = arguments_of(rt)?;
    match read_words(rt.alloc(), &words) {
        Ok(options) => run_with(rt, &options, terminals),
        Err(error) => tell_words(rt, &error),
    }
}

/// Prints the help that the words ask for, or tells what is wrong with them.
fn tell_words<R: Print + Tell + AllocGlobal>(rt: &R, error: &Error) -> Result<(), TaskFault> {
    if error.kind() == ErrorKind::OutOfMemory {
        return Err(TaskFault::NoMemory);
    }
    let text = format!(in rt.alloc(); "{error}")?;
    if error.use_stderr() {
        tell_lines(rt, text.as_str());
        return Err(TaskFault::Words);
    }
    match print!(rt; "{text}") {
        Ok(()) => Ok(()),
        Err(_) => Err(TaskFault::NotPrinted),
    }
}

/// The words of the command line, the program's name first.
fn arguments_of(rt: &(impl Env + AllocGlobal)) -> Result<Vec<String>, TaskFault> {
    let Ok(arguments) = env::args(rt) else {
        return Err(TaskFault::NoMemory);
    };
    let mut words = Vec::new(rt.alloc());
    for argument in arguments {
        words.push(argument)?;
    }
    Ok(words)
}

/// Does a task over the gateway that is named.
fn run_with<
    R: Env + Print + Tell + Input + AllocGlobal + Files + Net + Clock + RandomSource + Clone + Drop,
>(rt: &R, options: &Options<'_>, terminals: Terminals) -> Result<(), TaskFault> {
    let url = url_of(rt, options)?;
    let place = read_url(rt.alloc(), url.as_str())?;
    let patience = patience_of(options)?;
    let gateway = lanes_of(rt, &place, &options.task, patience)?;
    do_over(rt, gateway, &options.task, terminals.unless(options.quiet))
}

/// Does a task over connections. Whoever opens them is any type here: how long what it borrows lives can't be proved where
/// they are made.
fn do_over<
    R: Print + Tell + Input + AllocGlobal + Files + RandomSource + Clone + Drop,
    D: Dial + Drop,
>(rt: &R, gateway: Lanes<'_, D>, task: &Task<'_>, told: Terminals) -> Result<(), TaskFault> {
    let mut gateway = gateway;
    do_task(rt, &mut gateway, task, told)
}

/// The gateway's URL: that of the words, or else of the environment.
fn url_of<R: Env + AllocGlobal>(rt: &R, options: &Options<'_>) -> Result<String, TaskFault>
    ensures { IfSome options.now.gateway (λ url. IfOk result (λ text.
        string_bytes text ≡ url.now)) }
{
    if let Some(url) = options.gateway {
        return Ok(String::from_str(rt.alloc(), url)?);
    }
    match env::var(rt, "WOZHINNAM_URL") {
        Ok(url) => Ok(url),
        Err(VarError::NotPresent) => Ok(String::from_str(rt.alloc(), DEFAULT_URL)?),
        Err(VarError::NotUnicode) => Err(TaskFault::BadUrl),
        Err(VarError::OutOfMemory) => Err(TaskFault::NoMemory),
    }
}

/// Does a task.
fn do_task<
    R: Print + Tell + Input + AllocGlobal + Files + RandomSource + Clone + Drop,
    E: Exchange,
>(rt: &R, gateway: &mut E, task: &Task<'_>, told: Terminals) -> Result<(), TaskFault> {
    match task {
        Task::Put {
            what,
            recursive,
            state,
            verified,
            ..
        } => {
            test_skips(*recursive, state.is_some(), *verified)?;
            if *recursive {
                put_folder(rt, gateway, *what, *state, *verified, told.error)
            } else {
                put_one(rt, gateway, *what, told.error)
            }
        }
        Task::Get {
            node,
            file,
            recursive,
            ..
        } => get(rt, gateway, node, *file, *recursive, told),
        Task::List { node, json } => list_node(rt, gateway, node, *json),
        Task::Check {
            node,
            verify,
            read,
            recursive,
        } => check_node(rt, gateway, node, *verify, *read, *recursive, told.error),
        Task::Repair { node, recursive } => {
            let end = end_of(rt, gateway, node)?;
            repair(rt, gateway, end, *recursive)
        }
        Task::Mkdir(children) => make_folder(rt, gateway, children),
    }
}

/// `BadSkips` where a state is given for one file, or `--verify` without a state.
fn test_skips(recursive: bool, given: bool, verified: bool) -> Result<(), TaskFault>
    ensures { MatchResult result (λ done. AreSkips recursive given verified)
        (λ fault. (fault ≡ TaskFault.BadSkips) × ¬ (AreSkips recursive given verified)) }
{
    if given && !recursive {
        return Err(TaskFault::BadSkips);
    }
    if verified && !given {
        return Err(TaskFault::BadSkips);
    }
    Ok(())
}

/// Writes what a cap and a path are of.
fn get<R: Print + Tell + AllocGlobal + Files + RandomSource + Drop, E: Exchange>(
    rt: &R,
    gateway: &mut E,
    node: &Node<'_>,
    file: Option<&str>,
    recursive: bool,
    told: Terminals,
) -> Result<(), TaskFault> {
    let cap = read_cap(rt, node.cap)?;
    let names = read_names(rt.alloc(), node.path)?;
    match file {
        None => get_to_output(rt, gateway, &cap, &names, told.error && !told.output),
        Some(path) => {
            if recursive {
                get_to_folder(rt, gateway, &cap, &names, path, told.error)
            } else {
                get_to_file(rt, gateway, &cap, &names, path, told.error)
            }
        }
    }
}

/// Lists what a cap and a path are of.
fn list_node<R: Print + AllocGlobal + Files, E: Exchange>(
    rt: &R,
    gateway: &mut E,
    node: &Node<'_>,
    json: bool,
) -> Result<(), TaskFault> {
    let cap = read_cap(rt, node.cap)?;
    let names = read_names(rt.alloc(), node.path)?;
    if json {
        list_json(rt, gateway, &cap, &names)
    } else {
        list(rt, gateway, &cap, &names)
    }
}

/// Checks what a cap and a path are of.
fn check_node<R: Print + Tell + AllocGlobal + Files + Drop, E: Exchange>(
    rt: &R,
    gateway: &mut E,
    node: &Node<'_>,
    verify: bool,
    read: bool,
    recursive: bool,
    is_told: bool,
) -> Result<(), TaskFault>
    ensures { IsTrue read → IfOk result (λ done. IsReadAt node.now recursive) }
{
    let end = end_of(rt, gateway, node)?;
    if read {
        read_all(rt, gateway, &end, recursive, is_told)
    } else {
        check(rt, gateway, end, verify, recursive)
    }
}

/// The cap to which the names of a node lead from its cap.
fn end_of<R: AllocGlobal + Files, E: Exchange>(
    rt: &R,
    gateway: &mut E,
    node: &Node<'_>,
) -> Result<Cap, TaskFault>
    ensures { IfOk result (IsEndOf node.now) }
{
    let cap = read_cap(rt, node.cap)?;
    let names = read_names(rt.alloc(), node.path)?;
    let end = walk(rt.alloc(), gateway, &cap, &names)?;
    Ok(end)
}
