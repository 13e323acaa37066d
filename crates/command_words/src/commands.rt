//! Verbs, and programs of them.
//!
//! What they are made of comes as a list: a command that is handed on past a `?` is spelled out there whole, which costs
//! the prover seconds each time.

ghost use Rattle.std.specs.Prelude.{◌≡◌, ◌++◌, [], ◌∷◌, IfOk, List, Ok};
ghost use Rattle.std.specs.List.{AllZip};
ghost use Rattle.clap.specs.Words.{Rule, Shape, app_of};
ghost use Rattle.command_words.specs.Rules.{HasRule};
ghost use Rattle.command_words.specs.Verbs.{HasShape, program_of, verb};

use clap::{Arg, Command};
use std::alloc::{AllocError, Global};

/// A verb with these arguments, in their order.
pub fn verb<'a>(
    alloc: Global,
    name: &'a str,
    about: &'a str,
    arguments: Vec<Arg<'a>>,
) -> Result<Command<'a>, AllocError>
    ensures { (rules : List Rule) → AllZip HasRule rules arguments.entry.items →
        IfOk result (HasShape (verb name.entry.now rules)) }
{
    Command::new(alloc, name).about(about).args(arguments)
}

/// A verb more in a list, where there is one.
pub fn add_verb<'a>(
    list: &mut Vec<Command<'a>>,
    verb: Result<Command<'a>, AllocError>,
) -> Result<(), AllocError>
    ensures { IfOk result (λ _. (command : Command) × (verb.entry ≡ Ok command)
        × (list.new.items ≡ list.old.items ++ command ∷ [])) }
{
    match verb {
        Ok(verb) => match list.push(verb) {
            Ok(()) => Ok(()),
            Err(_) => Err(AllocError),
        },
        Err(error) => Err(error),
    }
}

/// A program with these options, and these verbs, of which one has to stand.
pub fn program_of<'a>(
    alloc: Global,
    name: &'a str,
    version: &'a str,
    about: &'a str,
    options: Vec<Arg<'a>>,
    verbs: Vec<Command<'a>>,
) -> Result<Command<'a>, AllocError>
    ensures { (rules : List Rule) (first : Shape) (more : List Shape) →
        AllZip HasRule rules options.entry.items → AllZip HasShape (first ∷ more) verbs.entry.items →
        IfOk result (λ command. app_of command ≡ program_of name.entry.now rules (first ∷ more)) }
{
    let command = Command::new(alloc, name)
        .version(version)
        .about(about)
        .subcommand_required(true)
        .args(options)?;
    command.subcommands(verbs)
}
