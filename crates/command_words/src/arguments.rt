//! Options, flags and words by their place.

ghost use Rattle.command_words.specs.Rules.{HasRule, flag, needed, placed_rule, valued};

use clap::{Arg, ArgAction};
use std::alloc::Global;

/// A word by its place; `value` stands for it in the help.
pub fn place<'a>(alloc: Global, name: &'a str, value: &'a str, help: &'a str) -> Arg<'a>
    ensures { HasRule (placed_rule name.entry.now) result }
{
    Arg::new(alloc, name).value_name(value).help(help)
}

/// A word by its place that has to stand.
pub fn needed_place<'a>(alloc: Global, name: &'a str, value: &'a str, help: &'a str) -> Arg<'a>
    ensures { HasRule (needed name.entry.now) result }
{
    place(alloc, name, value, help).required(true)
}

/// An option with a value, `--NAME VALUE`.
pub fn valued<'a>(alloc: Global, name: &'a str, value: &'a str, help: &'a str) -> Arg<'a>
    ensures { HasRule (valued name.entry.now) result }
{
    place(alloc, name, value, help).long(name)
}

/// A flag, `--NAME`.
pub fn flag<'a>(alloc: Global, name: &'a str, help: &'a str) -> Arg<'a>
    ensures { HasRule (flag name.entry.now) result }
{
    Arg::new(alloc, name)
        .long(name)
        .help(help)
        .action(ArgAction::SetTrue)
}
