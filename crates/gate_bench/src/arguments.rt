//! What the program is called with.

use std::io::ErrorKind;
use std::process::ExitCode;
use std::rt::Env;
use std::{env, fmt};

/// What is asked for.
#[derive(Clone, Copy)]
pub(crate) enum Command {
    /// No argument.
    Nothing,
    /// The least times of so many turns.
    Turns(u32),
    /// What a refused allocation leaves, after so many allocations that serve nothing.
    Refusal(u32),
    /// Each call that takes memory, and once more where memory is refused.
    Again,
}

#[derive(Drop)]
pub(crate) enum ArgumentFault {
    /// An argument is no count.
    NotACount,
    /// The arguments are of another form.
    TooMany,
    /// An argument is no text.
    Unreadable,
    /// There was no memory to read them.
    NoMemory,
}

impl fmt::Display for ArgumentFault {
    fn fmt<W: fmt::Write>(&self, f: &mut fmt::Formatter<W>) -> fmt::Result {
        match self {
            ArgumentFault::NotACount => write!(
                f,
                "NotACount: TURNS is 1 to 4294967295, BEFORE 0 to 4294967295"
            ),
            ArgumentFault::TooMany => write!(
                f,
                "TooMany: usage: gate_bench [TURNS | refusal BEFORE | again]"
            ),
            ArgumentFault::Unreadable => write!(f, "Unreadable: an argument is no text"),
            ArgumentFault::NoMemory => write!(f, "out of memory"),
        }
    }
}

impl ArgumentFault {
    /// 1 where memory was refused, 2 where the arguments are wrong.
    pub(crate) fn status(&self) -> ExitCode {
        match self {
            ArgumentFault::NoMemory => ExitCode::from(1),
            _ => ExitCode::from(2),
        }
    }
}

/// What the arguments ask for.
pub(crate) fn asked(rt: &(impl Env + AllocGlobal)) -> Result<Command, ArgumentFault> {
    let arguments = match env::args(rt) {
        Ok(arguments) => arguments,
        Err(error) if error.kind() == ErrorKind::OutOfMemory => {
            return Err(ArgumentFault::NoMemory);
        }
        Err(_) => return Err(ArgumentFault::Unreadable),
    };
    let mut arguments = arguments.skip(1);
    let Some(first) = arguments.next() else {
        return Ok(Command::Nothing);
    };
    let second = arguments.next();
    if arguments.next().is_some() {
        return Err(ArgumentFault::TooMany);
    }
    match (first.as_str(), second) {
        ("refusal", Some(before)) => match before.as_str().parse::<u32>() {
            Ok(before) => Ok(Command::Refusal(before)),
            Err(_) => Err(ArgumentFault::NotACount),
        },
        ("again", None) => Ok(Command::Again),
        (turns, None) => match turns.parse::<u32>() {
            Ok(turns) if turns > 0 => Ok(Command::Turns(turns)),
            _ => Err(ArgumentFault::NotACount),
        },
        _ => Err(ArgumentFault::TooMany),
    }
}
