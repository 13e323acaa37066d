//! Why a script, a listener or the program ended before its end.
ghost use Rattle.std.specs.Prelude.{◌≡◌};
ghost use Rattle.gate_tasks.specs.declared.fault.ScriptFault.TheVariants as script;
ghost use Rattle.gate_tasks.specs.declared.fault.ProgramFault.TheVariants as program;

use octets::WriteFault;
use std::alloc::{AllocError, AllocFailed};
use std::fmt;

/// Why a script's run ended before its end. The answers of the lines before are written, save after `WriteFailed`,
/// where a beginning of them is.
#[derive(Clone, Copy, PartialEq, Eq)]
pub enum ScriptFault {
    /// The line of this number, counted from 1, is no command, or may not stand there, or asks for a gateway that
    /// there is none of.
    BadLine(u64),
    /// The script could not be read further.
    ReadFailed,
    /// An answer could not be written.
    WriteFailed,
    /// Memory was refused.
    NoMemory,
    /// The script has more than 268,435,456 bytes, or one of its lines more than 16,777,216.
    TooLong,
}

impl fmt::Display for ScriptFault {
    fn fmt<W: fmt::Write>(&self, f: &mut fmt::Formatter<W>) -> fmt::Result {
        let words = match self {
            ScriptFault::BadLine(line) => return write!(f, "line {line} is bad"),
            ScriptFault::ReadFailed => "the script could not be read",
            ScriptFault::WriteFailed => "an answer could not be written",
            ScriptFault::NoMemory => "out of memory",
            ScriptFault::TooLong => "the script or one of its lines is too long",
        };
        f.write_str(words)
    }
}

impl From<AllocError> for ScriptFault {
    ghost from_gives = { λ _ fault. fault ≡ script.NoMemory };

    fn from(_error: AllocError) -> ScriptFault {
        ScriptFault::NoMemory
    }
}

impl From<WriteFault> for ScriptFault {
    ghost from_gives = { λ _ fault. fault ≡ script.WriteFailed };

    fn from(_fault: WriteFault) -> ScriptFault {
        ScriptFault::WriteFailed
    }
}

/// Why no more connections are served.
#[derive(Clone, Copy, PartialEq, Eq)]
pub enum ServeFault {
    /// The listener gave no further connection.
    AcceptFailed = 5,
}

impl fmt::Display for ServeFault {
    fn fmt<W: fmt::Write>(&self, f: &mut fmt::Formatter<W>) -> fmt::Result {
        f.write_str(match self {
            ServeFault::AcceptFailed => "no connection could be accepted",
        })
    }
}

/// Why arguments ask for nothing that there is: the first that is wrong, from left to right.
#[derive(Clone, Copy, PartialEq, Eq)]
pub enum UsageFault {
    /// One of them is no text.
    NoText,
    /// There is none.
    NoCommand,
    /// The first is neither `replay` nor `serve`.
    OtherCommand,
    /// Some stand behind `replay`.
    ReplayCount,
    /// Neither two nor three stand behind `serve`.
    ServeCount,
    /// The first behind `serve` is no socket address.
    Address,
    /// The second behind `serve` is no number of connections.
    Connections,
    /// The third behind `serve` spells no secret.
    Secret,
}

impl fmt::Display for UsageFault {
    fn fmt<W: fmt::Write>(&self, f: &mut fmt::Formatter<W>) -> fmt::Result {
        f.write_str(match self {
            UsageFault::NoText => "an argument is no UTF-8",
            UsageFault::NoCommand => "there is no command",
            UsageFault::OtherCommand => "the command is neither replay nor serve",
            UsageFault::ReplayCount => "replay takes no argument: the script is its standard input",
            UsageFault::ServeCount => "serve takes ADDR, CONNS and at most a SECRET",
            UsageFault::Address =>
                "ADDR is no IP address in numbers with a port, as 127.0.0.1:3456",
            UsageFault::Connections => "CONNS is no number from 1 to 65535",
            UsageFault::Secret => "SECRET is no base32 text of at most 256 bytes",
        })
    }
}

/// Why the program ended before its end.
#[derive(Clone, Copy, PartialEq, Eq)]
pub enum ProgramFault {
    /// The arguments ask for nothing that there is.
    Usage(UsageFault),
    /// The script's run ended before the script's end.
    Script(ScriptFault),
    /// The address could not be listened on.
    BindFailed,
    /// No more connections could be served.
    Serve(ServeFault),
    /// So many of the connections that were served had a fault.
    Connections(u16),
    /// Memory was refused.
    NoMemory,
}

impl fmt::Display for ProgramFault {
    fn fmt<W: fmt::Write>(&self, f: &mut fmt::Formatter<W>) -> fmt::Result {
        let words = match self {
            ProgramFault::Usage(fault) => return write!(
                f,
                "{fault}; usage: gate_main replay < SCRIPT, or gate_main serve ADDR CONNS [SECRET]"
            ),
            ProgramFault::Script(fault) => return write!(f, "{fault}"),
            ProgramFault::BindFailed => "the address could not be bound",
            ProgramFault::Serve(fault) => return write!(f, "{fault}"),
            ProgramFault::Connections(count) => return write!(
                f,
                "connections that had a fault: {count}"
            ),
            ProgramFault::NoMemory => "out of memory",
        };
        f.write_str(words)
    }
}

impl From<AllocError> for ProgramFault {
    ghost from_gives = { λ _ fault. fault ≡ program.NoMemory };

    fn from(_error: AllocError) -> ProgramFault {
        ProgramFault::NoMemory
    }
}

impl<T: Drop> From<AllocFailed<T>> for ProgramFault {
    fn from(_error: AllocFailed<T>) -> ProgramFault {
        ProgramFault::NoMemory
    }
}

impl From<ScriptFault> for ProgramFault {
    ghost from_gives = { λ fault made. made ≡ program.Script fault };

    fn from(fault: ScriptFault) -> ProgramFault {
        ProgramFault::Script(fault)
    }
}

impl From<ServeFault> for ProgramFault {
    ghost from_gives = { λ fault made. made ≡ program.Serve fault };

    fn from(fault: ServeFault) -> ProgramFault {
        ProgramFault::Serve(fault)
    }
}
