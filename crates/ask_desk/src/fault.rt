//! Why no more is heard.
ghost use Rattle.std.specs.Prelude.{◌≡◌};
ghost use Rattle.ask_desk.specs.declared.fault.DeskFault.TheVariants.{NoMemory};

use std::alloc::{AllocError, AllocFailed};
use std::fmt;

/// Why no more is heard over a connection. It has to be ended.
#[derive(Clone, Copy, Debug, PartialEq, Eq)]
pub enum DeskFault {
    /// Bytes came, and nothing that was written whole awaited a reply.
    Unasked,
    /// The line of a bulk string came that is longer than its ask allows.
    TooLong,
    /// What came begins with no reply.
    NoReply,
    /// There was no memory for what came or was written.
    NoMemory,
}

impl fmt::Display for DeskFault {
    fn fmt<W: fmt::Write>(&self, f: &mut fmt::Formatter<W>) -> fmt::Result {
        f.write_str(match self {
            DeskFault::Unasked => "a reply came that nobody asked for",
            DeskFault::TooLong => "the reply is too long",
            DeskFault::NoReply => "what came is no reply",
            DeskFault::NoMemory => "out of memory",
        })
    }
}

impl From<AllocError> for DeskFault {
    ghost from_gives = { λ _ e. e ≡ NoMemory };

    fn from(_: AllocError) -> Self {
        DeskFault::NoMemory
    }
}

impl<T: Drop> From<AllocFailed<T>> for DeskFault {
    ghost from_gives = { λ _ e. e ≡ NoMemory };

    fn from(_: AllocFailed<T>) -> Self {
        DeskFault::NoMemory
    }
}
