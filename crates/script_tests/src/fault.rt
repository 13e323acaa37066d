//! Why a run of scripts ended before its end.
use std::alloc::{AllocError, AllocFailed};
use std::{fmt, io};

/// Why a run of scripts ended before its end.
#[derive(Clone, Copy, Debug, PartialEq, Eq)]
pub enum RunFault {
    /// The scripts could not be read.
    NotRead,
    /// What was answered could not be written.
    NotWritten,
    /// An answer is no text.
    NoText,
    /// Memory was refused.
    NoMemory,
}

impl fmt::Display for RunFault {
    fn fmt<W: fmt::Write>(&self, f: &mut fmt::Formatter<W>) -> fmt::Result {
        f.write_str(match self {
            RunFault::NotRead => "the scripts could not be read",
            RunFault::NotWritten => "standard output could not be written",
            RunFault::NoText => "an answer is no text",
            RunFault::NoMemory => "out of memory",
        })
    }
}

impl From<AllocError> for RunFault {
    fn from(_error: AllocError) -> RunFault {
        RunFault::NoMemory
    }
}

impl<T: Drop> From<AllocFailed<T>> for RunFault {
    fn from(_error: AllocFailed<T>) -> RunFault {
        RunFault::NoMemory
    }
}

impl From<io::Error> for RunFault {
    fn from(_error: io::Error) -> RunFault {
        RunFault::NotWritten
    }
}
