//! Why no reply is read.
ghost use Rattle.std.specs.Prelude.{◌≡◌};
ghost use Rattle.resp.specs.declared.fault.ReadStop.TheVariants.{NoMemory};

use std::alloc::{AllocError, AllocFailed};
use std::fmt;

/// What is wrong with a byte.
#[derive(Clone, Copy, Debug, PartialEq, Eq)]
pub enum Wrong {
    /// No reply has such a byte there.
    Malformed,
    /// A line, a bulk string or an array would be larger than its limit.
    TooLarge,
}

/// Why no reply was read.
#[derive(Clone, Copy, PartialEq, Eq)]
pub enum RespFault {
    /// The bytes before that place begin a reply, and with the one that stands there they begin none.
    Wrong(Wrong, usize),
    /// There was no memory for what came.
    NoMemory,
}

impl fmt::Display for RespFault {
    fn fmt<W: fmt::Write>(&self, f: &mut fmt::Formatter<W>) -> fmt::Result {
        let words = match self {
            RespFault::Wrong(wrong, place) => return write!(
                f,
                "byte {place} fits no reply: {wrong:?}"
            ),
            RespFault::NoMemory => "out of memory",
        };
        f.write_str(words)
    }
}

/// Why reading stopped.
#[derive(Clone, Copy, PartialEq, Eq)]
pub(crate) enum ReadStop {
    /// The bytes end before what is read does.
    More,
    /// A byte is wrong. From it on there are so many.
    Wrong(Wrong, usize),
    /// There was no memory for what came.
    NoMemory,
}

impl From<AllocError> for ReadStop {
    ghost from_gives = { λ _ e. e ≡ NoMemory };

    fn from(_: AllocError) -> Self {
        ReadStop::NoMemory
    }
}

impl<T: Drop> From<AllocFailed<T>> for ReadStop {
    ghost from_gives = { λ _ e. e ≡ NoMemory };

    fn from(_: AllocFailed<T>) -> Self {
        ReadStop::NoMemory
    }
}
