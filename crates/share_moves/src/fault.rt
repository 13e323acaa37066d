//! Why shares aren't moved.
ghost use Rattle.std.specs.Prelude.{◌≡◌};
ghost use Rattle.share_moves.specs.declared.fault.MoveFault.TheVariants.{NoMemory};

use std::alloc::{AllocError, AllocFailed};
use std::fmt;

/// Why shares weren't all moved. A server is told by its place among those that are read, or among those that are
/// written.
#[derive(Clone, Copy, PartialEq, Eq)]
pub enum MoveFault {
    /// The store of this server failed, which is only read.
    NotRead(usize),
    /// The store of this server gave a share without a byte, as an honest one never does.
    NoBytes(usize),
    /// The store of this server failed, which is written.
    NotWritten(usize),
    /// The store of this server has no room for a share that isn't there.
    Full(usize),
    /// There was no memory.
    NoMemory,
}

impl fmt::Display for MoveFault {
    fn fmt<W: fmt::Write>(&self, f: &mut fmt::Formatter<W>) -> fmt::Result {
        let words = match self {
            MoveFault::NotRead(server) => return write!(
                f,
                "the store of server {server} failed while it was read"
            ),
            MoveFault::NoBytes(server) => return write!(
                f,
                "the store of server {server} gave a share without a byte"
            ),
            MoveFault::NotWritten(server) => return write!(
                f,
                "the store of server {server} failed while it was written"
            ),
            MoveFault::Full(server) => return write!(f, "the store of server {server} is full"),
            MoveFault::NoMemory => "out of memory",
        };
        f.write_str(words)
    }
}

impl From<AllocError> for MoveFault {
    ghost from_gives = { λ _ e. e ≡ NoMemory };

    fn from(_: AllocError) -> Self {
        MoveFault::NoMemory
    }
}

impl<T: Drop> From<AllocFailed<T>> for MoveFault {
    ghost from_gives = { λ _ e. e ≡ NoMemory };

    fn from(_: AllocFailed<T>) -> Self {
        MoveFault::NoMemory
    }
}
