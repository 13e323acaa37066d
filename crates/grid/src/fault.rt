//! Why a grid refuses.
ghost use Rattle.std.specs.Prelude.{◌≡◌};
ghost use Rattle.grid.specs.StoreAnswers.{answer_of as answer_said};
ghost use Rattle.grid.specs.declared.fault.GridFault.TheVariants.{NoMemory, WriteFailed};

use octets::WriteFault;
use share_store::StoreFault;
use std::alloc::{AllocError, AllocFailed};
use std::error::Error;
use std::fmt;

/// Why a call of a grid was refused. A server is given by its place among the stores, from 0.
#[derive(Clone, Copy, Debug, PartialEq, Eq)]
pub enum GridFault {
    /// A share is longer than the room of this server's store, and none stands in its place.
    Full(usize),
    /// This server's store failed in the call.
    Down(usize),
    /// There is no such server.
    NoServer,
    /// The image has its first fault at this place, counted in bytes from 0; or an image can't hold what stands, and
    /// the field at this place is the first whose range is passed.
    BadImage(u64),
    /// The reader failed, or was asked too often.
    ReadFailed,
    /// The writer failed, took no byte, or was asked too often.
    WriteFailed,
    /// There was no memory for the call.
    NoMemory,
}

impl fmt::Display for GridFault {
    fn fmt<W: fmt::Write>(&self, f: &mut fmt::Formatter<W>) -> fmt::Result {
        let words = match self {
            GridFault::Full(server) => return write!(f, "the store of server {server} is full"),
            GridFault::Down(server) => return write!(f, "the store of server {server} is down"),
            GridFault::NoServer => "there is no such server",
            GridFault::BadImage(place) => return write!(f, "the image has a fault at byte {place}"),
            GridFault::ReadFailed => "the image could not be read",
            GridFault::WriteFailed => "the image could not be written",
            GridFault::NoMemory => "out of memory",
        };
        f.write_str(words)
    }
}

impl Error for GridFault {}

impl From<WriteFault> for GridFault {
    ghost from_gives = { λ _ e. e ≡ WriteFailed };

    fn from(_: WriteFault) -> Self {
        GridFault::WriteFailed
    }
}

impl From<AllocError> for GridFault {
    ghost from_gives = { λ _ e. e ≡ NoMemory };

    fn from(_: AllocError) -> Self {
        GridFault::NoMemory
    }
}

impl<T: Drop> From<AllocFailed<T>> for GridFault {
    ghost from_gives = { λ _ e. e ≡ NoMemory };

    fn from(_: AllocFailed<T>) -> Self {
        GridFault::NoMemory
    }
}

/// A store's answer as the grid's, where a refusal names the server.
pub fn answer_of<T: Drop>(server: usize, answer: Result<T, StoreFault>) -> Result<T, GridFault>
    ensures { result ≡ answer_said server answer }
{
    match answer {
        Ok(value) => Ok(value),
        Err(StoreFault::Full) => Err(GridFault::Full(server)),
        Err(StoreFault::Down) => Err(GridFault::Down(server)),
        Err(StoreFault::NoMemory) => Err(GridFault::NoMemory),
    }
}
