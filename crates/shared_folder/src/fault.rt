//! Why the folder gave no answer.
ghost use Rattle.std.specs.Prelude.{◌≡◌, ◌≢◌};
ghost use Rattle.shared_folder.specs.declared.fault.SharedFault.TheVariants.{Failed, NoMemory};

use std::alloc::{AllocError, AllocFailed};
use std::fmt;
use std::io::{Error as IoError, ErrorKind};

/// Why the folder gave no answer.
#[derive(Clone, Copy, Debug, PartialEq, Eq)]
pub enum SharedFault {
    /// A call of the file system failed.
    Failed,
    /// The file system has no room for the share.
    Full,
    /// The share is longer than the longest, or its number isn't below the number of shares.
    NoShare,
    /// The call is none that a store offers which others use at the same time.
    NotShared,
    /// There was no memory for the call.
    NoMemory,
}

impl fmt::Display for SharedFault {
    fn fmt<W: fmt::Write>(&self, f: &mut fmt::Formatter<W>) -> fmt::Result {
        f.write_str(match self {
            SharedFault::Failed => "the file system failed",
            SharedFault::Full => "the file system is full",
            SharedFault::NoShare => "the share is none of this grid's",
            SharedFault::NotShared => "a store that many use has no such call",
            SharedFault::NoMemory => "out of memory",
        })
    }
}

impl From<AllocError> for SharedFault {
    ghost from_gives = { λ _ e. e ≡ NoMemory };

    fn from(_: AllocError) -> Self {
        SharedFault::NoMemory
    }
}

impl<T: Drop> From<AllocFailed<T>> for SharedFault {
    ghost from_gives = { λ _ e. e ≡ NoMemory };

    fn from(_: AllocFailed<T>) -> Self {
        SharedFault::NoMemory
    }
}

/// What a failed look is. A file system that is full can be read.
impl From<IoError> for SharedFault {
    ghost from_gives = { λ _ e. e ≡ Failed };

    fn from(_: IoError) -> Self {
        SharedFault::Failed
    }
}

/// What a failed write is. It may be done or not, so it is never one for which there was no memory.
pub(crate) fn fault_of_write(error: &IoError) -> SharedFault
    ensures { result ≢ NoMemory }
{
    match error.kind() {
        ErrorKind::StorageFull | ErrorKind::QuotaExceeded => SharedFault::Full,
        _ => SharedFault::Failed,
    }
}
