//! Why a tree isn't written whole.
ghost use Rattle.std.specs.Prelude.{◌≡◌};
ghost use Rattle.client_tree.specs.declared.fault.TreeFault.TheVariants as fault;

use client_core::ClientFault;
use octets::Text;
use std::alloc::{AllocError, AllocFailed};
use std::fmt;

/// A folder or a file that can't be written or read; what is known of it was told where it came.
#[derive(Clone, Copy, Debug, PartialEq, Eq)]
pub struct LocalFault;

impl fmt::Display for LocalFault {
    fn fmt<W: fmt::Write>(&self, f: &mut fmt::Formatter<W>) -> fmt::Result {
        f.write_str("a file or a folder failed")
    }
}

/// Why a tree isn't written whole.
#[derive(Debug, Drop)]
pub enum TreeFault {
    /// The gateway's side.
    Client(ClientFault),
    /// No file can have this name in a folder. The message has it in quotes, its control characters escaped.
    BadName(Text),
    /// Two names are one in NFC, of which this is one. The message has it in quotes, its control characters escaped.
    SameName(Text),
    /// What was to be a directory's children is none.
    BadChildren,
    /// The folder's side.
    Local(LocalFault),
    /// There are more files and folders than were to be taken.
    TooMany,
    /// A folder stands deeper than was to be gone.
    TooDeep,
    /// Memory was refused.
    NoMemory,
}

impl fmt::Display for TreeFault {
    fn fmt<W: fmt::Write>(&self, f: &mut fmt::Formatter<W>) -> fmt::Result {
        let words = match self {
            TreeFault::Client(fault) => return write!(f, "{fault}"),
            TreeFault::BadName(name) => return write!(
                f,
                "a name that no file can have: {:?}",
                name.as_str()
            ),
            TreeFault::SameName(name) => return write!(
                f,
                "two names are one, but for how they are composed: {:?}",
                name.as_str()
            ),
            TreeFault::BadChildren => "bad children",
            TreeFault::Local(fault) => return write!(f, "{fault}"),
            TreeFault::TooMany => "too many files and folders",
            TreeFault::TooDeep => "folders stand too deep",
            TreeFault::NoMemory => "out of memory",
        };
        f.write_str(words)
    }
}

impl From<ClientFault> for TreeFault {
    fn from(fault: ClientFault) -> TreeFault {
        TreeFault::Client(fault)
    }
}

impl From<LocalFault> for TreeFault {
    fn from(fault: LocalFault) -> TreeFault {
        TreeFault::Local(fault)
    }
}

impl From<AllocError> for LocalFault {
    fn from(_error: AllocError) -> LocalFault {
        LocalFault
    }
}

impl From<AllocError> for TreeFault {
    ghost from_gives = { λ _ made. made ≡ fault.NoMemory };

    fn from(_error: AllocError) -> TreeFault {
        TreeFault::NoMemory
    }
}

impl<T: Drop> From<AllocFailed<T>> for TreeFault {
    ghost from_gives = { λ _ made. made ≡ fault.NoMemory };

    fn from(_failed: AllocFailed<T>) -> TreeFault {
        TreeFault::NoMemory
    }
}
