//! Why a path was refused.
ghost use Rattle.std.specs.Prelude.{◌≡◌};
ghost use Rattle.path_names.specs.declared.fault.PathFault.TheVariants.{NoMemory};

use std::alloc::{AllocError, AllocFailed};
use std::fmt;

/// Why a path was refused. Of several causes the first in this order is given.
#[derive(Clone, Copy, PartialEq, Eq)]
pub enum PathFault {
    /// A `%` without two hexadecimal digits behind it.
    BadEscape,
    /// A segment whose bytes are no UTF-8.
    NotUtf8,
    /// More than 64 names.
    TooMany,
    /// A name without a character.
    EmptyName,
    /// Memory was refused.
    NoMemory,
}

impl fmt::Display for PathFault {
    fn fmt<W: fmt::Write>(&self, f: &mut fmt::Formatter<W>) -> fmt::Result {
        f.write_str(match self {
            PathFault::BadEscape => "bad escape",
            PathFault::NotUtf8 => "not utf-8",
            PathFault::TooMany => "too many names",
            PathFault::EmptyName => "empty name",
            PathFault::NoMemory => "out of memory",
        })
    }
}

impl From<AllocError> for PathFault {
    ghost from_gives = { λ _ fault. fault ≡ NoMemory };

    fn from(_: AllocError) -> PathFault {
        PathFault::NoMemory
    }
}

impl<T: Drop> From<AllocFailed<T>> for PathFault {
    ghost from_gives = { λ _ fault. fault ≡ NoMemory };

    fn from(_: AllocFailed<T>) -> PathFault {
        PathFault::NoMemory
    }
}
