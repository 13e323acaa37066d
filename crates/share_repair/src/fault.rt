//! Why shares aren't made again.
ghost use Rattle.std.specs.Prelude.{◌≡◌};
ghost use Rattle.share_repair.specs.declared.fault.RepairFault.TheVariants.{NoMemory};

use std::alloc::{AllocError, AllocFailed};
use std::fmt;

/// Why shares aren't made again.
#[derive(Clone, Copy, PartialEq, Eq)]
pub enum RepairFault {
    /// The shares that were given aren't k of one file, each with another number and as it is made of it.
    Unlike,
    /// There was no memory.
    NoMemory,
}

impl fmt::Display for RepairFault {
    fn fmt<W: fmt::Write>(&self, f: &mut fmt::Formatter<W>) -> fmt::Result {
        f.write_str(match self {
            RepairFault::Unlike => "the shares are not of one file",
            RepairFault::NoMemory => "out of memory",
        })
    }
}

impl From<AllocError> for RepairFault {
    ghost from_gives = { λ _ e. e ≡ NoMemory };

    fn from(_: AllocError) -> Self {
        RepairFault::NoMemory
    }
}

impl<T: Drop> From<AllocFailed<T>> for RepairFault {
    ghost from_gives = { λ _ e. e ≡ NoMemory };

    fn from(_: AllocFailed<T>) -> Self {
        RepairFault::NoMemory
    }
}
