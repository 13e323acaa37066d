//! Why a store refuses.
ghost use Rattle.std.specs.Prelude.{◌≡◌};
ghost use Rattle.share_store.specs.declared.fault.StoreFault.TheVariants.{NoMemory};

use std::alloc::{AllocError, AllocFailed};
use std::fmt;

/// Why a store refused to put, lose or toggle a share. Nothing was changed then.
#[derive(Clone, Copy, Debug, PartialEq, Eq)]
pub enum StoreFault {
    /// The share is longer than the room that is left, and none stands in its place.
    Full,
    /// The store failed in this call, and counted it.
    Down,
    /// There was no memory for the change.
    NoMemory,
}

impl fmt::Display for StoreFault {
    fn fmt<W: fmt::Write>(&self, f: &mut fmt::Formatter<W>) -> fmt::Result {
        f.write_str(match self {
            StoreFault::Full => "the store is full",
            StoreFault::Down => "the store is down",
            StoreFault::NoMemory => "out of memory",
        })
    }
}

impl From<AllocError> for StoreFault {
    ghost from_gives = { λ _ e. e ≡ NoMemory };

    fn from(_: AllocError) -> Self {
        StoreFault::NoMemory
    }
}

impl<T: Drop> From<AllocFailed<T>> for StoreFault {
    ghost from_gives = { λ _ e. e ≡ NoMemory };

    fn from(_: AllocFailed<T>) -> Self {
        StoreFault::NoMemory
    }
}
