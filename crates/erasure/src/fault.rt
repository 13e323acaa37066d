//! What a call can refuse.
ghost use Rattle.std.specs.Prelude.{◌≡◌};
ghost use Rattle.erasure.specs.declared.fault.CodeFault.TheVariants.{NoMemory};

use std::alloc::{AllocError, AllocFailed};
use std::error::Error;
use std::fmt;

/// Why a code isn't made, or blocks aren't decoded.
#[derive(Debug, PartialEq, Eq, Drop)]
pub enum CodeFault {
    /// A code needs 1 <= k <= n <= 256.
    BadParameters,
    /// Fewer than k blocks were given.
    TooFew,
    /// A number stands twice among the first k.
    Repeated,
    /// The first k blocks are not of one length.
    UnequalLength,
    /// Memory was refused.
    NoMemory,
}

impl fmt::Display for CodeFault {
    fn fmt<W: fmt::Write>(&self, f: &mut fmt::Formatter<W>) -> fmt::Result {
        f.write_str(match self {
            CodeFault::BadParameters => "bad parameters",
            CodeFault::TooFew => "too few blocks",
            CodeFault::Repeated => "a block number is repeated",
            CodeFault::UnequalLength => "blocks of unequal length",
            CodeFault::NoMemory => "out of memory",
        })
    }
}

impl Error for CodeFault {}

impl From<AllocError> for CodeFault {
    ghost from_gives = { λ _ e. e ≡ NoMemory };

    fn from(_error: AllocError) -> CodeFault {
        CodeFault::NoMemory
    }
}

impl<T: Drop> From<AllocFailed<T>> for CodeFault {
    ghost from_gives = { λ _ e. e ≡ NoMemory };

    fn from(_failed: AllocFailed<T>) -> CodeFault {
        CodeFault::NoMemory
    }
}
