//! Why a text spells no bytes.

ghost use Rattle.std.specs.Prelude.{◌≡◌};
ghost use Rattle.base32_text.specs.declared.fault.B32Fault.TheVariants.{NoMemory};

use std::alloc::{AllocError, AllocFailed};
use std::fmt;

/// Why a text was refused. Of several causes the first in this order is given.
#[derive(Clone, Copy, PartialEq, Eq)]
pub enum B32Fault {
    /// At this place, counted from 0, stands the first byte that is neither `a` to `z` nor `2` to `7`.
    BadCharacter(usize),
    /// The number of letters is 1, 3 or 6 modulo 8, which no bytes have.
    BadLength,
    /// The unused low bits of the last letter are not zero.
    LooseBits,
    /// Memory for the bytes was refused.
    NoMemory,
}

impl fmt::Display for B32Fault {
    fn fmt<W: fmt::Write>(&self, f: &mut fmt::Formatter<W>) -> fmt::Result {
        let words = match self {
            B32Fault::BadCharacter(place) => return write!(f, "no base32 letter at place {place}"),
            B32Fault::BadLength => "no bytes have so many base32 letters",
            B32Fault::LooseBits => "loose bits in the last base32 letter",
            B32Fault::NoMemory => "out of memory",
        };
        f.write_str(words)
    }
}

impl From<AllocError> for B32Fault {
    ghost from_gives = { λ _ fault. fault ≡ NoMemory };

    fn from(_: AllocError) -> B32Fault {
        B32Fault::NoMemory
    }
}

impl<T: Drop> From<AllocFailed<T>> for B32Fault {
    ghost from_gives = { λ _ fault. fault ≡ NoMemory };

    fn from(_: AllocFailed<T>) -> B32Fault {
        B32Fault::NoMemory
    }
}
