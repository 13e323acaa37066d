//! Why a text is no cap's.

use base32_text::B32Fault;
use std::error::Error;
use std::fmt;

/// Why a text was refused. Of several causes the first in this order is given.
#[derive(Clone, Copy, Debug, PartialEq, Eq)]
pub enum CapFault {
    /// The text begins like no cap.
    UnknownKind,
    /// The text begins like the cap of a mutable file or directory.
    Mutable,
    /// A wrong number of fields, or a field that is no base32 or has a wrong number of bytes.
    BadField,
    /// A number that is not decimal without leading zeros, or not in its range.
    BadNumber,
    /// Memory for the cap was refused.
    NoMemory,
}

impl fmt::Display for CapFault {
    fn fmt<W: fmt::Write>(&self, f: &mut fmt::Formatter<W>) -> fmt::Result {
        f.write_str(match self {
            CapFault::UnknownKind => "unknown kind of cap",
            CapFault::Mutable => "a cap of what can change",
            CapFault::BadField => "bad field in a cap",
            CapFault::BadNumber => "bad number in a cap",
            CapFault::NoMemory => "out of memory",
        })
    }
}

impl Error for CapFault {}

impl From<B32Fault> for CapFault {
    ghost use Rattle.std.specs.Prelude.{◌≡◌};
    ghost use Rattle.caps.specs.Steps.{field_fault};

    ghost from_gives = { λ b32 fault. fault ≡ field_fault b32 };

    fn from(fault: B32Fault) -> CapFault {
        match fault {
            B32Fault::BadCharacter(_) => CapFault::BadField,
            B32Fault::BadLength => CapFault::BadField,
            B32Fault::LooseBits => CapFault::BadField,
            B32Fault::NoMemory => CapFault::NoMemory,
        }
    }
}
