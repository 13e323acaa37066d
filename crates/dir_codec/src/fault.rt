//! Why there is no directory.
ghost use Rattle.std.specs.Prelude.{◌≡◌, ◌↔◌, IsTrue};
ghost use Rattle.dir_codec.specs.declared.fault.DirFault.TheVariants.{NoMemory};

use caps::CapFault;
use std::alloc::{AllocError, AllocFailed};
use std::fmt;

/// Why a text is no directory's, or children JSON names none.
#[derive(Clone, Copy, Debug, PartialEq, Eq)]
pub enum DirFault {
    /// An entry is not one netstring of four, or is cut short.
    Torn,
    /// A name is not above the one before it.
    NotSorted,
    /// A name that is not UTF-8, is empty or is not in NFC.
    BadName,
    /// A text that is no cap's.
    BadCap,
    /// A verify cap, or a cap of what can change.
    NotImmutable,
    /// An entry has a write cap.
    WriteCap,
    /// Metadata that are no JSON object, nest deeper than 100 levels, or have a number that is not a whole one of 64
    /// bits.
    BadMetadata,
    /// The bytes are no JSON.
    NotJson,
    /// The JSON is of another shape than children have.
    BadShape,
    /// Two names are one in NFC.
    SameName,
    /// Metadata in children JSON have a number that is not a whole one of 64 bits.
    FractionalNumber,
    /// Memory was refused.
    NoMemory,
}

impl fmt::Display for DirFault {
    fn fmt<W: fmt::Write>(&self, f: &mut fmt::Formatter<W>) -> fmt::Result {
        f.write_str(match self {
            DirFault::Torn => "a directory text is torn",
            DirFault::NotSorted => "names are not in order",
            DirFault::BadName => "bad name",
            DirFault::BadCap => "bad cap",
            DirFault::NotImmutable => "not a read cap of what can't change",
            DirFault::WriteCap => "a write cap",
            DirFault::BadMetadata => "bad metadata",
            DirFault::NotJson => "no json",
            DirFault::BadShape => "not the shape of children",
            DirFault::SameName => "two children of one name",
            DirFault::FractionalNumber => "a number that is not whole",
            DirFault::NoMemory => "out of memory",
        })
    }
}

impl From<AllocError> for DirFault {
    ghost from_gives = { λ _ fault. fault ≡ NoMemory };

    fn from(_: AllocError) -> DirFault {
        DirFault::NoMemory
    }
}

impl<T: Drop> From<AllocFailed<T>> for DirFault {
    ghost from_gives = { λ _ fault. fault ≡ NoMemory };

    fn from(_: AllocFailed<T>) -> DirFault {
        DirFault::NoMemory
    }
}

impl From<CapFault> for DirFault {
    ghost use Rattle.std.specs.Prelude.{◌≡◌};
    ghost use Rattle.dir_codec.specs.Reading.{child_fault};

    ghost from_gives = { λ cap fault. fault ≡ child_fault cap };

    fn from(fault: CapFault) -> DirFault {
        match fault {
            CapFault::UnknownKind => DirFault::BadCap,
            CapFault::Mutable => DirFault::NotImmutable,
            CapFault::BadField => DirFault::BadCap,
            CapFault::BadNumber => DirFault::BadCap,
            CapFault::NoMemory => DirFault::NoMemory,
        }
    }
}

/// Whether a text was not read because memory was refused, and not for what it says.
pub fn is_memory(fault: &DirFault) -> bool
    ensures { IsTrue result ↔ (fault.now ≡ NoMemory) }
{
    match fault {
        DirFault::NoMemory => true,
        DirFault::Torn | DirFault::NotSorted | DirFault::BadName | DirFault::BadCap => false,
        DirFault::NotImmutable | DirFault::WriteCap | DirFault::BadMetadata => false,
        DirFault::NotJson | DirFault::BadShape | DirFault::SameName => false,
        DirFault::FractionalNumber => false,
    }
}
