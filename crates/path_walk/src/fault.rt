//! Why a walk stopped.
ghost use Rattle.std.specs.Prelude.{◌≡◌};

use chk_file::ReadFault;
use octets::Text;
use std::alloc::AllocError;
use std::fmt;

/// Why a walk stopped.
#[derive(Drop)]
pub enum WalkFault {
    /// The directory has no child of this name.
    NoChild(Text),
    /// What was to be walked through is a file, or a verify cap, or its bytes are no directory text.
    NotDirectory,
    /// The bytes of a directory on the way can't be read.
    NotEnoughShares,
    /// Memory was refused.
    NoMemory,
}

impl fmt::Display for WalkFault {
    fn fmt<W: fmt::Write>(&self, f: &mut fmt::Formatter<W>) -> fmt::Result {
        f.write_str(match self {
            WalkFault::NoChild(_) => "no such child",
            WalkFault::NotDirectory => "not a directory",
            WalkFault::NotEnoughShares => "not enough shares",
            WalkFault::NoMemory => "out of memory",
        })
    }
}

impl From<AllocError> for WalkFault {
    ghost use Rattle.path_walk.specs.declared.fault.WalkFault.TheVariants.{NoMemory};

    ghost from_gives = { λ _ fault. fault ≡ NoMemory };

    fn from(_: AllocError) -> WalkFault {
        WalkFault::NoMemory
    }
}

impl From<ReadFault> for WalkFault {
    ghost use Rattle.path_walk.specs.Faults.{fault_of_read};

    ghost from_gives = { λ read fault. fault ≡ fault_of_read read };

    fn from(fault: ReadFault) -> WalkFault {
        match fault {
            ReadFault::NotEnoughShares => WalkFault::NotEnoughShares,
            ReadFault::NoMemory => WalkFault::NoMemory,
        }
    }
}
