//! Why a store was not opened over a shelf.
ghost use Rattle.std.specs.Prelude.{◌≡◌};
ghost use Rattle.share_shelf.specs.declared.open_fault.OpenFault.TheVariants.{Shelf as ShelfRefused, Store as StoreRefused};

use crate::ShelfFault;
use share_store::StoreFault;
use std::fmt;

/// Why a store was not opened over a shelf.
#[derive(Clone, Copy, Debug, PartialEq, Eq)]
pub enum OpenFault {
    /// The shelf refused to be read.
    Shelf(ShelfFault),
    /// The shares don't fit the room, or there was no memory for them.
    Store(StoreFault),
    /// A share has no bytes.
    Empty,
}

impl fmt::Display for OpenFault {
    fn fmt<W: fmt::Write>(&self, f: &mut fmt::Formatter<W>) -> fmt::Result {
        let words = match self {
            OpenFault::Shelf(fault) => return write!(f, "the shelf could not be read: {fault}"),
            OpenFault::Store(fault) => return write!(f, "the shares could not be held: {fault}"),
            OpenFault::Empty => "a share is empty",
        };
        f.write_str(words)
    }
}

impl From<ShelfFault> for OpenFault {
    ghost from_gives = { λ fault e. e ≡ ShelfRefused fault };

    fn from(fault: ShelfFault) -> Self {
        OpenFault::Shelf(fault)
    }
}

impl From<StoreFault> for OpenFault {
    ghost from_gives = { λ fault e. e ≡ StoreRefused fault };

    fn from(fault: StoreFault) -> Self {
        OpenFault::Store(fault)
    }
}
