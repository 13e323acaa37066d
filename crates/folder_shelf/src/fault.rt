//! Why a folder can't be opened.
ghost use Rattle.std.specs.Prelude.{◌≡◌};
ghost use Rattle.folder_shelf.specs.declared.fault.FolderFault.TheVariants.{NoMemory};

use std::alloc::{AllocError, AllocFailed};
use std::fmt;
use std::io::{Error as IoError, ErrorKind};

/// Why a folder was not opened. Nothing that stands in it was changed, but for unfinished files under `new/`.
#[derive(Clone, Copy, Debug, PartialEq, Eq)]
pub enum FolderFault {
    /// Neither the folder nor the one above it is there.
    NotThere,
    /// What has this name is no folder.
    NotAFolder,
    /// The program may not write in the folder, or its file system takes no writes.
    NotWritable,
    /// Another process holds the folder's lock.
    InUse,
    /// There is no settings file, and the folder isn't empty.
    NoSettings,
    /// The settings file is not what was written: cut off, changed, or of another format.
    SettingsRotten,
    /// The folder is of this grid, and belongs to the server at this place, counted from 0.
    OtherPlace(u16),
    /// The folder is of a grid with other numbers of servers or shares, or with another secret.
    OtherGrid,
    /// A call of the file system failed for another reason.
    Failed,
    /// Memory was refused.
    NoMemory,
}

impl fmt::Display for FolderFault {
    fn fmt<W: fmt::Write>(&self, f: &mut fmt::Formatter<W>) -> fmt::Result {
        let words = match self {
            FolderFault::NotThere => "neither the folder nor the one above it is there",
            FolderFault::NotAFolder => "what has this name is no folder",
            FolderFault::NotWritable => "the folder can't be written",
            FolderFault::InUse => "another process serves the folder",
            FolderFault::NoSettings => "the folder has files and no settings: it is no grid's",
            FolderFault::SettingsRotten => "the folder's settings are rotten",
            FolderFault::OtherPlace(place) => return write!(
                f,
                "the folder belongs to the server at place {place} of this grid"
            ),
            FolderFault::OtherGrid => "the folder belongs to another grid",
            FolderFault::Failed => "the file system failed",
            FolderFault::NoMemory => "out of memory",
        };
        f.write_str(words)
    }
}

impl From<AllocError> for FolderFault {
    ghost from_gives = { λ _ fault. fault ≡ NoMemory };

    fn from(_: AllocError) -> Self {
        FolderFault::NoMemory
    }
}

impl<T: Drop> From<AllocFailed<T>> for FolderFault {
    ghost from_gives = { λ _ fault. fault ≡ NoMemory };

    fn from(_: AllocFailed<T>) -> Self {
        FolderFault::NoMemory
    }
}

impl From<IoError> for FolderFault {
    fn from(error: IoError) -> Self {
        match error.kind() {
            ErrorKind::NotFound => FolderFault::NotThere,
            ErrorKind::NotADirectory => FolderFault::NotAFolder,
            ErrorKind::PermissionDenied => FolderFault::NotWritable,
            ErrorKind::ReadOnlyFilesystem => FolderFault::NotWritable,
            ErrorKind::OutOfMemory => FolderFault::NoMemory,
            _ => FolderFault::Failed,
        }
    }
}
