//! In what the settings of a folder are others than those that are wanted.
ghost use Rattle.std.specs.Prelude.{◌≡◌, MatchResult};
ghost use Rattle.folder_shelf.specs.SettingsText.{settings_text};
ghost use Rattle.server_stores.specs.Differences.{IsDifference, IsTold, Tells};

use crate::fault::ProgramFault;
use folder_shelf::{FolderFault, StoreSettings, check_settings, read_settings};
use std::alloc::Global;
use std::fmt;

/// A number that is another one than is wanted.
#[derive(Clone, Copy, PartialEq, Eq)]
pub struct OtherNumber {
    /// The one that is there.
    pub there: u16,
    /// The one that is wanted.
    pub wanted: u16,
}

/// In what the settings of a folder are others than those that are wanted.
#[derive(Clone, Copy, PartialEq, Eq)]
pub struct Difference {
    /// The place of its server.
    pub place: Option<OtherNumber>,
    /// How many servers its grid has.
    pub servers: Option<OtherNumber>,
    /// How many shares give a file back.
    pub needed: Option<OtherNumber>,
    /// How many shares are made of a file.
    pub made: Option<OtherNumber>,
    /// Whether the secret is another one.
    pub secret: bool,
}

impl Difference {
    /// In what these settings are others than those that are wanted.
    pub fn between(there: &StoreSettings, wanted: &StoreSettings) -> Difference
        ensures { IsDifference there.now wanted.now result }
    {
        Difference {
            place: other_number(there.place, wanted.place),
            servers: other_number(there.servers, wanted.servers),
            needed: other_number(there.needed, wanted.needed),
            made: other_number(there.made, wanted.made),
            secret: there.secret != wanted.secret,
        }
    }
}

/// A number, if it is another one than is wanted.
fn other_number(there: u16, wanted: u16) -> Option<OtherNumber>
    ensures { IsTold result there wanted }
{
    if there == wanted {
        None
    } else {
        Some(OtherNumber { there, wanted })
    }
}

/// Refuses the text of a settings file that isn't of these settings, and says why. `NoMemory` where memory is refused.
pub fn judge(alloc: Global, text: &[u8], wanted: &StoreSettings) -> Result<(), ProgramFault>
    ensures { MatchResult result (λ _. text.now ≡ settings_text wanted.now)
        (λ fault. Tells fault text.now wanted.now) }
{
    match check_settings(alloc, text, wanted) {
        Ok(()) => Ok(()),
        Err(FolderFault::OtherGrid) => match read_settings(alloc, text) {
            Ok(Some(there)) => Err(ProgramFault::OtherGrid(Difference::between(&there, wanted))),
            Ok(None) => Err(ProgramFault::Folder(FolderFault::SettingsRotten)),
            Err(_) => Err(ProgramFault::NoMemory),
        },
        Err(FolderFault::NoMemory) => Err(ProgramFault::NoMemory),
        Err(fault) => Err(ProgramFault::Folder(fault)),
    }
}

impl fmt::Display for Difference {
    fn fmt<W: fmt::Write>(&self, f: &mut fmt::Formatter<W>) -> fmt::Result {
        write!(f, "the folder belongs to another grid:")?;
        if let Some(place) = &self.place {
            write!(f, " place {} and not {};", place.there, place.wanted)?;
        }
        if let Some(servers) = &self.servers {
            write!(f, " {} servers and not {};", servers.there, servers.wanted)?;
        }
        if let Some(needed) = &self.needed {
            write!(
                f,
                " {} shares needed and not {};",
                needed.there, needed.wanted
            )?;
        }
        if let Some(made) = &self.made {
            write!(f, " {} shares made and not {};", made.there, made.wanted)?;
        }
        if self.secret {
            write!(f, " another secret")
        } else {
            write!(f, " the same secret")
        }
    }
}
