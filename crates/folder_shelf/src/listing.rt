//! What stands in a folder's folders.
ghost use Rattle.std.specs.Prelude.{OnOk};
ghost use Rattle.folder_shelf.specs.Paths.{TakesName};

use crate::files::Disk;
use crate::names::{FOLDERS, folder_of, read_name};
use std::alloc::Global;
use std::io;

/// What was found.
#[derive(Drop)]
pub(crate) struct Listed {
    /// The storage index and number of each share.
    pub(crate) shares: Vec<([u8; 16], u16)>,
    /// The paths of what is no share's.
    pub(crate) strangers: Vec<String>,
}

impl Listed {
    /// Takes in a name that was found in the folder of this number. What a share's name would have in another folder is
    /// no share's here.
    fn take(&mut self, alloc: Global, folder: &str, number: u8, name: &str) -> io::Result<()>
        ensures { OnOk result (TakesName number name.now
            self.old.shares.items self.new.shares.items) }
    {
        if let Some(share) = read_name(alloc, name)? {
            if folder_of(&share.0) == number {
                self.shares.push(share)?;
                return Ok(());
            }
        }
        self.strangers.push(format!(in alloc; "{folder}/{name}")?)?;
        Ok(())
    }
}

/// All shares, in order, and the strangers among them.
pub(crate) fn list<D: Disk>(disk: &mut D, top: &str) -> io::Result<Listed> {
    let alloc = disk.memory();
    let mut listed = Listed {
        shares: Vec::new(alloc),
        strangers: Vec::new(alloc),
    };
    for number in 0..FOLDERS {
        let folder = format!(in alloc; "{top}/{number}")?;
        for name in &disk.names_in(folder.as_str())? {
            listed.take(alloc, folder.as_str(), number, name.as_str())?;
        }
    }
    listed.shares.sort()?;
    Ok(listed)
}
