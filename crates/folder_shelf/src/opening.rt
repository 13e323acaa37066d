//! How a folder is opened.
use crate::files::{FileDisk, Paths, read_file};
use crate::names::FOLDERS;
use crate::sealed_settings::TEXT;
use crate::settings_file::{check_settings, settings_text};
use crate::{FolderFault, StoreSettings};
use std::fs;
use std::fs::{File, OpenFile, OpenOptions, TryLockError};
use std::io::{ErrorKind, Write};
use std::rt::Files;

/// The lock of a folder, held until it is dropped, or until the process ends in whatever way. Where the file system takes
/// no writes there is none: nobody writes there.
#[derive(Drop)]
pub struct FolderLock {
    file: Option<File>,
}

impl FolderLock {
    /// Takes the lock of a folder, which is made where it isn't there and the one above it is. `InUse` where another
    /// process holds it. It is to be taken before the shelf is opened, and kept until the shelf is no longer used.
    pub fn take<R: Files<File = File> + AllocGlobal + Clone + Drop>(
        rt: &R,
        folder: &str,
    ) -> Result<FolderLock, FolderFault> {
        let Some(file) = open_lock(rt, folder)? else {
            return Ok(FolderLock { file: None });
        };
        let answer = file.try_lock();
        held(file, answer)
    }

    /// Takes the lock of a folder together with others who take it so, as [`FolderLock::take`] does for one process alone:
    /// `InUse` where another process holds it alone.
    pub fn take_shared<R: Files<File = File> + AllocGlobal + Clone + Drop>(
        rt: &R,
        folder: &str,
    ) -> Result<FolderLock, FolderFault> {
        let Some(file) = open_lock(rt, folder)? else {
            return Ok(FolderLock { file: None });
        };
        let answer = file.try_lock_shared();
        held(file, answer)
    }
}

/// The file that is locked, in a folder that is made where it isn't there. `None` where the file system takes no writes.
/// It is opened to be read too: over NFS a shared lock needs that.
fn open_lock<R: Files<File = File> + AllocGlobal + Clone + Drop>(
    rt: &R,
    folder: &str,
) -> Result<Option<File>, FolderFault> {
    FileDisk::new(rt.clone()?, true).make_top(folder)?;
    let path = format!(in rt.alloc(); "{folder}/lock")?;
    if let Ok(found) = fs::symlink_metadata(rt, path.as_str()) {
        // a pipe would be waited for
        if !found.is_file() {
            return Err(FolderFault::Failed);
        }
    }
    match OpenOptions::new()
        .read(true)
        .write(true)
        .create(true)
        .open(rt, path.as_str())
    {
        Ok(file) => Ok(Some(file)),
        Err(error) if error.kind() == ErrorKind::ReadOnlyFilesystem => Ok(None),
        Err(error) => Err(FolderFault::from(error)),
    }
}

/// The lock on a file, where it was given.
fn held(file: File, answer: Result<(), TryLockError>) -> Result<FolderLock, FolderFault> {
    match answer {
        Ok(()) => Ok(FolderLock { file: Some(file) }),
        Err(TryLockError::WouldBlock) => Err(FolderFault::InUse),
        Err(TryLockError::Error(_)) => Err(FolderFault::Failed),
    }
}

/// The folder above a folder.
fn above(folder: &str) -> &str {
    match folder.trim_end_matches('/').rsplit_once('/') {
        Some(("", _)) => "/",
        Some((above, _)) => above,
        None => ".",
    }
}

impl<R: Files + AllocGlobal + Clone + Drop> FileDisk<R> {
    /// Makes a folder where there is none, and syncs its name.
    fn make_top(&self, top: &str) -> Result<(), FolderFault> {
        if self.make_folder(top)? {
            self.sync_folder(above(top))?;
        }
        Ok(())
    }

    /// Makes the folder ready for a shelf: it and the folders in it are there, its settings are these, nothing is
    /// unfinished, and what stands in it is synced.
    pub(crate) fn prepare(&self, top: &str, settings: &StoreSettings) -> Result<(), FolderFault> {
        let alloc = self.rt.alloc();
        self.make_top(top)?;
        let unfinished = format!(in alloc; "{top}/new")?;
        self.own(top, unfinished.as_str(), settings)?;
        self.make_folder(unfinished.as_str())?;
        self.clear(unfinished.as_str())?;
        self.make_folders(top)
    }

    /// Makes the folder ready for one of several processes that use it at once, as [`FileDisk::prepare`] does for one
    /// alone. The settings of whoever came first stand. What is unfinished stays, since others may be writing it; the
    /// tag stands behind the names of what this process writes there, and no other has the same.
    pub fn prepare_shared(
        &self,
        top: &str,
        settings: &StoreSettings,
        tag: &str,
    ) -> Result<(), FolderFault> {
        let alloc = self.rt.alloc();
        self.make_top(top)?;
        let unfinished = format!(in alloc; "{top}/new")?;
        self.own_shared(top, unfinished.as_str(), settings, tag)?;
        self.make_folder(unfinished.as_str())?;
        // a folder that can't be written is refused here, and not at the first share
        let probe = format!(in alloc; "{unfinished}/probe{tag}")?;
        let _probe = self.begin(unfinished.as_str(), probe.as_str())?;
        fs::remove_file(&self.rt, probe.as_str())?;
        self.make_folders(top)
    }

    /// Makes the folders of shares, and syncs what stands in them and above them.
    fn make_folders(&self, top: &str) -> Result<(), FolderFault> {
        let alloc = self.rt.alloc();
        for number in 0..FOLDERS {
            let folder = format!(in alloc; "{top}/{number}")?;
            self.make_folder(folder.as_str())?;
            // a process that was ended may have left names there that aren't synced
            self.sync_folder(folder.as_str())?;
        }
        self.sync_folder(top)?;
        Ok(())
    }

    /// Checks the settings of a folder. `NoSettings` where it has none.
    pub(crate) fn check(&self, top: &str, settings: &StoreSettings) -> Result<(), FolderFault> {
        let path = format!(in self.rt.alloc(); "{top}/grid")?;
        match read_file(&self.rt, path.as_str(), TEXT) {
            Ok(Some(text)) => check_settings(self.rt.alloc(), &text, settings),
            Ok(None) => Err(FolderFault::SettingsRotten),
            Err(error) if error.kind() == ErrorKind::NotFound => Err(FolderFault::NoSettings),
            Err(error) => Err(FolderFault::from(error)),
        }
    }

    /// Checks the settings of a folder, and writes them where the folder is new. They are synced, whatever else is.
    fn own(
        &self,
        top: &str,
        unfinished: &str,
        settings: &StoreSettings,
    ) -> Result<(), FolderFault> {
        let alloc = self.rt.alloc();
        let path = format!(in alloc; "{top}/grid")?;
        match read_file(&self.rt, path.as_str(), TEXT) {
            Ok(Some(text)) => check_settings(alloc, &text, settings),
            Ok(None) => Err(FolderFault::SettingsRotten),
            Err(error) if error.kind() == ErrorKind::NotFound => {
                if !self.is_new(top)? {
                    return Err(FolderFault::NoSettings);
                }
                self.make_folder(unfinished)?;
                let paths = Paths {
                    beginnings: String::from_str(alloc, unfinished)?,
                    unfinished: format!(in alloc; "{unfinished}/grid")?,
                    folder: String::from_str(alloc, top)?,
                    name: path,
                };
                let text = settings_text(alloc, settings)?;
                let disk = FileDisk {
                    rt: self.rt.clone()?,
                    synced: true,
                };
                disk.write_whole(&paths, &text, &[])?;
                Ok(())
            }
            Err(error) => Err(FolderFault::from(error)),
        }
    }

    /// Checks the settings of a folder, and puts them there where none are and it is new. Others may do the same: a file
    /// with whole settings gets the name where none has it, and then those that stand are checked, whoever put them.
    fn own_shared(
        &self,
        top: &str,
        unfinished: &str,
        settings: &StoreSettings,
        tag: &str,
    ) -> Result<(), FolderFault> {
        match self.check(top, settings) {
            Err(FolderFault::NoSettings) => {}
            checked => return checked,
        }
        if self.is_new(top)? {
            // the one who made the folder may not have synced its name yet
            self.sync_folder(above(top))?;
            self.make_folder(unfinished)?;
            self.offer_settings(top, unfinished, settings, tag)?;
        }
        self.check(top, settings)
    }

    /// Puts the settings of a folder where none stand. They are synced, whatever else is.
    fn offer_settings(
        &self,
        top: &str,
        unfinished: &str,
        settings: &StoreSettings,
        tag: &str,
    ) -> Result<(), FolderFault> {
        let alloc = self.rt.alloc();
        let offered = format!(in alloc; "{unfinished}/grid{tag}")?;
        let path = format!(in alloc; "{top}/grid")?;
        let text = settings_text(alloc, settings)?;
        let mut file = self.begin(unfinished, offered.as_str())?;
        file.write_all(&text)?;
        file.sync_all()?;
        match fs::hard_link(&self.rt, offered.as_str(), path.as_str()) {
            Ok(()) => {}
            Err(error) if error.kind() == ErrorKind::AlreadyExists => {}
            Err(error) => return Err(FolderFault::from(error)),
        }
        fs::remove_file(&self.rt, offered.as_str())?;
        Ok(FileDisk::new(self.rt.clone()?, true).sync_folder(top)?)
    }

    /// Whether nothing stands in a folder but what is there before its settings are.
    fn is_new(&self, top: &str) -> Result<bool, FolderFault> {
        let names = self.names_of(top)?;
        Ok(
            names
                .iter()
                .all(|name| name.as_str() == "lock" || name.as_str() == "new"),
        )
    }

    /// Takes away the files that were being written. A file is made first, so that a folder that can't be written is
    /// refused here and not at the first share.
    fn clear(&self, unfinished: &str) -> Result<(), FolderFault> {
        let alloc = self.rt.alloc();
        let probe = format!(in alloc; "{unfinished}/probe")?;
        let _probe = self.begin(unfinished, probe.as_str())?;
        for name in &self.names_of(unfinished)? {
            let path = format!(in alloc; "{unfinished}/{name}")?;
            if !fs::symlink_metadata(&self.rt, path.as_str())?.is_dir() {
                fs::remove_file(&self.rt, path.as_str())?;
            }
        }
        Ok(())
    }
}
