//! Calls of a file system: whole files, and folders.
ghost use Rattle.std.specs.Prelude.{◌≡◌, ◌++◌, None, map, string_bytes, IfOk, OnOk, OnErr};
ghost use Rattle.std.specs.Option.{option_map};
ghost use Rattle.folder_shelf.specs.Steps.{Steps, with_file_step};
ghost use Rattle.folder_shelf.specs.Steps as step;

use crate::FolderFault;
use std::alloc::Global;
use std::fs::{File, OpenFile};
use std::io::{ErrorKind, Read, Write};
use std::rt::Files;
use std::{fs, io};

/// How many bytes the file of a share has, at most: those of more than a share of the largest body, and a seal.
pub const LONGEST_FILE: usize = 67_108_872;

/// How many bytes a share has that is put, at most.
pub const LONGEST_SHARE: usize = 67_108_864;

/// The bytes of a whole file that has so many, at most. `None` where what has this name is no file or a longer one: it is
/// looked at before it is opened, since a pipe would be waited for, and no more is read than that.
pub fn read_file<R: Files + AllocGlobal>(
    rt: &R,
    path: &str,
    most: usize,
) -> io::Result<Option<Vec<u8>>> {
    let found = fs::symlink_metadata(rt, path)?;
    if !found.is_file() || found.len() > most as u64 {
        return Ok(None);
    }
    let file = File::open(rt, path)?;
    let mut bytes = Vec::with_capacity(rt.alloc(), found.len() as usize)?;
    file.take((most as u64).saturating_add(1))
        .read_to_end(&mut bytes)?;
    if bytes.len() > most {
        return Ok(None);
    }
    Ok(Some(bytes))
}

/// Where a file is written, and where it stands once it is whole.
#[derive(Drop)]
pub struct Paths {
    /// The folder in which it is being written.
    pub beginnings: String,
    /// Where it is being written.
    pub unfinished: String,
    /// The folder in which it stands.
    pub folder: String,
    /// The path by which it stands there.
    pub name: String,
}

/// What a shelf or a store in a folder asks of a file system.
pub trait Disk {
    /// What was asked so far and answered, where that is known.
    ghost steps: { Self → Steps } = { λ _. None };

    /// The bytes of the file of this name, and `None` where what has it is no file, or one longer than a share's.
    fn read(&mut self, path: &str) -> io::Result<Option<Vec<u8>>>
        ensures read { IfOk result (λ text. steps self.new ≡ with_file_step (steps self.old)
            (step.read path.now (option_map (λ t. t.items) text))) }
        ensures unread { OnErr result (steps self.new ≡ with_file_step (steps self.old)
            (step.unread path.now)) };

    /// Whether a file of this name stands. What has the name and is no file is none.
    fn stands(&mut self, path: &str) -> io::Result<bool>
        ensures { IfOk result (λ found. steps self.new ≡ with_file_step (steps self.old)
            (step.found path.now found)) };

    /// Writes a file of two parts, in the place of one that stands there: it is whole whenever it has its name, and has it
    /// from then on.
    fn write(&mut self, paths: &Paths, first: &[u8], second: &[u8]) -> io::Result<()>
        ensures { OnOk result (steps self.new ≡ with_file_step (steps self.old)
            (step.wrote (string_bytes paths.now.unfinished) (string_bytes paths.now.name)
            (first.now ++ second.now))) };

    /// Takes a file away, where there is one.
    fn remove(&mut self, paths: &Paths) -> io::Result<()>
        ensures { OnOk result (steps self.new ≡ with_file_step (steps self.old)
            (step.removed (string_bytes paths.now.name))) };

    /// The names in a folder, in no order. One that is no text is left out.
    fn names_in(&mut self, folder: &str) -> io::Result<Vec<String>>
        ensures { IfOk result (λ names. steps self.new ≡ with_file_step (steps self.old)
            (step.named folder.now (map string_bytes names.items))) };

    /// The names that a folder has are there for good, whoever gave them.
    fn sync(&mut self, folder: &str) -> io::Result<()>
        ensures { OnOk result (steps self.new ≡ with_file_step (steps self.old)
            (step.synced folder.now)) };

    /// What it takes memory from.
    fn memory(&self) -> Global;
}

/// The file system of a runtime.
#[derive(Drop)]
pub struct FileDisk<R: Files + AllocGlobal + Clone + Drop> {
    pub(crate) rt: R,
    /// Whether what is written is synced.
    pub(crate) synced: bool,
}

impl<R: Files + AllocGlobal + Clone + Drop> Disk for FileDisk<R> {
    fn read(&mut self, path: &str) -> io::Result<Option<Vec<u8>>> {
        read_file(&self.rt, path, LONGEST_FILE)
    }

    fn write(&mut self, paths: &Paths, first: &[u8], second: &[u8]) -> io::Result<()> {
        self.write_whole(paths, first, second)
    }

    fn remove(&mut self, paths: &Paths) -> io::Result<()> {
        self.take_away(paths)
    }

    fn names_in(&mut self, folder: &str) -> io::Result<Vec<String>> {
        self.names_of(folder)
    }

    fn stands(&mut self, path: &str) -> io::Result<bool> {
        match fs::symlink_metadata(&self.rt, path) {
            Ok(found) => Ok(found.is_file()),
            Err(error) if error.kind() == ErrorKind::NotFound => Ok(false),
            Err(error) => Err(error),
        }
    }

    fn sync(&mut self, folder: &str) -> io::Result<()> {
        self.sync_folder(folder)
    }

    fn memory(&self) -> Global {
        self.rt.alloc()
    }
}

impl<R: Files + AllocGlobal + Clone + Drop> FileDisk<R> {
    /// The file system of this runtime, and whether what is written there is synced.
    pub fn new(rt: R, synced: bool) -> FileDisk<R>
        ensures synced { result.synced ≡ synced }
    {
        FileDisk { rt, synced }
    }

    /// Writes a file of two parts under its unfinished name, syncs it, gives it the name by which it stands, in the
    /// place of a file that stands there, and syncs the folder of that name. So it is whole whenever it has that name,
    /// and keeps the name from then on. Where that fails what is unfinished is taken away, if it can be: it would take
    /// room, on a full disk too, until that share is put again.
    pub(crate) fn write_whole(&self, paths: &Paths, first: &[u8], second: &[u8]) -> io::Result<()> {
        match self.write_and_name(paths, first, second) {
            Ok(()) => Ok(()),
            Err(error) => {
                let _ = fs::remove_file(&self.rt, paths.unfinished.as_str());
                Err(error)
            }
        }
    }

    /// Writes a file of two parts, and gives it its name. Where that fails something unfinished may be left.
    fn write_and_name(&self, paths: &Paths, first: &[u8], second: &[u8]) -> io::Result<()> {
        let mut file = self.begin(paths.beginnings.as_str(), paths.unfinished.as_str())?;
        file.write_all(first)?;
        file.write_all(second)?;
        if self.synced {
            file.sync_all()?;
        }
        self.give_name(paths)?;
        self.sync_folder(paths.folder.as_str())
    }

    /// A new file. What was left under its name is taken away, or moved aside where it is a folder, and the folder of
    /// the file is made again where it is gone.
    pub(crate) fn begin(&self, folder: &str, path: &str) -> io::Result<R::File> {
        match File::create_new(&self.rt, path) {
            Ok(file) => Ok(file),
            Err(error) => {
                match error.kind() {
                    ErrorKind::AlreadyExists => self.make_way(path)?,
                    ErrorKind::NotFound => fs::create_dir(&self.rt, folder)?,
                    _ => return Err(error),
                }
                File::create_new(&self.rt, path)
            }
        }
    }

    /// Takes away what has the name of a file that is to be written. A folder is moved aside.
    fn make_way(&self, path: &str) -> io::Result<()> {
        match fs::remove_file(&self.rt, path) {
            Ok(()) => Ok(()),
            Err(error) if error.kind() == ErrorKind::IsADirectory => self.move_aside(path, path),
            Err(error) => Err(error),
        }
    }

    /// Moves a folder to a name beside that of an unfinished file.
    fn move_aside(&self, folder: &str, unfinished: &str) -> io::Result<()> {
        let aside = format!(in self.rt.alloc(); "{unfinished}.folder")?;
        fs::rename(&self.rt, folder, aside.as_str())
    }

    /// Gives a file the name by which it stands. A folder that has that name is moved among the unfinished files, and the
    /// folder of the name is made again where it is gone.
    fn give_name(&self, paths: &Paths) -> io::Result<()> {
        let unfinished = paths.unfinished.as_str();
        let name = paths.name.as_str();
        match fs::rename(&self.rt, unfinished, name) {
            Ok(()) => Ok(()),
            Err(error) => {
                match error.kind() {
                    ErrorKind::IsADirectory => self.move_aside(name, unfinished)?,
                    ErrorKind::NotFound => fs::create_dir(&self.rt, paths.folder.as_str())?,
                    _ => return Err(error),
                }
                fs::rename(&self.rt, unfinished, name)
            }
        }
    }

    /// Takes a file away, where there is one, and syncs its folder. A folder that has its name is left alone.
    fn take_away(&self, paths: &Paths) -> io::Result<()> {
        match fs::remove_file(&self.rt, paths.name.as_str()) {
            Ok(()) => {}
            Err(error) => match error.kind() {
                ErrorKind::NotFound | ErrorKind::IsADirectory => {}
                _ => return Err(error),
            },
        }
        self.sync_folder(paths.folder.as_str())
    }

    /// Syncs the names in a folder.
    pub(crate) fn sync_folder(&self, folder: &str) -> io::Result<()> {
        if self.synced {
            File::open(&self.rt, folder)?.sync_all()?;
        }
        Ok(())
    }

    /// The names in a folder, in no order. One that is no text is left out.
    pub(crate) fn names_of(&self, folder: &str) -> io::Result<Vec<String>> {
        let mut names = Vec::new(self.rt.alloc());
        for entry in fs::read_dir(&self.rt, folder)? {
            match entry {
                Ok(entry) => names.push(String::from_str(self.rt.alloc(), entry.file_name())?)?,
                Err(error) if error.kind() == ErrorKind::InvalidFilename => {}
                Err(error) => return Err(error),
            }
        }
        Ok(names)
    }

    /// Makes a folder where there is none, and tells whether it was made. `NotThere` where the one above it isn't
    /// there, `NotAFolder` where a file has the name.
    pub(crate) fn make_folder(&self, folder: &str) -> Result<bool, FolderFault> {
        match fs::create_dir(&self.rt, folder) {
            Ok(()) => Ok(true),
            Err(error) => match fs::metadata(&self.rt, folder) {
                Ok(there) if there.is_dir() => Ok(false),
                Ok(_) => Err(FolderFault::NotAFolder),
                Err(_) => Err(FolderFault::from(error)),
            },
        }
    }
}
