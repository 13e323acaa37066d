//! The shelf.
ghost use Rattle.std.specs.FinMap.{empty};
ghost use Rattle.std.specs.Prelude.{◌≡◌, ◌≤◌, ◌<◌, ◌+◌, ◌-◌, ◌^◌, ◌==◌, ◌↔◌, ℕ, [], Some, false, length, string_bytes, IfOk, IfSome, OnOk, IsErrOf, if◌then◌else◌};
ghost use Rattle.std.specs.Rc.{rc_slice_items};
ghost use Rattle.share_shelf.specs.CrashStates.{IsQuiet};
ghost use Rattle.folder_shelf.specs.Paths.{share_path, unfinished_path};
ghost use Rattle.folder_shelf.specs.Sealed.{sealed};
ghost use Rattle.folder_shelf.specs.Steps.{with_file_step};
ghost use Rattle.folder_shelf.specs.Steps as step;

use crate::file_text::seal_of;
use crate::files::{Disk, FileDisk, LONGEST_SHARE, Paths};
use crate::listing::list;
use crate::share_files::{Unread, paths_of, read_share};
use crate::{FolderFault, StoreSettings};
use share_shelf::{Shelf, ShelfFault};
use std::alloc::{AllocError, Global};
use std::io::ErrorKind;
use std::rc::RcSlice;
use std::rt::Files;

/// How many rotten files are noted: a server that is read for years asks for one that it can't use again and again.
const MOST_NOTED: usize = 4_096;

/// A shelf in a folder of a file system.
pub type FileShelf<R> = FolderShelf<FileDisk<R>>;

/// A shelf in a folder of files. What has the name of a share's file and is none of at most 67,108,872 bytes, or is not what
/// was written, is rotten: it is left alone until a share is put in its place. It isn't honest, since no contract says what files give.
pub struct FolderShelf<D: Disk + Drop> {
    disk: D,
    top: String,
    failures: u64,
    rotten: Vec<String>,
    strangers: Vec<String>,
}

// Its own, so that what owns one calls it: a derived drop is spelled out wherever a value may be dropped.
impl<D: Disk + Drop> Drop for FolderShelf<D> {
    fn drop(self) {
        let FolderShelf {
            disk: _,
            top: _,
            failures: _,
            rotten: _,
            strangers: _,
        } = self;
    }
}

impl<R: Files + AllocGlobal + Clone + Drop> FolderShelf<FileDisk<R>> {
    /// The shelf in this folder, which is made where it isn't there and the one above it is. A folder with nothing in
    /// it gets these settings; one with others is refused before anything else of it is read. Files that were not whole
    /// are taken away. The caller holds the folder's lock. Each [`FolderFault`] says when it comes.
    ///
    /// Where `synced` is `false` a crash of the machine, and not one of the process, may take back the last changes or
    /// leave files of them rotten.
    pub fn open(
        rt: R,
        folder: &str,
        settings: &StoreSettings,
        synced: bool,
    ) -> Result<FileShelf<R>, FolderFault> {
        let top = String::from_str(rt.alloc(), folder)?;
        let disk = FileDisk { rt, synced };
        disk.prepare(folder, settings)?;
        Ok(FolderShelf::over(disk, top))
    }

    /// The shelf in this folder, which has these settings and is only to be read: nothing is written, and what isn't whole
    /// stays where it is.
    pub fn open_to_read(
        rt: R,
        folder: &str,
        settings: &StoreSettings,
    ) -> Result<FileShelf<R>, FolderFault> {
        let top = String::from_str(rt.alloc(), folder)?;
        let disk = FileDisk { rt, synced: true };
        disk.check(folder, settings)?;
        Ok(FolderShelf::over(disk, top))
    }
}

impl<D: Disk + Drop> FolderShelf<D> {
    /// The shelf in this folder of a file system, which is as it is to be. Nothing of it is read.
    pub fn over(disk: D, top: String) -> FolderShelf<D>
        ensures disk { result.disk ≡ disk }
        ensures top { result.top ≡ top }
        ensures failures { result.failures ≡ 0 }
    {
        let alloc = disk.memory();
        FolderShelf {
            disk,
            top,
            failures: 0,
            rotten: Vec::new(alloc),
            strangers: Vec::new(alloc),
        }
    }

    /// The paths of the files that were read so far and are not what was written: cut off, changed, or none. They were
    /// left out and left alone. Each stands once, and the first 4,096 do.
    pub fn rotten(&self) -> &[String] {
        &self.rotten
    }

    /// Notes the path of a rotten file, once.
    fn note_rotten(&mut self, path: String) -> Result<(), AllocError>
        ensures failures { self.new.failures ≡ self.old.failures }
        ensures disk { self.new.disk ≡ self.old.disk }
        ensures top { self.new.top ≡ self.old.top }
    {
        if self.rotten.len() >= MOST_NOTED {
            return Ok(());
        }
        for noted in &self.rotten {
            if noted.as_str() == path.as_str() {
                return Ok(());
            }
        }
        self.rotten.push(path)?;
        Ok(())
    }

    /// The paths among the shares that are no share's, as the last [`Shelf::list`] found them. They were left alone.
    pub fn strangers(&self) -> &[String] {
        &self.strangers
    }

    /// Counts a failure. Where no more can be counted it says that there was no memory.
    fn fail(&mut self) -> ShelfFault
        ensures fault { result
            ≡ (if self.old.failures == 2 ^ 64 - 1 then ShelfFault.NoMemory else ShelfFault.Failed) }
        ensures failures { self.new.failures ≡ (if self.old.failures == 2 ^ 64 - 1 then self.old.failures
            else self.old.failures + 1) }
        ensures disk { self.new.disk ≡ self.old.disk }
        ensures top { self.new.top ≡ self.old.top }
    {
        if self.failures == u64::MAX {
            return ShelfFault::NoMemory;
        }
        self.failures += 1;
        ShelfFault::Failed
    }

    /// The paths of a share's file.
    fn paths_of(&self, index: &[u8; 16], number: u16) -> Result<Paths, AllocError>
        ensures name { IfOk result (λ paths. string_bytes paths.name
            ≡ share_path (string_bytes self.now.top) index.now number) }
        ensures unfinished { IfOk result (λ paths. string_bytes paths.unfinished
            ≡ unfinished_path (string_bytes self.now.top) index.now number []) }
    {
        paths_of(self.disk.memory(), self.top.as_str(), index, number, "")
    }
}

impl<D: Disk + Drop> Shelf for FolderShelf<D> {
    ghost honest = { λ shelf. false };

    ghost moment = { λ shelf. 0 };

    ghost left_since = { λ shelf t c. Unit {0} };

    ghost shares = { λ shelf. empty };

    ghost failures = { λ shelf. shelf.failures };

    fn list(&mut self, alloc: Global) -> Result<Vec<([u8; 16], u16)>, ShelfFault> {
        match list(&mut self.disk, self.top.as_str()) {
            Ok(listed) => {
                self.strangers = listed.strangers;
                Ok(listed.shares)
            }
            Err(error) if error.kind() == ErrorKind::OutOfMemory => Err(ShelfFault::NoMemory),
            Err(_) => Err(self.fail()),
        }
    }

    /// The bytes of the file with their seal taken away, where it has any and is what was written.
    fn read(&mut self, index: [u8; 16], number: u16) -> Result<Option<RcSlice<u8>>, ShelfFault>
        ensures quiet { IsQuiet ⟦<FolderShelf<D> as Shelf>⟧.moment
            ⟦<FolderShelf<D> as Shelf>⟧.left_since self.old self.new }
        ensures rises { self.old.failures ≤ self.new.failures }
        ensures failed { IsErrOf result ShelfFault.Failed ↔ (self.old.failures < self.new.failures) }
        ensures some { IfOk result (λ share. IfSome share (λ bytes.
            0 < length (rc_slice_items bytes))) }
        ensures given { IfOk result (λ share. IfSome share (λ bytes.
            D.steps self.new.disk ≡ with_file_step (D.steps self.old.disk)
            (step.read (share_path (string_bytes self.old.top) index number)
            (Some (sealed (rc_slice_items bytes)))))) }
        ensures top { self.new.top ≡ self.old.top }
    {
        let paths = self.paths_of(&index, number)?;
        match read_share(&mut self.disk, paths.name.as_str()) {
            Ok(bytes) => Ok(Some(RcSlice::from_vec(bytes)?)),
            Err(Unread::NotThere) => Ok(None),
            Err(Unread::Rotten) => {
                self.note_rotten(paths.name)?;
                Ok(None)
            }
            Err(Unread::NoMemory) => Err(ShelfFault::NoMemory),
            Err(Unread::Failed) => Err(self.fail()),
        }
    }

    /// The bytes are written with their seal behind them, under the name of the share.
    #[tactic(auto, unfolding(crate::specs::Sealed::sealed))]
    fn put(&mut self, index: [u8; 16], number: u16, bytes: RcSlice<u8>) -> Result<(), ShelfFault>
        requires { 0 < length (rc_slice_items bytes) }
        ensures rises { self.old.failures ≤ self.new.failures }
        ensures failed { IsErrOf result ShelfFault.Failed ↔ (self.old.failures < self.new.failures) }
        ensures written { OnOk result (D.steps self.new.disk ≡ with_file_step (D.steps self.old.disk)
            (step.wrote (unfinished_path (string_bytes self.old.top) index number [])
            (share_path (string_bytes self.old.top) index number)
            (sealed (rc_slice_items bytes)))) }
        ensures top { self.new.top ≡ self.old.top }
    {
        if bytes.len() > LONGEST_SHARE {
            return Err(self.fail());
        }
        let paths = self.paths_of(&index, number)?;
        let seal = seal_of(bytes.as_slice());
        match self.disk.write(&paths, bytes.as_slice(), &seal) {
            Ok(()) => Ok(()),
            Err(_) => Err(self.fail()),
        }
    }

    /// The file of the share is taken away.
    fn remove(&mut self, index: [u8; 16], number: u16) -> Result<(), ShelfFault>
        ensures rises { self.old.failures ≤ self.new.failures }
        ensures failed { IsErrOf result ShelfFault.Failed ↔ (self.old.failures < self.new.failures) }
        ensures removed { OnOk result (D.steps self.new.disk ≡ with_file_step (D.steps self.old.disk)
            (step.removed (share_path (string_bytes self.old.top) index number))) }
        ensures top { self.new.top ≡ self.old.top }
    {
        let paths = self.paths_of(&index, number)?;
        match self.disk.remove(&paths) {
            Ok(()) => Ok(()),
            Err(_) => Err(self.fail()),
        }
    }

    ghost narrows = { λ shelf t u c le left. tt };

    ghost keeps = { λ shelf m honest keeps. cc };
}
