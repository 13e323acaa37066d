//! The store.
ghost use Rattle.std.specs.FinMap as map;
ghost use Rattle.std.specs.Prelude.{◌≡◌, ◌≤◌, ◌<◌, ◌+◌, ◌↔◌, ◌++◌, ◌∷◌, [], None, Some, false, length, string_bytes, IfOk, IfSome, OnOk, OnErr, IsOkAnd, IsErrOf};
ghost use Rattle.std.specs.Option.{option_map};
ghost use Rattle.std.specs.Rc.{rc_slice_items};
ghost use Rattle.folder_shelf.specs.Paths.{share_path};
ghost use Rattle.folder_shelf.specs.Sealed.{sealed};
ghost use Rattle.folder_shelf.specs.Steps.{with_file_step};
ghost use Rattle.folder_shelf.specs.Steps as step;
ghost use Rattle.shared_folder.specs.Asked.{AreFilesFound, IsFileFound, IsFileRead, IsFileRemoved, IsFilePut, with_number};
ghost use Rattle.shared_folder.specs.Tags.{tag_text};

use crate::SharedFault;
use crate::fault::fault_of_write;
use crate::tag::spell_tag;
use folder_shelf::{
    Disk, FileDisk, FolderFault, FolderLock, LONGEST_SHARE, Paths, StoreSettings, Unread, path_of,
    paths_of, read_share, seal_of,
};
use share_store::{Share, Store, StoreFault};
use std::alloc::{AllocError, Global};
use std::rc::RcSlice;
use std::rt::Files;

/// A store in a folder of a runtime's file system, with the folder's lock.
pub type FileFolder<R> = SharedFolder<FileDisk<R>, FolderLock>;

/// How a folder is opened that others use at the same time.
#[derive(Clone, Copy)]
pub struct SharedOpening<'a> {
    /// Its path.
    pub folder: &'a str,
    /// Whose it is to be.
    pub settings: StoreSettings,
    /// Random bytes of this process. No other that uses the folder has the same.
    pub random: [u8; 16],
    /// Whether changes are synced.
    pub synced: bool,
}

/// A store of shares in a folder of files, which others may use at the same time. It has no index: each call asks the
/// file system. It isn't honest, since no contract says what files give, and since others put shares between two
/// calls.
pub struct SharedFolder<D: Disk + Drop, L: Drop> {
    disk: D,
    top: String,
    /// What stands behind the names of this process's unfinished files.
    tag: String,
    /// How many shares are made of a file.
    made: u16,
    failures: u64,
    last_fault: Option<SharedFault>,
    /// Held for as long as the store is there.
    lock: L,
}

// Its own, so that what owns one calls it: a derived drop is spelled out wherever a value may be dropped.
impl<D: Disk + Drop, L: Drop> Drop for SharedFolder<D, L> {
    fn drop(self) {
        let SharedFolder {
            disk: _,
            top: _,
            tag: _,
            made: _,
            failures: _,
            last_fault: _,
            lock: _,
        } = self;
    }
}

impl<R: Files + AllocGlobal + Clone + Drop, L: Drop> SharedFolder<FileDisk<R>, L> {
    /// The store in this folder, which is made where it isn't there and the one above it is. A folder with nothing in it
    /// gets these settings, unless another process comes first, whose settings are compared; one with others is refused
    /// before anything else of it is read. Each [`FolderFault`] says when it comes. The lock is the folder's, taken
    /// together with others ([`FolderLock::take_shared`]).
    ///
    /// Where `synced` is `false` a crash of the machine, and not one of a process, may take back the last changes or
    /// leave files of them rotten.
    pub fn open(
        rt: R,
        lock: L,
        opening: &SharedOpening<'_>,
    ) -> Result<SharedFolder<FileDisk<R>, L>, FolderFault>
        ensures lock { IfOk result (λ store. store.lock ≡ lock) }
        ensures top { IfOk result (λ store. string_bytes store.top ≡ opening.now.folder.now) }
        ensures tag { IfOk result (λ store. string_bytes store.tag ≡ tag_text opening.now.random) }
        ensures made { IfOk result (λ store. store.made ≡ opening.now.settings.made) }
        ensures failures { IfOk result (λ store. store.failures ≡ 0) }
        ensures last_fault { IfOk result (λ store. store.last_fault ≡ None) }
    {
        let disk = FileDisk::new(rt, opening.synced);
        let made = opening.settings.made;
        let store = SharedFolder::over(disk, lock, opening.folder, &opening.random, made)?;
        store
            .disk
            .prepare_shared(opening.folder, &opening.settings, store.tag.as_str())?;
        Ok(store)
    }
}

impl<D: Disk + Drop, L: Drop> SharedFolder<D, L> {
    /// The store in this folder of a file system, which is as it is to be, of a grid that makes so many shares of a file.
    /// Nothing is asked yet. Refused where memory is.
    pub fn over(
        disk: D,
        lock: L,
        folder: &str,
        random: &[u8; 16],
        made: u16,
    ) -> Result<SharedFolder<D, L>, AllocError>
        ensures disk { IfOk result (λ store. store.disk ≡ disk) }
        ensures lock { IfOk result (λ store. store.lock ≡ lock) }
        ensures top { IfOk result (λ store. string_bytes store.top ≡ folder.now) }
        ensures tag { IfOk result (λ store. string_bytes store.tag ≡ tag_text random.now) }
        ensures made { IfOk result (λ store. store.made ≡ made) }
        ensures failures { IfOk result (λ store. store.failures ≡ 0) }
        ensures last_fault { IfOk result (λ store. store.last_fault ≡ None) }
    {
        let alloc = disk.memory();
        let top = String::from_str(alloc, folder)?;
        let tag = spell_tag(alloc, random)?;
        Ok(SharedFolder {
            disk,
            top,
            tag,
            made,
            failures: 0,
            last_fault: None,
            lock,
        })
    }

    /// Why the store failed when it last did, or was full.
    pub fn last_fault(&self) -> Option<SharedFault>
        ensures { result ≡ self.now.last_fault }
    {
        self.last_fault
    }

    /// Counts a failure. Where no more can be counted it is refused as one for which there was no memory.
    fn count(&mut self, fault: SharedFault) -> Result<(), AllocError>
        ensures counted { OnOk result (self.new.failures ≡ self.old.failures + 1) }
        ensures uncounted { OnErr result (self.new.failures ≡ self.old.failures) }
        ensures last_fault { self.new.last_fault ≡ Some fault }
        ensures disk { self.new.disk ≡ self.old.disk }
        ensures same { (self.new.top ≡ self.old.top) × (self.new.tag ≡ self.old.tag)
            × (self.new.made ≡ self.old.made) }
    {
        self.last_fault = Some(fault);
        if self.failures == u64::MAX {
            return Err(AllocError);
        }
        self.failures += 1;
        Ok(())
    }

    /// Counts a change that is refused because the folder gave no answer, and says why.
    fn refuse(&mut self, fault: SharedFault) -> StoreFault
        ensures down { (result ≡ StoreFault.Down) ↔ (self.old.failures < self.new.failures) }
        ensures rises { self.old.failures ≤ self.new.failures }
        ensures not_full { result ≡ StoreFault.Full → ⊥ }
        ensures last_fault { self.new.last_fault ≡ Some fault }
        ensures disk { self.new.disk ≡ self.old.disk }
        ensures same { (self.new.top ≡ self.old.top) × (self.new.tag ≡ self.old.tag)
            × (self.new.made ≡ self.old.made) }
    {
        match self.count(fault) {
            Ok(()) => StoreFault::Down,
            Err(_) => StoreFault::NoMemory,
        }
    }

    /// The path of a share's file.
    fn path_of(&self, index: &[u8; 16], number: u16) -> Result<String, AllocError>
        ensures { IfOk result (λ path. string_bytes path
            ≡ share_path (string_bytes self.now.top) index.now number) }
    {
        path_of(self.disk.memory(), self.top.as_str(), index, number)
    }

    /// The bytes of a share. None where there is no file of it, or a rotten one.
    fn fetch(&mut self, index: &[u8; 16], number: u16) -> Result<Option<RcSlice<u8>>, SharedFault>
        ensures given { IfOk result (λ share. IsFileRead
            (share_path (string_bytes self.old.top) index.now number)
            (option_map rc_slice_items share) (D.steps self.old.disk) (D.steps self.new.disk)) }
        ensures some { IfOk result (λ share. IfSome share (λ bytes.
            0 < length (rc_slice_items bytes))) }
        ensures same { (self.new.top ≡ self.old.top) × (self.new.tag ≡ self.old.tag)
            × (self.new.made ≡ self.old.made) }
        ensures failures { self.new.failures ≡ self.old.failures }
    {
        let path = self.path_of(index, number)?;
        match read_share(&mut self.disk, path.as_str()) {
            Ok(bytes) => Ok(Some(RcSlice::from_vec(bytes)?)),
            Err(Unread::NotThere | Unread::Rotten) => Ok(None),
            Err(Unread::NoMemory) => Err(SharedFault::NoMemory),
            Err(Unread::Failed) => Err(SharedFault::Failed),
        }
    }

    /// Whether a share's file stands. It may be rotten.
    fn stands(&mut self, index: &[u8; 16], number: u16) -> Result<bool, SharedFault>
        ensures found { IfOk result (λ found. IsFileFound
            (share_path (string_bytes self.old.top) index.now number) found
            (D.steps self.old.disk) (D.steps self.new.disk)) }
        ensures same { (self.new.top ≡ self.old.top) × (self.new.tag ≡ self.old.tag)
            × (self.new.made ≡ self.old.made) }
        ensures failures { self.new.failures ≡ self.old.failures }
    {
        let path = self.path_of(index, number)?;
        Ok(self.disk.stands(path.as_str())?)
    }

    /// The numbers of the shares whose files stand under an index, rising.
    fn standing(&mut self, index: &[u8; 16]) -> Result<Vec<u16>, SharedFault>
        ensures found { IfOk result (λ numbers. AreFilesFound
            (string_bytes self.old.top) index.now self.old.made numbers.items
            (D.steps self.old.disk) (D.steps self.new.disk)) }
        ensures same { (self.new.top ≡ self.old.top) × (self.new.tag ≡ self.old.tag)
            × (self.new.made ≡ self.old.made) }
        ensures failures { self.new.failures ≡ self.old.failures }
    {
        let mut numbers = Vec::new(self.disk.memory());
        for number in 0..self.made {
            let found = self.stands(index, number)?;
            push_if(&mut numbers, number, found)?;
        }
        Ok(numbers)
    }

    /// Puts a share's bytes where no whole share stands, and says whether it did. Where one stands its folder is synced:
    /// whoever put it may not have done so yet, and what is answered here has to outlive a crash.
    fn offer(&mut self, index: &[u8; 16], number: u16, share: &[u8]) -> Result<bool, SharedFault>
        ensures put { IfOk result (λ put. IsFilePut (string_bytes self.old.top) index.now number
            (string_bytes self.old.tag) share.now put
            (D.steps self.old.disk) (D.steps self.new.disk)) }
        ensures of_grid { OnOk result ((number < self.old.made)
            × (length share.now ≤ 67108864)) }
        ensures same { (self.new.top ≡ self.old.top) × (self.new.tag ≡ self.old.tag)
            × (self.new.made ≡ self.old.made) }
        ensures failures { self.new.failures ≡ self.old.failures }
    {
        if number >= self.made || share.len() > LONGEST_SHARE {
            return Err(SharedFault::NoShare);
        }
        let alloc = self.disk.memory();
        let paths = paths_of(alloc, self.top.as_str(), index, number, self.tag.as_str())?;
        match read_share(&mut self.disk, paths.name.as_str()) {
            Ok(_) => {
                self.disk.sync(paths.folder.as_str())?;
                Ok(false)
            }
            Err(Unread::NotThere | Unread::Rotten) => {
                self.write(&paths, share)?;
                Ok(true)
            }
            Err(Unread::NoMemory) => Err(SharedFault::NoMemory),
            Err(Unread::Failed) => Err(SharedFault::Failed),
        }
    }

    /// Writes a share's bytes with their seal.
    #[tactic(auto, unfolding(folder_shelf::specs::Sealed::sealed))]
    fn write(&mut self, paths: &Paths, share: &[u8]) -> Result<(), SharedFault>
        ensures wrote { OnOk result (D.steps self.new.disk
            ≡ with_file_step (D.steps self.old.disk) (step.wrote (string_bytes paths.now.unfinished)
            (string_bytes paths.now.name) (sealed share.now))) }
        ensures same { (self.new.top ≡ self.old.top) × (self.new.tag ≡ self.old.tag)
            × (self.new.made ≡ self.old.made) }
        ensures failures { self.new.failures ≡ self.old.failures }
    {
        let seal = seal_of(share);
        match self.disk.write(paths, share, &seal) {
            Ok(()) => Ok(()),
            Err(error) => Err(fault_of_write(&error)),
        }
    }

    /// Takes the file of a share away, and says whether one stood.
    fn erase(&mut self, index: &[u8; 16], number: u16) -> Result<bool, SharedFault>
        ensures lost { IfOk result (λ lost. IsFileRemoved
            (share_path (string_bytes self.old.top) index.now number) lost
            (D.steps self.old.disk) (D.steps self.new.disk)) }
        ensures same { (self.new.top ≡ self.old.top) × (self.new.tag ≡ self.old.tag)
            × (self.new.made ≡ self.old.made) }
        ensures failures { self.new.failures ≡ self.old.failures }
    {
        let alloc = self.disk.memory();
        let paths = paths_of(alloc, self.top.as_str(), index, number, self.tag.as_str())?;
        let stood = self.disk.stands(paths.name.as_str())?;
        self.disk.remove(&paths)?;
        Ok(stood)
    }
}

/// Puts a number behind the others, if that is said.
fn push_if(numbers: &mut Vec<u16>, number: u16, said: bool) -> Result<(), AllocError>
    ensures { OnOk result (numbers.new.items ≡ with_number numbers.old.items number said) }
{
    if said {
        numbers.push(number)?;
    }
    Ok(())
}

impl<D: Disk + Drop, L: Drop> Store for SharedFolder<D, L> {
    ghost honest = { λ store. false };

    ghost shares = { λ store. map.empty };

    ghost room = { λ store. 0 };

    ghost held = { λ store. 0 };

    ghost failures = { λ store. store.failures };

    /// Whether the share's file stands.
    fn has(&mut self, index: [u8; 16], number: u16) -> Result<bool, AllocError>
        ensures rises { self.old.failures ≤ self.new.failures }
        ensures failed { self.old.failures < self.new.failures → result ≡ Ok false }
        ensures asked { IfOk result (λ found. self.new.failures ≡ self.old.failures →
            IsFileFound (share_path (string_bytes self.old.top) index number) found
            (D.steps self.old.disk) (D.steps self.new.disk)) }
        ensures same { (self.new.top ≡ self.old.top) × (self.new.tag ≡ self.old.tag)
            × (self.new.made ≡ self.old.made) }
    {
        match self.stands(&index, number) {
            Ok(found) => Ok(found),
            Err(SharedFault::NoMemory) => Err(AllocError),
            Err(fault) => {
                self.count(fault)?;
                Ok(false)
            }
        }
    }

    /// Of each number below the number of shares, whether the share's file stands.
    fn numbers(&mut self, index: [u8; 16]) -> Result<Vec<u16>, AllocError>
        ensures rises { self.old.failures ≤ self.new.failures }
        ensures failed { self.old.failures < self.new.failures →
            IsOkAnd result (λ numbers. numbers.items ≡ []) }
        ensures asked { IfOk result (λ numbers. self.new.failures ≡ self.old.failures →
            AreFilesFound (string_bytes self.old.top) index self.old.made numbers.items
            (D.steps self.old.disk) (D.steps self.new.disk)) }
        ensures same { (self.new.top ≡ self.old.top) × (self.new.tag ≡ self.old.tag)
            × (self.new.made ≡ self.old.made) }
    {
        match self.standing(&index) {
            Ok(numbers) => Ok(numbers),
            Err(SharedFault::NoMemory) => Err(AllocError),
            Err(fault) => {
                self.count(fault)?;
                Ok(Vec::new(self.disk.memory()))
            }
        }
    }

    /// The bytes of the share's file without their seal, where it is what was written.
    fn get(&mut self, index: [u8; 16], number: u16) -> Result<Option<RcSlice<u8>>, AllocError>
        ensures rises { self.old.failures ≤ self.new.failures }
        ensures failed { self.old.failures < self.new.failures → result ≡ Ok None }
        ensures given { IfOk result (λ share. self.new.failures ≡ self.old.failures →
            IsFileRead (share_path (string_bytes self.old.top) index number)
            (option_map rc_slice_items share) (D.steps self.old.disk) (D.steps self.new.disk)) }
        ensures some { IfOk result (λ share. IfSome share (λ bytes.
            0 < length (rc_slice_items bytes))) }
        ensures same { (self.new.top ≡ self.old.top) × (self.new.tag ≡ self.old.tag)
            × (self.new.made ≡ self.old.made) }
    {
        match self.fetch(&index, number) {
            Ok(share) => Ok(share),
            Err(SharedFault::NoMemory) => Err(AllocError),
            Err(fault) => {
                self.count(fault)?;
                Ok(None)
            }
        }
    }

    /// Fails: others put and lose shares between two calls, so there is no order of them.
    fn nth(&mut self, at: u64) -> Result<Option<Share>, AllocError>
        ensures rises { self.old.failures ≤ self.new.failures }
        ensures failed { self.old.failures < self.new.failures → result ≡ Ok None }
        ensures fails { OnOk result (self.old.failures < self.new.failures) }
        ensures disk { self.new.disk ≡ self.old.disk }
        ensures same { (self.new.top ≡ self.old.top) × (self.new.tag ≡ self.old.tag)
            × (self.new.made ≡ self.old.made) }
    {
        self.count(SharedFault::NotShared)?;
        Ok(None)
    }

    /// Written and renamed, where no whole share stands; else its folder is synced.
    fn put(&mut self, index: [u8; 16], number: u16, bytes: RcSlice<u8>) -> Result<bool, StoreFault>
        requires { 0 < length (rc_slice_items bytes) }
        ensures rises { self.old.failures ≤ self.new.failures }
        ensures down { IsErrOf result StoreFault.Down ↔ (self.old.failures < self.new.failures) }
        ensures put { IfOk result (λ put. IsFilePut (string_bytes self.old.top) index number
            (string_bytes self.old.tag) (rc_slice_items bytes) put
            (D.steps self.old.disk) (D.steps self.new.disk)) }
        ensures of_grid { OnOk result ((number < self.old.made)
            × (length (rc_slice_items bytes) ≤ 67108864)) }
        ensures same { (self.new.top ≡ self.old.top) × (self.new.tag ≡ self.old.tag)
            × (self.new.made ≡ self.old.made) }
    {
        match self.offer(&index, number, bytes.as_slice()) {
            Ok(put) => Ok(put),
            Err(SharedFault::NoMemory) => Err(StoreFault::NoMemory),
            Err(SharedFault::Full) => {
                self.last_fault = Some(SharedFault::Full);
                Err(StoreFault::Full)
            }
            Err(fault) => Err(self.refuse(fault)),
        }
    }

    /// The share's file is taken away.
    fn lose(&mut self, index: [u8; 16], number: u16) -> Result<bool, StoreFault>
        ensures rises { self.old.failures ≤ self.new.failures }
        ensures down { IsErrOf result StoreFault.Down ↔ (self.old.failures < self.new.failures) }
        ensures not_full { IsErrOf result StoreFault.Full → ⊥ }
        ensures lost { IfOk result (λ lost. IsFileRemoved
            (share_path (string_bytes self.old.top) index number) lost
            (D.steps self.old.disk) (D.steps self.new.disk)) }
        ensures same { (self.new.top ≡ self.old.top) × (self.new.tag ≡ self.old.tag)
            × (self.new.made ≡ self.old.made) }
    {
        match self.erase(&index, number) {
            Ok(lost) => Ok(lost),
            Err(SharedFault::NoMemory) => Err(StoreFault::NoMemory),
            Err(fault) => Err(self.refuse(fault)),
        }
    }

    /// Fails: a share that others read isn't changed.
    fn toggle(&mut self, index: [u8; 16], number: u16, place: u64) -> Result<bool, StoreFault>
        ensures rises { self.old.failures ≤ self.new.failures }
        ensures down { IsErrOf result StoreFault.Down ↔ (self.old.failures < self.new.failures) }
        ensures not_full { IsErrOf result StoreFault.Full → ⊥ }
        ensures fails { OnOk result ⊥ }
        ensures disk { self.new.disk ≡ self.old.disk }
        ensures same { (self.new.top ≡ self.old.top) × (self.new.tag ≡ self.old.tag)
            × (self.new.made ≡ self.old.made) }
    {
        Err(self.refuse(SharedFault::NotShared))
    }

    /// 0: the room is the file system's, and nobody knows it.
    fn room(&self) -> u64 {
        0
    }

    /// 0: nobody knows what the folder holds.
    fn held(&self) -> u64 {
        0
    }

    fn failures(&self) -> u64 {
        self.failures
    }

    ghost held_is = { λ store honest. absurd (cc) };

    ghost none_empty = { λ store honest. absurd (cc) };

    ghost fits = { λ store honest. absurd (cc) };
}
