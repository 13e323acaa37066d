//! Folders of servers: what stands in them before they are opened, and opening them.
ghost use Rattle.std.specs.Prelude.{◌≡◌, IfOk, Ok};

use crate::difference::judge;
use crate::fault::ProgramFault;
use crate::locked_shelf::LockedShelf;
use folder_shelf::{
    FileShelf, FolderFault, FolderLock, FolderShelf, SETTINGS_TEXT, StoreSettings, read_file,
    read_settings,
};
use kept_store::KeptStore;
use log::{Log, info, warn};
use share_store::Store;
use shelf_store::ShelfStore;
use std::alloc::AllocError;
use std::fs::File;
use std::io::ErrorKind;
use std::rt::Files;
use std::{fs, io};

/// How many bytes a folder's disk is to have room for at least when it is opened.
const PROBE: usize = 65_536;

/// The shelf in a folder whose lock this process holds.
pub type OurShelf<R> = LockedShelf<FileShelf<R>, FolderLock>;

/// A store that answers from memory, and keeps its shares in a folder too.
pub type FolderStore<R> = KeptStore<OurShelf<R>>;

/// A store whose shares are in a folder alone.
pub type DiskStore<R> = ShelfStore<OurShelf<R>>;

/// What stands in a folder before it is opened.
#[derive(Clone, Copy, PartialEq, Eq)]
pub enum Found {
    /// It isn't there, or has no more in it than a lock and unfinished files.
    New,
    /// The settings that are wanted.
    Ours,
    /// Nothing was looked for: the server is to be served without it.
    Missing,
}

/// How a folder is opened.
#[derive(Clone, Copy, PartialEq, Eq)]
pub struct Opening {
    /// Whose it is to be.
    pub settings: StoreSettings,
    /// How many bytes of shares it takes.
    pub room: u64,
    /// Whether each change is synced.
    pub synced: bool,
}

/// Tells a fault of a folder by the folder's name on standard error.
pub fn report_fault<R: Eprint>(rt: &R, folder: &str, fault: ProgramFault) -> ProgramFault {
    if fault.is_of_a_store() {
        let _ = eprintln!(rt; "wozhinnam: {folder}: {fault}");
    }
    fault
}

/// The text of a folder's settings file. `None` where there is none.
fn settings_text_in<R: Files + AllocGlobal>(
    rt: &R,
    folder: &str,
) -> Result<Option<Vec<u8>>, FolderFault> {
    settings_text_under(rt, folder, "grid")
}

/// The text of the settings file that has this name in a folder. `None` where there is none.
pub fn settings_text_under<R: Files + AllocGlobal>(
    rt: &R,
    folder: &str,
    name: &str,
) -> Result<Option<Vec<u8>>, FolderFault> {
    let path = format!(in rt.alloc(); "{folder}/{name}")?;
    match read_file(rt, path.as_str(), SETTINGS_TEXT) {
        Ok(Some(text)) => Ok(Some(text)),
        Ok(None) => Err(FolderFault::SettingsRotten),
        Err(error) if error.kind() == ErrorKind::NotFound => Ok(None),
        Err(error) => Err(FolderFault::from(error)),
    }
}

/// The settings of a folder. Nothing is written.
pub fn settings_in<R: Files + AllocGlobal + Clone + Drop>(
    rt: &R,
    folder: &str,
) -> Result<StoreSettings, ProgramFault> {
    match settings_text_in(rt, folder)? {
        Some(text) => match read_settings(rt.alloc(), &text)? {
            Some(settings) => Ok(settings),
            None => Err(ProgramFault::Folder(FolderFault::SettingsRotten)),
        },
        None => Err(why_no_settings(rt, folder)),
    }
}

/// Why a folder that has no settings is refused where it is to have some.
fn why_no_settings<R: Files + AllocGlobal + Clone + Drop>(rt: &R, folder: &str) -> ProgramFault {
    match what_stands_in(rt, folder) {
        Ok(Standing::Absent) => ProgramFault::NotThere,
        Ok(Standing::Empty) => ProgramFault::Empty,
        Ok(Standing::Filled) => ProgramFault::Folder(FolderFault::NoSettings),
        Err(fault) => ProgramFault::from(fault),
    }
}

/// What stands in a folder that is to have these settings, or is to be made with them. It is refused where it has
/// others, or files and none, or where neither it nor the folder above it is there. Nothing is written.
pub fn look<R: Files + AllocGlobal + Clone + Drop>(
    rt: &R,
    folder: &str,
    settings: &StoreSettings,
) -> Result<Found, ProgramFault> {
    match settings_text_in(rt, folder)? {
        Some(text) => match judge(rt.alloc(), &text, settings) {
            Ok(()) => Ok(Found::Ours),
            Err(fault) => Err(fault),
        },
        None => match what_stands_in(rt, folder)? {
            Standing::Absent => look_above(rt, folder),
            Standing::Empty => Ok(Found::New),
            Standing::Filled => Err(ProgramFault::Folder(FolderFault::NoSettings)),
        },
    }
}

/// A folder that isn't there is new where the one above it is there.
fn look_above<R: Files + AllocGlobal>(rt: &R, folder: &str) -> Result<Found, ProgramFault> {
    match fs::metadata(rt, above(folder)) {
        Ok(_) => Ok(Found::New),
        Err(error) if error.kind() == ErrorKind::NotFound => Err(ProgramFault::NoneAbove),
        Err(error) => Err(ProgramFault::from(FolderFault::from(error))),
    }
}

/// The folder above a folder.
fn above(folder: &str) -> &str {
    match folder.trim_end_matches('/').rsplit_once('/') {
        Some(("", _)) => "/",
        Some((above, _)) => above,
        None => ".",
    }
}

/// Refuses a folder that isn't new, by its name. Nothing is written.
pub fn look_at_new<R: Files + AllocGlobal + Clone + Drop + Eprint>(
    rt: &R,
    folder: &str,
) -> Result<(), ProgramFault> {
    match what_stands_in(rt, folder) {
        Ok(Standing::Filled) => Err(report_fault(rt, folder, ProgramFault::NotEmpty)),
        Ok(_) => Ok(()),
        Err(fault) => Err(report_fault(rt, folder, ProgramFault::from(fault))),
    }
}

/// Refuses a folder that hasn't these settings, by its name. Nothing is written.
pub fn look_at_old<R: Files + AllocGlobal + Clone + Drop + Eprint>(
    rt: &R,
    folder: &str,
    settings: &StoreSettings,
) -> Result<(), ProgramFault> {
    match has_settings(rt, folder, settings) {
        Ok(()) => Ok(()),
        Err(fault) => Err(report_fault(rt, folder, fault)),
    }
}

/// Refuses a folder that hasn't these settings. Nothing is written.
fn has_settings<R: Files + AllocGlobal + Clone + Drop>(
    rt: &R,
    folder: &str,
    settings: &StoreSettings,
) -> Result<(), ProgramFault> {
    match settings_text_in(rt, folder)? {
        Some(text) => judge(rt.alloc(), &text, settings),
        None => Err(why_no_settings(rt, folder)),
    }
}

/// What stands in a folder without settings.
#[derive(Clone, Copy, PartialEq, Eq)]
enum Standing {
    /// It isn't there.
    Absent,
    /// No more than a lock and unfinished files.
    Empty,
    /// Something else.
    Filled,
}

/// What stands in a folder that has no settings.
fn what_stands_in<R: Files + AllocGlobal + Clone + Drop>(
    rt: &R,
    folder: &str,
) -> Result<Standing, FolderFault> {
    let entries = match fs::read_dir(rt, folder) {
        Ok(entries) => entries,
        Err(error) if error.kind() == ErrorKind::NotFound => return Ok(Standing::Absent),
        Err(error) => return Err(FolderFault::from(error)),
    };
    for entry in entries {
        match entry {
            Ok(entry) => {
                if entry.file_name() != "lock" && entry.file_name() != "new" {
                    return Ok(Standing::Filled);
                }
            }
            Err(error) if error.kind() == ErrorKind::InvalidFilename => {
                return Ok(Standing::Filled);
            }
            Err(error) => return Err(FolderFault::from(error)),
        }
    }
    Ok(Standing::Empty)
}

/// The names in a folder, and none where it isn't there. One that is no text is left out.
pub fn names_in<R: Files + AllocGlobal + Clone + Drop>(
    rt: &R,
    folder: &str,
) -> Result<Vec<String>, FolderFault> {
    let mut names = Vec::new(rt.alloc());
    let entries = match fs::read_dir(rt, folder) {
        Ok(entries) => entries,
        Err(error) if error.kind() == ErrorKind::NotFound => return Ok(names),
        Err(error) => return Err(FolderFault::from(error)),
    };
    for entry in entries {
        match entry {
            Ok(entry) => names.push(String::from_str(rt.alloc(), entry.file_name())?)?,
            Err(error) if error.kind() == ErrorKind::InvalidFilename => {}
            Err(error) => return Err(FolderFault::from(error)),
        }
    }
    Ok(names)
}

/// Opens a folder: takes its lock, reads its shares, and logs what of it is left alone. A fault is told by its name.
pub fn open_folder<R: Files<File = File> + AllocGlobal + Clone + Drop + Log + Eprint>(
    rt: &R,
    folder: &str,
    opening: &Opening,
) -> Result<FolderStore<R>, ProgramFault> {
    match open_store(rt, folder, opening) {
        Ok(store) => {
            log_opened(rt, folder, store.held(), store.shelf().shelf());
            Ok(store)
        }
        Err(fault) => Err(report_fault(rt, folder, fault)),
    }
}

/// Opens a folder that is to be served from its files, as [`open_folder`] does: of its shares only their lengths stay
/// in memory.
pub fn open_on_disk<R: Files<File = File> + AllocGlobal + Clone + Drop + Log + Eprint>(
    rt: &R,
    folder: &str,
    opening: &Opening,
) -> Result<DiskStore<R>, ProgramFault> {
    match open_disk_store(rt, folder, opening) {
        Ok(store) => {
            log_opened(rt, folder, store.held(), store.shelf().shelf());
            Ok(store)
        }
        Err(fault) => Err(report_fault(rt, folder, fault)),
    }
}

/// Opens a folder that is only to be read, as [`open_on_disk`] does: nothing is written.
pub fn open_to_read<R: Files<File = File> + AllocGlobal + Clone + Drop + Log + Eprint>(
    rt: &R,
    folder: &str,
    settings: &StoreSettings,
) -> Result<DiskStore<R>, ProgramFault> {
    match open_store_to_read(rt, folder, settings) {
        Ok(store) => {
            log_opened(rt, folder, store.held(), store.shelf().shelf());
            Ok(store)
        }
        Err(fault) => Err(report_fault(rt, folder, fault)),
    }
}

/// The store over a folder that is only to be read.
fn open_store_to_read<R: Files<File = File> + AllocGlobal + Clone + Drop>(
    rt: &R,
    folder: &str,
    settings: &StoreSettings,
) -> Result<DiskStore<R>, ProgramFault> {
    let lock = FolderLock::take(rt, folder)?;
    let shelf = FolderShelf::open_to_read(rt.clone()?, folder, settings)?;
    match ShelfStore::open(rt.alloc(), LockedShelf::new(lock, shelf), u64::MAX) {
        Ok(store) => Ok(store),
        Err((fault, _shelf)) => Err(ProgramFault::from(fault)),
    }
}

/// Logs how many bytes of shares a folder has that was opened, and what of it is left alone.
pub fn log_opened<R: Files + AllocGlobal + Clone + Drop + Log>(
    rt: &R,
    folder: &str,
    held: u64,
    shelf: &FileShelf<R>,
) {
    info!(rt; "{folder}: {held} bytes of shares");
    log_each(rt, "rotten and left alone", shelf.rotten());
    log_each(rt, "no share and left alone", shelf.strangers());
}

/// Logs files of a folder.
pub fn log_each<R: Log>(rt: &R, words: &str, paths: &[String]) {
    for path in paths {
        warn!(rt; "{words}: {path}");
    }
}

/// The store over a folder.
fn open_store<R: Files<File = File> + AllocGlobal + Clone + Drop>(
    rt: &R,
    folder: &str,
    opening: &Opening,
) -> Result<FolderStore<R>, ProgramFault> {
    let shelf = open_roomy(rt, folder, opening)?;
    Ok(KeptStore::open(rt.alloc(), shelf, opening.room)?)
}

/// The store whose shares are in a folder alone.
fn open_disk_store<R: Files<File = File> + AllocGlobal + Clone + Drop>(
    rt: &R,
    folder: &str,
    opening: &Opening,
) -> Result<DiskStore<R>, ProgramFault> {
    let shelf = open_roomy(rt, folder, opening)?;
    match ShelfStore::open(rt.alloc(), shelf, opening.room) {
        Ok(store) => Ok(store),
        Err((fault, _shelf)) => Err(ProgramFault::from(fault)),
    }
}

/// The shelf in a folder whose disk has room.
fn open_roomy<R: Files<File = File> + AllocGlobal + Clone + Drop>(
    rt: &R,
    folder: &str,
    opening: &Opening,
) -> Result<OurShelf<R>, ProgramFault> {
    roomy(rt, folder, open_shelf(rt, folder, opening))
}

/// What was opened in a folder, if its disk has room. Where it hasn't, that is why it was not opened.
pub fn roomy<R: Files + AllocGlobal, T: Drop>(
    rt: &R,
    folder: &str,
    opened: Result<T, FolderFault>,
) -> Result<T, ProgramFault>
    ensures { IfOk result (λ given. opened ≡ Ok given) }
{
    match opened {
        Ok(opened) => {
            if is_full(rt, folder)? {
                Err(ProgramFault::DiskFull)
            } else {
                Ok(opened)
            }
        }
        Err(FolderFault::Failed) => {
            if is_full(rt, folder)? {
                Err(ProgramFault::DiskFull)
            } else {
                Err(ProgramFault::Folder(FolderFault::Failed))
            }
        }
        Err(fault) => Err(ProgramFault::from(fault)),
    }
}

/// The shelf in a folder, with its lock.
fn open_shelf<R: Files<File = File> + AllocGlobal + Clone + Drop>(
    rt: &R,
    folder: &str,
    opening: &Opening,
) -> Result<OurShelf<R>, FolderFault> {
    let lock = FolderLock::take(rt, folder)?;
    let shelf = FolderShelf::open(rt.clone()?, folder, &opening.settings, opening.synced)?;
    Ok(LockedShelf::new(lock, shelf))
}

/// Whether a folder's disk has no room for some bytes: they are written to an unfinished file, which is taken away.
pub fn is_full<R: Files + AllocGlobal>(rt: &R, folder: &str) -> Result<bool, AllocError> {
    let unfinished = format!(in rt.alloc(); "{folder}/new")?;
    if is_for_want_of_room(&fs::create_dir(rt, unfinished.as_str())) {
        return Ok(true);
    }
    let probe = format!(in rt.alloc(); "{unfinished}/probe")?;
    let bytes = vec![in rt.alloc(); 0u8; PROBE]?;
    let written = fs::write(rt, probe.as_str(), &bytes);
    let _ = fs::remove_file(rt, probe.as_str());
    Ok(is_for_want_of_room(&written))
}

/// Whether a call failed because a disk is full.
fn is_for_want_of_room(answer: &io::Result<()>) -> bool {
    match answer {
        Ok(()) => false,
        Err(error) => {
            error.kind() == ErrorKind::StorageFull || error.kind() == ErrorKind::QuotaExceeded
        }
    }
}
