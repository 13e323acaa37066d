//! A grid's shares laid into another number of folders, each where it goes among so many servers. The folders of the grid
//! are only read, and no more than one share's bytes are in memory.
ghost use Rattle.std.specs.Prelude.{◌≡◌, ◌<◌, ◌≤◌, IfOk, IfErr, OnOk, length, vec_len};

use crate::images::{grid_in, hold_nothing, log_restored, open_each_to_read, sync, why_failed};
use base32_text::encode;
use folder_shelf::{FolderFault, FolderLock, FolderShelf, StoreSettings};
use log::{Log, info};
use server_options::Reshaping;
use server_stores::ProgramFault;
use server_stores::difference::judge;
use server_stores::folders::{
    DiskStore, Opening, is_full, log_opened, look, report_fault, settings_text_under,
};
use server_stores::locked_shelf::LockedShelf;
use share_moves::{MoveFault, Moved, Stranger, first_stranger, move_shares};
use share_store::Store;
use shelf_store::ShelfStore;
use std::alloc::AllocError;
use std::fs;
use std::fs::File;
use std::io::ErrorKind;
use std::rt::Files;

/// The name that the settings file of a new folder has until the last share stands.
const UNFINISHED: &str = "reshaping";

/// Lays the shares of the grid in some folders into others, as many as there are to be servers. K, N and what stands for
/// the secret are those of the grid. What was laid is told on standard output, and what wasn't: `NotWell` where a share's
/// file is rotten, or two servers have other bytes under one key, of which those of the first one are laid.
///
/// Nothing is written before each folder was looked at. Until the last share stands, the new folders have no settings: so
/// what was cut off isn't served. It is finished by the same call again, which puts what isn't there yet.
pub fn reshape<R: Files<File = File> + AllocGlobal + Clone + Drop + Log + Print + Eprint>(
    rt: &R,
    wanted: &Reshaping<'_>,
) -> Result<(), ProgramFault> {
    let from = wanted.from.as_slice();
    let into = wanted.into.as_slice();
    let first = grid_in(rt, from)?;
    let target = target_of(&first, into.len())?;
    look_at_each(rt, into, &target)?;
    let mut read = open_each_to_read(rt, from, &first)?;
    let mut written = open_each(rt, into, &target, wanted.synced)?;
    refuse_stranger(rt, wanted, &mut read, &mut written)?;
    let moved = match move_shares(rt, &mut read, &mut written) {
        Ok(moved) => moved,
        Err(fault) => return Err(why_not_moved(rt, wanted, fault)?),
    };
    finish(rt, into)?;
    log_restored(rt, into, &written);
    tell(rt, moved, rotten_in(&read))
}

/// The settings of the first of so many servers of a grid, of which those of the first server are these.
fn target_of(first: &StoreSettings, servers: usize) -> Result<StoreSettings, ProgramFault>
    ensures servers { IfOk result (λ target. (target.servers ≡ servers)
        × (0 < target.servers) × (target.servers ≤ 256)) }
    ensures kept { IfOk result (λ target. (target.place ≡ first.now.place)
        × (target.needed ≡ first.now.needed) × (target.made ≡ first.now.made)
        × (target.secret ≡ first.now.secret)) }
{
    let Ok(servers) = u16::try_from(servers) else {
        return Err(ProgramFault::Arguments);
    };
    if servers == 0 || servers > 256 {
        return Err(ProgramFault::Arguments);
    }
    Ok(StoreSettings { servers, ..*first })
}

/// Looks at each folder before one is opened: it is refused unless it is new, or what a call like this left of it. Nothing
/// is written.
fn look_at_each<R: Files + AllocGlobal + Clone + Drop + Eprint>(
    rt: &R,
    folders: &[&str],
    target: &StoreSettings,
) -> Result<(), ProgramFault> {
    for (place, folder) in (0..target.servers).zip(folders) {
        match look_at(rt, *folder, &StoreSettings { place, ..*target }) {
            Ok(()) => {}
            Err(fault) => return Err(report_fault(rt, *folder, fault)),
        }
    }
    Ok(())
}

/// Refuses a folder that is neither new nor one with these settings, be it finished or not.
fn look_at<R: Files + AllocGlobal + Clone + Drop>(
    rt: &R,
    folder: &str,
    settings: &StoreSettings,
) -> Result<(), ProgramFault> {
    let unfinished = settings_text_under(rt, folder, UNFINISHED)?;
    match look(rt, folder, settings) {
        Ok(_) => {}
        Err(ProgramFault::Folder(FolderFault::NoSettings)) => {
            if unfinished.is_none() {
                return Err(ProgramFault::NotEmpty);
            }
        }
        Err(fault) => return Err(fault),
    }
    match unfinished {
        Some(text) => judge(rt.alloc(), &text, settings),
        None => Ok(()),
    }
}

/// Opens these folders as those of a grid's servers to be, in their order: the settings are those of the first server.
fn open_each<R: Files<File = File> + AllocGlobal + Clone + Drop + Log + Eprint>(
    rt: &R,
    folders: &[&str],
    target: &StoreSettings,
    synced: bool,
) -> Result<Vec<DiskStore<R>>, ProgramFault>
    requires { length folders.now ≡ target.now.servers }
    ensures { IfOk result (λ stores. vec_len stores ≡ target.now.servers) }
{
    let mut stores = Vec::with_capacity(rt.alloc(), folders.len())?;
    for place in 0..target.servers {
        let folder = folders[usize::from(place)];
        let opening = Opening {
            settings: StoreSettings { place, ..*target },
            room: u64::MAX,
            synced,
        };
        match open_one(rt, folder, &opening) {
            Ok(store) => stores.push(store)?,
            Err(fault) => return Err(report_fault(rt, folder, fault)),
        }
    }
    Ok(stores)
}

/// Opens a folder. Unless it was finished before, its settings are taken away, which stand under another name then: they
/// have their own for a moment of that, in one folder at a time.
fn open_one<R: Files<File = File> + AllocGlobal + Clone + Drop + Log>(
    rt: &R,
    folder: &str,
    opening: &Opening,
) -> Result<DiskStore<R>, ProgramFault> {
    let lock = FolderLock::take(rt, folder)?;
    if is_full(rt, folder)? {
        return Err(ProgramFault::DiskFull);
    }
    let finished = settings_text_under(rt, folder, "grid")?.is_some();
    rename(rt, folder, UNFINISHED, "grid")?;
    let shelf = FolderShelf::open(rt.clone()?, folder, &opening.settings, opening.synced)?;
    if !finished {
        rename(rt, folder, "grid", UNFINISHED)?;
    }
    match ShelfStore::open(rt.alloc(), LockedShelf::new(lock, shelf), opening.room) {
        Ok(store) => {
            log_opened(rt, folder, store.held(), store.shelf().shelf());
            Ok(store)
        }
        Err((fault, _shelf)) => Err(ProgramFault::from(fault)),
    }
}

/// Gives each folder its settings, in which all shares stand now. A folder that failed is told by its name.
fn finish<R: Files<File = File> + AllocGlobal + Eprint>(
    rt: &R,
    folders: &[&str],
) -> Result<(), ProgramFault> {
    for folder in folders {
        match rename(rt, *folder, UNFINISHED, "grid") {
            Ok(()) => {}
            Err(fault) => return Err(report_fault(rt, *folder, fault)),
        }
    }
    Ok(())
}

/// Gives a file in a folder another name, where it is there, and syncs that.
fn rename<R: Files<File = File> + AllocGlobal>(
    rt: &R,
    folder: &str,
    from: &str,
    to: &str,
) -> Result<(), ProgramFault> {
    let from = format!(in rt.alloc(); "{folder}/{from}")?;
    let to = format!(in rt.alloc(); "{folder}/{to}")?;
    match fs::rename(rt, from.as_str(), to.as_str()) {
        Ok(()) => {}
        Err(error) if error.kind() == ErrorKind::NotFound => return Ok(()),
        Err(error) => return Err(ProgramFault::from(FolderFault::from(error))),
    }
    match sync(rt, folder) {
        Ok(()) => Ok(()),
        Err(error) => Err(ProgramFault::from(FolderFault::from(error))),
    }
}

/// Refuses new folders in which a share stands that isn't one of the grid's in its place: it is told by its name.
fn refuse_stranger<R: Files + AllocGlobal + Clone + Drop + Log + Eprint>(
    rt: &R,
    wanted: &Reshaping<'_>,
    read: &mut [DiskStore<R>],
    written: &mut [DiskStore<R>],
) -> Result<(), ProgramFault> {
    if hold_nothing(written) {
        return Ok(());
    }
    info!(rt; "the new folders have shares: they are looked through, and what isn't there yet is put");
    match first_stranger(read, written) {
        Ok(None) => Ok(()),
        Ok(Some(stranger)) => Err(tell_stranger(rt, wanted.into.as_slice(), &stranger)?),
        Err(fault) => Err(why_not_moved(rt, wanted, fault)?),
    }
}

/// Tells a share that isn't one of the grid's in its place, and the folder in which it stands.
fn tell_stranger<R: AllocGlobal + Eprint>(
    rt: &R,
    folders: &[&str],
    stranger: &Stranger,
) -> Result<ProgramFault, AllocError> {
    let name = encode(rt.alloc(), &stranger.index)?;
    let number = stranger.number;
    let _ = eprintln!(rt;
        "wozhinnam: share {number} of {name} isn't one of the grid's in its place"
    );
    match folders.get(stranger.server) {
        Some(folder) => Ok(report_fault(rt, *folder, ProgramFault::NotEmpty)),
        None => Ok(ProgramFault::NotEmpty),
    }
}

/// Why shares weren't moved, told by the name of the folder that failed.
fn why_not_moved<R: Files + AllocGlobal + Eprint>(
    rt: &R,
    wanted: &Reshaping<'_>,
    fault: MoveFault,
) -> Result<ProgramFault, AllocError> {
    match fault {
        MoveFault::NotRead(server) => Ok(tell_unread(rt, wanted, server)),
        MoveFault::NoBytes(server) => Ok(tell_unread(rt, wanted, server)),
        MoveFault::NotWritten(server) => tell_unwritten(rt, wanted, server),
        MoveFault::Full(server) => tell_unwritten(rt, wanted, server),
        MoveFault::NoMemory => Ok(ProgramFault::NoMemory),
    }
}

/// Tells the folder of a server of the grid, which failed.
fn tell_unread<R: Eprint>(rt: &R, wanted: &Reshaping<'_>, server: usize) -> ProgramFault {
    let fault = ProgramFault::Folder(FolderFault::Failed);
    match wanted.from.get(server) {
        Some(folder) => report_fault(rt, *folder, fault),
        None => fault,
    }
}

/// Tells the new folder of a server, which failed, and whether its disk is full.
fn tell_unwritten<R: Files + AllocGlobal + Eprint>(
    rt: &R,
    wanted: &Reshaping<'_>,
    server: usize,
) -> Result<ProgramFault, AllocError> {
    match wanted.into.get(server) {
        Some(folder) => why_failed(rt, *folder),
        None => Ok(ProgramFault::Folder(FolderFault::Failed)),
    }
}

/// How many rotten files the folders have that were read. Each was logged when its folder was opened.
fn rotten_in<R: Files + AllocGlobal + Clone + Drop>(read: &[DiskStore<R>]) -> u64 {
    let mut rotten = 0u64;
    for store in read {
        rotten = rotten.saturating_add(store.shelf().shelf().rotten().len() as u64);
    }
    rotten
}

/// Tells what became of the shares. `NotWell` where some weren't laid.
fn tell<R: Print>(rt: &R, moved: Moved, rotten: u64) -> Result<(), ProgramFault>
    ensures ok { OnOk result ((moved.others ≡ 0) × (rotten ≡ 0)) }
{
    let Moved { put, stood, others } = moved;
    let told = println!(rt;
        "{put} shares put, {stood} there already, {others} left since others stand in their places, {rotten} rotten files"
    );
    if told.is_err() {
        return Err(ProgramFault::NotPrinted);
    }
    if others == 0 && rotten == 0 {
        Ok(())
    } else {
        Err(ProgramFault::NotWell)
    }
}
