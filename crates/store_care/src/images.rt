//! Images of a grid in folders: writing one, and laying one into new folders. The folders' shares stay on the disk, and
//! no more than one share's bytes are in memory.
ghost use Rattle.std.specs.Prelude.{◌≡◌, ◌<◌, ◌≤◌, All, IfOk, IsTrue, length, vec_len};

use crate::forgetful_store::forgetful_stores;
use folder_shelf::{FolderFault, StoreSettings};
use grid::{Grid, GridFault};
use log::{Log, info};
use server_options::Restoring;
use server_stores::ProgramFault;
use server_stores::folders::{
    DiskStore, Opening, OurShelf, is_full, look_at_new, look_at_old, open_on_disk, open_to_read,
    report_fault, settings_in,
};
use share_store::Store;
use shelf_store::ShelfStore;
use std::alloc::AllocError;
use std::fs::File;
use std::io::{BufReader, BufWriter, Write};
use std::rt::Files;
use std::{fs, io};

/// How many bytes of an image are read or written at once.
const BUFFER: usize = 65_536;

/// Writes the image of the grid in these folders, which are given in the order of its servers, on standard output.
pub fn write_image<R: Files<File = File> + AllocGlobal + Clone + Drop + Log + Print + Eprint>(
    rt: &R,
    folders: &[&str],
) -> Result<(), ProgramFault> {
    let first = grid_in(rt, folders)?;
    let mut grid = Grid::new(open_each_to_read(rt, folders, &first)?);
    put_image(rt, folders, &mut grid)
}

/// The settings of a grid's first server, where these folders are those of its servers, in their order.
pub(crate) fn grid_in<R: Files + AllocGlobal + Clone + Drop + Eprint>(
    rt: &R,
    folders: &[&str],
) -> Result<StoreSettings, ProgramFault>
    ensures { IfOk result (λ first. (length folders.now ≡ first.servers)
        × (first.servers ≤ 256) × (0 < first.servers)) }
{
    let Some(folder) = folders.first() else {
        return Err(ProgramFault::Arguments);
    };
    let first = match settings_in(rt, *folder) {
        Ok(first) => first,
        Err(fault) => return Err(report_fault(rt, *folder, fault)),
    };
    if usize::from(first.servers) != folders.len() {
        let fault = ProgramFault::OtherCount(folders.len(), first.servers);
        return Err(report_fault(rt, *folder, fault));
    }
    if first.servers > 256 {
        let fault = ProgramFault::Folder(FolderFault::SettingsRotten);
        return Err(report_fault(rt, *folder, fault));
    }
    for (place, folder) in (0..first.servers).zip(folders) {
        look_at_old(rt, *folder, &StoreSettings { place, ..first })?;
    }
    Ok(first)
}

/// Writes the image of a grid on standard output. A folder that failed is told by its name.
fn put_image<R: Files + AllocGlobal + Clone + Drop + Print + Eprint>(
    rt: &R,
    folders: &[&str],
    grid: &mut Grid<DiskStore<R>>,
) -> Result<(), ProgramFault> {
    let Ok(mut writer) = BufWriter::with_capacity(rt.alloc(), BUFFER, io::writer(rt)) else {
        return Err(ProgramFault::NoMemory);
    };
    match grid.write_image(&mut writer) {
        Ok(()) => match writer.flush() {
            Ok(()) => Ok(()),
            Err(_) => Err(ProgramFault::ImageUnwritten),
        },
        Err(GridFault::NoMemory) => Err(ProgramFault::NoMemory),
        Err(GridFault::Down(server)) => match folders.get(server) {
            Some(folder) => {
                let fault = ProgramFault::Folder(FolderFault::Failed);
                Err(report_fault(rt, *folder, fault))
            }
            None => Err(ProgramFault::ImageUnwritten),
        },
        Err(_) => Err(ProgramFault::ImageUnwritten),
    }
}

/// Opens these folders as those of a grid's servers, in their order: the settings are those of the first server.
fn open_all<R: Files<File = File> + AllocGlobal + Clone + Drop + Log + Eprint>(
    rt: &R,
    folders: &[&str],
    first: &StoreSettings,
    synced: bool,
) -> Result<Vec<DiskStore<R>>, ProgramFault>
    requires { length folders.now ≡ first.now.servers }
    ensures { IfOk result (λ stores. vec_len stores ≡ first.now.servers) }
{
    let mut stores = Vec::with_capacity(rt.alloc(), folders.len())?;
    for place in 0..first.servers {
        let opening = Opening {
            settings: StoreSettings { place, ..*first },
            room: u64::MAX,
            synced,
        };
        stores.push(open_on_disk(rt, folders[usize::from(place)], &opening)?)?;
    }
    Ok(stores)
}

/// Opens these folders as those of a grid's servers, in their order, where none of their stores holds a byte.
fn open_all_empty<R: Files<File = File> + AllocGlobal + Clone + Drop + Log + Eprint>(
    rt: &R,
    folders: &[&str],
    first: &StoreSettings,
    synced: bool,
) -> Result<Vec<DiskStore<R>>, ProgramFault>
    requires { length folders.now ≡ first.now.servers }
    ensures all { IfOk result (λ stores. vec_len stores ≡ first.now.servers) }
    ensures empty { IfOk result (λ stores. All (λ store. ⟦<ShelfStore<OurShelf<R>> as Store>⟧.held store ≡ 0) stores.items) }
{
    let stores = open_all(rt, folders, first, synced)?;
    if !hold_nothing(&stores) {
        return Err(tell_filled(rt, folders, &stores));
    }
    Ok(stores)
}

/// Opens these folders as those of a grid's servers, in their order, to be read.
pub(crate) fn open_each_to_read<R: Files<File = File> + AllocGlobal + Clone + Drop + Log + Eprint>(
    rt: &R,
    folders: &[&str],
    first: &StoreSettings,
) -> Result<Vec<DiskStore<R>>, ProgramFault>
    requires { length folders.now ≡ first.now.servers }
    ensures { IfOk result (λ stores. vec_len stores ≡ first.now.servers) }
{
    let mut stores = Vec::with_capacity(rt.alloc(), folders.len())?;
    for place in 0..first.servers {
        let settings = StoreSettings { place, ..*first };
        stores.push(open_to_read(rt, folders[usize::from(place)], &settings)?)?;
    }
    Ok(stores)
}

/// Lays an image into new folders, as those of a grid with this secret. Nothing is written before each folder was found
/// new and the image was read to its end. Until the last share stands, the folders have no settings: so what a crash
/// leaves of a grid is not served.
pub fn restore<R: Files<File = File> + AllocGlobal + Clone + Drop + Log + Eprint>(
    rt: &R,
    wanted: &Restoring<'_>,
    secret: &[u8],
) -> Result<(), ProgramFault> {
    let folders = wanted.folders.as_slice();
    let Ok(servers) = u16::try_from(folders.len()) else {
        return Err(ProgramFault::Arguments);
    };
    if servers == 0 || servers > 256 {
        return Err(ProgramFault::Arguments);
    }
    look_at_each(rt, folders)?;
    if !is_file(rt, wanted.file) {
        return Err(ProgramFault::ImageUnread);
    }
    try_image(rt, wanted.file, servers)?;
    let shares = wanted.shares;
    let first = StoreSettings::new(0, servers, shares.needed, shares.made, secret);
    let stores = open_all_empty(rt, folders, &first, wanted.synced)?;
    move_settings(rt, folders, "grid", "restoring")?;
    let grid = lay_image(rt, wanted, stores)?;
    move_settings(rt, folders, "restoring", "grid")?;
    log_restored(rt, folders, grid.stores());
    Ok(())
}

/// Whether an image is a file: it is read twice, which a pipe or a terminal isn't.
fn is_file<R: Files>(rt: &R, path: &str) -> bool {
    match fs::metadata(rt, path) {
        Ok(found) => found.is_file(),
        Err(_) => false,
    }
}

/// Refuses a folder that isn't new, by its name. Nothing is written.
fn look_at_each<R: Files + AllocGlobal + Clone + Drop + Eprint>(
    rt: &R,
    folders: &[&str],
) -> Result<(), ProgramFault> {
    for folder in folders {
        look_at_new(rt, *folder)?;
    }
    Ok(())
}

/// Logs what stands in each folder.
pub(crate) fn log_restored<R: Files + AllocGlobal + Clone + Drop + Log>(
    rt: &R,
    folders: &[&str],
    stores: &[DiskStore<R>],
) {
    for (folder, store) in folders.iter().zip(stores) {
        info!(rt; "{}: {} bytes of shares were laid in", *folder, store.held());
    }
}

/// Reads an image to its end, and refuses what is no image of so many servers. No more than one of its shares is held.
fn try_image<R: Files + AllocGlobal>(rt: &R, file: &str, servers: u16) -> Result<(), ProgramFault>
    requires some { 0 < servers }
    requires few { servers ≤ 256 }
{
    let mut reader = open_image(rt, file)?;
    let stores = forgetful_stores(rt.alloc(), servers)?;
    match Grid::read_image(rt.alloc(), stores, &mut reader) {
        Ok(_grid) => Ok(()),
        Err((fault, _stores)) => Err(why_not_read(fault)),
    }
}

/// The file of an image, from its first byte on.
fn open_image<R: Files + AllocGlobal>(
    rt: &R,
    file: &str,
) -> Result<BufReader<R::File>, ProgramFault> {
    let Ok(file) = fs::open(rt, file) else {
        return Err(ProgramFault::ImageUnread);
    };
    match BufReader::with_capacity(rt.alloc(), BUFFER, file) {
        Ok(reader) => Ok(reader),
        Err(_) => Err(ProgramFault::NoMemory),
    }
}

/// Why an image was not read.
fn why_not_read(fault: GridFault) -> ProgramFault {
    match fault {
        GridFault::NoMemory => ProgramFault::NoMemory,
        GridFault::BadImage(place) => ProgramFault::BadImage(place),
        _ => ProgramFault::ImageUnread,
    }
}

/// Whether no store holds a byte.
pub(crate) fn hold_nothing<R: Files + AllocGlobal + Clone + Drop>(stores: &[DiskStore<R>]) -> bool
    ensures { IsTrue result →
        All (λ store. ⟦<ShelfStore<OurShelf<R>> as Store>⟧.held store ≡ 0) stores.now }
{
    for store in stores {
        if store.held() != 0 {
            return false;
        }
    }
    true
}

/// Tells the first folder whose store holds a byte by its name.
fn tell_filled<R: Files + AllocGlobal + Clone + Drop + Eprint>(
    rt: &R,
    folders: &[&str],
    stores: &[DiskStore<R>],
) -> ProgramFault {
    for (folder, store) in folders.iter().zip(stores) {
        if store.held() > 0 {
            return report_fault(rt, *folder, ProgramFault::NotEmpty);
        }
    }
    ProgramFault::NotEmpty
}

/// The grid that an image has, in stores that hold nothing. A folder that failed is told by its name.
fn lay_image<R: Files + AllocGlobal + Clone + Drop + Eprint>(
    rt: &R,
    wanted: &Restoring<'_>,
    stores: Vec<DiskStore<R>>,
) -> Result<Grid<DiskStore<R>>, ProgramFault>
    requires some { 0 < vec_len stores }
    requires few { vec_len stores ≤ 256 }
    requires empty { All (λ store. ⟦<ShelfStore<OurShelf<R>> as Store>⟧.held store ≡ 0) stores.items }
{
    let mut reader = open_image(rt, wanted.file)?;
    match Grid::read_image(rt.alloc(), stores, &mut reader) {
        Ok(grid) => Ok(grid),
        Err((GridFault::Down(server), _stores)) => match wanted.folders.get(server) {
            Some(folder) => Err(why_failed(rt, *folder)?),
            None => Err(ProgramFault::ImageUnread),
        },
        Err((fault, _stores)) => Err(why_not_read(fault)),
    }
}

/// Why a folder failed, told by its name.
pub(crate) fn why_failed<R: Files + AllocGlobal + Eprint>(
    rt: &R,
    folder: &str,
) -> Result<ProgramFault, AllocError> {
    let fault = if is_full(rt, folder)? {
        ProgramFault::DiskFull
    } else {
        ProgramFault::Folder(FolderFault::Failed)
    };
    Ok(report_fault(rt, folder, fault))
}

/// Gives the settings file of each folder another name, and syncs that.
fn move_settings<R: Files<File = File> + AllocGlobal + Eprint>(
    rt: &R,
    folders: &[&str],
    from: &str,
    to: &str,
) -> Result<(), ProgramFault> {
    for folder in folders {
        let path = *folder;
        let from = format!(in rt.alloc(); "{path}/{from}")?;
        let to = format!(in rt.alloc(); "{path}/{to}")?;
        if fs::rename(rt, from.as_str(), to.as_str()).is_err() || sync(rt, path).is_err() {
            return Err(why_failed(rt, path)?);
        }
    }
    Ok(())
}

/// Syncs the names in a folder.
pub(crate) fn sync<R: Files<File = File>>(rt: &R, folder: &str) -> io::Result<()> {
    File::open(rt, folder)?.sync_all()
}
