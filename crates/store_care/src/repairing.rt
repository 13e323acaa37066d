//! Repair of the files of a grid, by the names of shares' files in its folders. One file after the other is looked at, and
//! no more than one file's shares are in memory.
ghost use Rattle.std.specs.Prelude.{◌≡◌, ◌<◌, ◌≤◌, IfOk, OnOk, length, vec_len};
ghost use Rattle.grid.specs.GridState.{IsHonest};
ghost use Rattle.share_repair.specs.Kept.{KeepsGood};
ghost use Rattle.share_repair.specs.Made.{PutsDetermined};
ghost use Rattle.share_repair.specs.Whole.{IsWholeFile};
ghost use Rattle.store_care.specs.Tally.{IsAllWell};

use crate::repair_tally::{Tally, tell_outcome, tell_refused};
use base32_text::encode;
use folder_shelf::{FolderFault, StoreSettings, read_name};
use grid::{Grid, GridFault};
use log::{Log, info};
use server_options::{Repairing, read_redis_place};
use server_stores::any_store::AnyStore;
use server_stores::folder_look::{FolderLook, log_seen, refuse_mistakes};
use server_stores::folders::{Opening, look, names_in, open_on_disk, report_fault, settings_in};
use server_stores::redis_stores::{RedisOpening, open_on_answering_redis, read_password};
use server_stores::{ProgramFault, ServerStore};
use share_store::Store;
use std::fs::File;
use std::net::Net;
use std::rt::Files;
use std::time::Clock;

/// How many folders of shares there are in a server's folder: one for each value of an index's first four bits.
const FOLDERS: u8 = 16;

/// After how many files it is told how far it is.
const OFTEN: u64 = 1_000;

/// Puts the shares that are missing or rotten back into the places of a grid, which are given in the order of its servers:
/// they are made of each file's other shares. The files are those of which a folder has a share's file. Each that was
/// repaired is told on standard output, and each that couldn't be, with a line of all at the end. `NotWell` where a file
/// isn't whole.
///
/// A folder that is new is refused unless it is among those that may be, and a Redis server that is down always. Where it
/// is cut off, it can be begun again: what was put stands.
pub fn repair<
    R: Files<File = File> + AllocGlobal + Net + Clock + Clone + Drop + Log + Print + Eprint,
>(rt: &R, wanted: &Repairing<'_>) -> Result<(), ProgramFault> {
    let places = wanted.places.as_slice();
    let first = first_settings(rt, places)?;
    look_at_each(rt, places, &wanted.new, &first)?;
    let stores = open_each(rt, wanted, &first)?;
    let mut grid = Grid::new(stores);
    repair_all(rt, places, &mut grid)
}

/// The settings of the grid's first server, by those of the first folder that has any. As many places are wanted as the
/// grid has servers.
fn first_settings<R: Files + AllocGlobal + Clone + Drop + Eprint>(
    rt: &R,
    places: &[&str],
) -> Result<StoreSettings, ProgramFault>
    ensures { IfOk result (λ first. (length places.now ≡ first.servers)
        × (0 < first.servers) × (first.servers ≤ 256)) }
{
    let Some((folder, settings)) = first_old(rt, places)? else {
        let _ = eprintln!(rt;
            "wozhinnam: none of these is a folder with settings, by which a grid and its files are found"
        );
        return Err(ProgramFault::Arguments);
    };
    if usize::from(settings.servers) != places.len() {
        let fault = ProgramFault::OtherCount(places.len(), settings.servers);
        return Err(report_fault(rt, folder, fault));
    }
    if settings.servers == 0 || settings.servers > 256 {
        let fault = ProgramFault::Folder(FolderFault::SettingsRotten);
        return Err(report_fault(rt, folder, fault));
    }
    Ok(StoreSettings {
        place: 0,
        ..settings
    })
}

/// The first folder that has settings, and these.
fn first_old<'a, R: Files + AllocGlobal + Clone + Drop + Eprint>(
    rt: &R,
    places: &[&'a str],
) -> Result<Option<(&'a str, StoreSettings)>, ProgramFault> {
    for place in places {
        if let Some(folder) = folder_in(*place) {
            match settings_in(rt, folder) {
                Ok(settings) => return Ok(Some((folder, settings))),
                Err(ProgramFault::NotThere) => {}
                Err(ProgramFault::Empty) => {}
                Err(fault) => return Err(report_fault(rt, folder, fault)),
            }
        }
    }
    Ok(None)
}

/// The folder that a place is, unless it is on a Redis server.
fn folder_in(place: &str) -> Option<&str> {
    match read_redis_place(place) {
        Some(_) => None,
        None => Some(place),
    }
}

/// Looks at each folder before one is opened: it is refused where it has other settings, or is new and may not be.
fn look_at_each<R: Files + AllocGlobal + Clone + Drop + Log + Eprint>(
    rt: &R,
    places: &[&str],
    new: &[&str],
    first: &StoreSettings,
) -> Result<(), ProgramFault> {
    let mut seen = Vec::with_capacity(rt.alloc(), places.len())?;
    for (at, place) in (0..first.servers).zip(places) {
        let settings = StoreSettings {
            place: at,
            ..*first
        };
        if let Some(folder) = folder_in(*place) {
            match look(rt, folder, &settings) {
                Ok(found) => seen.push(FolderLook::new(folder, found, new))?,
                Err(fault) => return Err(report_fault(rt, folder, fault)),
            }
        }
    }
    refuse_mistakes(rt, &seen)?;
    Ok(log_seen(rt, &seen)?)
}

/// Opens these places as those of a grid's servers, in their order: the settings are those of the first server.
fn open_each<R: Files<File = File> + AllocGlobal + Net + Clock + Clone + Drop + Log + Eprint>(
    rt: &R,
    wanted: &Repairing<'_>,
    first: &StoreSettings,
) -> Result<Vec<ServerStore<R>>, ProgramFault>
    requires { length wanted.now.places.items ≡ first.now.servers }
    ensures { IfOk result (λ stores. vec_len stores ≡ first.now.servers) }
{
    let password = read_password(rt, wanted.redis_password_file)?;
    let said = password.as_deref();
    let mut stores = Vec::with_capacity(rt.alloc(), wanted.places.len())?;
    for place in 0..first.servers {
        let settings = StoreSettings { place, ..*first };
        let name = wanted.places[usize::from(place)];
        match open_one(rt, name, &settings, wanted.synced, said) {
            Ok(store) => stores.push(store)?,
            Err(fault) => return Err(fault),
        }
    }
    Ok(stores)
}

/// Opens one place: a Redis server, or a folder that answers from its files.
fn open_one<R: Files<File = File> + AllocGlobal + Net + Clock + Clone + Drop + Log + Eprint>(
    rt: &R,
    name: &str,
    settings: &StoreSettings,
    synced: bool,
    password: Option<&[u8]>,
) -> Result<ServerStore<R>, ProgramFault> {
    let settings = *settings;
    match read_redis_place(name) {
        Some(place) => {
            let opening = RedisOpening {
                place,
                settings,
                password,
            };
            match open_on_answering_redis(rt, &opening) {
                Ok(store) => Ok(AnyStore::OnRedis(store)),
                Err(fault) => Err(fault),
            }
        }
        None => {
            let opening = Opening {
                settings,
                room: u64::MAX,
                synced,
            };
            match open_on_disk(rt, name, &opening) {
                Ok(store) => Ok(AnyStore::OnDisk(store)),
                Err(fault) => Err(fault),
            }
        }
    }
}

/// Repairs the files of a grid.
fn repair_all<R: Files + AllocGlobal + Clone + Drop + Log + Print + Eprint, S: Store>(
    rt: &R,
    places: &[&str],
    grid: &mut Grid<S>,
) -> Result<(), ProgramFault> {
    let mut tally = Tally::new();
    for part in 0..FOLDERS {
        let indexes = indexes_in(rt, places, part)?;
        log_part(rt, part, &tally);
        repair_each(rt, grid, &indexes, &mut tally)?;
    }
    tally.tell(rt)
}

/// Logs how far it is before a part is begun.
fn log_part<R: Log>(rt: &R, part: u8, tally: &Tally) {
    info!(rt; "{part} of {FOLDERS} parts are done, with {} files", tally.files);
}

/// Logs how far it is in a part.
fn log_files<R: Log>(rt: &R, tally: &Tally) {
    info!(rt; "{} files were looked at, {} repaired", tally.files, tally.repaired);
}

/// The storage indexes that begin with these four bits, one for each file of a share of them in a folder, rising.
fn indexes_in<R: Files + AllocGlobal + Clone + Drop + Eprint>(
    rt: &R,
    places: &[&str],
    part: u8,
) -> Result<Vec<[u8; 16]>, ProgramFault> {
    let mut indexes = Vec::new(rt.alloc());
    for place in places {
        if let Some(folder) = folder_in(*place) {
            add_indexes(rt, folder, part, &mut indexes)?;
        }
    }
    indexes.sort()?;
    Ok(indexes)
}

/// Adds those that a folder has files of.
fn add_indexes<R: Files + AllocGlobal + Clone + Drop + Eprint>(
    rt: &R,
    folder: &str,
    part: u8,
    indexes: &mut Vec<[u8; 16]>,
) -> Result<(), ProgramFault> {
    let path = format!(in rt.alloc(); "{folder}/{part}")?;
    let names = match names_in(rt, path.as_str()) {
        Ok(names) => names,
        Err(fault) => return Err(report_fault(rt, folder, ProgramFault::from(fault))),
    };
    for name in &names {
        if let Some(share) = read_name(rt.alloc(), name.as_str())? {
            let index = share.0;
            if index[0] / FOLDERS == part {
                indexes.push(index)?;
            }
        }
    }
    Ok(())
}

/// Repairs the files of these storage indexes, of which those that are the same stand in a row.
fn repair_each<R: AllocGlobal + Log + Print, S: Store>(
    rt: &R,
    grid: &mut Grid<S>,
    indexes: &[[u8; 16]],
    tally: &mut Tally,
) -> Result<(), ProgramFault> {
    let mut last = None;
    for index in indexes {
        if last != Some(*index) {
            repair_file(rt, grid, *index, tally)?;
            last = Some(*index);
            if tally.files % OFTEN == 0 {
                log_files(rt, tally);
            }
        }
    }
    Ok(())
}

/// Repairs one file, and tells what became of it where anything was to be done.
fn repair_file<R: AllocGlobal + Print, S: Store>(
    rt: &R,
    grid: &mut Grid<S>,
    index: [u8; 16],
    tally: &mut Tally,
) -> Result<(), ProgramFault>
    ensures kept { IsHonest grid.old → KeepsGood index grid.old grid.new }
    ensures puts { IsHonest grid.old → PutsDetermined index grid.old grid.new }
    ensures counted { OnOk result (IsAllWell tally.new → IsAllWell tally.old) }
    ensures whole { IsHonest grid.old → OnOk result (IsAllWell tally.new → IsWholeFile index grid.new) }
{
    let name = encode(rt.alloc(), &index)?;
    let before = grid.failures();
    match share_repair::repair(rt.alloc(), grid, index) {
        Ok(outcome) => {
            let has_failed = grid.failures() != before;
            tally.count(outcome, has_failed);
            tell_outcome(rt, name.as_str(), outcome, has_failed)
        }
        Err(GridFault::NoMemory) => Err(ProgramFault::NoMemory),
        Err(fault) => {
            tally.count_refused();
            tell_refused(rt, name.as_str(), fault)
        }
    }
}
