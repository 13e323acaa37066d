//! Folders that other processes serve at the same time.
ghost use Rattle.std.specs.Prelude.{◌≡◌, string_bytes, IfOk};
ghost use Rattle.server_stores.specs.Shared.{IsSharedAs};

use crate::fault::ProgramFault;
use crate::folders::{report_fault, roomy};
use folder_shelf::{FolderFault, FolderLock, StoreSettings};
use log::{Log, info};
use shared_folder::{FileFolder, SharedFolder, SharedOpening};
use std::fs::File;
use std::random::RandomSource;
use std::rt::Files;

/// Opens a folder that other processes serve at the same time: takes its lock together with them. A fault is told by the
/// folder's name.
pub fn open_shared<
    R: Files<File = File> + AllocGlobal + RandomSource + Clone + Drop + Log + Eprint,
>(
    rt: &R,
    folder: &str,
    settings: &StoreSettings,
    synced: bool,
) -> Result<FileFolder<R>, ProgramFault>
    ensures { IfOk result (λ store. IsSharedAs folder.now settings.now (string_bytes store.top)
        store.made) }
{
    match roomy(rt, folder, open_locked(rt, folder, settings, synced)) {
        Ok(store) => {
            info!(rt; "{folder}: in use, as others may have it too");
            Ok(store)
        }
        Err(fault) => Err(report_fault(rt, folder, fault)),
    }
}

/// The store in a folder, with the folder's lock, and with random bytes that no other process has.
fn open_locked<R: Files<File = File> + AllocGlobal + RandomSource + Clone + Drop>(
    rt: &R,
    folder: &str,
    settings: &StoreSettings,
    synced: bool,
) -> Result<FileFolder<R>, FolderFault>
    ensures { IfOk result (λ store. IsSharedAs folder.now settings.now (string_bytes store.top)
        store.made) }
{
    let lock = FolderLock::take_shared(rt, folder)?;
    let mut random = [0; 16];
    rt.fill_bytes(&mut random)?;
    let opening = SharedOpening {
        folder,
        settings: *settings,
        random,
        synced,
    };
    SharedFolder::open(rt.clone()?, lock, &opening)
}
