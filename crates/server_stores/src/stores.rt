//! The stores of the gateway.
ghost use Rattle.std.specs.Prelude.{◌≡◌, ℕ, true, List, Option, IfOk, OnOk};
ghost use Rattle.std.specs.Option.{option_map};
ghost use Rattle.share_store.specs.Schedule.{failing_call, fails_for_good};
ghost use Rattle.server_stores.specs.Kinds.{AreOfKinds, IsInFolder, IsInSharedFolder, IsOfKind, IsOnDisk, IsOneMore, IsOnRedis, IsOutOfReach};
ghost use Rattle.server_stores.specs.Opened.{IsOpenedAs};

use crate::any_store::AnyStore;
use crate::fault::ProgramFault;
use crate::folder_look::{FolderLook, log_seen, refuse_mistakes};
use crate::folders::{
    DiskStore, FolderStore, Found, Opening, look, open_folder, open_on_disk, report_fault,
};
use crate::missing_store::unreachable_store;
use crate::redis_stores::{OnRedis, RedisOpening, open_on_redis, read_password};
use crate::shared_folders::open_shared;
use folder_shelf::StoreSettings;
use log::Log;
use server_options::{Options, RedisPlace, StoreWanted};
use share_store::{FailAt, MemStore};
use shared_folder::FileFolder;
use std::fs::File;
use std::net::{Net, SocketAddr, ToSocketAddrs};
use std::random::RandomSource;
use std::rt::Files;
use std::time::Clock;

/// A server's store: in memory alone, in memory and in a folder, on a disk alone, on a Redis server, in a folder that
/// others serve too, or out of reach.
pub type ServerStore<R> = AnyStore<
    MemStore,
    FolderStore<R>,
    DiskStore<R>,
    OnRedis<R>,
    FileFolder<R>,
    FailAt,
>;

/// The stores that are wanted, one for each, opened in their order: the settings are those of the grid's first server.
/// Each folder is looked at before one is opened, so that none is begun where another is refused, or by mistake. Of one
/// that is missing nothing is read, made or written.
/// `Stores` where they are more than servers can be numbered.
pub fn open_stores<
    R: Files<File = File> + AllocGlobal + Net + Clock + RandomSource + Clone + Drop + Log + Eprint,
>(rt: &R, options: &Options<'_>, first: &StoreSettings) -> Result<Vec<ServerStore<R>>, ProgramFault>
    ensures { IfOk result (λ stores. (password : Option (List ℕ))
        × AreOfKinds 0 options.now.stores.items stores.items (λ server place on_redis. IsOpenedAs
        place.name.now (record first.now { place = server }) password
        on_redis.grid on_redis.longest on_redis.connection.first)) }
{
    let seen = look_at_each(rt, options, first)?;
    refuse_mistakes(rt, &seen)?;
    look_for_twins(rt, &options.stores)?;
    log_seen(rt, &seen)?;
    let password = read_password(rt, options.redis_password_file)?;
    let said = password.as_deref();
    let mut stores = Vec::with_capacity(rt.alloc(), options.stores.len())?;
    for wanted in &options.stores {
        let Ok(place) = u16::try_from(stores.len()) else {
            return Err(ProgramFault::Stores);
        };
        let asked = Asked {
            settings: StoreSettings { place, ..*first },
            synced: options.synced,
            password: said,
        };
        open_behind(rt, wanted, &asked, &mut stores)?;
    }
    Ok(stores)
}

/// Opens one store and puts it behind the others.
fn open_behind<
    R: Files<File = File> + AllocGlobal + Net + Clock + RandomSource + Clone + Drop + Log + Eprint,
>(
    rt: &R,
    wanted: &StoreWanted<'_>,
    asked: &Asked<'_>,
    stores: &mut Vec<ServerStore<R>>,
) -> Result<(), ProgramFault>
    ensures { OnOk result (IsOneMore stores.old.items stores.new.items (λ store.
        IsOfKind wanted.now store (λ place on_redis. IsOpenedAs
        place.name.now asked.now.settings (option_map (λ password. password.now) asked.now.password)
        on_redis.grid on_redis.longest on_redis.connection.first))) }
{
    match open_wanted(rt, wanted, asked) {
        Ok(store) => Ok(stores.push(store)?),
        Err(fault) => Err(fault),
    }
}

/// What stands in each folder that isn't missing. One with other settings, or with files and none, is refused. Nothing is
/// written.
fn look_at_each<'a, R: Files + AllocGlobal + Clone + Drop + Eprint>(
    rt: &R,
    options: &Options<'a>,
    first: &StoreSettings,
) -> Result<Vec<FolderLook<'a>>, ProgramFault> {
    let mut seen = Vec::with_capacity(rt.alloc(), options.stores.len())?;
    for (place, wanted) in (0..first.servers).zip(&options.stores) {
        let settings = StoreSettings { place, ..*first };
        if let Some(folder) = wanted.folder() {
            match look(rt, folder, &settings) {
                Ok(found) => seen.push(FolderLook::new(folder, found, &options.new))?,
                Err(fault) => return Err(report_fault(rt, folder, fault)),
            }
        }
        if let Some(folder) = wanted.missing_folder() {
            seen.push(FolderLook::new(folder, Found::Missing, &options.new))?;
        }
    }
    Ok(seen)
}

/// Refuses two stores of one name on one Redis server, whatever the server is called: they would have their shares in the
/// same place.
fn look_for_twins<R: Net + AllocGlobal>(
    rt: &R,
    stores: &[StoreWanted<'_>],
) -> Result<(), ProgramFault> {
    for at in 0..stores.len() {
        if let StoreWanted::Redis(place, _) = &stores[at] {
            if has_twin(rt, place, &stores[at + 1..]) {
                return Err(ProgramFault::Stores);
            }
        }
    }
    Ok(())
}

/// Whether one of these stores has the same name on the same Redis server.
fn has_twin<R: Net + AllocGlobal>(
    rt: &R,
    place: &RedisPlace<'_>,
    others: &[StoreWanted<'_>],
) -> bool {
    for other in others {
        if let StoreWanted::Redis(other, _) = other {
            if other.name == place.name && is_one_server(rt, place.address, other.address) {
                return true;
            }
        }
    }
    false
}

/// Whether two names of servers lead to one address. A host that isn't known leads to none.
fn is_one_server<R: Net + AllocGlobal>(rt: &R, first: &str, second: &str) -> bool {
    let Ok(addresses) = first.to_socket_addrs(rt) else {
        return false;
    };
    for address in addresses {
        if leads_to(rt, second, address) {
            return true;
        }
    }
    false
}

/// Whether a server's name leads to this address.
fn leads_to<R: Net + AllocGlobal>(rt: &R, name: &str, address: SocketAddr) -> bool {
    let Ok(addresses) = name.to_socket_addrs(rt) else {
        return false;
    };
    for other in addresses {
        if other == address {
            return true;
        }
    }
    false
}

/// What stores are opened with, wherever they have their shares.
#[derive(Clone, Copy)]
struct Asked<'a> {
    /// Those of the server at hand.
    settings: StoreSettings,
    /// Whether changes in folders are synced.
    synced: bool,
    /// That of each Redis server.
    password: Option<&'a [u8]>,
}

impl<'a> Asked<'a> {
    /// How a store at this place is opened.
    fn on_redis(&self, place: RedisPlace<'a>) -> RedisOpening<'a>
        ensures { result ≡ record {
          place = place.entry;
          settings = self.now.settings;
          password = self.now.password;
        } }
    {
        RedisOpening {
            place,
            settings: self.settings,
            password: self.password,
        }
    }

    /// How a folder with this room is opened.
    fn opening(&self, room: u64) -> Opening {
        Opening {
            settings: self.settings,
            room,
            synced: self.synced,
        }
    }
}

/// Opens one store, of the kind that is wanted.
fn open_wanted<
    R: Files<File = File> + AllocGlobal + Net + Clock + RandomSource + Clone + Drop + Log + Eprint,
>(rt: &R, wanted: &StoreWanted<'_>, asked: &Asked<'_>) -> Result<ServerStore<R>, ProgramFault>
    ensures { IfOk result (λ store. IsOfKind wanted.now store (λ place on_redis. IsOpenedAs
        place.name.now asked.now.settings (option_map (λ password. password.now) asked.now.password)
        on_redis.grid on_redis.longest on_redis.connection.first)) }
{
    match wanted {
        StoreWanted::Memory(room) => Ok(AnyStore::InMemory(MemStore::new(rt.alloc(), *room))),
        StoreWanted::Folder(folder, room) => open_kept(rt, *folder, &asked.opening(*room)),
        StoreWanted::Disk(folder, room) => open_disk(rt, *folder, &asked.opening(*room)),
        StoreWanted::Shared(folder) => open_beside_others(rt, *folder, asked),
        StoreWanted::Redis(place, _) => open_redis(rt, &asked.on_redis(*place)),
        StoreWanted::Missing(_) => Ok(out_of_reach(unreachable_store(rt.alloc()))),
    }
}

/// Opens one store in memory and in a folder.
fn open_kept<R: Files<File = File> + AllocGlobal + Net + Clock + Clone + Drop + Log + Eprint>(
    rt: &R,
    folder: &str,
    opening: &Opening,
) -> Result<ServerStore<R>, ProgramFault>
    ensures { IfOk result IsInFolder }
{
    match open_folder(rt, folder, opening) {
        Ok(store) => Ok(AnyStore::InFolder(store)),
        Err(fault) => Err(fault),
    }
}

/// Opens one store on a disk alone.
fn open_disk<R: Files<File = File> + AllocGlobal + Net + Clock + Clone + Drop + Log + Eprint>(
    rt: &R,
    folder: &str,
    opening: &Opening,
) -> Result<ServerStore<R>, ProgramFault>
    ensures { IfOk result IsOnDisk }
{
    match open_on_disk(rt, folder, opening) {
        Ok(store) => Ok(AnyStore::OnDisk(store)),
        Err(fault) => Err(fault),
    }
}

/// Opens one store in a folder that others serve too.
fn open_beside_others<
    R: Files<File = File> + AllocGlobal + Net + Clock + RandomSource + Clone + Drop + Log + Eprint,
>(rt: &R, folder: &str, asked: &Asked<'_>) -> Result<ServerStore<R>, ProgramFault>
    ensures { IfOk result IsInSharedFolder }
{
    match open_shared(rt, folder, &asked.settings, asked.synced) {
        Ok(store) => Ok(AnyStore::InSharedFolder(store)),
        Err(fault) => Err(fault),
    }
}

/// Opens one store on a Redis server.
fn open_redis<R: Files + AllocGlobal + Net + Clock + Clone + Drop + Log + Eprint>(
    rt: &R,
    opening: &RedisOpening<'_>,
) -> Result<ServerStore<R>, ProgramFault>
    ensures { IfOk result (λ store. IsOnRedis store (λ on_redis. IsOpenedAs
        opening.now.place.name.now opening.now.settings
        (option_map (λ password. password.now) opening.now.password)
        on_redis.grid on_redis.longest on_redis.connection.first)) }
{
    match open_on_redis(rt, opening) {
        Ok(store) => Ok(AnyStore::OnRedis(store)),
        Err(fault) => Err(fault),
    }
}

/// The store of a server whose folder is missing.
fn out_of_reach<R: Files<File = File> + AllocGlobal + Net + Clock + Clone + Drop>(
    store: FailAt,
) -> ServerStore<R>
    requires next { failing_call store ≡ 1 }
    requires for_good { fails_for_good store ≡ true }
    ensures { IsOutOfReach result }
{
    AnyStore::OutOfReach(store)
}
