//! Stores on Redis servers.
ghost use Rattle.std.specs.Prelude.{◌≡◌, true, IfOk, IfNone, IfSome};
ghost use Rattle.std.specs.Option.{option_map};
ghost use Rattle.server_stores.specs.Opened.{IsDown, IsOpenedAs, IsToldAs};
ghost use Rattle.server_stores.specs.Prefix.{prefix};

use crate::fault::ProgramFault;
use crate::small_files::read_at_most;
use folder_shelf::StoreSettings;
use log::{Log, info, warn};
use octets::Bytes;
use redis_store::{PacedLink, RedisStore, Server, ServerFault};
use server_options::RedisPlace;
use std::alloc::{AllocError, Global};
use std::net::{Net, SocketAddr, ToSocketAddrs};
use std::rt::Files;
use std::time::Clock;

/// How many bytes a share may have on a Redis server: more than one of the largest body has.
const LONGEST: u32 = 67_108_864;

/// A store whose shares are on a Redis server alone.
pub type OnRedis<R> = RedisStore<PacedLink<R>>;

/// How a store on a Redis server is opened.
#[derive(Clone, Copy)]
pub struct RedisOpening<'a> {
    /// The server, and the store's name there.
    pub place: RedisPlace<'a>,
    /// Whose it is to be.
    pub settings: StoreSettings,
    /// The server's password, if it wants one.
    pub password: Option<&'a [u8]>,
}

/// How many bytes a password may have, with a line's end behind it.
const LONGEST_PASSWORD: usize = 65_536;

/// The bytes of a file but for a line's end behind them, and none where there is no such file. A file of more than 65,536
/// bytes isn't read to its end.
pub fn read_password<R: AllocGlobal + Files>(
    rt: &R,
    path: Option<&str>,
) -> Result<Option<Vec<u8>>, ProgramFault> {
    let Some(path) = path else {
        return Ok(None);
    };
    let Ok(mut password) = read_at_most(rt, path, LONGEST_PASSWORD) else {
        return Err(ProgramFault::PasswordUnread);
    };
    if password.len() > LONGEST_PASSWORD {
        return Err(ProgramFault::PasswordUnread);
    }
    if password.last() == Some(&b'\n') {
        let _ = password.pop();
    }
    Ok(Some(password))
}

/// Opens a store on a Redis server, which is asked whose it is and nothing else. One that is down is logged: its store
/// asks again when it is called. One that is another's is refused, and told by its name.
pub fn open_on_redis<R: AllocGlobal + Net + Clock + Clone + Drop + Log + Eprint>(
    rt: &R,
    opening: &RedisOpening<'_>,
) -> Result<OnRedis<R>, ProgramFault>
    ensures { IfOk result (λ store. IsOpenedAs opening.now.place.name.now opening.now.settings
        (option_map (λ password. password.now) opening.now.password)
        store.grid store.longest store.connection.first) }
{
    match open_place(rt, opening) {
        Ok(store) => Ok(store),
        Err(fault) => Err(told(rt, opening.place.address, fault)),
    }
}

/// Opens a store on a Redis server as [`open_on_redis`] does, but for one that is down: it is refused too, by its name.
pub fn open_on_answering_redis<R: AllocGlobal + Net + Clock + Clone + Drop + Log + Eprint>(
    rt: &R,
    opening: &RedisOpening<'_>,
) -> Result<OnRedis<R>, ProgramFault>
    ensures { IfOk result (λ store. IsOpenedAs opening.now.place.name.now opening.now.settings
        (option_map (λ password. password.now) opening.now.password)
        store.grid store.longest store.connection.first) }
{
    let address = opening.place.address;
    match reach_any(rt, opening) {
        Ok(Some(store)) => Ok(store),
        Ok(None) => Err(told(rt, address, ProgramFault::Redis(ServerFault::Link))),
        Err(fault) => Err(told(rt, address, fault)),
    }
}

/// Warns where a server says of itself that it throws shares away, or loses all at its own end.
fn warn_of_losses<R: AllocGlobal + Net + Clock + Drop + Log>(
    rt: &R,
    name: &str,
    store: &mut OnRedis<R>,
)
    ensures { (store.new.grid ≡ store.old.grid) × (store.new.longest ≡ store.old.longest)
        × (store.new.connection.first ≡ store.old.connection.first) }
{
    if let Ok(Some(policy)) = store.setting(b"maxmemory-policy") {
        if policy.as_slice() != b"noeviction".as_slice() {
            warn!(rt; "redis:{name}: throws shares away where its memory is full: set maxmemory-policy noeviction");
        }
    }
    if says(store, b"appendonly", b"no") && says(store, b"save", b"") {
        warn!(rt; "redis:{name}: keeps nothing over its own end: set appendonly yes");
    }
}

/// Whether a server says this of a setting of its own.
fn says<R: Net + Clock + Drop>(store: &mut OnRedis<R>, setting: &[u8], value: &[u8]) -> bool
    ensures { (store.new.grid ≡ store.old.grid) × (store.new.longest ≡ store.old.longest)
        × (store.new.connection.first ≡ store.old.connection.first) }
{
    match store.setting(setting) {
        Ok(Some(said)) => said.as_slice() == value,
        _ => false,
    }
}

/// The store at the first address of a server that answers, if one does.
fn reach_any<R: AllocGlobal + Net + Clock + Clone + Drop + Log>(
    rt: &R,
    opening: &RedisOpening<'_>,
) -> Result<Option<OnRedis<R>>, ProgramFault>
    ensures { IfOk result (λ found. IfSome found (λ store. IsOpenedAs opening.now.place.name.now
        opening.now.settings (option_map (λ password. password.now) opening.now.password)
        store.grid store.longest store.connection.first)) }
{
    let Ok(addresses) = opening.place.address.to_socket_addrs(rt) else {
        return Err(ProgramFault::RedisUnknown);
    };
    for address in addresses {
        if let Some(store) = reach(rt, address, opening)? {
            return Ok(Some(store));
        }
    }
    Ok(None)
}

/// Tells a fault of a Redis server by the server's name on standard error.
fn told<R: Eprint>(rt: &R, address: &str, fault: ProgramFault) -> ProgramFault {
    if fault.is_of_a_store() {
        let _ = eprintln!(rt; "wozhinnam: redis:{address}: {fault}");
    }
    fault
}

/// The store at the first address of a server that answers, or else at the first of all.
fn open_place<R: AllocGlobal + Net + Clock + Clone + Drop + Log>(
    rt: &R,
    opening: &RedisOpening<'_>,
) -> Result<OnRedis<R>, ProgramFault>
    ensures { IfOk result (λ store. IsOpenedAs opening.now.place.name.now opening.now.settings
        (option_map (λ password. password.now) opening.now.password)
        store.grid store.longest store.connection.first) }
{
    let name = opening.place.address;
    let Ok(addresses) = name.to_socket_addrs(rt) else {
        return Err(ProgramFault::RedisUnknown);
    };
    let mut first = None;
    for address in addresses {
        if let Some(mut store) = reach(rt, address, opening)? {
            info!(rt; "redis:{name}: in use");
            warn_of_losses(rt, name, &mut store);
            return Ok(store);
        }
        if first.is_none() {
            first = Some(address);
        }
    }
    let Some(address) = first else {
        return Err(ProgramFault::RedisUnknown);
    };
    warn!(rt; "redis:{name}: served without, until it answers");
    store_at(rt, address, opening)
}

/// The store at this address, which was asked whose it is. `None` where it is down, which is logged.
fn reach<R: AllocGlobal + Net + Clock + Clone + Drop + Log>(
    rt: &R,
    address: SocketAddr,
    opening: &RedisOpening<'_>,
) -> Result<Option<OnRedis<R>>, ProgramFault>
    ensures opened { IfOk result (λ found. IfSome found (λ store. IsOpenedAs opening.now.place.name.now
        opening.now.settings (option_map (λ password. password.now) opening.now.password)
        store.grid store.longest store.connection.first)) }
    ensures open { IfOk result (λ found. IfSome found (λ store. store.connection.is_open ≡ true)) }
{
    let mut store = store_at(rt, address, opening)?;
    match store.reach() {
        Ok(()) => Ok(Some(store)),
        Err(fault) => match why_refused(fault) {
            Some(refused) => Err(refused),
            None => {
                warn!(rt; "redis:{}: not at {address}: {fault}", opening.place.address);
                Ok(None)
            }
        },
    }
}

/// The store at this address. Nothing is asked yet.
fn store_at<R: AllocGlobal + Net + Clock + Clone + Drop>(
    rt: &R,
    address: SocketAddr,
    opening: &RedisOpening<'_>,
) -> Result<OnRedis<R>, ProgramFault>
    ensures { IfOk result (λ store. IsOpenedAs opening.now.place.name.now opening.now.settings
        (option_map (λ password. password.now) opening.now.password)
        store.grid store.longest store.connection.first) }
{
    let link = PacedLink::new(rt.clone()?, address);
    let server = server_of(rt.alloc(), opening)?;
    Ok(RedisStore::new(rt.alloc(), link, server)?)
}

/// Why a start is refused where a server answered so to its first question. A server that is down is no reason.
fn why_refused(fault: ServerFault) -> Option<ProgramFault>
    ensures down { IfNone result (IsDown fault) }
    ensures refused { IfSome result (λ refused. (IsDown fault → ⊥) × IsToldAs fault refused) }
{
    match fault {
        ServerFault::Link
        | ServerFault::Closed
        | ServerFault::Late
        | ServerFault::NotOpened
        | ServerFault::Resting => None,
        ServerFault::NoMemory => Some(ProgramFault::NoMemory),
        _ => Some(ProgramFault::Redis(fault)),
    }
}

/// What a store has to know of its server.
fn server_of(alloc: Global, opening: &RedisOpening<'_>) -> Result<Server, AllocError>
    ensures grid { IfOk result (λ server. server.grid ≡ prefix opening.now.place.name.now) }
    ensures settings { IfOk result (λ server. server.settings ≡ opening.now.settings) }
    ensures password { IfOk result (λ server. server.password
        ≡ option_map (λ password. password.now) opening.now.password) }
    ensures longest { IfOk result (λ server. server.longest ≡ 67_108_864) }
{
    let password = match opening.password {
        Some(password) => Some(Bytes::from_slice(alloc, password)?),
        None => None,
    };
    Ok(Server {
        grid: names_begin(alloc, opening.place.name)?,
        settings: opening.settings,
        password,
        longest: LONGEST,
    })
}

/// The bytes with which the names of a store's shares begin: `wozhinnam:NAME:`.
fn names_begin(alloc: Global, name: &str) -> Result<Bytes, AllocError>
    ensures { IfOk result (λ begin. begin ≡ prefix name.now) }
{
    let text = format!(in alloc; "wozhinnam:{name}:")?;
    Ok(Bytes::from_vec(text.into_bytes()))
}
