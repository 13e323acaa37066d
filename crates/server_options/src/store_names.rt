//! Stores and their names.
ghost use Rattle.std.specs.Prelude.{◌≡◌, ◌≢◌, ◌++◌, ◌==◌, ◌↔◌, ℕ, IfSome, IsTrue, None, Some, bytes_eq, codes, false, map, option_map};
ghost use Rattle.std.specs.List.{list_any};
ghost use Rattle.server_options.specs.Folders.{folder_of};
ghost use Rattle.server_options.specs.Handles.{keeps_handle};
ghost use Rattle.server_options.specs.Missing.{has_path, missing_folder_of, or_missing};
ghost use Rattle.server_options.specs.Named.{IsHost, IsNameOf, IsPort, IsServerAddress, IsSized};

use crate::sizes::read_size;

/// A store that is wanted, with the bytes for which it has room.
#[derive(Clone, Copy, Debug, PartialEq, Eq)]
pub enum StoreWanted<'a> {
    /// One in memory alone.
    Memory(u64),
    /// One that keeps its shares in this folder too.
    Folder(&'a str, u64),
    /// One that has its shares in this folder alone.
    Disk(&'a str, u64),
    /// One that has its shares in this folder alone, which other programs may serve at the same time.
    Shared(&'a str),
    /// One that has its shares on a Redis server alone.
    Redis(RedisPlace<'a>, u64),
    /// One whose shares are in this folder, which is missing: the server is to be served without.
    Missing(&'a str),
}

/// Where a store has its shares on a Redis server.
#[derive(Clone, Copy, Debug, PartialEq, Eq)]
pub struct RedisPlace<'a> {
    /// The server: HOST:PORT.
    pub address: &'a str,
    /// What tells the names of its shares from those of other stores on that server. It may be empty.
    pub name: &'a str,
}

impl<'a> StoreWanted<'a> {
    /// The folder in which it keeps its shares, if there is one, and it isn't missing.
    pub fn folder(&self) -> Option<&'a str>
        ensures { option_map (λ folder. folder.now) result ≡ folder_of self.now }
    {
        match self {
            StoreWanted::Memory(_) => None,
            StoreWanted::Folder(folder, _) => Some(*folder),
            StoreWanted::Disk(folder, _) => Some(*folder),
            StoreWanted::Shared(folder) => Some(*folder),
            StoreWanted::Redis(_, _) => None,
            StoreWanted::Missing(_) => None,
        }
    }

    /// The folder in which its shares are, where that is missing.
    pub fn missing_folder(&self) -> Option<&'a str>
        ensures { option_map (λ folder. folder.now) result ≡ missing_folder_of self.now }
    {
        match self {
            StoreWanted::Missing(folder) => Some(*folder),
            _ => None,
        }
    }

    /// The same store, but a missing one where its folder has one of these paths.
    pub fn or_missing(&self, missing: &[&str]) -> StoreWanted<'a>
        ensures { result ≡ or_missing (map (λ path. path.now) missing.now) self.now }
    {
        match self {
            StoreWanted::Folder(folder, _) if is_among(missing, *folder) => {
                StoreWanted::Missing(*folder)
            }
            StoreWanted::Disk(folder, _) if is_among(missing, *folder) => {
                StoreWanted::Missing(*folder)
            }
            StoreWanted::Shared(folder) if is_among(missing, *folder) => {
                StoreWanted::Missing(*folder)
            }
            _ => *self,
        }
    }

    /// Whether it keeps its shares in the folder of this path.
    pub fn is_in(&self, path: &str) -> bool
        ensures { IsTrue result ↔ (folder_of self.now ≡ Some path.now) }
    {
        match self.folder() {
            Some(folder) => folder == path,
            None => false,
        }
    }

    /// Where on a Redis server it has its shares, if it has them on one.
    pub fn redis(&self) -> Option<RedisPlace<'a>>
        ensures place { IfSome result (λ place. (room : ℕ)
            × (self.now ≡ StoreWanted.Redis place room)) }
        ensures none { result ≡ None → (place : RedisPlace) (room : ℕ) →
            self.now ≢ StoreWanted.Redis place room }
    {
        match self {
            StoreWanted::Redis(place, _) => Some(*place),
            _ => None,
        }
    }

    /// Whether it keeps a file or a socket open: the lock of its folder, or its connection.
    pub fn keeps_handle(&self) -> bool
        ensures { result ≡ keeps_handle self.now }
    {
        match self {
            StoreWanted::Memory(_) => false,
            StoreWanted::Missing(_) => false,
            _ => true,
        }
    }
}

/// Whether a path is one of these.
fn is_among(paths: &[&str], folder: &str) -> bool
    ensures { result ≡ has_path (map (λ path. path.now) paths.now) folder.now }
{
    any_is(paths, folder)
}

/// Whether one of these paths is written as another one.
fn any_is(paths: &[&str], folder: &str) -> bool
    ensures { result ≡ list_any (λ path. bytes_eq path.now folder.now) paths.now }
{
    paths.iter().any(|path| is_path(*path, folder))
}

/// Whether two paths are written alike.
fn is_path(path: &str, other: &str) -> bool
    ensures { result ≡ bytes_eq path.now other.now }
{
    path == other
}

/// A store by its name: `mem:BYTES`, `dir:PATH`, `dir:PATH:BYTES`, `dir:PATH:BYTES,disk`, `dir:PATH,shared` or
/// `redis:HOST:PORT[/NAME][:BYTES]`. A path with a colon in it, or with `,disk` or `,shared` at its end, wants the bytes
/// behind it; a shared one has no bytes, and so no colon. A host with a colon in it stands in brackets, and a NAME has no
/// colon. BYTES are what [`read_size`] reads.
pub fn read_store(name: &str, room: u64) -> Option<StoreWanted<'_>>
    ensures { IfSome result (IsNameOf room name.now) }
{
    if let Some(bytes) = name.strip_prefix("mem:") {
        return read_memory(bytes);
    }
    if let Some(folder) = name.strip_prefix("dir:") {
        return read_folder(folder, room);
    }
    match name.strip_prefix("redis:") {
        Some(place) => read_redis(place, room),
        None => None,
    }
}

/// The place on a Redis server that a word names: `redis:HOST:PORT[/NAME]`. `None` where it names none.
pub fn read_redis_place(word: &str) -> Option<RedisPlace<'_>>
    ensures { IfSome result (λ place. (room : ℕ)
        × IsNameOf 0 word.now (StoreWanted.Redis place room)) }
{
    match read_store(word, 0) {
        Some(store) => store.redis(),
        None => None,
    }
}

/// A store in memory, by its bytes.
fn read_memory<'a>(bytes: &str) -> Option<StoreWanted<'a>>
    ensures { (otherwise : ℕ) → IfSome result (IsNameOf otherwise (codes "mem:" ++ bytes.now)) }
{
    match read_size(bytes) {
        Some(room) => Some(StoreWanted::Memory(room)),
        None => None,
    }
}

/// A store in a folder, by what follows `dir:`.
fn read_folder(folder: &str, room: u64) -> Option<StoreWanted<'_>>
    ensures { IfSome result (IsNameOf room (codes "dir:" ++ folder.now)) }
{
    if let Some(sized) = folder.strip_suffix(",disk") {
        return match read_sized(sized) {
            Some((path, room)) => Some(StoreWanted::Disk(path, room)),
            None => None,
        };
    }
    if let Some(path) = folder.strip_suffix(",shared") {
        return read_shared(path);
    }
    if has_colon(folder) {
        return match read_sized(folder) {
            Some((path, room)) => Some(StoreWanted::Folder(path, room)),
            None => None,
        };
    }
    if folder.is_empty() {
        None
    } else {
        Some(StoreWanted::Folder(folder, room))
    }
}

/// A store in a folder that others may serve, by its path. Nobody knows its room, so none is given: a path with a colon
/// names none.
fn read_shared(path: &str) -> Option<StoreWanted<'_>>
    ensures { (otherwise : ℕ) → IfSome result (IsNameOf otherwise
        (codes "dir:" ++ (path.now ++ codes ",shared"))) }
{
    if path.is_empty() || has_colon(path) {
        None
    } else {
        Some(StoreWanted::Shared(path))
    }
}

/// A store on a Redis server, by what follows `redis:`.
fn read_redis(text: &str, room: u64) -> Option<StoreWanted<'_>>
    ensures { IfSome result (IsNameOf room (codes "redis:" ++ text.now)) }
{
    match text.split_once('/') {
        Some((address, behind)) => read_named_place(address, behind, room),
        None => read_unnamed_place(text, room),
    }
}

/// A store under a name on the server at this address: NAME or NAME:BYTES.
fn read_named_place<'a>(address: &'a str, behind: &'a str, room: u64) -> Option<StoreWanted<'a>>
    ensures { IfSome result (IsNameOf room
        (codes "redis:" ++ (address.now ++ (codes "/" ++ behind.now)))) }
{
    if has_colon(behind) {
        return match read_sized(behind) {
            Some((name, room)) => on_redis(address, name, room),
            None => None,
        };
    }
    if behind.is_empty() {
        None
    } else {
        on_redis(address, behind, room)
    }
}

/// A store under no name: HOST:PORT or HOST:PORT:BYTES.
fn read_unnamed_place(text: &str, room: u64) -> Option<StoreWanted<'_>>
    ensures { IfSome result (IsNameOf room (codes "redis:" ++ text.now)) }
{
    if is_address(text) {
        return on_redis(text, "", room);
    }
    match read_sized(text) {
        Some((address, room)) => on_redis(address, "", room),
        None => None,
    }
}

/// A store on the Redis server at this address, if it is one.
fn on_redis<'a>(address: &'a str, name: &'a str, room: u64) -> Option<StoreWanted<'a>>
    ensures { IfSome result (λ store.
        (store ≡ StoreWanted.Redis (record { address = address.entry; name = name.entry }) room)
        × IsServerAddress address.entry.now
        × (list_any (λ b. b == 58) name.entry.now ≡ false)) }
{
    if is_address(address) && !has_colon(name) {
        Some(StoreWanted::Redis(RedisPlace { address, name }, room))
    } else {
        None
    }
}

/// Whether a text is HOST:PORT, without a slash in it.
fn is_address(text: &str) -> bool
    ensures { IsTrue result → IsServerAddress text.now }
{
    let Some((host, port)) = text.rsplit_once(':') else {
        return false;
    };
    if !is_host(host) {
        return false;
    }
    if !is_port(port) {
        return false;
    }
    !has_slash(text)
}

/// Whether a text may be a host: one with a colon in it stands in brackets.
fn is_host(text: &str) -> bool
    ensures { IsTrue result → IsHost text.now }
{
    if has_colon(text) {
        text.starts_with('[') && text.ends_with(']')
    } else {
        !text.is_empty()
    }
}

/// Whether a text is a port: a number in decimal, below 65,536, behind a plus or none.
fn is_port(text: &str) -> bool
    ensures { IsTrue result → IsPort text.now }
{
    match text.parse::<u16>() {
        Ok(_) => true,
        Err(_) => false,
    }
}

/// Whether a text has a colon.
fn has_colon(text: &str) -> bool
    ensures { result ≡ list_any (λ b. b == 58) text.now }
{
    text.contains(':')
}

/// Whether a text has a slash.
fn has_slash(text: &str) -> bool
    ensures { result ≡ list_any (λ b. b == 47) text.now }
{
    text.contains('/')
}

/// A text and the bytes behind its last colon.
fn read_sized(text: &str) -> Option<(&str, u64)>
    ensures { IfSome result (λ parts. IsSized text.now parts.0.now parts.1) }
{
    let Some((path, bytes)) = text.rsplit_once(':') else {
        return None;
    };
    if path.is_empty() {
        return None;
    }
    match read_size(bytes) {
        Some(bytes) => Some((path, bytes)),
        None => None,
    }
}
