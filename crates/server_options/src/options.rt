//! What the program is asked for.
ghost use Rattle.std.specs.Prelude.{◌≡◌, ◌≢◌, ◌<◌, ◌≤◌, ◌^◌, ℕ, true, All, Any, Err, IfOk, IfSome, IsFalse, IsTrue, None, Some, codes, count_by, length, map, option_map, string_bytes};
ghost use Rattle.clap.specs.Words.{app_of, first_of, is_simple, subcommand_of, subcommand_rows_of};
ghost use Rattle.command_words.specs.Given.{given_rows, word_of, words_of};
ghost use Rattle.octets.specs.Sharing.{IsSharing};
ghost use Rattle.server_options.specs.Asked.{AreServeOptions, AreSharesGiven, AreStoresGiven, AreStoresServed, IsTaskGiven, IsAskedBy, IsRepairing, IsReshaping, IsRestoring};
ghost use Rattle.server_options.specs.Folders.{folder_of, IsStoreFolder};
ghost use Rattle.server_options.specs.Given.{IsNumberGiven, IsNumberIfGiven};
ghost use Rattle.server_options.specs.Handles.{keeps_handle};
ghost use Rattle.server_options.specs.Listening.{HasNoComma, listen_text};
ghost use Rattle.server_options.specs.Logging.{named_level, named_format};
ghost use Rattle.server_options.specs.Missing.{IsPresent, or_missing};
ghost use Rattle.server_options.specs.Named.{AreNamesOf};
ghost use Rattle.server_options.specs.Shares.{IsCountOf, IsPairOf};
ghost use Rattle.server_options.specs.Size.{written_size};

use crate::arguments::program;
use crate::listening::{ListenWanted, read_listen};
use crate::logging::{LogFormat, LogLevel, named_format, named_level};
use crate::sizes::read_size;
use crate::store_names::{StoreWanted, read_store};
use clap::{ArgMatches, Command, Error};
use command_words::{find_word, has_flag, word_of, words_of};
use octets::is_sharing;
use std::alloc::{AllocError, AllocFailed, Global};

/// How many stores there may be.
const MOST_STORES: usize = 256;

/// How often it may be said where connections are accepted.
const MOST_LISTENS: usize = 64;

/// What the program is asked for.
#[derive(Drop)]
pub enum Task<'a> {
    /// To serve connections.
    Serve(Options<'a>),
    /// To look through these folders.
    Check(Vec<&'a str>),
    /// To put the shares of a grid back that are missing or rotten.
    Repair(Repairing<'a>),
    /// To lay the shares of a grid into another number of folders.
    Reshape(Reshaping<'a>),
    /// To write the image of the grid in these folders.
    Image(Vec<&'a str>),
    /// To lay an image into new folders.
    Restore(Restoring<'a>),
}

/// How connections are to be served.
#[derive(Drop)]
pub struct Options<'a> {
    /// Where connections are accepted, and under which secrets: 1 to 64 times.
    pub listen: Vec<ListenWanted<'a>>,
    /// Where control requests are accepted, if anywhere.
    pub control: Option<&'a str>,
    /// The file whose bytes are the token that control requests have to bring, if they have to bring one.
    pub control_token_file: Option<&'a str>,
    /// How many of a file's shares give it back, and how many are made of it.
    pub shares: Shares,
    /// The stores, in the order of the servers. Those whose folders were named by `--missing` are missing ones.
    pub stores: Vec<StoreWanted<'a>>,
    /// The folders of stores that may be begun beside others of their grid.
    pub new: Vec<&'a str>,
    /// Whether changes in folders are synced.
    pub synced: bool,
    /// The file whose bytes are the gateway's secret.
    pub secret_file: Option<&'a str>,
    /// The file whose bytes are the password of each Redis server.
    pub redis_password_file: Option<&'a str>,
    /// The folder whose files are pages beside the web API, if one is named.
    pub pages: Option<&'a str>,
    /// Whether there are to be no pages.
    pub no_pages: bool,
    /// How many connections may be open at once.
    pub connections: usize,
    /// How many of them one address may have open, if that is said: 1 to 1,000,000.
    pub per_address: Option<usize>,
    /// For how many seconds one may be silent.
    pub idle: u64,
    /// How many bytes may be kept of all connections before those that send long requests, or ask for long replies, have to
    /// wait.
    pub memory: u64,
    /// Which lines the log has.
    pub log_level: LogLevel,
    /// How they are written.
    pub log_format: LogFormat,
}

impl Options<'_> {
    /// How many of the stores keep a file or a socket open.
    pub fn with_handles(&self) -> usize
        ensures { result ≡ count_by keeps_handle self.now.stores.items }
    {
        self.stores
            .iter()
            .filter(|store| store.keeps_handle())
            .count()
    }
}

/// The grid whose files are to be repaired.
#[derive(Drop)]
pub struct Repairing<'a> {
    /// Where its servers keep their shares, in their order: folders, and `redis:HOST:PORT[/NAME]` for Redis servers.
    pub places: Vec<&'a str>,
    /// The folders of stores that may be begun beside the others.
    pub new: Vec<&'a str>,
    /// Whether changes in folders are synced.
    pub synced: bool,
    /// The file whose bytes are the password of each Redis server.
    pub redis_password_file: Option<&'a str>,
}

/// The grid whose shares are to be laid into another number of folders.
#[derive(Drop)]
pub struct Reshaping<'a> {
    /// Its folders, in the order of its servers.
    pub from: Vec<&'a str>,
    /// The new folders, in the order of the servers to be.
    pub into: Vec<&'a str>,
    /// Whether changes in folders are synced.
    pub synced: bool,
}

/// What an image is to be laid into.
#[derive(Drop)]
pub struct Restoring<'a> {
    /// The image.
    pub file: &'a str,
    /// The folders, in the order of the servers.
    pub folders: Vec<&'a str>,
    /// How many of a file's shares give it back, and how many are made of it.
    pub shares: Shares,
    /// Whether changes in folders are synced.
    pub synced: bool,
    /// The file whose bytes are the gateway's secret.
    pub secret_file: Option<&'a str>,
}

/// How many of a file's shares give it back, and how many are made of it.
#[derive(Clone, Copy, Debug, PartialEq, Eq)]
pub struct Shares {
    pub needed: u16,
    pub made: u16,
}

/// Why there are no options.
#[derive(Drop)]
pub enum Refusal {
    /// The words are none of the program's, or ask for help or the version.
    Words(Error),
    /// `--listen` is neither ADDR nor ADDR,secret=PATH, or stands too often.
    Listen,
    /// `--shares` isn't two numbers as they are wanted.
    Shares,
    /// `--store` names no store, the same names on a Redis server twice, or stands too often.
    Stores,
    /// `--room` is no size.
    Room,
    /// `--memory` is no size.
    Memory,
    /// `--new` is the folder of no store, or of one that `--missing` names.
    New,
    /// `--missing` is the folder of no store.
    Missing,
    /// `--missing` names the folder of each store.
    AllMissing,
}

impl From<Error> for Refusal {
    fn from(error: Error) -> Refusal {
        Refusal::Words(error)
    }
}

impl From<AllocError> for Refusal {
    fn from(error: AllocError) -> Refusal {
        Refusal::Words(Error::from(error))
    }
}

impl<T: Drop> From<AllocFailed<T>> for Refusal {
    fn from(error: AllocFailed<T>) -> Refusal {
        Refusal::from(AllocError::from(error))
    }
}

/// Reads the words of a command line, the program's name first.
pub fn read_words<'a>(alloc: Global, words: &'a [String]) -> Result<Task<'a>, Refusal>
    ensures { IfOk result (IsAskedBy (map string_bytes words.now)) }
{
    let command = program(alloc)?;
    read_by(alloc, command, words)
}

/// Reads words by a command line.
fn read_by<'a>(
    alloc: Global,
    command: Command<'a>,
    words: &'a [String],
) -> Result<Task<'a>, Refusal>
    ensures { is_simple (app_of command.entry) ≡ true →
        IfOk result (IsTaskGiven (subcommand_of (app_of command.entry) (map string_bytes words.now))) }
{
    let matches = command.try_get_matches_from(words)?;
    read_task(alloc, &matches)
}

/// Reads what is asked for.
fn read_task<'a>(alloc: Global, matches: &ArgMatches<'a>) -> Result<Task<'a>, Refusal>
    ensures { IfOk result (IsTaskGiven (subcommand_rows_of matches.now)) }
{
    if let Some(given) = matches.subcommand_matches("serve") {
        Ok(Task::Serve(read_options(alloc, given)?))
    } else if let Some(given) = matches.subcommand_matches("check") {
        Ok(Task::Check(words_of(alloc, given, "paths")?))
    } else if let Some(given) = matches.subcommand_matches("repair") {
        Ok(Task::Repair(read_repairing(alloc, given)?))
    } else if let Some(given) = matches.subcommand_matches("reshape") {
        Ok(Task::Reshape(read_reshaping(alloc, given)?))
    } else if let Some(given) = matches.subcommand_matches("image") {
        Ok(Task::Image(words_of(alloc, given, "paths")?))
    } else if let Some(given) = matches.subcommand_matches("restore") {
        Ok(Task::Restore(read_restoring(alloc, given)?))
    } else {
        // `clap` takes no words without a verb.
        Err(Refusal::Shares)
    }
}

/// The file of more options that the words of a command line name, the program's name first. `serve` alone has one. Of the
/// words no more is read than whose they are, so they may still be refused.
pub fn read_config<'a>(alloc: Global, words: &'a [String]) -> Result<Option<&'a str>, Refusal> {
    let matches = program(alloc)?.try_get_matches_from(words)?;
    match matches.subcommand_matches("serve") {
        Some(given) => Ok(config_of(given)),
        None => Ok(None),
    }
}

/// The file of more options that was given.
fn config_of<'a>(given: &ArgMatches<'a>) -> Option<&'a str>
    ensures { option_map (λ s. s.now) result ≡ first_of (codes "config") (given_rows given.now) }
{
    find_word(given, "config")
}

/// Reads what was given with `serve`.
fn read_options<'a>(alloc: Global, given: &ArgMatches<'a>) -> Result<Options<'a>, Refusal>
    ensures read { IfOk result (AreServeOptions (given_rows given.now)) }
    ensures no_shares { ((k n : ℕ) → IsPairOf (word_of (codes "shares") (given_rows given.now))
        k n → ¬ (IsSharing k n)) → result ≡ Err Refusal.Shares }
{
    let Some(shares) = read_shares(word_of(given, "shares")) else {
        return Err(Refusal::Shares);
    };
    let listen = read_listens(alloc, given)?;
    let stores = read_served(alloc, given)?;
    let new = words_of(alloc, given, "new")?;
    if !are_folders_of(&stores, &new) {
        return Err(Refusal::New);
    }
    let memory = memory_of(given)?;
    let secret_file = find_word(given, "secret-file");
    Ok(Options {
        listen,
        control: find_word(given, "control"),
        control_token_file: find_word(given, "control-token-file"),
        shares,
        stores,
        new,
        synced: !has_flag(given, "no-sync"),
        secret_file,
        redis_password_file: find_word(given, "redis-password-file"),
        pages: find_word(given, "pages"),
        no_pages: has_flag(given, "no-pages"),
        connections: connections_of(given),
        per_address: per_address_of(given),
        idle: idle_of(given),
        memory,
        log_level: named_level(word_of(given, "log-level")),
        log_format: named_format(word_of(given, "log-format")),
    })
}

/// Reads what was given with `repair`.
fn read_repairing<'a>(alloc: Global, given: &ArgMatches<'a>) -> Result<Repairing<'a>, AllocError>
    ensures { IfOk result (IsRepairing (given_rows given.now)) }
{
    let places = words_of(alloc, given, "paths")?;
    let may_be_new = words_of(alloc, given, "new")?;
    let password_file = find_word(given, "redis-password-file");
    Ok(Repairing {
        places,
        new: may_be_new,
        synced: !has_flag(given, "no-sync"),
        redis_password_file: password_file,
    })
}

/// Reads what was given with `reshape`.
fn read_reshaping<'a>(alloc: Global, given: &ArgMatches<'a>) -> Result<Reshaping<'a>, AllocError>
    ensures { IfOk result (IsReshaping (given_rows given.now)) }
{
    let from = words_of(alloc, given, "paths")?;
    let into = words_of(alloc, given, "into")?;
    Ok(Reshaping {
        from,
        into,
        synced: !has_flag(given, "no-sync"),
    })
}

/// Reads what was given with `restore`.
fn read_restoring<'a>(alloc: Global, given: &ArgMatches<'a>) -> Result<Restoring<'a>, Refusal>
    ensures read { IfOk result (IsRestoring (given_rows given.now)) }
    ensures no_shares { ((k n : ℕ) → IsPairOf (word_of (codes "shares") (given_rows given.now))
        k n → ¬ (IsSharing k n)) → result ≡ Err Refusal.Shares }
{
    let Some(shares) = read_shares(word_of(given, "shares")) else {
        return Err(Refusal::Shares);
    };
    let folders = words_of(alloc, given, "paths")?;
    Ok(Restoring {
        file: word_of(given, "file"),
        folders,
        shares,
        synced: !has_flag(given, "no-sync"),
        secret_file: find_word(given, "secret-file"),
    })
}

/// How many connections may be open at once.
fn connections_of(given: &ArgMatches<'_>) -> usize
    ensures { IsNumberGiven 64 (given_rows given.now) (codes "connections") 1 result }
{
    given.get_one::<usize>("connections").unwrap_or(1)
}

/// How many connections one address may have open, if that was given.
fn per_address_of(given: &ArgMatches<'_>) -> Option<usize>
    ensures { IsNumberIfGiven 64 (given_rows given.now) (codes "per-address") result }
{
    given.get_one::<usize>("per-address")
}

/// For how many seconds a connection may be silent.
fn idle_of(given: &ArgMatches<'_>) -> u64
    ensures { IsNumberGiven 64 (given_rows given.now) (codes "idle") 60 result }
{
    given.get_one::<u64>("idle").unwrap_or(60)
}

/// How many bytes may be kept of connections.
fn memory_of(given: &ArgMatches<'_>) -> Result<u64, Refusal>
    ensures some { IfOk result (λ memory.
        written_size (word_of (codes "memory") (given_rows given.now)) ≡ Some memory) }
    ensures none { written_size (word_of (codes "memory") (given_rows given.now)) ≡ None →
        result ≡ Err Refusal.Memory }
{
    match read_size(word_of(given, "memory")) {
        Some(memory) => Ok(memory),
        None => Err(Refusal::Memory),
    }
}

/// Where connections are to be accepted.
fn read_listens<'a>(alloc: Global, given: &ArgMatches<'a>) -> Result<Vec<ListenWanted<'a>>, Refusal>
    ensures texts { IfOk result (λ listens. map listen_text listens.items
        ≡ words_of (codes "listen") (given_rows given.now)) }
    ensures addresses { IfOk result (λ listens.
        All (λ wanted. HasNoComma wanted.address.now) listens.items) }
    ensures most { IfOk result (λ listens. length listens.items ≤ 64) }
{
    let mut listens = Vec::new(alloc);
    let texts = words_of(alloc, given, "listen")?;
    if texts.len() > MOST_LISTENS {
        return Err(Refusal::Listen);
    }
    for text in &texts {
        let Some(wanted) = read_listen(*text) else {
            return Err(Refusal::Listen);
        };
        listens.push(wanted)?;
    }
    Ok(listens)
}

/// The stores that are wanted: those that are named, and else so many in memory.
fn read_stores<'a>(alloc: Global, given: &ArgMatches<'a>) -> Result<Vec<StoreWanted<'a>>, Refusal>
    ensures given { IfOk result (λ stores. AreStoresGiven (given_rows given.now) stores.items) }
    ensures room { written_size (word_of (codes "room") (given_rows given.now)) ≡ None →
        result ≡ Err Refusal.Room }
{
    let Some(room) = read_size(word_of(given, "room")) else {
        return Err(Refusal::Room);
    };
    let stores = read_named(alloc, given, room)?;
    if stores.len() > MOST_STORES || !are_apart(&stores) {
        return Err(Refusal::Stores);
    }
    if stores.is_empty() {
        let servers = servers_of(given);
        return Ok(vec![in alloc; StoreWanted::Memory(room); usize::from(servers)]?);
    }
    Ok(stores)
}

/// The stores that are wanted, of which those are missing ones whose folders are named so.
fn read_served<'a>(alloc: Global, given: &ArgMatches<'a>) -> Result<Vec<StoreWanted<'a>>, Refusal>
    ensures served { IfOk result (λ stores. AreStoresServed (given_rows given.now) stores.items) }
    ensures one_is_present { IfOk result (λ stores. Any IsPresent stores.items) }
{
    let named = read_stores(alloc, given)?;
    let missing = words_of(alloc, given, "missing")?;
    if !are_folders_of(&named, &missing) {
        return Err(Refusal::Missing);
    }
    let stores = without(alloc, &named, &missing)?;
    if !is_one_present(&stores) {
        return Err(Refusal::AllMissing);
    }
    Ok(stores)
}

/// These stores, of which those in folders of these paths are missing ones.
fn without<'a>(
    alloc: Global,
    named: &[StoreWanted<'a>],
    missing: &[&str],
) -> Result<Vec<StoreWanted<'a>>, AllocError>
    ensures { IfOk result (λ stores. stores.items
        ≡ map (or_missing (map (λ path. path.now) missing.now)) named.now) }
{
    let mut stores = Vec::with_capacity(alloc, named.len())?;
    for store in named {
        stores.push(store.or_missing(missing))?;
    }
    Ok(stores)
}

/// Whether one of these stores is no missing one.
fn is_one_present(stores: &[StoreWanted<'_>]) -> bool
    ensures yes { IsTrue result → Any IsPresent stores.now }
    ensures no { IsFalse result → All (λ store. ¬ (IsPresent store)) stores.now }
{
    for store in stores {
        if store.missing_folder().is_none() {
            return true;
        }
    }
    false
}

/// How many stores there are in memory, where none is named.
fn servers_of(given: &ArgMatches<'_>) -> u16
    ensures { IsNumberGiven 16 (given_rows given.now) (codes "servers") 5 result }
{
    given.get_one::<u16>("servers").unwrap_or(5)
}

/// The stores that are named.
fn read_named<'a>(
    alloc: Global,
    given: &ArgMatches<'a>,
    room: u64,
) -> Result<Vec<StoreWanted<'a>>, Refusal>
    ensures { IfOk result (λ stores. AreNamesOf room
        (words_of (codes "store") (given_rows given.now)) stores.items) }
{
    let mut stores = Vec::new(alloc);
    let names = words_of(alloc, given, "store")?;
    for name in &names {
        let Some(store) = read_store(*name, room) else {
            return Err(Refusal::Stores);
        };
        stores.push(store)?;
    }
    Ok(stores)
}

/// Whether each of these paths is that of a store's folder.
fn are_folders_of(stores: &[StoreWanted<'_>], paths: &[&str]) -> bool
    ensures { IsTrue result → All (λ path. IsStoreFolder stores.now path.now) paths.now }
{
    for path in paths {
        if !is_folder_of(stores, *path) {
            return false;
        }
    }
    true
}

/// Whether a path is that of a store's folder.
fn is_folder_of(stores: &[StoreWanted<'_>], path: &str) -> bool
    ensures yes { IsTrue result → IsStoreFolder stores.now path.now }
    ensures no { IsFalse result → All (λ store. folder_of store ≢ Some path.now) stores.now }
{
    for store in stores {
        if store.is_in(path) {
            return true;
        }
    }
    false
}

/// Whether no two stores are to have the same names on a Redis server.
fn are_apart(stores: &[StoreWanted<'_>]) -> bool {
    for store in stores {
        if let Some(place) = store.redis() {
            let alike = stores
                .iter()
                .filter(|other| other.redis() == Some(place))
                .count();
            if alike > 1 {
                return false;
            }
        }
    }
    true
}

/// Two numbers with a comma between them, which say how many of a file's shares give it back, and how many are made.
fn read_shares(text: &str) -> Option<Shares>
    ensures sharing { IfSome result (λ shares. IsSharing shares.needed shares.made) }
    ensures pair { IfSome result (λ shares. IsPairOf text.now shares.needed shares.made) }
    ensures none { result ≡ None → (k n : ℕ) → IsPairOf text.now k n → ¬ (IsSharing k n) }
{
    let Some((front, back)) = text.split_once(',') else {
        return None;
    };
    let Some(needed) = read_count(front) else {
        return None;
    };
    let Some(made) = read_count(back) else {
        return None;
    };
    if is_sharing(needed, made) {
        Some(Shares { needed, made })
    } else {
        None
    }
}

/// A number in decimal, behind a plus or none.
fn read_count(text: &str) -> Option<u16>
    ensures some { IfSome result (IsCountOf text.now) }
    ensures none { result ≡ None → (n : ℕ) → n < 2 ^ 16 → ¬ (IsCountOf text.now n) }
{
    match text.parse::<u16>() {
        Ok(count) => Some(count),
        Err(_) => None,
    }
}
