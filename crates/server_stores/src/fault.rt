//! Why the program ended before it was stopped.
ghost use Rattle.std.specs.Prelude.{◌≡◌};
ghost use Rattle.server_stores.specs.Status.{status_of, folder_status, server_status};

use crate::difference::Difference;
use folder_shelf::FolderFault;
use redis_store::ServerFault;
use share_shelf::{OpenFault, ShelfFault};
use share_store::StoreFault;
use std::alloc::{AllocError, AllocFailed};
use std::fmt;

/// Why the program ended before it was stopped. Each has an exit status of its own.
#[derive(Clone, Copy, PartialEq, Eq)]
pub enum ProgramFault {
    /// The system gives no readiness of sockets, or no clock.
    PollFailed,
    /// A word of the command line, that is none of the program's: it was told already.
    Arguments,
    /// `--listen` is neither ADDR nor ADDR,secret=PATH, or stands too often.
    Listen,
    /// `--shares` isn't two numbers as they are wanted.
    Shares,
    /// `--store` names no store, the same names on a Redis server twice, or stands too often.
    Stores,
    /// `--room` is no size.
    Room,
    /// `--memory` is no size.
    Memory,
    /// `--new` is the folder of no store, or of one that `--missing` names.
    New,
    /// `--missing` is the folder of no store.
    Missing,
    /// `--missing` names the folder of each store.
    AllMissing,
    /// An address has no such host, or no port.
    NoAddress(&'static str),
    /// Another program listens there.
    AddressInUse(&'static str),
    /// The system doesn't let this program listen there.
    NotAllowed(&'static str),
    /// It can't be listened there for another reason.
    NotBound(&'static str),
    /// The secret's file could not be read.
    SecretUnread,
    /// The secret's file is too long.
    SecretTooLong,
    /// The file of the control token could not be read.
    TokenUnread,
    /// The file of the control token has none.
    BadToken,
    /// Fewer handles are allowed than the connections need.
    FewHandles(u64, u64),
    /// Memory was refused.
    NoMemory,
    /// Standard output is closed.
    NotPrinted,
    /// A folder isn't there.
    NotThere,
    /// Neither a folder nor the one above it is there.
    NoneAbove,
    /// A folder that is to have settings is empty.
    Empty,
    /// A folder was refused.
    Folder(FolderFault),
    /// The settings of a folder are another grid's.
    OtherGrid(Difference),
    /// A folder is of the server of a folder that was seen before it.
    Twice(u16),
    /// A store would be begun in a folder beside others that have settings.
    NewFolder,
    /// The disk of a folder has no room.
    DiskFull,
    /// The shares in a folder are more than the room of its server.
    NoRoom,
    /// A folder that is to be new isn't empty.
    NotEmpty,
    /// As many folders are wanted as the grid has servers.
    OtherCount(usize, u16),
    /// An image could not be read, or is no file: it is read twice.
    ImageUnread,
    /// An image has a fault at this byte.
    BadImage(u64),
    /// An image could not be written.
    ImageUnwritten,
    /// A folder that was looked through isn't as it is to be: it was told already.
    NotWell,
    /// The host of a Redis server isn't known.
    RedisUnknown,
    /// A Redis server is another's, or gave at the start what is no answer.
    Redis(ServerFault),
    /// The file of the Redis servers' password could not be read.
    PasswordUnread,
    /// The file of options could not be read: it was told already, by its name.
    OptionsUnread,
    /// The file of options is none: it was told already, by its name.
    Options,
    /// A page could not be read: it was told already, by its name.
    PageUnread,
    /// A file among the pages is none by its name.
    NoPage,
    /// An entry among the pages is no regular file, as a link or a FIFO.
    IrregularPage,
    /// A page has too many bytes.
    LongPage,
    /// There are too many pages.
    ManyPages,
}

impl fmt::Display for ProgramFault {
    fn fmt<W: fmt::Write>(&self, f: &mut fmt::Formatter<W>) -> fmt::Result {
        let words = match self {
            ProgramFault::PollFailed => "the system can't wait for connections",
            ProgramFault::Arguments => "bad arguments",
            ProgramFault::Listen =>
                "--listen wants HOST:PORT or HOST:PORT,secret=PATH, and stands 64 times at most",
            ProgramFault::Shares => "--shares wants K,N with 1 <= K <= N <= 256, as in 3,10",
            ProgramFault::Stores =>
                "--store wants dir:PATH, dir:PATH:BYTES, dir:PATH:BYTES,disk, dir:PATH,shared, redis:HOST:PORT[/NAME][:BYTES], each NAME once, or mem:BYTES, and stands 256 times at most",
            ProgramFault::Room =>
                "--room wants BYTES: digits, and K, M, G or T behind them for powers of 1,024",
            ProgramFault::Memory =>
                "--memory wants BYTES: digits, and K, M, G or T behind them for powers of 1,024",
            ProgramFault::New =>
                "--new wants the PATH of a --store dir:PATH, written as there, that no --missing names",
            ProgramFault::Missing =>
                "--missing wants the PATH of a --store dir:PATH, written as there",
            ProgramFault::AllMissing =>
                "--missing names the folder of each --store: nothing is left to be served",
            ProgramFault::NoAddress(address) => return write!(
                f,
                "the {address} address is none: HOST:PORT is wanted, and a host that there is"
            ),
            ProgramFault::AddressInUse(address) => return write!(
                f,
                "the {address} address is in use"
            ),
            ProgramFault::NotAllowed(address) => return write!(
                f,
                "no right to listen on the {address} address"
            ),
            ProgramFault::NotBound(address) => return write!(
                f,
                "the {address} address can't be listened on"
            ),
            ProgramFault::SecretUnread => "the secret file can't be read",
            ProgramFault::SecretTooLong => "the secret file has more than 256 bytes",
            ProgramFault::TokenUnread => "the control token's file can't be read",
            ProgramFault::BadToken =>
                "the control token's file is to have 1 to 256 bytes of visible ASCII",
            ProgramFault::FewHandles(allowed, needed) => return write!(
                f,
                "{allowed} open files are allowed, and {needed} are needed: raise the limit, or lower --connections"
            ),
            ProgramFault::NoMemory => "out of memory",
            ProgramFault::NotPrinted => "standard output is closed",
            ProgramFault::NotThere => "the folder isn't there",
            ProgramFault::NoneAbove => "neither the folder nor the one above it is there",
            ProgramFault::Empty => "the folder is empty: is its disk mounted?",
            ProgramFault::Folder(fault) => return write!(f, "{fault}"),
            ProgramFault::OtherGrid(difference) => return write!(f, "{difference}"),
            ProgramFault::Twice(place) => return write!(
                f,
                "a folder before it belongs to the server at place {place} too"
            ),
            ProgramFault::NewFolder =>
                "the folder is new, and others of its grid aren't: is its disk mounted? Where a new store is meant, say --new PATH",
            ProgramFault::DiskFull => "the disk is full",
            ProgramFault::NoRoom => "its shares are more than the room that it is given",
            ProgramFault::NotEmpty => "the folder isn't empty: shares are laid into new ones",
            ProgramFault::OtherCount(given, servers) => return write!(
                f,
                "{given} folders are given, and its grid has {servers} servers: each wants one, in their order"
            ),
            ProgramFault::ImageUnread => "the image can't be read: it has to be a file",
            ProgramFault::BadImage(place) => return write!(
                f,
                "it is no image of so many servers: the fault is at byte {place}"
            ),
            ProgramFault::ImageUnwritten => "the image can't be written",
            ProgramFault::NotWell => "not all is well",
            ProgramFault::RedisUnknown => "there is no such host",
            ProgramFault::Redis(fault) => return write!(
                f,
                "the Redis server can't be used: {fault}"
            ),
            ProgramFault::PasswordUnread => "the Redis password file can't be read",
            ProgramFault::OptionsUnread => "the file of options can't be read",
            ProgramFault::Options => "the file of options is none",
            ProgramFault::PageUnread => "the page can't be read",
            ProgramFault::NoPage =>
                "it is no page: its name is to be of letters, digits, dots, hyphens and low lines, and to end in .html, .css, .js, .svg, .png, .json or .txt",
            ProgramFault::IrregularPage => "it is no regular file",
            ProgramFault::LongPage => "it has more than 1,048,576 bytes",
            ProgramFault::ManyPages => "it is one page too many: there may be 64",
        };
        f.write_str(words)
    }
}

impl ProgramFault {
    /// Whether it is of a folder or a Redis server, by whose name it is told where it comes.
    pub fn is_of_a_store(&self) -> bool {
        match self {
            ProgramFault::NotThere => true,
            ProgramFault::NoneAbove => true,
            ProgramFault::Empty => true,
            ProgramFault::Folder(_) => true,
            ProgramFault::OtherGrid(_) => true,
            ProgramFault::Twice(_) => true,
            ProgramFault::NewFolder => true,
            ProgramFault::DiskFull => true,
            ProgramFault::NoRoom => true,
            ProgramFault::NotEmpty => true,
            ProgramFault::OtherCount(_, _) => true,
            ProgramFault::RedisUnknown => true,
            ProgramFault::Redis(_) => true,
            _ => false,
        }
    }

    /// Whether it was told already where it came.
    pub fn is_told(&self) -> bool {
        match self {
            ProgramFault::Arguments => true,
            ProgramFault::NotWell => true,
            ProgramFault::OptionsUnread => true,
            ProgramFault::Options => true,
            ProgramFault::PageUnread => true,
            ProgramFault::NoPage => true,
            ProgramFault::IrregularPage => true,
            ProgramFault::LongPage => true,
            ProgramFault::ManyPages => true,
            _ => self.is_of_a_store(),
        }
    }

    /// The status with which the program exits.
    pub fn status(&self) -> u8
        ensures { result ≡ status_of self.now }
    {
        match self {
            ProgramFault::PollFailed => 1,
            ProgramFault::Arguments => 2,
            ProgramFault::Listen => 2,
            ProgramFault::Shares => 2,
            ProgramFault::Stores => 2,
            ProgramFault::Room => 2,
            ProgramFault::Memory => 2,
            ProgramFault::New => 2,
            ProgramFault::Missing => 2,
            ProgramFault::AllMissing => 2,
            ProgramFault::NoAddress(_) => 3,
            ProgramFault::AddressInUse(_) => 4,
            ProgramFault::NotAllowed(_) => 5,
            ProgramFault::NotBound(_) => 6,
            ProgramFault::SecretUnread => 7,
            ProgramFault::SecretTooLong => 8,
            ProgramFault::TokenUnread => 7,
            ProgramFault::BadToken => 8,
            ProgramFault::FewHandles(_, _) => 9,
            ProgramFault::NoMemory => 10,
            ProgramFault::NotPrinted => 11,
            ProgramFault::NotThere => 12,
            ProgramFault::NoneAbove => 12,
            ProgramFault::Empty => 16,
            ProgramFault::Folder(fault) => status_of_folder(fault),
            ProgramFault::OtherGrid(_) => 19,
            ProgramFault::Twice(_) => 18,
            ProgramFault::NewFolder => 31,
            ProgramFault::DiskFull => 20,
            ProgramFault::NoRoom => 22,
            ProgramFault::NotEmpty => 23,
            ProgramFault::OtherCount(_, _) => 24,
            ProgramFault::ImageUnread => 25,
            ProgramFault::BadImage(_) => 26,
            ProgramFault::ImageUnwritten => 27,
            ProgramFault::NotWell => 28,
            ProgramFault::RedisUnknown => 29,
            ProgramFault::Redis(fault) => status_of_server(fault),
            ProgramFault::PasswordUnread => 30,
            ProgramFault::OptionsUnread => 32,
            ProgramFault::Options => 33,
            ProgramFault::PageUnread => 34,
            ProgramFault::NoPage => 35,
            ProgramFault::IrregularPage => 35,
            ProgramFault::LongPage => 35,
            ProgramFault::ManyPages => 35,
        }
    }
}

/// The status with which the program exits where a folder was refused.
fn status_of_folder(fault: &FolderFault) -> u8
    ensures { result ≡ folder_status fault.now }
{
    match fault {
        FolderFault::NotThere => 12,
        FolderFault::NotAFolder => 13,
        FolderFault::NotWritable => 14,
        FolderFault::InUse => 15,
        FolderFault::NoSettings => 16,
        FolderFault::SettingsRotten => 17,
        FolderFault::OtherPlace(_) => 18,
        FolderFault::OtherGrid => 19,
        FolderFault::Failed => 21,
        FolderFault::NoMemory => 10,
    }
}

/// The status with which the program exits where a Redis server was refused: that of a folder where it is another's.
fn status_of_server(fault: &ServerFault) -> u8
    ensures { result ≡ server_status fault.now }
{
    match fault {
        ServerFault::SettingsRotten => 17,
        ServerFault::OtherPlace(_) => 18,
        ServerFault::OtherGrid => 19,
        ServerFault::OtherSecret => 19,
        _ => 29,
    }
}

impl From<AllocError> for ProgramFault {
    fn from(_error: AllocError) -> ProgramFault {
        ProgramFault::NoMemory
    }
}

impl<T: Drop> From<AllocFailed<T>> for ProgramFault {
    fn from(_error: AllocFailed<T>) -> ProgramFault {
        ProgramFault::NoMemory
    }
}

impl From<FolderFault> for ProgramFault {
    fn from(fault: FolderFault) -> ProgramFault {
        match fault {
            FolderFault::NoMemory => ProgramFault::NoMemory,
            FolderFault::NotThere => ProgramFault::NotThere,
            _ => ProgramFault::Folder(fault),
        }
    }
}

impl From<OpenFault> for ProgramFault {
    fn from(fault: OpenFault) -> ProgramFault {
        match fault {
            OpenFault::Shelf(ShelfFault::NoMemory) => ProgramFault::NoMemory,
            OpenFault::Store(StoreFault::NoMemory) => ProgramFault::NoMemory,
            OpenFault::Store(StoreFault::Full) => ProgramFault::NoRoom,
            _ => ProgramFault::Folder(FolderFault::Failed),
        }
    }
}
