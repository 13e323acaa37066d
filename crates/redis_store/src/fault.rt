//! Why a server gave no answer.
ghost use Rattle.std.specs.Prelude.{◌≡◌, ◌⊎◌};
ghost use Rattle.redis_store.specs.AfterExchange.{fault_in_reply, fault_before_reply};
ghost use Rattle.redis_store.specs.declared.fault.ServerFault.TheVariants.{NoReply, NoMemory};

use resp::RespFault;
use std::alloc::{AllocError, AllocFailed};
use std::fmt;
use std::io::{Error as IoError, ErrorKind};

/// Why a link failed.
#[derive(Clone, Copy, PartialEq, Eq)]
pub enum LinkFault {
    /// No connection was made, or the one at hand ended.
    Ended,
    /// Its time was up.
    Late,
}

impl fmt::Display for LinkFault {
    fn fmt<W: fmt::Write>(&self, f: &mut fmt::Formatter<W>) -> fmt::Result {
        f.write_str(match self {
            LinkFault::Ended => "there is no connection",
            LinkFault::Late => "its time was up",
        })
    }
}

impl LinkFault {
    /// What it says where no byte of a reply came.
    pub(crate) fn unheard(self) -> ServerFault
        ensures { result ≡ fault_before_reply self }
    {
        match self {
            Self::Ended => ServerFault::Closed,
            Self::Late => ServerFault::Late,
        }
    }
}

/// Why a server gave no answer.
///
/// After `Refused` and `Full` the connection is open: the server heard what it was told. After `Replica` it is let
/// go, and the next call makes another at once. After `Resting`, `NoShare` and `NotShared` nothing was asked. After
/// each other fault but `NoMemory` the connection is let go and the server is left alone for a while.
#[derive(Clone, Copy, Debug, PartialEq, Eq)]
pub enum ServerFault {
    /// It was not asked, since it failed less than the seconds before that it is left alone then.
    Resting,
    /// No connection was made, or it ended within a reply.
    Link,
    /// The connection ended before a byte of the reply came.
    Closed,
    /// No connection was made within a second, no byte moved for a second, or the exchange took longer than it may.
    Late,
    /// What came is no reply, or one that is too large.
    NoReply,
    /// The server didn't take the password.
    NotAdmitted,
    /// An error reply came to what a new connection is asked: a server that still loads its data, or wants a
    /// password, or has no memory for the text that says whose it is.
    NotOpened,
    /// The server said, by an error reply, that it doesn't do what it was told.
    Refused,
    /// The server said so because it has no memory left.
    Full,
    /// The server said so because it is a replica: the primary is elsewhere by now.
    Replica,
    /// A reply came that is none to what was told, or bytes behind it.
    OtherReply,
    /// What stands there of whose the server is, is no such text.
    SettingsRotten,
    /// The server is of a grid with other numbers of servers or shares.
    OtherGrid,
    /// The server is of a grid with these numbers and another secret.
    OtherSecret,
    /// The server is of this grid, and has this place in it, counted from 0.
    OtherPlace(u16),
    /// The share is longer than the longest, or its number isn't below the number of shares.
    NoShare,
    /// The call is none that a store offers which others use at the same time.
    NotShared,
    /// There was no memory for the call.
    NoMemory,
}

impl fmt::Display for ServerFault {
    fn fmt<W: fmt::Write>(&self, f: &mut fmt::Formatter<W>) -> fmt::Result {
        let words = match self {
            ServerFault::Resting => "the server is left alone for a while",
            ServerFault::Link => "the connection failed",
            ServerFault::Closed => "the connection ended before the reply",
            ServerFault::Late => "the server took too long",
            ServerFault::NoReply => "what came is no reply",
            ServerFault::NotAdmitted => "the server refused the password",
            ServerFault::NotOpened => "the server refused what a new connection is asked",
            ServerFault::Refused => "the server refused",
            ServerFault::Full => "the server is full",
            ServerFault::Replica => "the server is a replica",
            ServerFault::OtherReply => "the reply is none to what was asked",
            ServerFault::SettingsRotten => "what says whose the server is, is no such text",
            ServerFault::OtherGrid =>
                "the server is of a grid with other numbers of servers or shares",
            ServerFault::OtherSecret => "the server is of a grid with another secret",
            ServerFault::OtherPlace(place) => return write!(
                f,
                "the server has place {place} in this grid"
            ),
            ServerFault::NoShare => "the share is none of this grid's",
            ServerFault::NotShared => "a store that many use has no such call",
            ServerFault::NoMemory => "out of memory",
        };
        f.write_str(words)
    }
}

impl From<IoError> for LinkFault {
    fn from(error: IoError) -> Self {
        match error.kind() {
            ErrorKind::WouldBlock | ErrorKind::TimedOut => LinkFault::Late,
            _ => LinkFault::Ended,
        }
    }
}

impl From<LinkFault> for ServerFault {
    ghost from_gives = { λ fault e. e ≡ fault_in_reply fault };

    fn from(fault: LinkFault) -> Self {
        match fault {
            LinkFault::Ended => ServerFault::Link,
            LinkFault::Late => ServerFault::Late,
        }
    }
}

impl From<RespFault> for ServerFault {
    ghost from_gives = { λ _ e. (e ≡ NoReply) ⊎ (e ≡ NoMemory) };

    fn from(fault: RespFault) -> Self {
        match fault {
            RespFault::Wrong(_, _) => ServerFault::NoReply,
            RespFault::NoMemory => ServerFault::NoMemory,
        }
    }
}

impl From<AllocError> for ServerFault {
    ghost from_gives = { λ _ e. e ≡ NoMemory };

    fn from(_: AllocError) -> Self {
        ServerFault::NoMemory
    }
}

impl<T: Drop> From<AllocFailed<T>> for ServerFault {
    ghost from_gives = { λ _ e. e ≡ NoMemory };

    fn from(_: AllocFailed<T>) -> Self {
        ServerFault::NoMemory
    }
}
