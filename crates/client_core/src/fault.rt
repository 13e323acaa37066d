//! Why a call is refused, or a request isn't written.
ghost use Rattle.std.specs.Prelude.{◌≡◌};
ghost use Rattle.client_core.specs.declared.fault.ClientFault.TheVariants as fault;
ghost use Rattle.client_core.specs.declared.fault.WireFault.TheVariants as wire;

use crate::exchange::LinkFault;
use caps::CapFault;
use octets::Text;
use std::alloc::{AllocError, AllocFailed};
use std::fmt;

/// Why a call is refused. None of these holds a cap.
#[derive(Debug, Drop)]
pub enum ClientFault {
    /// There is no answer.
    Link(LinkFault),
    /// The gateway answered with this status, which isn't 200.
    Refused(u16),
    /// The bytes that came aren't those that the cap was made for, or the cap that came isn't of the bytes that went.
    NotBound,
    /// What was asked for as a file is none: it is a directory's cap, or one that reads nothing.
    NotFile,
    /// What was to be walked through or listed is no directory.
    NotDirectory,
    /// A directory on the way has no child of this name, which the message has in quotes, its control characters escaped.
    NoChild(Text),
    /// Memory was refused.
    NoMemory,
}

impl fmt::Display for ClientFault {
    fn fmt<W: fmt::Write>(&self, f: &mut fmt::Formatter<W>) -> fmt::Result {
        let words = match self {
            ClientFault::Link(fault) => return write!(f, "{fault}"),
            ClientFault::Refused(status) => return write!(
                f,
                "the gateway refused it with status {status}"
            ),
            ClientFault::NotBound => "what the gateway gave is not what was asked for",
            ClientFault::NotFile => "not a file",
            ClientFault::NotDirectory => "not a directory",
            ClientFault::NoChild(name) => return write!(f, "no such child: {:?}", name.as_str()),
            ClientFault::NoMemory => "out of memory",
        };
        f.write_str(words)
    }
}

impl From<AllocError> for ClientFault {
    ghost from_gives = { λ _ made. made ≡ fault.NoMemory };

    fn from(_error: AllocError) -> ClientFault {
        ClientFault::NoMemory
    }
}

impl<T: Drop> From<AllocFailed<T>> for ClientFault {
    ghost from_gives = { λ _ made. made ≡ fault.NoMemory };

    fn from(_failed: AllocFailed<T>) -> ClientFault {
        ClientFault::NoMemory
    }
}

impl From<LinkFault> for ClientFault {
    fn from(fault: LinkFault) -> ClientFault {
        match fault {
            LinkFault::NoMemory => ClientFault::NoMemory,
            _ => ClientFault::Link(fault),
        }
    }
}

impl From<CapFault> for ClientFault {
    fn from(fault: CapFault) -> ClientFault {
        match fault {
            CapFault::NoMemory => ClientFault::NoMemory,
            _ => ClientFault::NotBound,
        }
    }
}

/// Why a request isn't written.
#[derive(Clone, Copy, PartialEq, Eq)]
pub enum WireFault {
    /// The head would have more than 16,384 bytes: the host's name is too long.
    TooLong,
    /// Memory was refused.
    NoMemory,
}

impl fmt::Display for WireFault {
    fn fmt<W: fmt::Write>(&self, f: &mut fmt::Formatter<W>) -> fmt::Result {
        f.write_str(match self {
            WireFault::TooLong => "the gateway's name is too long",
            WireFault::NoMemory => "out of memory",
        })
    }
}

impl From<AllocError> for WireFault {
    ghost from_gives = { λ _ made. made ≡ wire.NoMemory };

    fn from(_error: AllocError) -> WireFault {
        WireFault::NoMemory
    }
}
