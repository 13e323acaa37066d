//! Listeners, each with the secret under which the connections are opened that come by it.
ghost use Rattle.std.specs.Prelude.{◌≡◌, ◌<◌, ℕ, List, Option, Some, option_copied};
ghost use Rattle.gate_limits.specs.Arrivals.{IsSocket};
ghost use Rattle.gate_limits.specs.Listeners.{listener_place};

use crate::sockets::{Arrival, attempt};
use mio::net::TcpListener;
use mio::unix::SourceFd;
use mio::{Interest, Poll, Token};
use octets::Bytes;
use std::io::{self, Error, ErrorKind};
use std::os::fd::AsRawFd;

/// How many listeners there may be.
pub const MOST_LISTENERS: usize = 64;

/// The control listener's token: those behind it are the other listeners'.
pub const CONTROL: usize = usize::MAX - MOST_LISTENERS;

/// A socket by which connections come, and the secret under which these are opened.
#[derive(Drop)]
pub struct Listener {
    /// The socket, which doesn't block.
    pub socket: TcpListener,
    /// The secret, of at most 256 bytes: with more each connection is refused. Where this is `None` it is the gateway's.
    pub secret: Option<Bytes>,
}

/// By which listeners connections come. The loop is proved over any of these: so it can only say of a connection that it
/// came by a listener where it called for that.
pub trait Arrivals {
    /// The connection of an id came by the listener at a place.
    ghost came: { Self → ℕ → ℕ → Type 0 };

    /// The secret of the listener at a place, if it has one of its own.
    ghost secret_at: { Self → ℕ → Option (List ℕ) };

    /// Has a poll report each listener by its token.
    fn register(&self, poll: &Poll) -> io::Result<()>;

    /// How many listeners there are.
    fn len(&self) -> usize;

    /// Accepts a connection by the listener at a place, if one waits there. It is to have this id.
    fn accept(&self, place: usize, id: u64) -> Arrival
        ensures { IsSocket result → came self.now id place };

    /// The secret under which connections are opened that come by the listener at a place. `None` where it is the
    /// gateway's.
    fn secret(&self, place: usize) -> Option<&[u8]>
        ensures { option_copied result ≡ secret_at self.now place };
}

/// Listeners, by their places.
#[derive(Drop)]
pub struct Listeners {
    listeners: Vec<Listener>,
}

impl Listeners {
    /// Listeners, each at its place among these.
    pub fn new(listeners: Vec<Listener>) -> Listeners
        ensures { result.listeners ≡ listeners }
    {
        Listeners { listeners }
    }
}

impl Arrivals for Listeners {
    ghost use Rattle.std.specs.Prelude.{length};
    ghost use Rattle.gate_limits.specs.Listeners.{listener_secret};

    ghost came = { λ self _ place. place < length self.listeners.items };

    ghost secret_at = { λ self place. listener_secret self.listeners.items place };

    fn register(&self, poll: &Poll) -> io::Result<()> {
        if self.listeners.len() > MOST_LISTENERS {
            return Err(Error::from(ErrorKind::InvalidInput));
        }
        for (place, listener) in self.listeners.iter().enumerate() {
            let handle = listener.socket.as_raw_fd();
            poll.registry().register(&mut SourceFd(&handle), token_of(place), Interest::READABLE)?;
        }
        Ok(())
    }

    fn len(&self) -> usize {
        self.listeners.len()
    }

    fn accept(&self, place: usize, _id: u64) -> Arrival {
        match self.listeners.get(place) {
            Some(listener) => attempt(&listener.socket),
            None => Arrival::Nobody,
        }
    }

    fn secret(&self, place: usize) -> Option<&[u8]> {
        match self.listeners.get(place) {
            Some(listener) => lent(&listener.secret),
            None => None,
        }
    }
}

/// A secret as it is lent, if there is one.
fn lent(secret: &Option<Bytes>) -> Option<&[u8]>
    ensures { option_copied result ≡ secret.now }
{
    match secret {
        Some(bytes) => Some(bytes.as_slice()),
        None => None,
    }
}

/// The token of the listener at a place.
fn token_of(place: usize) -> Token
    ensures { place < 64 → listener_place result.0 ≡ Some place }
{
    Token(usize::MAX.saturating_sub(place))
}

/// The place of the listener whose token this is. `None` where it is no listener's.
pub fn place_of(token: usize) -> Option<usize>
    ensures { result ≡ listener_place token }
{
    if token > CONTROL {
        Some(usize::MAX - token)
    } else {
        None
    }
}
