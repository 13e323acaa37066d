//! Sockets of connections, and the doors through which they come.
ghost use Rattle.std.specs.Prelude.{◌≡◌};
ghost use Rattle.gate_turns.specs.Acceptor.{acceptor_after};

use crate::peer_address::PeerAddress;
use gate_turns::{Accepted, Acceptor};
use mio::net::{TcpListener, TcpStream};
use mio::{Interest, Poll, Token};
use std::io::{self, ErrorKind};
use std::time::Instant;

/// Registers a socket under an id that was not used before, and says whether the system took it.
pub fn register(poll: &Poll, id: u64, stream: &mut TcpStream) -> bool {
    let both = Interest::READABLE | Interest::WRITABLE;
    let _ = stream.set_nodelay(true);
    poll.registry()
        .register(stream, Token(id as usize), both)
        .is_ok()
}

/// A listener with its acceptor.
#[derive(Drop)]
pub struct Entrance {
    listener: TcpListener,
    /// Whether one may be accepted.
    pub acceptor: Acceptor,
}

/// What came of an attempt to accept a connection.
#[derive(Drop)]
pub enum Arrival {
    /// A socket, and where its peer is.
    Socket(TcpStream, PeerAddress),
    /// One that is gone again.
    Gone,
    /// None waits.
    Nobody,
    /// The system gives none for now.
    Starved,
}

impl Arrival {
    ghost use Rattle.gate_limits.specs.Arrivals.{came_of};

    /// What that says of the acceptor.
    pub fn came(&self) -> Accepted
        ensures { result ≡ came_of self.now }
    {
        match self {
            Arrival::Socket(_, _) | Arrival::Gone => Accepted::One,
            Arrival::Nobody => Accepted::Nobody,
            Arrival::Starved => Accepted::Starved,
        }
    }
}

impl Entrance {
    ghost use Rattle.gate_limits.specs.Arrivals.{came_of};

    /// Begins to listen under a token.
    pub fn open(poll: &Poll, mut listener: TcpListener, token: Token) -> io::Result<Entrance> {
        poll.registry()
            .register(&mut listener, token, Interest::READABLE)?;
        Ok(Entrance {
            listener,
            acceptor: Acceptor::new(),
        })
    }

    /// Accepts one connection, if one waits. The acceptor is told what came.
    pub fn accept(&mut self, now: Instant) -> Arrival
        ensures { self.new.acceptor ≡ acceptor_after (came_of result) self.old.acceptor now }
    {
        let arrival = attempt(&self.listener);
        self.acceptor.came(arrival.came(), now);
        arrival
    }
}

/// What comes of an attempt to accept a connection.
pub fn attempt(listener: &TcpListener) -> Arrival {
    match listener.accept() {
        Ok((stream, address)) => Arrival::Socket(stream, PeerAddress::of(&address)),
        Err(error) => match error.kind() {
            ErrorKind::WouldBlock => Arrival::Nobody,
            ErrorKind::ConnectionAborted | ErrorKind::Interrupted => Arrival::Gone,
            _ => Arrival::Starved,
        },
    }
}
