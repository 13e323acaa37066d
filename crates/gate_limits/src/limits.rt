//! What is allowed to connections.
ghost use Rattle.std.specs.Prelude.{◌≡◌, ◌+◌, min, None};
ghost use Rattle.std.specs.Duration.{as_nanos};
ghost use Rattle.http_edge.specs.Frame.{most_head_bytes};
ghost use Rattle.http_edge.specs.Judge.{most_body_bytes};
ghost use Rattle.gate_limits.specs.PeerAddress.{places_allowed};

use crate::peer_address::PeerAddress;
use std::time::Duration;

/// How many bytes a second are expected of one that is hurried.
const RATE_WHILE_FULL: u64 = 65_536;

/// What is allowed to connections.
#[derive(Clone, Copy)]
pub struct Limits {
    /// How many may be open at once.
    pub most: usize,
    /// How many of one address may be: of an IPv6 one, of all whose first 64 bits are the same. Where this is `None` it is a
    /// quarter of `most`, one at least, and of this machine's own addresses `most`.
    pub per_address: Option<usize>,
    /// For how long one may move no byte.
    pub idle: Duration,
    /// How long one may take to send a request, besides the time that its bytes take.
    pub grace: Duration,
    /// How many bytes a second are expected of it while it sends a request, or takes a reply.
    pub rate: u64,
    /// From how many bytes on that are kept of all connections, of requests that aren't whole yet and by replies that wait,
    /// those have to wait that send long requests, or whose reply would hold much, but for one at a time. More may be kept:
    /// the last reply before that brings all that it holds, short requests never wait, and up to 131,072 bytes of each
    /// connection are under way and not counted. What several replies share counts once for each.
    pub memory: u64,
    /// For how long what a peer still sends is read, after all was said to it.
    pub linger: Duration,
    /// How many bytes of that are read.
    pub rest: u64,
    /// For how long what waits may go out, after serving was told to stop.
    pub stopping: Duration,
    /// After how many connections serving ends. It doesn't where this is `None`.
    pub served: Option<u64>,
}

impl Limits {
    /// So many connections, a quarter of them of one address, each of which may be silent for so long; else 10 seconds for a
    /// head, 1,024 bytes a second, 268,435,456 bytes of requests and replies from which on long ones wait, 2 seconds after
    /// the last reply and as many bytes as the longest body and head have, and 10 seconds after a stop.
    pub fn new(most: usize, idle: Duration) -> Limits
        ensures most { result.most ≡ most }
        ensures per_address { result.per_address ≡ None }
        ensures idle { result.idle ≡ idle }
        ensures rest { result.rest ≡ most_body_bytes + most_head_bytes }
        ensures served { result.served ≡ None }
    {
        Limits {
            most,
            per_address: None,
            idle,
            grace: Duration::from_secs(10),
            rate: 1024,
            memory: 268_435_456,
            linger: Duration::from_secs(2),
            rest: 16_793_600,
            stopping: Duration::from_secs(10),
            served: None,
        }
    }

    /// The same for one that is hurried while the memory for connections is used up: 65,536 bytes a second are expected of
    /// it, and that it isn't silent for longer than two seconds.
    pub fn while_full(&self) -> Limits
        ensures rate { result.rate ≡ 65536 }
        ensures idle { as_nanos result.idle ≡ min (as_nanos self.now.idle) 2_000_000_000 }
        ensures grace { as_nanos result.grace ≡ min (as_nanos self.now.grace) 2_000_000_000 }
    {
        let mut limits = *self;
        limits.rate = RATE_WHILE_FULL;
        limits.idle = shorter(self.idle);
        limits.grace = shorter(self.grace);
        limits
    }

    /// How many connections of a peer's address may be open.
    pub fn places_of(&self, peer: PeerAddress) -> usize
        ensures { result ≡ places_allowed self.now peer }
    {
        match self.per_address {
            Some(per_address) => per_address,
            None if peer.is_loopback => self.most,
            None => (self.most / 4).max(1),
        }
    }
}

/// This time, or two seconds where it is longer.
fn shorter(time: Duration) -> Duration
    ensures { as_nanos result ≡ min (as_nanos time) 2_000_000_000 }
{
    if time.as_nanos() < 2_000_000_000 {
        time
    } else {
        Duration::from_secs(2)
    }
}
