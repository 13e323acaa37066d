//! A way to a server, in the time that its bytes are given.
ghost use Rattle.std.specs.Prelude.{◌≡◌, ◌<◌, ◌≤◌, ◌+◌, ◌-◌, ◌*◌, ◌/◌, length, min, max, IfOk};
ghost use Rattle.std.specs.Duration.{as_nanos};

use crate::fault::LinkFault;
use crate::link::Link;
use std::io::{Read, Write};
use std::net::{Net, OpenStream, SocketAddr};
use std::time::{Clock, Duration};

/// How many seconds a connection has to be made in, and how many may pass in which no byte of an exchange moves.
const STILL_SECONDS: u64 = 1;

/// How many seconds an exchange may take in all, besides those of its bytes.
const SECONDS: u64 = 5;

/// How many bytes, of a command and of its reply together, give their exchange a second more.
const BYTES_A_SECOND: u64 = 1_048_576;

/// For how many seconds an exchange that was begun ahead may be read, at least, besides those of its bytes.
const READ_SECONDS: u64 = 1;

/// For how many milliseconds such a one is waited for, at least.
const LOOK_MILLISECONDS: u64 = 10;

/// A way to a server over TCP. A connection has a second to be made in. An exchange ends where no byte was written or
/// came for a second, and where it takes longer than 5 seconds and one more for each 1,048,576 bytes that moved: so a
/// long share has its time, one that hangs has a second, and one that sends a byte now and then has five.
#[derive(Drop)]
pub struct PacedLink<R: Net + Clock + Drop> {
    rt: R,
    address: SocketAddr,
    stream: Option<R::Stream>,
    /// When the exchange at hand began, on the clock.
    began: Duration,
    /// When a byte of it moved last, or it began.
    moved_at: Duration,
    /// How many bytes were written in it or came.
    moved: u64,
    /// The last second that the clock gave.
    second: u64,
}

/// How long an exchange may take in all, in which this many bytes moved.
fn time_for(moved: u64) -> Duration
    ensures { as_nanos result ≡ (5 + moved / 1_048_576) * 1_000_000_000 }
{
    Duration::from_secs(SECONDS + moved / BYTES_A_SECOND)
}

/// How long the next byte of an exchange may take, `past` after it began, in which this many bytes moved, the last one
/// `still` ago: what is left of a second without any, and of all its time.
fn time_left(past: Duration, still: Duration, moved: u64) -> Duration
    ensures { as_nanos result ≡ min (1_000_000_000 - as_nanos still)
        ((5 + moved / 1_048_576) * 1_000_000_000 - as_nanos past) }
{
    let silent = Duration::from_secs(STILL_SECONDS).saturating_sub(still);
    silent.min(time_for(moved).saturating_sub(past))
}

impl<R: Net + Clock + Drop> PacedLink<R> {
    /// A way to the server at this address. It is not gone yet.
    pub fn new(rt: R, address: SocketAddr) -> PacedLink<R> {
        PacedLink {
            rt,
            address,
            stream: None,
            began: Duration::from_secs(0),
            moved_at: Duration::from_secs(0),
            moved: 0,
            second: 0,
        }
    }

    /// How much of the exchange's time is left: more than none.
    fn left(&self) -> Result<Duration, LinkFault> {
        let now = self.rt.monotonic()?;
        let past = now.saturating_sub(self.began);
        let left = time_left(past, now.saturating_sub(self.moved_at), self.moved);
        if left.is_zero() {
            return Err(LinkFault::Late);
        }
        Ok(left)
    }

    /// Counts bytes that were written or came just now.
    fn move_on(&mut self, count: usize) -> Result<(), LinkFault> {
        self.moved_at = self.rt.monotonic()?;
        self.moved = self.moved.saturating_add(count as u64);
        Ok(())
    }

    /// Writes some bytes, and says how many.
    fn write_some(&mut self, bytes: &[u8]) -> Result<usize, LinkFault>
        ensures { IfOk result (λ count. (0 < count) × (count ≤ length bytes.now)) }
    {
        let left = self.left()?;
        let Some(stream) = &mut self.stream else {
            return Err(LinkFault::Ended);
        };
        stream.set_write_timeout(Some(left))?;
        let count = stream.write(bytes)?;
        if count == 0 {
            return Err(LinkFault::Ended);
        }
        self.move_on(count)?;
        Ok(count)
    }

    /// Writes some bytes, all of them.
    fn write_part(&mut self, bytes: &[u8]) -> Result<(), LinkFault> {
        let mut rest = bytes;
        while !rest.is_empty() {
            let count = self.write_some(rest)?;
            rest = &rest[count..];
        }
        Ok(())
    }
}

impl<R: Net + Clock + Drop> Link for PacedLink<R> {
    fn connect(&mut self) -> Result<(), LinkFault> {
        self.stream = None;
        let within = Duration::from_secs(STILL_SECONDS);
        let stream = self.rt.connect_timeout(self.address, within)?;
        stream.set_nodelay(true)?;
        self.stream = Some(stream);
        Ok(())
    }

    fn write_all(&mut self, parts: &[&[u8]]) -> Result<(), LinkFault> {
        self.began = self.rt.monotonic()?;
        self.moved_at = self.began;
        self.moved = 0;
        for part in parts {
            self.write_part(part)?;
        }
        Ok(())
    }

    fn read(&mut self, room: &mut [u8]) -> Result<usize, LinkFault> {
        let left = self.left()?;
        let Some(stream) = &mut self.stream else {
            return Err(LinkFault::Ended);
        };
        stream.set_read_timeout(Some(left))?;
        let count = stream.read(room)?;
        self.move_on(count)?;
        Ok(count)
    }

    fn give_time(&mut self) {
        if let Ok(now) = self.rt.monotonic() {
            let read = Duration::from_secs(SECONDS - READ_SECONDS);
            self.began = self.began.max(now.saturating_sub(read));
            let look = Duration::from_millis(1000 * STILL_SECONDS - LOOK_MILLISECONDS);
            self.moved_at = self.moved_at.max(now.saturating_sub(look));
        }
    }

    fn close(&mut self) {
        self.stream = None;
    }

    fn seconds(&mut self) -> u64 {
        if let Ok(now) = self.rt.monotonic() {
            self.second = now.as_secs();
        }
        self.second
    }
}
