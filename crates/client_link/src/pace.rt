//! Streams over which bytes pass too slowly.
ghost use Rattle.std.specs.Prelude.{◌↔◌, ◌-◌, IsSome, IsTrue};
ghost use Rattle.client_link.specs.Paces.{AreTooFew};

use std::io;
use std::io::{ErrorKind, Read, Write};

/// How many bytes a second are to pass.
const LEAST_RATE: u128 = 1_024;

/// A clock.
pub trait Timer {
    /// The time since some start, in milliseconds.
    fn milliseconds(&self) -> u64;
}

/// Whether so many bytes in so many milliseconds are too few, where somebody has patience for so many seconds: those have
/// passed, and fewer than 1,024 bytes came in each second of the whole time.
pub fn are_too_few(bytes: u64, milliseconds: u64, patience: u64) -> bool
    ensures { IsTrue result ↔ AreTooFew bytes milliseconds patience }
{
    let bytes = u128::from(bytes) * 1_000;
    let time = u128::from(milliseconds);
    u128::from(patience) * 1_000 <= time && bytes < LEAST_RATE * time
}

/// The bytes that passed, in one direction, since a time.
#[derive(Clone, Copy)]
struct Passed {
    /// In milliseconds.
    since: u64,
    bytes: u64,
}

/// A stream that is cut where bytes pass too slowly, for somebody who has patience for so many seconds. From the first byte on
/// that passes in a direction, the time is looked at before each call; where as many seconds have passed, there were to be at
/// least 1,024 bytes for each, and the count begins anew. Else the call is refused with `TimedOut`, and nothing is read or
/// written by it. A count ends where bytes go in the other direction. How long one call waits is the stream's own matter.
#[derive(Drop)]
pub struct Paced<S, T> {
    stream: S,
    timer: T,
    /// In seconds.
    patience: u64,
    read: Option<Passed>,
    written: Option<Passed>,
}

impl<S, T: Timer> Paced<S, T> {
    /// Of a stream over which nothing passed.
    pub fn new(stream: S, timer: T, patience: u64) -> Self {
        Paced {
            stream,
            timer,
            patience,
            read: None,
            written: None,
        }
    }
}

/// What passed, where it wasn't too slow, up to now; `None` where it was.
fn kept_up(passed: Passed, now: u64, patience: u64) -> Option<Passed>
    ensures { IsSome result ↔ ¬ (AreTooFew passed.bytes (now - passed.since) patience) }
{
    let time = now.saturating_sub(passed.since);
    if are_too_few(passed.bytes, time, patience) {
        return None;
    }
    if time < patience.saturating_mul(1_000) {
        return Some(passed);
    }
    Some(Passed {
        since: now,
        bytes: 0,
    })
}

/// The same with so many bytes more.
fn with_more(passed: Option<Passed>, now: u64, count: usize) -> Passed {
    let Passed { since, bytes } = passed.unwrap_or(Passed {
        since: now,
        bytes: 0,
    });
    Passed {
        since,
        bytes: bytes.saturating_add(count as u64),
    }
}

/// The count of a direction, before a call at a time in milliseconds. `TimedOut` where bytes passed too slowly.
fn checked(passed: Option<Passed>, now: u64, patience: u64) -> io::Result<Option<Passed>> {
    let Some(passed) = passed else {
        return Ok(None);
    };
    match kept_up(passed, now, patience) {
        Some(passed) => Ok(Some(passed)),
        None => Err(io::Error::from(ErrorKind::TimedOut)),
    }
}

impl<S: Read, T: Timer> Read for Paced<S, T> {
    ghost remaining = { λ paced. S.remaining paced.stream };

    fn read(&mut self, buf: &mut [u8]) -> io::Result<usize> {
        self.written = None;
        self.read = checked(self.read, self.timer.milliseconds(), self.patience)?;
        let count = self.stream.read(buf)?;
        self.read = Some(with_more(self.read, self.timer.milliseconds(), count));
        Ok(count)
    }
}

impl<S: Write, T: Timer> Write for Paced<S, T> {
    ghost contents = { λ paced. S.contents paced.stream };

    fn write(&mut self, buf: &[u8]) -> io::Result<usize> {
        self.read = None;
        self.written = checked(self.written, self.timer.milliseconds(), self.patience)?;
        let count = self.stream.write(buf)?;
        self.written = Some(with_more(self.written, self.timer.milliseconds(), count));
        Ok(count)
    }

    fn flush(&mut self) -> io::Result<()> {
        self.stream.flush()
    }
}
