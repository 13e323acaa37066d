//! Bytes to read and write, and a reader and a writer that are slow and fail, for tests.
ghost use Rattle.std.specs.Prelude.{◌≡◌, IfOk, length};
ghost use Rattle.octets.specs.Counted.{counted};

use std::alloc::{AllocError, Global};
use std::io::{self, ErrorKind, Read, Write};

/// So many bytes, byte i being i modulo 251. Refused only where memory is.
pub fn counted_bytes(alloc: Global, count: usize) -> Result<Vec<u8>, AllocError>
    ensures bytes { IfOk result (λ bytes. bytes.items ≡ counted count) }
    ensures len { IfOk result (λ bytes. length bytes.items ≡ count) }
{
    let mut bytes = Vec::with_capacity(alloc, count)?;
    for i in 0..count {
        bytes.push((i % 251) as u8)?;
    }
    Ok(bytes)
}

/// A reader of these bytes that gives a few at a time.
#[derive(Drop)]
pub struct SlowReader<'a> {
    /// The bytes that weren't read yet.
    pub bytes: &'a [u8],
    /// How many bytes it gives at a time, at most.
    pub at_a_time: usize,
    /// Whether the next call is interrupted; then the one after it is not, and so on in turn. None is where this is `None`.
    pub interrupts: Option<bool>,
    /// Whether it fails at the end of its bytes, with `BrokenPipe`.
    pub fails: bool,
}

impl Read for SlowReader<'_> {
    fn read(&mut self, buf: &mut [u8]) -> io::Result<usize> {
        if let Some(interrupts) = self.interrupts {
            self.interrupts = Some(!interrupts);
            if interrupts {
                return Err(io::Error::from(ErrorKind::Interrupted));
            }
        }
        if self.fails && self.bytes.is_empty() {
            return Err(io::Error::from(ErrorKind::BrokenPipe));
        }
        let count = buf.len().min(self.at_a_time);
        self.bytes.read(&mut buf[..count])
    }
}

/// What a writer does once its room is full.
#[derive(Clone, Copy, PartialEq)]
pub enum AtTheEnd {
    /// It fails with `StorageFull`.
    Fails,
    /// It takes no byte.
    TakesNothing,
}

/// A writer that takes a few bytes at a time, up to its room.
#[derive(Drop)]
pub struct SlowWriter {
    /// The bytes that it took.
    pub held: Vec<u8>,
    /// How many more it takes.
    pub room: usize,
    /// How many bytes it takes at a time, at most.
    pub at_a_time: usize,
    /// As a [`SlowReader`]'s.
    pub interrupts: Option<bool>,
    /// What it does once its room is full.
    pub at_the_end: AtTheEnd,
    /// Whether it can flush.
    pub flushes: bool,
}

impl Write for SlowWriter {
    fn write(&mut self, buf: &[u8]) -> io::Result<usize> {
        if let Some(interrupts) = self.interrupts {
            self.interrupts = Some(!interrupts);
            if interrupts {
                return Err(io::Error::from(ErrorKind::Interrupted));
            }
        }
        if self.room == 0 && self.at_the_end == AtTheEnd::Fails {
            return Err(io::Error::from(ErrorKind::StorageFull));
        }
        let count = buf.len().min(self.room).min(self.at_a_time);
        self.held.extend_from_slice(&buf[..count])?;
        self.room -= count;
        Ok(count)
    }

    fn flush(&mut self) -> io::Result<()> {
        match self.flushes {
            true => Ok(()),
            false => Err(io::Error::from(ErrorKind::BrokenPipe)),
        }
    }
}
