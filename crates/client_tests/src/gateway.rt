//! A gateway in memory, which a client meets over a stream, and its lies.

ghost use Rattle.std.specs.Prelude.{◌≤◌, length};

use crate::copying::copy_from;
use client_core::LinkFault;
use client_link::Dial;
use std::alloc::{AllocError, Global};
use std::io::{self, Read, Write};
use tag_hash::Decimal;

/// A request, by how it begins and what stands in it, and the body of the honest reply.
#[derive(Clone, Copy)]
pub struct Row<'a> {
    /// How the request begins.
    pub begins: &'a [u8],
    /// What stands in it.
    pub has: &'a [u8],
    /// The body of the reply.
    pub body: &'a [u8],
}

/// A lie.
#[derive(Clone, Copy, Debug)]
pub enum Lie<'a> {
    /// None.
    Honest,
    /// These bits of the byte at a place of the head are others.
    Head(usize, u8),
    /// These bits of the byte at a place of the body are others.
    Body(usize, u8),
    /// So many bytes of the reply are sent, and the connection ends.
    Cut(usize),
    /// These bytes come behind the reply.
    Behind(&'a [u8]),
    /// These bytes come in place of the reply, and the connection ends.
    Instead(&'a [u8]),
    /// The head tells this length.
    Length(usize),
    /// The body is another one, with its length.
    Other(&'a [u8]),
    /// The status is another one.
    Status(u16),
}

/// A gateway that answers by a table, and lies at one row of it.
#[derive(Clone, Copy)]
pub struct Gateway<'a> {
    /// What it answers.
    pub rows: &'a [Row<'a>],
    /// At which row it lies.
    pub at: usize,
    /// The lie.
    pub lie: Lie<'a>,
    /// How many bytes it sends at a time.
    pub at_a_time: usize,
}

/// A connection to it.
#[derive(Drop)]
pub struct Stream<'a> {
    alloc: Global,
    gateway: Gateway<'a>,
    /// What came of the next request.
    request: Vec<u8>,
    reply: Vec<u8>,
    /// How many bytes of the reply were sent.
    sent: usize,
    has_ended: bool,
}

impl<'a> Stream<'a> {
    /// A new one.
    pub fn new(alloc: Global, gateway: Gateway<'a>) -> Self {
        Stream {
            alloc,
            gateway,
            request: Vec::new(alloc),
            reply: Vec::new(alloc),
            sent: 0,
            has_ended: false,
        }
    }

    /// Whether a request came to which there is no reply yet.
    fn is_asked(&self) -> bool {
        self.sent >= self.reply.len() && !self.has_ended && !self.request.is_empty()
    }

    /// Gives the next bytes of the reply, as many as there are, as fit and as are given at a time.
    fn give(&mut self, buf: &mut [u8]) -> usize
        ensures { result ≤ length buf.new }
    {
        let most = self.gateway.at_a_time;
        let given = copy_from(&self.reply, self.sent, most, buf);
        self.sent = self.sent.saturating_add(given);
        given
    }

    /// Makes the reply to the request that came.
    fn answer(&mut self) -> Result<(), AllocError> {
        let place = place_of(self.gateway.rows, &self.request);
        let lie = if place == self.gateway.at {
            self.gateway.lie
        } else {
            Lie::Honest
        };
        self.reply = match self.gateway.rows.get(place) {
            Some(row) => reply_of(self.alloc, row.body, lie)?,
            None => honest_reply(self.alloc, 410, b"not enough shares\n", 18)?,
        };
        self.has_ended = matches!(lie, Lie::Cut(_) | Lie::Instead(_));
        self.sent = 0;
        self.request.clear();
        Ok(())
    }
}

impl Read for Stream<'_> {
    fn read(&mut self, buf: &mut [u8]) -> io::Result<usize> {
        if self.is_asked() {
            self.answer()?;
        }
        Ok(self.give(buf))
    }
}

impl Write for Stream<'_> {
    fn write(&mut self, buf: &[u8]) -> io::Result<usize> {
        self.request.extend_from_slice(buf)?;
        Ok(buf.len())
    }

    fn flush(&mut self) -> io::Result<()> {
        Ok(())
    }
}

/// What opens connections to it.
#[derive(Drop)]
pub struct Dialer<'a> {
    /// For what connections keep.
    pub alloc: Global,
    /// The gateway.
    pub gateway: Gateway<'a>,
    /// Whether it lies on the first connection alone.
    pub lies_once: bool,
}

impl<'a> Dial for Dialer<'a> {
    type Stream = Stream<'a>;

    fn dial(&mut self) -> Result<Stream<'a>, LinkFault> {
        let stream = Stream::new(self.alloc, self.gateway);
        if self.lies_once {
            self.gateway.lie = Lie::Honest;
        }
        Ok(stream)
    }
}

/// The place of the first row that this request is of.
fn place_of(rows: &[Row<'_>], request: &[u8]) -> usize {
    for (place, row) in rows.iter().enumerate() {
        if request.starts_with(row.begins) && stands_in(row.has, request) {
            return place;
        }
    }
    rows.len()
}

/// Whether some bytes, if there are any, stand in others.
fn stands_in(some: &[u8], bytes: &[u8]) -> bool {
    some.is_empty() || bytes.windows(some.len()).any(|part| part == some)
}

/// A reply with this status and body, whose head tells this length.
pub fn honest_reply(
    alloc: Global,
    status: u16,
    body: &[u8],
    length: usize,
) -> Result<Vec<u8>, AllocError> {
    let code = Decimal::new(u64::from(status));
    let length = Decimal::new(length as u64);
    let mut reply = Vec::new(alloc);
    reply.extend_from_slice(b"HTTP/1.1 ")?;
    reply.extend_from_slice(code.as_bytes())?;
    reply.extend_from_slice(b" OK\r\nContent-Type: text/plain; charset=utf-8\r\nContent-Length: ")?;
    reply.extend_from_slice(length.as_bytes())?;
    reply.extend_from_slice(b"\r\n\r\n")?;
    reply.extend_from_slice(body)?;
    Ok(reply)
}

/// The reply with this body, lied in.
fn reply_of(alloc: Global, body: &[u8], lie: Lie<'_>) -> Result<Vec<u8>, AllocError> {
    let mut reply = match lie {
        Lie::Instead(bytes) => return Vec::from_slice(alloc, bytes),
        Lie::Length(length) => honest_reply(alloc, 200, body, length)?,
        Lie::Other(other) => honest_reply(alloc, 200, other, other.len())?,
        Lie::Status(status) => honest_reply(alloc, status, body, body.len())?,
        _ => honest_reply(alloc, 200, body, body.len())?,
    };
    let head = reply.len().saturating_sub(body.len());
    match lie {
        Lie::Head(place, bits) => change(&mut reply, place, bits),
        Lie::Body(place, bits) => change(&mut reply, head.saturating_add(place), bits),
        Lie::Cut(count) => reply.truncate(count),
        Lie::Behind(bytes) => reply.extend_from_slice(bytes)?,
        _ => {}
    }
    Ok(reply)
}

/// Changes these bits of the byte at a place, if there is one.
fn change(bytes: &mut Vec<u8>, place: usize, bits: u8) {
    if let Some(byte) = bytes.get_mut(place) {
        *byte ^= bits;
    }
}
