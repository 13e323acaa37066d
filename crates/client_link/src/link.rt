//! Connections.
ghost use Rattle.std.specs.Prelude.{◌≤◌, length, IfOk, OnOk};
ghost use Rattle.std.specs.Io.KnownBytes.{Appends};
ghost use Rattle.client_link.specs.Sent.{request_bytes};

use crate::reply::Replies;
use crate::sending::send_request;
use client_core::{Answer, Ask, Exchange, LinkFault};
use std::alloc::Global;
use std::io::{Read, Write};

/// A connection to a gateway, on which one request at a time is under way. After a fault it answers nothing more.
#[derive(Drop)]
pub struct Link<'a, S> {
    alloc: Global,
    host: &'a str,
    stream: S,
    replies: Replies,
    /// The request that is under way.
    begun: Option<Begun>,
    /// Whether a reply was read over it.
    kept: bool,
    broken: bool,
}

/// A request that is under way: what was asked, with a body of so many bytes, and whether all of it was written.
#[derive(Clone, Copy)]
struct Begun {
    ask: Ask,
    count: usize,
    sent: Result<(), LinkFault>,
}

impl<'a, S: Read + Write + Drop> Link<'a, S> {
    /// A connection over a stream, to a host as it stands in the gateway's URL.
    pub fn new(alloc: Global, host: &'a str, stream: S) -> Self {
        Link {
            alloc,
            host,
            stream,
            replies: Replies::new(alloc),
            begun: None,
            kept: false,
            broken: false,
        }
    }

    /// Whether no byte of a reply came to the request that was asked last.
    pub fn is_silent(&self) -> bool {
        self.replies.is_silent()
    }

    /// Whether a reply was read over it.
    pub fn is_kept(&self) -> bool {
        self.kept
    }

    /// Whether a request is under way.
    pub fn is_under_way(&self) -> bool {
        self.begun.is_some()
    }

    /// Whether it is this one, as far as that can be told: it asks for the same, with a body of as many bytes.
    pub fn has_begun(&self, ask: &Ask, body: &[u8]) -> bool {
        match &self.begun {
            Some(begun) => begun.ask == *ask && begun.count == body.len(),
            None => false,
        }
    }

    /// Reads the reply of a request that was written as far as this says. A gateway may answer before it has read the whole
    /// body, and close then.
    fn wait(&mut self, sent: Result<(), LinkFault>, most: u64) -> Result<Answer, LinkFault>
        ensures { IfOk result (λ answer. length answer.body ≤ most) }
    {
        self.broken = true;
        if let Err(fault) = sent {
            if fault != LinkFault::Broken {
                return Err(fault);
            }
        }
        let answer = self.replies.next(&mut self.stream, most)?;
        self.kept = true;
        self.broken = sent.is_err();
        Ok(answer)
    }

    /// Writes a request.
    fn send(&mut self, ask: &Ask, body: &[u8]) -> Result<(), LinkFault>
        ensures { OnOk result (Appends (S.contents self.old.stream) (S.contents self.new.stream)
            (request_bytes self.old.host.now ask.now body.now)) }
    {
        send_request(self.alloc, &mut self.stream, self.host, ask, body)
    }
}

impl<S: Read + Write + Drop> Exchange for Link<'_, S> {
    fn ask(&mut self, ask: &Ask, body: &[u8], most: u64) -> Result<Answer, LinkFault>
        ensures { IfOk result (λ answer. length answer.body ≤ most) }
    {
        self.begin(0, ask, body);
        self.finish(0, ask, body, most)
    }

    fn lanes(&self) -> usize {
        1
    }

    fn begin(&mut self, _lane: usize, ask: &Ask, body: &[u8]) {
        self.broken = self.broken || self.begun.is_some();
        self.begun = None;
        if !self.broken {
            self.replies.begin_next();
            self.begun = Some(Begun {
                ask: *ask,
                count: body.len(),
                sent: self.send(ask, body),
            });
        }
    }

    fn finish(
        &mut self,
        _lane: usize,
        ask: &Ask,
        body: &[u8],
        most: u64,
    ) -> Result<Answer, LinkFault>
        ensures { IfOk result (λ answer. length answer.body ≤ most) }
    {
        if !self.has_begun(ask, body) {
            return Err(LinkFault::Broken);
        }
        match self.begun.take() {
            Some(begun) => self.wait(begun.sent, most),
            None => Err(LinkFault::Broken),
        }
    }
}
