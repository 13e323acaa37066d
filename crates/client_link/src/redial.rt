//! Connections that are opened again.
ghost use Rattle.std.specs.Prelude.{◌≤◌, length, IfOk};

use crate::link::Link;
use client_core::{Answer, Ask, Exchange, LinkFault};
use std::alloc::Global;
use std::io::{Read, Write};

/// What opens connections.
pub trait Dial {
    /// A connection.
    type Stream: Read + Write + Drop;

    /// Opens one.
    fn dial(&mut self) -> Result<Self::Stream, LinkFault>;
}

/// A gateway that is asked over one connection, which is opened when it is needed. A gateway closes a connection that was
/// idle for long: one over which a reply was read before, and which breaks before a byte of the next one comes, is opened
/// again, once. Each request can be repeated without harm.
#[derive(Drop)]
pub struct Redialing<'a, D: Dial + Drop> {
    alloc: Global,
    host: &'a str,
    dial: D,
    link: Option<Link<'a, D::Stream>>,
}

impl<'a, D: Dial + Drop> Redialing<'a, D> {
    /// A gateway to which no connection is open, at a host as it stands in its URL.
    pub fn new(alloc: Global, host: &'a str, dial: D) -> Self {
        Redialing {
            alloc,
            host,
            dial,
            link: None,
        }
    }

    /// What opens its connections.
    pub fn dialer(&self) -> &D {
        &self.dial
    }

    /// The connection, where no request is under way on it, or else a new one.
    fn idle_link(&mut self) -> Result<Link<'a, D::Stream>, LinkFault> {
        if let Some(link) = self.link.take() {
            if !link.is_under_way() {
                return Ok(link);
            }
        }
        Ok(Link::new(self.alloc, self.host, self.dial.dial()?))
    }

    /// The answer to a request that is under way on a connection, which is kept then; or to the same on a new one.
    fn wait(
        &mut self,
        link: Link<'a, D::Stream>,
        ask: &Ask,
        body: &[u8],
        most: u64,
    ) -> Result<Answer, LinkFault>
        ensures { IfOk result (λ answer. length answer.body ≤ most) }
    {
        let mut link = link;
        match link.finish(0, ask, body, most) {
            Ok(answer) => {
                self.link = Some(link);
                Ok(answer)
            }
            Err(fault) => {
                if fault == LinkFault::Broken && (link.is_kept() && link.is_silent()) {
                    self.ask_anew(ask, body, most)
                } else {
                    Err(fault)
                }
            }
        }
    }

    /// The answer to a request on a new connection.
    fn ask_anew(&mut self, ask: &Ask, body: &[u8], most: u64) -> Result<Answer, LinkFault>
        ensures { IfOk result (λ answer. length answer.body ≤ most) }
    {
        let mut link = Link::new(self.alloc, self.host, self.dial.dial()?);
        let answer = link.ask(ask, body, most)?;
        self.link = Some(link);
        Ok(answer)
    }
}

impl<D: Dial + Drop> Exchange for Redialing<'_, D> {
    fn ask(&mut self, ask: &Ask, body: &[u8], most: u64) -> Result<Answer, LinkFault>
        ensures { IfOk result (λ answer. length answer.body ≤ most) }
    {
        let mut link = self.idle_link()?;
        link.begin(0, ask, body);
        self.wait(link, ask, body, most)
    }

    fn lanes(&self) -> usize {
        1
    }

    fn begin(&mut self, _lane: usize, ask: &Ask, body: &[u8]) {
        if let Ok(link) = self.idle_link() {
            let mut link = link;
            link.begin(0, ask, body);
            self.link = Some(link);
        }
    }

    fn finish(
        &mut self,
        _lane: usize,
        ask: &Ask,
        body: &[u8],
        most: u64,
    ) -> Result<Answer, LinkFault>
        ensures { IfOk result (λ answer. length answer.body ≤ most) }
    {
        match self.link.take() {
            Some(link) if link.has_begun(ask, body) => self.wait(link, ask, body, most),
            Some(link) => {
                self.link = Some(link);
                self.ask(ask, body, most)
            }
            None => self.ask(ask, body, most),
        }
    }
}
