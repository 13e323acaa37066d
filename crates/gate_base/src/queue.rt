//! Bytes that are taken from the front of a buffer.
ghost use Rattle.std.specs.Prelude.{◌≡◌, ◌≤◌, [], ◌++◌, length, drop, OnOk, OnErr, IsTrue, ◌↔◌};
ghost use Rattle.http_edge.specs.Reply.{rendered_head};

use http_edge::{ReplyFields, Status, render_head_into};
use std::alloc::{AllocError, Global};
use std::marker::Model;

/// A queue of bytes, taken from its front. What was given stays in front of what waits until it is at least as long,
/// so that each byte is moved at most once more for each byte given, however small the portions.
#[derive(Drop)]
pub struct Queue {
    alloc: Global,
    bytes: Vec<u8>,
    given: usize,
}

impl Model for Queue {
    ghost use Rattle.std.specs.Prelude.{List, ℕ, drop, length, ◌≤◌};

    ghost Value = { List ℕ };

    ghost view = { λ o. drop o.given o.bytes.items };

    ghost invariant = { λ o. o.given ≤ length o.bytes.items };
}

impl Queue {
    /// No bytes. Takes no memory.
    pub fn new(alloc: Global) -> Queue
        ensures { result ≡ [] }
    {
        Queue {
            alloc,
            bytes: Vec::new(alloc),
            given: 0,
        }
    }

    /// The bytes of a vector, which isn't copied.
    pub fn from_vec(alloc: Global, bytes: Vec<u8>) -> Queue
        ensures { result ≡ bytes.items }
    {
        Queue {
            alloc,
            bytes,
            given: 0,
        }
    }

    /// Whether nothing waits.
    pub fn is_empty(&self) -> bool
        ensures { IsTrue result ↔ (self.now ≡ []) }
    {
        self.given == self.bytes.len()
    }

    /// What waits.
    pub fn as_slice(&self) -> &[u8]
        ensures { result.now ≡ self.now }
    {
        &self.bytes[self.given..]
    }

    /// Adds bytes at the end.
    pub fn push_slice(&mut self, bytes: &[u8]) -> Result<(), AllocError>
        ensures pushed { OnOk result (self.new ≡ self.old ++ bytes.now) }
        ensures err { OnErr result (self.new ≡ self.old) }
    {
        self.reclaim();
        self.bytes.extend_from_slice(bytes)
    }

    /// Adds the head of a reply whose body has `length` bytes, as it is sent.
    pub fn push_head(
        &mut self,
        status: Status,
        fields: &ReplyFields,
        length: usize,
        close: bool,
    ) -> Result<(), AllocError>
        ensures { OnOk result (self.new ≡ self.old ++ rendered_head status fields.now length close) }
    {
        self.reclaim();
        render_head_into(&mut self.bytes, status, fields, length, close)
    }

    /// Moves what waits to the front of the buffer, where it is shorter than what was given.
    fn reclaim(&mut self)
        ensures { self.new ≡ self.old }
    {
        if self.given <= self.bytes.len() / 2 {
            return;
        }
        let waiting = self.bytes.len() - self.given;
        self.bytes.copy_within(self.given.., 0);
        self.bytes.truncate(waiting);
        self.given = 0;
    }

    /// Gives up the first `n` bytes. A queue that was taken whole gives its memory back.
    pub fn skip(&mut self, n: usize)
        requires { n ≤ length self.old }
        ensures { self.new ≡ drop n self.old }
    {
        self.given += n;
        if self.given == self.bytes.len() {
            self.bytes = Vec::new(self.alloc);
            self.given = 0;
        }
    }
}
