//! Bytes that wait to be taken.
ghost use Rattle.std.specs.Prelude.{◌≡◌, ◌≢◌, ◌-◌, min, ◌⊎◌, ◌≤◌, ◌<◌, ◌+◌, ◌^◌, [], ◌++◌, length, take, drop, OnOk, IfOk, OnErr, IsOk, IsTrue, true, false, Ok, ◌↔◌, MatchOption, None, Some, unwrap_or};
ghost use Rattle.http_edge.specs.Reply.{rendered};

use crate::queue::Queue;
use crate::wire::Sent;
use std::alloc::{AllocError, Global};
use std::marker::Model;
use std::mem;
use web_replies::Body;

/// How many bytes a body has at least that waits as it came: a page.
const LONG: usize = 4096;

/// A queue of bytes, taken from its front. A long body that comes last waits as it came: in its memory, or as the part of
/// a file that it is, of which the next segment is decoded when its first byte is asked for. It is kept only while bytes
/// of it are left: with its last segment it is given up, and so are the shares that it holds.
pub struct Output {
    alloc: Global,
    front: Queue,
    ready: Queue,
    body: Option<Body>,
}

// Its own, so that what owns one calls it: a derived drop is spelled out wherever a value may be dropped.
impl Drop for Output {
    fn drop(self) {
        let Output {
            alloc: _,
            front: _,
            ready: _,
            body: _,
        } = self;
    }
}

impl Model for Output {
    ghost use Rattle.std.specs.Prelude.{List, ℕ, [], ◌++◌, ◌≢◌, Some, unwrap_or};

    ghost Value = { List ℕ };

    ghost view = { λ o. o.front ++ (o.ready ++ unwrap_or o.body []) };

    // No body is kept of which no byte is left.
    ghost invariant = { λ o. o.body ≢ Some [] };
}

impl Output {
    /// No bytes. Takes no memory.
    pub fn new(alloc: Global) -> Output
        ensures { result ≡ [] }
    {
        Output {
            alloc,
            front: Queue::new(alloc),
            ready: Queue::new(alloc),
            body: None,
        }
    }

    /// Whether nothing waits.
    pub fn is_empty(&self) -> bool
        ensures { IsTrue result ↔ (self.now ≡ []) }
    {
        if !self.front.is_empty() || !self.ready.is_empty() {
            return false;
        }
        self.body.is_none()
    }

    /// How many bytes wait, up to 2^64 - 1.
    pub fn len(&self) -> usize
        ensures { result ≡ min (length self.now) (2 ^ 64 - 1) }
    {
        let front = self.front.as_slice().len();
        let ready = front.saturating_add(self.ready.as_slice().len());
        ready.saturating_add(length_of(&self.body))
    }

    /// Adds a reply at the end, as it is sent. A long body waits as it came, and of a short one its bytes do.
    pub fn push_reply(
        &mut self,
        reply: Sent,
        head_only: bool,
        close: bool,
    ) -> Result<(), AllocError>
        ensures { OnOk result (self.new ≡ self.old ++ rendered reply head_only close) }
    {
        flush_body(self.alloc, &mut self.front, &mut self.ready, &mut self.body)?;
        let Sent {
            status,
            fields,
            body,
        } = reply;
        let length = body.len();
        self.front.push_head(status, &fields, length, close)?;
        if head_only {
            return Ok(());
        }
        self.body = left_of(body);
        if length < LONG {
            flush_body(self.alloc, &mut self.front, &mut self.ready, &mut self.body)?;
        }
        Ok(())
    }

    /// Adds bytes at the end.
    pub fn push_slice(&mut self, bytes: &[u8]) -> Result<(), AllocError>
        ensures { OnOk result (self.new ≡ self.old ++ bytes.now) }
    {
        flush_body(self.alloc, &mut self.front, &mut self.ready, &mut self.body)?;
        self.front.push_slice(bytes)
    }

    /// Takes the first bytes, as many as are there. An output that was taken whole gives its memory back.
    pub fn take(&mut self, max: usize) -> Result<Vec<u8>, AllocError>
        ensures given { IfOk result (λ given. given.items ≡ take max self.old) }
        ensures rest { OnOk result (self.new ≡ drop max self.old) }
        ensures err { OnErr result (self.new ≡ self.old) }
        ensures nothing_asked { max ≡ 0 → IsOk result }
        ensures nothing_there { self.old ≡ [] → IsOk result }
    {
        make_ready(
            self.alloc,
            &mut self.front,
            &mut self.ready,
            &mut self.body,
            max,
        )?;
        let front = first(self.front.as_slice(), max);
        let ready = first(self.ready.as_slice(), max - front.len());
        let (of_front, of_ready) = (front.len(), ready.len());
        let given = joined(self.alloc, front, ready)?;
        self.front.skip(of_front);
        self.ready.skip(of_ready);
        Ok(given)
    }
}

/// How many bytes a body has, if there is one.
fn length_of(body: &Option<Body>) -> usize
    ensures { result ≡ length (unwrap_or body.now []) }
{
    match body {
        Some(body) => body.len(),
        None => 0,
    }
}

/// The first bytes, as many as are there.
fn first(bytes: &[u8], max: usize) -> &[u8]
    ensures { result.now ≡ take max bytes.now }
{
    &bytes[..max.min(bytes.len())]
}

/// Both parts.
fn joined(alloc: Global, front: &[u8], ready: &[u8]) -> Result<Vec<u8>, AllocError>
    requires { length front.now + length ready.now < 2 ^ 64 }
    ensures text { IfOk result (λ text. text.items ≡ front.now ++ ready.now) }
    ensures nothing { length front.now + length ready.now ≡ 0 → IsOk result }
{
    let mut text = Vec::with_capacity(alloc, front.len() + ready.len())?;
    text.extend_from_slice(front)?;
    text.extend_from_slice(ready)?;
    Ok(text)
}

/// Has so many bytes at hand, or all where there are fewer.
fn make_ready(
    alloc: Global,
    front: &mut Queue,
    ready: &mut Queue,
    body: &mut Option<Body>,
    max: usize,
) -> Result<(), AllocError>
    requires some { body.old ≢ Some [] }
    ensures same { front.new ++ (ready.new ++ unwrap_or body.new [])
        ≡ front.old ++ (ready.old ++ unwrap_or body.old []) }
    ensures some { body.new ≢ Some [] }
    ensures enough { OnOk result
        ((max ≤ length front.new + length ready.new) ⊎ (body.new ≡ None)) }
    ensures nothing_asked { max ≡ 0 → IsOk result }
    ensures nothing_there { front.old ++ (ready.old ++ unwrap_or body.old []) ≡ [] → IsOk result }
{
    'segments: while front.as_slice().len() + ready.as_slice().len() < max {
        if !decode_next(alloc, front, ready, body)? {
            return Ok(());
        }
    }
    Ok(())
}

/// Brings the next bytes of the body, behind those that were ready. Whether there were any.
fn decode_next(
    alloc: Global,
    front: &mut Queue,
    ready: &mut Queue,
    body: &mut Option<Body>,
) -> Result<bool, AllocError>
    requires some { body.old ≢ Some [] }
    ensures same { front.new ++ (ready.new ++ unwrap_or body.new [])
        ≡ front.old ++ (ready.old ++ unwrap_or body.old []) }
    ensures some { body.new ≢ Some [] }
    ensures more { result ≡ Ok true →
        length (unwrap_or body.new []) < length (unwrap_or body.old []) }
    ensures done { result ≡ Ok false → (ready.new ≡ []) × (body.new ≡ None) }
    ensures nothing { front.old ++ (ready.old ++ unwrap_or body.old []) ≡ [] → IsOk result }
{
    merge_ready(front, ready)?;
    let Some(bytes) = next_of(alloc, body)? else {
        return Ok(false);
    };
    *ready = Queue::from_vec(alloc, bytes);
    Ok(true)
}

/// The next bytes of a body, of which there is one at least. None where there is no body.
fn next_of(alloc: Global, body: &mut Option<Body>) -> Result<Option<Vec<u8>>, AllocError>
    requires some { body.old ≢ Some [] }
    ensures given { IfOk result (λ given.
        MatchOption given ((body.old ≡ None) × (body.new ≡ None))
        (λ bytes. (0 < length bytes.items)
        × (unwrap_or body.old [] ≡ bytes.items ++ unwrap_or body.new []))) }
    ensures some { body.new ≢ Some [] }
    ensures err { OnErr result (unwrap_or body.new [] ≡ unwrap_or body.old []) }
    ensures nothing { body.old ≡ None → IsOk result }
{
    let Some(mut waiting) = body.take() else {
        return Ok(None);
    };
    let given = waiting.next(alloc);
    *body = left_of(waiting);
    given
}

/// A body that is kept while bytes of it are left.
fn left_of(body: Body) -> Option<Body>
    ensures bytes { unwrap_or result [] ≡ body }
    ensures some { result ≢ Some [] }
{
    if body.is_empty() {
        return None;
    }
    Some(body)
}

/// Puts what is ready at the end of `front`.
fn merge_ready(front: &mut Queue, ready: &mut Queue) -> Result<(), AllocError>
    ensures same { front.new ++ ready.new ≡ front.old ++ ready.old }
    ensures done { OnOk result (ready.new ≡ []) }
    ensures nothing { ready.old ≡ [] → IsOk result }
{
    if ready.is_empty() {
        return Ok(());
    }
    if front.is_empty() {
        mem::swap(front, ready);
        return Ok(());
    }
    front.push_slice(ready.as_slice())?;
    ready.skip(ready.as_slice().len());
    Ok(())
}

/// Puts all that waits at the end of `front`.
fn flush_body(
    alloc: Global,
    front: &mut Queue,
    ready: &mut Queue,
    body: &mut Option<Body>,
) -> Result<(), AllocError>
    requires some { body.old ≢ Some [] }
    ensures front { OnOk result (front.new ≡ front.old ++ (ready.old ++ unwrap_or body.old [])) }
    ensures ready { OnOk result (ready.new ≡ []) }
    ensures body { OnOk result (body.new ≡ None) }
    ensures some { body.new ≢ Some [] }
{
    'segments: loop {
        if !decode_next(alloc, front, ready, body)? {
            return Ok(());
        }
    }
}
