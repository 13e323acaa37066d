//! Uploads that are awaited.
ghost use Rattle.std.specs.Prelude.{◌≡◌, [], IfOk, IsTrue};

use octets::Bytes;
use share_codec::Params;
use std::alloc::{AllocError, Global};

/// The most bytes that are copied in a step.
const MOST_IN_A_STEP: usize = 65_536;

/// An upload that is awaited: its numbers, its secret, and a copy of its first bytes.
#[derive(Drop)]
pub(crate) struct Awaited {
    pub(crate) params: Params,
    pub(crate) secret: Bytes,
    pub(crate) bytes: Vec<u8>,
}

impl Awaited {
    /// One of which no bytes are copied yet. The memory for all of them is taken.
    pub(crate) fn new(alloc: Global, params: &Params, secret: &[u8]) -> Result<Awaited, AllocError>
        ensures params { IfOk result (λ awaited. awaited.params ≡ params.now) }
        ensures secret { IfOk result (λ awaited. awaited.secret ≡ secret.now) }
        ensures bytes { IfOk result (λ awaited. awaited.bytes.items ≡ []) }
    {
        let secret = Bytes::from_slice(alloc, secret)?;
        let bytes = Vec::with_capacity(alloc, params.size as usize)?;
        Ok(Awaited {
            params: *params,
            secret,
            bytes,
        })
    }

    /// Whether these are its numbers and its secret.
    pub(crate) fn is_of(&self, params: &Params, secret: &[u8]) -> bool
        ensures params { IsTrue result → self.now.params ≡ params.now }
        ensures secret { IsTrue result → self.now.secret ≡ secret.now }
    {
        self.params == *params && self.secret.as_slice() == secret
    }

    /// What is copied next of a body and what follows it.
    pub(crate) fn next_piece<'a>(&self, body: &'a [u8], next: &'a [u8]) -> &'a [u8] {
        next_piece(self.bytes.len(), body, next)
    }
}

/// What is copied next of a body and what follows it, where so many bytes were copied.
pub fn next_piece<'a>(copied: usize, body: &'a [u8], next: &'a [u8]) -> &'a [u8] {
    if copied < body.len() {
        first_of(&body[copied..])
    } else {
        first_of(&next[next.len().min(copied - body.len())..])
    }
}

/// The first bytes of these, at most as many as are copied in a step.
fn first_of(bytes: &[u8]) -> &[u8] {
    &bytes[..bytes.len().min(MOST_IN_A_STEP)]
}
