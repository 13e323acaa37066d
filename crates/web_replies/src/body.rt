//! Bodies of replies.
ghost use Rattle.std.specs.Prelude.{◌≡◌, ◌<◌, ◌≤◌, ◌+◌, [], ◌++◌, length, take, drop, IfOk, OnErr, IsOk, IsTrue, ◌↔◌, MatchOption};

use crate::part::Part;
use crate::shared::SharedBytes;
use json_view::Listing;
use octets::Bytes;
use std::alloc::{AllocError, Global};
use std::marker::Model;
use std::mem;

/// Where the bytes of a body come from.
#[derive(Drop)]
pub(crate) enum Source {
    /// They are at hand.
    Bytes(Bytes),
    /// They are decoded as they are asked for.
    Part(Part),
    /// They are shared with other replies.
    Shared(SharedBytes),
    /// They are made of a directory's text as they are asked for.
    Listing(Listing),
}

/// The bytes of a body that are left: they are at hand, decoded or made as they are asked for, or shared with other
/// replies. Contracts see them as bytes.
pub struct Body {
    source: Source,
}

// Its own, so that what owns one calls it: a derived drop is spelled out wherever a value may be dropped.
impl Drop for Body {
    fn drop(self) {
        let Body { source: _ } = self;
    }
}

impl Model for Body {
    ghost use Rattle.std.specs.Prelude.{List, ℕ};
    ghost use Rattle.web_replies.specs.Bodies.{body_bytes};

    ghost Value = { List ℕ };

    ghost view = { λ b. body_bytes b.source };
}

impl Body {
    /// These bytes, which are moved.
    pub fn from_bytes(bytes: Bytes) -> Self
        ensures { result ≡ bytes }
    {
        Body {
            source: Source::Bytes(bytes),
        }
    }

    /// A part of a file.
    pub fn from_part(part: Part) -> Self
        ensures { result ≡ part }
    {
        Body {
            source: Source::Part(part),
        }
    }

    /// Bytes that other replies may have too.
    pub fn from_shared(bytes: SharedBytes) -> Self
        ensures { result ≡ bytes }
    {
        Body {
            source: Source::Shared(bytes),
        }
    }

    /// The JSON of a directory.
    pub(crate) fn from_listing(listing: Listing) -> Self
        ensures { result ≡ listing }
    {
        Body {
            source: Source::Listing(listing),
        }
    }

    /// So many of its bytes, from a place on: a copy where they are at hand, shared or made.
    pub(crate) fn narrow(self, alloc: Global, from: usize, count: usize) -> Result<Body, AllocError>
        requires { from + count ≤ length self }
        ensures { IfOk result (λ body. body ≡ take count (drop from self)) }
    {
        let Body { source } = self;
        match source {
            Source::Bytes(bytes) => copy_of(alloc, bytes.as_slice(), from, count),
            Source::Part(part) => Ok(Body::from_part(part.narrow(from, count))),
            Source::Shared(bytes) => copy_of(alloc, bytes.as_slice(), from, count),
            Source::Listing(listing) => copy_of(alloc, &made(alloc, listing)?, from, count),
        }
    }

    /// How many bytes are left.
    pub fn len(&self) -> usize
        ensures { result ≡ length self.now }
    {
        match &self.source {
            Source::Bytes(bytes) => bytes.len(),
            Source::Part(part) => part.len(),
            Source::Shared(bytes) => bytes.len(),
            Source::Listing(listing) => listing.len(),
        }
    }

    /// Whether no byte is left.
    pub fn is_empty(&self) -> bool
        ensures { IsTrue result ↔ (self.now ≡ []) }
    {
        self.len() == 0
    }

    /// The next bytes, of which there is one at least, or none where no byte is left: all where they are at hand, those of
    /// the next segment where they are decoded, those of the next children where they are made, and a copy of up to 65,536
    /// of those that are shared.
    ///
    /// # Errors
    /// Only where memory is refused. Then the same bytes are left: the call can be made again.
    pub fn next(&mut self, alloc: Global) -> Result<Option<Vec<u8>>, AllocError>
        ensures given { IfOk result (λ given.
            MatchOption given ((self.old ≡ []) × (self.new ≡ []))
            (λ bytes. (0 < length bytes.items) × (self.old ≡ bytes.items ++ self.new))) }
        ensures err { OnErr result (self.new ≡ self.old) }
        ensures nothing { self.old ≡ [] → IsOk result }
    {
        match &mut self.source {
            Source::Bytes(bytes) => Ok(all_of(alloc, bytes)),
            Source::Part(part) => part.next(),
            Source::Shared(bytes) => bytes.next(alloc),
            Source::Listing(listing) => listing.next(alloc),
        }
    }
}

/// A copy of so many bytes, from a place on.
fn copy_of(alloc: Global, bytes: &[u8], from: usize, count: usize) -> Result<Body, AllocError>
    requires { from + count ≤ length bytes.now }
    ensures { IfOk result (λ body. body ≡ take count (drop from bytes.now)) }
{
    let part = &bytes[from..from + count];
    Ok(Body::from_bytes(Bytes::from_slice(alloc, part)?))
}

/// All of the bytes, which are moved, or none where there is none.
fn all_of(alloc: Global, bytes: &mut Bytes) -> Option<Vec<u8>>
    ensures { MatchOption result ((bytes.old ≡ []) × (bytes.new ≡ []))
        (λ all. (0 < length all.items) × (bytes.old ≡ all.items ++ bytes.new)) }
{
    if bytes.is_empty() {
        return None;
    }
    let all = mem::replace(bytes, Bytes::new(alloc));
    Some(all.into_vec())
}

/// All bytes of the JSON of a directory.
fn made(alloc: Global, listing: Listing) -> Result<Vec<u8>, AllocError>
    ensures { IfOk result (λ bytes. bytes.items ≡ listing) }
{
    let mut left = listing;
    let mut all = Vec::with_capacity(alloc, left.len())?;
    while let Some(bytes) = left.next(alloc)? {
        all.extend_from_slice(&bytes)?;
    }
    Ok(all)
}
