//! Bytes that are copied and hashed, a piece at a time.
ghost use Rattle.std.specs.Prelude.{◌≡◌, ◌<◌, length, IsTrue};

use crate::awaited::Awaited;
use crate::coding::Coding;
use crate::encode::tag_of;
use share_codec::Params;
use std::alloc::{AllocError, Global};
use std::marker::Model;
use tag_hash::TagHasher;

/// An upload that is awaited, of which the bytes that are copied are hashed for its key.
#[derive(Drop)]
pub struct Hashing {
    awaited: Awaited,
    hasher: TagHasher,
}

impl Model for Hashing {
    ghost use Rattle.std.specs.Prelude.{◌<◌};
    ghost use Rattle.tag_hash.specs.TagHasher.{HasTaken};
    ghost use Rattle.file_shares.specs.KeyTag.{key_tag};
    ghost use Rattle.file_shares.specs.declared.awaited.Awaited.{Awaited};

    ghost Value = { Awaited };

    ghost view = { λ h. h.awaited };

    ghost invariant = { λ h. (0 < h.awaited.params.size)
        × HasTaken h.hasher (key_tag h.awaited.params h.awaited.secret) h.awaited.bytes.items };
}

impl Hashing {
    /// Of no bytes yet.
    pub(crate) fn new(alloc: Global, params: &Params, secret: &[u8]) -> Result<Hashing, AllocError>
        requires some { 0 < params.now.size }
    {
        let tag = tag_of(alloc, params, secret)?;
        let awaited = Awaited::new(alloc, params, secret)?;
        Ok(Hashing {
            awaited,
            hasher: TagHasher::new(&tag),
        })
    }

    /// The upload that is awaited.
    pub(crate) fn awaited(&self) -> &Awaited {
        &self.awaited
    }

    /// With the next piece of a body and what follows it.
    pub(crate) fn step(self, body: &[u8], next: &[u8]) -> Result<Hashing, AllocError> {
        let Hashing {
            mut awaited,
            mut hasher,
        } = self;
        let piece = awaited.next_piece(body, next);
        awaited.bytes.extend_from_slice(piece)?;
        hasher.update(piece);
        Ok(Hashing { awaited, hasher })
    }

    /// Whether all bytes are hashed.
    pub(crate) fn is_whole(&self) -> bool
        ensures { IsTrue result →
            length self.now.bytes.items ≡ self.now.params.size }
    {
        self.awaited.bytes.len() as u64 == self.awaited.params.size
    }

    /// The beginning of its shares, once all bytes are hashed.
    pub(crate) fn code(self, alloc: Global) -> Result<Coding, AllocError>
        requires whole { length self.bytes.items ≡ self.params.size }
    {
        let Hashing { awaited, hasher } = self;
        Coding::new(alloc, awaited, hasher.finish16())
    }
}
