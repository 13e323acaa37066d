//! Shares that are made of bytes whose key is known.
ghost use Rattle.std.specs.Prelude.{◌≡◌, ◌<◌, length, IsTrue};
ghost use Rattle.share_codec.specs.Maker.{IsReady};
ghost use Rattle.file_shares.specs.Prepared.{key_under};

use crate::awaited::Awaited;
use crate::encode::shared;
use crate::encoder::Encoder;
use crate::made::Made;
use caps::ReadFields;
use std::alloc::{AllocError, Global};
use std::marker::Model;

/// An upload that is awaited, with a copy of all its bytes, and its shares while they are made.
#[derive(Drop)]
pub struct Coding {
    awaited: Awaited,
    key: [u8; 16],
    encoder: Encoder,
}

impl Model for Coding {
    ghost use Rattle.file_shares.specs.Encoder.{EncoderValue};
    ghost use Rattle.file_shares.specs.Prepared.{IsCoding};

    ghost Value = { EncoderValue };

    ghost view = { λ c. c.encoder };

    ghost invariant = { λ c. IsCoding c.awaited.params c.awaited.secret c.awaited.bytes.items
        c.key c.encoder };
}

impl Coding {
    /// Takes the memory for the shares.
    pub(crate) fn new(alloc: Global, awaited: Awaited, key: [u8; 16]) -> Result<Coding, AllocError>
        requires some { 0 < awaited.params.size }
        requires whole { length awaited.bytes.items ≡ awaited.params.size }
        requires key { key ≡ key_under awaited.params awaited.secret awaited.bytes.items }
    {
        let encoder = Encoder::new(alloc, &awaited.params, key)?;
        Ok(Coding {
            awaited,
            key,
            encoder,
        })
    }

    /// The upload that is awaited.
    pub(crate) fn awaited(&self) -> &Awaited {
        &self.awaited
    }

    /// With one step more.
    pub(crate) fn step(self, alloc: Global) -> Result<Coding, AllocError> {
        let Coding {
            awaited,
            key,
            mut encoder,
        } = self;
        encoder.step(alloc, &awaited.bytes)?;
        Ok(Coding {
            awaited,
            key,
            encoder,
        })
    }

    /// Whether the shares only have to be finished.
    pub(crate) fn is_ready(&self) -> bool
        ensures { IsTrue result → IsReady self.now.maker }
    {
        self.encoder.is_ready()
    }

    /// What is made of the bytes.
    pub(crate) fn finish(self, alloc: Global) -> Result<Made, AllocError>
        requires { IsReady self.maker }
    {
        let Coding {
            awaited,
            key,
            encoder,
        } = self;
        let (shares, ueb) = encoder.finish(alloc)?;
        let shares = shared(alloc, shares)?;
        let fields = ReadFields {
            key,
            ueb,
            k: awaited.params.k,
            n: awaited.params.n,
            size: awaited.params.size,
        };
        Ok(Made::new(awaited, fields, shares))
    }
}
