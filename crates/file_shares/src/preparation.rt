//! Uploads that are prepared: what is made of bytes before they are uploaded, step by step.
ghost use Rattle.std.specs.Prelude.{◌≡◌, ◌<◌, map, IfOk};
ghost use Rattle.std.specs.Rc.{rc_slice_items};
ghost use Rattle.file_shares.specs.Prepared.{fields_under, shares_under};

use crate::awaited::Awaited;
use crate::coding::Coding;
use crate::hashing::Hashing;
use crate::made::Made;
use caps::ReadFields;
use share_codec::Params;
use std::alloc::{AllocError, Global};
use std::rc::RcSlice;

/// What an upload will need, as far as it is prepared.
#[derive(Drop)]
pub enum Preparation {
    /// Its bytes are copied and hashed.
    Hashing(Hashing),
    /// Its shares are made.
    Coding(Coding),
    /// All is made.
    Made(Made),
}

impl Preparation {
    /// Before the first step.
    pub fn new(alloc: Global, params: &Params, secret: &[u8]) -> Result<Preparation, AllocError>
        requires some { 0 < params.now.size }
    {
        Ok(Preparation::Hashing(Hashing::new(alloc, params, secret)?))
    }

    /// Whether it is for an upload with these numbers and this secret.
    pub fn is_of(&self, params: &Params, secret: &[u8]) -> bool {
        self.awaited().is_of(params, secret)
    }

    /// The upload that is awaited.
    fn awaited(&self) -> &Awaited {
        match self {
            Preparation::Hashing(hashing) => hashing.awaited(),
            Preparation::Coding(coding) => coding.awaited(),
            Preparation::Made(made) => made.awaited(),
        }
    }

    /// Whether all is made.
    pub fn is_made(&self) -> bool {
        matches!(self, Preparation::Made(_))
    }

    /// With one step more, for a body and what follows it.
    pub fn step(self, alloc: Global, body: &[u8], next: &[u8]) -> Result<Preparation, AllocError> {
        match self {
            Preparation::Hashing(hashing) => hash_next(alloc, hashing, body, next),
            Preparation::Coding(coding) => code_next(alloc, coding),
            Preparation::Made(made) => Ok(Preparation::Made(made)),
        }
    }

    /// The read fields and the shares, where all is made and these are the numbers, the secret and the bytes. Else itself
    /// is given back.
    pub fn give(
        self,
        params: &Params,
        secret: &[u8],
        bytes: &[u8],
    ) -> Result<(ReadFields, Vec<RcSlice<u8>>), Preparation>
        ensures fields { IfOk result (λ made.
            made.0 ≡ fields_under params.now secret.now bytes.now) }
        ensures shares { IfOk result (λ made.
            map rc_slice_items made.1.items ≡ shares_under params.now secret.now bytes.now) }
    {
        match self {
            Preparation::Hashing(hashing) => Err(Preparation::Hashing(hashing)),
            Preparation::Coding(coding) => Err(Preparation::Coding(coding)),
            Preparation::Made(made) => match made.give(params, secret, bytes) {
                Ok(made) => Ok(made),
                Err(made) => Err(Preparation::Made(made)),
            },
        }
    }
}

/// Hashes the next piece, or begins the shares once all is hashed.
fn hash_next(
    alloc: Global,
    hashing: Hashing,
    body: &[u8],
    next: &[u8],
) -> Result<Preparation, AllocError> {
    if hashing.is_whole() {
        return Ok(Preparation::Coding(hashing.code(alloc)?));
    }
    Ok(Preparation::Hashing(hashing.step(body, next)?))
}

/// Takes the next step of the shares, or finishes them.
fn code_next(alloc: Global, coding: Coding) -> Result<Preparation, AllocError> {
    if coding.is_ready() {
        return Ok(Preparation::Made(coding.finish(alloc)?));
    }
    Ok(Preparation::Coding(coding.step(alloc)?))
}
