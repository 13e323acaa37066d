//! Long files that are prepared: what is made of strings before a file is read, step by step.
ghost use Rattle.std.specs.Prelude.{◌≡◌, IfOk};

use crate::decoding::Decoding;
use crate::judging::Judging;
use crate::ready::Ready;
use crate::root_check::RootCheck;
use caps::ReadFields;
use std::alloc::Global;
use std::rc::RcSlice;

/// What the reading of a long file will need, as far as it is prepared.
#[derive(Drop)]
pub enum ReadAhead {
    /// Its shares are judged.
    Judging(Judging),
    /// They are decoded.
    Decoding(Decoding),
    /// The root of its crypttext is compared.
    RootCheck(RootCheck),
    /// All is made.
    Ready(Ready),
}

impl ReadAhead {
    /// Of these strings, before they are judged; none where a number below k has none, or memory is refused.
    pub fn new(
        alloc: Global,
        fields: &ReadFields,
        found: Vec<(usize, u16, RcSlice<u8>)>,
    ) -> Option<ReadAhead> {
        Some(ReadAhead::Judging(Judging::new(alloc, fields, found)?))
    }

    /// Whether it is for the file with these fields.
    pub fn is_of(&self, fields: &ReadFields) -> bool {
        self.fields() == fields
    }

    /// The fields of the file.
    fn fields(&self) -> &ReadFields {
        match self {
            ReadAhead::Judging(judging) => judging.fields(),
            ReadAhead::Decoding(decoding) => decoding.fields(),
            ReadAhead::RootCheck(check) => check.fields(),
            ReadAhead::Ready(ready) => ready.fields(),
        }
    }

    /// Whether all is made.
    pub fn is_ready(&self) -> bool {
        matches!(self, ReadAhead::Ready(_))
    }

    /// With one step more. None where the shares don't give the file, or memory is refused.
    pub fn step(self, alloc: Global) -> Option<ReadAhead> {
        match self {
            ReadAhead::Judging(judging) => judge_next(alloc, judging),
            ReadAhead::Decoding(decoding) => decode_next(alloc, decoding),
            ReadAhead::RootCheck(check) => check_next(alloc, check),
            ReadAhead::Ready(ready) => Some(ReadAhead::Ready(ready)),
        }
    }

    /// What was made, where all of it was and it is for the file with these fields. Else itself is given back.
    pub fn give(self, fields: &ReadFields) -> Result<Ready, ReadAhead>
        ensures { IfOk result (λ ready. ready.fields ≡ fields.now) }
    {
        match self {
            ReadAhead::Judging(judging) => Err(ReadAhead::Judging(judging)),
            ReadAhead::Decoding(decoding) => Err(ReadAhead::Decoding(decoding)),
            ReadAhead::RootCheck(check) => Err(ReadAhead::RootCheck(check)),
            ReadAhead::Ready(ready) => {
                if ready.fields() == fields {
                    Ok(ready)
                } else {
                    Err(ReadAhead::Ready(ready))
                }
            }
        }
    }
}

/// Hashes the next blocks, or takes the good shares once all are hashed.
fn judge_next(alloc: Global, judging: Judging) -> Option<ReadAhead> {
    if judging.is_hashed() {
        return Some(ReadAhead::Decoding(Decoding::new(alloc, judging.finish(alloc)?)?));
    }
    Some(ReadAhead::Judging(judging.step()?))
}

/// Decodes the next segments, or begins to hash the crypttext once all are decoded.
fn decode_next(alloc: Global, decoding: Decoding) -> Option<ReadAhead> {
    if decoding.is_whole() {
        return Some(ReadAhead::RootCheck(decoding.finish(alloc)));
    }
    Some(ReadAhead::Decoding(decoding.step(alloc)?))
}

/// Hashes the next segments, or compares the root once all are hashed.
fn check_next(alloc: Global, check: RootCheck) -> Option<ReadAhead> {
    if check.is_hashed() {
        return Some(ReadAhead::Ready(check.finish(alloc)?));
    }
    Some(ReadAhead::RootCheck(check.step()?))
}
