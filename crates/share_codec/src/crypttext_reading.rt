//! Crypttexts whose root is made in steps.
ghost use Rattle.std.specs.Prelude.{◌≡◌, ◌<◌, length, IfOk};
ghost use Rattle.share_codec.specs.Shares.{segment_hashes, roots_of};
ghost use Rattle.share_codec.specs.Maker.{AreFirstHashes};

use crate::hashes::{SEGMENT_TAG, crypttext_root, push_next};
use crate::laws;
use crate::params::Params;
use std::alloc::{AllocError, Global};
use std::marker::Model;

/// A crypttext that isn't empty, and the hashes of its segments as far as they are made.
#[derive(Drop)]
pub struct CrypttextReading {
    params: Params,
    bytes: Vec<u8>,
    hashes: Vec<[u8; 32]>,
}

impl Model for CrypttextReading {
    ghost use Rattle.std.specs.Prelude.{◌≡◌, ◌<◌, length};
    ghost use Rattle.share_codec.specs.Shares.{segment_hashes};
    ghost use Rattle.share_codec.specs.Maker.{AreFirstHashes};
    ghost use Rattle.share_codec.specs.Readings.{Reading};

    ghost Value = { Reading };

    ghost view = { λ r. record { text = r.bytes.items; params = r.params } };

    // the hashes are those of the first segments
    ghost invariant = { λ r. (0 < r.params.size) × (length r.bytes.items ≡ r.params.size)
        × AreFirstHashes r.hashes.items (segment_hashes r.params r.bytes.items) };
}

impl CrypttextReading {
    /// Of this crypttext, of whose segments none is hashed.
    pub fn new(alloc: Global, bytes: Vec<u8>, params: &Params) -> Self
        requires size { length bytes.items ≡ params.now.size }
        requires some { 0 < params.now.size }
        ensures { result ≡ record { text = bytes.items; params = params.now } }
    {
        CrypttextReading {
            params: *params,
            bytes,
            hashes: Vec::new(alloc),
        }
    }

    /// Hashes the next segments, at most so many, and says whether some are left.
    pub fn step(&mut self, most: usize) -> Result<bool, AllocError>
        ensures { self.new ≡ self.old }
    {
        hash_next(&mut self.hashes, &self.params, &self.bytes, most)
    }

    /// The root of the tree over the hashes of its segments, as [`crypttext_root`] gives it. Where not all are hashed
    /// yet, all are hashed now. `Err` only where memory is refused.
    pub fn root(&self, alloc: Global) -> Result<[u8; 32], AllocError>
        ensures { IfOk result (λ root.
            root ≡ (roots_of self.now.params self.now.text).crypttext_root) }
    {
        if self.hashes.len() == self.params.segment_count() {
            return Ok(merkle::root(&self.hashes));
        }
        crypttext_root(alloc, &self.params, &self.bytes)
    }

    /// The crypttext.
    pub fn into_bytes(self) -> Vec<u8>
        ensures { result.items ≡ self.text }
    {
        self.bytes
    }
}

/// Appends the hashes of the next segments, at most so many, and says whether some are left.
fn hash_next(
    hashes: &mut Vec<[u8; 32]>,
    params: &Params,
    bytes: &[u8],
    most: usize,
) -> Result<bool, AllocError>
    requires size { length bytes.now ≡ params.now.size }
    requires some { 0 < params.now.size }
    requires first { AreFirstHashes hashes.old.items (segment_hashes params.now bytes.now) }
    ensures { AreFirstHashes hashes.new.items (segment_hashes params.now bytes.now) }
{
    laws::params_are_a_sharing(params);
    let count = params.segment_count();
    push_next(
        hashes,
        SEGMENT_TAG,
        bytes,
        params.segment_size(),
        count,
        most,
    )?;
    Ok(hashes.len() < count)
}
