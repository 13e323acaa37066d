//! Strings that are judged as shares in steps.
ghost use Rattle.std.specs.Prelude.{◌≡◌, ◌≢◌, map, Some, None, IfOk, IfErr};
ghost use Rattle.std.specs.Rc.{rc_slice_items};
ghost use Rattle.share_codec.specs.Tags.{block_hash};
ghost use Rattle.share_codec.specs.Maker.{AreFirstHashes};
ghost use Rattle.share_codec.specs.Readings.{last_blocks};
ghost use Rattle.share_codec.specs.Causes.{Cause};
ghost use Rattle.share_codec.specs.GoodShare.{IsCutInBlocks, good_share};

use crate::fault::ShareFault;
use crate::hashes::{BLOCK_TAG, push_next};
use crate::laws;
use crate::params::Params;
use crate::read::read_hashed;
use crate::share::Share;
use std::alloc::{AllocError, Global};
use std::marker::Model;
use std::rc::RcSlice;

/// A string that is to be judged as a share of a file, and the hashes of its blocks as far as they are made. How far that is
/// changes nothing of what it is judged to be, only how long that takes then.
#[derive(Drop)]
pub struct ShareReading {
    params: Params,
    bytes: RcSlice<u8>,
    hashes: Vec<[u8; 32]>,
}

impl Model for ShareReading {
    ghost use Rattle.std.specs.Prelude.{map};
    ghost use Rattle.std.specs.Rc.{rc_slice_items};
    ghost use Rattle.share_codec.specs.Tags.{block_hash};
    ghost use Rattle.share_codec.specs.Maker.{AreFirstHashes};
    ghost use Rattle.share_codec.specs.Readings.{Reading, last_blocks};

    ghost Value = { Reading };

    ghost view = { λ r. record { text = rc_slice_items r.bytes; params = r.params } };

    // the hashes are those of the first blocks
    ghost invariant = { λ r. AreFirstHashes r.hashes.items
        (map block_hash (last_blocks r.params (rc_slice_items r.bytes))) };
}

impl ShareReading {
    /// Of this string, of whose blocks none is hashed.
    pub fn new(alloc: Global, bytes: RcSlice<u8>, params: &Params) -> Self
        ensures { result ≡ record { text = rc_slice_items bytes; params = params.now } }
    {
        ShareReading {
            params: *params,
            bytes,
            hashes: Vec::new(alloc),
        }
    }

    /// The string.
    pub fn bytes(&self) -> &RcSlice<u8>
        ensures { rc_slice_items result.now ≡ self.now.text }
    {
        &self.bytes
    }

    /// Hashes the next blocks, at most so many, and says whether some are left. Of a string that has no place for the
    /// blocks none is hashed.
    pub fn step(&mut self, most: usize) -> Result<bool, AllocError>
        ensures { self.new ≡ self.old }
    {
        hash_next(&mut self.hashes, &self.params, self.bytes.as_slice(), most)
    }

    /// Judges the string as the share of a number, as [`crate::read_share`] does. Where not all blocks are hashed yet,
    /// all are hashed now.
    ///
    /// # Errors
    /// As those of [`crate::read_share`].
    pub fn read(&self, alloc: Global, number: u16, ueb: &[u8; 32]) -> Result<Share, ShareFault>
        ensures good { let good = good_share self.now.text number self.now.params ueb.now in
            IfOk result (λ share. good ≡ Some share) }
        ensures cut { IfOk result (IsCutInBlocks self.now.params) }
        ensures none { let good = good_share self.now.text number self.now.params ueb.now in
            IfErr result (λ fault. fault ≢ ShareFault.NoMemory → good ≡ None) }
        ensures fault { IfErr result (Cause self.now.text number self.now.params ueb.now) }
    {
        read_hashed(alloc, &self.bytes, number, &self.params, ueb, &self.hashes)
    }
}

/// Appends the hashes of the next blocks, at most so many, and says whether some are left.
fn hash_next(
    hashes: &mut Vec<[u8; 32]>,
    params: &Params,
    bytes: &[u8],
    most: usize,
) -> Result<bool, AllocError>
    requires { AreFirstHashes hashes.old.items (map block_hash (last_blocks params.now bytes.now)) }
    ensures { AreFirstHashes hashes.new.items (map block_hash (last_blocks params.now bytes.now)) }
{
    let size = params.blocks_size();
    if params.size == 0 || bytes.len() <= size {
        return Ok(false);
    }
    laws::params_are_a_sharing(params);
    let end = bytes.len() - 1;
    let count = params.segment_count();
    let blocks = &bytes[end - size..end];
    push_next(hashes, BLOCK_TAG, blocks, params.block_size(), count, most)?;
    Ok(hashes.len() < count)
}
