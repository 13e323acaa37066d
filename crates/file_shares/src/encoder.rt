//! The shares of bytes under a key, made step by step.
ghost use Rattle.std.specs.Prelude.{◌≡◌, ◌+◌, ◌<◌, ◌≤◌, ◌^◌, ℕ, List, [], length, take, drop, map, IfOk, OnOk, IsTrue};
ghost use Rattle.std.specs.List.{range_with_len};
ghost use Rattle.aes_ctr.specs.Crypt.{crypt, crypt_from};
ghost use Rattle.erasure.specs.Given.{contents_of};
ghost use Rattle.share_codec.specs.Segments.{segment_count};
ghost use Rattle.share_codec.specs.Shares.{share, ueb_hash};
ghost use Rattle.share_codec.specs.Maker.{IsReady};

use aes_ctr::Key;
use aes_ctr::laws::{keystream_by_place, parts_agree};
use share_codec::laws::segments_are_joined_again;
use share_codec::{Params, ShareMaker};
use std::alloc::{AllocError, Global};
use std::marker::Model;

/// How many segments are hashed side by side.
const LANES: usize = 8;

/// About how many bytes of blocks are hashed in a step.
const BLOCK_BYTES: usize = 1_048_576;

/// The shares of bytes under a key, while they are made. A step encrypts and codes a segment, or hashes the segments that
/// wait for it, or hashes some blocks.
#[derive(Drop)]
pub(crate) struct Encoder {
    key: Key,
    waiting: Vec<Vec<u8>>,
    maker: ShareMaker,
}

impl Model for Encoder {
    ghost use Rattle.std.specs.Prelude.{map};
    ghost use Rattle.file_shares.specs.Encoder.{EncoderValue};

    ghost Value = { EncoderValue };

    ghost view = { λ e. record {
      key = e.key;
      waiting = map (λ segment. segment.items) e.waiting.items;
      maker = e.maker;
    } };
}

impl Encoder {
    ghost use Rattle.file_shares.specs.Encoder.{IsEncoding};

    /// Takes the memory for the shares of bytes of this length.
    pub(crate) fn new(alloc: Global, params: &Params, key: [u8; 16]) -> Result<Encoder, AllocError>
        requires some { 0 < params.now.size }
        requires fits { params.now.size < 2 ^ 63 }
        ensures key { IfOk result (λ encoder. encoder.key ≡ key) }
        ensures params { IfOk result (λ encoder. encoder.maker.params ≡ params.now) }
        ensures encoding { IfOk result (λ encoder. (bytes : List ℕ) →
            length bytes ≡ params.now.size → IsEncoding encoder bytes) }
    {
        keystream_by_place();
        parts_agree();
        let maker = ShareMaker::new(alloc, params)?;
        Ok(Encoder {
            key: Key::new(key),
            waiting: Vec::with_capacity(alloc, LANES)?,
            maker,
        })
    }

    /// Takes the next step. The same bytes are passed each time.
    pub(crate) fn step(&mut self, alloc: Global, bytes: &[u8]) -> Result<(), AllocError>
        requires encoding { IsEncoding self.old bytes.now }
        ensures key { self.new.key ≡ self.old.key }
        ensures params { self.new.maker.params ≡ self.old.maker.params }
        ensures encoding { OnOk result (IsEncoding self.new bytes.now) }
    {
        let count = self.maker.params().segment_count();
        if self.maker.coded() < count && self.waiting.len() < LANES {
            return self.code_next(alloc, bytes);
        }
        if !self.waiting.is_empty() {
            return self.hash_waiting(alloc, bytes);
        }
        self.hash_blocks(alloc, bytes)
    }

    /// Whether the shares only have to be finished.
    pub(crate) fn is_ready(&self) -> bool
        ensures { IsTrue result → IsReady self.now.maker }
    {
        self.maker.is_ready()
    }

    /// Encrypts the next segment, and puts its blocks into the shares.
    fn code_next(&mut self, alloc: Global, bytes: &[u8]) -> Result<(), AllocError>
        requires encoding { IsEncoding self.old bytes.now }
        requires more { self.old.maker.coded < segment_count self.old.maker.params }
        ensures key { self.new.key ≡ self.old.key }
        ensures params { self.new.maker.params ≡ self.old.maker.params }
        ensures encoding { OnOk result (IsEncoding self.new bytes.now) }
    {
        parts_agree();
        segments_are_joined_again();
        let params = *self.maker.params();
        let at = self.maker.coded();
        let _length = params.segment_length(at);
        let size = params.segment_size();
        let place = at * size;
        let plain = params.segment(bytes, at);
        let segment = encrypted(alloc, &self.key, place as u64, plain)?;
        self.maker.code(alloc, &segment)?;
        self.waiting.push(segment)?;
        Ok(())
    }

    /// Hashes the segments that wait for it.
    fn hash_waiting(&mut self, alloc: Global, bytes: &[u8]) -> Result<(), AllocError>
        requires encoding { IsEncoding self.old bytes.now }
        ensures key { self.new.key ≡ self.old.key }
        ensures params { self.new.maker.params ≡ self.old.maker.params }
        ensures encoding { OnOk result (IsEncoding self.new bytes.now) }
    {
        segments_are_joined_again();
        let _ = &bytes;
        let segments = lent(alloc, &self.waiting)?;
        self.maker.hash_segments(alloc, &segments)?;
        drop(segments);
        self.waiting.clear();
        Ok(())
    }

    /// Hashes the next blocks.
    fn hash_blocks(&mut self, alloc: Global, bytes: &[u8]) -> Result<(), AllocError>
        requires encoding { IsEncoding self.old bytes.now }
        requires coded { self.old.maker.coded ≡ segment_count self.old.maker.params }
        ensures key { self.new.key ≡ self.old.key }
        ensures params { self.new.maker.params ≡ self.old.maker.params }
        ensures encoding { OnOk result (IsEncoding self.new bytes.now) }
    {
        let _ = &bytes;
        let size = self.maker.params().block_size();
        let most = LANES.max(BLOCK_BYTES / (size + 1));
        self.maker.hash_blocks(alloc, most - most % LANES)
    }

    /// The shares by their numbers, and the hash of their URI extension block.
    pub(crate) fn finish(self, alloc: Global) -> Result<(Vec<Vec<u8>>, [u8; 32]), AllocError>
        requires ready { IsReady self.maker }
        requires encoding { (bytes : List ℕ) × IsEncoding self bytes }
        ensures shares { (bytes : List ℕ) → IsEncoding self bytes → IfOk result (λ made.
            map (λ share. share.items) made.0.items
            ≡ map (λ i. share self.maker.params (crypt self.key bytes) i)
            (range_with_len 0 self.maker.params.n)) }
        ensures hash { (bytes : List ℕ) → IsEncoding self bytes → IfOk result (λ made.
            made.1 ≡ ueb_hash self.maker.params (crypt self.key bytes)) }
    {
        let Encoder {
            key: _,
            waiting: _,
            maker,
        } = self;
        let made = maker.finish(alloc)?;
        Ok(made)
    }
}

/// These segments, where they stand.
fn lent(alloc: Global, segments: &[Vec<u8>]) -> Result<Vec<&[u8]>, AllocError>
    ensures { IfOk result (λ lent. contents_of lent.items
        ≡ map (λ segment. segment.items) segments.now) }
{
    let mut lent = Vec::with_capacity(alloc, segments.len())?;
    for segment in segments {
        lent.push(segment.as_slice())?;
    }
    Ok(lent)
}

/// These bytes, the first of which is at a place, encrypted.
fn encrypted(alloc: Global, key: &Key, place: u64, plain: &[u8]) -> Result<Vec<u8>, AllocError>
    requires { place + length plain.now < 2 ^ 64 }
    ensures { IfOk result (λ segment. segment.items ≡ crypt_from key.now place plain.now) }
{
    keystream_by_place();
    let mut segment = Vec::with_capacity(alloc, plain.len())?;
    segment.extend_from_slice(plain)?;
    key.apply(place, &mut segment);
    Ok(segment)
}
