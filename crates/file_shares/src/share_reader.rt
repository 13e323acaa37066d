//! Files of which k good shares are held, and that are given a segment at a time.
ghost use Rattle.std.specs.Prelude.{◌≡◌, ◌<◌, ◌≤◌, ◌*◌, length, take, IfOk, OnErr, MatchOption};
ghost use Rattle.aes_ctr.specs.Crypt.{crypt};
ghost use Rattle.share_codec.specs.Segments.{segment_count, segment_size};
ghost use Rattle.file_shares.specs.Taken.{AreTaken};
ghost use Rattle.file_shares.specs.Fit.{crypttext_from};
ghost use Rattle.file_shares.specs.Downloads.{download_left, IsGiven, IsDone, IsPassed};

use crate::cipher::apply_keystream_at;
use crate::segment::add_segment;
use aes_ctr::laws::{keystream_by_place, parts_agree};
use erasure::Code;
use share_codec::{Params, Share};
use std::alloc::{AllocError, Global};
use std::marker::Model;
use std::rc::Rc;

/// A file of which k good shares are held, from a segment on. No store is asked for its bytes.
#[derive(Drop)]
pub struct ShareReader {
    params: Params,
    code: Code,
    key: [u8; 16],
    shares: Rc<Vec<Share>>,
    at: usize,
}

impl Model for ShareReader {
    ghost use Rattle.std.specs.Prelude.{◌≡◌, ◌≤◌};
    ghost use Rattle.aes_ctr.specs.Crypt.{crypt};
    ghost use Rattle.share_codec.specs.Segments.{segment_count};
    ghost use Rattle.file_shares.specs.Taken.{AreTaken};
    ghost use Rattle.file_shares.specs.Fit.{crypttext_from};
    ghost use Rattle.file_shares.specs.Downloads.{DownloadValue, download_left};

    ghost Value = { DownloadValue };

    ghost view = { λ p.
        download_left p.params (crypt p.key (crypttext_from p.params p.shares.value.items)) p.at };

    ghost invariant = { λ p. AreTaken p.params p.shares.value.items × (p.at ≤ segment_count p.params)
        × (p.code.k ≡ p.params.k) × (p.code.n ≡ p.params.n) };
}

impl ShareReader {
    /// The whole file of which these are k good shares, under this key.
    pub fn new(
        alloc: Global,
        params: Params,
        key: [u8; 16],
        shares: Vec<Share>,
    ) -> Result<Self, AllocError>
        requires { AreTaken params shares.items }
        ensures { IfOk result (λ reader. reader
            ≡ download_left params (crypt key (crypttext_from params shares.items)) 0) }
    {
        let code = Code::new(params.k, params.n).unwrap();
        Ok(ShareReader {
            params,
            code,
            key,
            shares: Rc::new(alloc, shares)?,
            at: 0,
        })
    }

    /// Another one of the same bytes. The shares are shared, not copied.
    pub fn twin(&self) -> Result<Self, AllocError>
        ensures { IfOk result (λ twin. twin ≡ self.now) }
    {
        Ok(ShareReader {
            params: self.params,
            code: Code::new(self.params.k, self.params.n).unwrap(),
            key: self.key,
            shares: self.shares.clone()?,
            at: self.at,
        })
    }

    /// The next segment, or none where no byte is left. After a refusal the same bytes are left.
    pub(crate) fn next(&mut self, alloc: Global) -> Result<Option<Vec<u8>>, AllocError>
        ensures given { IfOk result (λ given. MatchOption given (IsDone self.old self.new)
            (λ bytes. IsGiven bytes.items self.old self.new)) }
        ensures err { OnErr result (self.new ≡ self.old) }
    {
        share_codec::laws::segments_are_joined_again();
        erasure::laws::decoded_blocks_are_the_given();
        keystream_by_place();
        parts_agree();
        if self.at == self.params.segment_count() {
            return Ok(None);
        }
        let bytes = segment(
            alloc,
            &self.params,
            &self.code,
            self.key,
            self.shares.as_ref(),
            self.at,
        )?;
        self.at += 1;
        Ok(Some(bytes))
    }

    /// Passes over the segments that end within the next `bytes` bytes, and gives how many bytes these are.
    pub(crate) fn skip(&mut self, bytes: usize) -> usize
        requires { bytes < length self.old.left }
        ensures { IsPassed result bytes self.old self.new }
    {
        share_codec::laws::segments_are_joined_again();
        erasure::laws::decoded_blocks_are_the_given();
        keystream_by_place();
        parts_agree();
        let each = self.params.segment_size();
        let count = bytes / each;
        self.at += count;
        count * each
    }
}

/// The bytes of a segment that k good shares give, decrypted.
fn segment(
    alloc: Global,
    params: &Params,
    code: &Code,
    key: [u8; 16],
    shares: &[Share],
    at: usize,
) -> Result<Vec<u8>, AllocError>
    requires code { (code.now.k ≡ params.now.k) × (code.now.n ≡ params.now.n) }
    requires taken { AreTaken params.now shares.now }
    requires inside { at < segment_count params.now }
    ensures some { IfOk result (λ bytes. 0 < length bytes.items) }
    ensures bytes { let plain = crypt key (crypttext_from params.now shares.now) in
        let left = download_left params.now plain at in
        IfOk result (λ bytes. bytes.items ≡ take left.each left.left) }
{
    share_codec::laws::segments_are_joined_again();
    erasure::laws::decoded_blocks_are_the_given();
    keystream_by_place();
    parts_agree();
    let size = params.size as usize;
    let room = size
        .min(params.segment_length(at))
        .saturating_add(params.k as usize);
    let mut bytes = Vec::with_capacity(alloc, room)?;
    let _zeros = add_segment(alloc, params, code, shares, at, &mut bytes)?;
    let start = at * params.segment_size();
    Ok(apply_keystream_at(key, start as u64, bytes))
}
