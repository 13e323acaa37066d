//! Good shares of a file that is prepared, which are decoded.
ghost use Rattle.std.specs.Prelude.{◌≡◌, ◌≤◌, [], length, IfOk, IsTrue};
ghost use Rattle.share_codec.specs.Segments.{segment_count};
ghost use Rattle.file_shares.specs.Taken.{AreTaken};
ghost use Rattle.file_shares.specs.Ahead.{AreDecoded, file_params};

use crate::picked::{Picked, file_params};
use crate::root_check::RootCheck;
use crate::segment::add_segment;
use caps::ReadFields;
use erasure::Code;
use share_codec::{Params, Share};
use std::alloc::{AllocError, Global};

/// How many segments are decoded in a step.
const MOST_SEGMENTS: usize = 4;

/// K good shares of a file, and the first segments of the crypttext that they give.
#[derive(Drop)]
pub struct Decoding {
    picked: Picked,
    code: Code,
    bytes: Vec<u8>,
    at: usize,
    ghost code_is: { (code.k ≡ picked.fields.k) × (code.n ≡ picked.fields.n) },
    ghost decoded: { AreDecoded (file_params picked.fields) picked.shares.items at bytes.items },
}

impl Decoding {
    /// Of no segment yet. The memory for all of them is taken.
    pub(crate) fn new(alloc: Global, picked: Picked) -> Option<Decoding> {
        let params = file_params(&picked.fields);
        let code = Code::new(params.k, params.n).unwrap();
        let size = (params.size as usize).saturating_add(params.k as usize);
        let bytes = Vec::with_capacity(alloc, size).ok()?;
        Some(Decoding {
            picked,
            code,
            bytes,
            at: 0,
        })
    }

    /// The fields of the file.
    pub(crate) fn fields(&self) -> &ReadFields {
        &self.picked.fields
    }

    /// Whether all segments are decoded.
    pub(crate) fn is_whole(&self) -> bool
        ensures { IsTrue result → self.now.at ≡ segment_count (file_params self.now.picked.fields) }
    {
        self.at == file_params(&self.picked.fields).segment_count()
    }

    /// With some segments more. None where one isn't padded with zeros, or memory is refused.
    pub(crate) fn step(self, alloc: Global) -> Option<Decoding> {
        let Decoding {
            picked,
            code,
            mut bytes,
            at,
        } = self;
        let params = file_params(&picked.fields);
        let end = params.segment_count().min(at.saturating_add(MOST_SEGMENTS));
        if !decode(alloc, &params, &code, &picked.shares, at, end, &mut bytes).ok()? {
            return None;
        }
        Some(Decoding {
            picked,
            code,
            bytes,
            at: end,
        })
    }

    /// The crypttext, once all segments are decoded, whose root is still to be compared.
    pub(crate) fn finish(self, alloc: Global) -> RootCheck
        requires { self.at ≡ segment_count (file_params self.picked.fields) }
    {
        let Decoding {
            picked,
            code: _,
            bytes,
            at: _,
        } = self;
        RootCheck::new(alloc, picked, bytes)
    }
}

/// Appends the segments from one place to another, and answers whether each is padded with zeros.
fn decode(
    alloc: Global,
    params: &Params,
    code: &Code,
    shares: &[Share],
    from: usize,
    end: usize,
    bytes: &mut Vec<u8>,
) -> Result<bool, AllocError>
    requires code { (code.now.k ≡ params.now.k) × (code.now.n ≡ params.now.n) }
    requires taken { AreTaken params.now shares.now }
    requires decoded { AreDecoded params.now shares.now from bytes.old.items }
    requires order { from ≤ end }
    requires within { end ≤ segment_count params.now }
    ensures { IfOk result (λ padded. IsTrue padded →
        AreDecoded params.now shares.now end bytes.new.items) }
{
    for at in from..end {
        if !add_segment(alloc, params, code, shares, at, bytes)? {
            return Ok(false);
        }
    }
    Ok(true)
}
