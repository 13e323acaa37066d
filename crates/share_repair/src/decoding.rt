//! The crypttext that k shares are of.
ghost use Rattle.std.specs.Prelude.{◌≡◌, ◌<◌, ◌++◌, ℕ, List, [], length, slice_index_or, map, All, IfOk, IfSome, OnOk, IsTrue, Some};
ghost use Rattle.std.specs.Option.{option_map};
ghost use Rattle.std.specs.List.{concat};
ghost use Rattle.erasure.specs.Given.{numbered_of, AreDistinct};
ghost use Rattle.share_codec.specs.Segments.{segments, segment_count, primary_blocks};
ghost use Rattle.share_codec.specs.GoodShare.{IsCutInBlocks};
ghost use Rattle.share_repair.specs.Decoded.{AreGoodOf, numbered_blocks};

use erasure::{Code, CodeFault};
use share_codec::{Params, Share};
use std::alloc::{AllocError, Global};

/// The crypttext that k good shares give. Where they are shares of none it may be any bytes, or `None`. `Err` only where
/// memory is refused.
pub(crate) fn decoded(
    alloc: Global,
    params: &Params,
    shares: &[Share],
) -> Result<Option<Vec<u8>>, AllocError>
    requires some { 0 < params.now.size }
    requires many { length shares.now ≡ params.now.k }
    requires cut { All (IsCutInBlocks params.now) shares.now }
    ensures given { (crypttext : List ℕ) → AreGoodOf params.now crypttext shares.now
        → IfOk result (λ found. option_map (λ v. v.items) found ≡ Some crypttext) }
    ensures apart { IfOk result (λ found. IfSome found (λ bytes.
        AreDistinct (map (λ share. share.number) shares.now))) }
{
    share_codec::laws::segments_are_joined_again();
    let code = code_of(params);
    let size = (params.size as usize).saturating_add(params.k as usize);
    let mut bytes = Vec::with_capacity(alloc, size)?;
    for at in 0..params.segment_count() {
        if !add_segment(alloc, params, &code, shares, at, &mut bytes)? {
            return Ok(None);
        }
    }
    Ok(Some(bytes))
}

/// The code of a file's blocks.
fn code_of(params: &Params) -> Code
    ensures { (result.k ≡ params.now.k) × (result.n ≡ params.now.n) }
{
    share_codec::laws::params_are_a_sharing(params);
    Code::new(params.k, params.n).unwrap()
}

/// Appends the segment that k good shares give, and answers whether they give one.
fn add_segment(
    alloc: Global,
    params: &Params,
    code: &Code,
    shares: &[Share],
    at: usize,
    bytes: &mut Vec<u8>,
) -> Result<bool, AllocError>
    requires code { (code.now.k ≡ params.now.k) × (code.now.n ≡ params.now.n) }
    requires some { 0 < params.now.size }
    requires many { length shares.now ≡ params.now.k }
    requires cut { All (IsCutInBlocks params.now) shares.now }
    requires inside { at < segment_count params.now }
    ensures yes { (crypttext : List ℕ) → AreGoodOf params.now crypttext shares.now
        → IfOk result (λ given. IsTrue given) }
    ensures apart { IfOk result (λ given. IsTrue given →
        AreDistinct (map (λ share. share.number) shares.now)) }
    ensures bytes { (crypttext : List ℕ) → AreGoodOf params.now crypttext shares.now
        → OnOk result (bytes.new.items
        ≡ bytes.old.items ++ slice_index_or (segments params.now crypttext) at []) }
{
    share_codec::laws::segments_are_joined_again();
    let start = bytes.len();
    let given = push_decoded(alloc, params, code, shares, at, bytes)?;
    let end = start.saturating_add(params.segment_length(at));
    bytes.truncate(end);
    Ok(given)
}

/// Appends what k good shares give at a segment, with its padding, decoded where it stays, and answers whether they give
/// anything.
fn push_decoded(
    alloc: Global,
    params: &Params,
    code: &Code,
    shares: &[Share],
    at: usize,
    bytes: &mut Vec<u8>,
) -> Result<bool, AllocError>
    requires code { (code.now.k ≡ params.now.k) × (code.now.n ≡ params.now.n) }
    requires many { length shares.now ≡ params.now.k }
    requires cut { All (IsCutInBlocks params.now) shares.now }
    requires inside { at < segment_count params.now }
    ensures yes { (crypttext : List ℕ) → AreGoodOf params.now crypttext shares.now
        → IfOk result (λ given. IsTrue given) }
    ensures apart { IfOk result (λ given. IsTrue given →
        AreDistinct (map (λ share. share.number) shares.now)) }
    ensures bytes { (crypttext : List ℕ) → AreGoodOf params.now crypttext shares.now
        → OnOk result (bytes.new.items ≡ bytes.old.items ++ concat (primary_blocks params.now.k
        (slice_index_or (segments params.now crypttext) at []))) }
{
    erasure::laws::true_blocks_decode();
    share_codec::laws::segments_are_joined_again();
    let blocks = numbered(alloc, shares, at)?;
    match code.decode_into(alloc, &blocks, bytes) {
        Ok(()) => Ok(true),
        Err(CodeFault::NoMemory) => Err(AllocError),
        Err(CodeFault::BadParameters) => Ok(false),
        Err(CodeFault::TooFew) => Ok(false),
        Err(CodeFault::Repeated) => Ok(false),
        Err(CodeFault::UnequalLength) => Ok(false),
    }
}

/// The blocks of a segment, numbered.
fn numbered<'a>(
    alloc: Global,
    shares: &'a [Share],
    at: usize,
) -> Result<Vec<(u16, &'a [u8])>, AllocError>
    requires { All (λ share. at < length share.blocks) shares.now }
    ensures { IfOk result (λ blocks. numbered_of blocks.items ≡ numbered_blocks shares.now at) }
{
    let mut blocks = Vec::with_capacity(alloc, shares.len())?;
    for share in shares {
        blocks.push((share.number(), share.block(at)))?;
    }
    Ok(blocks)
}
