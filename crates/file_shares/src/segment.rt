//! Segments that are decoded.
ghost use Rattle.std.specs.Prelude.{◌≡◌, ◌<◌, ◌++◌, ◌==◌, length, All, IfOk, OnOk};
ghost use Rattle.std.specs.List.{list_all};
ghost use Rattle.erasure.specs.Given.{numbered_of};
ghost use Rattle.share_codec.specs.Segments.{segment_count};
ghost use Rattle.file_shares.specs.Taken.{AreTaken};
ghost use Rattle.file_shares.specs.Fit.{blocks_at, decoded_at, segment_from, has_zeros};

use erasure::{Code, CodeFault};
use share_codec::{Params, Share};
use std::alloc::{AllocError, Global};

/// Appends the segment that k good shares give, and answers whether its padding is zeros.
pub(crate) fn add_segment(
    alloc: Global,
    params: &Params,
    code: &Code,
    shares: &[Share],
    at: usize,
    bytes: &mut Vec<u8>,
) -> Result<bool, AllocError>
    requires code { (code.now.k ≡ params.now.k) × (code.now.n ≡ params.now.n) }
    requires taken { AreTaken params.now shares.now }
    requires inside { at < segment_count params.now }
    ensures bytes { OnOk result (bytes.new.items
        ≡ bytes.old.items ++ segment_from params.now shares.now at) }
    ensures zeros { IfOk result (λ zeros. zeros ≡ has_zeros params.now shares.now at) }
{
    erasure::laws::decoded_blocks_are_the_given();
    let start = bytes.len();
    push_decoded(alloc, params, code, shares, at, bytes)?;
    let end = start + params.segment_length(at);
    let zeros = is_zeros(&bytes[end..]);
    bytes.truncate(end);
    Ok(zeros)
}

/// Appends what k good shares give at a segment, with its padding, decoded where it stays.
fn push_decoded(
    alloc: Global,
    params: &Params,
    code: &Code,
    shares: &[Share],
    at: usize,
    bytes: &mut Vec<u8>,
) -> Result<(), AllocError>
    requires code { (code.now.k ≡ params.now.k) × (code.now.n ≡ params.now.n) }
    requires taken { AreTaken params.now shares.now }
    requires inside { at < segment_count params.now }
    ensures { OnOk result (bytes.new.items
        ≡ bytes.old.items ++ decoded_at params.now shares.now at) }
{
    let blocks = numbered(alloc, shares, at)?;
    match code.decode_into(alloc, &blocks, bytes) {
        Ok(()) => Ok(()),
        Err(CodeFault::NoMemory) => Err(AllocError),
        Err(CodeFault::BadParameters) => unreachable!(),
        Err(CodeFault::TooFew) => unreachable!(),
        Err(CodeFault::Repeated) => unreachable!(),
        Err(CodeFault::UnequalLength) => unreachable!(),
    }
}

/// The blocks of a segment, numbered.
fn numbered<'a>(
    alloc: Global,
    shares: &'a [Share],
    at: usize,
) -> Result<Vec<(u16, &'a [u8])>, AllocError>
    requires { All (λ share. at < length share.blocks) shares.now }
    ensures { IfOk result (λ blocks. numbered_of blocks.items ≡ blocks_at shares.now at) }
{
    let mut blocks = Vec::with_capacity(alloc, shares.len())?;
    for share in shares {
        blocks.push((share.number(), share.block(at)))?;
    }
    Ok(blocks)
}

/// Whether there is no other byte than zeros.
fn is_zeros(bytes: &[u8]) -> bool
    ensures { result ≡ list_all (λ byte. byte == 0) bytes.now }
{
    bytes.iter().all(|byte| *byte == 0)
}
