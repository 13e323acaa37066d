//! The hashes of a segment's blocks, share by share.
ghost use Rattle.std.specs.Prelude.{◌≡◌, ◌*◌, length, map, IfOk};
ghost use Rattle.std.specs.List.{range_with_len};
ghost use Rattle.std.specs.Simd.{first_chunks};
ghost use Rattle.erasure.specs.Blocks.{block_of};
ghost use Rattle.erasure.specs.Given.{contents_of, HaveOneLength};
ghost use Rattle.share_codec.specs.Tags.{block_hash};
ghost use Rattle.cap_binding.specs.BlockHashes.{block_row};

use crate::cut::{cut, padded};
use erasure::{Code, CodeFault};
use share_codec::Params;
use std::alloc::{AllocError, Global};
use tag_hash::tagged_all;

/// The tag of the hash of a block.
const BLOCK_TAG: &[u8; 16] = b"webgate_block_v1";

/// The hashes of the blocks that the shares have of a segment, in the order of the shares' numbers. A copy is made only
/// of a segment that has to be padded; the blocks are let go.
pub(crate) fn row(
    alloc: Global,
    params: &Params,
    code: &Code,
    segment: &[u8],
) -> Result<Vec<[u8; 32]>, AllocError>
    requires { (code.now.k ≡ params.now.k) × (code.now.n ≡ params.now.n) }
    ensures { IfOk result (λ row. row.items ≡ block_row params.now segment.now) }
{
    let count = params.k as usize;
    let size = segment.len().div_ceil(count);
    if segment.len() == size * count {
        padded_row(alloc, params, code, segment, size)
    } else {
        let bytes = padded(alloc, segment, size * count)?;
        padded_row(alloc, params, code, &bytes, size)
    }
}

/// The same of a padded segment, whose primary blocks have this size.
fn padded_row(
    alloc: Global,
    params: &Params,
    code: &Code,
    bytes: &[u8],
    size: usize,
) -> Result<Vec<[u8; 32]>, AllocError>
    requires code { (code.now.k ≡ params.now.k) × (code.now.n ≡ params.now.n) }
    requires whole { length bytes.now ≡ size * params.now.k }
    ensures { IfOk result (λ row. row.items
        ≡ map (λ i. block_hash (block_of (first_chunks size params.now.k bytes.now) i))
        (range_with_len 0 params.now.n)) }
{
    let primary = cut(alloc, bytes, size, params.k as usize)?;
    let blocks = coded(alloc, params, code, &primary)?;
    hashed(alloc, &blocks)
}

/// The blocks of all numbers.
fn coded(
    alloc: Global,
    params: &Params,
    code: &Code,
    primary: &[&[u8]],
) -> Result<Vec<Vec<u8>>, AllocError>
    requires code { (code.now.k ≡ params.now.k) × (code.now.n ≡ params.now.n) }
    requires count { length primary.now ≡ params.now.k }
    requires one_length { HaveOneLength (contents_of primary.now) }
    ensures { IfOk result (λ blocks. map (λ block. block.items) blocks.items
        ≡ map (block_of (contents_of primary.now)) (range_with_len 0 params.now.n)) }
{
    let mut blocks = Vec::with_capacity(alloc, params.n as usize)?;
    for number in 0..params.n {
        let mut block = Vec::new(alloc);
        code.encode_block_into(primary, number, &mut block)?;
        blocks.push(block)?;
    }
    Ok(blocks)
}

/// The hashes of blocks, eight at a time.
#[tactic(auto, unfolding(share_codec::specs::Tags::block_tag))]
fn hashed(alloc: Global, blocks: &[Vec<u8>]) -> Result<Vec<[u8; 32]>, AllocError>
    ensures { IfOk result (λ hashes. hashes.items
        ≡ map (λ block. block_hash block.items) blocks.now) }
{
    let slices = slices(alloc, blocks)?;
    tagged_all(alloc, BLOCK_TAG, &slices)
}

/// The blocks as slices.
fn slices(alloc: Global, blocks: &[Vec<u8>]) -> Result<Vec<&[u8]>, AllocError>
    ensures { IfOk result (λ slices. contents_of slices.items
        ≡ map (λ block. block.items) blocks.now) }
{
    let mut slices = Vec::with_capacity(alloc, blocks.len())?;
    for block in blocks {
        slices.push(block.as_slice())?;
    }
    Ok(slices)
}
