//! How the blocks of a share and the segments of a crypttext are hashed: side by side, where they stand.
ghost use Rattle.std.specs.Prelude.{◌≡◌, ◌≤◌, ◌<◌, ◌+◌, ◌*◌, length, map, IfOk};
ghost use Rattle.std.specs.Simd.{first_chunks};
ghost use Rattle.share_codec.specs.Shares.{segment_hashes, roots_of};
ghost use Rattle.share_codec.specs.Tags.{block_hash, segment_hash};
ghost use Rattle.share_codec.specs.Maker.{AreFirstHashes};
ghost use Rattle.tag_hash.specs.Tagged.{tagged};

use crate::cut::{cut, cut_next};
use crate::laws;
use crate::params::Params;
use std::alloc::{AllocError, Global};
use tag_hash::tagged_all;

/// The tag of the hash of a block.
pub(crate) const BLOCK_TAG: &[u8; 16] = b"webgate_block_v1";

/// The tag of the hash of a segment of the crypttext.
pub(crate) const SEGMENT_TAG: &[u8; 28] = b"webgate_crypttext_segment_v1";

/// The hashes of a share's blocks in a row, `count` of `size` bytes, of which the last may be shorter.
pub(crate) fn block_hashes(
    alloc: Global,
    blocks: &[u8],
    size: usize,
    count: usize,
) -> Result<Vec<[u8; 32]>, AllocError>
    requires { count * size ≤ length blocks.now + size }
    ensures { IfOk result (λ hashes. hashes.items
        ≡ map block_hash (first_chunks size count blocks.now)) }
{
    let blocks = cut(alloc, blocks, size, count)?;
    hashes_of(alloc, &blocks)
}

/// Appends the hashes of the next of `count` pieces in a row, at most `most`. Also where memory is refused, they are those
/// of the first pieces.
pub(crate) fn push_next(
    hashes: &mut Vec<[u8; 32]>,
    tag: &[u8],
    bytes: &[u8],
    size: usize,
    count: usize,
    most: usize,
) -> Result<(), AllocError>
    requires fits { count * size ≤ length bytes.now + size }
    requires first { AreFirstHashes hashes.old.items
        (map (tagged tag.now) (first_chunks size count bytes.now)) }
    ensures first { AreFirstHashes hashes.new.items
        (map (tagged tag.now) (first_chunks size count bytes.now)) }
{
    let alloc = *hashes.allocator();
    let pieces = cut_next(alloc, bytes, size, count, hashes.len(), most)?;
    let next = tagged_all(alloc, tag, &pieces)?;
    hashes.extend_from_slice(&next)
}

/// The hashes of blocks.
#[tactic(auto, unfolding(crate::specs::Tags::block_tag))]
pub(crate) fn hashes_of(alloc: Global, blocks: &[&[u8]]) -> Result<Vec<[u8; 32]>, AllocError>
    ensures { IfOk result (λ hashes. hashes.items
        ≡ map (λ block. block_hash block.now) blocks.now) }
{
    tagged_all(alloc, BLOCK_TAG, blocks)
}

/// The hashes of segments.
#[tactic(auto, unfolding(crate::specs::Tags::segment_tag))]
pub(crate) fn hashes_of_segments(
    alloc: Global,
    segments: &[&[u8]],
) -> Result<Vec<[u8; 32]>, AllocError>
    ensures { IfOk result (λ hashes. hashes.items
        ≡ map (λ segment. segment_hash segment.now) segments.now) }
{
    tagged_all(alloc, SEGMENT_TAG, segments)
}

/// The hashes of the segments of a crypttext.
pub(crate) fn segment_hashes(
    alloc: Global,
    params: &Params,
    crypttext: &[u8],
) -> Result<Vec<[u8; 32]>, AllocError>
    requires size { length crypttext.now ≡ params.now.size }
    requires some { 0 < params.now.size }
    ensures { IfOk result (λ hashes. hashes.items ≡ segment_hashes params.now crypttext.now) }
{
    laws::params_are_a_sharing(params);
    let pieces = cut(
        alloc,
        crypttext,
        params.segment_size(),
        params.segment_count(),
    )?;
    tagged_all(alloc, SEGMENT_TAG, &pieces)
}

/// The root of the tree over the hashes of the segments of a crypttext that isn't empty, which the extension block of its
/// shares has. `Err` only where memory is refused.
pub fn crypttext_root(
    alloc: Global,
    params: &Params,
    crypttext: &[u8],
) -> Result<[u8; 32], AllocError>
    requires size { length crypttext.now ≡ params.now.size }
    requires some { 0 < params.now.size }
    ensures { IfOk result (λ root. root ≡ (roots_of params.now crypttext.now).crypttext_root) }
{
    laws::params_are_a_sharing(params);
    let hashes = segment_hashes(alloc, params, crypttext)?;
    Ok(merkle::root(&hashes))
}
