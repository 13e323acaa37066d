//! The hash that a cap has, from the crypttext alone: no share is made, and of all blocks one segment's are kept.
ghost use Rattle.std.specs.Prelude.{◌≡◌, ◌<◌, length, map, All, IfOk};
ghost use Rattle.std.specs.List.{range_with_len};
ghost use Rattle.merkle.specs.Tree.{root};
ghost use Rattle.share_codec.specs.Segments.{segments};
ghost use Rattle.share_codec.specs.Shares.{ueb_hash};
ghost use Rattle.share_codec.specs.Tags.{extension_hash};
ghost use Rattle.share_codec.specs.Ueb.{ueb_text};
ghost use Rattle.cap_binding.specs.BlockHashes.{block_row, hashes_of_share};

use crate::block_hashes::row;
use crate::extension::extension_text;
use erasure::Code;
use share_codec::laws::{params_are_a_sharing, segments_are_joined_again};
use share_codec::{Params, Ueb, crypttext_root};
use std::alloc::{AllocError, Global};
use tag_hash::tagged;

/// The tag of the hash of a URI extension block.
const EXTENSION_TAG: &[u8; 24] = b"webgate_uri_extension_v1";

/// The hash of the URI extension block of a file that isn't empty, as `share_codec::make_shares` gives it beside the
/// shares: so the cap of a file can be held against its crypttext by anybody, without a share.
///
/// Beside the crypttext it keeps 32 bytes for each block, and the blocks of one segment: some 40,000 bytes and 440,000
/// for 16,777,216 bytes at 3 of 10. `Err` only where memory is refused.
pub fn ueb_hash(alloc: Global, params: &Params, crypttext: &[u8]) -> Result<[u8; 32], AllocError>
    requires size { length crypttext.now ≡ params.now.size }
    requires some { 0 < params.now.size }
    ensures { IfOk result (λ hash. hash ≡ ueb_hash params.now crypttext.now) }
{
    params_are_a_sharing(params);
    let rows = rows(alloc, params, crypttext)?;
    let leaves = leaves(alloc, params, &rows)?;
    let roots = Ueb {
        crypttext_root: crypttext_root(alloc, params, crypttext)?,
        share_root: merkle::root(&leaves),
    };
    extension_hash(alloc, params, &roots)
}

/// The hashes of all blocks, segment by segment.
fn rows(alloc: Global, params: &Params, crypttext: &[u8]) -> Result<Vec<Vec<[u8; 32]>>, AllocError>
    requires size { length crypttext.now ≡ params.now.size }
    requires some { 0 < params.now.size }
    ensures rows { IfOk result (λ rows. map (λ row. row.items) rows.items
        ≡ map (block_row params.now) (segments params.now crypttext.now)) }
    ensures some { IfOk result (λ rows. 0 < length rows.items) }
    ensures wide { IfOk result (λ rows. All (λ row. length row.items ≡ params.now.n) rows.items) }
{
    segments_are_joined_again();
    let code = code_of(params);
    let mut rows = Vec::with_capacity(alloc, params.segment_count())?;
    for at in 0..params.segment_count() {
        let row = row(alloc, params, &code, params.segment(crypttext, at))?;
        rows.push(row)?;
    }
    Ok(rows)
}

/// The code of a file's blocks.
fn code_of(params: &Params) -> Code
    ensures { (result.k ≡ params.now.k) × (result.n ≡ params.now.n) }
{
    params_are_a_sharing(params);
    Code::new(params.k, params.n).unwrap()
}

/// The leaves of the share tree: the roots of the trees over the blocks of each share.
fn leaves(
    alloc: Global,
    params: &Params,
    rows: &[Vec<[u8; 32]>],
) -> Result<Vec<[u8; 32]>, AllocError>
    requires some { 0 < length rows.now }
    requires wide { All (λ row. length row.items ≡ params.now.n) rows.now }
    ensures { IfOk result (λ leaves. leaves.items
        ≡ map (λ i. root (hashes_of_share (map (λ row. row.items) rows.now) i))
        (range_with_len 0 params.now.n)) }
{
    let mut leaves = Vec::with_capacity(alloc, params.n as usize)?;
    for number in 0..params.n {
        let hashes = share_hashes(alloc, rows, number as usize)?;
        leaves.push(merkle::root(&hashes))?;
    }
    Ok(leaves)
}

/// The hashes of the blocks of one share.
fn share_hashes(
    alloc: Global,
    rows: &[Vec<[u8; 32]>],
    number: usize,
) -> Result<Vec<[u8; 32]>, AllocError>
    requires { All (λ row. number < length row.items) rows.now }
    ensures { IfOk result (λ hashes. hashes.items
        ≡ hashes_of_share (map (λ row. row.items) rows.now) number) }
{
    let mut hashes = Vec::with_capacity(alloc, rows.len())?;
    for row in rows {
        hashes.push(row[number])?;
    }
    Ok(hashes)
}

/// The hash of the extension block of these numbers and roots.
#[tactic(auto, unfolding(share_codec::specs::Tags::extension_tag))]
fn extension_hash(alloc: Global, params: &Params, roots: &Ueb) -> Result<[u8; 32], AllocError>
    requires { 0 < params.now.size }
    ensures { IfOk result (λ hash. hash
        ≡ extension_hash (ueb_text params.now roots.now)) }
{
    let text = extension_text(alloc, params, roots)?;
    Ok(tagged(EXTENSION_TAG, &text))
}
