//! Shares that are judged, where they stand.
ghost use Rattle.std.specs.Prelude.{◌≡◌, ◌<◌, [], length, map, slice_index_or, IfOk};
ghost use Rattle.share_codec.specs.Segments.{blocks_size, cut_blocks};
ghost use Rattle.share_codec.specs.Tags.{block_hash};

use crate::hashes::block_hashes;
use crate::laws;
use crate::params::Params;
use crate::ueb::Ueb;
use std::alloc::{AllocError, Global};
use std::marker::Model;

/// A share that is judged: its number, what its extension block says, and a block of each segment, which stay where they
/// are.
#[derive(Drop)]
pub(crate) struct ShareView<'a> {
    pub(crate) number: u16,
    pub(crate) ueb: Ueb,
    pub(crate) blocks: &'a [u8],
    pub(crate) block_size: usize,
    pub(crate) block_count: usize,
}

impl<'a> Model for ShareView<'a> {
    ghost use Rattle.std.specs.Prelude.{◌<◌, ◌≤◌, ◌*◌, ◌+◌, length};
    ghost use Rattle.std.specs.Simd.{first_chunks};
    ghost use Rattle.share_codec.specs.GoodShare.{GoodShare};

    ghost Value = { GoodShare };

    ghost view = { λ s. record {
      number = s.number;
      ueb = s.ueb;
      blocks = first_chunks s.block_size s.block_count s.blocks.now;
    } };

    ghost invariant = { λ s. (0 < s.block_size)
        × (s.block_count * s.block_size < length s.blocks.now + s.block_size) };
}

impl<'a> ShareView<'a> {
    /// The roots in its extension block.
    pub(crate) fn ueb(&self) -> &Ueb
        ensures { result.now ≡ self.now.ueb }
    {
        &self.ueb
    }

    /// A share of these blocks in a row, which are checked against nothing yet.
    pub(crate) fn new(number: u16, ueb: Ueb, params: &Params, blocks: &'a [u8]) -> Self
        requires some { 0 < params.now.size }
        requires all { length blocks.now ≡ blocks_size params.now }
        ensures { result
            ≡ record { number = number; ueb = ueb; blocks = cut_blocks params.now blocks.now } }
    {
        laws::params_are_a_sharing(params);
        ShareView {
            number,
            ueb,
            blocks,
            block_size: params.block_size(),
            block_count: params.segment_count(),
        }
    }

    /// How many blocks it has.
    pub(crate) fn block_count(&self) -> usize
        ensures { result ≡ length self.now.blocks }
    {
        self.block_count
    }

    /// The hashes of its blocks.
    pub(crate) fn block_hashes(&self, alloc: Global) -> Result<Vec<[u8; 32]>, AllocError>
        ensures { IfOk result (λ hashes. hashes.items ≡ map block_hash self.now.blocks) }
    {
        block_hashes(alloc, self.blocks, self.block_size, self.block_count)
    }
}
