//! The crypttext of a file that is prepared, whose root is compared.
ghost use Rattle.std.specs.Prelude.{◌≡◌, true};
ghost use Rattle.file_shares.specs.Fit.{crypttext_from, has_padding};
ghost use Rattle.file_shares.specs.Ahead.{file_params, AreDecoded};
ghost use Rattle.share_codec.specs.Segments.{segment_count};

use crate::picked::{Picked, file_params};
use crate::ready::Ready;
use caps::ReadFields;
use share_codec::CrypttextReading;
use std::alloc::Global;

/// How many segments are hashed in a step.
const MOST_SEGMENTS: usize = 8;

/// K good shares of a file, and the crypttext that they give while it is hashed.
#[derive(Drop)]
pub struct RootCheck {
    picked: Picked,
    crypttext: CrypttextReading,
    is_hashed: bool,
    ghost params: { crypttext.params ≡ file_params picked.fields },
    ghost decoded: { crypttext.text ≡ crypttext_from (file_params picked.fields) picked.shares.items },
    ghost padded: { has_padding (file_params picked.fields) picked.shares.items ≡ true },
}

impl RootCheck {
    /// Of no segment yet.
    pub(crate) fn new(alloc: Global, picked: Picked, bytes: Vec<u8>) -> RootCheck
        requires { let p = file_params picked.fields in
            AreDecoded p picked.shares.items (segment_count p) bytes.items }
    {
        share_codec::laws::segments_are_joined_again();
        erasure::laws::decoded_blocks_are_the_given();
        let params = file_params(&picked.fields);
        let crypttext = CrypttextReading::new(alloc, bytes, &params);
        RootCheck {
            picked,
            crypttext,
            is_hashed: false,
        }
    }

    /// The fields of the file.
    pub(crate) fn fields(&self) -> &ReadFields {
        &self.picked.fields
    }

    /// Whether all segments are hashed.
    pub(crate) fn is_hashed(&self) -> bool {
        self.is_hashed
    }

    /// With some more segments hashed. None where memory is refused.
    pub(crate) fn step(self) -> Option<RootCheck> {
        let RootCheck {
            picked,
            mut crypttext,
            is_hashed: _,
        } = self;
        let is_left = crypttext.step(MOST_SEGMENTS).ok()?;
        Some(RootCheck {
            picked,
            crypttext,
            is_hashed: !is_left,
        })
    }

    /// What is kept of the file. None where the root is another than the shares have, or memory is refused.
    pub(crate) fn finish(self, alloc: Global) -> Option<Ready> {
        let RootCheck {
            picked,
            crypttext,
            is_hashed: _,
        } = self;
        let root = crypttext.root(alloc).ok()?;
        if root != picked.shares[0].ueb().crypttext_root {
            return None;
        }
        Some(Ready::new(picked))
    }
}
