//! Storage indexes.
ghost use Rattle.std.specs.Prelude.{◌≡◌};
ghost use Rattle.caps.specs.StorageIndex.{index_of};

use tag_hash::tagged16;

/// The tag of the hash that makes storage indexes.
const INDEX_TAG: &[u8; 31] = b"webgate_key_to_storage_index_v1";

/// The storage index of a key, under which the shares of its file lie. Takes no memory.
#[tactic(auto, unfolding(crate::specs::StorageIndex::index_tag))]
pub fn storage_index(key: &[u8; 16]) -> [u8; 16]
    ensures { result ≡ index_of key.now }
{
    tagged16(INDEX_TAG, key)
}
