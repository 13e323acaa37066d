//! Tagged hashes.
ghost use Rattle.std.specs.Prelude.{◌≡◌, ℕ, List, [], ◌++◌, take};
ghost use Rattle.sha2.specs.Hashers.{Holds256};
ghost use Rattle.tag_hash.specs.Netstring.{netstring};
ghost use Rattle.tag_hash.specs.Pair.{pair};
ghost use Rattle.tag_hash.specs.Tagged.{tagged, tagged16};

use crate::decimals::Decimal;
use sha2::{Digest, Sha256};

/// A tagged hash of a value that is given piece by piece.
#[derive(Drop)]
pub struct TagHasher {
    inner: Sha256,
}

impl TagHasher {
    ghost use Rattle.tag_hash.specs.TagHasher.{HasTaken};

    /// A hasher for this tag, that was given nothing of a value yet.
    pub fn new(tag: &[u8]) -> Self
        ensures { HasTaken result tag.now [] }
    {
        let mut inner = Sha256::new();
        update_netstring(&mut inner, tag);
        TagHasher { inner }
    }

    /// Appends a piece to the value.
    pub fn update(&mut self, piece: &[u8])
        ensures { (tag value : List ℕ) → HasTaken self.old tag value →
            HasTaken self.new tag (value ++ piece.now) }
    {
        self.inner.update(piece);
    }

    /// Appends the netstring of a piece to the value.
    pub fn update_netstring(&mut self, piece: &[u8])
        ensures { (tag value : List ℕ) → HasTaken self.old tag value →
            HasTaken self.new tag (value ++ netstring piece.now) }
    {
        update_netstring(&mut self.inner, piece);
    }

    /// The tagged hash of the value, 32 bytes.
    pub fn finish(self) -> [u8; 32]
        ensures { (tag value : List ℕ) → HasTaken self tag value → result ≡ tagged tag value }
    {
        let once = self.inner.finalize();
        Sha256::digest(once)
    }

    /// The first 16 bytes of the tagged hash of the value.
    pub fn finish16(self) -> [u8; 16]
        ensures { (tag value : List ℕ) → HasTaken self tag value → result ≡ tagged16 tag value }
    {
        first_half(self.finish())
    }
}

/// The tagged hash of `value`, 32 bytes: SHA-256 of SHA-256 of the netstring of `tag` and of `value`
/// after it. It hashes `value` once, where it lies, and takes no memory.
pub fn tagged(tag: &[u8], value: &[u8]) -> [u8; 32]
    ensures { result ≡ tagged tag.now value.now }
{
    let mut hasher = TagHasher::new(tag);
    hasher.update(value);
    hasher.finish()
}

/// The first 16 bytes of the tagged hash of `value`, which it hashes once.
pub fn tagged16(tag: &[u8], value: &[u8]) -> [u8; 16]
    ensures { result ≡ tagged16 tag.now value.now }
{
    first_half(tagged(tag, value))
}

/// The tagged hash of a pair, 32 bytes: SHA-256 of SHA-256 of the netstrings of `tag`, `first` and
/// `second`. It hashes each once, where it lies, and takes no memory.
pub fn pair(tag: &[u8], first: &[u8], second: &[u8]) -> [u8; 32]
    ensures { result ≡ pair tag.now first.now second.now }
{
    let mut hasher = TagHasher::new(tag);
    hasher.update_netstring(first);
    hasher.update_netstring(second);
    hasher.finish()
}

/// Feeds the netstring of these bytes.
fn update_netstring(hasher: &mut Sha256, bytes: &[u8])
    ensures { (message : List ℕ) → Holds256 hasher.old message
        → Holds256 hasher.new (message ++ netstring bytes.now) }
{
    let size = Decimal::new(bytes.len() as u64);
    hasher.update(size.as_bytes());
    hasher.update(b":");
    hasher.update(bytes);
    hasher.update(b",");
}

/// The first 16 bytes of a digest.
fn first_half(digest: [u8; 32]) -> [u8; 16]
    ensures { result ≡ take 16 digest }
{
    let mut half = [0u8; 16];
    half.copy_from_slice(&digest[..16]);
    half
}
